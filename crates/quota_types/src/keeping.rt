ghost use Rattle.std.specs.Prelude.{◌≡◌, ◌^◌, ◌<◌, None};
ghost use Rattle.quota_types.specs.Kept.{IsKept, kept_of, whole_kib, without_marker};
ghost use Rattle.quota_types.specs.Range.{unfit};
ghost use Rattle.quota_types.specs.Rec.{is_null_of, kib_of};

use crate::{Format, Rec};

/// What a tree file has in place of a record of zeros of identifier 0, since an entry of zeros is an unused one.
const MARKER: Rec = Rec {
    ihard: 0,
    isoft: 0,
    inodes: 0,
    bhard: 0,
    bsoft: 0,
    space: 0,
    btime: 0,
    itime: 1,
};

fn kept_flat(id: u32, rec: Rec) -> Rec
    requires { kib_of rec.space < 2 ^ 32 }
    ensures { result ≡ whole_kib id rec }
{
    let rounded = Rec {
        space: 1024 * rec.kib(),
        ..rec
    };
    if id == 0 {
        Rec {
            btime: 0,
            itime: 0,
            ..rounded
        }
    } else {
        rounded
    }
}

fn kept_tree(id: u32, rec: Rec) -> Rec
    ensures { result ≡ without_marker id rec }
{
    if id == 0 && rec == MARKER {
        Rec::default()
    } else {
        rec
    }
}

/// What the format keeps of an identifier's record for which it has room. A flat file keeps the space in whole KiB,
/// rounded up, and no timers of identifier 0. A tree file keeps a record as it is; only for identifier 0 an `itime` of
/// 1 and otherwise zeros, by which it marks a record of zeros, is kept as zeros.
#[tactic(auto, using(crate::proofs::KeptLemmas::kept_is_kept, crate::proofs::KeptLemmas::kept_null, crate::proofs::KeptLemmas::tree_keeps))]
pub fn kept(format: Format, id: u32, rec: Rec) -> Rec
    requires { unfit format id rec ≡ None }
    ensures kept { result ≡ kept_of format id rec }
    ensures again { IsKept format id result }
    ensures null { is_null_of result ≡ is_null_of rec }
{
    match format {
        Format::V1 | Format::V1R32 => kept_flat(id, rec),
        Format::V2R0 | Format::V2R1 => kept_tree(id, rec),
    }
}
