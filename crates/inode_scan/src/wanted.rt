ghost use Rattle.std.specs.Prelude.{◌≡◌, ◌^◌, ◌≤◌, false, ℕ, Some, None, IfErr, IfOk, IfSome};
ghost use Rattle.quota_types.specs.Kept.{IsKept, kept_of};
ghost use Rattle.quota_types.specs.Range.{unfit};
ghost use Rattle.quota_types.specs.Rec.{is_null_of};
ghost use Rattle.quota_types.specs.Timers.{timers_of};
ghost use Rattle.quota_types.specs.declared.record.Grace.{Grace as GracePeriods};
ghost use Rattle.inode_scan.specs.Apply.{IsKeptEntry, no_room, using, wanted_record};

use crate::Used;
use quota_types::{Entry, Field, Format, Grace, NoRoom, Rec, check_record, next_kept};

/// What the format keeps of the record that an identifier is to have, where it had `rec` and now uses `used`; `None`
/// where that is null.
pub(crate) fn wanted_entry(
    format: Format,
    id: u32,
    rec: Option<Rec>,
    used: Option<Used>,
    grace: Grace,
    now: u64,
) -> Result<Option<Entry>, NoRoom>
    ensures kept { IfOk result (IsKeptEntry format (id, wanted_record grace now rec used)) }
    ensures fits { IfOk result (λ _. no_room format (id, wanted_record grace now rec used) ≡ None) }
    ensures again { IfOk result (λ entry. IfSome entry (λ entry. IsKept format entry.id entry.rec)) }
    ensures lasting { IfOk result (λ entry. IfSome entry (λ entry. is_null_of entry.rec ≡ false)) }
    ensures refused { IfErr result (λ out. no_room format (id, wanted_record grace now rec used) ≡ Some out) }
{
    let rec = rec.unwrap_or_default();
    let used = used.unwrap_or_default();
    let rec = wanted_kept(format, id, rec, used, grace, now)?;
    if rec.is_null() {
        Ok(None)
    } else {
        Ok(Some(Entry { id, rec }))
    }
}

/// What the format keeps of a record with this usage, and with the timers that go with it.
fn wanted_kept(
    format: Format,
    id: u32,
    rec: Rec,
    used: Used,
    grace: Grace,
    now: u64,
) -> Result<Rec, NoRoom>
    ensures kept { IfOk result (λ kept. kept ≡ kept_of format id (timers_of (using rec used) grace now)) }
    ensures again { IfOk result (IsKept format id) }
    ensures fits { IfOk result (λ _. unfit format id (timers_of (using rec used) grace now) ≡ None) }
    ensures refused { IfErr result (λ out. unfit format id (timers_of (using rec used) grace now)
        ≡ Some (out.field, out.value)) }
    ensures id { IfErr result (λ out. out.id ≡ id) }
{
    let Ok(space) = u64::try_from(used.space) else {
        return Err(without_space(format, id, rec, used));
    };
    let rec = Rec {
        space,
        inodes: used.inodes,
        ..rec
    };
    next_kept(format, id, rec, grace, now)
}

/// The first value for which the format has no room, where the space that is used is beyond 64 bits.
fn without_space(format: Format, id: u32, rec: Rec, used: Used) -> NoRoom
    requires { 2 ^ 64 ≤ used.space }
    ensures unfit { (grace : GracePeriods) (now : ℕ) → unfit format id (timers_of (using rec used) grace now)
        ≡ Some (result.field, result.value) }
    ensures id { result.id ≡ id }
{
    let spaceless = Rec {
        inodes: used.inodes,
        space: 0,
        btime: 0,
        itime: 0,
        ..rec
    };
    match check_record(format, id, &spaceless) {
        Err(out) => out,
        Ok(()) => NoRoom {
            id,
            field: Field::Space,
            value: used.space,
        },
    }
}
