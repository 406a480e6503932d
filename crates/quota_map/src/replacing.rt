ghost use Rattle.std.specs.Prelude.{◌≡◌, ◌^◌, ◌≤◌, true, false, None, Ok, Some, All, vec_len, IsTrue, IfOk, IfErr};
ghost use Rattle.std.specs.Prelude.{OnOk, OnErr, is_ok};
ghost use Rattle.std.specs.List.Sorted.{IsStrictlyIncreasing};
ghost use Rattle.quota_types.specs.Format.{is_flat};
ghost use Rattle.quota_types.specs.Kept.{kept_of};
ghost use Rattle.quota_types.specs.Range.{grace_unfit, unfit};
ghost use Rattle.quota_types.specs.Rec.{is_zeros};
ghost use Rattle.outside.specs.ManyCalls.{ReplacesOne, replaced_names};
ghost use Rattle.quota_value.specs.Listed.{ids_of, value_of};
ghost use Rattle.outside.specs.Replacement.{replacement_name};
ghost use Rattle.outside.specs.World.{KeepsOthers};
ghost use Rattle.tree_build.specs.Build.{IsBuildFault};
ghost use Rattle.tree_build.specs.Size.{blocks_needed};
ghost use Rattle.quota_map.specs.Asked.{InFormat};
ghost use Rattle.quota_map.specs.Replacing.{CommitsReplaced, IsPlain, IsReplaceFileFault, IsReplacedBy, UnlessStore};
ghost use Rattle.quota_map.specs.Replacing.{built_size, flags_in};
ghost use Rattle.quota_map.specs.StandsFor.{StandsFor};
ghost use Rattle.quota_map.specs.View.{IsView, most_blocks};

use opened_file::{ReplaceFault, replace};
use outside::Store;
use quota_types::{Entry, Format, Grace, Kind};
use quota_v1::build_v1;
use std::alloc::Global;
use tree_build::{BuildFault, build};

/// Builds a file of the format from its grace periods, in seconds, its flags and its entries, and puts it in the place
/// of the one of this name, or makes it. A flat file has no flags. Nothing is written before the file is built.
///
/// # Errors
///
/// `Full` exactly where the file needs more blocks than `limit`, which a flat file never does; `Store` where the store
/// failed; and `Memory` where there was not enough memory. The old file is as before, and the one with `.new` may hold
/// anything where the store failed.
pub fn replace_file<S: Store>(
    alloc: Global,
    store: &mut S,
    name: &str,
    format: Format,
    kind: Kind,
    grace: Grace,
    flags: u32,
    list: &[Entry],
    limit: u32,
) -> Result<(), ReplaceFault>
    requires grace { grace_unfit format grace ≡ None }
    requires ascending { IsStrictlyIncreasing (ids_of list.now) }
    requires fits { All (λ entry. unfit format entry.id entry.rec ≡ None) list.now }
    requires kept { All (λ entry. kept_of format entry.id entry.rec ≡ entry.rec) list.now }
    requires not_zeros { is_flat format ≡ true → All (λ entry. is_zeros entry.rec ≡ false) list.now }
    ensures replaced { OnOk result (IsTrue S.tells
        → IsReplacedBy name.now (value_of kind format grace (flags_in format flags) list.now) (ids_of list.now)
        (built_size format (ids_of list.now)) (S.seen store.old).files (S.seen store.new).files) }
    // Whoever opens it then sees the value, unless it has more blocks than an opened file may have.
    ensures seen { OnOk result (IsTrue S.tells → limit ≤ most_blocks
        → IsView ((S.seen store.new).files name.now) kind (InFormat format)
        (Ok (value_of kind format grace (flags_in format flags) list.now))) }
    ensures few { OnOk result (blocks_needed format (ids_of list.now) ≤ limit) }
    ensures synced { OnOk result (IsTrue S.tells
        → (S.seen store.new).unsynced ≡ replaced_names (S.seen store.old).unsynced name.now) }
    ensures refused { IfErr result (IsReplaceFileFault (S.seen store.old).faults (S.seen store.new).faults
        (blocks_needed format (ids_of list.now)) limit) }
    ensures unwritten { IfErr result (λ fault. UnlessStore fault (S.seen store.new ≡ S.seen store.old)) }
    ensures unchanged { OnErr result (KeepsOthers (replacement_name name.now) (S.seen store.old).files
        (S.seen store.new).files) }
    ensures leaves { ReplacesOne name.now (S.seen store.old) (S.seen store.new) }
    ensures reads { (S.seen store.new).reads ≡ (S.seen store.old).reads }
    // Nothing is committed, or once the files with the new one in its place, whether or not it got its name then.
    ensures commits { IsTrue S.tells → CommitsReplaced (is_ok result) name.now
        (λ bytes. (blocks_needed format (ids_of list.now) ≤ limit) × (limit ≤ most_blocks
        → IsView (Some bytes) kind (InFormat format)
        (Ok (value_of kind format grace (flags_in format flags) list.now))))
        (S.seen store.old).files (S.seen store.new).files (λ worlds. S.commits worlds store.old store.new) }
{
    match built(alloc, format, kind, grace, flags, list, limit) {
        Ok(bytes) => replace(alloc, store, name, &bytes),
        Err(BuildFault::Full { blocks, limit }) => Err(ReplaceFault::Full { blocks, limit }),
        Err(BuildFault::Memory) => Err(ReplaceFault::Memory),
    }
}

/// The bytes of a whole file of the format.
fn built(
    alloc: Global,
    format: Format,
    kind: Kind,
    grace: Grace,
    flags: u32,
    list: &[Entry],
    limit: u32,
) -> Result<Vec<u8>, BuildFault>
    requires grace { grace_unfit format grace ≡ None }
    requires ascending { IsStrictlyIncreasing (ids_of list.now) }
    requires fits { All (λ entry. unfit format entry.id entry.rec ≡ None) list.now }
    requires kept { All (λ entry. kept_of format entry.id entry.rec ≡ entry.rec) list.now }
    requires not_zeros { is_flat format ≡ true → All (λ entry. is_zeros entry.rec ≡ false) list.now }
    ensures stands { IfOk result (λ file. StandsFor file.items
        (value_of kind format grace (flags_in format flags) list.now)) }
    ensures plain { IfOk result (λ file. IsPlain format grace (ids_of list.now) file.items) }
    ensures size { IfOk result (λ file. vec_len file ≡ built_size format (ids_of list.now)) }
    ensures seen { IfOk result (λ file. limit ≤ most_blocks
        → IsView (Some file.items) kind (InFormat format)
        (Ok (value_of kind format grace (flags_in format flags) list.now))) }
    ensures limited { IfOk result (λ file. vec_len file ≤ 2 ^ 42) }
    ensures few { OnOk result (blocks_needed format (ids_of list.now) ≤ limit) }
    ensures refused { IfErr result (IsBuildFault (blocks_needed format (ids_of list.now)) limit) }
{
    match format {
        Format::V1 | Format::V1R32 => Ok(build_v1(alloc, format, grace, list)?),
        Format::V2R0 | Format::V2R1 => { build(alloc, format, kind, grace, flags, list, limit) }
    }
}
