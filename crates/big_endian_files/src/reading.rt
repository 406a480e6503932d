ghost use Rattle.std.specs.Prelude.{◌≡◌, ◌≤◌, ◌+◌, ◌*◌, [], All, None, Some, IsTrue, IfErr, IfOk, IsPermutation};
ghost use Rattle.std.specs.Prelude.{OnOk, is_ok, nat_eq};
ghost use Rattle.std.specs.List.{IsDistinct};
ghost use Rattle.file_blocks.specs.CheckFault.{IsCheckFault, IsStepFault};
ghost use Rattle.std.specs.Bool.{OnFalse, OnTrue};
ghost use Rattle.std.specs.List.Sorted.{IsStrictlyIncreasing};
ghost use Rattle.byte_order.specs.Words.{words_of};
ghost use Rattle.byte_order.specs.declared.order.Order.TheVariants.{Big};
ghost use Rattle.entry_codec.specs.Header.{header_of};
ghost use Rattle.outside.specs.Frame.{OnlyReads};
ghost use Rattle.quota_types.specs.Kept.{IsKept};
ghost use Rattle.quota_types.specs.Range.{grace_unfit};
ghost use Rattle.quota_types.specs.declared.file_kind.Format.TheVariants.{V2R0};
ghost use Rattle.quota_value.specs.Listed.{ids_of};
ghost use Rattle.tree_file.specs.TreeCalls.{IsTreeFaultIn};
ghost use Rattle.big_endian_files.specs.ReadBig.{IsReadBig, StandsBig, records_at, records_in};
ghost use Rattle.file_blocks.specs.Block.{file_of};
ghost use Rattle.quota_radix.specs.Tree.{leaves};

use crate::leaves::find_by_block;
use crate::records::read_records;
use byte_order::Order;
use file_blocks::CheckFault;
use opened_file::OpenFault;
use outside::Store;
use quota_types::{Damage, DamageKind, Entry, Format, Grace, Kind};
use std::alloc::Global;
use tree_file::check_tree;

/// Reads a vfsv0 file that a big-endian machine wrote: its grace periods, and its records by ascending identifiers.
///
/// It has one of the kind and at most `limit` blocks. It is checked as it is where it is opened; then each of its
/// blocks is read once more at most.
///
/// # Errors
///
/// Those of `open_tree` where vfsv0 is asked for: there is no such file; its header is of no quota file, of one of
/// another kind, of a version that is not known, of fewer than two blocks, of another format, or of more blocks than
/// `limit`; or it is damaged, in this order; or the store failed, or there was not enough memory. A file that is
/// another one at the second reading is damaged.
pub fn read_big<S: Store>(
    alloc: Global,
    store: &mut S,
    name: &str,
    kind: Kind,
    limit: u32,
) -> Result<(Grace, Vec<Entry>), OpenFault>
    ensures seen { IfOk result
        (λ read. IsReadBig S.tells ((S.seen store.old).files name.now) kind limit read.0 read.1.items) }
    ensures ascends { IfOk result (λ read. IsStrictlyIncreasing (ids_of read.1.items)) }
    ensures grace { IfOk result (λ read. grace_unfit V2R0 read.0 ≡ None) }
    ensures kept { IfOk result (λ read. All (λ entry. IsKept V2R0 entry.id entry.rec) read.1.items) }
    ensures refused { IfErr result (IsTreeFaultIn Big (S.seen store.old).faults (S.seen store.new).faults S.tells
        ((S.seen store.old).files name.now) kind (Some V2R0) limit) }
    ensures leaves { OnlyReads (is_ok result) name.now (S.seen store.old) (S.seen store.new) }
    ensures reads { IsTrue S.tells → (S.seen store.new).reads
        ≤ (S.seen store.old).reads + 1 + 3 * (header_of (words_of Big (S.seen store.old).files name.now)).blocks }
    ensures commits { S.commits [] store.old store.new }
{
    let header = check_tree(
        alloc,
        store,
        name,
        kind,
        Some(Format::V2R0),
        limit,
        Order::Big,
    )?;
    let entries = read_checked(alloc, store, name, header.blocks)?;
    Ok((header.grace, entries))
}

/// Reads the records of a file of `blocks` blocks that was checked, by ascending identifiers. Each block is read once
/// at most.
///
/// # Errors
///
/// `Damage` where the file is another one than that which was checked.
fn read_checked<S: Store>(
    alloc: Global,
    store: &mut S,
    name: &str,
    blocks: u32,
) -> Result<Vec<Entry>, CheckFault>
    requires two { 2 ≤ blocks }
    ensures read { IfOk result (λ entries. IsTrue S.tells
        → StandsBig (file_of (S.seen store.old).files name.now) blocks
        → IsPermutation (records_at (file_of (S.seen store.old).files name.now)
        (leaves (words_of Big (S.seen store.old).files name.now) blocks)) (records_in entries.items)) }
    ensures ascends { IfOk result (λ entries. IsStrictlyIncreasing (ids_of entries.items)) }
    ensures kept { IfOk result (λ entries. All (λ entry. IsKept V2R0 entry.id entry.rec) entries.items) }
    ensures refused { IfErr result (IsCheckFault (S.seen store.old).faults (S.seen store.new).faults
        (λ damage. IsTrue S.tells → ¬ StandsBig (file_of (S.seen store.old).files name.now) blocks)) }
    ensures leaves { OnlyReads (is_ok result) name.now (S.seen store.old) (S.seen store.new) }
    ensures reads { (S.seen store.new).reads ≤ (S.seen store.old).reads + blocks }
    ensures commits { S.commits [] store.old store.new }
{
    let mut found = find_by_block(alloc, store, name, blocks)?;
    let mut entries = read_records(alloc, store, name, &found.by_block, &mut found.met)?;
    sort_by_id(&mut entries)?;
    Ok(entries)
}

/// Puts entries in the order of their identifiers.
///
/// # Errors
///
/// `Damage` where an identifier has two of them, and `Memory` where there was not enough memory.
fn sort_by_id(entries: &mut Vec<Entry>) -> Result<(), CheckFault>
    ensures moved { IsPermutation entries.old.items entries.new.items }
    ensures ascends { OnOk result (IsStrictlyIncreasing (ids_of entries.new.items)) }
    ensures refused { IfErr result (IsStepFault (λ damage. ¬ IsDistinct nat_eq (ids_of entries.old.items))) }
{
    entries.sort_by_key(|entry| entry.id)?;
    if !ascends(entries.as_slice()) {
        return Err(CheckFault::Damage(Damage {
            kind: DamageKind::DoubleEntry,
            block: 0,
            id: 0,
        }));
    }
    Ok(())
}

/// Whether the identifiers of entries ascend.
fn ascends(entries: &[Entry]) -> bool
    ensures yes { OnTrue result (IsStrictlyIncreasing (ids_of entries.now)) }
    ensures no { OnFalse result (¬ IsStrictlyIncreasing (ids_of entries.now)) }
{
    entries.is_sorted_by(|before, behind| before.id < behind.id)
}
