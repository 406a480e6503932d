ghost use Rattle.std.specs.Prelude.{◌≡◌, ◌≢◌, ◌<◌, ◌≤◌, ◌+◌, [], ℕ, List, length, All, IsTrue, IfErr, IfOk, IfSome};
ghost use Rattle.std.specs.Prelude.{OnOk, is_ok};
ghost use Rattle.std.specs.Option.{option_and_then};
ghost use Rattle.byte_order.specs.declared.order.Order.TheVariants.{Big};
ghost use Rattle.file_blocks.specs.Block.{file_of};
ghost use Rattle.file_blocks.specs.BlockSet.{AreFlagsOf};
ghost use Rattle.file_blocks.specs.CheckFault.{IsCheckFault};
ghost use Rattle.outside.specs.Frame.{OnlyReads};
ghost use Rattle.quota_radix.specs.Levels.{AreWithin};
ghost use Rattle.quota_radix.specs.Tree.{numbers_of};
ghost use Rattle.quota_types.specs.Kept.{IsKept};
ghost use Rattle.quota_types.specs.declared.file_kind.Format.TheVariants.{V2R0};
ghost use Rattle.quota_value.specs.Listed.{ids_of};
ghost use Rattle.tree_check.specs.Groups.{AreByBlock};
ghost use Rattle.tree_meaning.specs.Entries.{entry_bytes, entry_in};
ghost use Rattle.tree_meaning.specs.EntryRecords.{used_by};
ghost use Rattle.tree_meaning.specs.TreeFile.{record_read};
ghost use Rattle.big_endian_files.specs.ReadBig.{CanBeRead, records_at, records_in};

use crate::data_block::DataBlock;
use byte_order::Order;
use entry_codec::read_entry;
use file_blocks::{BLOCK, BlockSet, CheckFault};
use outside::Store;
use quota_radix::TreePath;
use quota_types::{Damage, DamageKind, Entry, Format, Rec};
use std::alloc::Global;

/// How many bytes an entry of vfsv0 has.
const ENTRY: usize = 48;

/// How many entries a data block of vfsv0 has, behind its head of 16 bytes.
const ENTRIES: usize = 21;

/// The bytes of an entry, by its place among the entries.
fn entry_at(block: &[u8; BLOCK], place: usize) -> &[u8]
    requires { place < 21 }
    ensures value { result.now ≡ entry_bytes V2R0 block.now place }
    ensures size { length result.now ≡ 48 }
{
    let start = 16 + ENTRY * place;
    &block[start..start + ENTRY]
}

/// The record of the entry of a block at a place among the entries, where it is used by this identifier.
fn record_at(block: &[u8; BLOCK], place: usize, id: u32) -> Option<Rec>
    requires { place < 21 }
    ensures value { result ≡ option_and_then (used_by id) (entry_in Big V2R0 (entry_bytes V2R0 block.now place)) }
    ensures kept { IfSome result (IsKept V2R0 id) }
{
    let bytes = entry_at(block, place);
    let (used_by, rec) = read_entry(Format::V2R0, bytes, Order::Big)?;
    if used_by == id { Some(rec) } else { None }
}

/// The record of the first entry of a block that is used by an identifier.
fn find_record(block: &[u8; BLOCK], id: u32) -> Option<Rec>
    ensures value { result ≡ record_read Big V2R0 block.now id }
    ensures kept { IfSome result (IsKept V2R0 id) }
{
    for place in 0..ENTRIES {
        if let Some(rec) = record_at(block, place, id) {
            return Some(rec);
        }
    }
    None
}

/// Reads the records of leaves whose blocks ascend: each data block once, unless it was met before.
///
/// # Errors
///
/// `Damage` where a leaf leads to a block that was met, or to one that has no entry for it.
pub(crate) fn read_records<S: Store>(
    alloc: Global,
    store: &mut S,
    name: &str,
    leaves: &[TreePath],
    met: &mut BlockSet,
) -> Result<Vec<Entry>, CheckFault>
    requires by_block { AreByBlock leaves.now }
    requires leads { All (λ leaf. leaf.block ≢ 0) leaves.now }
    ensures ids { IfOk result (λ entries. ids_of entries.items ≡ numbers_of leaves.now) }
    ensures records { IfOk result (λ entries. IsTrue S.tells
        → records_in entries.items ≡ records_at (file_of (S.seen store.old).files name.now) leaves.now) }
    ensures kept { IfOk result (λ entries. All (λ entry. IsKept V2R0 entry.id entry.rec) entries.items) }
    ensures refused { IfErr result (IsCheckFault (S.seen store.old).faults (S.seen store.new).faults
        (λ damage. IsTrue S.tells → (blocks : ℕ) → AreWithin blocks 4294967296 leaves.now
        → ¬ CanBeRead (file_of (S.seen store.old).files name.now) blocks met.old.flags.items leaves.now)) }
    ensures leaves { OnlyReads (is_ok result) name.now (S.seen store.old) (S.seen store.new) }
    ensures reads { (blocks : ℕ) → (numbers : List ℕ) → AreFlagsOf blocks met.old.flags.items numbers
        → AreWithin blocks 4294967296 leaves.now
        → (S.seen store.new).reads + length numbers ≤ (S.seen store.old).reads + blocks }
    ensures commits { S.commits [] store.old store.new }
{
    let mut entries = Vec::new(alloc);
    let mut data = DataBlock::none();
    for leaf in leaves {
        data.go_to(store, name, leaf.block, met)?;
        let Some(rec) = find_record(&data.bytes, leaf.number) else {
            return Err(CheckFault::Damage(Damage {
                kind: DamageKind::MissingEntry,
                block: leaf.block,
                id: leaf.number,
            }));
        };
        entries.push(Entry {
            id: leaf.number,
            rec,
        })?;
    }
    Ok(entries)
}
