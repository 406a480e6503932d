ghost use Rattle.std.specs.Prelude.{◌≡◌, ◌+◌, ◌≤◌, IsTrue, OnOk, IfOk, IfErr, is_ok, []};
ghost use Rattle.byte_order.specs.Words.{words_of};
ghost use Rattle.file_blocks.specs.Block.{block_of, file_of};
ghost use Rattle.file_blocks.specs.CheckFault.{IsCheckFault};
ghost use Rattle.outside.specs.Frame.{OnlyReads};
ghost use Rattle.quota_types.specs.Format.{IsTreeFormat};
ghost use Rattle.tree_meaning.specs.Compared.{AreEntriesOf, IsEntryDefectAt};
ghost use Rattle.tree_meaning.specs.Entries.{has_unused, stated_in, used_ids};

use byte_order::{Order, half_at, put_in_order};
use file_blocks::{BLOCK, CheckFault, read_block};
use outside::Store;
use quota_types::Format;
use tree_meaning::compare_entries;

/// The place of the number of entries that a data block states, which is no number of four bytes.
const STATED: usize = 8;

/// Reads a data block of a file that is read in a byte order into `block`, checks its entries against the identifiers
/// that lead to it, and answers whether it has room.
pub(crate) fn check_block<S: Store>(
    store: &mut S,
    name: &str,
    block: &mut [u8; BLOCK],
    format: Format,
    number: u32,
    ids: &[u32],
    order: Order,
) -> Result<bool, CheckFault>
    requires tree { IsTreeFormat format }
    ensures entries { OnOk result (IsTrue S.tells
        → AreEntriesOf (stated_in order (file_of (S.seen store.old).files name.now) number)
        (used_ids format (block_of (words_of order (S.seen store.old).files name.now) number)) ids.now) }
    ensures room { IfOk result (λ has_room. IsTrue S.tells
        → has_room ≡ has_unused format (block_of (words_of order (S.seen store.old).files name.now) number)) }
    ensures refused { IfErr result (IsCheckFault (S.seen store.old).faults (S.seen store.new).faults
        (λ damage. IsTrue S.tells
        → IsEntryDefectAt number (stated_in order (file_of (S.seen store.old).files name.now) number)
        (used_ids format (block_of (words_of order (S.seen store.old).files name.now) number)) ids.now damage)) }
    ensures leaves { OnlyReads (is_ok result) name.now (S.seen store.old) (S.seen store.new) }
    ensures reads { (S.seen store.new).reads ≤ (S.seen store.old).reads + 1 }
    ensures commits { S.commits [] store.old store.new }
{
    read_block(store, name, number, block)?;
    let stated = half_at(block, STATED, order);
    put_in_order(block, order);
    Ok(compare_entries(format, number, stated, block, ids)?)
}
