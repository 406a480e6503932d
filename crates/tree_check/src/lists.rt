ghost use Rattle.std.specs.Prelude.{◌+◌, ◌≤◌, IsTrue, OnOk, IfErr, is_ok, []};
ghost use Rattle.quota_types.specs.Format.{IsTreeFormat};
ghost use Rattle.outside.specs.Frame.{OnlyReads};
ghost use Rattle.file_blocks.specs.CheckFault.{IsCheckFault};
ghost use Rattle.byte_order.specs.Words.{words_of};
ghost use Rattle.file_blocks.specs.Block.{file_of};
ghost use Rattle.tree_check.specs.Found.{HasNoEmptyBlock, IsListedDefect};
ghost use Rattle.tree_check.specs.Groups.{AreByBlock, AreGroupsOf, groups_of};
ghost use Rattle.tree_check.specs.Reads.{led_blocks};
ghost use Rattle.tree_meaning.specs.Loose.{nothing_loose};
ghost use Rattle.tree_meaning.specs.Roles.{Chained, FilledBy};
ghost use Rattle.tree_meaning.specs.Entries.{stated_in};
ghost use Rattle.quota_radix.specs.Tree.{leaves};

use crate::data::{check_data, check_listed};
use byte_order::Order;
use entry_codec::Header;
use file_blocks::CheckFault;
use free_chains::walk_chain;
use outside::Store;
use quota_radix::TreePath;
use std::alloc::Global;

/// Checks the entry list of a file that is read in a byte order, and the entries of each data block against the
/// identifiers of the leaves that name it.
pub(crate) fn check_lists<S: Store>(
    alloc: Global,
    store: &mut S,
    name: &str,
    header: &Header,
    by_block: &[TreePath],
    order: Order,
) -> Result<(), CheckFault>
    requires tree { IsTreeFormat header.now.format }
    requires by_block { AreByBlock by_block.now }
    ensures chained { OnOk result (IsTrue S.tells
        → AreGroupsOf header.now.blocks (leaves (words_of order (S.seen store.old).files name.now) header.now.blocks)
        (groups_of header.now.blocks by_block.now)
        → Chained nothing_loose header.now.format (words_of order (S.seen store.old).files name.now) header.now.blocks
        header.now.first) }
    ensures filled { OnOk result (IsTrue S.tells
        → AreGroupsOf header.now.blocks (leaves (words_of order (S.seen store.old).files name.now) header.now.blocks)
        (groups_of header.now.blocks by_block.now)
        → HasNoEmptyBlock (words_of order (S.seen store.old).files name.now) header.now.blocks
        → FilledBy (stated_in order (file_of (S.seen store.old).files name.now)) nothing_loose header.now.format
        (words_of order (S.seen store.old).files name.now) header.now.blocks) }
    ensures refused { IfErr result (IsCheckFault (S.seen store.old).faults (S.seen store.new).faults
        (λ damage. IsTrue S.tells
        → AreGroupsOf header.now.blocks (leaves (words_of order (S.seen store.old).files name.now) header.now.blocks)
        (groups_of header.now.blocks by_block.now)
        → IsListedDefect order header.now.format (file_of (S.seen store.old).files name.now) header.now.blocks
        header.now.first damage)) }
    ensures leaves { OnlyReads (is_ok result) name.now (S.seen store.old) (S.seen store.new) }
    ensures reads { (S.seen store.new).reads ≤ (S.seen store.old).reads + header.now.blocks
        + led_blocks (groups_of header.now.blocks by_block.now) }
    ensures commits { S.commits [] store.old store.new }
{
    let blocks = header.blocks;
    let listed = walk_chain(alloc, store, name, blocks, header.first, order)?;
    let room = check_data(alloc, store, name, header.format, blocks, by_block, order)?;
    check_listed(&listed, &room, blocks)?;
    Ok(())
}
