ghost use Rattle.std.specs.Prelude.{◌≡◌, ◌≤◌, ◌+◌, ◌++◌, ◌∷◌, [], ℕ, List, length, IsTrue, IfErr, IfOk, IsPermutation};
ghost use Rattle.std.specs.Prelude.{OnOk, is_ok};
ghost use Rattle.byte_order.specs.Words.{words_of};
ghost use Rattle.file_blocks.specs.Block.{file_of};
ghost use Rattle.file_blocks.specs.BlockSet.{AreFlagsOf};
ghost use Rattle.file_blocks.specs.CheckFault.{IsCheckFault};
ghost use Rattle.outside.specs.Frame.{OnlyReads};
ghost use Rattle.quota_radix.specs.Levels.{AreWithin};
ghost use Rattle.quota_radix.specs.Reads.{AreMarkedReads};
ghost use Rattle.quota_radix.specs.Tree.{leaves, tree_blocks};
ghost use Rattle.tree_check.specs.Found.{IsRoleDefect};
ghost use Rattle.tree_check.specs.Groups.{AreByBlock};

use byte_order::Order;
use file_blocks::{BlockSet, CheckFault};
use outside::Store;
use quota_radix::{TreePath, find_leaves};
use std::alloc::Global;

/// The block of the header.
const HEADER: u32 = 0;

/// The leaves of a file's tree that is read big-endian, those that name one block side by side, and the blocks of its
/// header and its tree, which are met.
#[derive(Drop)]
pub(crate) struct Leaves {
    /// The leaves, the blocks ascending.
    pub by_block: Vec<TreePath>,
    /// The blocks that were met.
    pub met: BlockSet,
}

/// Finds the leaves of a file of `blocks` blocks.
pub(crate) fn find_by_block<S: Store>(
    alloc: Global,
    store: &mut S,
    name: &str,
    blocks: u32,
) -> Result<Leaves, CheckFault>
    requires two { 2 ≤ blocks }
    ensures found { IfOk result (λ found. IsTrue S.tells
        → IsPermutation (leaves (words_of Order.Big (S.seen store.old).files name.now) blocks) found.by_block.items) }
    ensures by_block { IfOk result (λ found. AreByBlock found.by_block.items) }
    ensures within { IfOk result (λ found. AreWithin blocks 4294967296 found.by_block.items) }
    ensures marked { IfOk result (λ found. IsTrue S.tells → AreFlagsOf blocks found.met.flags.items
        (0 ∷ tree_blocks (words_of Order.Big (S.seen store.old).files name.now) blocks)) }
    ensures refused { IfErr result (IsCheckFault (S.seen store.old).faults (S.seen store.new).faults
        (λ damage. IsTrue S.tells → (free_head : ℕ)
        → IsRoleDefect Order.Big (file_of (S.seen store.old).files name.now) blocks free_head damage)) }
    ensures leaves { OnlyReads (is_ok result) name.now (S.seen store.old) (S.seen store.new) }
    ensures reads { IfOk result (λ found. AreMarkedReads blocks found.met.flags.items (0 ∷ [])
        (S.seen store.old).reads (S.seen store.new).reads) }
    ensures few_reads { (S.seen store.new).reads ≤ (S.seen store.old).reads + blocks }
    ensures commits { S.commits [] store.old store.new }
{
    let mut met = BlockSet::new(alloc, blocks)?;
    met.insert(HEADER);
    let mut by_block = find_leaves(alloc, store, name, blocks, &mut met, Order::Big)?;
    by_block.sort_by_key(|leaf| leaf.block)?;
    Ok(Leaves { by_block, met })
}
