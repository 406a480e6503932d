ghost use Rattle.std.specs.Prelude.{◌≡◌, ◌≤◌, ◌+◌, ◌*◌, ◌^◌, ◌⊎◌, ◌++◌, ℕ, List, length, All, IsTrue, OnOk, IfOk};
ghost use Rattle.std.specs.Prelude.{IfErr, is_ok, []};
ghost use Rattle.std.specs.List.{flat_map};
ghost use Rattle.outside.specs.Frame.{OnlyReads};
ghost use Rattle.file_blocks.specs.BlockSet.{AreFlagsOf};
ghost use Rattle.file_blocks.specs.CheckFault.{IsCheckFault, IsStepFault};
ghost use Rattle.byte_order.specs.Words.{words_of};
ghost use Rattle.quota_radix.specs.Levels.{AreTreeBlocksWhole, AreWithin, IsLevelDefect, IsSecondRole, IsTreeFault};
ghost use Rattle.quota_radix.specs.Levels.{IsWhole};
ghost use Rattle.quota_radix.specs.Tree.{blocks_of, leaves, steps, tree_blocks};
ghost use Rattle.quota_radix.specs.Reads.{AreMarkedReads};

use crate::TreePath;
use crate::levels::{ROOT, next_level};
use byte_order::Order;
use file_blocks::{BlockSet, CheckFault};
use outside::Store;
use quota_types::{DamageKind, damage_at};
use std::alloc::Global;

/// Finds the leaves of a file's tree, in order, and adds the blocks of the tree to those that were met.
///
/// The file is read in a byte order and has `blocks` blocks; bytes past its end are 0. There is at most one read for
/// each block that is added.
///
/// # Errors
///
/// `Store` where the store failed, `Memory` where there was not enough memory, and `Damage` where a block of the tree
/// has a reference past the last block, or below the root none, or was met before.
pub fn find_leaves<S: Store>(
    alloc: Global,
    store: &mut S,
    name: &str,
    blocks: u32,
    met: &mut BlockSet,
    order: Order,
) -> Result<Vec<TreePath>, CheckFault>
    requires two { 2 ≤ blocks }
    ensures found { IfOk result (λ found. IsTrue S.tells
        → found.items ≡ leaves (words_of order (S.seen store.old).files name.now) blocks) }
    ensures marked { OnOk result (IsTrue S.tells → (numbers : List ℕ) → AreFlagsOf blocks met.old.flags.items numbers
        → AreFlagsOf blocks met.new.flags.items
        (numbers ++ tree_blocks (words_of order (S.seen store.old).files name.now) blocks)) }
    ensures whole { OnOk result (IsTrue S.tells
        → AreTreeBlocksWhole (words_of order (S.seen store.old).files name.now) blocks) }
    ensures within { IfOk result (λ found. AreWithin blocks (2 ^ 32) found.items) }
    ensures refused { IfErr result (IsCheckFault (S.seen store.old).faults (S.seen store.new).faults
        (λ damage. IsTrue S.tells
        → (numbers : List ℕ) → AreFlagsOf blocks met.old.flags.items numbers
        → IsTreeFault (words_of order (S.seen store.old).files name.now) blocks numbers damage)) }
    ensures leaves { OnlyReads (is_ok result) name.now (S.seen store.old) (S.seen store.new) }
    ensures reads { OnOk result ((numbers : List ℕ) → AreFlagsOf blocks met.old.flags.items numbers
        → AreMarkedReads blocks met.new.flags.items numbers (S.seen store.old).reads (S.seen store.new).reads) }
    ensures few_reads { (numbers : List ℕ) → AreFlagsOf blocks met.old.flags.items numbers
        → (S.seen store.new).reads + length numbers ≤ (S.seen store.old).reads + blocks }
    ensures commits { S.commits [] store.old store.new }
{
    let root = [TreePath {
        number: 0,
        block: ROOT,
    }];
    let second = go_down(alloc, store, name, blocks, met, &root, order)?;
    let third = go_down(alloc, store, name, blocks, met, &second, order)?;
    let fourth = go_down(alloc, store, name, blocks, met, &third, order)?;
    go_down(alloc, store, name, blocks, met, &fourth, order)
}

/// Adds the blocks of a level to those that were met, and finds the paths that go on from it.
fn go_down<S: Store>(
    alloc: Global,
    store: &mut S,
    name: &str,
    blocks: u32,
    met: &mut BlockSet,
    level: &[TreePath],
    order: Order,
) -> Result<Vec<TreePath>, CheckFault>
    requires small { AreWithin blocks (2 ^ 24) level.now }
    ensures next { IfOk result (λ next. IsTrue S.tells
        → next.items ≡ flat_map (steps (words_of order (S.seen store.old).files name.now) blocks) level.now) }
    ensures marked { OnOk result ((numbers : List ℕ) → AreFlagsOf blocks met.old.flags.items numbers
        → AreFlagsOf blocks met.new.flags.items (numbers ++ blocks_of level.now)) }
    ensures whole { OnOk result (IsTrue S.tells
        → All (λ path. IsWhole (words_of order (S.seen store.old).files name.now) blocks path.block) level.now) }
    ensures within { IfOk result (λ next. (bound : ℕ) → AreWithin blocks bound level.now
        → AreWithin blocks (256 * bound) next.items) }
    ensures refused { IfErr result (IsCheckFault (S.seen store.old).faults (S.seen store.new).faults
        (λ damage. IsTrue S.tells
        → (numbers : List ℕ) → AreFlagsOf blocks met.old.flags.items numbers
        → (IsSecondRole (numbers ++ blocks_of level.now) damage
        ⊎ IsLevelDefect (words_of order (S.seen store.old).files name.now) blocks (blocks_of level.now) damage))) }
    ensures leaves { OnlyReads (is_ok result) name.now (S.seen store.old) (S.seen store.new) }
    ensures reads { (S.seen store.new).reads ≤ (S.seen store.old).reads + length level.now }
    ensures few_reads { (numbers : List ℕ) → AreFlagsOf blocks met.old.flags.items numbers
        → (S.seen store.new).reads + length numbers ≤ (S.seen store.old).reads + blocks }
    ensures commits { S.commits [] store.old store.new }
{
    mark_all(met, level)?;
    next_level(alloc, store, name, blocks, level, order)
}

/// Adds the block of each path to those that were met.
fn mark_all(met: &mut BlockSet, paths: &[TreePath]) -> Result<(), CheckFault>
    ensures marked { OnOk result
        ((blocks bound : ℕ) → (numbers : List ℕ) → AreFlagsOf blocks met.old.flags.items numbers
        → AreWithin blocks bound paths.now → AreFlagsOf blocks met.new.flags.items (numbers ++ blocks_of paths.now)) }
    ensures refused { IfErr result (IsStepFault (λ damage. (blocks bound : ℕ) → (numbers : List ℕ)
        → AreFlagsOf blocks met.old.flags.items numbers
        → AreWithin blocks bound paths.now → IsSecondRole (numbers ++ blocks_of paths.now) damage)) }
{
    for path in paths {
        if !met.insert(path.block) {
            return Err(CheckFault::Damage(damage_at(DamageKind::TwoRoles, path.block)));
        }
    }
    Ok(())
}
