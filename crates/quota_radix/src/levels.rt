ghost use Rattle.std.specs.Prelude.{◌≡◌, ◌<◌, ◌≤◌, ◌+◌, ◌*◌, ◌==◌, if◌then◌else◌, ◌^◌, ◌++◌, ◌∷◌, [], ℕ, List, length};
ghost use Rattle.std.specs.Prelude.{All, IsTrue, OnOk, IfOk, IfErr, is_ok};
ghost use Rattle.std.specs.List.{flat_map};
ghost use Rattle.outside.specs.Frame.{OnlyReads};
ghost use Rattle.quota_radix.specs.declared.tree_path.TreePath.{TreePath};
ghost use Rattle.file_blocks.specs.Block.{block_of};
ghost use Rattle.byte_order.specs.Words.{words_of};
ghost use Rattle.file_blocks.specs.CheckFault.{IsCheckFault, IsStepFault};
ghost use Rattle.quota_radix.specs.Levels.{AreWithin, IsLevelDefect, IsWhole};
ghost use Rattle.quota_radix.specs.Tree.{blocks_of, steps};

use crate::{TreePath, level_ref};
use byte_order::{Order, read_words};
use file_blocks::CheckFault;
use outside::Store;
use quota_types::{DamageKind, damage_at};
use std::alloc::{AllocError, Global};

/// The block of the root.
pub(crate) const ROOT: u32 = 1;

/// Finds the paths that go on from those of a level, in order, in a file that is read in a byte order.
pub(crate) fn next_level<S: Store>(
    alloc: Global,
    store: &mut S,
    name: &str,
    blocks: u32,
    level: &[TreePath],
    order: Order,
) -> Result<Vec<TreePath>, CheckFault>
    requires small { AreWithin blocks (2 ^ 24) level.now }
    ensures next { IfOk result (λ next. IsTrue S.tells
        → next.items ≡ flat_map (steps (words_of order (S.seen store.old).files name.now) blocks) level.now) }
    ensures whole { OnOk result (IsTrue S.tells
        → All (λ path. IsWhole (words_of order (S.seen store.old).files name.now) blocks path.block) level.now) }
    ensures within { IfOk result (λ next. (bound : ℕ) → AreWithin blocks bound level.now
        → AreWithin blocks (256 * bound) next.items) }
    ensures refused { IfErr result (IsCheckFault (S.seen store.old).faults (S.seen store.new).faults
        (λ damage. IsTrue S.tells
        → IsLevelDefect (words_of order (S.seen store.old).files name.now) blocks (blocks_of level.now) damage)) }
    ensures leaves { OnlyReads (is_ok result) name.now (S.seen store.old) (S.seen store.new) }
    ensures reads { (S.seen store.new).reads ≤ (S.seen store.old).reads + length level.now }
    ensures commits { S.commits [] store.old store.new }
{
    let mut next = Vec::new(alloc);
    let mut block = [0u8; 1024];
    for path in level {
        read_words(store, name, path.block, &mut block, order)?;
        add_steps(&mut next, blocks, *path, &block)?;
    }
    Ok(next)
}

/// Appends the paths that go on from `path`, whose block has these bytes, by each of its references.
fn add_steps(
    next: &mut Vec<TreePath>,
    blocks: u32,
    path: TreePath,
    block: &[u8; 1024],
) -> Result<(), CheckFault>
    requires small { path.number < 2 ^ 24 }
    ensures added { OnOk result ((file : List ℕ) → block.now ≡ block_of file path.block
        → next.new.items ≡ next.old.items ++ steps file blocks path) }
    ensures whole { OnOk result ((file : List ℕ) → block.now ≡ block_of file path.block
        → IsWhole file blocks path.block) }
    ensures within { OnOk result ((bound : ℕ) → path.number < bound
        → AreWithin blocks (256 * bound) next.old.items → AreWithin blocks (256 * bound) next.new.items) }
    ensures refused { IfErr result (IsStepFault (λ damage. (file : List ℕ) → block.now ≡ block_of file path.block
        → IsLevelDefect file blocks (path.block ∷ []) damage)) }
{
    let before = next.len();
    for digit in 0..256u32 {
        let reference = level_ref(block, digit as u8);
        if reference >= blocks {
            return Err(CheckFault::Damage(damage_at(DamageKind::RefOut, path.block)));
        }
        push_step(next, path, digit, reference)?;
    }
    if next.len() == before && path.block != ROOT {
        return Err(CheckFault::Damage(damage_at(DamageKind::EmptyTree, path.block)));
    }
    Ok(())
}

/// Appends the path that goes on from `path` by a digit, where the reference there is one.
fn push_step(
    next: &mut Vec<TreePath>,
    path: TreePath,
    digit: u32,
    reference: u32,
) -> Result<(), AllocError>
    requires small { path.number < 2 ^ 24 }
    requires is_digit { digit < 256 }
    ensures { OnOk result (next.new.items ≡ next.old.items ++ (if reference == 0 then []
        else record { number = 256 * path.number + digit; block = reference } ∷ [])) }
{
    if reference != 0 {
        next.push(TreePath {
            number: 256 * path.number + digit,
            block: reference,
        })?;
    }
    Ok(())
}
