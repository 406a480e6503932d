ghost use Rattle.std.specs.Prelude.{◌≡◌, ◌≢◌, ◌+◌, ◌<◌, ◌≤◌, ◌++◌, ℕ, All, List, length, slice_index_or, take, OnOk};
ghost use Rattle.std.specs.Prelude.{IfErr};
ghost use Rattle.quota_radix.specs.declared.tree_path.TreePath.{TreePath};
ghost use Rattle.file_blocks.specs.BlockSet.{AreFlagsOf};
ghost use Rattle.tree_check.specs.Groups.{AreByBlock, AreGroupsOf, AreLeftFrom, groups_of, named_blocks};
ghost use Rattle.quota_radix.specs.Levels.{IsSecondRole};
ghost use Rattle.quota_radix.specs.Tree.{ids_at, numbers_of};
ghost use Rattle.quota_types.specs.Damage.{NamesItsId};

use file_blocks::BlockSet;
use quota_radix::TreePath;
use quota_types::{Damage, DamageKind, damage_at};
use std::alloc::AllocError;

/// Puts the leaves that name one block side by side, the blocks ascending. Those of one block stay in their order.
/// Where the blocks ascend already, as in a file that was built at once, no memory is taken.
pub(crate) fn sort_by_block(leaves: &mut Vec<TreePath>) -> Result<(), AllocError>
    ensures by_block { OnOk result (AreByBlock leaves.new.items) }
    ensures same { OnOk result ((block : ℕ) → ids_at leaves.new.items block ≡ ids_at leaves.old.items block) }
    ensures many { length leaves.new.items ≡ length leaves.old.items }
{
    leaves.sort_by_key(|leaf| leaf.block)?;
    Ok(())
}

/// Splits what is left of leaves that stand by their blocks into those of this block and those behind them.
pub(crate) fn part(rest: &[TreePath], block: u32) -> (&[TreePath], &[TreePath])
    ensures here { (leaves : List TreePath) → AreLeftFrom leaves block rest.now
        → numbers_of result.0.now ≡ ids_at leaves block }
    ensures behind { (leaves : List TreePath) → AreLeftFrom leaves block rest.now
        → AreLeftFrom leaves (block + 1) result.1.now }
{
    rest.split_at(count_of(rest, block))
}

/// How many leaves at the front name this block.
fn count_of(leaves: &[TreePath], block: u32) -> usize
    ensures within { result ≤ length leaves.now }
    ensures those { All (λ leaf. leaf.block ≡ block) (take result leaves.now) }
    ensures other { (d : TreePath) → result < length leaves.now
        → (slice_index_or leaves.now result d).block ≢ block }
{
    for (index, leaf) in leaves.iter().enumerate() {
        if leaf.block != block {
            return index;
        }
    }
    leaves.len()
}

/// Puts the numbers of leaves in the place of what a list held.
pub(crate) fn list_numbers(numbers: &mut Vec<u32>, leaves: &[TreePath]) -> Result<(), AllocError>
    ensures { OnOk result (numbers.new.items ≡ numbers_of leaves.now) }
{
    numbers.clear();
    for leaf in leaves {
        numbers.push(leaf.number)?;
    }
    Ok(())
}

/// Adds each block that leaves name to those that were met.
pub(crate) fn mark_data(met: &mut BlockSet, blocks: u32, leaves: &[TreePath]) -> Result<(), Damage>
    requires { AreByBlock leaves.now }
    ensures marked { OnOk result ((led : List TreePath) → (numbers : List ℕ)
        → AreGroupsOf blocks led (groups_of blocks leaves.now) → AreFlagsOf blocks met.old.flags.items numbers
        → AreFlagsOf blocks met.new.flags.items (numbers ++ named_blocks blocks led)) }
    ensures refused { IfErr result (λ damage. (led : List TreePath) → (numbers : List ℕ)
        → AreGroupsOf blocks led (groups_of blocks leaves.now) → AreFlagsOf blocks met.old.flags.items numbers
        → IsSecondRole (numbers ++ named_blocks blocks led) damage) }
    ensures names_id { IfErr result (λ damage. NamesItsId damage.kind damage.id) }
{
    let mut rest = leaves;
    for block in 0..blocks {
        let (here, behind) = part(rest, block);
        rest = behind;
        if !here.is_empty() && !met.insert(block) {
            return Err(damage_at(DamageKind::TwoRoles, block));
        }
    }
    Ok(())
}
