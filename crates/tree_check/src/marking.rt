ghost use Rattle.std.specs.Prelude.{◌≡◌, ℕ, List, ◌+◌, ◌<◌, ◌++◌, OnOk, IfErr, MatchOption};
ghost use Rattle.file_blocks.specs.BlockSet.{AreFlagsOf};
ghost use Rattle.quota_types.specs.Times.{StandsIn, times};
ghost use Rattle.quota_types.specs.Damage.{NamesItsId};
ghost use Rattle.quota_radix.specs.Levels.{IsSecondRole};
ghost use Rattle.free_chains.specs.Walk.{linked_blocks};

use file_blocks::BlockSet;
use free_chains::ChainLink;
use quota_types::{Damage, DamageKind, damage_at};

/// Adds the blocks of a list to a set, each of which is to be new.
pub(crate) fn mark_links(met: &mut BlockSet, links: &[ChainLink]) -> Result<(), Damage>
    ensures marked { OnOk result ((blocks : ℕ) → (numbers : List ℕ) → AreFlagsOf blocks met.old.flags.items numbers
        → ((number : ℕ) → StandsIn (linked_blocks links.now) number → number < blocks)
        → AreFlagsOf blocks met.new.flags.items (numbers ++ linked_blocks links.now)) }
    ensures refused { IfErr result (λ damage. (blocks : ℕ) → (numbers : List ℕ)
        → AreFlagsOf blocks met.old.flags.items numbers
        → ((number : ℕ) → StandsIn (linked_blocks links.now) number → number < blocks)
        → IsSecondRole (numbers ++ linked_blocks links.now) damage) }
    ensures names_id { IfErr result (λ damage. NamesItsId damage.kind damage.id) }
{
    for link in links {
        if !met.insert(link.block) {
            return Err(damage_at(DamageKind::TwoRoles, link.block));
        }
    }
    Ok(())
}

/// The first of `blocks` blocks that a set does not have.
pub(crate) fn first_without(met: &BlockSet, blocks: u32) -> Option<u32>
    ensures { (numbers : List ℕ) → AreFlagsOf blocks met.now.flags.items numbers
        → MatchOption result ((number : ℕ) → number < blocks → StandsIn numbers number)
        (λ block. (block < blocks) × (times numbers block ≡ 0)) }
{
    for block in 0..blocks {
        if !met.contains(block) {
            return Some(block);
        }
    }
    None
}
