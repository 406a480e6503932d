ghost use Rattle.std.specs.Prelude.{◌≡◌, ℕ, List, ◌+◌, ◌<◌, ◌≤◌, ◌++◌, ◌∷◌, [], ◌&&◌, nat_le, if◌then◌else◌, take};
ghost use Rattle.std.specs.Prelude.{length, IsTrue, IfOk, OnOk, IfErr, MatchOption, is_ok};
ghost use Rattle.outside.specs.Frame.{OnlyReads};
ghost use Rattle.byte_order.specs.Words.{words_of};
ghost use Rattle.file_blocks.specs.Block.{block_of, file_of};
ghost use Rattle.file_blocks.specs.BlockSet.{AreFlagsOf};
ghost use Rattle.file_blocks.specs.CheckFault.{IsCheckFault};
ghost use Rattle.tree_meaning.specs.Compared.{HasEntriesOf, IsDataDefect, leading_ids, rooms};
ghost use Rattle.quota_types.specs.Format.{IsTreeFormat};
ghost use Rattle.quota_types.specs.Times.{StandsIn, times};
ghost use Rattle.quota_types.specs.Damage.{NamesItsId};
ghost use Rattle.tree_meaning.specs.Entries.{has_unused};
ghost use Rattle.tree_check.specs.Groups.{AreByBlock, groups_of};
ghost use Rattle.tree_check.specs.Reads.{led_blocks};
ghost use Rattle.tree_check.specs.EntryList.{AreListed, IsListDefect, NamesOther};
ghost use Rattle.free_chains.specs.Walk.{IsWalk, linked_blocks, previous_in};

use crate::block_check::check_block;
use crate::groups::{list_numbers, part};
use byte_order::Order;
use file_blocks::{BLOCK, BlockSet, CheckFault};
use free_chains::{ChainLink, Walk};
use outside::Store;
use quota_radix::TreePath;
use quota_types::{Damage, DamageKind, Format, damage_at};
use std::alloc::Global;

/// Checks the data blocks of a file that is read in a byte order, which are those that leaves name, and answers those
/// that have room.
pub(crate) fn check_data<S: Store>(
    alloc: Global,
    store: &mut S,
    name: &str,
    format: Format,
    blocks: u32,
    leaves: &[TreePath],
    order: Order,
) -> Result<BlockSet, CheckFault>
    requires tree { IsTreeFormat format }
    requires by_block { AreByBlock leaves.now }
    ensures entries { OnOk result (IsTrue S.tells → (block : ℕ) → block < blocks
        → HasEntriesOf order format (file_of (S.seen store.old).files name.now) block
        (leading_ids (groups_of blocks leaves.now) block)) }
    ensures room { IfOk result (λ room. IsTrue S.tells
        → AreFlagsOf blocks room.flags.items (rooms format (words_of order (S.seen store.old).files name.now)
        (groups_of blocks leaves.now) blocks)) }
    ensures refused { IfErr result (IsCheckFault (S.seen store.old).faults (S.seen store.new).faults
        (λ damage. IsTrue S.tells
        → IsDataDefect order format (file_of (S.seen store.old).files name.now)
        (leading_ids (groups_of blocks leaves.now) damage.block) damage.block damage)) }
    ensures leaves { OnlyReads (is_ok result) name.now (S.seen store.old) (S.seen store.new) }
    ensures reads { (S.seen store.new).reads ≤ (S.seen store.old).reads + led_blocks (groups_of blocks leaves.now) }
    ensures commits { S.commits [] store.old store.new }
{
    let mut room = BlockSet::new(alloc, blocks)?;
    let mut ids = Vec::new(alloc);
    let mut bytes = [0; BLOCK];
    let mut rest = leaves;
    for block in 0..blocks {
        let (here, behind) = part(rest, block);
        rest = behind;
        list_numbers(&mut ids, here)?;
        check_group(
            store,
            name,
            &mut bytes,
            format,
            block,
            ids.as_slice(),
            &mut room,
            order,
        )?;
    }
    Ok(room)
}

/// Checks a block, by way of `bytes`, against the identifiers that lead to it, where there are some, and adds it to
/// those that have room where it has room.
fn check_group<S: Store>(
    store: &mut S,
    name: &str,
    bytes: &mut [u8; BLOCK],
    format: Format,
    number: u32,
    ids: &[u32],
    room: &mut BlockSet,
    order: Order,
) -> Result<(), CheckFault>
    requires tree { IsTreeFormat format }
    ensures entries { OnOk result (IsTrue S.tells
        → HasEntriesOf order format (file_of (S.seen store.old).files name.now) number ids.now) }
    ensures room { OnOk result (IsTrue S.tells → (blocks : ℕ) → (numbers : List ℕ)
        → AreFlagsOf blocks room.old.flags.items numbers
        → number < blocks → times numbers number ≡ 0
        → AreFlagsOf blocks room.new.flags.items (numbers ++ (if nat_le 1 (length ids.now)
        && has_unused format (block_of (words_of order (S.seen store.old).files name.now) number)
        then number ∷ [] else []))) }
    ensures refused { IfErr result (IsCheckFault (S.seen store.old).faults (S.seen store.new).faults
        (λ damage. IsTrue S.tells
        → IsDataDefect order format (file_of (S.seen store.old).files name.now) ids.now number damage)) }
    ensures leaves { OnlyReads (is_ok result) name.now (S.seen store.old) (S.seen store.new) }
    ensures reads { (S.seen store.new).reads ≤ (S.seen store.old).reads + (if nat_le 1 (length ids.now) then 1 else 0) }
    ensures commits { S.commits [] store.old store.new }
{
    if ids.is_empty() {
        return Ok(());
    }
    if check_block(store, name, bytes, format, number, ids, order)? {
        room.insert(number);
    }
    Ok(())
}

/// The first block of a list that a set does not have.
fn first_foreign(links: &[ChainLink], room: &BlockSet) -> Option<u32>
    ensures { (blocks : ℕ) → (numbers : List ℕ) → AreFlagsOf blocks room.now.flags.items numbers
        → ((number : ℕ) → StandsIn (linked_blocks links.now) number → number < blocks)
        → MatchOption result ((number : ℕ) → StandsIn (linked_blocks links.now) number → StandsIn numbers number)
        (λ block. StandsIn (linked_blocks links.now) block × (times numbers block ≡ 0)) }
{
    for link in links {
        if !room.contains(link.block) {
            return Some(link.block);
        }
    }
    None
}

/// The first block of a list that does not name the block before it, or 0 where it is the first.
fn first_bad_previous(links: &[ChainLink]) -> Option<u32>
    ensures { MatchOption result
        (previous_in links.now ≡ take (length (linked_blocks links.now)) (0 ∷ linked_blocks links.now))
        (NamesOther (linked_blocks links.now) (previous_in links.now)) }
{
    let mut before = 0;
    for link in links {
        if link.previous != before {
            return Some(link.block);
        }
        before = link.block;
    }
    None
}

/// The first of `blocks` blocks that one set has, and another one does not have.
fn first_missing(room: &BlockSet, met: &BlockSet, blocks: u32) -> Option<u32>
    ensures { (numbers others : List ℕ) → AreFlagsOf blocks room.now.flags.items numbers
        → AreFlagsOf blocks met.now.flags.items others
        → MatchOption result ((number : ℕ) → number < blocks → StandsIn numbers number → StandsIn others number)
        (λ block. StandsIn numbers block × (times others block ≡ 0)) }
{
    for block in 0..blocks {
        if room.contains(block) && !met.contains(block) {
            return Some(block);
        }
    }
    None
}

/// Checks that the entry list has the data blocks with room and no other, each with its previous field.
pub(crate) fn check_listed(walk: &Walk, room: &BlockSet, blocks: u32) -> Result<(), Damage>
    ensures listed { OnOk result ((numbers : List ℕ) → IsWalk blocks walk.now
        → AreFlagsOf blocks room.now.flags.items numbers
        → AreListed numbers (linked_blocks walk.now.links.items) (previous_in walk.now.links.items)) }
    ensures refused { IfErr result (λ damage. (numbers : List ℕ) → IsWalk blocks walk.now
        → AreFlagsOf blocks room.now.flags.items numbers
        → IsListDefect numbers (linked_blocks walk.now.links.items) (previous_in walk.now.links.items) damage) }
    ensures names_id { IfErr result (λ damage. NamesItsId damage.kind damage.id) }
{
    if let Some(block) = first_foreign(walk.links.as_slice(), room) {
        return Err(damage_at(DamageKind::ForeignInChain, block));
    }
    if let Some(block) = first_bad_previous(walk.links.as_slice()) {
        return Err(damage_at(DamageKind::BadPrev, block));
    }
    if let Some(block) = first_missing(room, &walk.met, blocks) {
        return Err(damage_at(DamageKind::MissingInChain, block));
    }
    Ok(())
}
