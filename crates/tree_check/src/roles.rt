ghost use Rattle.std.specs.Prelude.{◌+◌, ◌*◌, ◌≤◌, IsTrue, IfOk, IfErr, is_ok, []};
ghost use Rattle.outside.specs.Frame.{OnlyReads};
ghost use Rattle.file_blocks.specs.CheckFault.{IsCheckFault};
ghost use Rattle.byte_order.specs.Words.{words_of};
ghost use Rattle.file_blocks.specs.Block.{file_of};
ghost use Rattle.tree_check.specs.Found.{AreRoles, IsRoleDefect};
ghost use Rattle.tree_check.specs.Groups.{AreByBlock, groups_of};
ghost use Rattle.tree_check.specs.Reads.{led_blocks};

use crate::groups::{mark_data, sort_by_block};
use crate::marking::{first_without, mark_links};
use byte_order::Order;
use file_blocks::{BlockSet, CheckFault};
use free_chains::walk_chain;
use outside::Store;
use quota_radix::{TreePath, find_leaves};
use quota_types::{DamageKind, damage_at};
use std::alloc::Global;

/// The block of the header.
const HEADER: u32 = 0;

/// What the blocks of a file are there for.
#[derive(Drop)]
pub(crate) struct Roles {
    /// The leaves, those that name one block side by side, the blocks ascending.
    pub leaves: Vec<TreePath>,
    /// How many identifiers have a leaf.
    pub used: u64,
    /// How many blocks are free.
    pub free: u32,
}

/// Checks that each block of a file that is read in a byte order has one role, and that no tree block below the root is
/// empty.
pub(crate) fn check_roles<S: Store>(
    alloc: Global,
    store: &mut S,
    name: &str,
    blocks: u32,
    free_head: u32,
    order: Order,
) -> Result<Roles, CheckFault>
    requires two { 2 ≤ blocks }
    ensures roles { IfOk result (λ roles. IsTrue S.tells
        → AreRoles (words_of order (S.seen store.old).files name.now) blocks free_head roles) }
    ensures by_block { IfOk result (λ roles. AreByBlock roles.leaves.items) }
    ensures refused { IfErr result (IsCheckFault (S.seen store.old).faults (S.seen store.new).faults
        (λ damage. IsTrue S.tells
        → IsRoleDefect order (file_of (S.seen store.old).files name.now) blocks free_head damage)) }
    ensures leaves { OnlyReads (is_ok result) name.now (S.seen store.old) (S.seen store.new) }
    ensures reads { IfOk result (λ roles. (S.seen store.new).reads
        + led_blocks (groups_of blocks roles.leaves.items) ≤ (S.seen store.old).reads + blocks) }
    ensures few_reads { (S.seen store.new).reads ≤ (S.seen store.old).reads + 2 * blocks }
    ensures commits { S.commits [] store.old store.new }
{
    let mut met = BlockSet::new(alloc, blocks)?;
    met.insert(HEADER);
    let mut leaves = find_leaves(alloc, store, name, blocks, &mut met, order)?;
    sort_by_block(&mut leaves)?;
    mark_data(&mut met, blocks, leaves.as_slice())?;
    let free = walk_chain(alloc, store, name, blocks, free_head, order)?;
    mark_links(&mut met, free.links.as_slice())?;
    if let Some(block) = first_without(&met, blocks) {
        return Err(CheckFault::Damage(damage_at(DamageKind::NoRole, block)));
    }
    let used = leaves.len() as u64;
    Ok(Roles {
        leaves,
        used,
        free: free.links.len() as u32,
    })
}
