ghost use Rattle.std.specs.Prelude.{◌≡◌, ◌≢◌, ℕ, ◌+◌, ◌<◌, ◌≤◌, [], vec_len, IsTrue, IfOk, OnOk, IfErr, is_ok};
ghost use Rattle.outside.specs.Frame.{OnlyReads};
ghost use Rattle.file_blocks.specs.CheckFault.{IsCheckFault};
ghost use Rattle.byte_order.specs.Words.{words_of};
ghost use Rattle.free_chains.specs.Walk.{AreLinksTo, IsWalk, IsWalkDefect};

use crate::chain_link::ChainLink;
use byte_order::{Order, read_words};
use file_blocks::{BlockSet, CheckFault, le32};
use outside::Store;
use quota_types::{DamageKind, damage_at};
use std::alloc::{AllocError, Global};

/// A walk along a list of blocks: those that it has met, in order.
#[derive(Drop)]
pub struct Walk {
    /// The blocks, with their previous fields.
    pub links: Vec<ChainLink>,
    /// The same blocks, as a set.
    pub met: BlockSet,
}

impl Walk {
    /// A walk that has met no block, in a file of `blocks` blocks.
    fn new(alloc: Global, blocks: u32) -> Result<Walk, AllocError>
        ensures none { IfOk result (λ walk. walk.links.items ≡ []) }
        ensures walk { IfOk result (IsWalk blocks) }
    {
        let met = BlockSet::new(alloc, blocks)?;
        Ok(Walk {
            links: Vec::new(alloc),
            met,
        })
    }

    /// Goes to a block of a file that is read in a byte order, and answers the number to which its link leads.
    fn go_to<S: Store>(
        &mut self,
        store: &mut S,
        name: &str,
        blocks: u32,
        at: u32,
        order: Order,
    ) -> Result<u32, CheckFault>
        requires { at ≢ 0 }
        ensures longer { OnOk result (vec_len self.new.links ≡ vec_len self.old.links + 1) }
        ensures walk { OnOk result (IsWalk blocks self.old → IsWalk blocks self.new) }
        ensures links { IfOk result (λ next. IsTrue S.tells → (head : ℕ)
            → AreLinksTo (words_of order (S.seen store.old).files name.now) head self.old.links.items at
            → AreLinksTo (words_of order (S.seen store.old).files name.now) head self.new.links.items next) }
        ensures refused { IfErr result (IsCheckFault (S.seen store.old).faults (S.seen store.new).faults
            (λ damage. IsTrue S.tells → (head : ℕ)
            → IsWalk blocks self.old
            → AreLinksTo (words_of order (S.seen store.old).files name.now) head self.old.links.items at
            → IsWalkDefect (words_of order (S.seen store.old).files name.now) blocks head damage)) }
        ensures leaves { OnlyReads (is_ok result) name.now (S.seen store.old) (S.seen store.new) }
        ensures reads { (S.seen store.new).reads ≤ (S.seen store.old).reads + 1 }
        ensures few_reads { IsWalk blocks self.old → (S.seen store.new).reads + vec_len self.old.links
            ≤ (S.seen store.old).reads + blocks }
        ensures commits { S.commits [] store.old store.new }
    {
        if at >= blocks {
            return Err(CheckFault::Damage(damage_at(DamageKind::ChainOut, at)));
        }
        if !self.met.insert(at) {
            return Err(CheckFault::Damage(damage_at(DamageKind::ChainLoop, at)));
        }
        let mut block = [0; 1024];
        read_words(store, name, at, &mut block, order)?;
        let previous = le32(&block, 4);
        self.links.push(ChainLink {
            block: at,
            previous,
        })?;
        Ok(le32(&block, 0))
    }
}

/// Walks along the list of a head to its end.
///
/// The file is read in a byte order and has `blocks` blocks; bytes past its end are 0. There is at most one read for
/// each block of the list.
///
/// # Errors
///
/// `Store` where the store failed, `Memory` where there was not enough memory, and `Damage` where the list leads past
/// the last block, or to one of its blocks again.
pub fn walk_chain<S: Store>(
    alloc: Global,
    store: &mut S,
    name: &str,
    blocks: u32,
    head: u32,
    order: Order,
) -> Result<Walk, CheckFault>
    ensures walk { IfOk result (IsWalk blocks) }
    ensures links { IfOk result (λ walk. IsTrue S.tells
        → AreLinksTo (words_of order (S.seen store.old).files name.now) head walk.links.items 0) }
    ensures refused { IfErr result (IsCheckFault (S.seen store.old).faults (S.seen store.new).faults
        (λ damage. IsTrue S.tells
        → IsWalkDefect (words_of order (S.seen store.old).files name.now) blocks head damage)) }
    ensures leaves { OnlyReads (is_ok result) name.now (S.seen store.old) (S.seen store.new) }
    ensures reads { IfOk result (λ walk. (S.seen store.new).reads ≤ (S.seen store.old).reads + vec_len walk.links) }
    ensures few_reads { (S.seen store.new).reads ≤ (S.seen store.old).reads + blocks }
    ensures commits { S.commits [] store.old store.new }
{
    let mut walk = Walk::new(alloc, blocks)?;
    let mut at = head;
    while at != 0 {
        at = walk.go_to(store, name, blocks, at, order)?;
    }
    Ok(walk)
}
