//! How many blocks are free.

ghost use Rattle.std.specs.Prelude.{◌⊎◌, ◌+◌, ◌<◌, ◌≤◌, length, IfOk, IfErr, is_ok, []};
ghost use Rattle.quota_pages.specs.Pages.{HoldsAsBuffered, pages_of};
ghost use Rattle.quota_pages.specs.Used.{IsKnown, LooksAtSome, shown_over};
ghost use Rattle.free_chains.specs.ChainFault.{IfOut, IsChainFault};
ghost use Rattle.free_chains.specs.FreeList.{CountsFree, CountsWithin, EndsBefore};

use crate::chain_fault::ChainFault;
use crate::heads::Heads;
use arrayvec::ArrayVec;
use outside::Store;
use quota_pages::Pages;
use quota_types::{DamageKind, damage_at};

/// Counts the blocks of the list of free blocks, as far as `most`, which is 4 at most. A list that returns to one of
/// its blocks ends there. It reads `most` blocks at most: there is room for as many, or, where the list is known, each
/// of its first blocks, up to `most`, is buffered or there is room for it.
///
/// # Errors
///
/// `Store` where the store failed, and `Damage` where the list leads past the last block and has fewer than `most`
/// blocks before that, as these are buffered then. The buffer shows what it showed.
pub fn count_free<S: Store>(
    pages: &mut Pages,
    store: &mut S,
    heads: &Heads,
    most: u32,
) -> Result<u32, ChainFault>
    requires most { most ≤ 4 }
    requires room { (length (pages_of pages.old) + most ≤ 12) ⊎ (IsKnown S.tells (S.seen store.old) pages.old
        × CountsWithin (shown_over (S.seen store.old) pages.old) heads.now most (pages_of pages.old)) }
    ensures few { IfOk result (λ count. count ≤ most) }
    ensures count { IfOk result (λ count. IsKnown S.tells (S.seen store.old) pages.old
        → CountsFree (shown_over (S.seen store.old) pages.old) heads.now most count) }
    ensures looked { LooksAtSome S.tells (is_ok result) most (S.seen store.old) (S.seen store.new) pages.old pages.new }
    ensures refused { IfErr result (IsChainFault heads.now.blocks (S.seen store.old).faults (S.seen store.new).faults
        (λ number. IsKnown S.tells (S.seen store.old) pages.old
        → EndsBefore (shown_over (S.seen store.old) pages.old) heads.now most number)) }
    ensures named { IfErr result (IfOut (λ number. HoldsAsBuffered pages.new
        (λ shown. EndsBefore shown heads.now most number))) }
    ensures commits { S.commits [] store.old store.new }
{
    let mut met: ArrayVec<u32, 4> = ArrayVec::new();
    let mut at = heads.free;
    for count in 0..most {
        if at >= heads.blocks {
            return Err(ChainFault::Damage(damage_at(DamageKind::ChainOut, at)));
        }
        if at == 0 || met.as_slice().contains(&at) {
            return Ok(count);
        }
        met.push(at);
        at = pages.word(store, at, 0)?;
    }
    Ok(most)
}
