//! Blocks that are taken for a change.

ghost use Rattle.std.specs.Prelude.{◌≡◌, ◌≢◌, ◌+◌, ◌≤◌, ◌∷◌, [], length, true, false, IfErr, IfOk, OnErr, OnOk, ⊤};
ghost use Rattle.std.specs.Prelude.{is_ok, max};
ghost use Rattle.quota_types.specs.Times.{times};
ghost use Rattle.arrayvec.specs.ArrayVec.{array_vec_len};
ghost use Rattle.quota_pages.specs.Page.{is_buffered};
ghost use Rattle.quota_pages.specs.Pages.{pages_of};
ghost use Rattle.quota_pages.specs.Used.{IsKnown, LendsSome, LooksAtSome, UsesPages, shown_over};
ghost use Rattle.quota_radix.specs.Link.{AreBuffered};
ghost use Rattle.tree_change.specs.Fresh.{IsTakeFault, TakesFresh, TellsOneMore};
ghost use Rattle.tree_change.specs.Putting.{TakesWithin};
ghost use Rattle.tree_change.specs.Shows.{OfChange};

use crate::change_fault::ChangeFault;
use arrayvec::ArrayVec;
use free_chains::{Heads, take_block};
use outside::Store;
use quota_pages::Pages;

/// Takes a block, and makes each of its bytes 0: the first free one, or, where none is free, the block behind the last
/// one, while there are fewer than `limit`. It reads one block at most.
///
/// # Errors
///
/// `Store` where the store failed, `Damage` where the list of free blocks leads past the last block, and `Full` where
/// no block is free and there are as many as there may be, with the number of blocks that the file would have. The
/// heads are as before, and the buffer shows what it showed.
pub(crate) fn take_one<S: Store>(
    pages: &mut Pages,
    store: &mut S,
    heads: &mut Heads,
    limit: u32,
) -> Result<u32, ChangeFault>
    requires room { length (pages_of pages.old) + 1 ≤ 12 }
    ensures taken { IfOk result (λ block. OfChange S.tells (S.seen store.old) (S.seen store.new) pages.old pages.new
        (λ before after. TakesFresh (block ∷ []) before after heads.old heads.new)) }
    ensures first { OnOk result (heads.new.first ≡ heads.old.first) }
    ensures takes { OnOk result (TakesWithin limit ⊤ heads.old heads.new pages.old pages.new) }
    ensures most { OnOk result (heads.new.blocks ≤ max heads.old.blocks limit) }
    ensures beside { IfOk result (λ block. heads.old.blocks ≢ 0 → block ≢ 0) }
    ensures lends { IfOk result (λ block. LendsSome S.tells true 1 (block ∷ [])
        (S.seen store.old) (S.seen store.new) pages.old pages.new) }
    ensures brought { IfOk result (λ block. is_buffered (pages_of pages.new) block ≡ true) }
    ensures kept { OnErr result
        (LooksAtSome S.tells false 1 (S.seen store.old) (S.seen store.new) pages.old pages.new) }
    ensures stays { OnErr result (heads.new ≡ heads.old) }
    ensures refused { IfErr result (IsTakeFault (S.seen store.old).faults (S.seen store.new).faults
        (IsKnown S.tells (S.seen store.old) pages.old) (shown_over (S.seen store.old) pages.old) heads.old limit 1) }
    ensures full { IfErr result (TellsOneMore heads.old limit) }
    ensures commits { S.commits [] store.old store.new }
{
    if heads.free == 0 && heads.blocks >= limit {
        return Err(ChangeFault::Full {
            blocks: u64::from(heads.blocks) + 1,
            limit: u64::from(limit),
        });
    }
    Ok(take_block(pages, store, heads)?)
}

/// Takes `count` blocks, 4 at most, one after another, and makes each of their bytes 0: the free ones first, and then
/// blocks behind the last one, while there are fewer than `limit`. It reads as many at most.
///
/// # Errors
///
/// `Store` where the store failed, `Damage` where the list of free blocks leads past the last block, and `Full` where
/// there is no room for them, with the number of blocks that the file would have with the first of them for which there
/// is none. The heads are as before.
pub fn take_fresh<S: Store>(
    pages: &mut Pages,
    store: &mut S,
    heads: &mut Heads,
    limit: u32,
    count: usize,
) -> Result<ArrayVec<u32, 4>, ChangeFault>
    requires count { count ≤ 4 }
    requires room { length (pages_of pages.old) + count ≤ 12 }
    ensures count { IfOk result (λ fresh. array_vec_len fresh ≡ count) }
    ensures taken { IfOk result (λ fresh. OfChange S.tells (S.seen store.old) (S.seen store.new) pages.old pages.new
        (λ before after. TakesFresh fresh.items before after heads.old heads.new)) }
    ensures first { OnOk result (heads.new.first ≡ heads.old.first) }
    ensures takes { OnOk result (TakesWithin limit ⊤ heads.old heads.new pages.old pages.new) }
    ensures beside { IfOk result (λ fresh. heads.old.blocks ≢ 0 → times fresh.items 0 ≡ 0) }
    ensures brought { IfOk result (λ fresh. AreBuffered (pages_of pages.new) fresh.items) }
    ensures uses { UsesPages S.tells (is_ok result) count (S.seen store.old) (S.seen store.new) pages.old pages.new }
    ensures stays { OnErr result (heads.new ≡ heads.old) }
    ensures refused { IfErr result (IsTakeFault (S.seen store.old).faults (S.seen store.new).faults
        (IsKnown S.tells (S.seen store.old) pages.old) (shown_over (S.seen store.old) pages.old)
        heads.old limit count) }
    ensures full { IfErr result (TellsOneMore heads.old limit) }
    ensures commits { S.commits [] store.old store.new }
{
    let mut now = *heads;
    let mut fresh = ArrayVec::new();
    for _ in 0..count {
        let block = take_one(pages, store, &mut now, limit)?;
        fresh.push(block);
    }
    *heads = now;
    Ok(fresh)
}
