//! The list of free blocks.

ghost use Rattle.std.specs.Prelude.{◌≡◌, ◌≢◌, ◌+◌, ◌-◌, ◌^◌, ◌<◌, ◌∷◌, [], replicate, true, false, IfOk, IfErr, OnOk};
ghost use Rattle.std.specs.Prelude.{OnErr};
ghost use Rattle.file_blocks.specs.Block.{block_of};
ghost use Rattle.outside.specs.Count.{Rose};
ghost use Rattle.quota_pages.specs.Page.{HasRoomFor, is_buffered, is_lent};
ghost use Rattle.quota_pages.specs.Pages.{HoldsAsBuffered, pages_of};
ghost use Rattle.quota_pages.specs.Used.{IsKnown, LendsSome, LooksAtSome, missing, shown_over};
ghost use Rattle.free_chains.specs.ChainFault.{IfOut, IsChainFault};
ghost use Rattle.free_chains.specs.FreeList.{GivesBlock, StopsTaking, TakesBlock, TakesHead, TakesListed};

use crate::block_links::link_at;
use crate::chain_fault::ChainFault;
use crate::heads::Heads;
use outside::{Store, StoreFault};
use quota_pages::Pages;
use quota_types::{DamageKind, damage_at};

/// Takes the first block from the list of free blocks, or, where that list is empty, the block behind the last one, and
/// makes each of its bytes 0. It reads one block at most.
///
/// # Errors
///
/// `Store` where the store failed, and `Damage` where the head of the list, or the link of its first block, as that is
/// buffered then, leads past the last block. The heads are as before, and the buffer shows what it showed.
pub fn take_block<S: Store>(
    pages: &mut Pages,
    store: &mut S,
    heads: &mut Heads,
) -> Result<u32, ChainFault>
    requires blocks { heads.old.free ≡ 0 → heads.old.blocks < 2 ^ 32 - 1 }
    requires new { heads.old.free ≡ 0 → HasRoomFor (pages_of pages.old) heads.old.blocks }
    requires listed { heads.old.free ≢ 0 → HasRoomFor (pages_of pages.old) heads.old.free }
    ensures head { IfOk result (TakesHead heads.old heads.new) }
    ensures taken { IfOk result (λ block. IsKnown S.tells (S.seen store.old) pages.old
        → TakesBlock (shown_over (S.seen store.old) pages.old) (shown_over (S.seen store.new) pages.new)
        heads.old heads.new block) }
    ensures lends { IfOk result (λ block. LendsSome S.tells true 1 (block ∷ [])
        (S.seen store.old) (S.seen store.new) pages.old pages.new) }
    ensures marked { IfOk result (λ block. is_lent (pages_of pages.new) block ≡ true) }
    ensures kept { OnErr result
        (LooksAtSome S.tells false 1 (S.seen store.old) (S.seen store.new) pages.old pages.new) }
    ensures stays { OnErr result (heads.new ≡ heads.old) }
    ensures refused { IfErr result (IsChainFault heads.old.blocks (S.seen store.old).faults (S.seen store.new).faults
        (λ number. (heads.old.free ≢ 0) × (IsKnown S.tells (S.seen store.old) pages.old
        → StopsTaking (shown_over (S.seen store.old) pages.old) heads.old number))) }
    ensures named { IfErr result (IfOut (λ number.
        (heads.old.free < heads.old.blocks → is_buffered (pages_of pages.new) heads.old.free ≡ true)
        × HoldsAsBuffered pages.new (λ shown. StopsTaking shown heads.old number))) }
    ensures commits { S.commits [] store.old store.new }
{
    if heads.free == 0 {
        return Ok(take_new(pages, store, heads)?);
    }
    take_listed(pages, store, heads)
}

/// Puts a block before the list of free blocks. Its first four bytes become the old head, and all others 0. It reads
/// that block, where it is not buffered, and no other.
///
/// # Errors
///
/// The store failed. The heads are as before, and the buffer shows what it showed.
pub fn give_block<S: Store>(
    pages: &mut Pages,
    store: &mut S,
    heads: &mut Heads,
    n: u32,
) -> Result<(), StoreFault>
    requires { HasRoomFor (pages_of pages.old) n }
    ensures head { OnOk result (heads.new ≡ record heads.old { free = n }) }
    ensures given { OnOk result (IsKnown S.tells (S.seen store.old) pages.old
        → GivesBlock (shown_over (S.seen store.old) pages.old) (shown_over (S.seen store.new) pages.new) heads.old n) }
    ensures lends { OnOk result (LendsSome S.tells true (missing (pages_of pages.old) n) (n ∷ [])
        (S.seen store.old) (S.seen store.new) pages.old pages.new) }
    ensures marked { OnOk result (is_lent (pages_of pages.new) n ≡ true) }
    ensures kept { OnErr result (LooksAtSome S.tells false (missing (pages_of pages.old) n)
        (S.seen store.old) (S.seen store.new) pages.old pages.new) }
    ensures stays { OnErr result (heads.new ≡ heads.old) }
    ensures cause { OnErr result (Rose (S.seen store.old).faults (S.seen store.new).faults) }
    ensures commits { S.commits [] store.old store.new }
{
    pages.blank(store, n)?;
    pages.set_word(store, n, 0, heads.free)?;
    heads.free = n;
    Ok(())
}

/// Takes the block behind the last one.
fn take_new<S: Store>(
    pages: &mut Pages,
    store: &mut S,
    heads: &mut Heads,
) -> Result<u32, StoreFault>
    requires blocks { heads.old.blocks < 2 ^ 32 - 1 }
    requires room { HasRoomFor (pages_of pages.old) heads.old.blocks }
    ensures block { IfOk result (λ block. block ≡ heads.old.blocks) }
    ensures head { OnOk result (heads.new ≡ record heads.old { blocks = heads.old.blocks + 1 }) }
    ensures blank { IfOk result (λ block. IsKnown S.tells (S.seen store.old) pages.old
        → block_of (shown_over (S.seen store.new) pages.new) block ≡ replicate 1024 0) }
    ensures lends { IfOk result (λ block. LendsSome S.tells true 1 (block ∷ [])
        (S.seen store.old) (S.seen store.new) pages.old pages.new) }
    ensures marked { IfOk result (λ block. is_lent (pages_of pages.new) block ≡ true) }
    ensures kept { OnErr result
        (LooksAtSome S.tells false 1 (S.seen store.old) (S.seen store.new) pages.old pages.new) }
    ensures stays { OnErr result (heads.new ≡ heads.old) }
    ensures cause { OnErr result (Rose (S.seen store.old).faults (S.seen store.new).faults) }
    ensures commits { S.commits [] store.old store.new }
{
    let block = heads.blocks;
    pages.blank(store, block)?;
    heads.blocks += 1;
    Ok(block)
}

/// Takes the first block of the list.
fn take_listed<S: Store>(
    pages: &mut Pages,
    store: &mut S,
    heads: &mut Heads,
) -> Result<u32, ChainFault>
    requires some { heads.old.free ≢ 0 }
    requires room { HasRoomFor (pages_of pages.old) heads.old.free }
    ensures head { IfOk result (TakesListed heads.old heads.new) }
    ensures first { OnOk result (heads.new.first ≡ heads.old.first) }
    ensures taken { IfOk result (λ block. IsKnown S.tells (S.seen store.old) pages.old
        → TakesBlock (shown_over (S.seen store.old) pages.old) (shown_over (S.seen store.new) pages.new)
        heads.old heads.new block) }
    ensures lends { IfOk result (λ block. LendsSome S.tells true 1 (block ∷ [])
        (S.seen store.old) (S.seen store.new) pages.old pages.new) }
    ensures marked { IfOk result (λ block. is_lent (pages_of pages.new) block ≡ true) }
    ensures kept { OnErr result
        (LooksAtSome S.tells false 1 (S.seen store.old) (S.seen store.new) pages.old pages.new) }
    ensures stays { OnErr result (heads.new ≡ heads.old) }
    ensures refused { IfErr result (IsChainFault heads.old.blocks (S.seen store.old).faults (S.seen store.new).faults
        (λ number. IsKnown S.tells (S.seen store.old) pages.old
        → StopsTaking (shown_over (S.seen store.old) pages.old) heads.old number)) }
    ensures named { IfErr result (IfOut (λ number.
        (heads.old.free < heads.old.blocks → is_buffered (pages_of pages.new) heads.old.free ≡ true)
        × HoldsAsBuffered pages.new (λ shown. StopsTaking shown heads.old number))) }
    ensures commits { S.commits [] store.old store.new }
{
    let first = heads.free;
    if first >= heads.blocks {
        return Err(ChainFault::Damage(damage_at(DamageKind::ChainOut, first)));
    }
    let next = link_at(pages, store, heads.blocks, first, 0)?;
    pages.blank(store, first)?;
    heads.free = next;
    Ok(first)
}
