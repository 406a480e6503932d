//! The links of single blocks. A link that is 0 leads to no block.

ghost use Rattle.std.specs.Prelude.{◌≡◌, ◌≢◌, ◌+◌, ◌<◌, ◌≤◌, ◌∷◌, [], true, false, IsOk, is_ok, IfOk, IfErr, OnOk};
ghost use Rattle.std.specs.Prelude.{OnErr};
ghost use Rattle.quota_types.specs.Bytes.{number_at};
ghost use Rattle.file_blocks.specs.Block.{block_of};
ghost use Rattle.outside.specs.Count.{Rose};
ghost use Rattle.quota_pages.specs.Page.{HasRoomFor, is_buffered};
ghost use Rattle.quota_pages.specs.Pages.{HoldsAsBuffered, pages_of};
ghost use Rattle.quota_pages.specs.Used.{HasWord, IsKnown, LendsSome, LooksAtSome, missing, shown_over};
ghost use Rattle.free_chains.specs.ChainFault.{IfOut, IsChainFault};
ghost use Rattle.free_chains.specs.Links.{HasLinks, led_to, missing_at};

use crate::chain_fault::ChainFault;
use outside::{Store, StoreFault};
use quota_pages::Pages;
use quota_types::{DamageKind, damage_at};

/// The number at byte `at` of a block, where it is below the number of blocks.
pub(crate) fn link_at<S: Store>(
    pages: &mut Pages,
    store: &mut S,
    blocks: u32,
    block: u32,
    at: usize,
) -> Result<u32, ChainFault>
    requires word { at + 4 ≤ 1024 }
    requires room { HasRoomFor (pages_of pages.old) block }
    ensures inside { IfOk result (λ link. link < blocks) }
    ensures value { IfOk result (λ link. IsKnown S.tells (S.seen store.old) pages.old
        → link ≡ number_at 4 (block_of (shown_over (S.seen store.old) pages.old) block) at) }
    ensures looked { LooksAtSome S.tells (is_ok result) (missing (pages_of pages.old) block)
        (S.seen store.old) (S.seen store.new) pages.old pages.new }
    ensures brought { OnOk result (is_buffered (pages_of pages.new) block ≡ true) }
    ensures refused { IfErr result (IsChainFault blocks (S.seen store.old).faults (S.seen store.new).faults
        (λ number. IsKnown S.tells (S.seen store.old) pages.old
        → number ≡ number_at 4 (block_of (shown_over (S.seen store.old) pages.old) block) at)) }
    ensures held { IfOk result
        (λ link. HoldsAsBuffered pages.new (λ shown. link ≡ number_at 4 (block_of shown block) at)) }
    ensures named { IfErr result (IfOut (λ number. (is_buffered (pages_of pages.new) block ≡ true)
        × HoldsAsBuffered pages.new (λ shown. number ≡ number_at 4 (block_of shown block) at))) }
    ensures commits { S.commits [] store.old store.new }
{
    let link = pages.word(store, block, at)?;
    if link >= blocks {
        return Err(ChainFault::Damage(damage_at(DamageKind::ChainOut, link)));
    }
    Ok(link)
}

/// Has the block buffered to which a link leads, where it leads to one.
pub(crate) fn bring<S: Store>(
    pages: &mut Pages,
    store: &mut S,
    block: u32,
) -> Result<(), StoreFault>
    requires { block ≢ 0 → HasRoomFor (pages_of pages.old) block }
    ensures looked { LooksAtSome S.tells (is_ok result) (missing_at (pages_of pages.old) block)
        (S.seen store.old) (S.seen store.new) pages.old pages.new }
    ensures brought { OnOk result (block ≢ 0 → is_buffered (pages_of pages.new) block ≡ true) }
    ensures cause { OnErr result (Rose (S.seen store.old).faults (S.seen store.new).faults) }
    ensures commits { S.commits [] store.old store.new }
{
    if block == 0 {
        return Ok(());
    }
    pages.word(store, block, 0)?;
    Ok(())
}

/// Writes the number at byte `at` of the block to which a link leads, where it leads to one.
pub(crate) fn set_link<S: Store>(
    pages: &mut Pages,
    store: &mut S,
    block: u32,
    at: usize,
    value: u32,
) -> Result<(), StoreFault>
    requires word { at + 4 ≤ 1024 }
    requires room { block ≢ 0 → HasRoomFor (pages_of pages.old) block }
    ensures set { OnOk result (IsKnown S.tells (S.seen store.old) pages.old → block ≢ 0
        → HasWord block at value (shown_over (S.seen store.old) pages.old) (shown_over (S.seen store.new) pages.new)) }
    ensures lends { OnOk result (LendsSome S.tells true (missing_at (pages_of pages.old) block) (led_to block)
        (S.seen store.old) (S.seen store.new) pages.old pages.new) }
    ensures kept { OnErr result (LooksAtSome S.tells false (missing_at (pages_of pages.old) block)
        (S.seen store.old) (S.seen store.new) pages.old pages.new) }
    ensures buffered { (block ≢ 0 → is_buffered (pages_of pages.old) block ≡ true) → IsOk result }
    ensures cause { OnErr result (Rose (S.seen store.old).faults (S.seen store.new).faults) }
    ensures commits { S.commits [] store.old store.new }
{
    if block == 0 {
        return Ok(());
    }
    pages.set_word(store, block, at, value)
}

/// Writes both links of a block. All its other bytes stay.
pub(crate) fn set_links<S: Store>(
    pages: &mut Pages,
    store: &mut S,
    block: u32,
    next: u32,
    previous: u32,
) -> Result<(), StoreFault>
    requires { HasRoomFor (pages_of pages.old) block }
    ensures set { OnOk result (IsKnown S.tells (S.seen store.old) pages.old
        → HasLinks block next previous (shown_over (S.seen store.old) pages.old)
        (shown_over (S.seen store.new) pages.new)) }
    ensures lends { OnOk result (LendsSome S.tells true (missing (pages_of pages.old) block) (block ∷ [])
        (S.seen store.old) (S.seen store.new) pages.old pages.new) }
    ensures kept { OnErr result (LooksAtSome S.tells false (missing (pages_of pages.old) block)
        (S.seen store.old) (S.seen store.new) pages.old pages.new) }
    ensures buffered { is_buffered (pages_of pages.old) block ≡ true → IsOk result }
    ensures cause { OnErr result (Rose (S.seen store.old).faults (S.seen store.new).faults) }
    ensures commits { S.commits [] store.old store.new }
{
    pages.set_word(store, block, 0, next)?;
    pages.set_word(store, block, 4, previous)?;
    Ok(())
}
