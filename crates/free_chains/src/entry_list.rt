//! The list of data blocks that have room, which is linked both ways.

ghost use Rattle.std.specs.Prelude.{◌≡◌, ℕ, ◌+◌, ◌<◌, ◌≤◌, ◌∷◌, ◌++◌, [], List, length, true, false, IfErr, OnOk};
ghost use Rattle.std.specs.Prelude.{OnErr};
ghost use Rattle.outside.specs.Count.{Rose};
ghost use Rattle.quota_pages.specs.Page.{is_buffered};
ghost use Rattle.quota_pages.specs.Pages.{HoldsAsBuffered, pages_of};
ghost use Rattle.quota_pages.specs.Used.{HasRoomWithin, IsKnown, LendsSome, LooksAtSome, missing_among, shown_over};
ghost use Rattle.free_chains.specs.Chain.{IsChain};
ghost use Rattle.free_chains.specs.ChainFault.{IfOut, IsChainFault};
ghost use Rattle.free_chains.specs.Links.{ChangesLinksAlone, led_to};
ghost use Rattle.free_chains.specs.EntryList.{AreApart, EntersList, LeavesList, NamesPrevious, StopsLeaving, TakesOut};
ghost use Rattle.free_chains.specs.EntryList.{Unlinks, blocks_beside};

use crate::block_links::{bring, link_at, set_link, set_links};
use crate::chain_fault::ChainFault;
use crate::heads::Heads;
use outside::{Store, StoreFault};
use quota_pages::Pages;
use quota_types::{DamageKind, damage_at};

/// Puts a block before the list of data blocks that have room. Its links become the old head and 0, and the old first
/// block, where there is one, names it as the block before. All other bytes stay. It reads two blocks at most: each of
/// them is buffered, or there is room for it.
///
/// # Errors
///
/// `Store` where the store failed, and `Damage` where the head leads past the last block. The heads are as before, and
/// the buffer shows what it showed.
pub fn enter_entry_list<S: Store>(
    pages: &mut Pages,
    store: &mut S,
    heads: &mut Heads,
    n: u32,
) -> Result<(), ChainFault>
    requires { heads.old.first < heads.old.blocks
        → length (pages_of pages.old) + missing_among (pages_of pages.old) (n ∷ led_to heads.old.first) ≤ 12 }
    ensures head { OnOk result (heads.new ≡ record heads.old { first = n }) }
    ensures inside { OnOk result (heads.old.first < heads.old.blocks) }
    ensures entered { OnOk result (IsKnown S.tells (S.seen store.old) pages.old
        → EntersList (shown_over (S.seen store.old) pages.old) (shown_over (S.seen store.new) pages.new) heads.old n) }
    ensures links { OnOk result (IsKnown S.tells (S.seen store.old) pages.old
        → ChangesLinksAlone (shown_over (S.seen store.old) pages.old) (shown_over (S.seen store.new) pages.new)) }
    ensures lends { OnOk result (LendsSome S.tells true 2 (n ∷ led_to heads.old.first)
        (S.seen store.old) (S.seen store.new) pages.old pages.new) }
    ensures kept { OnErr result
        (LooksAtSome S.tells false 2 (S.seen store.old) (S.seen store.new) pages.old pages.new) }
    ensures stays { OnErr result (heads.new ≡ heads.old) }
    ensures refused { IfErr result (IsChainFault heads.old.blocks (S.seen store.old).faults (S.seen store.new).faults
        (λ number. number ≡ heads.old.first)) }
    ensures commits { S.commits [] store.old store.new }
{
    let first = heads.first;
    if first >= heads.blocks {
        return Err(ChainFault::Damage(damage_at(DamageKind::ChainOut, first)));
    }
    pages.word(store, n, 0)?;
    set_link(pages, store, first, 4, n)?;
    set_links(pages, store, n, first, 0)?;
    heads.first = n;
    Ok(())
}

/// Takes a block out of the list of data blocks that have room. The blocks before it and behind it are linked to each
/// other, and its own links become 0. All other bytes stay. It reads three blocks at most: there is room for as many,
/// or, where it is known which they are, each of them is buffered or there is room for it.
///
/// # Errors
///
/// `Store` where the store failed, and `Damage` where a link of the block, as it is buffered then, leads past the last
/// block. The heads are as before, and the buffer shows what it showed.
pub fn leave_entry_list<S: Store>(
    pages: &mut Pages,
    store: &mut S,
    heads: &mut Heads,
    n: u32,
) -> Result<(), ChainFault>
    requires { HasRoomWithin (IsKnown S.tells (S.seen store.old) pages.old) (pages_of pages.old) 3
        (blocks_beside (shown_over (S.seen store.old) pages.old) n) }
    ensures taken_out { OnOk result (TakesOut S.tells n
        (S.seen store.old) (S.seen store.new) heads.old heads.new pages.old pages.new) }
    ensures left { OnOk result (IsKnown S.tells (S.seen store.old) pages.old → (front back : List ℕ)
        → IsChain (shown_over (S.seen store.old) pages.old) heads.old.blocks heads.old.first (front ++ n ∷ back) 0
        → NamesPrevious (shown_over (S.seen store.old) pages.old) (front ++ n ∷ back)
        → LeavesList (shown_over (S.seen store.old) pages.old) (shown_over (S.seen store.new) pages.new)
        heads.old heads.new n front back) }
    ensures links { OnOk result (IsKnown S.tells (S.seen store.old) pages.old
        → ChangesLinksAlone (shown_over (S.seen store.old) pages.old) (shown_over (S.seen store.new) pages.new)) }
    ensures kept { OnErr result
        (LooksAtSome S.tells false 3 (S.seen store.old) (S.seen store.new) pages.old pages.new) }
    ensures stays { OnErr result (heads.new ≡ heads.old) }
    ensures refused { IfErr result (IsChainFault heads.old.blocks (S.seen store.old).faults (S.seen store.new).faults
        (λ number. IsKnown S.tells (S.seen store.old) pages.old
        → StopsLeaving (shown_over (S.seen store.old) pages.old) heads.old.blocks n number)) }
    ensures named { IfErr result (IfOut (λ number. (is_buffered (pages_of pages.new) n ≡ true)
        × HoldsAsBuffered pages.new (λ shown. StopsLeaving shown heads.old.blocks n number))) }
    ensures commits { S.commits [] store.old store.new }
{
    let next = link_at(pages, store, heads.blocks, n, 0)?;
    let previous = link_at(pages, store, heads.blocks, n, 4)?;
    unlink(pages, store, n, next, previous)?;
    if previous == 0 {
        heads.first = next;
    }
    Ok(())
}

/// Links the blocks to each other between which a block stands, and clears the links of that.
fn unlink<S: Store>(
    pages: &mut Pages,
    store: &mut S,
    n: u32,
    next: u32,
    previous: u32,
) -> Result<(), StoreFault>
    requires there { is_buffered (pages_of pages.old) n ≡ true }
    requires room { length (pages_of pages.old)
        + missing_among (pages_of pages.old) (led_to previous ++ led_to next) ≤ 12 }
    ensures unlinked { OnOk result (IsKnown S.tells (S.seen store.old) pages.old → AreApart n next previous
        → Unlinks (shown_over (S.seen store.old) pages.old) (shown_over (S.seen store.new) pages.new) n next previous) }
    ensures links { OnOk result (IsKnown S.tells (S.seen store.old) pages.old
        → ChangesLinksAlone (shown_over (S.seen store.old) pages.old) (shown_over (S.seen store.new) pages.new)) }
    ensures lends { OnOk result (LendsSome S.tells true 2 (n ∷ led_to previous ++ led_to next)
        (S.seen store.old) (S.seen store.new) pages.old pages.new) }
    ensures kept { OnErr result
        (LooksAtSome S.tells false 2 (S.seen store.old) (S.seen store.new) pages.old pages.new) }
    ensures cause { OnErr result (Rose (S.seen store.old).faults (S.seen store.new).faults) }
    ensures commits { S.commits [] store.old store.new }
{
    bring(pages, store, previous)?;
    set_link(pages, store, next, 4, previous)?;
    set_link(pages, store, previous, 0, next)?;
    set_links(pages, store, n, 0, 0)?;
    Ok(())
}
