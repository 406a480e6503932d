//! A record that is put into a tree file.

ghost use Rattle.std.specs.Prelude.{◌≡◌, ◌≢◌, ◌+◌, ◌-◌, ◌*◌, ◌≤◌, length, slice_index, IfErr, IfOk, IsSome, OnErr};
ghost use Rattle.std.specs.Prelude.{OnOk, ⊤, is_ok, []};
ghost use Rattle.std.specs.FinMap.{get};
ghost use Rattle.arrayvec.specs.ArrayVec.{array_vec_len};
ghost use Rattle.quota_types.specs.Format.{IsTreeFormat};
ghost use Rattle.quota_types.specs.Kept.{IsKept};
ghost use Rattle.quota_pages.specs.Page.{lent_count};
ghost use Rattle.quota_pages.specs.Pages.{pages_of};
ghost use Rattle.quota_pages.specs.Used.{IsKnown, UsesPages, shown_over};
ghost use Rattle.quota_radix.specs.Link.{AreBuffered};
ghost use Rattle.tree_change.specs.ChangeFault.{IfFull};
ghost use Rattle.tree_change.specs.Enters.{EntersEachTree};
ghost use Rattle.tree_change.specs.Putting.{WayEndsEarly, IsEnterFault, IsPutFault, IsPutInFault, PutsInEachTree};
ghost use Rattle.tree_change.specs.Putting.{PutsOverOne, TakesWithin};
ghost use Rattle.tree_change.specs.BlocksWanted.{data_wanted};
ghost use Rattle.tree_change.specs.Shows.{OfChange, OfEachTree};

use crate::adding::add_block;
use crate::change_fault::ChangeFault;
use crate::entering::enter_record;
use crate::leading::lead_to;
use crate::overwriting::overwrite_record;
use crate::room::has_room;
use free_chains::Heads;
use outside::Store;
use quota_pages::Pages;
use quota_radix::{Path, find_path};
use quota_types::{Format, Rec};

/// How many data blocks are taken for a record of an identifier that has none: one where no data block has room.
fn data_wanted(heads: &Heads) -> u32
    ensures { result ≡ data_wanted heads.now }
{
    if heads.first == 0 { 1 } else { 0 }
}

/// Enters the record of an identifier that has none: in the first data block that has room, or in a new one where none
/// has. It answers the block, and reads four at most, or three where it takes one.
///
/// # Errors
///
/// `Store` where the store failed, `Damage` where a list of blocks is damaged, and `Full` where there is no room for a
/// block that is to be taken. The heads are as before.
fn enter_data<S: Store>(
    pages: &mut Pages,
    store: &mut S,
    heads: &mut Heads,
    limit: u32,
    format: Format,
    id: u32,
    rec: &Rec,
) -> Result<u32, ChangeFault>
    requires tree { IsTreeFormat format }
    requires kept { IsKept format id rec.now }
    requires room { length (pages_of pages.old) + (4 - data_wanted heads.old) ≤ 12 }
    ensures entered { IfOk result (λ block. OfChange S.tells (S.seen store.old) (S.seen store.new) pages.old pages.new
        (λ before after.
        EntersEachTree block id rec.now (data_wanted heads.old) format before after heads.old heads.new)) }
    ensures takes { OnOk result (TakesWithin limit ⊤ heads.old heads.new pages.old pages.new) }
    ensures uses { UsesPages S.tells (is_ok result) (4 - data_wanted heads.old)
        (S.seen store.old) (S.seen store.new) pages.old pages.new }
    ensures stays { OnErr result (heads.new ≡ heads.old) }
    ensures refused { IfErr result (IsEnterFault (S.seen store.old).faults (S.seen store.new).faults
        (IsKnown S.tells (S.seen store.old) pages.old) format
        (shown_over (S.seen store.old) pages.old) heads.old limit (data_wanted heads.old)) }
    ensures commits { S.commits [] store.old store.new }
{
    if heads.first == 0 {
        add_block(pages, store, heads, limit, format, id, rec)
    } else {
        enter_record(pages, store, heads, format, id, rec)
    }
}

/// Puts the record of an identifier that has none: it decides whether there is room, enters the record, and leads the
/// way of the identifier to it. `path` are the blocks that the way has, one to four, which are buffered.
///
/// # Errors
///
/// `Store` where the store failed, `Damage` where the file is damaged, and `Full` where there is no room for the blocks
/// that are needed, which is known before any is lent for writing. The heads are as before.
fn put_new<S: Store>(
    pages: &mut Pages,
    store: &mut S,
    heads: &mut Heads,
    limit: u32,
    format: Format,
    path: &Path,
    id: u32,
    rec: &Rec,
) -> Result<(), ChangeFault>
    requires tree { IsTreeFormat format }
    requires kept { IsKept format id rec.now }
    requires found { 1 ≤ array_vec_len path.now.found }
    requires few { array_vec_len path.now.found ≤ 4 }
    requires brought { AreBuffered (pages_of pages.old) path.now.found.items }
    requires room { length (pages_of pages.old) + (2 * (4 - array_vec_len path.now.found) + 4) ≤ 12 }
    ensures put { OnOk result
        (WayEndsEarly (shown_over (S.seen store.old) pages.old) heads.old.blocks id path.now.found.items
        → OfChange S.tells (S.seen store.old) (S.seen store.new) pages.old pages.new
        (λ before after. PutsInEachTree id rec.now format before after heads.old heads.new)) }
    ensures takes { OnOk result (TakesWithin limit
        (slice_index path.now.found.items (array_vec_len path.now.found - 1) ≢ 0) heads.old heads.new
        pages.old pages.new) }
    ensures uses { UsesPages S.tells (is_ok result) (2 * (4 - array_vec_len path.now.found) + 4)
        (S.seen store.old) (S.seen store.new) pages.old pages.new }
    ensures stays { OnErr result (heads.new ≡ heads.old) }
    ensures refused { IfErr result (IsPutFault (S.seen store.old).faults (S.seen store.new).faults
        (IsKnown S.tells (S.seen store.old) pages.old
        × WayEndsEarly (shown_over (S.seen store.old) pages.old) heads.old.blocks id path.now.found.items)
        format (shown_over (S.seen store.old) pages.old) heads.old limit
        ((4 - array_vec_len path.now.found) + data_wanted heads.old)) }
    ensures full { IfErr result
        (IfFull (WayEndsEarly (shown_over (S.seen store.old) pages.old) heads.old.blocks id path.now.found.items
        → OfEachTree S.tells format (S.seen store.old) pages.old heads.old (λ _ _.
        lent_count (pages_of pages.new) ≡ lent_count (pages_of pages.old)))) }
    ensures commits { S.commits [] store.old store.new }
{
    let mut now = *heads;
    let lacking = 4 - path.found.len();
    has_room(
        pages,
        store,
        heads,
        limit,
        lacking as u32 + data_wanted(heads),
    )?;
    let block = enter_data(pages, store, &mut now, limit, format, id, rec)?;
    lead_to(pages, store, &mut now, limit, path, id, block)?;
    *heads = now;
    Ok(())
}

/// Puts the record of an identifier into a tree file, whether it has one or not. It changes blocks in the buffer alone,
/// and reads eleven at most.
///
/// # Errors
///
/// `Store` where the store failed, `Damage` where the file is damaged, and `Full` where the identifier has no record
/// and there is no room for the blocks that are needed, which is known before any is lent for writing. The heads are as
/// before.
pub fn put_in<S: Store>(
    pages: &mut Pages,
    store: &mut S,
    heads: &mut Heads,
    limit: u32,
    format: Format,
    id: u32,
    rec: &Rec,
) -> Result<(), ChangeFault>
    requires tree { IsTreeFormat format }
    requires kept { IsKept format id rec.now }
    requires room { length (pages_of pages.old) + 11 ≤ 12 }
    ensures put { OnOk result (OfChange S.tells (S.seen store.old) (S.seen store.new) pages.old pages.new
        (λ before after. PutsInEachTree id rec.now format before after heads.old heads.new)) }
    ensures takes { OnOk result (TakesWithin limit (IsKnown S.tells (S.seen store.old) pages.old)
        heads.old heads.new pages.old pages.new) }
    ensures uses { UsesPages S.tells (is_ok result) 11 (S.seen store.old) (S.seen store.new) pages.old pages.new }
    ensures stays { OnErr result (heads.new ≡ heads.old) }
    ensures refused { IfErr result (IsPutInFault (S.seen store.old).faults (S.seen store.new).faults
        (IsKnown S.tells (S.seen store.old) pages.old) format (shown_over (S.seen store.old) pages.old)
        heads.old limit id) }
    ensures over { OnOk result (OfEachTree S.tells format (S.seen store.old) pages.old heads.old (λ _ records.
        IsSome (get records id) → PutsOverOne (pages_of pages.old) (pages_of pages.new) heads.old heads.new)) }
    ensures full { IfErr result (IfFull (OfEachTree S.tells format (S.seen store.old) pages.old heads.old (λ _ _.
        lent_count (pages_of pages.new) ≡ lent_count (pages_of pages.old)))) }
    ensures commits { S.commits [] store.old store.new }
{
    let path = find_path(pages, store, heads.blocks, id)?;
    match path.leaf() {
        Some(block) => overwrite_record(pages, store, format, block, id, rec),
        None => put_new(pages, store, heads, limit, format, &path, id, rec),
    }
}
