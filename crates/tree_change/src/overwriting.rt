//! A record that is overwritten in its data block.

ghost use Rattle.std.specs.Prelude.{◌≡◌, ◌≢◌, ◌+◌, ◌<◌, ◌≤◌, [], length, true, None, Some, IsSome, IfErr, IfOk, OnErr};
ghost use Rattle.std.specs.Prelude.{OnOk, is_ok};
ghost use Rattle.quota_types.specs.Format.{IsTreeFormat};
ghost use Rattle.quota_types.specs.Kept.{IsKept};
ghost use Rattle.entry_codec.specs.Entry.{entries_per_block};
ghost use Rattle.file_blocks.specs.Block.{block_of};
ghost use Rattle.outside.specs.Count.{Rose};
ghost use Rattle.quota_pages.specs.Page.{HasRoomFor, is_buffered, is_lent, lent_count};
ghost use Rattle.quota_pages.specs.Pages.{pages_of};
ghost use Rattle.quota_pages.specs.Used.{LooksAtSome, UsesPages};
ghost use Rattle.quota_radix.specs.Descent.{leaf_block};
ghost use Rattle.free_chains.specs.declared.heads.Heads.{Heads};
ghost use Rattle.tree_meaning.specs.EntryRecords.{record_by};
ghost use Rattle.tree_meaning.specs.TreeFile.{record_in};
ghost use Rattle.block_changes.specs.EntryChanges.{RewritesEntry};
ghost use Rattle.tree_change.specs.ChangeFault.{IsStepFault};
ghost use Rattle.tree_change.specs.Overwrites.{OverwritesEachTree};
ghost use Rattle.tree_change.specs.Put.{PutsOver};
ghost use Rattle.tree_change.specs.Shows.{IsNoCompleteTree, LendsOne, LooksAtOne, OfChange, OfShown};

use crate::change_fault::ChangeFault;
use outside::{Store, StoreFault};
use quota_pages::Pages;
use quota_types::{Damage, DamageKind, Format, Rec};
use tree_meaning::{find_place, put_entry};

/// Puts an entry at a place among the entries of a block, whatever stood there. All other bytes stay.
fn put_over(format: Format, block: &mut [u8; 1024], place: usize, id: u32, rec: &Rec)
    requires tree { IsTreeFormat format }
    requires place { place < entries_per_block format }
    requires kept { IsKept format id rec.now }
    ensures put { PutsOver format place (record { id = id; rec = rec.now }) block.old block.new }
    ensures whole { length block.new ≡ 1024 }
{
    put_entry(format, block, place, id, rec);
}

/// The place among the entries of a data block of the first one that an identifier uses.
///
/// # Errors
///
/// `Store` where the store failed, and `Damage` where it uses none.
pub(crate) fn place_of<S: Store>(
    pages: &mut Pages,
    store: &mut S,
    format: Format,
    block: u32,
    id: u32,
) -> Result<usize, ChangeFault>
    requires tree { IsTreeFormat format }
    requires room { length (pages_of pages.old) < 12 }
    ensures low { IfOk result (λ place. place < entries_per_block format) }
    ensures used { IfOk result (λ place. OfShown S.tells (S.seen store.old) pages.old
        (λ file. IsSome (record_by format (block_of file block) id place))) }
    ensures looked { LooksAtSome S.tells (is_ok result) 1 (S.seen store.old) (S.seen store.new) pages.old pages.new }
    ensures brought { OnOk result (is_buffered (pages_of pages.new) block ≡ true) }
    ensures refused { IfErr result (IsStepFault (S.seen store.old).faults (S.seen store.new).faults
        (OfShown S.tells (S.seen store.old) pages.old (λ file. record_in format (block_of file block) id ≡ None))) }
    ensures commits { S.commits [] store.old store.new }
{
    let bytes = pages.peek(store, block)?;
    match find_place(format, bytes, id) {
        Some(place) => Ok(place),
        None => Err(ChangeFault::Damage(Damage {
            kind: DamageKind::MissingEntry,
            block,
            id,
        })),
    }
}

/// Writes the record of an identifier over that at a place among the entries of a data block, which is lent for
/// writing.
///
/// # Errors
///
/// The store failed. The buffer shows what it showed.
fn rewrite_record<S: Store>(
    pages: &mut Pages,
    store: &mut S,
    format: Format,
    block: u32,
    place: usize,
    id: u32,
    rec: &Rec,
) -> Result<(), StoreFault>
    requires tree { IsTreeFormat format }
    requires place { place < entries_per_block format }
    requires kept { IsKept format id rec.now }
    requires room { HasRoomFor (pages_of pages.old) block }
    ensures rewritten { OnOk result (OfChange S.tells (S.seen store.old) (S.seen store.new) pages.old pages.new
        (λ before after. IsSome (record_by format (block_of before block) id place)
        → RewritesEntry format block place (record { id = id; rec = rec.now }) before after)) }
    ensures lends { OnOk result (LendsOne S.tells block (S.seen store.old) (S.seen store.new) pages.old pages.new) }
    ensures kept { OnErr result (LooksAtOne S.tells block (S.seen store.old) (S.seen store.new) pages.old pages.new) }
    ensures cause { OnErr result (Rose (S.seen store.old).faults (S.seen store.new).faults) }
    ensures commits { S.commits [] store.old store.new }
{
    let bytes = pages.page(store, block)?;
    put_over(format, bytes, place, id, rec);
    Ok(())
}

/// Overwrites the record of an identifier in the data block to which its leaf leads, of which one is read, and one
/// lent, at most. No list of blocks changes.
///
/// # Errors
///
/// `Store` where the store failed, and `Damage` where the block has no entry of the identifier.
pub fn overwrite_record<S: Store>(
    pages: &mut Pages,
    store: &mut S,
    format: Format,
    block: u32,
    id: u32,
    rec: &Rec,
) -> Result<(), ChangeFault>
    requires tree { IsTreeFormat format }
    requires kept { IsKept format id rec.now }
    requires room { length (pages_of pages.old) < 12 }
    ensures overwritten { OnOk result (OfChange S.tells (S.seen store.old) (S.seen store.new) pages.old pages.new
        (λ before after. OverwritesEachTree block id rec.now format before after)) }
    ensures uses { UsesPages S.tells (is_ok result) 1 (S.seen store.old) (S.seen store.new) pages.old pages.new }
    ensures lends { lent_count (pages_of pages.new) ≤ lent_count (pages_of pages.old) + 1 }
    ensures header { OnOk result (block ≢ 0 → is_lent (pages_of pages.new) 0 ≡ is_lent (pages_of pages.old) 0) }
    ensures refused { IfErr result (IsStepFault (S.seen store.old).faults (S.seen store.new).faults
        (OfShown S.tells (S.seen store.old) pages.old (λ file. (heads : Heads)
        → leaf_block file heads.blocks id ≡ Some block → IsNoCompleteTree format file heads))) }
    ensures commits { S.commits [] store.old store.new }
{
    let place = place_of(pages, store, format, block, id)?;
    rewrite_record(pages, store, format, block, place, id, rec)?;
    Ok(())
}
