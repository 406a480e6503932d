//! A record that is entered in a data block that has room.

ghost use Rattle.std.specs.Prelude.{◌≡◌, ◌≢◌, ◌⊎◌, ◌+◌, ◌<◌, ◌≤◌, length, true, false, IfErr, IfOk, OnErr, OnOk, is_ok};
ghost use Rattle.std.specs.Prelude.{[]};
ghost use Rattle.quota_types.specs.Format.{IsTreeFormat};
ghost use Rattle.quota_types.specs.Kept.{IsKept};
ghost use Rattle.entry_codec.specs.Entry.{entries_per_block, is_unused};
ghost use Rattle.file_blocks.specs.Block.{block_of};
ghost use Rattle.quota_pages.specs.Page.{is_buffered, is_lent};
ghost use Rattle.quota_pages.specs.Pages.{pages_of};
ghost use Rattle.quota_pages.specs.Used.{LooksAtSome, UsesPages};
ghost use Rattle.tree_meaning.specs.Entries.{entry_bytes, has_unused};
ghost use Rattle.tree_change.specs.ChangeFault.{IsStepFault};
ghost use Rattle.tree_change.specs.Enters.{EntersEachTree};
ghost use Rattle.tree_change.specs.Shows.{IsNoTree, OfChange, OfShown};

use crate::change_fault::ChangeFault;
use crate::writing::write_record;
use free_chains::{Heads, leave_entry_list};
use outside::Store;
use quota_pages::Pages;
use quota_types::{DamageKind, Format, Rec, damage_at};
use tree_meaning::unused_place;

/// The first unused place among the entries of a block of the entry list, in a file of this many blocks.
///
/// # Errors
///
/// `Store` where the store failed, and `Damage` where the block is past the last one, or has no unused entry.
fn place_in<S: Store>(
    pages: &mut Pages,
    store: &mut S,
    format: Format,
    blocks: u32,
    block: u32,
) -> Result<usize, ChangeFault>
    requires tree { IsTreeFormat format }
    requires room { length (pages_of pages.old) < 12 }
    ensures low { IfOk result (λ place. place < entries_per_block format) }
    ensures unused { IfOk result (λ place. OfShown S.tells (S.seen store.old) pages.old
        (λ file. is_unused (entry_bytes format (block_of file block) place) ≡ true)) }
    ensures looked { LooksAtSome S.tells (is_ok result) 1 (S.seen store.old) (S.seen store.new) pages.old pages.new }
    ensures brought { OnOk result (is_buffered (pages_of pages.new) block ≡ true) }
    ensures refused { IfErr result (IsStepFault (S.seen store.old).faults (S.seen store.new).faults
        (OfShown S.tells (S.seen store.old) pages.old
        (λ file. (blocks ≤ block) ⊎ (has_unused format (block_of file block) ≡ false)))) }
    ensures commits { S.commits [] store.old store.new }
{
    if block >= blocks {
        return Err(ChangeFault::Damage(damage_at(DamageKind::ChainOut, block)));
    }
    let bytes = pages.peek(store, block)?;
    match unused_place(format, bytes) {
        Some(place) => Ok(place),
        None => Err(ChangeFault::Damage(damage_at(DamageKind::ForeignInChain, block))),
    }
}

/// Writes the record of an identifier that has none in the first data block that has room, at its first unused place,
/// and takes the block out of the list of those where it has no room then. It answers the block, and reads four at
/// most.
///
/// # Errors
///
/// `Store` where the store failed, and `Damage` where the first block of the list has no room, or the list leads past
/// the last block. The heads are as before.
pub fn enter_record<S: Store>(
    pages: &mut Pages,
    store: &mut S,
    heads: &mut Heads,
    format: Format,
    id: u32,
    rec: &Rec,
) -> Result<u32, ChangeFault>
    requires tree { IsTreeFormat format }
    requires kept { IsKept format id rec.now }
    requires some { heads.old.first ≢ 0 }
    requires room { length (pages_of pages.old) + 4 ≤ 12 }
    ensures entered { IfOk result (λ block. OfChange S.tells (S.seen store.old) (S.seen store.new) pages.old pages.new
        (λ before after. EntersEachTree block id rec.now 0 format before after heads.old heads.new)) }
    ensures blocks { OnOk result (heads.new.blocks ≡ heads.old.blocks) }
    ensures header { OnOk result (is_lent (pages_of pages.new) 0 ≡ is_lent (pages_of pages.old) 0) }
    ensures uses { UsesPages S.tells (is_ok result) 4 (S.seen store.old) (S.seen store.new) pages.old pages.new }
    ensures stays { OnErr result (heads.new ≡ heads.old) }
    ensures refused { IfErr result (IsStepFault (S.seen store.old).faults (S.seen store.new).faults
        (OfShown S.tells (S.seen store.old) pages.old (λ file. IsNoTree format file heads.old))) }
    ensures commits { S.commits [] store.old store.new }
{
    let block = heads.first;
    let place = place_in(pages, store, format, heads.blocks, block)?;
    if write_record(pages, store, format, block, place, id, rec)? {
        return Ok(block);
    }
    leave_entry_list(pages, store, heads, block)?;
    Ok(block)
}
