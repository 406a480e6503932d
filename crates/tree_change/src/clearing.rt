//! Entries that are cleared in their data block.

ghost use Rattle.std.specs.Prelude.{◌≡◌, ℕ, ◌<◌, ◌∷◌, [], length, true, false, IsSome, IfErr, IfOk, OnErr, OnOk, None};
ghost use Rattle.quota_types.specs.Bytes.{number_at};
ghost use Rattle.quota_types.specs.Format.{IsTreeFormat};
ghost use Rattle.quota_types.specs.KeptBytes.{KeepsOutside};
ghost use Rattle.outside.specs.Count.{Rose};
ghost use Rattle.file_blocks.specs.Block.{block_of};
ghost use Rattle.entry_codec.specs.Entry.{entries_per_block};
ghost use Rattle.quota_pages.specs.Page.{HasRoomFor, is_buffered};
ghost use Rattle.quota_pages.specs.Pages.{pages_of};
ghost use Rattle.quota_pages.specs.Used.{LendsSome, LooksAtSome};
ghost use Rattle.tree_meaning.specs.Entries.{used_ids};
ghost use Rattle.tree_meaning.specs.EntryRecords.{record_by};
ghost use Rattle.tree_meaning.specs.EntryPlaces.{ClearsEntry};
ghost use Rattle.tree_meaning.specs.TreeFile.{record_in};
ghost use Rattle.block_changes.specs.EntryChanges.{LosesEntry};
ghost use Rattle.tree_change.specs.ChangeFault.{IsStepFault};
ghost use Rattle.tree_change.specs.Clears.{IsCleared, LosesRecord};
ghost use Rattle.tree_change.specs.Shows.{LendsOne, LooksAtOne, OfChange, OfShown};

use crate::change_fault::ChangeFault;
use crate::overwriting::place_of;
use file_blocks::set_le16;
use outside::{Store, StoreFault};
use quota_pages::Pages;
use quota_types::Format;
use tree_meaning::{clear_entry, unused_place, used_count};

/// What a block had, and has, of which an entry was cleared.
#[derive(Clone, Copy, Debug, PartialEq, Eq)]
pub enum Cleared {
    /// It was the last entry of the block.
    Last,
    /// The block has others, and had no unused one.
    WasFull,
    /// The block has others, and had an unused one before.
    HadRoom,
}

/// Writes in a block how many of its entries are used. All its other bytes stay.
fn state_count(format: Format, block: &mut [u8; 1024])
    requires { IsTreeFormat format }
    ensures stated { number_at 2 block.new 8 ≡ length (used_ids format block.new) }
    ensures others { KeepsOutside 8 10 block.old block.new }
    ensures whole { length block.new ≡ 1024 }
{
    let count = used_count(format, block);
    set_le16(block, 8, count as u16);
}

/// Clears the entry at a place among the entries of a block, and writes how many it uses then.
fn clear_in(format: Format, block: &mut [u8; 1024], place: usize) -> Cleared
    requires tree { IsTreeFormat format }
    requires place { place < entries_per_block format }
    ensures clears { (id : ℕ) → IsSome (record_by format block.old id place)
        → ClearsEntry format place id block.old block.new }
    ensures cleared { IsCleared format block.old block.new result }
    ensures stated { number_at 2 block.new 8 ≡ length (used_ids format block.new) }
    ensures links { KeepsOutside 8 1024 block.old block.new }
    ensures whole { length block.new ≡ 1024 }
{
    let had_room = unused_place(format, block).is_some();
    clear_entry(format, block, place);
    state_count(format, block);
    if used_count(format, block) == 0 {
        return Cleared::Last;
    }
    if had_room {
        Cleared::HadRoom
    } else {
        Cleared::WasFull
    }
}

/// Clears the entry at a place among the entries of a block, and writes how many the block uses then. It reads the
/// block where it is not buffered.
///
/// # Errors
///
/// The store failed. The buffer shows what it showed.
fn clear_at<S: Store>(
    pages: &mut Pages,
    store: &mut S,
    format: Format,
    block: u32,
    place: usize,
) -> Result<Cleared, StoreFault>
    requires tree { IsTreeFormat format }
    requires place { place < entries_per_block format }
    requires room { HasRoomFor (pages_of pages.old) block }
    ensures cleared { IfOk result (λ cleared. OfChange S.tells (S.seen store.old) (S.seen store.new) pages.old pages.new
        (λ before after. (id : ℕ) → IsSome (record_by format (block_of before block) id place)
        → LosesEntry format block place id before after)) }
    ensures left { IfOk result (λ cleared. OfChange S.tells (S.seen store.old) (S.seen store.new) pages.old pages.new
        (λ before after. IsCleared format (block_of before block) (block_of after block) cleared)) }
    ensures brought { OnOk result (is_buffered (pages_of pages.new) block ≡ true) }
    ensures lends { OnOk result (LendsOne S.tells block (S.seen store.old) (S.seen store.new) pages.old pages.new) }
    ensures kept { OnErr result (LooksAtOne S.tells block (S.seen store.old) (S.seen store.new) pages.old pages.new) }
    ensures cause { OnErr result (Rose (S.seen store.old).faults (S.seen store.new).faults) }
    ensures commits { S.commits [] store.old store.new }
{
    let bytes = pages.page(store, block)?;
    Ok(clear_in(format, bytes, place))
}

/// Clears the entry of an identifier in a block, and writes how many entries the block uses then. It answers what the
/// block had and has, and reads one block at most.
///
/// # Errors
///
/// `Store` where the store failed, and `Damage` where the identifier uses no entry of the block. The buffer shows what
/// it showed.
pub fn clear_record<S: Store>(
    pages: &mut Pages,
    store: &mut S,
    format: Format,
    block: u32,
    id: u32,
) -> Result<Cleared, ChangeFault>
    requires tree { IsTreeFormat format }
    requires room { length (pages_of pages.old) < 12 }
    ensures cleared { IfOk result (λ cleared. OfChange S.tells (S.seen store.old) (S.seen store.new) pages.old pages.new
        (λ before after. LosesRecord format block id cleared before after)) }
    ensures lends { OnOk result (LendsSome S.tells true 1 (block ∷ [])
        (S.seen store.old) (S.seen store.new) pages.old pages.new) }
    ensures brought { OnOk result (is_buffered (pages_of pages.new) block ≡ true) }
    ensures kept { OnErr result
        (LooksAtSome S.tells false 1 (S.seen store.old) (S.seen store.new) pages.old pages.new) }
    ensures refused { IfErr result (IsStepFault (S.seen store.old).faults (S.seen store.new).faults
        (OfShown S.tells (S.seen store.old) pages.old (λ file. record_in format (block_of file block) id ≡ None))) }
    ensures commits { S.commits [] store.old store.new }
{
    let place = place_of(pages, store, format, block, id)?;
    Ok(clear_at(pages, store, format, block, place)?)
}
