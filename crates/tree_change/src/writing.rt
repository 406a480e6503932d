//! A record that is written in a data block.

ghost use Rattle.std.specs.Prelude.{◌≡◌, ◌<◌, [], length, true, IfOk, OnErr, OnOk};
ghost use Rattle.quota_types.specs.Format.{IsTreeFormat};
ghost use Rattle.quota_types.specs.Kept.{IsKept};
ghost use Rattle.entry_codec.specs.Entry.{entries_per_block, is_unused};
ghost use Rattle.file_blocks.specs.Block.{block_of};
ghost use Rattle.outside.specs.Count.{Rose};
ghost use Rattle.quota_pages.specs.Page.{HasRoomFor, is_buffered};
ghost use Rattle.quota_pages.specs.Pages.{pages_of};
ghost use Rattle.tree_meaning.specs.Entries.{entry_bytes, has_unused};
ghost use Rattle.block_changes.specs.EntryChanges.{WritesEntry};
ghost use Rattle.tree_change.specs.Put.{PutsCounted};
ghost use Rattle.tree_change.specs.Shows.{LendsOne, LooksAtOne, OfChange};

use entry_codec::entries_per_block;
use file_blocks::set_le16;
use outside::{Store, StoreFault};
use quota_pages::Pages;
use quota_types::{Format, Rec};
use tree_meaning::{put_entry, used_count};

/// Where a data block states how many of its entries are used.
const COUNT_AT: usize = 8;

/// Puts an entry at a place among the entries of a block, whatever stood there, and has the block state how many it
/// uses then. It answers whether some entry is unused still.
fn put_counted(format: Format, block: &mut [u8; 1024], place: usize, id: u32, rec: &Rec) -> bool
    requires tree { IsTreeFormat format }
    requires place { place < entries_per_block format }
    requires kept { IsKept format id rec.now }
    ensures put { PutsCounted format place (record { id = id; rec = rec.now }) block.old block.new }
    ensures whole { length block.new ≡ 1024 }
    ensures room { result ≡ has_unused format block.new }
{
    put_entry(format, block, place, id, rec);
    let count = used_count(format, block);
    set_le16(block, COUNT_AT, count as u16);
    count < entries_per_block(format)
}

/// Writes the record of an identifier at a place among the entries of a data block, which is lent for writing, and has
/// the block state how many entries it uses then. It answers whether some entry is unused still.
///
/// # Errors
///
/// The store failed. The buffer shows what it showed.
pub fn write_record<S: Store>(
    pages: &mut Pages,
    store: &mut S,
    format: Format,
    block: u32,
    place: usize,
    id: u32,
    rec: &Rec,
) -> Result<bool, StoreFault>
    requires tree { IsTreeFormat format }
    requires place { place < entries_per_block format }
    requires kept { IsKept format id rec.now }
    requires room { HasRoomFor (pages_of pages.old) block }
    ensures written { OnOk result (OfChange S.tells (S.seen store.old) (S.seen store.new) pages.old pages.new
        (λ before after. is_unused (entry_bytes format (block_of before block) place) ≡ true
        → WritesEntry format block place (record { id = id; rec = rec.now }) before after)) }
    ensures room { IfOk result (λ room. OfChange S.tells (S.seen store.old) (S.seen store.new) pages.old pages.new
        (λ before after. room ≡ has_unused format (block_of after block))) }
    ensures lends { OnOk result (LendsOne S.tells block (S.seen store.old) (S.seen store.new) pages.old pages.new) }
    ensures kept { OnErr result (LooksAtOne S.tells block (S.seen store.old) (S.seen store.new) pages.old pages.new) }
    ensures brought { OnOk result (is_buffered (pages_of pages.new) block ≡ true) }
    ensures cause { OnErr result (Rose (S.seen store.old).faults (S.seen store.new).faults) }
    ensures commits { S.commits [] store.old store.new }
{
    let bytes = pages.page(store, block)?;
    Ok(put_counted(format, bytes, place, id, rec))
}
