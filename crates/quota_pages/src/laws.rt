//! Laws of what a buffer of pages shows.

ghost use Rattle.std.specs.Prelude.{◌≡◌, ◌≢◌, ◌⊎◌, ◌+◌, ◌*◌, ◌<◌, ◌≤◌, ◌&&◌, ℕ, All, Bool, IsTrue, true, false, IfOk};
ghost use Rattle.std.specs.Prelude.{OnErr, List, [], ◌++◌, length, max};
ghost use Rattle.quota_types.specs.Bytes.{byte_at, number_at};
ghost use Rattle.outside.specs.Count.{Rose};
ghost use Rattle.outside.specs.World.{World};
ghost use Rattle.outside.specs.Seen.{StoreSeen};
ghost use Rattle.quota_types.specs.Times.{StandsIn, times};
ghost use Rattle.file_blocks.specs.Block.{block_of, bytes_of, file_of};
ghost use Rattle.quota_pages.specs.Overlay.{with_block};
ghost use Rattle.quota_pages.specs.Flushed.{IsPartlyFlushed, counted_by, flushed_files};
ghost use Rattle.quota_pages.specs.Page.{IsClean, Page, is_buffered, is_lent, lent_count, lent_numbers, shown};
ghost use Rattle.quota_pages.specs.Pages.{name_of, pages_of};
ghost use Rattle.quota_pages.specs.Used.{LendsSome, LooksAtSome, UsesPages, file_under, shown_over};
ghost use Rattle.quota_pages.specs.KeptBlocks.{KeepsBlocksBut};
ghost use Rattle.quota_pages.specs.declared.page_buffer.Pages.{Pages as Buffer};

use crate::Pages;
use file_blocks::{le32, set_le32};
use outside::{Store, StoreFault};

/// A file with a block laid over it has that block under its number, all other bytes as before, and the length of the
/// file, or up to the end of that block where that is greater.
pub fn a_block_is_laid_over_a_file()
    ensures same { (file bytes : List ℕ) (number : ℕ) → length bytes ≡ 1024
        → block_of (with_block file number bytes) number ≡ bytes }
    ensures other { (file bytes : List ℕ) (number other : ℕ) → other ≢ number
        → block_of (with_block file number bytes) other ≡ block_of file other }
    ensures before { (file bytes : List ℕ) (number at : ℕ) → at < 1024 * number
        → byte_at (with_block file number bytes) at ≡ byte_at file at }
    ensures behind { (file bytes : List ℕ) (number at : ℕ) → 1024 * number + 1024 ≤ at
        → byte_at (with_block file number bytes) at ≡ byte_at file at }
    ensures size { (file bytes : List ℕ) (number : ℕ)
        → length (with_block file number bytes) ≡ max (length file) (1024 * number + 1024) }
{}

/// An empty buffer shows the file as it is, and is clean.
pub fn an_empty_buffer_shows_the_file()
    ensures shown { (file : List ℕ) → shown [] file ≡ file }
    ensures clean { (file : List ℕ) → IsClean [] file }
{}

/// A block that was not lent for writing is shown as it is in the file. What is shown is as long as the file, or up to
/// the end of the last block that was lent where that is greater.
pub fn all_but_lent_blocks_stay()
    ensures others { (pages : List Page) (file : List ℕ) (number : ℕ) → is_lent pages number ≡ false
        → block_of (shown pages file) number ≡ block_of file number }
    ensures grows { (pages : List Page) (file : List ℕ) → length file ≤ length (shown pages file) }
    ensures covers { (pages : List Page) (file : List ℕ) (number : ℕ) → is_lent pages number ≡ true
        → 1024 * number + 1024 ≤ length (shown pages file) }
    ensures ends { (pages : List Page) (file : List ℕ) → (length (shown pages file) ≡ length file)
        ⊎ ((number : ℕ) × (is_lent pages number ≡ true) × (length (shown pages file) ≡ 1024 * number + 1024)) }
    ensures all { (pages : List Page) (file : List ℕ) → KeepsBlocksBut (lent_numbers pages) file (shown pages file) }
{}

/// A buffer of whole blocks is clean over some file: one that has each of them under its number.
pub fn a_buffer_is_clean_over_some_file()
    ensures { (buffer : Buffer) → All (λ page. length page.bytes ≡ 1024) (pages_of buffer)
        → (file : List ℕ) × IsClean (pages_of buffer) file }
{}

/// A block that was lent for writing is buffered. The numbers of the pages that were lent are those of the blocks that
/// were, and no more than there are pages.
pub fn a_lent_block_is_buffered()
    ensures buffered { (pages : List Page) (number : ℕ) → is_lent pages number ≡ true
        → is_buffered pages number ≡ true }
    ensures stands { (pages : List Page) (number : ℕ) → is_lent pages number ≡ true
        → StandsIn (lent_numbers pages) number }
    ensures lent { (pages : List Page) (number : ℕ) → StandsIn (lent_numbers pages) number
        → is_lent pages number ≡ true }
    ensures count { (pages : List Page) → length (lent_numbers pages) ≡ lent_count pages }
    ensures few { (pages : List Page) → lent_count pages ≤ length pages }
{}

/// A buffer has at most twelve pages. So at most twelve blocks were lent for writing, and none of them stands twice.
pub fn a_buffer_has_few_pages()
    ensures pages { (buffer : Buffer) → length (pages_of buffer) ≤ 12 }
    ensures lent { (buffer : Buffer) → length (lent_numbers (pages_of buffer)) ≤ 12 }
    ensures distinct { (buffer : Buffer) (number : ℕ) → times (lent_numbers (pages_of buffer)) number ≤ 1 }
{}

/// After a flush the named file is what was shown. So all its blocks stay but those that were lent for writing, and
/// each byte outside of those. As many calls of `write` are counted as blocks were lent, at most, which are twelve at
/// most.
pub fn a_flush_leaves_what_was_shown()
    ensures file { (files : World) (name : List ℕ) (pages : List Page)
        → bytes_of (flushed_files files name pages name) ≡ shown pages (file_of files name) }
    ensures blocks { (files : World) (name : List ℕ) (pages : List Page)
        → KeepsBlocksBut (lent_numbers pages) (file_of files name) (bytes_of (flushed_files files name pages name)) }
    ensures bytes { (files : World) (name : List ℕ) (pages : List Page) (number at : ℕ) → is_lent pages number ≡ false
        → 1024 * number ≤ at → at < 1024 * number + 1024
        → byte_at (bytes_of (flushed_files files name pages name)) at ≡ byte_at (file_of files name) at }
    ensures writes { (pages : List Page) (before : ℕ)
        → counted_by before (lent_count pages) ≤ before + lent_count pages }
    ensures few { (buffer : Buffer) (before : ℕ)
        → counted_by before (lent_count (pages_of buffer)) ≤ before + 12 }
{}

/// After a fault of a flush each block of the file is the old one, or the one that was shown.
pub fn a_block_is_the_old_or_the_new_one()
    ensures { (buffer : Buffer) (old new : World) (number : ℕ)
        → IsPartlyFlushed (name_of buffer) (pages_of buffer) old new
        → (block_of (file_of new (name_of buffer)) number ≡ block_of (file_of old (name_of buffer)) number)
        ⊎ (block_of (file_of new (name_of buffer)) number
        ≡ block_of (shown (pages_of buffer) (file_of old (name_of buffer))) number) }
{}

/// After a fault of a flush the buffer shows over the file, as that is then, what it showed over the old one, and is as
/// clean over it.
pub fn a_fault_leaves_what_is_shown()
    ensures shown { (buffer : Buffer) (old new : World)
        → IsPartlyFlushed (name_of buffer) (pages_of buffer) old new
        → shown (pages_of buffer) (file_of new (name_of buffer))
        ≡ shown (pages_of buffer) (file_of old (name_of buffer)) }
    ensures clean { (buffer : Buffer) (old new : World)
        → IsPartlyFlushed (name_of buffer) (pages_of buffer) old new
        → IsClean (pages_of buffer) (file_of old (name_of buffer))
        → IsClean (pages_of buffer) (file_of new (name_of buffer)) }
{}

/// Calls that look at pages, one after another, look at as many as both, and leave what is shown. Calls that lend
/// pages, one after another, lend those of both, and leave all other blocks that are shown. Where both were done they
/// leave no name unsynced that was not. A page that was lent twice counts once.
pub fn calls_stand_for_one()
    ensures looks { (tells done ok : Bool) (one two : ℕ) (before between now : StoreSeen) (old middle new : Buffer)
        → LooksAtSome tells done one before between old middle → LooksAtSome tells ok two between now middle new
        → LooksAtSome tells (done && ok) (one + two) before now old new }
    ensures shown { (tells ok : Bool) (count : ℕ) (before now : StoreSeen) (old new : Buffer)
        → LooksAtSome tells ok count before now old new → shown_over now new ≡ shown_over before old }
    ensures lends { (tells done ok : Bool) (one two : ℕ) (these those : List ℕ) (before between now : StoreSeen)
        (old middle new : Buffer)
        → LendsSome tells done one these before between old middle → LendsSome tells ok two those between now middle new
        → LendsSome tells (done && ok) (one + two) (these ++ those) before now old new }
    ensures once { (tells ok : Bool) (count : ℕ) (numbers more : List ℕ) (before now : StoreSeen) (old new : Buffer)
        → ((number : ℕ) → StandsIn numbers number → StandsIn more number)
        → LendsSome tells ok count numbers before now old new → LendsSome tells ok count more before now old new }
    ensures others { (tells ok : Bool) (count : ℕ) (numbers : List ℕ) (before now : StoreSeen) (old new : Buffer)
        → LendsSome tells ok count numbers before now old new
        → KeepsBlocksBut numbers (shown_over before old) (shown_over now new) }
{}

/// What calls use of a buffer adds up, whatever they say of its pages beside it. Calls that look at pages use as many,
/// and so do calls that lend pages. No call uses none, two in a row use as many as both, and what was used is used of a
/// greater count.
pub fn what_calls_use_adds_up()
    ensures looks { (tells ok : Bool) (count : ℕ) (before now : StoreSeen) (old new : Buffer)
        → LooksAtSome tells ok count before now old new → UsesPages tells ok count before now old new }
    ensures lends { (tells ok : Bool) (count : ℕ) (numbers : List ℕ) (before now : StoreSeen) (old new : Buffer)
        → LendsSome tells ok count numbers before now old new → UsesPages tells ok count before now old new }
    ensures none { (tells ok : Bool) (seen : StoreSeen) (buffer : Buffer)
        → UsesPages tells ok 0 seen seen buffer buffer }
    ensures both { (tells done ok : Bool) (one two : ℕ) (before between now : StoreSeen) (old middle new : Buffer)
        → UsesPages tells done one before between old middle → UsesPages tells ok two between now middle new
        → UsesPages tells (done && ok) (one + two) before now old new }
    ensures more { (tells ok : Bool) (few more : ℕ) (before now : StoreSeen) (old new : Buffer) → few ≤ more
        → UsesPages tells ok few before now old new → UsesPages tells ok more before now old new }
{}

/// A word that is set in one block leaves each other block as it was shown. This answers a word of the other block.
///
/// # Errors
///
/// The store failed.
pub fn another_block_stays<S: Store>(
    pages: &mut Pages,
    store: &mut S,
    number: u32,
    other: u32,
    at: usize,
    value: u32,
) -> Result<u32, StoreFault>
    requires word { at + 4 ≤ 1024 }
    requires room { length (pages_of pages.old) + 2 ≤ 12 }
    ensures stays { IfOk result (λ word. other ≢ number → IsTrue S.tells
        → IsClean (pages_of pages.old) (file_under (S.seen store.old) pages.old)
        → word ≡ number_at 4 (block_of (shown_over (S.seen store.old) pages.old) other) at) }
    ensures cause { OnErr result (Rose (S.seen store.old).faults (S.seen store.new).faults) }
{
    let block = pages.page(store, number)?;
    set_le32(block, at, value);
    let block = pages.peek(store, other)?;
    Ok(le32(block, at))
}
