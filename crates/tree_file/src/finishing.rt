ghost use Rattle.std.specs.Prelude.{◌≡◌, ◌+◌, ◌≤◌, [], IsTrue, OnErr, OnOk};
ghost use Rattle.opened_file.specs.Committed.{CommitsOnce};
ghost use Rattle.outside.specs.Count.{Rose};
ghost use Rattle.outside.specs.Frame.{ChangesOne};
ghost use Rattle.outside.specs.ManyCalls.{IsSynced};
ghost use Rattle.file_blocks.specs.Block.{file_of};
ghost use Rattle.opened_file.specs.EditsOne.{StaysUnlessWritten};
ghost use Rattle.opened_file.specs.QuotaFile.{ChangesBlocks};
ghost use Rattle.quota_pages.specs.Flushed.{IsPartlyFlushed, flushed_files};
ghost use Rattle.quota_pages.specs.Page.{lent_count};
ghost use Rattle.quota_pages.specs.Pages.{name_of, pages_of};

use outside::{Store, StoreFault};
use quota_pages::Pages;

/// Writes each block that was lent for writing, and then syncs the file. The buffer is empty then, even where that
/// fails.
///
/// # Errors
///
/// The store failed. Each block that was lent is the old or the new one in the file.
pub(crate) fn finish<S: Store>(pages: &mut Pages, store: &mut S) -> Result<(), StoreFault>
    ensures flushed { OnOk result (IsTrue S.tells → (S.seen store.new).files
        ≡ flushed_files (S.seen store.old).files (name_of pages.old) (pages_of pages.old)) }
    ensures synced { OnOk result (IsTrue S.tells
        → IsSynced (name_of pages.old) (S.seen store.old) (S.seen store.new)) }
    ensures torn { OnErr result (IsTrue S.tells
        → IsPartlyFlushed (name_of pages.old) (pages_of pages.old) (S.seen store.old).files (S.seen store.new).files) }
    ensures few { IsTrue S.tells → ChangesBlocks 12 (file_of (S.seen store.old).files (name_of pages.old))
        (file_of (S.seen store.new).files (name_of pages.old)) }
    ensures cause { OnErr result (Rose (S.seen store.old).faults (S.seen store.new).faults) }
    ensures leaves { ChangesOne (name_of pages.old) (S.seen store.old) (S.seen store.new) }
    ensures writes { (S.seen store.new).writes ≤ (S.seen store.old).writes + lent_count (pages_of pages.old) }
    ensures written { StaysUnlessWritten (S.seen store.old) (S.seen store.new) }
    ensures name { name_of pages.new ≡ name_of pages.old }
    ensures empty { pages_of pages.new ≡ [] }
    ensures commits { CommitsOnce (λ worlds. S.commits worlds store.old store.new) (IsTrue S.tells
        → (S.seen store.new).files ≡ flushed_files (S.seen store.old).files (name_of pages.old) (pages_of pages.old))
        (S.seen store.new).files }
{
    let flushed = pages.flush(store);
    pages.clear();
    flushed?;
    store.sync(pages.name())
}
