ghost use Rattle.std.specs.Prelude.{◌≡◌, ◌+◌, ◌∷◌, ◌^◌, ◌<◌, ◌≤◌, [], length, true, false, IsTrue, OnErr, OnOk};
ghost use Rattle.opened_file.specs.Committed.{CommitsOnce};
ghost use Rattle.outside.specs.Count.{Rose};
ghost use Rattle.outside.specs.ManyCalls.{IsSynced};
ghost use Rattle.opened_file.specs.EditsOne.{EditsOne};
ghost use Rattle.outside.specs.World.{KeepsOthers};
ghost use Rattle.file_blocks.specs.Block.{file_of};
ghost use Rattle.opened_file.specs.QuotaFile.{ChangesBlocks};
ghost use Rattle.quota_types.specs.KeptBytes.{KeepsOutside};
ghost use Rattle.quota_pages.specs.Page.{is_lent};
ghost use Rattle.quota_pages.specs.Pages.{name_of, pages_of};
ghost use Rattle.quota_pages.specs.Used.{IsKnown, LendsSome, LooksAtSome, shown_over};
ghost use Rattle.quota_types.specs.Bytes.{number_at};
ghost use Rattle.tree_file.specs.GraceChange.{GracesFile, IsGraceLeft};
ghost use Rattle.tree_file.specs.TreeChange.{IsGraced};

use crate::finishing::finish;
use file_blocks::set_le32;
use outside::{Store, StoreFault};
use quota_pages::Pages;
use quota_types::Grace;

/// The block of the header.
const HEADER: u32 = 0;

/// Where the period for blocks stands in it.
const BLOCK_GRACE_AT: usize = 8;

/// Where the one for inodes does.
const INODE_GRACE_AT: usize = 12;

/// Sets the two periods in the block of a header. All its other bytes stay.
fn set_periods(block: &mut [u8; 1024], grace: Grace)
    requires block { grace.block < 2 ^ 32 }
    requires inode { grace.inode < 2 ^ 32 }
    ensures others { KeepsOutside 8 16 block.old block.new }
    ensures block_grace { number_at 4 block.new 8 ≡ grace.block }
    ensures inode_grace { number_at 4 block.new 12 ≡ grace.inode }
{
    set_le32(block, BLOCK_GRACE_AT, grace.block as u32);
    set_le32(block, INODE_GRACE_AT, grace.inode as u32);
}

/// Lends the first block for writing, and sets the two periods in it.
///
/// # Errors
///
/// The store failed. The buffer shows what it showed.
fn lend_periods<S: Store>(pages: &mut Pages, store: &mut S, grace: Grace) -> Result<(), StoreFault>
    requires block { grace.block < 2 ^ 32 }
    requires inode { grace.inode < 2 ^ 32 }
    requires room { length (pages_of pages.old) < 12 }
    ensures set { OnOk result (IsKnown S.tells (S.seen store.old) pages.old
        → IsGraced grace (shown_over (S.seen store.old) pages.old) (shown_over (S.seen store.new) pages.new)) }
    ensures lends { OnOk result (LendsSome S.tells true 1 (0 ∷ [])
        (S.seen store.old) (S.seen store.new) pages.old pages.new) }
    ensures marked { OnOk result (is_lent (pages_of pages.new) 0 ≡ true) }
    ensures kept { OnErr result (LooksAtSome S.tells false 1
        (S.seen store.old) (S.seen store.new) pages.old pages.new) }
    ensures cause { OnErr result (Rose (S.seen store.old).faults (S.seen store.new).faults) }
    ensures commits { S.commits [] store.old store.new }
{
    let block = pages.page(store, HEADER)?;
    set_periods(block, grace);
    Ok(())
}

/// Sets the two periods of a file where they stand in its first block, and syncs it. The buffer is empty before and
/// then.
///
/// # Errors
///
/// The store failed. The first block is the old or the new one.
pub(crate) fn set_grace_in<S: Store>(
    pages: &mut Pages,
    store: &mut S,
    grace: Grace,
) -> Result<(), StoreFault>
    requires block { grace.block < 2 ^ 32 }
    requires inode { grace.inode < 2 ^ 32 }
    requires empty { pages_of pages.old ≡ [] }
    ensures graced { OnOk result (IsTrue S.tells
        → GracesFile grace (name_of pages.old) (S.seen store.old).files (S.seen store.new).files) }
    ensures synced { OnOk result (IsTrue S.tells
        → IsSynced (name_of pages.old) (S.seen store.old) (S.seen store.new)) }
    ensures torn { OnErr result (IsTrue S.tells
        → IsGraceLeft grace (name_of pages.old) (S.seen store.old).files (S.seen store.new).files) }
    ensures cause { OnErr result (Rose (S.seen store.old).faults (S.seen store.new).faults) }
    ensures leaves { EditsOne (name_of pages.old) (S.seen store.old) (S.seen store.new) }
    ensures few { IsTrue S.tells → ChangesBlocks 12 (file_of (S.seen store.old).files (name_of pages.old))
        (file_of (S.seen store.new).files (name_of pages.old)) }
    ensures others { KeepsOthers (name_of pages.old) (S.seen store.old).files (S.seen store.new).files }
    ensures reads { (S.seen store.new).reads ≤ (S.seen store.old).reads + 1 }
    ensures writes { (S.seen store.new).writes ≤ (S.seen store.old).writes + 1 }
    ensures name { name_of pages.new ≡ name_of pages.old }
    ensures empty { pages_of pages.new ≡ [] }
    ensures commits { CommitsOnce (λ worlds. S.commits worlds store.old store.new) (IsTrue S.tells
        → GracesFile grace (name_of pages.old) (S.seen store.old).files (S.seen store.new).files)
        (S.seen store.new).files }
{
    match lend_periods(pages, store, grace) {
        Ok(()) => finish(pages, store),
        Err(fault) => {
            pages.clear();
            Err(fault)
        }
    }
}
