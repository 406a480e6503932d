//! Records that are put into a tree file, and taken out of one, where they stand.

ghost use Rattle.std.specs.Prelude.{◌≡◌, ◌+◌, ◌<◌, ◌≤◌, [], None, Some, is_none, true, IfErr, IfOk, IfSome, IsSome};
ghost use Rattle.std.specs.Prelude.{IsTrue, OnOk};
ghost use Rattle.free_chains.specs.declared.heads.Heads.{Heads};
ghost use Rattle.opened_file.specs.Committed.{CommitsOnce};
ghost use Rattle.std.specs.FinMap.{get};
ghost use Rattle.entry_codec.specs.Header.{header_of};
ghost use Rattle.file_blocks.specs.Block.{file_of};
ghost use Rattle.outside.specs.Frame.{OnlyReads};
ghost use Rattle.outside.specs.ManyCalls.{IsSynced};
ghost use Rattle.opened_file.specs.EditsOne.{EditsOne};
ghost use Rattle.outside.specs.World.{KeepsOthers};
ghost use Rattle.opened_file.specs.FileChange.{Put, Remove};
ghost use Rattle.opened_file.specs.QuotaFile.{ChangesBlocks};
ghost use Rattle.quota_pages.specs.Pages.{name_of, pages_of};
ghost use Rattle.quota_types.specs.Format.{IsTreeFormat};
ghost use Rattle.quota_types.specs.Kept.{IsKept};
ghost use Rattle.tree_meaning.specs.TreeHeads.{heads_of};
ghost use Rattle.tree_change.specs.ChangeFault.{IsChangeFault};
ghost use Rattle.tree_file.specs.InPlace.{EndsEarly, IsNoFileOf, MayChange, OfEachValue, WritesSo};
ghost use Rattle.tree_change.specs.BlocksWanted.{blocks_with};

use crate::finishing::finish;
use entry_codec::Header;
use free_chains::Heads;
use outside::Store;
use quota_pages::Pages;
use quota_types::Rec;
use tree_change::{ChangeFault, put_record, remove_record};

/// Gives an identifier this record in a file with this header, which may have at most `limit` blocks, and syncs it.
/// Answers the heads that the header has then. The buffer is empty before and then. A record that is there already
/// costs one write.
///
/// # Errors
///
/// The store failed, or the file is damaged or full. Nothing was written, but where the store failed while it was: each
/// block is the old or the new one then.
pub(crate) fn put_in<S: Store>(
    pages: &mut Pages,
    store: &mut S,
    header: &Header,
    limit: u32,
    id: u32,
    rec: &Rec,
) -> Result<Heads, ChangeFault>
    requires tree { IsTreeFormat header.now.format }
    requires kept { IsKept header.now.format id rec.now }
    requires empty { pages_of pages.old ≡ [] }
    requires two { 2 ≤ header.now.blocks }
    requires few { header.now.blocks ≤ limit }
    ensures done { IfOk result (λ heads. IsTrue S.tells
        → WritesSo (MayChange limit (Put id rec.now) header.now heads) (name_of pages.old)
        (S.seen store.old).files (S.seen store.new).files) }
    ensures heads { IfOk result (λ heads. (2 ≤ heads.blocks) × (heads.blocks ≤ limit)) }
    ensures known { OnOk result
        (OfEachValue S.tells header.now (file_of (S.seen store.old).files (name_of pages.old)) (λ value.
        IsSome (get value.records id) → (S.seen store.new).writes ≤ (S.seen store.old).writes + 1)) }
    ensures synced { OnOk result (IsTrue S.tells
        → IsSynced (name_of pages.old) (S.seen store.old) (S.seen store.new)) }
    ensures refused { IfErr result (IsChangeFault (S.seen store.old).faults (S.seen store.new).faults
        (IsNoFileOf S.tells header.now (file_of (S.seen store.old).files (name_of pages.old)))
        (λ blocks most. (most ≡ limit) × (limit < blocks)
        × OfEachValue S.tells header.now (file_of (S.seen store.old).files (name_of pages.old)) (λ _.
        blocks ≡ blocks_with (file_of (S.seen store.old).files (name_of pages.old))
        (heads_of (header_of (file_of (S.seen store.old).files (name_of pages.old)))) id))) }
    ensures ended { IfErr result (EndsEarly S.tells (MayChange limit (Put id rec.now) header.now) (name_of pages.old)
        (S.seen store.old) (S.seen store.new)) }
    ensures few { IsTrue S.tells → ChangesBlocks 12 (file_of (S.seen store.old).files (name_of pages.old))
        (file_of (S.seen store.new).files (name_of pages.old)) }
    ensures others { KeepsOthers (name_of pages.old) (S.seen store.old).files (S.seen store.new).files }
    ensures leaves { EditsOne (name_of pages.old) (S.seen store.old) (S.seen store.new) }
    ensures reads { (S.seen store.new).reads ≤ (S.seen store.old).reads + 12 }
    ensures writes { (S.seen store.new).writes ≤ (S.seen store.old).writes + 12 }
    ensures name { name_of pages.new ≡ name_of pages.old }
    ensures empty { pages_of pages.new ≡ [] }
    ensures commits { CommitsOnce (λ worlds. S.commits worlds store.old store.new) (IsTrue S.tells → (heads : Heads)
        × WritesSo (MayChange limit (Put id rec.now) header.now heads) (name_of pages.old) (S.seen store.old).files
        (S.seen store.new).files) (S.seen store.new).files }
{
    match put_record(pages, store, header, limit, id, rec) {
        Ok(heads) => {
            finish(pages, store)?;
            Ok(heads)
        }
        Err(fault) => {
            pages.clear();
            Err(fault)
        }
    }
}

/// Takes the record of an identifier out of a file with this header, and syncs it. Answers the heads that the header
/// has then, or None where the identifier has none and nothing was written. Eight blocks are written at most. The
/// buffer is empty before and then.
///
/// # Errors
///
/// The store failed, or the file is damaged. Nothing was written, but where the store failed while it was: each block
/// is the old or the new one then.
pub(crate) fn remove_in<S: Store>(
    pages: &mut Pages,
    store: &mut S,
    header: &Header,
    id: u32,
) -> Result<Option<Heads>, ChangeFault>
    requires tree { IsTreeFormat header.now.format }
    requires empty { pages_of pages.old ≡ [] }
    ensures done { IfOk result (λ found. IfSome found (λ heads. IsTrue S.tells
        → WritesSo (MayChange header.now.blocks (Remove id) header.now heads) (name_of pages.old)
        (S.seen store.old).files (S.seen store.new).files)) }
    ensures heads { IfOk result (λ found. IfSome found (λ heads. heads.blocks ≡ header.now.blocks)) }
    ensures found { IfOk result (λ found.
        OfEachValue S.tells header.now (file_of (S.seen store.old).files (name_of pages.old)) (λ value.
        is_none (get value.records id) ≡ is_none found)) }
    ensures absent { IfOk result (λ found. found ≡ None
        → OnlyReads true (name_of pages.old) (S.seen store.old) (S.seen store.new)) }
    ensures synced { OnOk result (IsTrue S.tells
        → IsSynced (name_of pages.old) (S.seen store.old) (S.seen store.new)) }
    ensures refused { IfErr result (IsChangeFault (S.seen store.old).faults (S.seen store.new).faults
        (IsNoFileOf S.tells header.now (file_of (S.seen store.old).files (name_of pages.old))) (λ _ _. ⊥)) }
    ensures ended { IfErr result (EndsEarly S.tells (MayChange header.now.blocks (Remove id) header.now)
        (name_of pages.old) (S.seen store.old) (S.seen store.new)) }
    ensures few { IsTrue S.tells → ChangesBlocks 12 (file_of (S.seen store.old).files (name_of pages.old))
        (file_of (S.seen store.new).files (name_of pages.old)) }
    ensures others { KeepsOthers (name_of pages.old) (S.seen store.old).files (S.seen store.new).files }
    ensures leaves { EditsOne (name_of pages.old) (S.seen store.old) (S.seen store.new) }
    ensures reads { (S.seen store.new).reads ≤ (S.seen store.old).reads + 12 }
    ensures writes { (S.seen store.new).writes ≤ (S.seen store.old).writes + 8 }
    ensures name { name_of pages.new ≡ name_of pages.old }
    ensures empty { pages_of pages.new ≡ [] }
    ensures commits { CommitsOnce (λ worlds. S.commits worlds store.old store.new) (IsTrue S.tells → (heads : Heads)
        × WritesSo (MayChange header.now.blocks (Remove id) header.now heads) (name_of pages.old)
        (S.seen store.old).files
        (S.seen store.new).files) (S.seen store.new).files }
{
    match remove_record(pages, store, header, id) {
        Ok(Some(heads)) => {
            finish(pages, store)?;
            Ok(Some(heads))
        }
        Ok(None) => {
            pages.clear();
            Ok(None)
        }
        Err(fault) => {
            pages.clear();
            Err(fault)
        }
    }
}
