//! A record that is removed from a tree file in place.

ghost use Rattle.std.specs.Prelude.{◌≡◌, ◌+◌, ◌≤◌, ◌∷◌, [], length, slice_index, take, true, is_ok, is_none, None};
ghost use Rattle.std.specs.Prelude.{IfErr, IfOk, IfSome, OnErr, OnOk};
ghost use Rattle.std.specs.FinMap.{get};
ghost use Rattle.arrayvec.specs.ArrayVec.{array_vec_len};
ghost use Rattle.quota_types.specs.Format.{IsTreeFormat};
ghost use Rattle.quota_pages.specs.Page.{lent_count};
ghost use Rattle.quota_pages.specs.Pages.{pages_of};
ghost use Rattle.quota_pages.specs.Used.{LooksAtSome, UsesPages, shown_over};
ghost use Rattle.quota_radix.specs.Link.{AreBuffered};
ghost use Rattle.quota_radix.specs.OnWay.{blocks_on_way};
ghost use Rattle.tree_change.specs.Beside.{LendsBeside, LendsForRemoval};
ghost use Rattle.tree_change.specs.ChangeFault.{IsChangeFault};
ghost use Rattle.tree_change.specs.Removal.{HasNoWay, RemovesRecord, TakesRecord};
ghost use Rattle.tree_change.specs.Shows.{OfChange, OfEachValue, OfShown, OfValueChange};

use crate::change_fault::ChangeFault;
use crate::header_block::{heads_in, renew_heads};
use crate::removing::remove_entry;
use crate::unlinking::unlink_leaf;
use entry_codec::Header;
use free_chains::Heads;
use outside::Store;
use quota_pages::Pages;
use quota_radix::{Path, find_path};
use quota_types::Format;

/// Takes the leaf of an identifier, whose whole way is `path`, and its entry out of the tree. It reads four blocks at
/// most.
///
/// # Errors
///
/// `Store` where the store failed, and `Damage` where the identifier uses no entry of its data block, or the entry list
/// leads past the last block. The heads are as before.
fn take_out<S: Store>(
    pages: &mut Pages,
    store: &mut S,
    heads: &mut Heads,
    format: Format,
    path: &Path,
    id: u32,
) -> Result<(), ChangeFault>
    requires tree { IsTreeFormat format }
    requires found { array_vec_len path.now.found ≡ 5 }
    requires buffered { AreBuffered (pages_of pages.old) (take 4 path.now.found.items) }
    requires room { length (pages_of pages.old) + 4 ≤ 12 }
    ensures taken { OnOk result (OfChange S.tells (S.seen store.old) (S.seen store.new) pages.old pages.new
        (λ before after. TakesRecord format path.now.found.items id before after heads.old heads.new)) }
    ensures blocks { OnOk result (heads.new.blocks ≡ heads.old.blocks) }
    ensures beside { OnOk result
        (LendsBeside (take 4 path.now.found.items) (slice_index path.now.found.items 4) heads.old.first S.tells 4
        (S.seen store.old) (S.seen store.new) pages.old pages.new) }
    ensures uses { UsesPages S.tells (is_ok result) 4 (S.seen store.old) (S.seen store.new) pages.old pages.new }
    ensures stays { OnErr result (heads.new ≡ heads.old) }
    ensures refused { IfErr result (IsChangeFault (S.seen store.old).faults (S.seen store.new).faults
        (OfShown S.tells (S.seen store.old) pages.old (λ file. HasNoWay format path.now.found.items id file heads.old))
        (λ _ _. ⊥)) }
    ensures commits { S.commits [] store.old store.new }
{
    let mut now = *heads;
    unlink_leaf(pages, store, &mut now, path, id)?;
    remove_entry(pages, store, &mut now, format, path.found[4], id)?;
    *heads = now;
    Ok(())
}

/// Removes the record of an identifier, whose whole way is `path`, and answers the heads of the file then. It reads
/// five blocks at most.
///
/// # Errors
///
/// `Store` where the store failed, and `Damage` where the identifier uses no entry of its data block, or the entry list
/// leads past the last block.
fn remove_found<S: Store>(
    pages: &mut Pages,
    store: &mut S,
    header: &Header,
    path: &Path,
    id: u32,
) -> Result<Heads, ChangeFault>
    requires tree { IsTreeFormat header.now.format }
    requires found { array_vec_len path.now.found ≡ 5 }
    requires buffered { AreBuffered (pages_of pages.old) (take 4 path.now.found.items) }
    requires room { length (pages_of pages.old) + 5 ≤ 12 }
    ensures removed { IfOk result (λ heads.
        path.now.found.items ≡ blocks_on_way (shown_over (S.seen store.old) pages.old) header.now.blocks id
        → OfValueChange S.tells (S.seen store.old) (S.seen store.new) pages.old pages.new header.now
        (λ value before after. RemovesRecord id value before after heads)) }
    ensures blocks { IfOk result (λ heads. heads.blocks ≡ header.now.blocks) }
    ensures beside { OnOk result
        (LendsBeside (0 ∷ take 4 path.now.found.items) (slice_index path.now.found.items 4) header.now.first S.tells 5
        (S.seen store.old) (S.seen store.new) pages.old pages.new) }
    ensures uses { UsesPages S.tells (is_ok result) 5 (S.seen store.old) (S.seen store.new) pages.old pages.new }
    ensures refused { IfErr result (IsChangeFault (S.seen store.old).faults (S.seen store.new).faults
        (path.now.found.items ≡ blocks_on_way (shown_over (S.seen store.old) pages.old) header.now.blocks id
        → OfEachValue S.tells (S.seen store.old) pages.old header.now (λ _. ⊥)) (λ _ _. ⊥)) }
    ensures commits { S.commits [] store.old store.new }
{
    let mut heads = heads_in(header);
    take_out(pages, store, &mut heads, header.format, path, id)?;
    renew_heads(pages, store, header, &heads)?;
    Ok(heads)
}

/// Removes the record of an identifier from a tree file with this header, and answers the heads that the file has then,
/// or None where the identifier has no record. Then nothing was lent for writing.
///
/// At most twelve blocks are read. What the file should be is left in the buffer; nothing is written yet. Eight blocks
/// at most are lent for writing: the header's, the five on the way of the identifier, and the two beside the data block
/// in the entry list. The tree blocks that the way has lost are free, and before them the data block, where it has no
/// entry.
///
/// # Errors
///
/// `Store` where the store failed, and `Damage` where a reference on the way of the identifier, or the entry list,
/// leads past the last block, or the identifier uses no entry of its data block.
pub fn remove_record<S: Store>(
    pages: &mut Pages,
    store: &mut S,
    header: &Header,
    id: u32,
) -> Result<Option<Heads>, ChangeFault>
    requires tree { IsTreeFormat header.now.format }
    requires empty { pages_of pages.old ≡ [] }
    ensures shown { IfOk result (λ found. IfSome found (λ heads.
        OfValueChange S.tells (S.seen store.old) (S.seen store.new) pages.old pages.new header.now
        (λ value before after. RemovesRecord id value before after heads))) }
    ensures blocks { IfOk result (λ found. IfSome found (λ heads. heads.blocks ≡ header.now.blocks)) }
    ensures found { IfOk result (λ found. OfEachValue S.tells (S.seen store.old) pages.old header.now (λ value.
        is_none (get value.records id) ≡ is_none found)) }
    ensures touched { IfOk result
        (λ found. IfSome found (λ _. LendsForRemoval id header.now.blocks header.now.first S.tells
        (S.seen store.old) (S.seen store.new) pages.old pages.new)) }
    ensures few { OnOk result (lent_count (pages_of pages.new) ≤ 8) }
    ensures absent { IfOk result (λ found. found ≡ None
        → LooksAtSome S.tells true 12 (S.seen store.old) (S.seen store.new) pages.old pages.new) }
    ensures refused { IfErr result (IsChangeFault (S.seen store.old).faults (S.seen store.new).faults
        (OfEachValue S.tells (S.seen store.old) pages.old header.now (λ _. ⊥)) (λ _ _. ⊥)) }
    ensures uses { UsesPages S.tells (is_ok result) 12 (S.seen store.old) (S.seen store.new) pages.old pages.new }
    ensures commits { S.commits [] store.old store.new }
{
    let path = find_path(pages, store, header.blocks, id)?;
    if path.found.len() < 5 {
        return Ok(None);
    }
    let heads = remove_found(pages, store, header, &path, id)?;
    Ok(Some(heads))
}
