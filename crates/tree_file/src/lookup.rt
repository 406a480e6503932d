ghost use Rattle.std.specs.Prelude.{◌≡◌, ◌+◌, ◌^◌, ◌<◌, ◌≤◌, length, true, None, Some, IfErr, IfOk, IfSome, is_ok, []};
ghost use Rattle.std.specs.FinMap.{get};
ghost use Rattle.entry_codec.specs.Header.{header_of};
ghost use Rattle.entry_codec.specs.Spelling.{AreOf};
ghost use Rattle.file_blocks.specs.Block.{block_of};
ghost use Rattle.quota_types.specs.Ids.{IsAfter};
ghost use Rattle.quota_value.specs.QuotaValue.{QuotaValue};
ghost use Rattle.quota_value.specs.NextRecord.{IsNextAfter};
ghost use Rattle.quota_pages.specs.Page.{is_buffered};
ghost use Rattle.quota_pages.specs.Pages.{HoldsAsBuffered, pages_of};
ghost use Rattle.quota_pages.specs.Used.{IsKnown, LooksAtSome, shown_over};
ghost use Rattle.quota_radix.specs.WalkFault.{IfDamaged, IsWalkFault};
ghost use Rattle.quota_types.specs.Format.{IsTreeFormat};
ghost use Rattle.quota_types.specs.Kept.{IsKept};
ghost use Rattle.tree_meaning.specs.Defect.{IsTreeDefect};
ghost use Rattle.tree_meaning.specs.TreeFile.{TreeStandsFor, record_in};
ghost use Rattle.tree_file.specs.Coming.{FitsComing, HoldsComing};
ghost use Rattle.tree_file.specs.Leaf.{IsLeafFault, entry_led_to, record_led_to};

use crate::coming::Coming;
use entry_codec::Header;
use outside::Store;
use quota_pages::Pages;
use quota_radix::{TreePath, WalkFault, leaf, next_leaf};
use quota_types::{Damage, DamageKind, Entry, Format, Rec};
use tree_meaning::find_record;

/// The record in the data block of a leaf, of which one is read at most.
///
/// # Errors
///
/// The store failed, or the block has no entry of the leaf's identifier.
fn record_at<S: Store>(
    pages: &mut Pages,
    store: &mut S,
    format: Format,
    leaf: TreePath,
) -> Result<Rec, WalkFault>
    requires tree { IsTreeFormat format }
    requires room { length (pages_of pages.old) < 12 }
    ensures found { IfOk result (λ rec. IsKnown S.tells (S.seen store.old) pages.old
        → record_in format (block_of (shown_over (S.seen store.old) pages.old) leaf.block) leaf.number ≡ Some rec) }
    ensures kept { IfOk result (IsKept format leaf.number) }
    ensures refused { IfErr result (IsWalkFault (S.seen store.old).faults (S.seen store.new).faults
        (λ damage. (is_buffered (pages_of pages.new) damage.block ≡ true)
        × (IsKnown S.tells (S.seen store.old) pages.old
        → IsLeafFault format (shown_over (S.seen store.old) pages.old) leaf damage))) }
    ensures named { IfErr result (IfDamaged (λ damage. HoldsAsBuffered pages.new
        (λ shown. IsLeafFault format shown leaf damage))) }
    ensures looked { LooksAtSome S.tells (is_ok result) 1 (S.seen store.old) (S.seen store.new) pages.old pages.new }
    ensures commits { S.commits [] store.old store.new }
{
    let block = pages.peek(store, leaf.block)?;
    match find_record(format, block, leaf.number) {
        Some(rec) => Ok(rec),
        None => Err(WalkFault::Damage(Damage {
            kind: DamageKind::MissingEntry,
            block: leaf.block,
            id: leaf.number,
        })),
    }
}

/// The record of an identifier in a file with this header, or None where it has none.
///
/// It goes down the tree by the digits of the identifier, and reads one block a level and one data block.
///
/// # Errors
///
/// The store failed, or the file is damaged: a reference on the way leads past the last block, or the data block has no
/// entry of the identifier. The block that is told was read, and what is buffered then shows the damage.
pub(crate) fn record_of<S: Store>(
    pages: &mut Pages,
    store: &mut S,
    header: &Header,
    id: u32,
) -> Result<Option<Rec>, WalkFault>
    requires tree { IsTreeFormat header.now.format }
    requires room { length (pages_of pages.old) + 5 ≤ 12 }
    ensures led { IfOk result (λ found. IsKnown S.tells (S.seen store.old) pages.old
        → found ≡ record_led_to header.now.format (shown_over (S.seen store.old) pages.old) header.now.blocks id) }
    ensures found { IfOk result (λ found. IsKnown S.tells (S.seen store.old) pages.old
        → AreOf header.now (header_of (shown_over (S.seen store.old) pages.old))
        → (value : QuotaValue) → TreeStandsFor (shown_over (S.seen store.old) pages.old) value
        → found ≡ get value.records id) }
    ensures kept { IfOk result (λ found. IfSome found (IsKept header.now.format id)) }
    ensures refused { IfErr result (IsWalkFault (S.seen store.old).faults (S.seen store.new).faults
        (λ damage. (is_buffered (pages_of pages.new) damage.block ≡ true)
        × (IsKnown S.tells (S.seen store.old) pages.old
        → AreOf header.now (header_of (shown_over (S.seen store.old) pages.old))
        → IsTreeDefect header.now.format (shown_over (S.seen store.old) pages.old)
        (header_of (shown_over (S.seen store.old) pages.old)) damage))) }
    ensures named { IfErr result (IfDamaged (λ damage. HoldsAsBuffered pages.new
        (λ shown. AreOf header.now (header_of shown)
        → IsTreeDefect header.now.format shown (header_of shown) damage))) }
    ensures looked { LooksAtSome S.tells (is_ok result) 5 (S.seen store.old) (S.seen store.new) pages.old pages.new }
    ensures commits { S.commits [] store.old store.new }
{
    let Some(block) = leaf(pages, store, header.blocks, id)? else {
        return Ok(None);
    };
    let leaf = TreePath { number: id, block };
    let rec = record_at(pages, store, header.format, leaf)?;
    Ok(Some(rec))
}

/// The least identifier after another one, or the least of all, with its record; None where there is none. `coming` are
/// the entries that come behind it then.
///
/// It goes down from the root, and backs up once a level at most: at most seven blocks of the tree are read, and one
/// data block.
///
/// # Errors
///
/// The store failed, or the file is damaged: a reference on the way leads past the last block, a block of the tree
/// below the root has none, or the data block has no entry of the identifier. The block that is told was read.
pub(crate) fn next_record<S: Store>(
    pages: &mut Pages,
    store: &mut S,
    header: &Header,
    after: Option<u32>,
    coming: &mut Coming,
) -> Result<Option<Entry>, WalkFault>
    requires tree { IsTreeFormat header.now.format }
    requires room { length (pages_of pages.old) + 8 ≤ 12 }
    ensures led { IfOk result (λ found. IsKnown S.tells (S.seen store.old) pages.old
        → found ≡ entry_led_to header.now.format (shown_over (S.seen store.old) pages.old) header.now.blocks after) }
    ensures found { IfOk result (λ found. IsKnown S.tells (S.seen store.old) pages.old
        → AreOf header.now (header_of (shown_over (S.seen store.old) pages.old))
        → (value : QuotaValue) → TreeStandsFor (shown_over (S.seen store.old) pages.old) value
        → IsNextAfter after value.records found) }
    ensures next { IsKnown S.tells (S.seen store.old) pages.old
        → AreOf header.now (header_of (shown_over (S.seen store.old) pages.old))
        → (value : QuotaValue) → TreeStandsFor (shown_over (S.seen store.old) pages.old) value
        → HoldsComing value.records coming.new }
    ensures fits { FitsComing header.now.format coming.new }
    ensures ascends { IfOk result (λ found. IfSome found (λ entry. IsAfter after entry.id)) }
    ensures narrow { IfOk result (λ found. IfSome found (λ entry. entry.id < 2 ^ 32)) }
    ensures kept { IfOk result (λ found. IfSome found (λ entry. IsKept header.now.format entry.id entry.rec)) }
    ensures refused { IfErr result (IsWalkFault (S.seen store.old).faults (S.seen store.new).faults
        (λ damage. (is_buffered (pages_of pages.new) damage.block ≡ true)
        × (IsKnown S.tells (S.seen store.old) pages.old
        → AreOf header.now (header_of (shown_over (S.seen store.old) pages.old))
        → IsTreeDefect header.now.format (shown_over (S.seen store.old) pages.old)
        (header_of (shown_over (S.seen store.old) pages.old)) damage))) }
    ensures looked { LooksAtSome S.tells (is_ok result) 8 (S.seen store.old) (S.seen store.new) pages.old pages.new }
    ensures commits { S.commits [] store.old store.new }
{
    *coming = Coming::none();
    let Some((id, block)) = next_leaf(pages, store, header.blocks, after)? else {
        return Ok(None);
    };
    let leaf = TreePath { number: id, block };
    let rec = record_at(pages, store, header.format, leaf)?;
    *coming = Coming::beside(pages, header.format, header.blocks, leaf);
    Ok(Some(Entry { id, rec }))
}
