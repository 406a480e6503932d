ghost use Rattle.std.specs.Prelude.{◌≡◌, ◌+◌, ◌<◌, ◌≤◌, length, min, take, true, false, slice_get, IfErr, IfOk, OnErr};
ghost use Rattle.std.specs.Prelude.{OnOk, is_ok, []};
ghost use Rattle.file_blocks.specs.Block.{word_at};
ghost use Rattle.quota_types.specs.declared.damage.DamageKind.TheVariants.{RefOut};
ghost use Rattle.quota_pages.specs.Page.{is_buffered};
ghost use Rattle.quota_pages.specs.Pages.{HoldsAsBuffered, pages_of};
ghost use Rattle.quota_pages.specs.Used.{HasRoomWithin, IsKnown, LooksAtSome, missing, shown_over};
ghost use Rattle.quota_radix.specs.Descent.{leaf_block};
ghost use Rattle.quota_radix.specs.Link.{AreBuffered};
ghost use Rattle.quota_radix.specs.WalkFault.{IfDamaged, IsWalkFault};
ghost use Rattle.quota_radix.specs.Way.{IsFromRoot, IsInsideOnWay, IsOutOnWay, tree_on_way};
ghost use Rattle.quota_radix.specs.OnWay.{blocks_on_way};

use crate::levels::ROOT;
use crate::{Path, WalkFault, digits};
use arrayvec::ArrayVec;
use outside::Store;
use quota_pages::Pages;
use quota_types::{DamageKind, damage_at};

/// The reference at a digit's place in a block of the tree; 0 is none.
///
/// # Errors
///
/// The store failed, or the reference leads past the last block.
pub(crate) fn reference_in<S: Store>(
    pages: &mut Pages,
    store: &mut S,
    blocks: u32,
    block: u32,
    digit: u8,
) -> Result<u32, WalkFault>
    requires { 1 ≤ missing (pages_of pages.old) block → length (pages_of pages.old) < 12 }
    ensures is { IfOk result (λ reference. IsKnown S.tells (S.seen store.old) pages.old
        → reference ≡ word_at (shown_over (S.seen store.old) pages.old) block digit) }
    ensures inside { IfOk result (λ reference. reference < blocks) }
    ensures refused { IfErr result (IsWalkFault (S.seen store.old).faults (S.seen store.new).faults
        (λ damage. (damage ≡ record { kind = RefOut; block = block; id = 0 })
        × (missing (pages_of pages.new) block ≡ 0)
        × (IsKnown S.tells (S.seen store.old) pages.old
        → blocks ≤ word_at (shown_over (S.seen store.old) pages.old) block digit))) }
    ensures held { IfOk result
        (λ reference. HoldsAsBuffered pages.new (λ shown. reference ≡ word_at shown block digit)) }
    ensures named { IfErr result (IfDamaged (λ damage. (damage.block ≡ block)
        × HoldsAsBuffered pages.new (λ shown. blocks ≤ word_at shown block digit))) }
    ensures looked { LooksAtSome S.tells (is_ok result) (missing (pages_of pages.old) block) (S.seen store.old)
        (S.seen store.new) pages.old pages.new }
    ensures brought { OnOk result (missing (pages_of pages.new) block ≡ 0) }
    ensures commits { S.commits [] store.old store.new }
{
    let reference = pages.word(store, block, 4 * usize::from(digit))?;
    if reference < blocks {
        Ok(reference)
    } else {
        Err(WalkFault::Damage(damage_at(DamageKind::RefOut, block)))
    }
}

/// The blocks on the way of an identifier that are there: the root first, and the data block fifth.
///
/// The file has `blocks` blocks. As many are read as there are of the tree on the way, 4 at most, and these are
/// buffered then: there is room for 4, or, where the way is known, each of them is buffered or there is room for it.
///
/// # Errors
///
/// `Store` where the store failed, and `Damage` where a reference on the way leads past the last block: `RefOut` with
/// the block that has it, which was read. By what is buffered then, the way leads to that block, and its reference out.
pub fn find_path<S: Store>(
    pages: &mut Pages,
    store: &mut S,
    blocks: u32,
    id: u32,
) -> Result<Path, WalkFault>
    requires { HasRoomWithin (IsKnown S.tells (S.seen store.old) pages.old) (pages_of pages.old) 4
        (tree_on_way (shown_over (S.seen store.old) pages.old) blocks id) }
    ensures found { IfOk result (λ path. IsKnown S.tells (S.seen store.old) pages.old
        → path.found.items ≡ blocks_on_way (shown_over (S.seen store.old) pages.old) blocks id) }
    ensures leaf { IfOk result (λ path. IsKnown S.tells (S.seen store.old) pages.old
        → slice_get path.found.items 4 ≡ leaf_block (shown_over (S.seen store.old) pages.old) blocks id) }
    ensures from_root { IfOk result (λ path. IsFromRoot path.found.items) }
    ensures inside { OnOk result (IsKnown S.tells (S.seen store.old) pages.old
        → IsInsideOnWay (shown_over (S.seen store.old) pages.old) blocks id) }
    ensures refused { IfErr result (IsWalkFault (S.seen store.old).faults (S.seen store.new).faults
        (λ damage. (damage.kind ≡ RefOut) × (is_buffered (pages_of pages.new) damage.block ≡ true)
        × (IsKnown S.tells (S.seen store.old) pages.old
        → IsOutOnWay (shown_over (S.seen store.old) pages.old) blocks id damage.block))) }
    ensures named { IfErr result (IfDamaged (λ damage. HoldsAsBuffered pages.new
        (λ shown. IsOutOnWay shown blocks id damage.block))) }
    ensures looked { IfOk result (λ path. LooksAtSome S.tells true (min 4 (length path.found.items))
        (S.seen store.old) (S.seen store.new) pages.old pages.new) }
    ensures kept { OnErr result
        (LooksAtSome S.tells false 4 (S.seen store.old) (S.seen store.new) pages.old pages.new) }
    ensures buffered { IfOk result (λ path. AreBuffered (pages_of pages.new) (take 4 path.found.items)) }
    ensures commits { S.commits [] store.old store.new }
{
    let mut found = ArrayVec::new();
    found.push(ROOT);
    let mut block = ROOT;
    for digit in digits(id) {
        block = reference_in(pages, store, blocks, block, digit)?;
        if block == 0 {
            return Ok(Path { found });
        }
        found.push(block);
    }
    Ok(Path { found })
}

/// The data block to which an identifier leads by its four digits, or None where one of them leads nowhere.
///
/// The file has `blocks` blocks. At most 4 of them are read: there is room for as many, or, where the way is known,
/// each block of the tree on it is buffered or there is room for it.
///
/// # Errors
///
/// `Store` where the store failed, and `Damage` where a reference on the way leads past the last block: `RefOut` with
/// the block that has it, which was read. By what is buffered then, the way leads to that block, and its reference out.
pub fn leaf<S: Store>(
    pages: &mut Pages,
    store: &mut S,
    blocks: u32,
    id: u32,
) -> Result<Option<u32>, WalkFault>
    requires { HasRoomWithin (IsKnown S.tells (S.seen store.old) pages.old) (pages_of pages.old) 4
        (tree_on_way (shown_over (S.seen store.old) pages.old) blocks id) }
    ensures found { IfOk result (λ found. IsKnown S.tells (S.seen store.old) pages.old
        → found ≡ leaf_block (shown_over (S.seen store.old) pages.old) blocks id) }
    ensures inside { OnOk result (IsKnown S.tells (S.seen store.old) pages.old
        → IsInsideOnWay (shown_over (S.seen store.old) pages.old) blocks id) }
    ensures held { IfOk result (λ found. HoldsAsBuffered pages.new (λ shown. found ≡ leaf_block shown blocks id)) }
    ensures refused { IfErr result (IsWalkFault (S.seen store.old).faults (S.seen store.new).faults
        (λ damage. (damage.kind ≡ RefOut) × (is_buffered (pages_of pages.new) damage.block ≡ true)
        × (IsKnown S.tells (S.seen store.old) pages.old
        → IsOutOnWay (shown_over (S.seen store.old) pages.old) blocks id damage.block))) }
    ensures named { IfErr result (IfDamaged (λ damage. HoldsAsBuffered pages.new
        (λ shown. IsOutOnWay shown blocks id damage.block))) }
    ensures looked { LooksAtSome S.tells (is_ok result) 4 (S.seen store.old) (S.seen store.new) pages.old pages.new }
    ensures commits { S.commits [] store.old store.new }
{
    let mut block = ROOT;
    for digit in digits(id) {
        block = reference_in(pages, store, blocks, block, digit)?;
        if block == 0 {
            return Ok(None);
        }
    }
    Ok(Some(block))
}
