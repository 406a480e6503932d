ghost use Rattle.std.specs.Prelude.{◌≡◌, ◌⊎◌, ◌+◌, ◌-◌, ◌*◌, ◌^◌, ◌<◌, ◌≤◌, ℕ, List, suc, length, true, IfErr, IfNone};
ghost use Rattle.std.specs.Prelude.{IfOk, IfSome, OnOk, Some, is_ok, []};
ghost use Rattle.std.specs.List.{flat_map};
ghost use Rattle.std.specs.Option.{option_map};
ghost use Rattle.file_blocks.specs.Block.{block_of, word_at};
ghost use Rattle.quota_types.specs.Ids.{IsAfter};
ghost use Rattle.quota_types.specs.declared.damage.DamageKind.TheVariants.{RefOut};
ghost use Rattle.quota_pages.specs.Page.{is_buffered};
ghost use Rattle.quota_pages.specs.Pages.{pages_of};
ghost use Rattle.quota_pages.specs.Used.{IsKnown, LooksAtSome, missing, shown_over};
ghost use Rattle.quota_radix.specs.Buffered.{IsThereFrom, IsTherePast, IsThereToLeast};
ghost use Rattle.quota_radix.specs.Descent.{later_steps, leaf_from, path_from, paths_below, with_digits};
ghost use Rattle.quota_radix.specs.Digits.{digits_of};
ghost use Rattle.quota_radix.specs.LeafAfter.{first_after, leaf_after};
ghost use Rattle.quota_radix.specs.Lookup.{IsBelowRoot, IsOnWay, IsWayFault};
ghost use Rattle.quota_radix.specs.Tree.{step};
ghost use Rattle.quota_radix.specs.Walk.{GoesOnFrom, HasLeft};
ghost use Rattle.quota_radix.specs.WalkFault.{IsWalkFault};
ghost use Rattle.quota_radix.specs.Way.{IsClearTo, IsInsideBy, IsInsideFrom, IsInsideOnWay, IsInsideUpTo, number_in};

use crate::finding::reference_in;
use crate::levels::ROOT;
use crate::{TreePath, WalkFault, digits, level_ref};
use outside::Store;
use quota_pages::Pages;
use quota_types::{Damage, DamageKind, damage_at};

/// The path that goes on from `path` by a digit, or None where the reference there is 0.
///
/// # Errors
///
/// The store failed, or the reference leads past the last block.
fn step<S: Store>(
    pages: &mut Pages,
    store: &mut S,
    blocks: u32,
    path: TreePath,
    digit: u8,
) -> Result<Option<TreePath>, WalkFault>
    requires small { path.number < 2 ^ 24 }
    requires room { 1 ≤ missing (pages_of pages.old) path.block → length (pages_of pages.old) < 12 }
    ensures found { IfOk result (λ found. IsKnown S.tells (S.seen store.old) pages.old
        → found ≡ step (shown_over (S.seen store.old) pages.old) blocks path digit) }
    ensures number { IfOk result (λ found. IfSome found (λ next. next.number ≡ 256 * path.number + digit)) }
    ensures inside { OnOk result (IsKnown S.tells (S.seen store.old) pages.old
        → word_at (shown_over (S.seen store.old) pages.old) path.block digit < blocks) }
    ensures refused { IfErr result (IsWalkFault (S.seen store.old).faults (S.seen store.new).faults
        (λ damage. (damage ≡ record { kind = RefOut; block = path.block; id = 0 })
        × (missing (pages_of pages.new) path.block ≡ 0)
        × (IsKnown S.tells (S.seen store.old) pages.old
        → blocks ≤ word_at (shown_over (S.seen store.old) pages.old) path.block digit))) }
    ensures looked { LooksAtSome S.tells (is_ok result) (missing (pages_of pages.old) path.block) (S.seen store.old)
        (S.seen store.new) pages.old pages.new }
    ensures brought { OnOk result (missing (pages_of pages.new) path.block ≡ 0) }
    ensures commits { S.commits [] store.old store.new }
{
    let block = reference_in(pages, store, blocks, path.block, digit)?;
    if block == 0 {
        return Ok(None);
    }
    Ok(Some(TreePath {
        number: 256 * path.number + u32::from(digit),
        block,
    }))
}

/// The first path that goes on from `path` by a digit, from the digit `first` on, where its block has these bytes.
///
/// # Errors
///
/// A reference before that of the answer leads past the last block.
fn first_in(
    block: &[u8; 1024],
    blocks: u32,
    path: TreePath,
    first: u32,
) -> Result<Option<TreePath>, Damage>
    requires digit { first ≤ 256 }
    requires small { path.number < 2 ^ 24 }
    ensures found { IfOk result (λ found. (file : List ℕ) → block.now ≡ block_of file path.block
        → found ≡ path_from 0 (later_steps file blocks path first)) }
    ensures none { IfOk result (λ found. IfNone found ((file : List ℕ) → block.now ≡ block_of file path.block
        → (digit : ℕ) → first ≤ digit → digit < 256 → word_at file path.block digit ≡ 0)) }
    ensures clear { IfOk result (λ found. (file : List ℕ) → block.now ≡ block_of file path.block
        → IsClearTo file blocks path first found) }
    ensures onward { IfOk result (λ found. IfSome found (GoesOnFrom path first)) }
    ensures refused { IfErr result (λ damage. (damage ≡ record { kind = RefOut; block = path.block; id = 0 })
        × ((file : List ℕ) → block.now ≡ block_of file path.block
        → (digit : ℕ) × (digit < 256) × (blocks ≤ word_at file path.block digit))) }
{
    for digit in first..256 {
        let reference = level_ref(block, digit as u8);
        if reference >= blocks {
            return Err(damage_at(DamageKind::RefOut, path.block));
        }
        if reference != 0 {
            return Ok(Some(TreePath {
                number: 256 * path.number + digit,
                block: reference,
            }));
        }
    }
    Ok(None)
}

/// The first path that goes on from `path` by a digit, from the digit `first` on.
///
/// # Errors
///
/// The store failed, or a reference before that of the answer leads past the last block.
fn first_step<S: Store>(
    pages: &mut Pages,
    store: &mut S,
    blocks: u32,
    path: TreePath,
    first: u32,
) -> Result<Option<TreePath>, WalkFault>
    requires digit { first ≤ 256 }
    requires small { path.number < 2 ^ 24 }
    requires room { 1 ≤ missing (pages_of pages.old) path.block → length (pages_of pages.old) < 12 }
    ensures found { IfOk result (λ found. IsKnown S.tells (S.seen store.old) pages.old
        → found ≡ path_from 0 (later_steps (shown_over (S.seen store.old) pages.old) blocks path first)) }
    ensures none { IfOk result (λ found. IfNone found (IsKnown S.tells (S.seen store.old) pages.old
        → (digit : ℕ) → first ≤ digit → digit < 256
        → word_at (shown_over (S.seen store.old) pages.old) path.block digit ≡ 0)) }
    ensures clear { IfOk result (λ found. IsKnown S.tells (S.seen store.old) pages.old
        → IsClearTo (shown_over (S.seen store.old) pages.old) blocks path first found) }
    ensures onward { IfOk result (λ found. IfSome found (GoesOnFrom path first)) }
    ensures refused { IfErr result (IsWalkFault (S.seen store.old).faults (S.seen store.new).faults
        (λ damage. (damage ≡ record { kind = RefOut; block = path.block; id = 0 })
        × (missing (pages_of pages.new) path.block ≡ 0)
        × (IsKnown S.tells (S.seen store.old) pages.old → (digit : ℕ) × (digit < 256)
        × (blocks ≤ word_at (shown_over (S.seen store.old) pages.old) path.block digit)))) }
    ensures looked { LooksAtSome S.tells (is_ok result) (missing (pages_of pages.old) path.block) (S.seen store.old)
        (S.seen store.new) pages.old pages.new }
    ensures brought { OnOk result (missing (pages_of pages.new) path.block ≡ 0) }
    ensures commits { S.commits [] store.old store.new }
{
    let block = pages.peek(store, path.block)?;
    Ok(first_in(block, blocks, path, first)?)
}

/// The least leaf below `path`, which is `to_go` digits short of a leaf.
///
/// # Errors
///
/// The store failed, or a reference on the way leads past the last block, or a block has none.
fn least_below<S: Store>(
    pages: &mut Pages,
    store: &mut S,
    blocks: u32,
    path: TreePath,
    to_go: usize,
) -> Result<TreePath, WalkFault>
    requires room { (length (pages_of pages.old) + to_go ≤ 12) ⊎ (IsKnown S.tells (S.seen store.old) pages.old
        × IsThereToLeast (pages_of pages.old) (shown_over (S.seen store.old) pages.old) blocks to_go path) }
    requires left { HasLeft to_go path }
    ensures found { IfOk result (λ leaf. IsKnown S.tells (S.seen store.old) pages.old
        → path_from 0 (paths_below (shown_over (S.seen store.old) pages.old) blocks to_go path) ≡ Some leaf) }
    ensures least { IfOk result (λ leaf. 256 ^ to_go * path.number ≤ leaf.number) }
    ensures between { IfOk result (λ leaf. IsKnown S.tells (S.seen store.old) pages.old
        → IsInsideFrom (shown_over (S.seen store.old) pages.old) blocks to_go path 0 (Some leaf.number)) }
    ensures refused { IfErr result (IsWalkFault (S.seen store.old).faults (S.seen store.new).faults
        (λ damage. (missing (pages_of pages.new) damage.block ≡ 0)
        × (IsKnown S.tells (S.seen store.old) pages.old
        → IsBelowRoot (shown_over (S.seen store.old) pages.old) blocks to_go path
        → IsWayFault (shown_over (S.seen store.old) pages.old) blocks damage))) }
    ensures looked { LooksAtSome S.tells (is_ok result) to_go (S.seen store.old) (S.seen store.new)
        pages.old pages.new }
    ensures commits { S.commits [] store.old store.new }
{
    if to_go == 0 {
        return Ok(path);
    }
    let Some(next) = first_step(pages, store, blocks, path, 0)? else {
        return Err(WalkFault::Damage(damage_at(DamageKind::EmptyTree, path.block)));
    };
    least_below(pages, store, blocks, next, to_go - 1)
}

/// The least leaf below `path` by a digit after this one, with `to_go` more digits to go behind it.
///
/// # Errors
///
/// The store failed, or a reference on the way leads past the last block, or a block below the root has none.
fn least_past<S: Store>(
    pages: &mut Pages,
    store: &mut S,
    blocks: u32,
    path: TreePath,
    digit: u8,
    to_go: usize,
) -> Result<Option<TreePath>, WalkFault>
    requires room { (length (pages_of pages.old) + to_go ≤ 12) ⊎ (IsKnown S.tells (S.seen store.old) pages.old
        × IsTherePast (pages_of pages.old) (shown_over (S.seen store.old) pages.old) blocks to_go path (digit + 1)) }
    requires buffered { missing (pages_of pages.old) path.block ≡ 0 }
    requires left { HasLeft (suc to_go) path }
    ensures found { IfOk result (λ found. IsKnown S.tells (S.seen store.old) pages.old
        → found ≡ path_from 0 (flat_map (paths_below (shown_over (S.seen store.old) pages.old) blocks to_go)
        (later_steps (shown_over (S.seen store.old) pages.old) blocks path (digit + 1)))) }
    ensures least { IfOk result (λ found. IfSome found (λ leaf.
        256 ^ to_go * (256 * path.number + (digit + 1)) ≤ leaf.number)) }
    ensures between { IfOk result (λ found. IsKnown S.tells (S.seen store.old) pages.old
        → IsInsideBy (shown_over (S.seen store.old) pages.old) blocks to_go path (digit + 1) (number_in found)) }
    ensures refused { IfErr result (IsWalkFault (S.seen store.old).faults (S.seen store.new).faults
        (λ damage. (missing (pages_of pages.new) damage.block ≡ 0)
        × (IsKnown S.tells (S.seen store.old) pages.old
        → IsOnWay (shown_over (S.seen store.old) pages.old) blocks (suc to_go) path
        → IsWayFault (shown_over (S.seen store.old) pages.old) blocks damage))) }
    ensures looked { LooksAtSome S.tells (is_ok result) to_go (S.seen store.old) (S.seen store.new)
        pages.old pages.new }
    ensures none { IfOk result (λ found. IfNone found
        (LooksAtSome S.tells true 0 (S.seen store.old) (S.seen store.new) pages.old pages.new)) }
    ensures commits { S.commits [] store.old store.new }
{
    match first_step(pages, store, blocks, path, u32::from(digit) + 1)? {
        Some(next) => Ok(Some(least_below(pages, store, blocks, next, to_go)?)),
        None => Ok(None),
    }
}

/// The first leaf below `path` from a number on: the one that these digits make behind those of the path.
///
/// It goes down by the digits, and where that way ends before a leaf, or leads to none, on by the next greater digit.
/// So it backs up once a level at most.
///
/// # Errors
///
/// The store failed, or a reference on the way leads past the last block, or a block below the root has none.
fn first_below<S: Store>(
    pages: &mut Pages,
    store: &mut S,
    blocks: u32,
    path: TreePath,
    digits: &[u8],
) -> Result<Option<TreePath>, WalkFault>
    requires room { (length (pages_of pages.old) + (2 * length digits.now - 1) ≤ 12)
        ⊎ (IsKnown S.tells (S.seen store.old) pages.old
        × IsThereFrom (pages_of pages.old) (shown_over (S.seen store.old) pages.old) blocks path digits.now) }
    requires left { HasLeft (length digits.now) path }
    ensures found { IfOk result (λ found. IsKnown S.tells (S.seen store.old) pages.old
        → found ≡ path_from (with_digits path.number digits.now)
        (paths_below (shown_over (S.seen store.old) pages.old) blocks (length digits.now) path)) }
    ensures least { IfOk result (λ found. IfSome found (λ leaf. with_digits path.number digits.now ≤ leaf.number)) }
    ensures between { IfOk result (λ found. IsKnown S.tells (S.seen store.old) pages.old
        → IsInsideFrom (shown_over (S.seen store.old) pages.old) blocks (length digits.now) path
        (with_digits path.number digits.now) (number_in found)) }
    ensures refused { IfErr result (IsWalkFault (S.seen store.old).faults (S.seen store.new).faults
        (λ damage. (missing (pages_of pages.new) damage.block ≡ 0)
        × (IsKnown S.tells (S.seen store.old) pages.old
        → IsOnWay (shown_over (S.seen store.old) pages.old) blocks (length digits.now) path
        → IsWayFault (shown_over (S.seen store.old) pages.old) blocks damage))) }
    ensures looked { LooksAtSome S.tells (is_ok result) (2 * length digits.now - 1) (S.seen store.old)
        (S.seen store.new) pages.old pages.new }
    ensures none { IfOk result (λ found. IfNone found
        (LooksAtSome S.tells true (length digits.now) (S.seen store.old) (S.seen store.new) pages.old pages.new)) }
    ensures commits { S.commits [] store.old store.new }
{
    let Some((digit, rest)) = digits.split_first() else {
        return Ok(Some(path));
    };
    let Some(next) = step(pages, store, blocks, path, *digit)? else {
        return least_past(pages, store, blocks, path, *digit, rest.len());
    };
    match first_below(pages, store, blocks, next, rest)? {
        Some(leaf) => Ok(Some(leaf)),
        None => least_past(pages, store, blocks, path, *digit, rest.len()),
    }
}

/// The leaf of the least identifier from one on that has a leaf, or None where there is none. From the way of the
/// identifier that is looked for up to that of the answer no reference leads past the last block.
///
/// # Errors
///
/// The store failed, or a reference on the way leads past the last block, or a block below the root has none.
fn first_leaf_from<S: Store>(
    pages: &mut Pages,
    store: &mut S,
    blocks: u32,
    from: u32,
) -> Result<Option<TreePath>, WalkFault>
    requires { (length (pages_of pages.old) + 7 ≤ 12) ⊎ (IsKnown S.tells (S.seen store.old) pages.old
        × IsThereFrom (pages_of pages.old) (shown_over (S.seen store.old) pages.old) blocks
        (record { number = 0; block = 1 }) (digits_of from)) }
    ensures found { IfOk result (λ found. IsKnown S.tells (S.seen store.old) pages.old
        → found ≡ leaf_from (shown_over (S.seen store.old) pages.old) blocks from) }
    ensures least { IfOk result (λ found. IfSome found (λ leaf. from ≤ leaf.number)) }
    ensures between { IfOk result (λ found. IsKnown S.tells (S.seen store.old) pages.old
        → IsInsideUpTo (shown_over (S.seen store.old) pages.old) blocks from (number_in found)) }
    ensures refused { IfErr result (IsWalkFault (S.seen store.old).faults (S.seen store.new).faults
        (λ damage. (missing (pages_of pages.new) damage.block ≡ 0)
        × (IsKnown S.tells (S.seen store.old) pages.old
        → IsWayFault (shown_over (S.seen store.old) pages.old) blocks damage))) }
    ensures looked { LooksAtSome S.tells (is_ok result) 7 (S.seen store.old) (S.seen store.new) pages.old pages.new }
    ensures commits { S.commits [] store.old store.new }
{
    let root = TreePath {
        number: 0,
        block: ROOT,
    };
    first_below(pages, store, blocks, root, &digits(from))
}

/// The least identifier after another one, or the least of all, or None where that passes the last one.
fn id_after(after: Option<u32>) -> Option<u32>
    ensures first { IfSome result (λ id. id ≡ first_after after) }
    ensures small { IfSome result (λ id. first_after after < 2 ^ 32) }
    ensures last { IfNone result (first_after after ≡ 2 ^ 32) }
{
    match after {
        Some(id) => id.checked_add(1),
        None => Some(0),
    }
}

/// The first leaf in order whose identifier comes after another one, or the first of all, with its data block; None
/// where there is none. Whatever the store tells, an identifier that is answered comes after the one that was given.
/// From the way of the identifier that is looked for up to that of the answer no reference leads past the last block.
///
/// The file has `blocks` blocks. At most 7 of them are read: one a level on the way down, and three more at most where
/// the way backs up and goes down again by a later digit. After the last identifier nothing is read. There is room for
/// 7, or it is known which are looked at, and each of them is buffered.
///
/// # Errors
///
/// `Store` where the store failed, and `Damage` for a block of the tree that was read: `RefOut` where it has a
/// reference past the last block, `EmptyTree` where it is below the root and has none.
pub fn next_leaf<S: Store>(
    pages: &mut Pages,
    store: &mut S,
    blocks: u32,
    after: Option<u32>,
) -> Result<Option<(u32, u32)>, WalkFault>
    requires { first_after after < 2 ^ 32
        → (length (pages_of pages.old) + 7 ≤ 12) ⊎ (IsKnown S.tells (S.seen store.old) pages.old
        × IsThereFrom (pages_of pages.old) (shown_over (S.seen store.old) pages.old) blocks
        (record { number = 0; block = 1 }) (digits_of (first_after after))) }
    ensures found { IfOk result (λ found. IsKnown S.tells (S.seen store.old) pages.old
        → found ≡ leaf_after (shown_over (S.seen store.old) pages.old) blocks after) }
    ensures ascends { IfOk result (λ found. IfSome found (λ leaf. IsAfter after leaf.0)) }
    ensures inside { OnOk result (first_after after < 2 ^ 32 → IsKnown S.tells (S.seen store.old) pages.old
        → IsInsideOnWay (shown_over (S.seen store.old) pages.old) blocks (first_after after)) }
    ensures between { IfOk result (λ found. IsKnown S.tells (S.seen store.old) pages.old
        → IsInsideUpTo (shown_over (S.seen store.old) pages.old) blocks (first_after after)
        (option_map (λ leaf. leaf.0) found)) }
    ensures last { after ≡ Some (2 ^ 32 - 1)
        → (result ≡ Ok None) × (store.new ≡ store.old) × (pages.new ≡ pages.old) }
    ensures refused { IfErr result (IsWalkFault (S.seen store.old).faults (S.seen store.new).faults
        (λ damage. (is_buffered (pages_of pages.new) damage.block ≡ true)
        × (IsKnown S.tells (S.seen store.old) pages.old
        → IsWayFault (shown_over (S.seen store.old) pages.old) blocks damage))) }
    ensures looked { LooksAtSome S.tells (is_ok result) 7 (S.seen store.old) (S.seen store.new) pages.old pages.new }
    ensures commits { S.commits [] store.old store.new }
{
    let Some(from) = id_after(after) else {
        return Ok(None);
    };
    match first_leaf_from(pages, store, blocks, from)? {
        Some(leaf) => Ok(Some((leaf.number, leaf.block))),
        None => Ok(None),
    }
}
