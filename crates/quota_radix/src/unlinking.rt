ghost use Rattle.std.specs.Prelude.{◌≡◌, ◌↔◌, ℕ, ◌+◌, ◌*◌, ◌-◌, ◌<◌, ◌≤◌, ◌++◌, ◌∷◌, [], true, false, length, take};
ghost use Rattle.std.specs.Prelude.{slice_index, IfOk, IsOk, IsTrue, OnOk, OnErr};
ghost use Rattle.arrayvec.specs.ArrayVec.{array_vec_len};
ghost use Rattle.outside.specs.Count.{Rose};
ghost use Rattle.quota_types.specs.Bytes.{number_at};
ghost use Rattle.quota_pages.specs.Page.{is_buffered};
ghost use Rattle.quota_pages.specs.Pages.{pages_of};
ghost use Rattle.quota_pages.specs.Used.{IsKnown, LendsSome, LooksAtSome, missing_among, shown_over};
ghost use Rattle.quota_radix.specs.Link.{AreBuffered, AreDistinct};
ghost use Rattle.quota_radix.specs.TreeDefect.{IsEmpty};
ghost use Rattle.quota_radix.specs.Unlink.{AreAllWithoutOther, ClearsAlong, IsUnlinkable, LosesLeaf, lowest_blocks};

use crate::linking::bring_in;
use crate::{Path, digits, level_ref};
use arrayvec::ArrayVec;
use outside::{Store, StoreFault};
use quota_pages::Pages;

/// Takes the leaf of an identifier away from the tree: of the whole way of it, which is `path`, the reference to the
/// data block becomes 0. Each tree block of the way, the lowest first, that has no reference left is answered, and the
/// reference to it becomes 0 likewise. The root stays, even where it is empty then.
///
/// Each tree block of the way is buffered before anything is changed: it is already, or there is room for it. No other
/// byte of them changes, and no other block.
///
/// # Errors
///
/// The store failed. Nothing was changed.
pub fn unlink<S: Store>(
    pages: &mut Pages,
    store: &mut S,
    blocks: u32,
    path: &Path,
    id: u32,
) -> Result<ArrayVec<u32, 3>, StoreFault>
    requires found { array_vec_len path.now.found ≡ 5 }
    requires room { length (pages_of pages.old)
        + missing_among (pages_of pages.old) (take 4 path.now.found.items) ≤ 12 }
    ensures answered { IfOk result (λ emptied. emptied.items
        ≡ lowest_blocks path.now.found.items (array_vec_len emptied)) }
    ensures words { IfOk result (λ emptied. IsKnown S.tells (S.seen store.old) pages.old
        → AreDistinct (take 4 path.now.found.items)
        → ClearsAlong path.now.found.items (3 - array_vec_len emptied) id
        (shown_over (S.seen store.old) pages.old) (shown_over (S.seen store.new) pages.new)) }
    ensures emptied { IfOk result (λ emptied. IsKnown S.tells (S.seen store.old) pages.old
        → AreDistinct (take 4 path.now.found.items)
        → AreAllWithoutOther path.now.found.items (array_vec_len emptied) id
        (shown_over (S.seen store.old) pages.old)) }
    ensures loses { IfOk result (λ emptied. IsKnown S.tells (S.seen store.old) pages.old
        → IsUnlinkable (shown_over (S.seen store.old) pages.old) blocks path.now.found.items id
        → LosesLeaf path.now.found.items emptied.items id blocks
        (shown_over (S.seen store.old) pages.old) (shown_over (S.seen store.new) pages.new)) }
    ensures lends { IfOk result (λ emptied. LendsSome S.tells true
        (missing_among (pages_of pages.old) (take 4 path.now.found.items))
        (emptied.items ++ slice_index path.now.found.items (3 - array_vec_len emptied) ∷ [])
        (S.seen store.old) (S.seen store.new) pages.old pages.new) }
    ensures kept { OnErr result (LooksAtSome S.tells false
        (missing_among (pages_of pages.old) (take 4 path.now.found.items))
        (S.seen store.old) (S.seen store.new) pages.old pages.new) }
    ensures brought { OnOk result (AreBuffered (pages_of pages.new) (take 4 path.now.found.items)) }
    ensures buffered { AreBuffered (pages_of pages.old) (take 4 path.now.found.items)
        → (IsOk result) × (store.new ≡ store.old) }
    ensures cause { OnErr result (Rose (S.seen store.old).faults (S.seen store.new).faults) }
    ensures commits { S.commits [] store.old store.new }
{
    let way = path.found.as_slice();
    bring_in(pages, store, &way[..4])?;
    clear_refs(pages, store, way, id)
}

/// Clears the reference to the data block on a way, and that to each tree block below the root that has no reference
/// left then, the lowest first. Answers those blocks. The tree blocks are buffered.
///
/// # Errors
///
/// None: a buffered block is not read.
fn clear_refs<S: Store>(
    pages: &mut Pages,
    store: &mut S,
    way: &[u32],
    id: u32,
) -> Result<ArrayVec<u32, 3>, StoreFault>
    requires five { length way.now ≡ 5 }
    requires buffered { (place : ℕ) → place < 4 → is_buffered (pages_of pages.old) (slice_index way.now place) ≡ true }
    ensures done { IsOk result }
    ensures store { store.new ≡ store.old }
    ensures answered { IfOk result (λ emptied. emptied.items ≡ lowest_blocks way.now (array_vec_len emptied)) }
    ensures few { IfOk result (λ emptied. array_vec_len emptied ≤ 3) }
    ensures words { IfOk result (λ emptied. IsKnown S.tells (S.seen store.old) pages.old
        → AreDistinct (take 4 way.now)
        → ClearsAlong way.now (3 - array_vec_len emptied) id
        (shown_over (S.seen store.old) pages.old) (shown_over (S.seen store.new) pages.new)) }
    ensures empty { IfOk result (λ emptied. IsKnown S.tells (S.seen store.old) pages.old
        → AreDistinct (take 4 way.now)
        → (place : ℕ) → 3 - array_vec_len emptied < place → place < 4
        → IsEmpty (shown_over (S.seen store.new) pages.new) (slice_index way.now place)) }
    ensures left { IfOk result (λ emptied. IsKnown S.tells (S.seen store.old) pages.old
        → array_vec_len emptied < 3
        → ¬ IsEmpty (shown_over (S.seen store.new) pages.new) (slice_index way.now (3 - array_vec_len emptied))) }
    ensures lends { IfOk result (λ emptied. LendsSome S.tells true 0
        (emptied.items ++ slice_index way.now (3 - array_vec_len emptied) ∷ [])
        (S.seen store.old) (S.seen store.new) pages.old pages.new) }
    ensures commits { S.commits [] store.old store.new }
{
    let digits = digits(id);
    let mut emptied = ArrayVec::new();
    for count in 0..3 {
        let place = 3 - count;
        pages.set_word(store, way[place], 4 * usize::from(digits[place]), 0)?;
        if !is_without_refs(pages, store, way[place])? {
            return Ok(emptied);
        }
        emptied.push(way[place]);
    }
    pages.set_word(store, way[0], 4 * usize::from(digits[0]), 0)?;
    Ok(emptied)
}

/// Whether a buffered block of the tree has no reference.
///
/// # Errors
///
/// None: a buffered block is not read.
fn is_without_refs<S: Store>(
    pages: &mut Pages,
    store: &mut S,
    number: u32,
) -> Result<bool, StoreFault>
    requires { is_buffered (pages_of pages.old) number ≡ true }
    ensures done { IsOk result }
    ensures store { store.new ≡ store.old }
    ensures empty { IfOk result (λ empty. IsKnown S.tells (S.seen store.old) pages.old
        → (IsTrue empty ↔ IsEmpty (shown_over (S.seen store.old) pages.old) number)) }
    ensures looked { LooksAtSome S.tells true 0 (S.seen store.old) (S.seen store.new) pages.old pages.new }
    ensures commits { S.commits [] store.old store.new }
{
    let block = pages.peek(store, number)?;
    Ok(has_no_refs(block))
}

/// Whether each reference in a block of the tree is 0.
fn has_no_refs(block: &[u8; 1024]) -> bool
    ensures { IsTrue result ↔ ((digit : ℕ) → digit < 256 → number_at 4 block.now (4 * digit) ≡ 0) }
{
    for digit in 0..256u32 {
        if level_ref(block, digit as u8) != 0 {
            return false;
        }
    }
    true
}
