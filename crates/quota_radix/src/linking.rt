ghost use Rattle.std.specs.Prelude.{◌≡◌, ◌+◌, ◌*◌, ◌-◌, ◌<◌, ◌≤◌, [], ℕ, true, false, length, slice_index, take, drop};
ghost use Rattle.std.specs.Prelude.{IsOk, OnOk, OnErr, is_ok};
ghost use Rattle.arrayvec.specs.ArrayVec.{array_vec_len};
ghost use Rattle.outside.specs.Count.{Rose};
ghost use Rattle.quota_pages.specs.Page.{is_buffered};
ghost use Rattle.quota_pages.specs.Pages.{pages_of};
ghost use Rattle.quota_pages.specs.Used.{IsKnown, LendsSome, LooksAtSome, missing_among, shown_over};
ghost use Rattle.quota_radix.specs.Link.{AreBuffered, AreDistinct, GainsBlocks, HasWay, IsLinkable, LeadsAlong};
ghost use Rattle.quota_radix.specs.Link.{changed_blocks, whole_way, with_path};
ghost use Rattle.quota_radix.specs.Tree.{leaves};

use crate::{Path, digits};
use outside::{Store, StoreFault};
use quota_pages::Pages;

/// Adds the leaf of an identifier to the tree: in the last block of `path` the reference by the identifier's next digit
/// leads to the first of the fresh blocks, from each of these the next digit leads to the next one, and the last digit
/// leads to `leaf_block`.
///
/// Each block that changes is buffered before anything is changed: it is already, or there is room for it. No other
/// byte of them changes, and no other block.
///
/// # Errors
///
/// The store failed. Nothing was changed.
pub fn link<S: Store>(
    pages: &mut Pages,
    store: &mut S,
    blocks: u32,
    path: &Path,
    id: u32,
    fresh: &[u32],
    leaf_block: u32,
) -> Result<(), StoreFault>
    requires found { 1 ≤ array_vec_len path.now.found }
    requires fresh { array_vec_len path.now.found + length fresh.now ≡ 4 }
    requires room { length (pages_of pages.old)
        + missing_among (pages_of pages.old) (changed_blocks path.now.found.items fresh.now) ≤ 12 }
    ensures words { OnOk result (IsKnown S.tells (S.seen store.old) pages.old
        → AreDistinct (changed_blocks path.now.found.items fresh.now)
        → LeadsAlong (whole_way path.now.found.items fresh.now leaf_block) (array_vec_len path.now.found - 1) id
        (shown_over (S.seen store.old) pages.old) (shown_over (S.seen store.new) pages.new)) }
    ensures lends { OnOk result (LendsSome S.tells true
        (missing_among (pages_of pages.old) (changed_blocks path.now.found.items fresh.now))
        (changed_blocks path.now.found.items fresh.now) (S.seen store.old) (S.seen store.new) pages.old pages.new) }
    ensures paths { OnOk result (IsKnown S.tells (S.seen store.old) pages.old
        → IsLinkable (shown_over (S.seen store.old) pages.old) blocks path.now.found.items fresh.now id leaf_block
        → HasWay (whole_way path.now.found.items fresh.now leaf_block) (array_vec_len path.now.found) id blocks
        (shown_over (S.seen store.old) pages.old) (shown_over (S.seen store.new) pages.new)) }
    ensures leaves { OnOk result (IsKnown S.tells (S.seen store.old) pages.old
        → IsLinkable (shown_over (S.seen store.old) pages.old) blocks path.now.found.items fresh.now id leaf_block
        → leaves (shown_over (S.seen store.new) pages.new) blocks
        ≡ with_path (leaves (shown_over (S.seen store.old) pages.old) blocks)
        (record { number = id; block = leaf_block })) }
    ensures levels { OnOk result (IsKnown S.tells (S.seen store.old) pages.old
        → IsLinkable (shown_over (S.seen store.old) pages.old) blocks path.now.found.items fresh.now id leaf_block
        → GainsBlocks (whole_way path.now.found.items fresh.now leaf_block) fresh.now
        (array_vec_len path.now.found) blocks
        (shown_over (S.seen store.old) pages.old) (shown_over (S.seen store.new) pages.new)) }
    ensures kept { OnErr result (LooksAtSome S.tells false
        (missing_among (pages_of pages.old) (changed_blocks path.now.found.items fresh.now)) (S.seen store.old)
        (S.seen store.new) pages.old pages.new) }
    ensures buffered { AreBuffered (pages_of pages.old) (changed_blocks path.now.found.items fresh.now)
        → (IsOk result) × (store.new ≡ store.old) }
    ensures few { AreBuffered (pages_of pages.old) (changed_blocks path.now.found.items fresh.now)
        → length (pages_of pages.new) ≤ length (pages_of pages.old) }
    ensures cause { OnErr result (Rose (S.seen store.old).faults (S.seen store.new).faults) }
    ensures commits { S.commits [] store.old store.new }
{
    let way = whole_way(path, fresh, leaf_block);
    let first = path.found.len() - 1;
    bring_in(pages, store, &way[first..4])?;
    set_refs(pages, store, &way, first, id)
}

/// The blocks of a way that were found, the fresh ones, and the leaf's.
fn whole_way(path: &Path, fresh: &[u32], leaf_block: u32) -> [u32; 5]
    requires { array_vec_len path.now.found + length fresh.now ≡ 4 }
    ensures way { result ≡ whole_way path.now.found.items fresh.now leaf_block }
{
    let found = path.found.as_slice();
    let mut way = [leaf_block; 5];
    way[..found.len()].copy_from_slice(found);
    way[found.len()..4].copy_from_slice(fresh);
    way
}

/// Has each of some blocks buffered.
///
/// # Errors
///
/// The store failed.
pub(crate) fn bring_in<S: Store>(
    pages: &mut Pages,
    store: &mut S,
    numbers: &[u32],
) -> Result<(), StoreFault>
    requires { length (pages_of pages.old) + missing_among (pages_of pages.old) numbers.now ≤ 12 }
    ensures looked { LooksAtSome S.tells (is_ok result) (missing_among (pages_of pages.old) numbers.now)
        (S.seen store.old) (S.seen store.new) pages.old pages.new }
    ensures brought { OnOk result (AreBuffered (pages_of pages.new) numbers.now) }
    ensures buffered { AreBuffered (pages_of pages.old) numbers.now → (IsOk result) × (store.new ≡ store.old) }
    ensures few { AreBuffered (pages_of pages.old) numbers.now
        → length (pages_of pages.new) ≤ length (pages_of pages.old) }
    ensures cause { OnErr result (Rose (S.seen store.old).faults (S.seen store.new).faults) }
    ensures commits { S.commits [] store.old store.new }
{
    for number in numbers {
        pages.word(store, *number, 0)?;
    }
    Ok(())
}

/// Has each block of a way, from the place `first` on, lead to the next by the digit of the identifier. They are
/// buffered.
///
/// # Errors
///
/// None: a buffered block is not read.
fn set_refs<S: Store>(
    pages: &mut Pages,
    store: &mut S,
    way: &[u32; 5],
    first: usize,
    id: u32,
) -> Result<(), StoreFault>
    requires first { first < 4 }
    requires buffered { (place : ℕ) → first ≤ place → place < 4
        → is_buffered (pages_of pages.old) (slice_index way.now place) ≡ true }
    ensures done { IsOk result }
    ensures store { store.new ≡ store.old }
    ensures words { IsKnown S.tells (S.seen store.old) pages.old
        → AreDistinct (take (4 - first) (drop first way.now))
        → LeadsAlong way.now first id (shown_over (S.seen store.old) pages.old)
        (shown_over (S.seen store.new) pages.new) }
    ensures lends { LendsSome S.tells true 0 (take (4 - first) (drop first way.now))
        (S.seen store.old) (S.seen store.new) pages.old pages.new }
    ensures commits { S.commits [] store.old store.new }
{
    let digits = digits(id);
    for place in first..4 {
        pages.set_word(
            store,
            way[place],
            4 * usize::from(digits[place]),
            way[place + 1],
        )?;
    }
    Ok(())
}
