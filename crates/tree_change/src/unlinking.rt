//! A leaf that is taken away from the tree, before its entry is.

ghost use Rattle.std.specs.Prelude.{◌≡◌, ◌+◌, ◌≤◌, length, take, true, OnErr, OnOk, is_ok, []};
ghost use Rattle.arrayvec.specs.ArrayVec.{array_vec_len};
ghost use Rattle.outside.specs.Count.{Rose};
ghost use Rattle.quota_pages.specs.Pages.{pages_of};
ghost use Rattle.quota_pages.specs.Used.{LendsSome, UsesPages, missing_among};
ghost use Rattle.quota_radix.specs.Link.{AreBuffered};
ghost use Rattle.tree_change.specs.Shows.{OfChange};
ghost use Rattle.tree_change.specs.Unlinked.{GivesHeld, UnlinksLeaf};

use free_chains::{Heads, give_block};
use outside::{Store, StoreFault};
use quota_pages::Pages;
use quota_radix::{Path, unlink};

/// Takes the leaf of an identifier away from the tree: the whole way of it is `path`. The tree blocks that are emptied
/// become free ones, the lowest first. The entry stays.
///
/// Each tree block of the way is buffered before anything is changed: it is already, or there is room for it. No other
/// block is read.
///
/// # Errors
///
/// The store failed. The heads are as before.
pub fn unlink_leaf<S: Store>(
    pages: &mut Pages,
    store: &mut S,
    heads: &mut Heads,
    path: &Path,
    id: u32,
) -> Result<(), StoreFault>
    requires found { array_vec_len path.now.found ≡ 5 }
    requires room { length (pages_of pages.old)
        + missing_among (pages_of pages.old) (take 4 path.now.found.items) ≤ 12 }
    ensures unlinked { OnOk result (OfChange S.tells (S.seen store.old) (S.seen store.new) pages.old pages.new
        (λ before after. UnlinksLeaf path.now.found.items id before after heads.old heads.new)) }
    ensures blocks { heads.new.blocks ≡ heads.old.blocks }
    ensures first { heads.new.first ≡ heads.old.first }
    ensures brought { OnOk result (AreBuffered (pages_of pages.new) (take 4 path.now.found.items)) }
    ensures lends { OnOk result
        (LendsSome S.tells true (missing_among (pages_of pages.old) (take 4 path.now.found.items))
        (take 4 path.now.found.items) (S.seen store.old) (S.seen store.new) pages.old pages.new) }
    ensures uses { UsesPages S.tells (is_ok result) (missing_among (pages_of pages.old) (take 4 path.now.found.items))
        (S.seen store.old) (S.seen store.new) pages.old pages.new }
    ensures stays { OnErr result (heads.new ≡ heads.old) }
    ensures cause { OnErr result (Rose (S.seen store.old).faults (S.seen store.new).faults) }
    ensures commits { S.commits [] store.old store.new }
{
    let emptied = unlink(pages, store, heads.blocks, path, id)?;
    give_all(pages, store, heads, emptied.as_slice())
}

/// Puts blocks before the list of free blocks, one after another. They are buffered, so none is read.
///
/// # Errors
///
/// The store failed. The heads are as before.
pub(crate) fn give_all<S: Store>(
    pages: &mut Pages,
    store: &mut S,
    heads: &mut Heads,
    given: &[u32],
) -> Result<(), StoreFault>
    requires buffered { AreBuffered (pages_of pages.old) given.now }
    ensures given { OnOk result (OfChange S.tells (S.seen store.old) (S.seen store.new) pages.old pages.new
        (λ before after. GivesHeld given.now before after heads.old heads.new)) }
    ensures blocks { heads.new.blocks ≡ heads.old.blocks }
    ensures first { heads.new.first ≡ heads.old.first }
    ensures lends { OnOk result
        (LendsSome S.tells true 0 given.now (S.seen store.old) (S.seen store.new) pages.old pages.new) }
    ensures uses { UsesPages S.tells (is_ok result) 0 (S.seen store.old) (S.seen store.new) pages.old pages.new }
    ensures stays { OnErr result (heads.new ≡ heads.old) }
    ensures cause { OnErr result (Rose (S.seen store.old).faults (S.seen store.new).faults) }
    ensures commits { S.commits [] store.old store.new }
{
    let mut now = *heads;
    for block in given {
        give_block(pages, store, &mut now, *block)?;
    }
    *heads = now;
    Ok(())
}
