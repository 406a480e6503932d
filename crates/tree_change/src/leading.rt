//! A way to a leaf that is awaited.

ghost use Rattle.std.specs.Prelude.{◌≡◌, ◌≢◌, ◌+◌, ◌-◌, ◌≤◌, length, slice_index, IfErr, OnErr, OnOk, is_ok, []};
ghost use Rattle.arrayvec.specs.ArrayVec.{array_vec_len};
ghost use Rattle.quota_pages.specs.Pages.{pages_of};
ghost use Rattle.quota_pages.specs.Used.{IsKnown, UsesPages, shown_over};
ghost use Rattle.quota_radix.specs.Link.{AreBuffered};
ghost use Rattle.tree_change.specs.Fresh.{IsTakeFault};
ghost use Rattle.tree_change.specs.Leads.{LeadsEachTree};
ghost use Rattle.tree_change.specs.Putting.{TakesWithin};
ghost use Rattle.tree_change.specs.Shows.{OfChange};

use crate::change_fault::ChangeFault;
use crate::fresh::take_fresh;
use free_chains::Heads;
use outside::Store;
use quota_pages::Pages;
use quota_radix::{Path, link};

/// Leads the way of an identifier to a leaf that is awaited: it takes the blocks that the way lacks, and links the leaf
/// by them. `path` are the blocks that the way has, one to four, which are buffered. It reads as many blocks as it
/// takes, at most.
///
/// # Errors
///
/// `Store` where the store failed, `Damage` where the list of free blocks leads past the last block, and `Full` where
/// there is no room for the blocks that the way lacks. The heads are as before.
pub fn lead_to<S: Store>(
    pages: &mut Pages,
    store: &mut S,
    heads: &mut Heads,
    limit: u32,
    path: &Path,
    id: u32,
    leaf_block: u32,
) -> Result<(), ChangeFault>
    requires found { 1 ≤ array_vec_len path.now.found }
    requires few { array_vec_len path.now.found ≤ 4 }
    requires brought { AreBuffered (pages_of pages.old) path.now.found.items }
    requires room { length (pages_of pages.old) + (4 - array_vec_len path.now.found) ≤ 12 }
    ensures led { OnOk result
        (OfChange S.tells (S.seen store.old) (S.seen store.new) pages.old pages.new (λ before after.
        LeadsEachTree path.now.found.items (4 - array_vec_len path.now.found)
        (record { number = id; block = leaf_block })
        before after heads.old heads.new)) }
    ensures first { OnOk result (heads.new.first ≡ heads.old.first) }
    ensures takes { OnOk result (TakesWithin limit
        (slice_index path.now.found.items (array_vec_len path.now.found - 1) ≢ 0) heads.old heads.new
        pages.old pages.new) }
    ensures uses { UsesPages S.tells (is_ok result) (4 - array_vec_len path.now.found)
        (S.seen store.old) (S.seen store.new) pages.old pages.new }
    ensures stays { OnErr result (heads.new ≡ heads.old) }
    ensures refused { IfErr result (IsTakeFault (S.seen store.old).faults (S.seen store.new).faults
        (IsKnown S.tells (S.seen store.old) pages.old)
        (shown_over (S.seen store.old) pages.old) heads.old limit (4 - array_vec_len path.now.found)) }
    ensures commits { S.commits [] store.old store.new }
{
    let mut now = *heads;
    let lacking = 4 - path.found.len();
    let fresh = take_fresh(pages, store, &mut now, limit, lacking)?;
    link(
        pages,
        store,
        now.blocks,
        path,
        id,
        fresh.as_slice(),
        leaf_block,
    )?;
    *heads = now;
    Ok(())
}
