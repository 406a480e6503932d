//! Whether a tree file has room for more blocks.

ghost use Rattle.std.specs.Prelude.{◌≡◌, ◌+◌, ◌<◌, ◌≤◌, ℕ, List, length, IfErr, OnOk, is_ok, []};
ghost use Rattle.quota_types.specs.declared.file_kind.Format.{Format};
ghost use Rattle.quota_pages.specs.Pages.{pages_of};
ghost use Rattle.quota_pages.specs.Used.{LooksAtSome};
ghost use Rattle.free_chains.specs.Chain.{IsChain};
ghost use Rattle.tree_change.specs.ChangeFault.{IsChangeFault};
ghost use Rattle.tree_change.specs.Room.{LeavesRoom, NeedsBlocks};
ghost use Rattle.tree_change.specs.Shows.{IsNoTree, OfShown};

use crate::change_fault::ChangeFault;
use free_chains::{Heads, count_free};
use outside::Store;
use quota_pages::Pages;

/// Whether `need` blocks can be taken, 4 at most, while the file has no more than `limit` blocks. It counts the list of
/// free blocks as far as `need`, and reads as many at most.
///
/// # Errors
///
/// `Store` where the store failed, `Damage` where the list of free blocks leads past the last block, and `Full` exactly
/// where there is no room, with the number of blocks that the file would have. The buffer shows what it showed.
pub fn has_room<S: Store>(
    pages: &mut Pages,
    store: &mut S,
    heads: &Heads,
    limit: u32,
    need: u32,
) -> Result<(), ChangeFault>
    requires need { need ≤ 4 }
    requires room { length (pages_of pages.old) + need ≤ 12 }
    ensures room { OnOk result (OfShown S.tells (S.seen store.old) pages.old (λ file. (free : List ℕ)
        → IsChain file heads.now.blocks heads.now.free free 0 → LeavesRoom heads.now limit need free)) }
    ensures refused { IfErr result (IsChangeFault (S.seen store.old).faults (S.seen store.new).faults
        (OfShown S.tells (S.seen store.old) pages.old (λ file. (format : Format) → IsNoTree format file heads.now))
        (λ blocks most. (most ≡ limit) × (limit < blocks)
        × OfShown S.tells (S.seen store.old) pages.old (λ file. NeedsBlocks file heads.now need blocks))) }
    ensures looked { LooksAtSome S.tells (is_ok result) need (S.seen store.old) (S.seen store.new) pages.old pages.new }
    ensures commits { S.commits [] store.old store.new }
{
    let free = count_free(pages, store, heads, need)?;
    let blocks = u64::from(heads.blocks) + u64::from(need - free);
    if free < need && blocks > u64::from(limit) {
        return Err(ChangeFault::Full {
            blocks,
            limit: u64::from(limit),
        });
    }
    Ok(())
}
