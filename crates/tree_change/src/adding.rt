//! A data block that is added for a record.

ghost use Rattle.std.specs.Prelude.{◌≡◌, ◌+◌, ◌≤◌, length, IfErr, IfOk, OnErr, OnOk, ⊤, is_ok, []};
ghost use Rattle.quota_types.specs.Format.{IsTreeFormat};
ghost use Rattle.quota_types.specs.Kept.{IsKept};
ghost use Rattle.quota_pages.specs.Pages.{pages_of};
ghost use Rattle.quota_pages.specs.Used.{IsKnown, UsesPages, shown_over};
ghost use Rattle.tree_change.specs.Enters.{EntersEachTree};
ghost use Rattle.tree_change.specs.Fresh.{IsTakeFault};
ghost use Rattle.tree_change.specs.Putting.{TakesWithin};
ghost use Rattle.tree_change.specs.Shows.{OfChange};

use crate::change_fault::ChangeFault;
use crate::fresh::take_one;
use crate::writing::write_record;
use free_chains::{Heads, enter_entry_list};
use outside::Store;
use quota_pages::Pages;
use quota_types::{Format, Rec};

/// Takes a block, writes the record of an identifier that has none as its first entry, and puts it into the list of the
/// data blocks that have room. It answers the block, and reads three at most.
///
/// # Errors
///
/// `Store` where the store failed, `Damage` where one of the two lists leads past the last block, and `Full` where
/// there is no room for a block. The heads are as before.
pub fn add_block<S: Store>(
    pages: &mut Pages,
    store: &mut S,
    heads: &mut Heads,
    limit: u32,
    format: Format,
    id: u32,
    rec: &Rec,
) -> Result<u32, ChangeFault>
    requires tree { IsTreeFormat format }
    requires kept { IsKept format id rec.now }
    requires room { length (pages_of pages.old) + 3 ≤ 12 }
    ensures added { IfOk result (λ block. OfChange S.tells (S.seen store.old) (S.seen store.new) pages.old pages.new
        (λ before after. EntersEachTree block id rec.now 1 format before after heads.old heads.new)) }
    ensures takes { OnOk result (TakesWithin limit ⊤ heads.old heads.new pages.old pages.new) }
    ensures uses { UsesPages S.tells (is_ok result) 3 (S.seen store.old) (S.seen store.new) pages.old pages.new }
    ensures stays { OnErr result (heads.new ≡ heads.old) }
    ensures refused { IfErr result (IsTakeFault (S.seen store.old).faults (S.seen store.new).faults
        (IsKnown S.tells (S.seen store.old) pages.old) (shown_over (S.seen store.old) pages.old) heads.old limit 1) }
    ensures commits { S.commits [] store.old store.new }
{
    let mut now = *heads;
    let block = take_one(pages, store, &mut now, limit)?;
    write_record(pages, store, format, block, 0, id, rec)?;
    enter_entry_list(pages, store, &mut now, block)?;
    *heads = now;
    Ok(block)
}
