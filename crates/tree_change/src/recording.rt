//! A record that is put into a tree file in place.

ghost use Rattle.std.specs.Prelude.{◌≡◌, ◌<◌, ◌≤◌, [], false, is_ok, IfErr, IfOk, IsSome, OnOk};
ghost use Rattle.std.specs.FinMap.{get};
ghost use Rattle.entry_codec.specs.Header.{header_of};
ghost use Rattle.quota_types.specs.Format.{IsTreeFormat};
ghost use Rattle.quota_types.specs.Kept.{IsKept};
ghost use Rattle.quota_pages.specs.Page.{is_lent, lent_count};
ghost use Rattle.quota_pages.specs.Pages.{pages_of};
ghost use Rattle.quota_pages.specs.Used.{IsKnown, UsesPages, shown_over};
ghost use Rattle.tree_meaning.specs.TreeHeads.{heads_of};
ghost use Rattle.tree_change.specs.ChangeFault.{IfFull, IsChangeFault};
ghost use Rattle.tree_change.specs.HeaderHeads.{HasHeads};
ghost use Rattle.tree_change.specs.Putting.{PutsRecord};
ghost use Rattle.tree_change.specs.BlocksWanted.{blocks_with};
ghost use Rattle.tree_change.specs.Shows.{OfEachValue, OfValueChange};

use crate::change_fault::ChangeFault;
use crate::header_block::{heads_in, renew_heads};
use crate::putting::put_in;
use entry_codec::Header;
use free_chains::Heads;
use outside::Store;
use quota_pages::Pages;
use quota_types::Rec;

/// Puts the record of an identifier into a tree file with this header, and answers the heads that the file has then.
///
/// At most twelve blocks are read. What the file should be is left in the buffer; nothing is written yet. For an
/// identifier that has a record at most one block is lent for writing. Where the heads stay at most eleven are, and not
/// the header's.
///
/// # Errors
///
/// `Store` where the store failed, `Damage` where the file is damaged, and `Full` where the identifier has no record
/// and the file would have more blocks with it than the limit, which is known before any is lent for writing.
pub fn put_record<S: Store>(
    pages: &mut Pages,
    store: &mut S,
    header: &Header,
    limit: u32,
    id: u32,
    rec: &Rec,
) -> Result<Heads, ChangeFault>
    requires tree { IsTreeFormat header.now.format }
    requires kept { IsKept header.now.format id rec.now }
    requires empty { pages_of pages.old ≡ [] }
    requires two { 2 ≤ header.now.blocks }
    requires few { header.now.blocks ≤ limit }
    ensures shown { IfOk result
        (λ heads. OfValueChange S.tells (S.seen store.old) (S.seen store.new) pages.old pages.new
        header.now (λ value before after. PutsRecord id rec.now value before after heads)) }
    ensures known { OnOk result (OfEachValue S.tells (S.seen store.old) pages.old header.now (λ value.
        IsSome (get value.records id) → lent_count (pages_of pages.new) ≤ 1)) }
    ensures header { IfOk result (λ heads. HasHeads header.now heads → lent_count (pages_of pages.new) ≤ 11) }
    ensures header_stays { IfOk result (λ heads. HasHeads header.now heads
        → IsKnown S.tells (S.seen store.old) pages.old → is_lent (pages_of pages.new) 0 ≡ false) }
    ensures few { IfOk result (λ heads. (2 ≤ heads.blocks) × (heads.blocks ≤ limit)) }
    ensures refused { IfErr result (IsChangeFault (S.seen store.old).faults (S.seen store.new).faults
        (OfEachValue S.tells (S.seen store.old) pages.old header.now (λ _. ⊥))
        (λ blocks most. (most ≡ limit) × (limit < blocks)
        × OfEachValue S.tells (S.seen store.old) pages.old header.now (λ _.
        blocks ≡ blocks_with (shown_over (S.seen store.old) pages.old)
        (heads_of (header_of (shown_over (S.seen store.old) pages.old))) id))) }
    ensures full { IfErr result (IfFull (OfEachValue S.tells (S.seen store.old) pages.old header.now (λ _.
        lent_count (pages_of pages.new) ≡ 0))) }
    ensures uses { UsesPages S.tells (is_ok result) 12 (S.seen store.old) (S.seen store.new) pages.old pages.new }
    ensures commits { S.commits [] store.old store.new }
{
    let mut heads = heads_in(header);
    put_in(pages, store, &mut heads, limit, header.format, id, rec)?;
    renew_heads(pages, store, header, &heads)?;
    Ok(heads)
}
