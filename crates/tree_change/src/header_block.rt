//! The heads of a tree file, as its header has them.

ghost use Rattle.std.specs.Prelude.{◌≡◌, ◌↔◌, ◌+◌, ◌≤◌, ◌∷◌, [], length, true, is_ok, IsTrue, OnErr, OnOk};
ghost use Rattle.entry_codec.specs.Header.{header_of};
ghost use Rattle.entry_codec.specs.Spelling.{AreOf};
ghost use Rattle.quota_types.specs.KeptBytes.{KeepsOutside};
ghost use Rattle.outside.specs.Count.{Rose};
ghost use Rattle.quota_pages.specs.Page.{HasRoomFor};
ghost use Rattle.quota_pages.specs.Pages.{pages_of};
ghost use Rattle.quota_pages.specs.Used.{LendsSome, UsesPages, shown_over};
ghost use Rattle.quota_pages.specs.KeptBlocks.{KeepsBlocksBut};
ghost use Rattle.tree_change.specs.HeaderHeads.{HasHeads, SetsHeads, with_heads};
ghost use Rattle.tree_change.specs.Shows.{LendsOne, LooksAtOne, OfChange};

use entry_codec::Header;
use free_chains::Heads;
use outside::{Store, StoreFault};
use quota_pages::Pages;
use quota_types::set_le32s_at;

/// Where the header states how many blocks there are; the heads of both lists follow.
const HEADS_AT: usize = 20;

/// The heads that a header has.
pub(crate) fn heads_in(header: &Header) -> Heads
    ensures { HasHeads header.now result }
{
    Heads {
        blocks: header.blocks,
        free: header.free,
        first: header.first,
    }
}

fn write_heads(heads: &Heads, bytes: &mut [u8])
    requires { 32 ≤ length bytes.old }
    ensures heads { header_of bytes.new ≡ with_heads (header_of bytes.old) heads.now }
    ensures others { KeepsOutside 20 32 bytes.old bytes.new }
{
    set_le32s_at(bytes, HEADS_AT, &[heads.blocks, heads.free, heads.first]);
}

fn write_in(heads: &Heads, block: &mut [u8; 1024])
    ensures heads { header_of block.new ≡ with_heads (header_of block.old) heads.now }
    ensures others { KeepsOutside 20 32 block.old block.new }
    ensures whole { length block.new ≡ 1024 }
{
    write_heads(heads, &mut block[..]);
}

/// Writes heads in the header. All other bytes of its block stay. Block 0 is lent for writing.
///
/// # Errors
///
/// The store failed. The buffer shows what it showed.
pub fn set_heads<S: Store>(
    pages: &mut Pages,
    store: &mut S,
    heads: &Heads,
) -> Result<(), StoreFault>
    requires { HasRoomFor (pages_of pages.old) 0 }
    ensures set { OnOk result (OfChange S.tells (S.seen store.old) (S.seen store.new) pages.old pages.new
        (SetsHeads heads.now)) }
    ensures lends { OnOk result (LendsOne S.tells 0 (S.seen store.old) (S.seen store.new) pages.old pages.new) }
    ensures kept { OnErr result (LooksAtOne S.tells 0 (S.seen store.old) (S.seen store.new) pages.old pages.new) }
    ensures cause { OnErr result (Rose (S.seen store.old).faults (S.seen store.new).faults) }
    ensures commits { S.commits [] store.old store.new }
{
    let block = pages.page(store, 0)?;
    write_in(heads, block);
    Ok(())
}

/// Whether a header has these heads.
fn has_heads(header: &Header, heads: &Heads) -> bool
    ensures { IsTrue result ↔ HasHeads header.now heads.now }
{
    heads.blocks == header.blocks && heads.free == header.free && heads.first == header.first
}

/// Writes the heads in the header where they are others than it has. Where it has them no page is lent.
///
/// # Errors
///
/// The store failed.
pub(crate) fn renew_heads<S: Store>(
    pages: &mut Pages,
    store: &mut S,
    header: &Header,
    heads: &Heads,
) -> Result<(), StoreFault>
    requires room { length (pages_of pages.old) + 1 ≤ 12 }
    ensures keeps { OnOk result (KeepsBlocksBut (0 ∷ [])
        (shown_over (S.seen store.old) pages.old) (shown_over (S.seen store.new) pages.new)) }
    ensures set { OnOk result (OfChange S.tells (S.seen store.old) (S.seen store.new) pages.old pages.new
        (λ before after. AreOf header.now (header_of before) → SetsHeads heads.now before after)) }
    ensures lends { OnOk result
        (LendsSome S.tells true 1 (0 ∷ []) (S.seen store.old) (S.seen store.new) pages.old pages.new) }
    ensures idle { HasHeads header.now heads.now → pages_of pages.new ≡ pages_of pages.old }
    ensures uses { UsesPages S.tells (is_ok result) 1 (S.seen store.old) (S.seen store.new) pages.old pages.new }
    ensures cause { OnErr result (Rose (S.seen store.old).faults (S.seen store.new).faults) }
    ensures commits { S.commits [] store.old store.new }
{
    if has_heads(header, heads) {
        return Ok(());
    }
    set_heads(pages, store, heads)
}
