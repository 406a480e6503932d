ghost use Rattle.std.specs.Prelude.{◌≡◌, ◌⊎◌, ◌+◌, ◌≤◌, ◌∷◌, [], length, true, false, IsTrue, IsOk, OnOk, OnErr};
ghost use Rattle.std.specs.Prelude.{if◌then◌else◌};
ghost use Rattle.outside.specs.Count.{Rose, counted};
ghost use Rattle.outside.specs.Frame.{ChangesOne};
ghost use Rattle.outside.specs.Unsynced.{with_name};
ghost use Rattle.quota_pages.specs.Flushed.{IsPartlyFlushed, counted_by, flushed_files, flushed_names};
ghost use Rattle.quota_pages.specs.Held.{pages_in};
ghost use Rattle.quota_pages.specs.Page.{is_some_lent, lent_count};

use crate::held_blocks::Held;
use outside::{Store, StoreFault};

/// Writes each held block that was lent for writing into a file.
pub(crate) fn write_pages<S: Store>(
    store: &mut S,
    name: &str,
    held: &Held,
) -> Result<(), StoreFault>
    requires { length held.now.heads.items ≡ length held.now.blocks.items }
    ensures flushed { OnOk result (IsTrue S.tells → (S.seen store.new).files
        ≡ flushed_files (S.seen store.old).files name.now (pages_in held.now.heads.items held.now.blocks.items)) }
    ensures fault { OnErr result (IsTrue S.tells → IsPartlyFlushed name.now
        (pages_in held.now.heads.items held.now.blocks.items) (S.seen store.old).files (S.seen store.new).files) }
    ensures cause { OnErr result (Rose (S.seen store.old).faults (S.seen store.new).faults) }
    ensures writes { OnOk result ((S.seen store.new).writes ≡ counted_by (S.seen store.old).writes
        (lent_count (pages_in held.now.heads.items held.now.blocks.items))) }
    ensures rose { OnErr result (Rose (S.seen store.old).writes (S.seen store.new).writes) }
    ensures tried { OnErr result ((S.seen store.new).writes
        ≤ (S.seen store.old).writes + lent_count (pages_in held.now.heads.items held.now.blocks.items)) }
    ensures unsynced { OnOk result (IsTrue S.tells → (S.seen store.new).unsynced
        ≡ flushed_names (S.seen store.old).unsynced name.now (pages_in held.now.heads.items held.now.blocks.items)) }
    ensures idle { is_some_lent (pages_in held.now.heads.items held.now.blocks.items) ≡ false
        → (IsOk result) × (store.new ≡ store.old) }
    ensures leaves { ChangesOne name.now (S.seen store.old) (S.seen store.new) }
    ensures commits { S.commits [] store.old store.new }
{
    for place in 0..held.count() {
        let head = held.head(place);
        write_page(store, name, head.number, head.lent, held.block(place))?;
    }
    Ok(())
}

/// Writes a page into a file, if it was lent for writing.
fn write_page<S: Store>(
    store: &mut S,
    name: &str,
    number: u32,
    lent: bool,
    block: &[u8; 1024],
) -> Result<(), StoreFault>
    ensures ok { OnOk result (IsTrue S.tells → (S.seen store.new).files
        ≡ flushed_files (S.seen store.old).files name.now
        (record { number = number; bytes = block.now; lent = lent } ∷ [])) }
    ensures fault { OnErr result (IsTrue S.tells → ((S.seen store.new).files ≡ (S.seen store.old).files)
        ⊎ ((S.seen store.new).files
        ≡ flushed_files (S.seen store.old).files name.now
        (record { number = number; bytes = block.now; lent = lent } ∷ []))) }
    ensures cause { OnErr result (Rose (S.seen store.old).faults (S.seen store.new).faults) }
    ensures leaves { ChangesOne name.now (S.seen store.old) (S.seen store.new) }
    ensures writes { (S.seen store.new).writes
        ≡ (if lent then counted (S.seen store.old).writes else (S.seen store.old).writes) }
    ensures unsynced { OnOk result (IsTrue S.tells → (S.seen store.new).unsynced
        ≡ (if lent then with_name (S.seen store.old).unsynced name.now true else (S.seen store.old).unsynced)) }
    ensures idle { lent ≡ false → (IsOk result) × (store.new ≡ store.old) }
    ensures commits { S.commits [] store.old store.new }
{
    if !lent {
        return Ok(());
    }
    store.write(name, 1024 * u64::from(number), block)
}
