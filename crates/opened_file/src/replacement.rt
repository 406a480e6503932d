ghost use Rattle.std.specs.Prelude.{◌≡◌, ◌+◌, ◌^◌, ◌≤◌, length, false, Some, IsTrue, IfOk, IfErr, OnOk, OnErr, [], ◌∷◌};
ghost use Rattle.std.specs.Prelude.{ℕ, List};
ghost use Rattle.std.specs.String.{string_bytes};
ghost use Rattle.outside.specs.Count.{Rose};
ghost use Rattle.outside.specs.Frame.{ChangesOne};
ghost use Rattle.outside.specs.ManyCalls.{ReplacesOne, replaced_names, replaced_files};
ghost use Rattle.opened_file.specs.Replace.{IsReplaceFault, OnNoMemory, pieces_of};
ghost use Rattle.outside.specs.Replacement.{replacement_name};
ghost use Rattle.outside.specs.Unsynced.{with_name};
ghost use Rattle.outside.specs.World.{KeepsOthers, with_file};
ghost use Rattle.opened_file.specs.declared.replacement.ReplaceFault.TheVariants.{Store as StoreFailed, Memory};

use outside::{Store, StoreFault};
use std::alloc::{AllocError, Global};

/// How many bytes one call of `Store::write` takes.
const PIECE: usize = 1024;

/// Why a file could not be replaced.
#[derive(Clone, Copy, Debug, PartialEq, Eq)]
pub enum ReplaceFault {
    /// The store failed.
    Store,
    /// The file would need more blocks than it may have.
    Full {
        /// The blocks that it would need.
        blocks: u64,
        /// The blocks that it may have.
        limit: u64,
    },
    /// There was not enough memory.
    Memory,
}

impl From<StoreFault> for ReplaceFault {
    ghost from_gives = { λ _ fault. fault ≡ StoreFailed };

    fn from(_: StoreFault) -> Self {
        ReplaceFault::Store
    }
}

impl From<AllocError> for ReplaceFault {
    ghost from_gives = { λ _ fault. fault ≡ Memory };

    fn from(_: AllocError) -> Self {
        ReplaceFault::Memory
    }
}

/// Puts a file of these bytes in the place of the one of this name, or makes it. The bytes are written and synced
/// under the name with `.new` added, and that file is then renamed. `Full` never comes.
///
/// # Errors
///
/// The store failed, or there is not enough memory. The old file is as before, and the one with `.new` may hold
/// anything.
pub fn replace<S: Store>(
    alloc: Global,
    store: &mut S,
    name: &str,
    bytes: &[u8],
) -> Result<(), ReplaceFault>
    requires { length bytes.now ≤ 2 ^ 42 }
    ensures replaced { OnOk result (IsTrue S.tells
        → (S.seen store.new).files ≡ replaced_files (S.seen store.old).files name.now bytes.now) }
    ensures synced { OnOk result (IsTrue S.tells
        → (S.seen store.new).unsynced ≡ replaced_names (S.seen store.old).unsynced name.now) }
    ensures refused { IfErr result (IsReplaceFault (S.seen store.old).faults (S.seen store.new).faults) }
    ensures unchanged { OnErr result (KeepsOthers (replacement_name name.now) (S.seen store.old).files
        (S.seen store.new).files) }
    ensures memory { IfErr result (λ fault. OnNoMemory fault (S.seen store.new ≡ S.seen store.old)) }
    ensures leaves { ReplacesOne name.now (S.seen store.old) (S.seen store.new) }
    ensures reads { (S.seen store.new).reads ≡ (S.seen store.old).reads }
    ensures writes { (S.seen store.new).writes ≤ (S.seen store.old).writes + pieces_of (length bytes.now) }
    ensures commits { IsTrue S.tells
        → S.commits (replaced_files (S.seen store.old).files name.now bytes.now ∷ []) store.old store.new }
{
    let new_name = name_of_new(alloc, name)?;
    write_new(store, new_name.as_str(), bytes)?;
    store.rename(new_name.as_str(), name)?;
    Ok(())
}

/// The name under which a new file is written, before it takes the place of the one of this name: with `.new` added.
///
/// # Errors
///
/// There is not enough memory.
#[tactic(auto, unfolding(outside::specs::Replacement::replacement_name))]
pub fn name_of_new(alloc: Global, name: &str) -> Result<String, AllocError>
    ensures { IfOk result (λ new_name. string_bytes new_name ≡ replacement_name name.now) }
{
    let mut new_name = String::from_str(alloc, name)?;
    new_name.push_str(".new")?;
    Ok(new_name)
}

/// Makes a file of these bytes, and waits until it is kept safe.
fn write_new<S: Store>(store: &mut S, name: &str, bytes: &[u8]) -> Result<(), StoreFault>
    requires { length bytes.now ≤ 2 ^ 42 }
    ensures ok { OnOk result (IsTrue S.tells
        → (S.seen store.new).files ≡ with_file (S.seen store.old).files name.now (Some bytes.now)) }
    ensures synced { OnOk result (IsTrue S.tells
        → (S.seen store.new).unsynced ≡ with_name (S.seen store.old).unsynced name.now false) }
    ensures cause { OnErr result (Rose (S.seen store.old).faults (S.seen store.new).faults) }
    ensures leaves { ChangesOne name.now (S.seen store.old) (S.seen store.new) }
    ensures writes { (S.seen store.new).writes ≤ (S.seen store.old).writes + pieces_of (length bytes.now) }
    ensures commits { (base : List ℕ) → name.now ≡ replacement_name base → S.commits [] store.old store.new }
{
    store.create(name)?;
    let mut at = 0;
    while at < bytes.len() {
        let end = bytes.len().min(at + PIECE);
        store.write(name, at as u64, &bytes[at..end])?;
        at = end;
    }
    store.sync(name)
}
