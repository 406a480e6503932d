ghost use Rattle.std.specs.Prelude.{◌≡◌, ◌+◌, ◌≤◌, ◌++◌, length, min, vec_len, Some, IsTrue, IfOk, IfErr, OnOk, is_ok};
ghost use Rattle.std.specs.Prelude.{[]};
ghost use Rattle.outside.specs.Count.{counted};
ghost use Rattle.outside.specs.Frame.{OnlyReads};
ghost use Rattle.opened_file.specs.Load.{IsLoadFault, IsReadFault};
ghost use Rattle.opened_file.specs.Replace.{pieces_of};
ghost use Rattle.outside.specs.World.{bytes_from};
ghost use Rattle.file_blocks.specs.Block.{file_of};
ghost use Rattle.opened_file.specs.declared.whole_file.LoadFault.TheVariants.{Store as StoreFailed, Memory};

use outside::{Store, StoreFault};
use std::alloc::{AllocError, Global};

/// Why a file could not be read whole.
#[derive(Clone, Copy, Debug, PartialEq, Eq)]
pub enum LoadFault {
    /// The store failed.
    Store,
    /// There is no file of this name.
    NoFile,
    /// The file is larger than was allowed.
    TooLarge,
    /// There was not enough memory.
    Memory,
}

impl From<StoreFault> for LoadFault {
    ghost from_gives = { λ _ fault. fault ≡ StoreFailed };

    fn from(_: StoreFault) -> Self {
        LoadFault::Store
    }
}

impl From<AllocError> for LoadFault {
    ghost from_gives = { λ _ fault. fault ≡ Memory };

    fn from(_: AllocError) -> Self {
        LoadFault::Memory
    }
}

/// Reads a whole file, of at most `most` bytes. Every 1,024 of its bytes are read once at most, even where it is
/// refused.
///
/// # Errors
///
/// There is no such file, it is larger, the store failed, or there is not enough memory.
pub fn load<S: Store>(
    alloc: Global,
    store: &mut S,
    name: &str,
    most: u64,
) -> Result<Vec<u8>, LoadFault>
    ensures whole { IfOk result (λ bytes. IsTrue S.tells → (S.seen store.old).files name.now ≡ Some bytes.items) }
    ensures within { IfOk result (λ bytes. length bytes.items ≤ most) }
    ensures refused { IfErr result (IsLoadFault (S.seen store.old).faults (S.seen store.new).faults S.tells
        ((S.seen store.old).files name.now) most) }
    ensures leaves { OnlyReads (is_ok result) name.now (S.seen store.old) (S.seen store.new) }
    ensures reads { IsTrue S.tells → (S.seen store.new).reads
        ≤ (S.seen store.old).reads + pieces_of (length (file_of (S.seen store.old).files name.now)) }
    ensures commits { S.commits [] store.old store.new }
{
    let Some(size) = store.size(name)? else {
        return Err(LoadFault::NoFile);
    };
    if size > most {
        return Err(LoadFault::TooLarge);
    }
    let len = size as usize;
    let mut bytes = Vec::with_capacity(alloc, len)?;
    while bytes.len() < len {
        let missing = len - bytes.len();
        if append_block(store, name, &mut bytes, missing)? == 0 {
            break;
        }
    }
    Ok(bytes)
}

/// Appends the bytes of a file that follow those that are there: one block, or `most` bytes where that is less.
/// Answers how many there were.
fn append_block<S: Store>(
    store: &mut S,
    name: &str,
    bytes: &mut Vec<u8>,
    most: usize,
) -> Result<usize, LoadFault>
    ensures appended { OnOk result (IsTrue S.tells → bytes.new.items ≡ bytes.old.items
        ++ bytes_from ((S.seen store.old).files name.now) (vec_len bytes.old) (min most 1024)) }
    ensures count { IfOk result (λ count. vec_len bytes.new ≡ vec_len bytes.old + count) }
    ensures within { IfOk result (λ count. count ≤ most) }
    ensures refused { IfErr result (IsReadFault (S.seen store.old).faults (S.seen store.new).faults) }
    ensures leaves { OnlyReads (is_ok result) name.now (S.seen store.old) (S.seen store.new) }
    ensures reads { (S.seen store.new).reads ≡ counted (S.seen store.old).reads }
    ensures commits { S.commits [] store.old store.new }
{
    let mut block = [0u8; 1024];
    let wanted = most.min(1024);
    let count = store.read(name, bytes.len() as u64, &mut block[..wanted])?;
    bytes.extend_from_slice(&block[..count])?;
    Ok(count)
}
