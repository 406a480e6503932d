ghost use Rattle.std.specs.Prelude.{◌≡◌, ◌+◌, ◌*◌, ◌<◌, length, IsTrue, IfNone, IfSome, OnOk, OnErr, is_ok, []};
ghost use Rattle.outside.specs.Count.{Rose, counted};
ghost use Rattle.outside.specs.Frame.{OnlyReads};
ghost use Rattle.file_blocks.specs.Block.{block_of, file_of};

use outside::{Store, StoreFault};

/// How many bytes a block has.
pub const BLOCK: usize = 1024;

/// Reads a block of a file. Bytes past the end of the file are 0. After a fault `block` may hold anything.
pub fn read_block<S: Store>(
    store: &mut S,
    name: &str,
    number: u32,
    block: &mut [u8; 1024],
) -> Result<(), StoreFault>
    ensures bytes { OnOk result (IsTrue S.tells
        → block.new ≡ block_of (file_of (S.seen store.old).files name.now) number) }
    ensures cause { OnErr result (Rose (S.seen store.old).faults (S.seen store.new).faults) }
    ensures leaves { OnlyReads (is_ok result) name.now (S.seen store.old) (S.seen store.new) }
    ensures reads { (S.seen store.new).reads ≡ counted (S.seen store.old).reads }
    ensures commits { S.commits [] store.old store.new }
{
    let count = store.read(name, 1024 * u64::from(number), block)?;
    block[count..].fill(0);
    Ok(())
}

/// The bytes of a block; those past the end of the file are 0.
pub fn block_of(file: &[u8], number: u32) -> [u8; 1024]
    ensures { result ≡ block_of file.now number }
{
    let mut block = [0; BLOCK];
    let rest = &file[file.len().min(BLOCK * number as usize)..];
    let count = rest.len().min(BLOCK);
    block[..count].copy_from_slice(&rest[..count]);
    block
}

/// A block of a file, where the file has all its bytes.
pub fn whole_block(file: &[u8], number: u32) -> Option<&[u8; 1024]>
    ensures value { IfSome result (λ block. block.now ≡ block_of file.now number) }
    ensures none { IfNone result (length file.now < 1024 * number + 1024) }
{
    let rest = file.get(BLOCK * number as usize..)?;
    let block = rest.first_chunk()?;
    Some(block)
}
