ghost use Rattle.std.specs.Prelude.{◌≡◌, ◌+◌, ◌≤◌, [], IsTrue, OnErr, OnOk, is_ok};
ghost use Rattle.std.specs.List.{swap};
ghost use Rattle.outside.specs.Count.{Rose, counted};
ghost use Rattle.outside.specs.Frame.{OnlyReads};
ghost use Rattle.file_blocks.specs.Block.{block_of};
ghost use Rattle.byte_order.specs.Words.{in_order, turned, words_of};

use crate::Order;
use file_blocks::read_block;
use outside::{Store, StoreFault};

/// Reads a block of a file that is read in an order, and makes little-endian words of it. Bytes past the end of the
/// file are 0. After a fault `block` may hold anything.
///
/// # Errors
///
/// The store failed.
pub fn read_words<S: Store>(
    store: &mut S,
    name: &str,
    number: u32,
    block: &mut [u8; 1024],
    order: Order,
) -> Result<(), StoreFault>
    ensures words { OnOk result (IsTrue S.tells
        → block.new ≡ block_of (words_of order (S.seen store.old).files name.now) number) }
    ensures cause { OnErr result (Rose (S.seen store.old).faults (S.seen store.new).faults) }
    ensures leaves { OnlyReads (is_ok result) name.now (S.seen store.old) (S.seen store.new) }
    ensures reads { (S.seen store.new).reads ≡ counted (S.seen store.old).reads }
    ensures commits { S.commits [] store.old store.new }
{
    read_block(store, name, number, block)?;
    put_in_order(block, order);
    Ok(())
}

/// Makes the words of a block, as they are where it is read in an order, little-endian ones.
pub fn put_in_order(block: &mut [u8; 1024], order: Order)
    ensures { block.new ≡ in_order order block.old }
{
    if order == Order::Big {
        turn(block);
    }
}

/// Turns each word of a block round.
fn turn(block: &mut [u8; 1024])
    ensures { block.new ≡ turned block.old }
{
    for word in 0..256 {
        turn_word(block, 4 * word);
    }
}

/// Turns the four bytes at a place round.
fn turn_word(block: &mut [u8; 1024], at: usize)
    requires { at + 4 ≤ 1024 }
    ensures { block.new ≡ swap (swap block.old at (at + 3)) (at + 1) (at + 2) }
{
    block.swap(at, at + 3);
    block.swap(at + 1, at + 2);
}
