//! The blocks of a file, of 1,024 bytes each, and the numbers in one.
//!
//! `read_block` reads a block of a file, `le16` to `set_le64` read and write the numbers in one, and a `BlockSet` is a
//! set of a file's blocks. `CheckFault` is why a file of blocks could not be checked, or what is wrong with it.
//!
//! The one promise: a block is the file's bytes at its place, with zeros past the end of the file, and a number that is
//! written changes its own bytes alone.
#![tactic(auto)]

mod block;
mod block_number;
mod block_set;
mod check_fault;

pub use block::{BLOCK, block_of, read_block, whole_block};
pub use block_number::{le16, le32, le64, set_le16, set_le32, set_le64};
pub use block_set::BlockSet;
pub use check_fault::CheckFault;
