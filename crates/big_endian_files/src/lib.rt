//! Tree files of vfsv0 that a big-endian machine wrote, in which the highest byte of each number stands first.
//!
//! The one promise: what is read of such a file is the value that it stands for, and each of its blocks was checked.
#![tactic(auto)]

mod data_block;
mod leaves;
mod reading;
mod records;

pub use reading::read_big;
