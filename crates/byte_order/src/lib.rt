//! The numbers of a quota file that a machine of either byte order wrote.
//!
//! Quota files are little-endian, but a big-endian machine may have written its numbers the other way round. `u16_at`,
//! `u32_at` and `u64_at` read a number of any bytes in an `Order`, `half_at` and `word_at` one of a block. Where all
//! that is read are numbers of four bytes, such as references and links, the whole file can be seen as little-endian
//! words instead: those are a definition, `in_order`, and `put_in_order` makes them of a block.
//!
//! The one promise: a number is that of its bytes in the order, and read so is each word of the file what the
//! little-endian words have in its place, also one that the file's end cuts.
#![tactic(auto)]

mod big_endian;
pub mod laws;
mod number;
mod order;
mod words;

pub use number::{half_at, u16_at, u32_at, u64_at, word_at};
pub use order::Order;
pub use words::{put_in_order, read_words};
