//! A buffer of pages over one file of a store, so that a file of blocks can be changed in place.
//!
//! `Pages` keeps up to twelve blocks of 1,024 bytes: `peek` lends one for reading, `page` lends one for writing, and
//! `flush` writes those that were lent for writing. It takes no memory of the heap.
//!
//! The one promise: what the buffer and the file show together changes by what callers leave in the pages that they
//! were lent for writing, and a flush makes the file what was shown.
#![tactic(auto)]

mod held_blocks;
pub mod laws;
mod page_buffer;
mod page_write;

pub use page_buffer::Pages;
