//! What tree quota files mean, vfsv0 and vfsv1, and what may be wrong with one: blocks of 1,024 bytes in a tree by
//! which each identifier's entry is found.
//!
//! The one promise: a file stands for one value at most, and for one exactly where nothing is wrong with it; what is
//! said of the bytes and the entries of a block is so.
#![tactic(auto)]

mod entries;
pub mod entry_laws;
mod entry_places;
pub mod laws;
pub mod steps;

pub use entries::{compare_entries, find_near, find_place, find_record};
pub use entry_places::{clear_entry, put_entry, unused_place, used_count};
