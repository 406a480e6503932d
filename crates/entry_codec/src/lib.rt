//! The bytes of headers and entries of tree quota files (vfsv0 and vfsv1).
//!
//! The layout is the one that the quota tools write, byte for byte; every number that is written is little-endian. A
//! file of a big-endian machine has each number the other way round, so headers and entries are read in either order.
//! An entry of zeros is unused. So the record of zeros of identifier 0 is written with an inode timer of 1, by which it
//! is told from an unused entry, and read as zeros again.
//!
//! The one promise: what is read and what is written are the two directions of the tables in `specs/`.
#![tactic(auto)]

mod entry;
mod header;
pub mod laws;
mod layout;

pub use byte_order::{Order, half_at, word_at};
pub use entry::{read_entry, read_id, write_entry};
pub use header::{Header, HeaderFault, read_header, write_header};
pub use layout::{entries_per_block, entry_size};
