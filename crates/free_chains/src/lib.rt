//! The lists of blocks of a tree quota file: each goes from its head on by the links of its blocks.
//!
//! `walk_chain` follows a list from the file. The other calls change the lists of a file through a buffer of its pages:
//! `take_block` and `give_block` that of the free blocks, which `count_free` counts, `enter_entry_list` and
//! `leave_entry_list` that of the data blocks that have room.
//!
//! The one promise: a walk that ends has met the blocks of the list, each once, and one that cannot go on tells where
//! the list leads: past the last block, or to one of its blocks again. A call that changes a list says which blocks it
//! changed, and which list there is then.
#![tactic(auto)]

mod block_links;
mod chain;
mod chain_fault;
mod chain_link;
mod entry_list;
mod free_count;
mod free_list;
mod heads;
pub mod laws;

pub use chain::{Walk, walk_chain};
pub use chain_fault::ChainFault;
pub use chain_link::ChainLink;
pub use entry_list::{enter_entry_list, leave_entry_list};
pub use free_count::count_free;
pub use free_list::{give_block, take_block};
pub use heads::Heads;
