//! Tree quota files, vfsv0 and vfsv1: blocks of 1,024 bytes in a tree by which each identifier's entry is found.
//!
//! The one promise: a file that is opened was checked, and so stands for a map from identifiers to records, with every
//! block in one role; and an opened file is that map, which its changes change.
#![tactic(auto)]

mod coming;
mod finishing;
mod grace_change;
mod in_place;
pub mod laws;
mod lookup;
mod opened_tree;
mod tree_opening;

pub use opened_tree::TreeFile;
pub use tree_opening::{check_tree, open_tree};

// The check and the building of a tree file are calls of this crate, though they stand below it.
pub use file_blocks::CheckFault;
pub use tree_build::{BuildFault, build};
pub use tree_check::{Checked, check};
