//! The check of a tree quota file, vfsv0 or vfsv1: whether it stands for a map, and if not, what is wrong with it.
//!
//! The one promise: a file that is checked stands for a map from identifiers to records, with every block in one role,
//! and what is said to be wrong with a file is wrong with it.
#![tactic(auto)]

mod block_check;
mod checked;
mod checking;
mod data;
mod groups;
mod lists;
mod marking;
mod roles;

pub use checked::Checked;
pub use checking::{check, check_length};
