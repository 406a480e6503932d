//! The bytes of a whole new tree quota file, vfsv0 or vfsv1, out of its header's values and its entries.
//!
//! The one promise: a built file stands for the map of its list, and has as few blocks as can be.
#![tactic(auto)]

mod build_fault;
mod building;
pub mod laws;
mod needed;
mod new_data;
mod new_file;
mod new_tree;

pub use build_fault::BuildFault;
pub use building::build;
pub use needed::Needed;
