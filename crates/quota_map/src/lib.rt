//! One map from identifiers to records, over the formats vfsold, vfsold32, vfsv0 and vfsv1.
//!
//! The one promise: a file of any format is opened, read whole and written whole as the value that it stands for, and
//! what is told of one format is told of all.
#![tactic(auto)]

mod any_file;
mod file_opening;
pub mod laws;
mod reading;
mod replacing;

pub use any_file::AnyFile;
pub use file_opening::{MOST_BLOCKS, open_file};
pub use reading::read_all;
pub use replacing::replace_file;
