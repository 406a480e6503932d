//! The files of the system as a disk, with locks and links.
//!
//! They tell nothing of what they hold, count their faults, and note the last one.
#![tactic(auto)]

mod file_disk;
mod finding;
mod last_read;
mod new_files;
mod open_files;
mod undo_files;

pub use file_disk::{DiskFailure, FileDisk};
