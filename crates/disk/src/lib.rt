//! A disk, and what a stop of the machine may leave of its files.
//!
//! When the machine stops, each range of a file that was written since the file was last synced, and all past its old
//! end, may hold any bytes, and every other byte is as it was. After a sync that answered Ok a stop leaves that file as
//! it is read. A new file that was not synced since may be missing, and a shortened one may still have any bytes from
//! its new end on. A rename that answered Ok is done, and one that a stop cut off is done or not done. What is read at
//! any moment is one of the things that a stop then may leave.
//!
//! The one promise: what a disk tells of its files, and of what a stop may leave, is in step with what was done.
#![tactic(auto)]

mod disk;
pub mod laws;

pub use disk::{Disk, DiskFault};
