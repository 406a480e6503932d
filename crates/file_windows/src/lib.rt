//! A file of the system through windows: bytes that were read ahead of what was asked for, and bytes that are gathered
//! before they are written, so that small reads and writes side by side make few calls of the system.
//!
//! The one promise: a number of bytes that a read answers fits the buffer.
#![tactic(auto)]

mod kept;
mod opened;
mod read_ahead;
mod recent;
mod whole;
mod window;
mod write_behind;

pub use opened::{Access, Opened, Waiting, no_regular_file};
pub use whole::WholeFiles;
