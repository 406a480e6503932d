//! A disk in memory, for tests: it tells its files and what a stop of the machine may leave of them, fails at given
//! calls, and can be stopped at one of them.
//!
//! The one promise: it does what every disk does and tells it, and whatever a stop may make of a call is told of it.
#![tactic(auto)]

mod disk_call;
mod mem_disk;
mod recorded;

pub use mem_disk::MemDisk;
