//! Rows of a disk in memory and what a stop leaves of it, of a store that changes files on it through a journal, and of
//! what a recovery leaves of undo files.
//!
//! The crate has tests and nothing else. A row is a list of steps over a disk with a few files, and one small function
//! takes a step; or it is an undo file and what is left of it.
#![tactic(auto)]

#[cfg(test)]
mod disk_rows;
#[cfg(test)]
mod recovery_rows;
#[cfg(test)]
mod store_rows;
