//! Rows of tree files: what is checked, built, opened, looked up and changed.
//!
//! The crate has tests and nothing else: a row is an element of a constant, and one small function plays all rows of a
//! kind.
#![tactic(auto)]

#[cfg(test)]
mod big_endian_rows;
#[cfg(test)]
mod build_rows;
#[cfg(test)]
mod check_rows;
#[cfg(test)]
mod grace_rows;
#[cfg(test)]
mod other_records;
#[cfg(test)]
mod plain;
#[cfg(test)]
mod plain_rows;
#[cfg(test)]
mod tree_changes;
#[cfg(test)]
mod tree_files;
#[cfg(test)]
mod tree_rows;
