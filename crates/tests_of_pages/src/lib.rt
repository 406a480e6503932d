//! Rows of a buffer of pages, and of what changes and reads a file through one: the lists of its blocks, and its tree.
//!
//! The crate has tests and nothing else. A row is an element of a constant, and one small function plays all rows of a
//! kind: once over a store that does not fail, and then again for each call of the store that may fail, with a call
//! that failed made again.
#![tactic(auto)]

#[cfg(test)]
mod list_rows;
#[cfg(test)]
mod page_rows;
#[cfg(test)]
mod tree_rows;
