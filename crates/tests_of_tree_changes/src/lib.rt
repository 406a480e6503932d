//! Rows of tree files that are changed in place: which blocks a change writes, and what they are then.
//!
//! The crate has tests and nothing else: a row is an element of a constant, and one small function plays all rows of a
//! kind.
#![tactic(auto)]

#[cfg(test)]
mod files;
#[cfg(test)]
mod orders;
#[cfg(test)]
mod plain;
#[cfg(test)]
mod room;
#[cfg(test)]
mod rows;
#[cfg(test)]
mod story;
#[cfg(test)]
mod torn;
