//! Words of command lines, and what they are read as.
//!
//! The crate has tests and nothing else. A row is words and the command that they are read as, or the fault with the
//! number of its word; one small function plays all rows of a table.
#![tactic(auto)]

#[cfg(test)]
mod words;
