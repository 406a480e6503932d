//! Reasons of error lines, and the texts that they are made of.
//!
//! The crate has tests and nothing else. A row is an error line with the words of the run, the text that was read and
//! the reason that is wanted; one small function plays all rows of a table.
#![tactic(auto)]

#[cfg(test)]
mod line_rows;
#[cfg(test)]
mod rows;
#[cfg(test)]
mod text_rows;
#[cfg(test)]
mod told_rows;
#[cfg(test)]
mod usage_rows;
