//! New limits of many identifiers, which the lines of an input ask for: `setquota -b`.
//!
//! The one promise: it carries out its steps.
#![tactic(auto)]

mod batch;
mod batch_input;
mod batch_line;
pub mod laws;
mod reached_length;
mod together;

pub use batch::apply_lines;
