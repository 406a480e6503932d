//! The table of commands: a description of each, and how it is carried out.
//!
//! The one promise: each command that stands alone or in a line of a script is carried out as its description says.
#![tactic(auto)]

mod commands;
pub mod laws;
mod usage;

pub use commands::carry_out;
pub use usage::usage_refusal;
