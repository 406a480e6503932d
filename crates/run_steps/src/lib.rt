//! What all commands are made of: the acts of a run, the steps of a command, what it means to carry steps out, and the
//! steps that commands share: the names, the words that stand for identifiers, limits and times, and the opening of a
//! file.
//!
//! The one promise: each helper meets its step.
#![tactic(auto)]

mod file_causes;
mod input_line;
mod invocation;
pub mod laws;
mod naming;
mod numbers;

pub use file_causes::{file_cause, opening_cause};
pub use input_line::says_nothing;
pub use invocation::Invocation;
pub use naming::{load_cause, read_names};
pub use numbers::{read_grace, read_identifier, read_limits, read_time};
