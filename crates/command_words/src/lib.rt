//! The command that the words of a command line ask for.
//!
//! The one promise: `read_words` answers the command of the words, or their first fault.
#![tactic(auto)]

mod building;
mod command;
mod copies;
mod mode;
mod reading;

pub use command::{Command, Common};
pub use reading::{UsageFault, read_words};
