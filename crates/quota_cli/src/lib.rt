//! What the program does from its words to its status, over any store, input, outputs and link: a command of the
//! command line, or a script of them.
//!
//! The one promise is the contract of [`run::run`]: where nothing outside failed and memory sufficed, a run has the
//! effect of its words and no other.
#![tactic(auto)]

pub mod laws;
pub mod run;
mod script;
