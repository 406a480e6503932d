//! Commands as text, so that tests can say what words are read as.
#![tactic(auto)]

mod commands;

pub use commands::shown;
