//! What is said of a command: its description, and what is shown of each of them.
//!
//! It has no code, and so promises nothing: it is what a crate of commands says of each of its own, and what the table
//! of commands takes from it.
#![tactic(auto)]
