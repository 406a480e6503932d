//! Whole runs over large inputs in memory.
//!
//! The crate has tests and nothing else. They run as they are built: carried out step by step they would take too long.
#![tactic(auto)]

#[cfg(test)]
mod inputs;
#[cfg(test)]
mod running;
#[cfg(test)]
mod tests;
