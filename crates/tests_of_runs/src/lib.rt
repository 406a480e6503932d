//! Whole runs over objects in memory, as stories.
//!
//! The crate has tests and nothing else, so that quota_cli is proved once, and nothing that the program stands on
//! stands on the player of stories or on their texts.
#![tactic(auto)]

#[cfg(test)]
mod edit_tests;
#[cfg(test)]
mod fault_tests;
#[cfg(test)]
mod file_tests;
#[cfg(test)]
mod link_tests;
#[cfg(test)]
mod playing;
#[cfg(test)]
mod script_tests;
