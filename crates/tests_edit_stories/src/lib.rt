//! Stories of `setquota` and `edquota`: rows as text, which the tests of the program carry out.
#![tactic(auto)]

pub mod applied;
pub mod batches;
pub mod edits;
pub mod ended_batches;
pub mod forms;
pub mod limits;
pub mod projects;
pub mod refused_bounds;
pub mod refused_forms;
pub mod refused_lines;
pub mod together;
pub mod together_bounds;
pub mod vfsold32;
