//! Stories of `script`: rows as text, which the tests of the program carry out.
#![tactic(auto)]

pub mod failing;
pub mod lines;
pub mod refused;
pub mod run;
pub mod serving;
