//! Why a run ended with another status than 0, in a line for who reads the error line: what is wrong there and what is
//! wanted.
//!
//! [`reason_of`] goes from an error line to its reason, over the tables of `tables.rt`: what the error line does not
//! have, it reads again of the words and of the lines that are at hand. [`program_reason`] does so for the programs
//! that have no commands. [`refused_file_reason`] and [`reply_reason`] tell more of what the system refused, or of a
//! path without a reply, and [`note_of`] of a command that was carried out.
//!
//! The one promise: a reason has no control byte, whatever stands in the words and lines that it shows.
#![tactic(auto)]

mod files;
mod lines;
mod numbers;
mod programs;
mod reasons;
mod tables;
mod text;
mod usages;
mod word_places;

pub use lines::Lines;
pub use programs::{Program, program_reason, reply_reason};
pub use reasons::{note_of, reason_of, refused_file_reason};
