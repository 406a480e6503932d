//! What a program says about itself: which words ask for its help, its version, or how one of its commands is used, and
//! how that is told.
//!
//! The one promise: the words that ask for something are those two words and `--help` behind a name, each with nothing
//! beside it; and a text that is told stands whole in the output, or the status is that of a fault.
#![tactic(auto)]

mod about;
mod commit;
mod telling;

pub use about::{About, tell};
pub use telling::tell_asked;
