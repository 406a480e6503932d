//! Error lines, read back into their parts, and texts as they may be shown on a terminal.
//!
//! The one promise: the parts that are read of a line are those of which it was written, and what is shown has no
//! control byte.
#![tactic(auto)]

mod escapes;
mod pieces;
mod reading;

pub use escapes::shown;
pub use reading::{ErrorLine, Said, read_error_line};
