//! The lines of a script: which of them are commands, and the words of one.
//!
//! The one promise: what is read is what the script says, up to the first line that is refused.
#![tactic(auto)]

mod line;
mod line_words;
mod reading;
mod script;

pub use line_words::words_of_line;
pub use reading::read_script;
pub use script::{Script, ScriptFault, ScriptLine};
