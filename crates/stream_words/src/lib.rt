//! The words of a run over streams: PORT CONNECTIONS FORMAT, and 1 to 16 times PATH KIND FILE.
//!
//! The one promise: what is read of words, and the first fault in them, are those of the grammar.
#![tactic(auto)]

mod copies;
mod words;

pub use copies::copy_exports;
pub use words::{StreamWords, read_words};
