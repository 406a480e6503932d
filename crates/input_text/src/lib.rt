//! The text of inputs and outputs: the lines of a source, the words of a line, the numbers that words spell, and text
//! that is gathered before it is written.
//!
//! `LineReader` gives the lines of a source, such as a file of a store behind `StoreInput`, `words` the words of a
//! line, `number_in` and `read_number` the number that a word of digits spells, and `TextBuffer` gathers text in front
//! of a sink.
//!
//! The one promise: lines, words and numbers are those of the bytes that a source has, and a sink gets the text that
//! was gathered, in order.
#![tactic(auto)]

mod line_reader;
mod line_words;
mod numeral;
mod store_input;
mod store_source;
mod text_buffer;

pub use line_reader::{LineFault, LineReader};
pub use line_words::{after_words, has_no_word, has_words, next_word, words};
pub use numeral::{number_in, read_number};
pub use store_input::StoreInput;
pub use store_source::StoreSource;
pub use text_buffer::TextBuffer;
