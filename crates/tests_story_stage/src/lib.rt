//! What the lines of a story work on: the bytes that were gathered, the files, what the next run meets, and what the
//! last one left; the verbs of lines, and why a line does not hold; and how words are run once, over a store in memory.
//! It is only for tests.
#![tactic(auto)]

mod conditions;
mod files;
mod objects;
mod program;
mod ran;
mod runs;
mod stage;
mod verbs;
mod watched;
mod wrong;

pub use conditions::{Conditions, OBJECTS, Object};
pub use files::{NamedBytes, find, found, has_name, names_left, set};
pub use objects::Streams;
pub use program::Program;
pub use ran::{Last, Ran};
pub use runs::{NEW, run_over, words_of};
pub use stage::Stage;
pub use verbs::{Gather, OfFile, Runs, Set, Tell, VERBS, Verb, by_word};
pub use watched::{Diary, making_calls};
pub use wrong::{Checked, NO_LINE, Wrong, holds_if, instead, is_number, number, unmet};
