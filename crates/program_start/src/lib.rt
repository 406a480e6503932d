//! How every program begins: its words, the standard streams that were closed, the causes for which it stops before it
//! has begun, and whether the reason of a status is told, and how.
//!
//! The one promise: where a program stops before it has begun, its status and its error line are those of the cause;
//! and where reasons are not asked for, nothing is added; where the status is 0, no reason is, but there may be a note.
#![tactic(auto)]

mod asked;
mod closed;
mod reason;
mod starting;
mod words;

pub use asked::are_reasons_asked;
pub use closed::hold_closed_streams;
pub use reason::{Failed, Reason, add_note, add_reason, name_in, run_reason};
pub use starting::{starting_cause, stop, words_cause};
pub use words::given_words;
