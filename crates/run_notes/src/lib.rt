//! What the objects outside note and tell of a run for who watches it: the bytes of a text that were taken last, what
//! is waited for, and how far a run is.
//!
//! No clause says anything of them: what they note and tell changes no answer of a call.
#![tactic(auto)]

mod last_text;
mod progress_line;
mod read_count;
mod teller;

pub use last_text::LastText;
pub use progress_line::{ClearedStream, ProgressLine};
pub use read_count::ReadCount;
pub use teller::Teller;
