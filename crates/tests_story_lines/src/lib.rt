//! The lines of a story but those that run words: they gather bytes, set what the next run meets, and say what the last
//! one left. It is only for tests.
#![tactic(auto)]

mod ending;
mod gathering;
mod report_head;
mod setting;
mod telling;

pub use ending::{is_all_told, is_all_used};
pub use gathering::gather;
pub use setting::set_up;
pub use telling::tell;
