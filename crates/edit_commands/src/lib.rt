//! The commands that edit limits, grace periods and times of a file by words or by a form: `setquota` in all its forms
//! but for `setquota -b`, and `edquota`.
//!
//! The one promise: each of them carries out its steps.
#![tactic(auto)]

mod apply;
mod edit;
mod edit_words;
mod edits;
mod form_input;
pub mod laws;
mod print;
mod warning;

pub use apply::apply_by_word;
pub use edit::EditWords;
pub use edits::edit_by_words;
pub use print::print_by_word;
