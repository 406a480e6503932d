//! What an edit of a quota file sets: the four limits of an identifier, given or copied from another one, the ends of
//! its grace periods, and the grace periods of the file; how numbers and limits are written as words; and the form in
//! which the limits of an identifier are printed, changed by hand and read back.
//!
//! The one promise: an edit of an opened quota file, whatever its format, is the edit of its value in `specs/`; a word
//! is read as a number or as a limit exactly where the grammar in `specs/` gives it one, and then with that value; and
//! a form is read exactly where its lines have the words that are printed, but for the four limits.
#![tactic(auto)]

mod copying;
mod edit;
mod edit_fault;
mod form;
mod form_reading;
mod grace_periods;
mod limits;
mod number;
mod skipped;
mod time_word;
mod times;

pub use copying::copy_limits;
pub use edit::set_limits;
pub use edit_fault::EditFault;
pub use form::print_form;
pub use form_reading::{FormFault, read_form};
pub use grace_periods::set_grace_periods;
pub use limits::Limits;
pub use number::read_limit;
pub use skipped::Skipped;
pub use time_word::TimeWord;
pub use times::set_times;

// A number is read by a call of this crate, too, though it stands below it.
pub use input_text::read_number;
