//! The step of an edit in an opened file: what it makes of the value, whether the file has room for it, and what is
//! said where it was refused; and for the commands over it, what of that step was done where an edit was made, or was
//! refused.
//!
//! The one promise: a fault of an edit is told by its cause.
#![tactic(auto)]

mod causes;

pub use causes::edit_cause;
