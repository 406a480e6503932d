//! What programs that open quota files tell of undo files where that is asked for: why one is not believed, and what
//! came of those that were found with an open gate.
//!
//! The one promise: nothing is told where it is not asked for.
#![tactic(auto)]

mod recoveries;

pub use recoveries::tell_undo_files;
