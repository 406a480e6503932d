//! What programs that answer calls out of quota files are made of: the files that words name are exported under their
//! paths, one after another, and what is said where one is not, or where calls are not answered.
//!
//! The one promise: each helper meets its step.
#![tactic(auto)]

mod causes;
mod exporting;

pub use causes::{first_file, serve_cause};
pub use exporting::add_all;
