//! The commands over whole files: `repquota`, `quotacheck`, `convertquota` and `generate`.
//!
//! The one promise: each of them carries out its steps.
#![tactic(auto)]

mod check;
mod conversion;
mod file_value;
mod gathered;
mod generate;
mod listing_input;
mod report;

pub use check::check_file;
pub use conversion::convert_file;
pub use generate::generate_file;
pub use report::report_file;
