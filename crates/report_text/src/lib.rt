//! The report of a quota file, as `repquota` prints it: a head, and a line for each identifier that is shown.
//!
//! The one promise: what is written is the report of what the file holds, and after a refusal a prefix of it.
#![tactic(auto)]

mod entries;
mod file_report;
mod head;
mod page;
mod period;
mod report_fault;
mod usage;

pub use file_report::report;
pub use period::period_text;
pub use report_fault::ReportFault;

// The options of a report are named with `report`, though words are read without this crate.
pub use report_options::Options;
