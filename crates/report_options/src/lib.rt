//! How a report is made, as words ask for it and the report takes it.
//! It has no function, and so promises nothing.
#![tactic(auto)]

mod options;

pub use options::Options;
