//! Stories of `repquota`, `quotacheck`, `convertquota`, `generate`, `rquotad`, names and the calls of the store: rows
//! as text, which the tests of the program carry out.
#![tactic(auto)]

pub mod calls;
pub mod checked;
pub mod conversions;
pub mod ended_checks;
pub mod generated;
pub mod names;
pub mod new_files;
pub mod projects;
pub mod refused_conversions;
pub mod refused_listings;
pub mod reports;
pub mod served;
pub mod served_projects;
pub mod summed;
pub mod trees;
pub mod turned;
pub mod vfsold32;
