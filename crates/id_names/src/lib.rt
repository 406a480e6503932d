//! Names of users, groups and projects, from a file in the form of passwd(5), group(5) or projid(5).
//!
//! The one promise: the lines that are read are those that the definitions in `specs/` find in the file's bytes, or the
//! first line that breaks their rules is named; and a look-up, by a name or by an identifier, gives the first line that
//! matches.
#![tactic(auto)]

mod index;
mod line;
mod names_fault;
mod names_file;
mod parts;

pub use names_fault::NamesFault;
pub use names_file::Names;
