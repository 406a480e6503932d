//! The command `rquotad`: quota files are exported under paths, and a given number of rquota calls is answered out of
//! them.
//!
//! The one promise: it carries out its steps. No memory is taken from the first datagram on.
#![tactic(auto)]

pub mod laws;
mod serve;

pub use serve::serve_files;
