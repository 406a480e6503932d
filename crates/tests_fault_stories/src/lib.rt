//! Stories of calls that fail, of disks that stop, of damaged files and of datagrams that are cut or too long: rows as
//! text, which the tests of the program carry out.
#![tactic(auto)]

pub mod damages;
pub mod datagrams;
pub mod ends;
pub mod failing_together;
pub mod stops;
pub mod sweeps;
pub mod vfsold32;
