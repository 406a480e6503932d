//! A quota file in another format: vfsold, vfsold32, vfsv0 or vfsv1.
//!
//! The one promise: `convert` makes a new file with the same grace periods and with what the new format keeps of each
//! record that limits or counts something, or names the first cause for which it cannot, and then has written nothing.
#![tactic(auto)]

mod convert_fault;
mod converting;
mod keeping;
mod source;

pub use convert_fault::ConvertFault;
pub use converting::convert;
