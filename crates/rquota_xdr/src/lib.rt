//! Calls and replies of rquota (program 100011, versions 1 and 2) over ONC RPC version 2 (RFC 5531) and XDR (RFC 4506).
//!
//! Every number is a unit of four bytes, the highest byte first. Values of padding, and bytes behind what is read, are
//! not looked at. Nothing here takes memory.
//!
//! The one promise: a datagram asks what the table `call_of` of `specs/` says, and a reply is read exactly where the
//! bytes are its spelling by the table `spelling_of`, which is what is written.
#![tactic(auto)]

mod authentication;
mod call;
mod call_reader;
pub mod laws;
mod reply;
mod units;

pub use call::{Call, Caller, Gids, Span};
pub use call_reader::read_call;
pub use reply::{Quota, Reply, read_reply, write_reply};
