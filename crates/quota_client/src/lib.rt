//! A client of rquotad, as quota(1) and warnquota(8) are: it asks a server for the limits and the usage of a user under
//! up to sixteen paths, and prints them, or the soft limits that are exceeded.
//!
//! `run_client` is the top call, over a `Peer`, which is the other side of questions by datagrams, and two sinks. It
//! asks for one path after another: `write_call` writes the call, and `ask` sends it up to three times and passes over
//! what is no reply to it. No memory of the heap is taken.
//!
//! The one promise: what is printed of a path is what its own reply says, whichever datagrams are lost, late, doubled
//! or out of order.
#![tactic(auto)]

mod asking;
mod call_writer;
mod client;
mod exchange;
mod fault;
pub mod laws;
mod line;
mod mode;
mod run;
mod usage;
mod words;

pub use call_writer::write_call;
pub use exchange::ask;
pub use run::run_client;

// What the calls of this crate ask is a peer, which is found here with them.
pub use network::{Peer, PeerFault};
