//! The network in memory: connections and a peer that tell all that they have, and that fail where they are asked to.
//!
//! Each object fails in the calls whose numbers it was given, counted from 1, and in no other call, unless nothing is
//! left to accept or to receive, or there is not enough memory for what is written or sent.
//!
//! The one promise: an object in memory does what every object of the network does, and tells it.
#![tactic(auto)]

mod kept_connection;
mod mem_conns;
mod mem_peer;

pub use mem_conns::MemConns;
pub use mem_peer::MemPeer;
