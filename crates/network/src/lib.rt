//! What a quota program meets on the network: connections that it accepts, and a peer that it asks by datagrams.
//!
//! `Conns` are a listener and the one connection of it that is open. A `Peer` is someone who is asked by datagrams, and
//! answers by others. Each object counts its calls that fail, and that count never falls. It may tell its contents too,
//! as one in memory does, and one over a real socket does not. `Conns` always tell whether a connection is open.
//!
//! The one promise: a call fails only where its object's count of faults rose, and what is told of an object is what
//! was done with it.
#![tactic(auto)]

mod conns;
mod peer;

pub use conns::{ConnFault, Conns};
pub use peer::{Peer, PeerFault};
