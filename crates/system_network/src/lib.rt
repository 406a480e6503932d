//! The network as the system has it: connections over TCP, and a peer over UDP, both on 127.0.0.1 alone.
//!
//! They tell nothing of what comes and goes, but whether a connection is open; they count their faults, and note the
//! last one.
#![tactic(auto)]

mod open_connection;
mod tcp_conns;
mod udp_peer;

pub use tcp_conns::TcpConns;
pub use udp_peer::UdpPeer;
