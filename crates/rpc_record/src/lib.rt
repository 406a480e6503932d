//! rquota over TCP: the calls that stand as records in streams are answered out of exported quota files, one connection
//! after another.
//!
//! `serve_stream` serves a given number of connections over `Conns`: it reads the records of each, by a `Marker`, and
//! writes the reply to each as a record of one fragment. No memory is taken.
//!
//! The one promise: what is written on a connection are the answers to the records of its bytes, however its reads are
//! cut.
#![tactic(auto)]

mod connection;
mod heard;
mod hearing;
mod reply;
mod run;
mod serving;
mod stream_fault;

pub use run::run_stream;
pub use serving::serve_stream;
pub use stream_fault::StreamFault;

// What reads records out of streams, and what the calls of this crate ask, is found here with them.
pub use network::{ConnFault, Conns};
pub use rpc_marks::{Marker, Step};
