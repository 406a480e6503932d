//! Records of RPC in a stream of bytes, as RFC 5531 marks them: a record is one or more fragments, each with a head of
//! four bytes that says how long its body is, and whether it is the record's last one.
//!
//! A `Marker` takes a stream piece by piece, in whatever pieces it comes, and gives one record after another. It takes
//! no memory of the heap.
//!
//! The one promise: the records that a marker gives are those of the stream, whatever its pieces.
#![tactic(auto)]

pub mod laws;
mod marker;
mod step;

pub use marker::Marker;
pub use step::Step;
