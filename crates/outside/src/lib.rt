//! What a quota program meets outside itself: files, streams and datagrams.
//!
//! A `Store` holds named files, a `Source` gives bytes, a `Sink` takes text, and a `Link` gives datagrams and takes
//! answers. Each has a count of faults that never falls, and may tell its contents: an object in memory does, and an
//! adapter over the real thing does not.
//!
//! The one promise: a call fails only where its object's count of faults rose, and what is told of the outside stays in
//! step with what was done.
#![tactic(auto)]

mod link;
mod sink;
mod source;
mod store;

pub use link::{Got, Link, LinkFault};
pub use sink::{Sink, SinkFault};
pub use source::{Source, SourceFault};
pub use store::{Store, StoreFault};
