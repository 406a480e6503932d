//! What the system has besides files, as objects outside: streams, datagrams and the moment.
//!
//! They tell nothing of what they hold, count their faults, and note the last one.
#![tactic(auto)]

mod clock;
mod stream_sink;
mod stream_source;
mod udp_link;

pub use clock::moment;
pub use stream_sink::StreamSink;
pub use stream_source::StreamSource;
pub use udp_link::{LinkFailure, UdpLink};
