//! Replies to rquota calls out of quota files that are exported under paths.
//!
//! Whoever may ask is told limits and usage: the superuser of every identifier, a user of himself, and the members of a
//! group of it; of projects the superuser alone. Whoever may not does not learn whether a path is exported. Answering
//! takes no memory, and nothing is changed by it.
//!
//! The one promise: the reply to a datagram is that of the values which the exported files stand for, and `serve` sends
//! the answers to the given number of datagrams, in their order.
#![tactic(auto)]

mod answering;
mod asking;
mod export;
mod exports;
pub mod laws;
mod new_export;
mod quota;
mod serve_fault;
mod serving;

pub use answering::answer;
pub use exports::{Exports, MOST_EXPORTS};
pub use new_export::{AddFault, NewExport};
pub use quota::quota_of;
pub use serve_fault::ServeFault;
pub use serving::serve;
