//! The outside in memory: files, streams and datagrams that tell all that they have, and that fail where they are asked
//! to.
//!
//! Each object fails in the calls whose numbers it was given, counted from 1, and in no other call, unless there is not
//! enough memory.
//!
//! The one promise: an object in memory does what every object of the outside does, and tells it.
#![tactic(auto)]

mod failures;
mod mem_link;
mod mem_sink;
mod mem_source;
mod mem_store;
mod name_set;
mod named_files;

pub use failures::Failures;
pub use mem_link::MemLink;
pub use mem_sink::MemSink;
pub use mem_source::MemSource;
pub use mem_store::MemStore;
pub use name_set::NameSet;
pub use named_files::NamedFiles;
