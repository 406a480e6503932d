use crate::objects::Streams;
use outside::Store;
use std::alloc::Global;

/// The program that a story is about.
pub trait Program {
    /// Runs words over a store and the other objects at a moment, in seconds since 1970, and answers the exit status.
    fn run<S: Store>(
        &self,
        alloc: Global,
        words: &[String],
        store: &mut S,
        streams: &mut Streams,
        now: u64,
    ) -> u8;
}
