//! Named files over a disk, of which one at a time is changed in place, so that a stop of the machine leaves the old
//! file or the new one.
//!
//! What is written into a file that is there is kept in memory, and goes to the disk as a whole where the file is
//! synced, by the journal of `edit_journal`. A file is recovered before anything is read of it or written into it.
//!
//! The one promise: what a `JournalStore` tells of its files stays in step with what was done, and whatever a stop may
//! leave of a file recovers to the one before a call or to the one after it, but for a file that is made anew or
//! written under a name in `.new`, until it is synced.
#![tactic(auto)]

mod calls;
mod journal;
mod journal_store;
mod kinds;
pub mod laws;
mod overlay;

pub use journal_store::JournalStore;
pub use kinds::NameKind;
