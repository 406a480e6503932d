//! What rows of several crates share: a store with one file, opened files made of entries, changes of them, and what
//! they hold. It is only for tests.
#![tactic(auto)]

mod opened_files;

pub use opened_files::{
    Act, get, holds_entries, listed, make, next_after, opened, ordered, store_of,
};
