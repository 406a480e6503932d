//! Laws of the steps by which a tree file is changed block by block: what each makes of a tree with what is loose of
//! it. A leaf counts as one from the moment its entry is written, before a path leads to it, and until its entry is
//! cleared.
//!
//! The one promise: an entry that is written, overwritten or cleared, and a leaf that is unlinked, leave a tree whose
//! records are those before with this one, or without it, and of which no more is loose than is said.
#![tactic(auto)]

pub mod clearing;
pub mod first_entry;
pub mod keeping;
pub mod unlinking;
pub mod writing;
