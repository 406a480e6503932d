//! One file in memory, as a store.
//!
//! Many edits of a file can be made so and be written once: the file is read whole, edited in a `OneFile` of its bytes,
//! and then the bytes that this has take the place of the file.
//!
//! The one promise: it does what every store does and tells its file, and a call on that file other than `rename` is
//! refused only where a write makes it longer. That such a write is not where there is enough memory no clause says: a
//! row shows it.
#![tactic(auto)]

mod growing;
mod one_file;

pub use one_file::OneFile;
