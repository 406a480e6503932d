//! How an opened quota file is seen, and how a file is read and replaced whole.
//!
//! `QuotaFile` is what every format of quota file offers, and `FileUse` what an opened one keeps besides its bytes.
//! `load` reads a whole file and `replace` puts one in the place of another.
//!
//! The one promise: every answer has a cause that the caller can see, and an edit of an opened file is that of the
//! value which it holds.
#![tactic(auto)]

mod file_use;
mod quota_file;
mod replacement;
mod whole_file;

pub use file_use::FileUse;
pub use quota_file::{FileFault, OpenFault, QuotaFile};
pub use replacement::{ReplaceFault, name_of_new, replace};
pub use whole_file::{LoadFault, load};
