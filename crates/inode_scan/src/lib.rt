//! The usage of identifiers from a listing of inodes, as `find -printf '%U %G %D %i %b\n'` of find(1) prints one, and
//! the records of a quota file with that usage.
//!
//! The one promise: `scan` gives the sums over the first lines of all inodes of the listing, or the first fault of the
//! listing. `apply` gives the records with that usage, or the least identifier with a value that the format has no room
//! for. Both are as the definitions in `specs/` say.
#![tactic(auto)]

mod applying;
mod firsts;
mod generated;
mod inode;
mod narrow;
mod row;
mod scan_fault;
mod scanning;
mod sums;
mod tally;
mod usage;
mod used;
mod wanted;

pub use applying::apply;
pub use generated::Generated;
pub use scan_fault::{ApplyFault, ScanFault};
pub use scanning::scan;
pub use usage::Usage;
pub use used::Used;
