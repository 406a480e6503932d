//! The flat quota files (vfsold and vfsold32): a table of records, of 40 bytes or of 32, indexed by identifier.
//!
//! The layouts are those that the quota tools write on 64-bit x86 (vfsold) and on 32-bit x86 (vfsold32), byte for byte;
//! they differ in the width of the two times of a record, which is 8 bytes or 4. Record 0 has two roles: its two times
//! are the file's grace periods, and the rest of it is the record of identifier 0, which has no timers.
//!
//! The one promise: an opened flat file is the map that its bytes stand for, is opened exactly where they stand for
//! one, and after a change the named file stands for the changed map; a file that is built stands for the map of its
//! list.
#![tactic(auto)]

mod building;
mod flat_change;
mod flat_file;
mod flat_opening;
mod flat_record;
pub mod laws;
mod slot;
mod slot_file;
mod window;

pub use building::build_v1;
pub use flat_file::V1File;
pub use flat_opening::open_v1;
