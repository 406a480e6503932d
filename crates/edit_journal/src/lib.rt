//! A rollback journal, by which a file is changed in place so that a stop of the machine leaves the old file or the new
//! one.
//!
//! Before ranges of a file are written, what the file has there is saved in an undo file beside it, and the gate of the
//! undo file is opened. Once the ranges are kept on the disk the gate is closed. A recovery lays the saved ranges back
//! where it finds the gate open.
//!
//! The words: ranges are *laid* over a file where their bytes take the place of what it has there, and saved ones are
//! laid
//! *back*. A file is *mended* where what its undo file saves is laid back and it is cut to its old length,
//! and *restored* where that is done if the undo file says how it was. It is *recovered* where the gate is closed
//! besides; `recovered` is what that makes of a file and its undo file. It is *settled* where it is recovered and its
//! undo file is there. A *commit* goes from a settled file to another one, by four steps: save, open, write, close.
//!
//! The one promise: at each moment of a commit, whatever a stop may leave recovers to the old file or to the new one.
#![tactic(auto)]

mod change;
mod commit;
mod kept;
pub mod laws;
pub mod names;
mod new_undo;
mod recovery;
mod undo_file;
mod undo_reads;

pub use change::{write_range, write_ranges};
pub use commit::{commit_file, commit_ranges};
pub use kept::KeptRange;
pub use new_undo::{make_undo, ready_undo};
pub use recovery::recover_file;
pub use undo_file::{CLOSED, OPEN, save_range, save_ranges, set_gate};
pub use undo_reads::read_padded;
