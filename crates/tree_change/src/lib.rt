//! The steps by which one record is put into a tree quota file in place, or removed from it, block by block, over a
//! buffer of its pages.
//!
//! The one promise: where what is shown is a tree with some things loose, each step leaves a tree with those loose that
//! it says, at the heads that it says, with the same records, with the one that it puts, or without the one that it
//! removes. A step says how many pages it uses at most, and one that is refused leaves the heads as they were.
#![tactic(auto)]

mod adding;
mod change_fault;
mod clearing;
mod entering;
mod fresh;
mod header_block;
pub mod laws;
mod leading;
mod overwriting;
mod putting;
mod recording;
mod removal;
mod removing;
mod room;
mod unlinking;
mod writing;

pub use adding::add_block;
pub use change_fault::ChangeFault;
pub use clearing::{Cleared, clear_record};
pub use entering::enter_record;
pub use fresh::take_fresh;
pub use header_block::set_heads;
pub use leading::lead_to;
pub use overwriting::overwrite_record;
pub use putting::put_in;
pub use recording::put_record;
pub use removal::remove_record;
pub use removing::remove_entry;
pub use room::has_room;
pub use unlinking::unlink_leaf;
pub use writing::write_record;
