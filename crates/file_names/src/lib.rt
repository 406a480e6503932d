//! Files of the system by their names: which file a name stands for, the two that were used last, and what is
//! remembered of names and of files.
//!
//! No clause says anything of them.
#![tactic(auto)]

pub mod looks;
pub mod names;
pub mod new_names;
pub mod slots;
pub mod stamp;
pub mod synced;
