//! Files of the system that are locked: how one is locked, alone or beside others, how another program's lock is waited
//! for, and which files are held.
//!
//! No clause says anything of them.
#![tactic(auto)]

pub mod failed;
pub mod held;
pub mod locks;
pub mod sharing;
