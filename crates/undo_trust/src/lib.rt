//! The files that stand beside quota files, under names that other accounts could have made: how they are opened, which
//! undo files are believed, and who may use what is made.
//!
//! No clause says anything of them.
#![tactic(auto)]

pub mod beside;
pub mod gates;
pub mod owner;
pub mod trust;
pub mod undo;
pub mod undone;
