//! Rows of look-ups in opened tree files: what they read, what a change between two of them, a store that fails and a
//! file that is damaged behind the opening make of them, and files whose blocks and entries stand in other orders.
//!
//! The crate has tests and nothing else: a row is an element of a constant, and one small function plays all rows of a
//! kind.
#![tactic(auto)]

#[cfg(test)]
mod built_files;
#[cfg(test)]
mod change_rows;
#[cfg(test)]
mod damage_rows;
#[cfg(test)]
mod fault_rows;
#[cfg(test)]
mod moved_blocks;
#[cfg(test)]
mod order_rows;
#[cfg(test)]
mod read_rows;
