//! The runs of a story: words that are run once, with a file instead of the standard input, with each call of an object
//! failing in turn, over a store whose files turn bad, and over a disk that stops at each of its calls; and what judges
//! them. It is only for tests.
#![tactic(auto)]

mod both;
mod comparing;
mod disks;
mod faults;
mod journaled;
mod leaving;
mod made_calls;
mod running;
mod stops;
mod sweeps;
mod torn;
mod turning;

pub use running::run;
