//! Rows of streams: which records a marker gives of a stream, however that is cut into pieces, and what is written on
//! connections that are served.
//!
//! The crate has tests and nothing else, so that what it tests is proved once and not once more with its tests. A row
//! is an element of a constant, and one small function plays all rows of a kind.
#![tactic(auto)]

#[cfg(test)]
mod calls;
#[cfg(test)]
mod cut_rows;
#[cfg(test)]
mod damage_rows;
#[cfg(test)]
mod marker_rows;
#[cfg(test)]
mod parts;
#[cfg(test)]
mod run_rows;
#[cfg(test)]
mod running;
#[cfg(test)]
mod short_reads;
#[cfg(test)]
mod stream_rows;
#[cfg(test)]
mod turning;
#[cfg(test)]
mod word_rows;
