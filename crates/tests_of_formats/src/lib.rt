//! Rows of the crates below the program: records, codecs, calls and replies, the outside, lines, flat files, and files
//! of all formats.
//!
//! The crate has tests and nothing else, so that those crates are proved once and not once more with their tests. A row
//! is an element of a constant, and one small function plays all rows of a kind.
#![tactic(auto)]

#[cfg(test)]
mod block_rows;
#[cfg(test)]
mod call_rows;
#[cfg(test)]
mod codec_rows;
#[cfg(test)]
mod flat_rows;
#[cfg(test)]
mod helpers_low;
#[cfg(test)]
mod line_rows;
#[cfg(test)]
mod made_files;
#[cfg(test)]
mod map_rows;
#[cfg(test)]
mod opened_steps;
#[cfg(test)]
mod radix_rows;
#[cfg(test)]
mod reply_rows;
#[cfg(test)]
mod store_rows;
#[cfg(test)]
mod stream_rows;
#[cfg(test)]
mod types_rows;
