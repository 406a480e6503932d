//! Rows of what is done with whole files: conversions, and of rquota_serve quotas of records, exports, replies to
//! datagrams, and datagrams that are served over a link.
//!
//! The crate has tests and nothing else, so that these crates are proved once and not once more with their tests. A row
//! is an element of a constant, and one small function plays all rows of a kind.
#![tactic(auto)]

#[cfg(test)]
mod answer_rows;
#[cfg(test)]
mod convert_rows;
#[cfg(test)]
mod cut_rows;
#[cfg(test)]
mod export_rows;
#[cfg(test)]
mod exported;
#[cfg(test)]
mod parts;
#[cfg(test)]
mod quota_rows;
#[cfg(test)]
mod serve_rows;
