//! Rows of names, listings, edits, forms, periods and reports.
//!
//! The crate has tests and nothing else: a row is an element of a constant, and one small function plays all rows of a
//! kind.
#![tactic(auto)]

#[cfg(test)]
mod apply_rows;
#[cfg(test)]
mod edit_rows;
#[cfg(test)]
mod edits;
#[cfg(test)]
mod form_rows;
#[cfg(test)]
mod limit_rows;
#[cfg(test)]
mod names_rows;
#[cfg(test)]
mod period_rows;
#[cfg(test)]
mod report_rows;
#[cfg(test)]
mod reports;
#[cfg(test)]
mod scan_rows;
#[cfg(test)]
mod times_rows;
