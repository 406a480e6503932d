//! What a quota file stands for, whatever its format: a kind, a format, grace periods, flags, and records by their
//! identifiers.
//!
//! It has no code, and so promises nothing: it is what all crates above it mean by a value.
#![tactic(auto)]
