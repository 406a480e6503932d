//! Rows of the client of rquotad: its words, the exchange of calls for replies, what is printed, and what fails.
//!
//! The crate has tests and nothing else, so that the client is proved once and not once more with its tests. A row is a
//! part of a story: a text of lines, which one player carries out over a peer and sinks in memory. A row begins with
//! `= TITLE`.
//!
//! | Line | |
//! |---|---|
//! | `words WORDS` | the words of the run, separated by single spaces; a word `@N` stands for a path of N bytes, and `_` for a blank |
//! | `xid N` | the xid of the first path; 1 where there is no such line |
//! | `quiet`, `quiet N` | an event, or as many, in which no datagram comes |
//! | `datagram PARTS`, `datagrams N PARTS` | a datagram, or as many: a number is a unit of four bytes, `'TEXT` a text with its length and padding, and `*N` N zeros |
//! | `fails OBJECT N` | the call of `peer`, `out` or `err` that fails; there may be such a line for each |
//! | `run` | runs the client |
//! | `sweep OBJECT N` | runs it once with no fault of the object, and then once for each of the N calls of it that this run makes, which fails; each such run stops there, and one more call is not made |
//! | `status N` | the status of the run; 0 where there is no such line |
//! | `> TEXT`, `! TEXT` | the next line of its output, or of its error output |
//! | `sent PARTS` | the next datagram that it sent |
//! | `calls N` | how many datagrams it sent |
//! | `port N` | the port at which the peer was started, once |
//! | `unstarted` | it was not started |
//!
//! An output, an error output or a status but 0 that no line tells fails the row, and so does a line that is misspelt.
#![tactic(auto)]

#[cfg(test)]
mod ask_rows;
#[cfg(test)]
mod call_rows;
#[cfg(test)]
mod fault_rows;
#[cfg(test)]
mod line_rows;
#[cfg(test)]
mod parts;
#[cfg(test)]
mod player;
#[cfg(test)]
mod running;
#[cfg(test)]
mod word_rows;
