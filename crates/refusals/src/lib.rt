//! Why a command was not carried out: the causes with their statuses, the words and the places that a refusal is about,
//! and the one writer of error lines.
//!
//! The one promise: the status and the error line of a refusal are those of its cause.
#![tactic(auto)]

mod cause;
mod error_line;
mod piece;
mod pieces;
mod reason;
mod word;

pub use cause::{Cause, CauseGroup, UsageKind};
pub use error_line::{refuse, write_cause, write_error_line};
pub use piece::{Piece, put_pieces, write_line};
pub use reason::{Place, Refusal};
pub use word::Word;
