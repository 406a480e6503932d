ghost use Rattle.std.specs.Prelude.{◌≡◌};
ghost use Rattle.refusals.specs.Refusals.{nowhere, refusal_of};

use crate::{Cause, Word};

/// The lines that a refusal stands in.
#[derive(Clone, Copy, Debug, PartialEq, Eq)]
pub struct Place {
    /// The line of a script in which the command stands, counted from 1, if it stands in one.
    pub line: Option<u64>,
    /// The line of an input in which what was refused stands, counted from 1, if it stands in one.
    pub input_line: Option<u64>,
}

impl Place {
    /// Neither a line of a script nor one of an input.
    pub fn nowhere() -> Self
        ensures { result ≡ nowhere }
    {
        Place {
            line: None,
            input_line: None,
        }
    }
}

/// Why a command was not carried out, the file or the word that it is about, and where it stands.
#[derive(Debug, Drop)]
pub struct Refusal {
    /// Why.
    pub cause: Cause,
    /// The file or the word; empty where the cause is about none.
    pub name: Word,
    /// The lines that it stands in.
    pub place: Place,
}

impl Refusal {
    /// A refusal that stands in no line.
    pub fn of(cause: Cause, name: Word) -> Self
        ensures { result ≡ refusal_of cause name }
    {
        Refusal {
            cause,
            name,
            place: Place::nowhere(),
        }
    }
}
