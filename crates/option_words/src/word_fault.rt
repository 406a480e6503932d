ghost use Rattle.std.specs.Prelude.{◌≡◌};
ghost use Rattle.option_words.specs.Fault.{fault};

use refusals::UsageKind;

/// What is wrong with words.
#[derive(Clone, Copy, Debug, PartialEq, Eq)]
pub struct Fault {
    /// What is wrong.
    pub kind: UsageKind,
    /// The number of the word, counted from 0.
    pub word: u64,
}

impl Fault {
    /// What is wrong at a word.
    pub fn at(kind: UsageKind, word: usize) -> Self
        ensures { result ≡ fault kind word }
    {
        Fault {
            kind,
            word: word as u64,
        }
    }
}
