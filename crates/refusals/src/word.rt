ghost use Rattle.std.specs.Prelude.{◌≡◌, [], IfOk, string_bytes};

use std::alloc::{AllocError, Global};
use std::marker::Model;

/// A word of a command line, or of a line of an input: a text of its own.
#[derive(Debug, Drop)]
pub struct Word {
    text: String,
}

impl Model for Word {
    ghost use Rattle.std.specs.Prelude.{ℕ, List, string_bytes};

    ghost Value = { List ℕ };

    ghost view = { λ word. string_bytes word.text };
}

impl Word {
    /// The word without a byte.
    pub fn empty(alloc: Global) -> Self
        ensures { result ≡ [] }
    {
        Word {
            text: String::new(alloc),
        }
    }

    /// A copy of a text.
    ///
    /// # Errors
    ///
    /// There is not enough memory.
    pub fn copy_of(alloc: Global, text: &str) -> Result<Self, AllocError>
        ensures { IfOk result (λ word. word ≡ text.now) }
    {
        Ok(Word {
            text: String::from_str(alloc, text)?,
        })
    }

    /// The word that a text is.
    pub fn of(text: String) -> Self
        ensures { result ≡ string_bytes text }
    {
        Word { text }
    }

    /// The text that the word is.
    pub fn into_string(self) -> String
        ensures { string_bytes result ≡ self }
    {
        self.text
    }

    /// The word as a text.
    pub fn as_str(&self) -> &str
        ensures { result.now ≡ self.now }
    {
        self.text.as_str()
    }
}
