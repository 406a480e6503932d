ghost use Rattle.std.specs.Prelude.{IfOk, IfSome, IsTrue, string_bytes};
ghost use Rattle.std.specs.List.{list_all};
ghost use Rattle.error_lines.specs.Shown.{is_printed};

use error_lines::shown;
use std::alloc::{AllocError, Global};

/// How many bytes of a word or a line are shown at most.
const MOST: usize = 200;

/// The text of a reason while it is put together. Its bytes are not escaped yet.
#[derive(Drop)]
pub(crate) struct Text {
    bytes: Vec<u8>,
}

impl Text {
    /// No text.
    pub fn new(alloc: Global) -> Self {
        Text {
            bytes: Vec::new(alloc),
        }
    }

    /// All its bytes.
    pub fn as_bytes(&self) -> &[u8] {
        self.bytes.as_slice()
    }

    /// All of it as it may be shown, where it is known.
    pub fn shown_where(&self, alloc: Global, is_known: bool) -> Result<Option<String>, AllocError>
        ensures { IfOk result (λ text. IfSome text (λ text. IsTrue (list_all is_printed (string_bytes text)))) }
    {
        if !is_known {
            return Ok(None);
        }
        Ok(Some(shown(alloc, self.as_bytes(), usize::MAX)?))
    }

    /// Puts a piece behind it.
    pub fn put(&mut self, piece: &str) -> Result<(), AllocError> {
        self.bytes.extend_from_slice(piece.as_bytes())
    }

    /// Puts pieces behind it, one after another.
    pub fn put_all(&mut self, pieces: &[&str]) -> Result<(), AllocError> {
        for piece in pieces {
            self.put(piece)?;
        }
        Ok(())
    }

    /// Puts a word or a line behind it, of a long one the front.
    pub fn put_shown(&mut self, shown: &[u8]) -> Result<(), AllocError> {
        match shown.get(..MOST) {
            Some(front) if front.len() < shown.len() => {
                self.bytes.extend_from_slice(front)?;
                self.put("...")
            }
            _ => self.bytes.extend_from_slice(shown),
        }
    }

    /// Puts a word behind it, and what is said of that.
    pub fn put_of(&mut self, word: &str, said: &str) -> Result<(), AllocError> {
        self.put_shown(word.as_bytes())?;
        self.put(": ")?;
        self.put(said)
    }
}
