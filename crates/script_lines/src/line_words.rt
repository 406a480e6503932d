ghost use Rattle.std.specs.Prelude.{◌≡◌, IfOk, string_bytes};
ghost use Rattle.std.specs.Str.{IsUtf8};
ghost use Rattle.option_words.specs.Items.{texts_of};
ghost use Rattle.input_text.specs.Words.{words_of};

use input_text::next_word;
use std::alloc::{AllocError, Global};

/// The words of a line, in order: its longest parts without a space and without a tab.
///
/// # Errors
///
/// There is not enough memory.
pub fn words_of_line(alloc: Global, text: &str) -> Result<Vec<String>, AllocError>
    ensures { IfOk result (λ words. texts_of words.items ≡ words_of text.now) }
{
    let mut words = Vec::new(alloc);
    let mut rest = text.as_bytes();
    while let Some((word, behind)) = next_word(rest) {
        words.push(text_of(alloc, word)?)?;
        rest = behind;
    }
    Ok(words)
}

/// A copy of the text that these bytes are.
///
/// # Errors
///
/// There is not enough memory.
fn text_of(alloc: Global, bytes: &[u8]) -> Result<String, AllocError>
    requires { IsUtf8 bytes.now }
    ensures { IfOk result (λ text. string_bytes text ≡ bytes.now) }
{
    let text = std::str::from_utf8(bytes).unwrap();
    String::from_str(alloc, text)
}
