ghost use Rattle.std.specs.Prelude.{◌≡◌, false, IsTrue, MatchResult};
ghost use Rattle.option_words.specs.Fault.{fault};
ghost use Rattle.option_words.specs.FileName.{ends_so, is_file_name, is_graphic};
ghost use Rattle.refusals.specs.declared.cause.UsageKind.TheVariants.{BadFileName};
ghost use Rattle.std.specs.List.{list_all};

use crate::Fault;
use refusals::UsageKind;

/// Reads the name of a file.
///
/// # Errors
///
/// `BadFileName` at `word`, the number of the word in its command, where it is none.
pub fn read_file_name(value: &str, word: usize) -> Result<&str, Fault>
    ensures { MatchResult result (λ name. (name.now ≡ value.now) × IsTrue (is_file_name value.now))
        (λ met. (met ≡ fault BadFileName word) × (is_file_name value.now ≡ false)) }
{
    if is_file_name(value) {
        Ok(value)
    } else {
        Err(Fault::at(UsageKind::BadFileName, word))
    }
}

/// Whether a word is the name of a file: 1 to 250 bytes from `!` to `~`, with no ending that the program keeps for
/// itself (`.new`, `.undo` and `.und`).
pub fn is_file_name(word: &str) -> bool
    ensures { result ≡ is_file_name word.now }
{
    let name = word.as_bytes();
    !name.is_empty()
        && name.len() <= 250
        && all_graphic(name)
        && !ends_so(name, b".new")
        && !ends_so(name, b".undo")
        && !ends_so(name, b".und")
}

/// Whether each byte is one from `!` to `~`.
pub fn all_graphic(bytes: &[u8]) -> bool
    ensures { result ≡ list_all is_graphic bytes.now }
{
    bytes.iter().all(|byte| 33 <= *byte && *byte <= 126)
}

fn ends_so(bytes: &[u8], ending: &[u8]) -> bool
    ensures { result ≡ ends_so bytes.now ending.now }
{
    bytes.ends_with(ending)
}
