ghost use Rattle.std.specs.Prelude.{◌≡◌, false, true, IfOk, MatchOption};
ghost use Rattle.std.specs.Str.{is_utf8};
ghost use Rattle.script_lines.specs.Script.{line_says, script_refusal};
ghost use Rattle.script_lines.specs.ScriptReading.{line_outcome};
ghost use Rattle.script_lines.specs.declared.line.ScriptLineRead.TheVariants.{Refused as Faulty};

use crate::ScriptLine;
use refusals::{Cause, Refusal, Word};
use run_steps::says_nothing;
use std::alloc::{AllocError, Global};

/// What refusals call a script.
const SCRIPT: &str = "script";

/// What a line of a script says.
#[derive(Debug, Drop)]
pub enum ScriptLineRead {
    /// Nothing: it is a comment, or has no words.
    Nothing,
    /// A command.
    Line(ScriptLine),
    /// It is refused.
    Refused(Refusal),
}

/// Reads the line of this number.
///
/// # Errors
///
/// There is not enough memory.
pub fn read_line(alloc: Global, number: u64, line: &[u8]) -> Result<ScriptLineRead, AllocError>
    ensures { IfOk result (λ read. line_says number line.now ≡ line_outcome read) }
{
    if says_nothing(line) {
        return Ok(ScriptLineRead::Nothing);
    }
    match as_text(line) {
        Some(text) => {
            let text = String::from_str(alloc, text)?;
            Ok(ScriptLineRead::Line(ScriptLine { number, text }))
        }
        None => refused_script(alloc, Cause::BadLine(number)),
    }
}

/// A line as text, or `None` where it is not UTF-8.
fn as_text(line: &[u8]) -> Option<&str>
    ensures { MatchOption result (is_utf8 line.now ≡ false)
        (λ text. (is_utf8 line.now ≡ true) × (text.now ≡ line.now)) }
{
    match std::str::from_utf8(line) {
        Ok(text) => Some(text),
        Err(_) => None,
    }
}

/// The refusal of a script itself.
///
/// # Errors
///
/// There is not enough memory.
pub fn refused_script(alloc: Global, cause: Cause) -> Result<ScriptLineRead, AllocError>
    ensures { IfOk result (λ read. read ≡ Faulty (script_refusal cause)) }
{
    let name = Word::copy_of(alloc, SCRIPT)?;
    Ok(ScriptLineRead::Refused(Refusal::of(cause, name)))
}
