ghost use Rattle.std.specs.Prelude.{IfOk, IfSome, IsTrue, string_bytes};
ghost use Rattle.std.specs.List.{list_all};
ghost use Rattle.error_lines.specs.Shown.{is_printed};

use crate::files::{FileWords, put_file_reason, put_irregular};
use crate::lines::{LineFault, Lines, line_at, put_conflict, put_line_reason};
use crate::numbers::{NumberPlace, put_name_reason, put_number_reason};
use crate::tables::NO_LINE;
use crate::text::Text;
use crate::usages::{Words, put_usage_reason, setting_of};
use error_lines::{ErrorLine, Said, read_error_line};
use input_text::{next_word, number_in};
use option_words::{Setting, Tool};
use std::alloc::{AllocError, Global};

/// Why a run was refused, by its error line without the newline: what is wrong with the words or the line that it
/// speaks of, and what is wanted there; none where no more is known than the error line has.
///
/// # Errors
///
/// There is not enough memory.
pub fn reason_of<L: Lines>(
    alloc: Global,
    error_line: &[u8],
    words: &[String],
    lines: &L,
) -> Result<Option<String>, AllocError>
    ensures printed { IfOk result (λ reason. IfSome reason (λ text. IsTrue (list_all is_printed (string_bytes text)))) }
{
    let Some(read) = read_error_line(error_line) else {
        return Ok(None);
    };
    let mut text = Text::new(alloc);
    let is_known = put_reason(alloc, &mut text, &read, words, lines, None)?;
    text.shown_where(alloc, is_known)
}

/// Why the system refused a file that the words name, in these words of the system, by the error line without the
/// newline: what to do, where more is known than that.
///
/// # Errors
///
/// There is not enough memory.
pub fn refused_file_reason<L: Lines>(
    alloc: Global,
    error_line: &[u8],
    words: &[String],
    lines: &L,
    file: &str,
    why: &str,
) -> Result<Option<String>, AllocError>
    ensures printed { IfOk result (λ reason. IfSome reason (λ text. IsTrue (list_all is_printed (string_bytes text)))) }
{
    let Some(read) = read_error_line(error_line) else {
        return Ok(None);
    };
    let mut text = Text::new(alloc);
    let refused = RefusedFile { file, why };
    let is_told = put_reason(alloc, &mut text, &read, words, lines, Some(refused))?;
    text.shown_where(alloc, is_told)
}

/// What there is to note of a command that was carried out with status 0: that the listing of `quotacheck` had no line
/// of an inode.
///
/// # Errors
///
/// There is not enough memory.
pub fn note_of<L: Lines>(
    alloc: Global,
    words: &[String],
    lines: &L,
) -> Result<Option<String>, AllocError>
    ensures printed { IfOk result (λ note. IfSome note (λ text. IsTrue (list_all is_printed (string_bytes text)))) }
{
    let Some(name) = words.first() else {
        return Ok(None);
    };
    if Tool::named(name.as_str()) != Some(Tool::Quotacheck) {
        return Ok(None);
    }
    let input = setting_of(words, Setting::Input);
    if !lines.are_blank_of(input) {
        return Ok(None);
    }
    let mut text = Text::new(alloc);
    text.put_of(input.unwrap_or("input"), NO_LINE)?;
    text.shown_where(alloc, true)
}

/// A file that the system refused.
#[derive(Clone, Copy)]
struct RefusedFile<'a> {
    /// The file.
    file: &'a str,
    /// Why, in words of the system.
    why: &'a str,
}

/// Puts the reason of an error line, of a file that the system refused where there is one, and answers whether more is
/// known. Of a command in a script its words are those of the script's line.
fn put_reason<L: Lines>(
    alloc: Global,
    text: &mut Text,
    read: &ErrorLine<'_>,
    words: &[String],
    lines: &L,
    refused: Option<RefusedFile<'_>>,
) -> Result<bool, AllocError> {
    let Some(number) = read.line else {
        let words = Words {
            all: words,
            in_script: false,
        };
        return put_told(text, read, words, lines, refused);
    };
    let Some(line) = line_at(lines, None, number) else {
        return Ok(false);
    };
    let words = words_in(alloc, line)?;
    let words = Words {
        all: words.as_slice(),
        in_script: true,
    };
    put_told(text, read, words, lines, refused)
}

/// Puts the reason of what is said, or of a file that the system refused, and answers whether there is one.
fn put_told<L: Lines>(
    text: &mut Text,
    read: &ErrorLine<'_>,
    words: Words<'_>,
    lines: &L,
    refused: Option<RefusedFile<'_>>,
) -> Result<bool, AllocError> {
    match refused {
        Some(RefusedFile { file, why }) => {
            let file = file.as_bytes();
            put_irregular(text, FileWords::of(words, file), file, why)
        }
        None => put_said(text, read, words, lines),
    }
}

/// Puts the reason of what is said, and answers whether there is one.
fn put_said<L: Lines>(
    text: &mut Text,
    read: &ErrorLine<'_>,
    words: Words<'_>,
    lines: &L,
) -> Result<bool, AllocError> {
    match read.said {
        Said::Usage { kind, word } => {
            put_usage_reason(text, words, kind, number_in(word).unwrap_or(0))?
        }
        Said::UnknownName(name) => {
            put_input_line(text, read, words.all, lines)?;
            put_name_reason(text, words.all, name)?
        }
        Said::BadNumber(number) => {
            put_input_line(text, read, words.all, lines)?;
            put_number_reason(text, number_place(read, words.all, lines), number)?
        }
        Said::BadForm(line) => {
            put_form_line(text, words.all, lines, line)?;
            text.put(
                "the lines that edquota --print has written are wanted, with four limits in them",
            )?
        }
        Said::BadLine { input, line } => {
            put_line_reason(text, words.all, lines, input, line, LineFault::Bad)?
        }
        Said::LongLine { input, line } => {
            put_line_reason(text, words.all, lines, input, line, LineFault::Long)?
        }
        Said::Conflict { input, line, .. } => put_conflict(text, lines, input, line)?,
        Said::OfFile { file, what } => {
            return put_file_reason(text, FileWords::of(words, file), file, what);
        }
        Said::Other(b"want of memory") => {
            text.put("free memory, or raise the limit of the process (ulimit -v)")?
        }
        Said::Other(_) => return Ok(false),
    }
    Ok(true)
}

/// Puts the line of an input in which what was refused stands, where that is said and it is at hand.
fn put_input_line<L: Lines>(
    text: &mut Text,
    read: &ErrorLine<'_>,
    words: &[String],
    lines: &L,
) -> Result<(), AllocError> {
    match read.input_line {
        Some(number) => put_form_line(text, words, lines, number),
        None => Ok(()),
    }
}

/// Where the number stands that was refused.
fn number_place<'a, L: Lines>(
    read: &ErrorLine<'_>,
    words: &'a [String],
    lines: &'a L,
) -> NumberPlace<'a> {
    match read.input_line {
        Some(number) => NumberPlace::Line(form_line(words, lines, number)),
        None => NumberPlace::Words(words),
    }
}

/// The line of this number of the input that words name, where it is at hand.
fn form_line<'a, L: Lines>(words: &[String], lines: &'a L, number: &[u8]) -> Option<&'a [u8]> {
    line_at(lines, setting_of(words, Setting::Input), number)
}

/// Puts the line of this number of the input that words name, where it is at hand.
fn put_form_line<L: Lines>(
    text: &mut Text,
    words: &[String],
    lines: &L,
    number: &[u8],
) -> Result<(), AllocError> {
    if let Some(line) = form_line(words, lines, number) {
        text.put_shown(line)?;
        text.put(": ")?;
    }
    Ok(())
}

/// The words of a line, as far as they are UTF-8.
fn words_in(alloc: Global, line: &[u8]) -> Result<Vec<String>, AllocError> {
    let mut words = Vec::new(alloc);
    let mut rest = line;
    for _ in 0..line.len() {
        let Some((word, behind)) = next_word(rest) else {
            break;
        };
        if let Ok(word) = std::str::from_utf8(word) {
            words.push(String::from_str(alloc, word)?)?;
        }
        rest = behind;
    }
    Ok(words)
}
