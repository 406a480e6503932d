ghost use Rattle.std.specs.Prelude.{◌≡◌, ◌++◌, codes, IfSome};
ghost use Rattle.std.specs.Option.{option_map};
ghost use Rattle.error_lines.specs.Parts.{line_of, numbered_text, said_text};
ghost use Rattle.refusals.specs.Line.{usage_name};

use crate::pieces::{behind, parted};
use input_text::number_in;
use refusals::UsageKind;

/// What an error line says, with texts that stand in it. Numbers are texts, too.
#[derive(Clone, Copy, Debug)]
pub enum Said<'a> {
    /// The words are outside the grammar.
    Usage {
        /// What is wrong.
        kind: UsageKind,
        /// The number of the word, counted from 0.
        word: &'a [u8],
    },
    /// This word names no identifier.
    UnknownName(&'a [u8]),
    /// This word is not of a number's form or range.
    BadNumber(&'a [u8]),
    /// This line of a form is absent, or not as it was printed.
    BadForm(&'a [u8]),
    /// A line breaks the rules of its file or input.
    BadLine {
        /// What the input is called.
        input: &'a [u8],
        /// The number of the line.
        line: &'a [u8],
    },
    /// A line is longer than is read.
    LongLine {
        /// What the input is called.
        input: &'a [u8],
        /// The number of the line.
        line: &'a [u8],
    },
    /// A line says something else of an inode than an earlier one.
    Conflict {
        /// What the input is called.
        input: &'a [u8],
        /// The number of the line.
        line: &'a [u8],
        /// The number of the first line of the inode.
        first: &'a [u8],
    },
    /// This is said of a file.
    OfFile {
        /// The file.
        file: &'a [u8],
        /// What is said of it.
        what: &'a [u8],
    },
    /// This is said, of no file and no word.
    Other(&'a [u8]),
}

/// An error line in its parts.
#[derive(Clone, Copy, Debug)]
pub struct ErrorLine<'a> {
    /// The number of the line of a script, where the command stands in one.
    pub line: Option<&'a [u8]>,
    /// The number of the line of an input, where what was refused stands in one.
    pub input_line: Option<&'a [u8]>,
    /// What it says.
    pub said: Said<'a>,
}

/// Reads an error line, without its newline, into its parts; none where it is no error line.
pub fn read_error_line(line: &[u8]) -> Option<ErrorLine<'_>>
    ensures { IfSome result (λ read. line.now ≡ line_of read) }
{
    let text = behind(line, b"quota: ")?;
    let (script_line, text) = numbered(text, b"line ");
    let (input_line, text) = numbered(text, b"input line ");
    Some(ErrorLine {
        line: script_line,
        input_line,
        said: said_in(text),
    })
}

/// The number of a line that a text names behind this front, where it does, and what stands behind it.
fn numbered<'a>(text: &'a [u8], front: &[u8]) -> (Option<&'a [u8]>, &'a [u8])
    ensures { text.now ≡ numbered_text front.now (option_map (λ number. number.now) result.0) ++ result.1.now }
{
    match number_behind(text, front) {
        Some((number, rest)) => (Some(number), rest),
        None => (None, text),
    }
}

/// The number that a text has behind this front, and what stands behind it.
fn number_behind<'a>(text: &'a [u8], front: &[u8]) -> Option<(&'a [u8], &'a [u8])>
    ensures { IfSome result (λ parts. text.now ≡ front.now ++ (parts.0.now ++ (codes ": " ++ parts.1.now))) }
{
    let (number, rest) = parted(behind(text, front)?, b": ")?;
    if is_number(number) {
        Some((number, rest))
    } else {
        None
    }
}

/// Whether a text is a number.
fn is_number(text: &[u8]) -> bool {
    number_in(text).is_some()
}

/// What a text says that stands behind the numbers of lines.
fn said_in(text: &[u8]) -> Said<'_>
    ensures { text.now ≡ said_text result }
{
    if let Some(said) = usage_in(text) {
        return said;
    }
    if let Some(said) = word_in(text) {
        return said;
    }
    match parted(text, b": ") {
        Some((file, what)) => said_of(file, what),
        None => Said::Other(text),
    }
}

/// What a text says of words, where it does.
fn usage_in(text: &[u8]) -> Option<Said<'_>>
    ensures { IfSome result (λ said. text.now ≡ said_text said) }
{
    let (name, word) = parted(behind(text, b"usage: ")?, b" at word ")?;
    let kind = kind_named(name)?;
    Some(Said::Usage { kind, word })
}

/// What a text says of a word or a form, where it does.
fn word_in(text: &[u8]) -> Option<Said<'_>>
    ensures { IfSome result (λ said. text.now ≡ said_text said) }
{
    if let Some(name) = behind(text, b"unknown name ") {
        return Some(Said::UnknownName(name));
    }
    if let Some(number) = behind(text, b"bad number ") {
        return Some(Said::BadNumber(number));
    }
    Some(Said::BadForm(behind(text, b"bad form at line ")?))
}

/// What is said of a file or an input.
fn said_of<'a>(file: &'a [u8], what: &'a [u8]) -> Said<'a>
    ensures { said_text result ≡ file.now ++ (codes ": " ++ what.now) }
{
    if let Some(line) = behind(what, b"bad line ") {
        return Said::BadLine { input: file, line };
    }
    if let Some(line) = behind(what, b"long line ") {
        return Said::LongLine { input: file, line };
    }
    match conflict_in(what) {
        Some((line, first)) => Said::Conflict {
            input: file,
            line,
            first,
        },
        None => Said::OfFile { file, what },
    }
}

/// The numbers of two lines of which a text says that they conflict.
fn conflict_in(what: &[u8]) -> Option<(&[u8], &[u8])>
    ensures { IfSome result
        (λ lines. what.now ≡ codes "line " ++ (lines.0.now ++ (codes " conflicts with line " ++ lines.1.now))) }
{
    parted(behind(what, b"line ")?, b" conflicts with line ")
}

/// The fault in the words of a name.
fn kind_named(name: &[u8]) -> Option<UsageKind>
    ensures { IfSome result (λ kind. usage_name kind ≡ name.now) }
{
    for kind in KINDS {
        if kind.name().as_bytes() == name {
            return Some(kind);
        }
    }
    None
}

/// What may be wrong with words.
const KINDS: [UsageKind; 10] = [
    UsageKind::NoCommand,
    UsageKind::UnknownCommand,
    UsageKind::UnknownOption,
    UsageKind::MissingValue,
    UsageKind::BadValue,
    UsageKind::Repeated,
    UsageKind::Excludes,
    UsageKind::MissingOption,
    UsageKind::WrongOperands,
    UsageKind::BadFileName,
];
