//! Reasons of the programs that have no commands.

ghost use Rattle.std.specs.Prelude.{IfOk, IfSome, IsTrue, string_bytes};
ghost use Rattle.std.specs.List.{list_all};
ghost use Rattle.error_lines.specs.Shown.{is_printed};

use crate::files::{FileWords, put_file_reason};
use crate::tables::{FILE_NAME, NO_REPLY};
use crate::text::Text;
use crate::word_places::word_at;
use error_lines::{Said, read_error_line};
use input_text::number_in;
use option_words::read_format;
use quota_types::Format;
use refusals::UsageKind;
use std::alloc::{AllocError, Global};

/// A program without commands.
#[derive(Clone, Copy, Debug, PartialEq, Eq)]
pub enum Program {
    /// `rquotad_tcp`.
    Server,
    /// `quota_client`.
    Client,
}

impl Program {
    /// Its name, and the words that it has.
    fn form(self) -> &'static str {
        match self {
            Program::Server => {
                "PORT CONNECTIONS FORMAT, and 1 to 16 times PATH KIND FILE, are wanted; rquotad_tcp --help"
            }
            Program::Client => {
                "MODE PORT UID GID, and 1 to 16 paths, are wanted; quota_client --help"
            }
        }
    }

    /// What is wanted of the word of this number.
    fn wanted(self, word: u64) -> &'static str {
        match self {
            Program::Server => wanted_of_server(word),
            Program::Client => wanted_of_client(word),
        }
    }
}

/// What is wanted of a word of `rquotad_tcp`.
fn wanted_of_server(word: u64) -> &'static str {
    match word {
        0 => "PORT is a number from 0 to 65535",
        1 => "CONNECTIONS is a number from 1 to 4294967295",
        2 => "FORMAT is vfsold, vfsold32, vfsv0, vfsv1 or any",
        _ if word % 3 == 0 => "PATH has 1 to 1024 bytes",
        _ => "KIND is user, group or project",
    }
}

/// What is wanted of a word of `quota_client`.
fn wanted_of_client(word: u64) -> &'static str {
    match word {
        0 => "MODE is quota or warn",
        1 => "PORT is a number from 1 to 65535",
        2 => "UID is a number below 2^32",
        3 => "GID is a number below 2^32",
        _ => "PATH has 1 to 1024 bytes from ! to ~",
    }
}

/// Why a run of a program was refused, by its error line without the newline; none where no more is known than that
/// has.
///
/// # Errors
///
/// There is not enough memory.
pub fn program_reason(
    alloc: Global,
    program: Program,
    error_line: &[u8],
    words: &[String],
) -> Result<Option<String>, AllocError>
    ensures printed { IfOk result (λ reason. IfSome reason (λ text. IsTrue (list_all is_printed (string_bytes text)))) }
{
    let Some(read) = read_error_line(error_line) else {
        return Ok(None);
    };
    let mut text = Text::new(alloc);
    let is_known = match read.said {
        Said::Usage { kind, word } => {
            put_words_reason(
                &mut text,
                program,
                words,
                kind,
                number_in(word).unwrap_or(0),
            )?;
            true
        }
        Said::OfFile { file, what } => {
            let words = FileWords::of_streams(format_in(words));
            put_file_reason(&mut text, words, file, what)?
        }
        _ => false,
    };
    text.shown_where(alloc, is_known)
}

/// Why a run of `quota_client` with these words ended with status 1, by the last line that it printed, without the
/// newline; none where no more is known than that has.
///
/// # Errors
///
/// There is not enough memory.
pub fn reply_reason(
    alloc: Global,
    printed: &[u8],
    words: &[String],
) -> Result<Option<String>, AllocError>
    ensures printed { IfOk result (λ reason. IfSome reason (λ text. IsTrue (list_all is_printed (string_bytes text)))) }
{
    if !printed.ends_with(b": no reply") {
        return Ok(None);
    }
    let mut text = Text::new(alloc);
    text.put("UDP port ")?;
    text.put_of(word_at(words, 1).unwrap_or(""), NO_REPLY)?;
    text.shown_where(alloc, true)
}

/// The format that the words of `rquotad_tcp` ask for; none where it is any.
fn format_in(words: &[String]) -> Option<Format> {
    read_format(word_at(words, 2)?, 2).ok()
}

/// Puts what is wrong with the words of a program.
fn put_words_reason(
    text: &mut Text,
    program: Program,
    words: &[String],
    kind: UsageKind,
    at: u64,
) -> Result<(), AllocError> {
    if let Some(word) = word_at(words, at) {
        text.put_of(word, "")?;
    }
    match kind {
        UsageKind::BadValue => text.put_all(&[program.wanted(at), "; "])?,
        UsageKind::BadFileName => text.put_all(&[FILE_NAME, "; "])?,
        UsageKind::Repeated => text.put("its path and kind stand a second time; ")?,
        UsageKind::Excludes => text.put("projects have neither vfsold nor vfsold32; ")?,
        _ => {}
    }
    text.put(program.form())
}
