//! Which line is not as it has to be, and what is wanted there.

use crate::tables::{line_wanted, longest_line, names_wanted};
use crate::text::Text;
use crate::usages::{is_of_projects, setting_of};
use input_text::number_in;
use option_words::{Setting, Tool};
use std::alloc::AllocError;

/// The lines that are at hand of what a run has read.
pub trait Lines {
    /// The line of this number of the standard input, counted from 1 and without its newline, where it is at hand.
    fn of_input(&self, number: u64) -> Option<&[u8]>;

    /// The line of this number of the file of this name, where it is at hand.
    fn of_file(&self, name: &str, number: u64) -> Option<&[u8]>;

    /// Whether it is known that the standard input, or the file of this name, was read to its end and had no word.
    fn are_blank_of(&self, name: Option<&str>) -> bool;
}

/// What is wrong with a line.
#[derive(Clone, Copy, PartialEq, Eq)]
pub(crate) enum LineFault {
    /// It breaks the rules.
    Bad,
    /// It is too long.
    Long,
}

/// The line of a number that stands in an error line, of the standard input where there is no name.
pub(crate) fn line_at<'a, L: Lines>(
    lines: &'a L,
    name: Option<&str>,
    number: &[u8],
) -> Option<&'a [u8]> {
    let number = number_in(number)?;
    match name {
        Some(name) => lines.of_file(name, number),
        None => lines.of_input(number),
    }
}

/// Puts a line that is not as it has to be, where it is at hand, and what is wanted there.
pub(crate) fn put_line_reason<L: Lines>(
    text: &mut Text,
    words: &[String],
    lines: &L,
    input: &[u8],
    number: &[u8],
    fault: LineFault,
) -> Result<(), AllocError> {
    let name = match std::str::from_utf8(input) {
        Ok("input" | "script") | Err(_) => None,
        Ok(name) => Some(name),
    };
    if let Some(line) = line_at(lines, name, number) {
        text.put_shown(line)?;
        text.put(": ")?;
    }
    let tool = if input == b"script".as_slice() {
        Tool::Script
    } else {
        tool_of(words)
    };
    if fault == LineFault::Long {
        return text.put(longest_line(tool));
    }
    let is_project = is_of_projects(words);
    if name.is_some() && setting_of(words, Setting::Names) == name {
        return text.put(names_wanted(is_project));
    }
    text.put(line_wanted(tool, is_project))
}

/// Puts that a line says something else of an inode than an earlier one.
pub(crate) fn put_conflict<L: Lines>(
    text: &mut Text,
    lines: &L,
    input: &[u8],
    number: &[u8],
) -> Result<(), AllocError> {
    let name = match std::str::from_utf8(input) {
        Ok("input") | Err(_) => None,
        Ok(name) => Some(name),
    };
    if let Some(line) = line_at(lines, name, number) {
        text.put_shown(line)?;
        text.put(": ")?;
    }
    text.put(
        "another owner, group or project, or number of blocks of an inode; make the listing anew while nothing writes",
    )
}

/// The command that words begin with; `script` where they begin with none.
fn tool_of(words: &[String]) -> Tool {
    match words.first() {
        Some(name) => Tool::named(name.as_str()).unwrap_or(Tool::Script),
        None => Tool::Script,
    }
}
