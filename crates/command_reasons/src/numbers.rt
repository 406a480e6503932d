//! What is wrong with a word that names an identifier, or is to be a number.

use crate::text::Text;
use crate::usages::setting_of;
use input_text::{next_word, number_in};
use option_words::{Setting, Tool, scan_words};
use std::alloc::AllocError;

/// What a number is wanted for.
#[derive(Clone, Copy, PartialEq, Eq)]
enum Wanted {
    /// An identifier.
    Identifier,
    /// A limit of blocks.
    Blocks,
    /// A limit of inodes.
    Inodes,
    /// A limit, of blocks or of inodes.
    Limit,
    /// A grace period.
    Grace,
    /// What is left of a grace period.
    Time,
}

impl Wanted {
    /// What is wanted.
    fn text(self) -> &'static str {
        match self {
            Wanted::Identifier => "an identifier is a number below 2^32",
            Wanted::Blocks => {
                "a limit of blocks is a number of KiB, or one with K, M, G or T behind it"
            }
            Wanted::Inodes => "a limit of inodes is a number, or one with k, m, g or t behind it",
            Wanted::Limit => {
                "a limit is a number, or one with K, M, G or T (of blocks) or k, m, g or t (of inodes) behind it"
            }
            Wanted::Grace => "a grace period is a number of seconds",
            Wanted::Time => "a time is a number of seconds, or unset",
        }
    }

    /// The letters that may stand behind the digits.
    fn suffixes(self) -> &'static [u8] {
        match self {
            Wanted::Blocks => b"KMGT",
            Wanted::Inodes => b"kmgt",
            _ => b"",
        }
    }

    /// The digits of a word, and how much its unit is.
    fn parts(self, word: &[u8]) -> (&[u8], u64) {
        match word.split_last() {
            Some((last, front)) if self.suffixes().contains(last) => (front, unit_of(*last)),
            _ => (word, 1),
        }
    }

    /// Whether a word has the form of such a number, and so is too large where it is refused.
    fn has_form(self, word: &[u8]) -> bool {
        let (digits, _) = self.parts(word);
        !digits.is_empty() && digits.iter().all(|byte| byte.is_ascii_digit())
    }

    /// The number that a word of this form spells, where it is below 2^64.
    fn number(self, word: &[u8]) -> Option<u64> {
        let (digits, unit) = self.parts(word);
        number_in(digits)?.checked_mul(unit)
    }

    /// Whether a word may be refused as such a number.
    fn may_refuse(self, word: &[u8]) -> bool {
        if self == Wanted::Time && word == b"unset".as_slice() {
            return false;
        }
        if !self.has_form(word) {
            return true;
        }
        match self.number(word) {
            Some(number) => self == Wanted::Identifier && number >= 1 << 32,
            None => true,
        }
    }
}

/// How much a letter behind the digits stands for, in KiB of blocks or in inodes.
fn unit_of(letter: u8) -> u64 {
    match letter {
        b'M' => 1 << 10,
        b'G' => 1 << 20,
        b'T' => 1 << 30,
        b'k' => 1_000,
        b'm' => 1_000_000,
        b'g' => 1_000_000_000,
        b't' => 1_000_000_000_000,
        _ => 1,
    }
}

/// Puts what is wrong with the word that names an identifier.
pub(crate) fn put_name_reason(
    text: &mut Text,
    words: &[String],
    name: &[u8],
) -> Result<(), AllocError> {
    text.put_shown(name)?;
    match setting_of(words, Setting::Names) {
        Some(file) => {
            text.put(": neither a number nor a name in ")?;
            text.put_shown(file.as_bytes())
        }
        None => text.put(": no number; names are known with --names FILE alone"),
    }
}

/// Where a word stands that is to be a number.
#[derive(Clone, Copy)]
pub(crate) enum NumberPlace<'a> {
    /// Among the words of a command.
    Words(&'a [String]),
    /// In a line of limits, which may be at hand.
    Line(Option<&'a [u8]>),
}

impl NumberPlace<'_> {
    /// What the word is wanted for that was refused there.
    fn wanted(self, number: &[u8]) -> Wanted {
        match self {
            NumberPlace::Words(words) => wanted_of(words, number),
            NumberPlace::Line(Some(line)) => {
                wanted_in_line(line, number).unwrap_or(wanted_by_form(number))
            }
            NumberPlace::Line(None) => wanted_by_form(number),
        }
    }
}

/// Puts what is wrong with a word that is to be a number, and stands there.
pub(crate) fn put_number_reason(
    text: &mut Text,
    place: NumberPlace<'_>,
    number: &[u8],
) -> Result<(), AllocError> {
    let wanted = place.wanted(number);
    text.put_shown(number)?;
    if wanted.has_form(number) {
        text.put(": too large; ")?;
    } else {
        text.put(": ")?;
    }
    text.put(wanted.text())
}

/// How many words a line of limits has.
const WORDS_OF_LINE: usize = 5;

/// What a word is wanted for that was refused in a line of limits: by the first place where it stands and may be
/// refused.
fn wanted_in_line(line: &[u8], number: &[u8]) -> Option<Wanted> {
    let mut rest = line;
    for place in 0..WORDS_OF_LINE {
        let (word, behind) = next_word(rest)?;
        let wanted = wanted_at(place, false);
        if word == number && wanted.may_refuse(number) {
            return Some(wanted);
        }
        rest = behind;
    }
    None
}

/// What a word is wanted for that was refused in a line of limits which is not at hand.
fn wanted_by_form(number: &[u8]) -> Wanted {
    match (
        Wanted::Blocks.may_refuse(number),
        Wanted::Inodes.may_refuse(number),
    ) {
        (true, true) => Wanted::Limit,
        (true, false) => Wanted::Blocks,
        (false, true) => Wanted::Inodes,
        (false, false) => Wanted::Identifier,
    }
}

/// What a word is wanted for that was refused among the words of a command.
fn wanted_of(words: &[String], number: &[u8]) -> Wanted {
    let Some((name, behind)) = words.split_first() else {
        return Wanted::Identifier;
    };
    let Some(tool) = Tool::named(name.as_str()) else {
        return Wanted::Identifier;
    };
    let Ok(scan) = scan_words(tool, behind) else {
        return Wanted::Identifier;
    };
    let flags = &scan.given.flags;
    let is_limit = tool == Tool::Setquota && scan.given.proto.is_none() && !flags.batch;
    for (place, operand) in scan.operands.as_slice().iter().enumerate() {
        let wanted = if !is_limit {
            Wanted::Identifier
        } else if flags.grace {
            Wanted::Grace
        } else {
            wanted_at(place, flags.times)
        };
        if operand.text.as_bytes() == number && wanted.may_refuse(number) {
            return wanted;
        }
    }
    Wanted::Identifier
}

/// What the operand at this place is wanted for, of those of limits or of times.
fn wanted_at(place: usize, are_times: bool) -> Wanted {
    match place {
        0 => Wanted::Identifier,
        _ if are_times => Wanted::Time,
        1 | 2 => Wanted::Blocks,
        _ => Wanted::Inodes,
    }
}
