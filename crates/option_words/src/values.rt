ghost use Rattle.std.specs.Prelude.{◌≡◌, ◌≤◌, IfSome, Ok};
ghost use Rattle.refusals.specs.declared.cause.UsageKind.TheVariants.{BadValue};
ghost use Rattle.option_words.specs.Fault.{fault, with_value};
ghost use Rattle.option_words.specs.Values.{conversion, conversion_of, format_of, is_export_path, kind_of};
ghost use Rattle.option_words.specs.Values.{number_within};

use crate::parts::parted;
use crate::{Conversion, Fault};
use input_text::read_number;
use quota_types::{Format, Kind};
use refusals::UsageKind;

/// Reads the name of a format: `vfsold`, `vfsold32`, `vfsv0` or `vfsv1`.
///
/// # Errors
///
/// `BadValue` at `word`, the number of the word in its command, where it is no such name.
pub fn read_format(value: &str, word: usize) -> Result<Format, Fault>
    ensures { result ≡ with_value (format_of value.now) (fault BadValue word) (λ format. Ok format) }
{
    checked(format_of(value), word)
}

/// Reads the kind of files that is exported under a word: `user`, `group` or `project`.
///
/// # Errors
///
/// `BadValue` at `word`, the number of the word in its command, where it is none of these.
pub fn read_kind(value: &str, word: usize) -> Result<Kind, Fault>
    ensures { result ≡ with_value (kind_of value.now) (fault BadValue word) (λ kind. Ok kind) }
{
    checked(kind_of(value), word)
}

/// Reads how many calls a word asks for: a number from 1 to 4,294,967,295.
///
/// # Errors
///
/// `BadValue` at `word`, the number of the word in its command, where it is no such number.
pub fn read_calls(value: &str, word: usize) -> Result<u32, Fault>
    ensures { result ≡ with_value (number_within 1 4294967295 value.now) (fault BadValue word) (λ calls. Ok calls) }
{
    checked(calls_of(value), word)
}

/// Reads a port: a number from 0 to 65,535.
///
/// # Errors
///
/// `BadValue` at `word`, the number of the word in its command, where it is no such number.
pub fn read_port(value: &str, word: usize) -> Result<u16, Fault>
    ensures { result ≡ with_value (number_within 0 65535 value.now) (fault BadValue word) (λ port. Ok port) }
{
    checked(port_of(value), word)
}

/// The value that was read of a word.
///
/// # Errors
///
/// `BadValue` at `word`, the number of the word in its command, where none was: it is not of its form or range.
pub fn checked<V: Copy>(value: Option<V>, word: usize) -> Result<V, Fault>
    ensures { result ≡ with_value value (fault BadValue word) (λ v. Ok v) }
{
    match value {
        Some(value) => Ok(value),
        None => Err(Fault::at(UsageKind::BadValue, word)),
    }
}

/// The format of a name.
fn format_of(word: &str) -> Option<Format>
    ensures { result ≡ format_of word.now }
{
    match word {
        "vfsold" => Some(Format::V1),
        "vfsold32" => Some(Format::V1R32),
        "vfsv0" => Some(Format::V2R0),
        "vfsv1" => Some(Format::V2R1),
        _ => None,
    }
}

/// The kind of files that is exported under a word.
fn kind_of(word: &str) -> Option<Kind>
    ensures { result ≡ kind_of word.now }
{
    match word {
        "user" => Some(Kind::User),
        "group" => Some(Kind::Group),
        "project" => Some(Kind::Project),
        _ => None,
    }
}

/// The old and the new format, with a comma between them.
pub fn conversion_of(word: &str) -> Option<Conversion>
    ensures { result ≡ conversion_of word.now }
{
    match parted(word, b',') {
        Some((old, new)) => conversion(format_of(old), format_of(new)),
        None => None,
    }
}

/// The formats of a conversion.
fn conversion(old: Option<Format>, new: Option<Format>) -> Option<Conversion>
    ensures { result ≡ conversion old new }
{
    match (old, new) {
        (Some(old), Some(new)) => Some(Conversion { old, new }),
        _ => None,
    }
}

/// How many calls a word asks for.
fn calls_of(word: &str) -> Option<u32>
    ensures { result ≡ number_within 1 4294967295 word.now }
{
    match number_within(1, 4_294_967_295, word) {
        Some(calls) => Some(calls as u32),
        None => None,
    }
}

/// The port that a word names.
fn port_of(word: &str) -> Option<u16>
    ensures { result ≡ number_within 0 65535 word.now }
{
    match number_within(0, 65_535, word) {
        Some(port) => Some(port as u16),
        None => None,
    }
}

/// How many lines a word asks for.
pub fn lines_of(word: &str) -> Option<u32>
    ensures { result ≡ number_within 1 1000000 word.now }
{
    match number_within(1, 1_000_000, word) {
        Some(lines) => Some(lines as u32),
        None => None,
    }
}

/// The number that a word spells in decimal digits, where it is from `low` to `high`.
pub fn number_within(low: u64, high: u64, word: &str) -> Option<u64>
    ensures number { result ≡ number_within low high word.now }
    ensures high { IfSome result (λ number. number ≤ high) }
{
    let number = read_number(word)?;
    if low <= number && number <= high {
        Some(number)
    } else {
        None
    }
}

/// Whether a quota file can be exported under a path, or asked for by it: the path has 1 to 1,024 bytes. Source: the
/// protocol of rquotad (rquota.x), `RQ_PATHLEN`.
pub fn is_export_path(path: &str) -> bool
    ensures { result ≡ is_export_path path.now }
{
    !path.is_empty() && path.len() <= 1024
}
