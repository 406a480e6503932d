ghost use Rattle.std.specs.Prelude.{◌≡◌, MatchResult};
ghost use Rattle.refusals.specs.Outcome.{Passed, Refused};
ghost use Rattle.run_steps.specs.Numbers.{grace_read, identifier_of, known, limits_read, seconds_read, time_read};
ghost use Rattle.id_names.specs.FirstMatch.{first_id};
ghost use Rattle.refusals.specs.declared.cause.Cause.TheVariants.{BadNumber};
ghost use Rattle.refusals.specs.Refusals.{refusal_of};

use id_names::Names;
use input_text::read_number;
use quota_types::Grace;
use refusals::{Cause, Refusal, Word};
use set_edit::{Limits, TimeWord, read_limit};
use std::alloc::Global;
use std::mem;

/// One more than the greatest identifier.
const PAST_IDENTIFIERS: u64 = 1 << 32;

/// Reads the word that names an identifier: by its number, or by one of the names. It takes no memory.
///
/// # Errors
///
/// The word is no number of an identifier, and the name of none.
pub fn read_identifier(names: &Names, word: Word) -> Result<u32, Refusal>
    ensures { MatchResult result (λ id. identifier_of names.now word ≡ Passed id)
        (λ refusal. identifier_of names.now word ≡ Refused refusal) }
{
    match identifier_from(names, word.as_str().as_bytes()) {
        Ok(id) => Ok(id),
        Err(cause) => Err(Refusal::of(cause, word)),
    }
}

/// Reads the bytes of the word that names an identifier: one or more digits with a value below 2^32, or one of the
/// names. Any number of leading zeros is allowed. Another word of digits is no number, and any other word is the name
/// of no identifier.
fn identifier_from(names: &Names, word: &[u8]) -> Result<u32, Cause>
    ensures { MatchResult result (λ id. identifier_of names.now word.now ≡ Passed id)
        (λ cause. identifier_of names.now word.now ≡ Refused (refusal_of cause word.now)) }
{
    if word.is_empty() {
        return told_by(names, word);
    }
    let mut number: u64 = 0;
    for digit in word {
        if !digit.is_ascii_digit() {
            return told_by(names, word);
        }
        let unit = u64::from(*digit - b'0');
        number = (number * 10 + unit).min(PAST_IDENTIFIERS);
    }
    if number < PAST_IDENTIFIERS {
        Ok(number as u32)
    } else {
        Err(Cause::BadNumber)
    }
}

/// The identifier that the names tell for a word.
fn told_by(names: &Names, word: &[u8]) -> Result<u32, Cause>
    ensures { MatchResult result (λ id. known (first_id names.now word.now) word.now ≡ Passed id)
        (λ cause. known (first_id names.now word.now) word.now ≡ Refused (refusal_of cause word.now)) }
{
    names.id_of(word).ok_or(Cause::UnknownName)
}

/// Reads the four limits: the soft and the hard one of blocks, in KiB, then those of inodes.
///
/// # Errors
///
/// The first word that spells no limit.
pub fn read_limits(alloc: Global, mut words: [Word; 4]) -> Result<Limits, Refusal>
    ensures { MatchResult result (λ limits. limits_read words ≡ Passed limits)
        (λ refusal. limits_read words ≡ Refused refusal) }
{
    let Some(bsoft) = read_limit(words[0].as_str(), true) else {
        return Err(bad_number(alloc, &mut words[0]));
    };
    let Some(bhard) = read_limit(words[1].as_str(), true) else {
        return Err(bad_number(alloc, &mut words[1]));
    };
    let Some(isoft) = read_limit(words[2].as_str(), false) else {
        return Err(bad_number(alloc, &mut words[2]));
    };
    let Some(ihard) = read_limit(words[3].as_str(), false) else {
        return Err(bad_number(alloc, &mut words[3]));
    };
    Ok(Limits {
        bsoft,
        bhard,
        isoft,
        ihard,
    })
}

/// The refusal of a word that is no number. The word is taken.
fn bad_number(alloc: Global, word: &mut Word) -> Refusal
    ensures { result ≡ refusal_of BadNumber word.old }
{
    let name = mem::replace(word, Word::empty(alloc));
    Refusal::of(Cause::BadNumber, name)
}

/// Reads two grace periods, in seconds.
///
/// # Errors
///
/// The first word that is no number of seconds.
pub fn read_grace(block: Word, inode: Word) -> Result<Grace, Refusal>
    ensures { MatchResult result (λ grace. grace_read block inode ≡ Passed grace)
        (λ refusal. grace_read block inode ≡ Refused refusal) }
{
    let block = read_seconds(block)?;
    let inode = read_seconds(inode)?;
    Ok(Grace { block, inode })
}

/// Reads a number of seconds.
fn read_seconds(word: Word) -> Result<u64, Refusal>
    ensures { MatchResult result (λ seconds. seconds_read word ≡ Passed seconds)
        (λ refusal. seconds_read word ≡ Refused refusal) }
{
    match read_number(word.as_str()) {
        Some(seconds) => Ok(seconds),
        None => Err(Refusal::of(Cause::BadNumber, word)),
    }
}

/// Reads a time: a number of seconds, or `unset`.
///
/// # Errors
///
/// The word is neither.
pub fn read_time(word: Word) -> Result<TimeWord, Refusal>
    ensures { MatchResult result (λ time. time_read word ≡ Passed time)
        (λ refusal. time_read word ≡ Refused refusal) }
{
    if word.as_str() == "unset" {
        return Ok(TimeWord::Unset);
    }
    let seconds = read_seconds(word)?;
    Ok(TimeWord::Seconds(seconds))
}
