ghost use Rattle.std.specs.Prelude.{◌≡◌, map, true, false, IfOk, MatchOption, MatchResult};
ghost use Rattle.std.specs.Str.{is_utf8};
ghost use Rattle.input_text.specs.Words.{words_of};
ghost use Rattle.batch_commands.specs.Batch.{at_line, five_of, limits_asked, line_asks, line_named, read_at};
ghost use Rattle.batch_commands.specs.BatchReading.{line_outcome};
ghost use Rattle.refusals.specs.Outcome.{Passed, Refused};

use id_names::Names;
use input_text::words;
use refusals::{Cause, Place, Refusal, Word};
use run_steps::{read_identifier, read_limits, says_nothing};
use set_edit::Limits;
use std::alloc::{AllocError, Global};

/// New limits of an identifier that a line of an input asks for.
#[derive(Clone, Copy, Debug, PartialEq, Eq)]
pub struct LineEdit {
    /// The number of the line, from 1 on.
    pub number: u64,
    /// The identifier.
    pub id: u32,
    /// Its limits.
    pub limits: Limits,
}

/// The five words of a line.
#[derive(Debug, Drop)]
struct FiveWords {
    /// The word for the identifier.
    name: Word,
    /// The words for the limits: the soft and the hard one of blocks, then those of inodes.
    limits: [Word; 4],
}

/// What a line of an input says.
#[derive(Debug, Drop)]
pub enum BatchLineRead {
    /// Nothing: it is a comment, or has no words.
    Nothing,
    /// An edit.
    Edit(LineEdit),
    /// It is refused.
    Refused(Refusal),
}

/// Reads the line of this number, in an input of this name: an identifier and its four limits, unless it is a comment
/// or has no words.
///
/// # Errors
///
/// There is not enough memory.
pub fn read_edit_line(
    alloc: Global,
    names: &Names,
    place: &str,
    number: u64,
    line: &[u8],
) -> Result<BatchLineRead, AllocError>
    ensures { IfOk result (λ read. line_asks names.now place.now number line.now ≡ line_outcome read) }
{
    if says_nothing(line) {
        return Ok(BatchLineRead::Nothing);
    }
    match five_words(alloc, line)? {
        Some(words) => Ok(read_five(alloc, names, number, words)),
        None => {
            let place = Word::copy_of(alloc, place)?;
            Ok(BatchLineRead::Refused(Refusal::of(Cause::BadLine(number), place)))
        }
    }
}

/// The five words of a line, or `None` where it does not have five words, or one that is not UTF-8.
///
/// # Errors
///
/// There is not enough memory.
fn five_words(alloc: Global, line: &[u8]) -> Result<Option<FiveWords>, AllocError>
    ensures { IfOk result (λ words. five_of (words_of line.now) ≡ words) }
{
    match words::<5>(line) {
        Some(words) => copied_words(alloc, words.as_slice()),
        None => Ok(None),
    }
}

/// Copies of all words of a line, where there are five and each is UTF-8.
fn copied_words(alloc: Global, words: &[&[u8]]) -> Result<Option<FiveWords>, AllocError>
    ensures { IfOk result (λ copies. five_of (map (λ word. word.now) words.now) ≡ copies) }
{
    let [name, bsoft, bhard, isoft, ihard] = words else {
        return Ok(None);
    };
    let Some(name) = copied_word(alloc, name)? else {
        return Ok(None);
    };
    let Some(bsoft) = copied_word(alloc, bsoft)? else {
        return Ok(None);
    };
    let Some(bhard) = copied_word(alloc, bhard)? else {
        return Ok(None);
    };
    let Some(isoft) = copied_word(alloc, isoft)? else {
        return Ok(None);
    };
    let Some(ihard) = copied_word(alloc, ihard)? else {
        return Ok(None);
    };
    let limits = [bsoft, bhard, isoft, ihard];
    Ok(Some(FiveWords { name, limits }))
}

/// A copy of a word, or `None` where it is not UTF-8.
///
/// # Errors
///
/// There is not enough memory.
fn copied_word(alloc: Global, word: &[u8]) -> Result<Option<Word>, AllocError>
    ensures { IfOk result (λ copy. MatchOption copy (is_utf8 word.now ≡ false)
        (λ copy. (is_utf8 word.now ≡ true) × (copy ≡ word.now))) }
{
    match std::str::from_utf8(word) {
        Ok(text) => Ok(Some(Word::copy_of(alloc, text)?)),
        Err(_) => Ok(None),
    }
}

/// What five words in the line of this number say.
fn read_five(alloc: Global, names: &Names, number: u64, words: FiveWords) -> BatchLineRead
    ensures { line_outcome result ≡ read_at number (limits_asked names.now number words) }
{
    match read_asked(alloc, names, number, words) {
        Ok(edit) => BatchLineRead::Edit(edit),
        Err(refusal) => BatchLineRead::Refused(at_line(number, refusal)),
    }
}

/// What five words in the line of this number ask for, or the refusal of the first one that is faulty.
fn read_asked(
    alloc: Global,
    names: &Names,
    number: u64,
    words: FiveWords,
) -> Result<LineEdit, Refusal>
    ensures { MatchResult result (λ edit. limits_asked names.now number words ≡ Passed edit)
        (λ refusal. limits_asked names.now number words ≡ Refused refusal) }
{
    let id = read_identifier(names, words.name)?;
    let limits = read_limits(alloc, words.limits)?;
    Ok(LineEdit { number, id, limits })
}

/// A refusal that is met at the line of this number.
pub fn at_line(number: u64, refusal: Refusal) -> Refusal
    ensures { result ≡ at_line number refusal }
{
    let place = Place {
        line: None,
        input_line: line_named(number, refusal.cause),
    };
    Refusal { place, ..refusal }
}

/// The line of an input in which what was refused stands: that of a faulty word, and of a value for which there is no
/// room.
fn line_named(number: u64, cause: Cause) -> Option<u64>
    ensures { result ≡ line_named number cause }
{
    match cause {
        Cause::UnknownName | Cause::BadNumber | Cause::NoRoom(_) => Some(number),
        _ => None,
    }
}
