ghost use Rattle.std.specs.Prelude.{◌≡◌, [], ◌∷◌, None, Some, Ok, Err, MatchResult, IfOk, IsTrue, OnOk, take};
ghost use Rattle.option_words.specs.Items.{texts_of};
ghost use Rattle.option_words.specs.Items.{operands_in};
ghost use Rattle.option_words.specs.Given.{GivenOptions, nothing_given, given_options, with_items};
ghost use Rattle.option_words.specs.Items.{AnyWord, Plain, Said, any_word_says, end_says, holds_options, items_of};
ghost use Rattle.option_words.specs.Items.{letter_says, letters_say, long_says, long_word_says, options_say, word_says};
ghost use Rattle.option_words.specs.Reads.{KeepsOperands, Reads, next_of, operands_seen};
ghost use Rattle.option_words.specs.Parts.{parted};

use crate::parts::parted;
use crate::{Fault, Given, Setting, Switch, Tool};
use arrayvec::ArrayVec;
use refusals::UsageKind;

/// An operand as the words have it.
#[derive(Clone, Copy)]
pub struct OperandWord<'a> {
    /// The word.
    pub text: &'a str,
    /// Its number.
    pub word: usize,
}

impl Default for OperandWord<'_> {
    fn default() -> Self {
        OperandWord { text: "", word: 0 }
    }
}

/// What the next word is.
#[derive(Clone, Copy)]
pub enum NextWord<'a> {
    /// Any word.
    AnyWord,
    /// An operand: one behind `--`.
    Operand,
    /// The value of a setting, whose option began in this word.
    Value(Setting, usize),
    /// The path of an export, which began in this word.
    Path(usize),
    /// The kind of an export behind its path.
    KindWord(&'a str, usize),
    /// The file of an export behind its path and its kind.
    File(&'a str, &'a str, usize),
}

/// The words of a command behind its name: what the options give, and the first seven operands.
#[derive(Drop)]
pub struct Scan<'a> {
    /// What the options give.
    pub given: Given<'a>,
    /// The operands.
    pub operands: ArrayVec<OperandWord<'a>, 7>,
}

/// What the words behind a command's name say, or the first fault among the options.
pub fn scan_words<'a>(tool: Tool, words: &'a [String]) -> Result<Scan<'a>, Fault>
    ensures given { MatchResult result
        (λ scan.
        with_items (items_of tool AnyWord 1 (texts_of words.now)) nothing_given ≡ Ok (given_options scan.given))
        (λ met. with_items (items_of tool AnyWord 1 (texts_of words.now)) nothing_given ≡ Err met) }
    ensures operands { IfOk result
        (λ scan. take 7 (operands_seen scan.operands.items)
        ≡ take 7 (operands_in (items_of tool AnyWord 1 (texts_of words.now)))) }
{
    let mut given = Given::nothing();
    let mut operands = ArrayVec::new();
    let mut wanted = NextWord::AnyWord;
    for (at, word) in words.iter().enumerate() {
        match read_word(
            tool,
            wanted,
            at + 1,
            word.as_str(),
            &mut given,
            &mut operands,
        ) {
            Ok(next) => wanted = next,
            Err(met) => return Err(met),
        }
    }
    read_end(wanted)?;
    Ok(Scan { given, operands })
}

/// Reads a word in its place.
fn read_word<'a>(
    tool: Tool,
    wanted: NextWord<'a>,
    word: usize,
    text: &'a str,
    given: &mut Given<'a>,
    operands: &mut ArrayVec<OperandWord<'a>, 7>,
) -> Result<NextWord<'a>, Fault>
    ensures reads { Reads (word_says tool (next_of wanted.entry) word text.now) (given_options given.old)
        (given_options given.new) result }
    ensures keeps { OnOk result (KeepsOperands (word_says tool (next_of wanted.entry) word text.now).items
        (operands_seen operands.old.items) (operands_seen operands.new.items)) }
{
    match wanted {
        NextWord::AnyWord => read_any_word(tool, word, text, given, operands),
        NextWord::Operand => {
            keep(operands, text, word);
            Ok(NextWord::Operand)
        }
        NextWord::Value(setting, began) => {
            given.set(setting, text, began)?;
            Ok(NextWord::AnyWord)
        }
        NextWord::Path(began) => Ok(NextWord::KindWord(text, began)),
        NextWord::KindWord(path, began) => Ok(NextWord::File(path, text, began)),
        NextWord::File(path, kind, began) => {
            given.export(path, kind, text, began)?;
            Ok(NextWord::AnyWord)
        }
    }
}

/// Reads a word that is not the value of an option before it, and not behind `--`.
fn read_any_word<'a>(
    tool: Tool,
    word: usize,
    text: &'a str,
    given: &mut Given<'a>,
    operands: &mut ArrayVec<OperandWord<'a>, 7>,
) -> Result<NextWord<'a>, Fault>
    ensures reads { Reads (any_word_says tool word text.now) (given_options given.old)
        (given_options given.new) result }
    ensures keeps { OnOk result (KeepsOperands (any_word_says tool word text.now).items
        (operands_seen operands.old.items) (operands_seen operands.new.items)) }
{
    if text == "--" {
        return Ok(NextWord::Operand);
    }
    if holds_options(text) {
        return read_options(tool, word, text, given);
    }
    keep(operands, text, word);
    Ok(NextWord::AnyWord)
}

/// Whether a word holds options: it begins with a hyphen, and has more than that.
fn holds_options(text: &str) -> bool
    ensures { result ≡ holds_options text.now }
{
    let bytes = text.as_bytes();
    bytes.len() > 1 && bytes[0] == b'-'
}

/// Keeps an operand, where there are not seven of them already.
fn keep<'a>(operands: &mut ArrayVec<OperandWord<'a>, 7>, text: &'a str, word: usize)
    ensures { KeepsOperands (Plain text.now word ∷ []) (operands_seen operands.old.items)
        (operands_seen operands.new.items) }
{
    if operands.is_full() {
        return;
    }
    operands.push(OperandWord { text, word });
}

/// Reads a word that holds options.
fn read_options<'a>(
    tool: Tool,
    word: usize,
    text: &'a str,
    given: &mut Given<'a>,
) -> Result<NextWord<'a>, Fault>
    requires { IsTrue (holds_options text.now) }
    ensures reads { Reads (options_say tool word text.now) (given_options given.old) (given_options given.new) result }
    ensures none { operands_in (options_say tool word text.now).items ≡ [] }
{
    if text.as_bytes()[1] == b'-' {
        read_long(tool, word, text, given)
    } else {
        read_letters(tool, word, &text[1..], given)
    }
}

/// Reads a word with two hyphens in front.
fn read_long<'a>(
    tool: Tool,
    word: usize,
    text: &'a str,
    given: &mut Given<'a>,
) -> Result<NextWord<'a>, Fault>
    ensures { Reads (long_word_says tool word text.now (parted 61 text.now)) (given_options given.old)
        (given_options given.new) result }
{
    match parted(text, b'=') {
        Some((written, value)) => take_value(tool.long_switch(written), word, value, given),
        None => take_option(tool.long_switch(text), word, given),
    }
}

/// Takes a long option that stands before an equals sign and its value.
fn take_value<'a>(
    switch: Option<Switch>,
    word: usize,
    value: &'a str,
    given: &mut Given<'a>,
) -> Result<NextWord<'a>, Fault>
    ensures { Reads (long_says switch word (Some value.now)) (given_options given.old)
        (given_options given.new) result }
{
    match switch {
        Some(Switch::Setting(setting)) => {
            given.set(setting, value, word)?;
            Ok(NextWord::AnyWord)
        }
        _ => Err(Fault::at(UsageKind::UnknownOption, word)),
    }
}

/// Takes a long option, behind which the next word is its value where it has one.
fn take_option<'a>(
    switch: Option<Switch>,
    word: usize,
    given: &mut Given<'a>,
) -> Result<NextWord<'a>, Fault>
    ensures { Reads (long_says switch word None) (given_options given.old) (given_options given.new) result }
{
    match switch {
        Some(Switch::Flagged(flag)) => {
            given.raise(flag);
            Ok(NextWord::AnyWord)
        }
        Some(Switch::Setting(setting)) => Ok(NextWord::Value(setting, word)),
        Some(Switch::Export) => Ok(NextWord::Path(word)),
        None => Err(Fault::at(UsageKind::UnknownOption, word)),
    }
}

/// Reads the letters of a word.
fn read_letters<'a>(
    tool: Tool,
    word: usize,
    letters: &'a str,
    given: &mut Given<'a>,
) -> Result<NextWord<'a>, Fault>
    ensures { Reads (letters_say tool word letters.now) (given_options given.old) (given_options given.new) result }
{
    for (at, letter) in letters.as_bytes().iter().enumerate() {
        let Some(switch) = tool.letter_switch(*letter) else {
            return Err(Fault::at(UsageKind::UnknownOption, word));
        };
        match switch {
            Switch::Flagged(flag) => given.raise(flag),
            Switch::Setting(setting) => {
                return take_letters(setting, word, &letters[at + 1..], given);
            }
            Switch::Export => return Err(Fault::at(UsageKind::UnknownOption, word)),
        }
    }
    Ok(NextWord::AnyWord)
}

/// Takes the letters behind that of a setting as its value, or the next word where there are none.
fn take_letters<'a>(
    setting: Setting,
    word: usize,
    behind: &'a str,
    given: &mut Given<'a>,
) -> Result<NextWord<'a>, Fault>
    ensures { (more : Said)
        → Reads (letter_says (Some (Switch.Setting setting)) word behind.now more) (given_options given.old)
        (given_options given.new) result }
{
    if behind.is_empty() {
        return Ok(NextWord::Value(setting, word));
    }
    given.set(setting, behind, word)?;
    Ok(NextWord::AnyWord)
}

/// What the end of the words says: a fault where a value is wanted.
fn read_end(wanted: NextWord<'_>) -> Result<(), Fault>
    ensures { (given : GivenOptions)
        → MatchResult result (λ _. with_items (end_says (next_of wanted.entry)) given ≡ Ok given)
        (λ met. with_items (end_says (next_of wanted.entry)) given ≡ Err met) }
{
    match wanted {
        NextWord::AnyWord | NextWord::Operand => Ok(()),
        NextWord::Value(_, began)
        | NextWord::Path(began)
        | NextWord::KindWord(_, began)
        | NextWord::File(_, _, began) => Err(Fault::at(UsageKind::MissingValue, began)),
    }
}
