//! Where options and their values stand among the words of a command.

use option_words::{Setting, Switch, Tool};

/// The byte in front of a value behind a long option.
const EQUALS: u8 = b'=';

/// An option with its value, as they stand in the words.
#[derive(Clone, Copy)]
pub(crate) struct GivenValue<'a> {
    /// The option.
    pub switch: Switch,
    /// Its value, where there is one.
    pub value: Option<&'a str>,
    /// Whether the value is the next word.
    pub is_next: bool,
}

/// The text of a word of this number; none where there is no such word.
pub(crate) fn word_at(words: &[String], at: u64) -> Option<&str> {
    let at = usize::try_from(at).ok()?;
    Some(words.get(at)?.as_str())
}

/// Whether a word holds options.
fn holds_options(word: &str) -> bool {
    word.len() > 1 && word.starts_with('-')
}

/// The option with a value that begins in the word of this number.
pub(crate) fn value_from(tool: Tool, words: &[String], at: u64) -> Option<GivenValue<'_>> {
    let word = word_at(words, at)?;
    if !holds_options(word) {
        return None;
    }
    let next = word_at(words, at.checked_add(1)?);
    if word.starts_with("--") {
        return long_value(tool, word, next);
    }
    letters_value(tool, word, next)
}

/// The option of a long word, with its value.
fn long_value<'a>(tool: Tool, word: &'a str, next: Option<&'a str>) -> Option<GivenValue<'a>> {
    if let Some(at) = word.as_bytes().iter().position(|byte| *byte == EQUALS) {
        if let (Some(written), Some(value)) = (word.get(..at), word.get(at + 1..)) {
            let switch = tool.long_switch(written)?;
            return Some(GivenValue {
                switch,
                value: Some(value),
                is_next: false,
            });
        }
    }
    let switch = tool.long_switch(word)?;
    Some(GivenValue {
        switch,
        value: next,
        is_next: true,
    })
}

/// The first option with a value among the letters of a word, with that.
fn letters_value<'a>(tool: Tool, word: &'a str, next: Option<&'a str>) -> Option<GivenValue<'a>> {
    for (at, letter) in word.as_bytes().iter().enumerate() {
        if let Some(Switch::Setting(setting)) = tool.letter_switch(*letter) {
            let behind = word.get(at + 1..)?;
            let is_next = behind.is_empty();
            return Some(GivenValue {
                switch: Switch::Setting(setting),
                value: if is_next { next } else { Some(behind) },
                is_next,
            });
        }
    }
    None
}

/// The first letter of a word that is no option, where the word has several letters and that one is ASCII.
pub(crate) fn unknown_letter(tool: Tool, word: &str) -> Option<u8> {
    if word.len() < 3 || !holds_options(word) || word.starts_with("--") {
        return None;
    }
    for letter in &word.as_bytes()[1..] {
        match tool.letter_switch(*letter) {
            Some(Switch::Setting(_)) => return None,
            Some(_) => {}
            None if letter.is_ascii() => return Some(*letter),
            None => return None,
        }
    }
    None
}

/// Whether a setting is one of files.
pub(crate) fn is_of_file(setting: Setting) -> bool {
    matches!(setting, Setting::Names | Setting::Input)
}

/// How many words behind the one of this number are values of its option.
fn values_behind(tool: Tool, words: &[String], at: u64) -> u64 {
    match value_from(tool, words, at) {
        Some(
            GivenValue {
                switch: Switch::Export,
                ..
            },
        ) => 3,
        Some(
            GivenValue {
                switch: Switch::Setting(_),
                is_next: true,
                ..
            },
        ) => 1,
        _ => 0,
    }
}

/// Whether a word asks for users, groups or projects.
pub(crate) fn asks_for_kind(tool: Tool, word: &str) -> bool {
    if !holds_options(word) || word.starts_with("--") {
        return false;
    }
    for letter in word.as_bytes() {
        if let Some(Switch::Setting(_)) = tool.letter_switch(*letter) {
            return false;
        }
        if matches!(*letter, b'u' | b'g' | b'P') && tool.letter_switch(*letter).is_some() {
            return true;
        }
    }
    false
}

/// The number of the next word from this one on that is no value of an option before it, and asks for a kind.
pub(crate) fn next_kind_word(tool: Tool, words: &[String], from: u64) -> Option<u64> {
    let mut at = from;
    for _ in 0..words.len() {
        let word = word_at(words, at)?;
        if word == "--" {
            return None;
        }
        if asks_for_kind(tool, word) {
            return Some(at);
        }
        at = at
            .checked_add(1)?
            .checked_add(values_behind(tool, words, at))?;
    }
    None
}
