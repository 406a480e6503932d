//! What is wrong with the words of a command, and what is wanted there.

use crate::tables::{
    COMMANDS, FILE_NAME, Form, form_of, options_of, tool_name, value_name, value_wanted,
};
use crate::text::Text;
use crate::word_places::{is_of_file, next_kind_word, unknown_letter, value_from, word_at};
use option_words::{Given, Setting, Switch, Tool, is_export_path, scan_words};
use quota_types::Kind;
use refusals::UsageKind;
use std::alloc::AllocError;

/// The words of a command, and whether they stand in a script.
#[derive(Clone, Copy)]
pub(crate) struct Words<'a> {
    /// The words, with that of the command.
    pub all: &'a [String],
    /// Whether they stand in a script.
    pub in_script: bool,
}

/// Puts what is wrong with words, in this way and at the word of this number, and how the help is called.
pub(crate) fn put_usage_reason(
    text: &mut Text,
    words: Words<'_>,
    kind: UsageKind,
    at: u64,
) -> Result<(), AllocError> {
    let tool = match words.all.first() {
        Some(name) => Tool::named(name.as_str()),
        None => None,
    };
    match tool {
        Some(tool) if kind != UsageKind::UnknownCommand => {
            put_fault(text, words, tool, kind, at)?;
            text.put_all(&["; quota_cli ", tool_name(tool), " --help"])
        }
        _ => {
            put_no_command(text, words)?;
            text.put_all(&["one of ", COMMANDS, " is wanted; quota_cli --help"])
        }
    }
}

/// Puts that the first word is no command.
fn put_no_command(text: &mut Text, words: Words<'_>) -> Result<(), AllocError> {
    match words.all.first() {
        Some(name) if words.in_script && name.as_str() == "script" => {
            text.put_of(name.as_str(), "no command of a script; ")
        }
        Some(name) => text.put_of(name.as_str(), "no command; "),
        None => text.put("no command; "),
    }
}

/// Puts what is wrong with the words of a command.
fn put_fault(
    text: &mut Text,
    words: Words<'_>,
    tool: Tool,
    kind: UsageKind,
    at: u64,
) -> Result<(), AllocError> {
    match kind {
        UsageKind::NoCommand | UsageKind::UnknownCommand => Ok(()),
        UsageKind::UnknownOption => {
            put_word(text, words.all, at)?;
            put_unknown_letter(text, words.all, tool, at)?;
            text.put_all(&[
                "the options of ",
                tool_name(tool),
                " are ",
                options_of(tool),
            ])
        }
        UsageKind::MissingValue => {
            put_word(text, words.all, at)?;
            put_missing_value(text, words.all, tool, at)
        }
        UsageKind::BadValue => put_bad_value(text, words.all, tool, at),
        UsageKind::Repeated => {
            put_word(text, words.all, at)?;
            text.put("stands a second time")
        }
        UsageKind::Excludes => put_excludes(text, words.all, tool),
        UsageKind::MissingOption => put_missing_option(text, words, tool),
        UsageKind::WrongOperands => put_wrong_operands(text, words.all, tool),
        UsageKind::BadFileName => put_bad_file(text, words.all, tool, at),
    }
}

/// Puts the word of this number, in front of what is said of it.
fn put_word(text: &mut Text, words: &[String], at: u64) -> Result<(), AllocError> {
    match word_at(words, at) {
        Some(word) => text.put_of(word, ""),
        None => Ok(()),
    }
}

/// Puts which letter of a word with several is no option.
fn put_unknown_letter(
    text: &mut Text,
    words: &[String],
    tool: Tool,
    at: u64,
) -> Result<(), AllocError> {
    let Some(letter) = unknown_letter(tool, word_at(words, at).unwrap_or("")) else {
        return Ok(());
    };
    text.put("no option -")?;
    text.put_shown(&[letter])?;
    text.put("; ")
}

/// Puts which value is missing behind an option.
fn put_missing_value(
    text: &mut Text,
    words: &[String],
    tool: Tool,
    at: u64,
) -> Result<(), AllocError> {
    let wanted = match value_from(tool, words, at) {
        Some(given) => match given.switch {
            Switch::Setting(setting) => value_name(setting),
            _ => "PATH KIND FILE",
        },
        None => "a value",
    };
    text.put_all(&[wanted, " is wanted behind it"])
}

/// Puts which value is not of its form or range.
fn put_bad_value(text: &mut Text, words: &[String], tool: Tool, at: u64) -> Result<(), AllocError> {
    match value_from(tool, words, at) {
        Some(given) => match given.switch {
            Switch::Setting(setting) => {
                put_word(text, words, at)?;
                if let (true, Some(value)) = (given.is_next, given.value) {
                    text.put_of(value, "")?;
                }
                text.put(value_wanted(setting))
            }
            _ => put_bad_export(text, words, at),
        },
        None => {
            put_word(text, words, at)?;
            text.put(operand_wanted(words, at))
        }
    }
}

/// What is wanted of an operand of `generate`.
fn operand_wanted(words: &[String], at: u64) -> &'static str {
    let is_count = at > 1 && word_at(words, 1) != Some("--");
    if is_count {
        "COUNT is a number from 1 to 1000000"
    } else {
        "SEED is a number below 2^64"
    }
}

/// Puts what is wrong with an export.
fn put_bad_export(text: &mut Text, words: &[String], at: u64) -> Result<(), AllocError> {
    let path = word_at(words, at.saturating_add(1)).unwrap_or("");
    let kind = word_at(words, at.saturating_add(2)).unwrap_or("");
    put_word(text, words, at)?;
    if !is_export_path(path) {
        return text.put("a path has 1 to 1024 bytes");
    }
    if !matches!(kind, "user" | "group" | "project") {
        return text.put_of(kind, "KIND is user, group or project");
    }
    text.put("there are 16 exports at most")
}

/// Puts which options exclude each other.
fn put_excludes(text: &mut Text, words: &[String], tool: Tool) -> Result<(), AllocError> {
    let Some((_, behind)) = words.split_first() else {
        return Ok(());
    };
    match scan_words(tool, behind) {
        Ok(scan) if are_two_kinds(&scan.given) => {
            put_kind_words(text, words, tool)?;
            text.put("one of -u, -g and -P is wanted")
        }
        Ok(scan) if are_flat_projects(&scan.given) => {
            text.put("projects have neither vfsold nor vfsold32")
        }
        Ok(scan) => text.put(modes_wanted(tool, &scan.given)),
        Err(_) => Ok(()),
    }
}

/// Whether two kinds are asked for.
fn are_two_kinds(given: &Given<'_>) -> bool {
    let flags = &given.flags;
    (flags.users && (flags.groups || flags.projects)) || (flags.groups && flags.projects)
}

/// Whether projects are asked for with a flat format, where no two kinds are.
fn are_flat_projects(given: &Given<'_>) -> bool {
    let is_flat = match (given.format, given.conversion) {
        (Some(format), _) => format.is_flat(),
        (None, Some(formats)) => formats.old.is_flat() || formats.new.is_flat(),
        (None, None) => false,
    };
    let of_projects = given
        .exports
        .as_slice()
        .iter()
        .any(|export| export.kind == Kind::Project);
    is_flat && (given.flags.projects || of_projects)
}

/// Which of the options are wanted of which there are too many.
fn modes_wanted(tool: Tool, given: &Given<'_>) -> &'static str {
    match tool {
        Tool::Setquota if given.input.is_some() && !given.flags.batch => {
            "--input is read with -b alone"
        }
        Tool::Setquota => "one of -p PROTO, -t, -T and -b is wanted",
        _ if given.flags.print && given.flags.apply => "one of --print and --apply is wanted",
        _ => "--input is read with --apply alone",
    }
}

/// Puts the words that ask for kinds.
fn put_kind_words(text: &mut Text, words: &[String], tool: Tool) -> Result<(), AllocError> {
    let mut from = 1;
    for _ in 0..words.len() {
        let Some(at) = next_kind_word(tool, words, from) else {
            break;
        };
        if from > 1 {
            text.put(" ")?;
        }
        text.put_shown(word_at(words, at).unwrap_or("").as_bytes())?;
        from = at.saturating_add(1);
    }
    text.put(": ")
}

/// Puts which option is missing.
fn put_missing_option(text: &mut Text, words: Words<'_>, tool: Tool) -> Result<(), AllocError> {
    let Some((_, behind)) = words.all.split_first() else {
        return Ok(());
    };
    match scan_words(tool, behind) {
        Ok(scan) => text.put_all(&["no ", option_missing(tool, &scan.given)]),
        Err(_) => Ok(()),
    }
}

/// Which option is missing.
fn option_missing(tool: Tool, given: &Given<'_>) -> &'static str {
    match tool {
        Tool::Convertquota => "-f OLD,NEW, each of vfsold, vfsold32, vfsv0 or vfsv1",
        Tool::Rquotad if given.calls.is_none() => "--calls NUMBER",
        Tool::Rquotad if given.port.is_none() => "--port NUMBER",
        Tool::Rquotad => "--export PATH KIND FILE",
        Tool::Edquota if !given.flags.print && !given.flags.apply => "--print or --apply",
        _ => "--input FILE: the standard input is that of the script",
    }
}

/// Puts how many operands there are, and how many the form has.
fn put_wrong_operands(text: &mut Text, words: &[String], tool: Tool) -> Result<(), AllocError> {
    let Some((_, behind)) = words.split_first() else {
        return Ok(());
    };
    let Ok(scan) = scan_words(tool, behind) else {
        return Ok(());
    };
    let form = form_of(tool, &scan.given.flags, scan.given.proto.is_some());
    text.put_all(&[count_word(scan.operands.len()), ", and "])?;
    put_form(text, form)
}

/// Puts which operands a form has.
pub(crate) fn put_form(text: &mut Text, form: Form) -> Result<(), AllocError> {
    match form.count {
        0 => text.put("none is wanted"),
        1 => text.put_all(&["1 is wanted: ", form.names]),
        count => text.put_all(&[number_word(count), " are wanted: ", form.names]),
    }
}

/// How many operands there are, of which at most seven are read.
fn count_word(count: usize) -> &'static str {
    match count {
        0 => "no operand",
        1 => "1 operand",
        2 => "2 operands",
        3 => "3 operands",
        4 => "4 operands",
        5 => "5 operands",
        6 => "6 operands",
        _ => "more than 6 operands",
    }
}

/// A small number.
fn number_word(count: usize) -> &'static str {
    match count {
        2 => "2",
        3 => "3",
        4 => "4",
        _ => "6",
    }
}

/// Puts which word is no name of a file.
fn put_bad_file(text: &mut Text, words: &[String], tool: Tool, at: u64) -> Result<(), AllocError> {
    let word = match value_from(tool, words, at) {
        Some(given) => match given.switch {
            Switch::Setting(setting) if is_of_file(setting) => given.value,
            Switch::Export => word_at(words, at.saturating_add(3)),
            _ => word_at(words, at),
        },
        None => word_at(words, at),
    };
    let word = word.unwrap_or("");
    if option_words::is_file_name(word) {
        return text.put_of(word, "FILE is the file of --input, too");
    }
    text.put_of(word, FILE_NAME)
}

/// The file of a setting that words give.
pub(crate) fn setting_of(words: &[String], setting: Setting) -> Option<&str> {
    let (name, behind) = words.split_first()?;
    let tool = Tool::named(name.as_str())?;
    let scan = scan_words(tool, behind).ok()?;
    match setting {
        Setting::Names => scan.given.names,
        Setting::Input => scan.given.input,
        _ => None,
    }
}

/// Whether words ask for projects.
pub(crate) fn is_of_projects(words: &[String]) -> bool {
    let Some((name, behind)) = words.split_first() else {
        return false;
    };
    let Some(tool) = Tool::named(name.as_str()) else {
        return false;
    };
    match scan_words(tool, behind) {
        Ok(scan) => scan.given.flags.projects,
        Err(_) => false,
    }
}
