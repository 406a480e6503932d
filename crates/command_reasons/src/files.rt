use crate::tables::{
    FileUse, FormatWord, IRREGULAR, file_advice, format_name, irregular_advice, other_advice,
};
use crate::text::Text;
use crate::usages::{Words, setting_of};
use option_words::{Setting, Tool, scan_words};
use quota_types::Format;
use std::alloc::AllocError;

/// What words say of a file that they name.
#[derive(Clone, Copy)]
pub(crate) struct FileWords {
    /// What is read of it.
    pub used_for: FileUse,
    /// How its format is given.
    pub given_by: FormatWord,
    /// The format that is asked for.
    pub asked: Option<Format>,
}

impl FileWords {
    /// What the words of `rquotad_tcp` say of its files, where this is the format.
    pub fn of_streams(asked: Option<Format>) -> Self {
        FileWords {
            used_for: FileUse::Quotas,
            given_by: FormatWord::Streamed,
            asked,
        }
    }

    /// What the words of a command say of the file of this name.
    pub fn of(words: Words<'_>, file: &[u8]) -> Self {
        let used_for = if is_of_setting(words.all, Setting::Names, file) {
            FileUse::Names
        } else if is_of_setting(words.all, Setting::Input, file) {
            if words.in_script {
                FileUse::ScriptInput
            } else {
                FileUse::Input
            }
        } else {
            FileUse::Quotas
        };
        FileWords {
            used_for,
            given_by: given_by(words.all),
            asked: asked_format(words.all),
        }
    }
}

/// Whether a file is the one of a setting.
fn is_of_setting(words: &[String], setting: Setting, file: &[u8]) -> bool {
    match setting_of(words, setting) {
        Some(name) => name.as_bytes() == file,
        None => false,
    }
}

/// How the words of a command give the format of a quota file.
fn given_by(words: &[String]) -> FormatWord {
    match words.first() {
        Some(name) => match Tool::named(name.as_str()) {
            Some(Tool::Convertquota) => FormatWord::Conversion,
            Some(Tool::Rquotad) => FormatWord::Served,
            _ => FormatWord::Letter,
        },
        None => FormatWord::Letter,
    }
}

/// The format that the words of a command ask for in a file that is there.
fn asked_format(words: &[String]) -> Option<Format> {
    let (name, behind) = words.split_first()?;
    let tool = Tool::named(name.as_str())?;
    let scan = scan_words(tool, behind).ok()?;
    match scan.given.conversion {
        Some(formats) => Some(formats.old),
        None => scan.given.format,
    }
}

/// Puts what to do about what is said of a file, and answers whether anything is known of that.
pub(crate) fn put_file_reason(
    text: &mut Text,
    words: FileWords,
    file: &[u8],
    what: &[u8],
) -> Result<bool, AllocError> {
    if what == b"other format".as_slice() {
        text.put_shown(file)?;
        text.put(": ")?;
        put_other_format(text, words)?;
        return Ok(true);
    }
    let Some(advice) = advice_on(words, what) else {
        return Ok(false);
    };
    text.put_shown(file)?;
    text.put(": ")?;
    text.put(advice)?;
    Ok(true)
}

/// Puts what to do about a file that the system refused since it is no regular one, and answers whether anything is
/// known of that.
pub(crate) fn put_irregular(
    text: &mut Text,
    words: FileWords,
    file: &[u8],
    why: &str,
) -> Result<bool, AllocError> {
    if why != IRREGULAR {
        return Ok(false);
    }
    let Some(advice) = irregular_advice(words.used_for) else {
        return Ok(false);
    };
    text.put_shown(file)?;
    text.put_all(&[": ", IRREGULAR, "; ", advice])?;
    Ok(true)
}

/// Puts which format a file has that has another one than was asked for. It is a tree file then.
fn put_other_format(text: &mut Text, words: FileWords) -> Result<(), AllocError> {
    match words.asked.and_then(other_tree) {
        Some(found) => text.put_all(&["its format is ", format_name(found)])?,
        None => text.put("it has another format")?,
    }
    text.put_all(&["; ", other_advice(words.given_by)])
}

/// The other one of the two formats of tree files.
fn other_tree(asked: Format) -> Option<Format> {
    match asked {
        Format::V2R0 => Some(Format::V2R1),
        Format::V2R1 => Some(Format::V2R0),
        Format::V1 | Format::V1R32 => None,
    }
}

/// What to do about what is said of a file.
fn advice_on(words: FileWords, what: &[u8]) -> Option<&'static str> {
    if what.starts_with(b"damaged: ") {
        return Some(
            "put the copy back, or make a new file by quota_cli quotacheck -c and set the limits again",
        );
    }
    if what.starts_with(b"full: ") {
        return Some(
            "a tree file has at most 4194304 blocks; take limits away from those who need none",
        );
    }
    if what.starts_with(b"no room for ") {
        return Some(
            "its format has no room for that value; choose a smaller one, or convert the file to vfsv1",
        );
    }
    match std::str::from_utf8(what) {
        Ok(what) => file_advice(what, words.used_for, words.given_by),
        Err(_) => None,
    }
}
