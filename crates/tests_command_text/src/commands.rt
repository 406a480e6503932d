use command_words::{Command, Common};
use option_words::ExportOptions;
use refusals::Word;
use std::alloc::{AllocError, Global};

/// A command as one line: what it does, the words that it was given, and which of its switches are set.
///
/// # Errors
///
/// There was not enough memory.
pub fn shown(alloc: Global, command: &Command) -> Result<String, AllocError> {
    match command {
        Command::SetLimits {
            common,
            name,
            limits,
            file,
        } => shown_limits(alloc, common, name, limits, file),
        Command::CopyLimits {
            common,
            proto,
            name,
            file,
        } => shown_words(alloc, "copy", common, &[proto, name, file]),
        Command::SetGrace {
            common,
            block,
            inode,
            file,
        } => shown_words(alloc, "grace", common, &[block, inode, file]),
        Command::SetTimes {
            common,
            name,
            block,
            inode,
            file,
        } => shown_words(alloc, "times", common, &[name, block, inode, file]),
        Command::PrintForm { common, name, file } => {
            shown_words(alloc, "print", common, &[name, file])
        }
        _ => shown_reader(alloc, command),
    }
}

/// A command that reads a report, lines, a form or a listing.
fn shown_reader(alloc: Global, command: &Command) -> Result<String, AllocError> {
    match command {
        Command::Report {
            common,
            options,
            file,
        } => {
            let common = shown_common(alloc, common)?;
            let verbose = letter_if(options.verbose, "v");
            let numeric = letter_if(options.numeric, "n");
            let raw = letter_if(options.raw, "p");
            format!(in alloc; "report {common} {verbose}{numeric}{raw} {}", file.as_str())
        }
        Command::Batch {
            common,
            input,
            file,
        } => {
            let common = shown_common(alloc, common)?;
            format!(in alloc; "batch {common} {} {}", shown_word(input), file.as_str())
        }
        Command::ApplyForm {
            common,
            input,
            name,
            file,
        } => {
            let common = shown_common(alloc, common)?;
            let (input, name, file) = (shown_word(input), name.as_str(), file.as_str());
            format!(in alloc; "apply {common} {input} {name} {file}")
        }
        _ => shown_maker(alloc, command),
    }
}

/// A command that makes a file, or that serves or runs others.
fn shown_maker(alloc: Global, command: &Command) -> Result<String, AllocError> {
    match command {
        Command::Check {
            common,
            fresh,
            device,
            input,
            file,
        } => {
            let common = shown_common(alloc, common)?;
            let fresh = letter_if(*fresh, "c");
            let (input, file) = (shown_word(input), file.as_str());
            format!(in alloc; "check {common} {fresh} {device:?} {input} {file}")
        }
        Command::Convert {
            kind,
            old,
            new,
            source,
            target,
        } => {
            let (source, target) = (source.as_str(), target.as_str());
            format!(in alloc; "convert {kind:?} {old:?} {new:?} {source} {target}")
        }
        Command::Serve {
            format,
            calls,
            port,
            exports,
        } => {
            let exports = shown_exports(alloc, exports)?;
            format!(in alloc; "serve {format:?} {calls} {port}{exports}")
        }
        Command::Generate { seed, count, file } => {
            format!(in alloc; "generate {seed} {count} {}", file.as_str())
        }
        _ => String::from_str(alloc, "script"),
    }
}

/// A command of options and words.
fn shown_words(
    alloc: Global,
    name: &str,
    common: &Common,
    words: &[&Word],
) -> Result<String, AllocError> {
    let common = shown_common(alloc, common)?;
    let mut text = format!(in alloc; "{name} {common}")?;
    for word in words {
        text.push_str(" ")?;
        text.push_str(word.as_str())?;
    }
    Ok(text)
}

fn shown_limits(
    alloc: Global,
    common: &Common,
    name: &Word,
    limits: &[Word; 4],
    file: &Word,
) -> Result<String, AllocError> {
    let [bsoft, bhard, isoft, ihard] = limits;
    let words = [name, bsoft, bhard, isoft, ihard, file];
    shown_words(alloc, "limits", common, &words)
}

/// A word, or `-` where there is none.
fn shown_word(word: &Option<Word>) -> &str {
    match word {
        Some(word) => word.as_str(),
        None => "-",
    }
}

/// The kind, the format and the names.
fn shown_common(alloc: Global, common: &Common) -> Result<String, AllocError> {
    let names = shown_word(&common.names);
    format!(in alloc; "{:?} {:?} {names}", common.kind, common.format)
}

/// The letter of an option, or `-` where it is not set.
fn letter_if(is_set: bool, letter: &'static str) -> &'static str {
    if is_set { letter } else { "-" }
}

/// The exports, one after the other.
fn shown_exports(alloc: Global, exports: &ExportOptions) -> Result<String, AllocError> {
    let mut text = String::new(alloc);
    for export in exports.as_slice() {
        let (path, file) = (export.path.as_str(), export.file.as_str());
        let one = format!(in alloc; " {path} {:?} {file}", export.kind)?;
        text.push_str(one.as_str())?;
    }
    Ok(text)
}
