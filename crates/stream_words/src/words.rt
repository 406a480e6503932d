ghost use Rattle.std.specs.Prelude.{◌≡◌, ◌≤◌, ◌+◌, ◌%◌, ◌<◌, ◌^◌, [], length, MatchResult, Ok, Err};
ghost use Rattle.std.specs.List.{list_any};
ghost use Rattle.option_words.specs.Fault.{fault, with_value};
ghost use Rattle.option_words.specs.Given.{export_given, exports_given, is_exported, kind_word};
ghost use Rattle.option_words.specs.Items.{texts_of};
ghost use Rattle.refusals.specs.declared.cause.UsageKind.TheVariants.{BadValue, WrongOperands};
ghost use Rattle.stream_words.specs.Words.{are_files, are_flat_projects, asked_format, asked_of, export_of, exports_of};
ghost use Rattle.stream_words.specs.Words.{is_of_projects, run_of, stream_asked};

use arrayvec::ArrayVec;
use option_words::{
    ExportWords, Fault, is_export_path, read_calls, read_file_name, read_format, read_kind,
    read_port,
};
use quota_types::{Format, Kind};
use refusals::UsageKind;

/// The words of a file: PATH KIND FILE.
const WORDS_OF_FILE: usize = 3;

/// The most words of files.
const MOST_WORDS: usize = 48;

/// The number of the first word of a file.
const FIRST_FILE: usize = 3;

/// What words ask for, with texts that stand in them.
#[derive(Drop)]
pub struct StreamWords<'a> {
    /// The port at which connections are accepted.
    pub port: u16,
    /// How many are accepted.
    pub connections: u32,
    /// The format in which the files are opened, where one is asked for.
    pub format: Option<Format>,
    /// The files, with their paths.
    pub exports: ArrayVec<ExportWords<'a>, 16>,
}

/// Reads the words of a run: PORT CONNECTIONS FORMAT, and 1 to 16 times PATH KIND FILE.
///
/// # Errors
///
/// The number of words is another one; or the first word that is not of its form or range, or the first path of a pair
/// of path and kind that stood before; or flat files of projects are asked for.
pub fn read_words(words: &[String]) -> Result<StreamWords<'_>, Fault>
    ensures { MatchResult result (λ read. asked_of (texts_of words.now) ≡ Ok (stream_asked read))
        (λ met. asked_of (texts_of words.now) ≡ Err met) }
{
    let [port, connections, format, files @ ..] = words else {
        return Err(wrong_number(words));
    };
    if !are_files(files.len()) {
        return Err(wrong_number(words));
    }
    read_run(
        words.len(),
        port.as_str(),
        connections.as_str(),
        format.as_str(),
        files,
    )
}

/// The fault of a wrong number of words.
fn wrong_number(words: &[String]) -> Fault
    ensures { result ≡ fault WrongOperands (length words.now) }
{
    Fault::at(UsageKind::WrongOperands, words.len())
}

/// Whether so many words are those of 1 to 16 files.
fn are_files(count: usize) -> bool
    ensures { result ≡ are_files count }
{
    count >= WORDS_OF_FILE && count <= MOST_WORDS && count % WORDS_OF_FILE == 0
}

/// Reads words of a run that are of the right number, `count`.
fn read_run<'a>(
    count: usize,
    port: &str,
    connections: &str,
    format: &str,
    files: &'a [String],
) -> Result<StreamWords<'a>, Fault>
    requires few { length files.now ≤ 48 }
    requires whole { length files.now % 3 ≡ 0 }
    ensures { MatchResult result
        (λ read. run_of count port.now connections.now format.now (texts_of files.now) ≡ Ok (stream_asked read))
        (λ met. run_of count port.now connections.now format.now (texts_of files.now) ≡ Err met) }
{
    let port = read_port(port, 0)?;
    let connections = read_calls(connections, 1)?;
    let format = read_asked_format(format, 2)?;
    let exports = read_exports(files)?;
    if are_flat_projects(format, exports.as_slice()) {
        return Err(Fault::at(UsageKind::Excludes, count));
    }
    Ok(StreamWords {
        port,
        connections,
        format,
        exports,
    })
}

/// Reads the format that a word asks for; `any` asks for none.
fn read_asked_format(value: &str, word: usize) -> Result<Option<Format>, Fault>
    ensures { result ≡ with_value (asked_format value.now) (fault BadValue word) (λ format. Ok format) }
{
    if value == "any" {
        return Ok(None);
    }
    match read_format(value, word) {
        Ok(format) => Ok(Some(format)),
        Err(fault) => Err(fault),
    }
}

/// Reads the words of files, which begin at word 3.
fn read_exports(files: &[String]) -> Result<ArrayVec<ExportWords<'_>, 16>, Fault>
    requires few { length files.now ≤ 48 }
    requires whole { length files.now % 3 ≡ 0 }
    ensures { MatchResult result (λ exports. exports_of 3 [] (texts_of files.now) ≡ Ok (exports_given exports.items))
        (λ met. exports_of 3 [] (texts_of files.now) ≡ Err met) }
{
    let mut exports = ArrayVec::new();
    let mut place = 0;
    while place < files.len() {
        let export = read_export(
            exports.as_slice(),
            files[place].as_str(),
            files[place + 1].as_str(),
            files[place + 2].as_str(),
            FIRST_FILE + place,
        )?;
        exports.push(export);
        place += WORDS_OF_FILE;
    }
    Ok(exports)
}

/// Reads the words of a file, which begin at this word, behind the files that were read before.
fn read_export<'a>(
    before: &[ExportWords<'_>],
    path: &'a str,
    kind: &'a str,
    file: &'a str,
    word: usize,
) -> Result<ExportWords<'a>, Fault>
    requires { word < 2 ^ 63 }
    ensures { MatchResult result
        (λ export. export_of word (exports_given before.now) path.now kind.now file.now ≡ Ok (export_given export))
        (λ met. export_of word (exports_given before.now) path.now kind.now file.now ≡ Err met) }
{
    if !is_export_path(path) {
        return Err(Fault::at(UsageKind::BadValue, word));
    }
    if is_exported(path, kind, before) {
        return Err(Fault::at(UsageKind::Repeated, word));
    }
    let kind = read_kind(kind, word + 1)?;
    let file = read_file_name(file, word + 2)?;
    Ok(ExportWords { path, kind, file })
}

// The words of options have the same test, which is private there.
/// Whether a file of this path and kind was read before.
fn is_exported(path: &str, kind: &str, exports: &[ExportWords<'_>]) -> bool
    ensures { result ≡ is_exported path.now kind.now (exports_given exports.now) }
{
    exports.iter().any(|export| export.path == path && kind_word(export.kind) == kind)
}

/// The word of a kind.
fn kind_word(kind: Kind) -> &'static str
    ensures { result.now ≡ kind_word kind }
{
    match kind {
        Kind::User => "user",
        Kind::Group => "group",
        Kind::Project => "project",
    }
}

/// Whether flat files of projects are asked for, which the kernel does not have.
fn are_flat_projects(format: Option<Format>, exports: &[ExportWords<'_>]) -> bool
    ensures { result ≡ are_flat_projects format (exports_given exports.now) }
{
    match format {
        Some(format) => format.is_flat() && have_projects(exports),
        None => false,
    }
}

/// Whether one of the files is that of projects.
fn have_projects(exports: &[ExportWords<'_>]) -> bool
    ensures { result ≡ list_any is_of_projects (exports_given exports.now) }
{
    exports.iter().any(|export| export.kind == Kind::Project)
}
