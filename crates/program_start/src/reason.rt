ghost use Rattle.std.specs.Prelude.{◌≡◌, ◌≢◌, ◌≤◌, ◌⊎◌, ◌++◌, codes, List, None, Some, IfOk, IfSome, IsTrue, false};
ghost use Rattle.std.specs.Prelude.{is_some};
ghost use Rattle.std.specs.Prelude.{string_bytes, ℕ};
ghost use Rattle.outside.specs.Text.{AppendsPrefix};
ghost use Rattle.program_start.specs.Reason.{IsNameIn, IsReasonLine, TellsOf, failed_name, is_unreadable};
ghost use Rattle.program_start.specs.declared.reason.Reason.TheVariants.{Text as TextOf};

use outside::Sink;
use std::alloc::{AllocError, Global};
use std::io;

/// On what the system refused a call.
#[derive(Clone, Copy)]
pub enum Failed<'a> {
    /// The standard input.
    Input,
    /// The standard output.
    Output,
    /// A socket of UDP at this port.
    UdpPort(u16),
    /// A socket of TCP at this port.
    TcpPort(u16),
    /// The file of this name.
    File(&'a str),
}

/// Why a run ended with this status: what the text tells, where there is one, and else, with status 4, what the system
/// refused.
pub fn run_reason<'a>(
    status: u8,
    text: Option<&'a str>,
    refused: Option<Reason<'a>>,
) -> Option<Reason<'a>>
    ensures told { IfSome text.entry (λ told. result ≡ Some (TextOf told)) }
    ensures refused { text.entry ≡ None → status ≡ 4 → result ≡ refused.entry }
    ensures other { text.entry ≡ None → status ≢ 4 → result ≡ None }
{
    match text {
        Some(text) => Some(Reason::Text(text)),
        None if status == 4 => refused,
        None => None,
    }
}

impl Reason<'_> {
    /// Why the words of the command line are not taken: one of them is not UTF-8. None where it is something else.
    pub fn of_words(kind: io::ErrorKind) -> Option<Self>
        ensures { is_some result ≡ is_unreadable kind }
    {
        match kind {
            io::ErrorKind::InvalidData => Some(Reason::Text("a word is not UTF-8")),
            _ => None,
        }
    }
}

impl Failed<'_> {
    /// What it is called.
    fn name(self, alloc: Global) -> Result<String, AllocError>
        ensures { IfOk result (λ name. string_bytes name ≡ failed_name self.entry) }
    {
        match self {
            Failed::Input => String::from_str(alloc, "standard input"),
            Failed::Output => String::from_str(alloc, "standard output"),
            Failed::UdpPort(port) => format!(in alloc; "UDP port {port}"),
            Failed::TcpPort(port) => format!(in alloc; "TCP port {port}"),
            Failed::File(name) => String::from_str(alloc, name),
        }
    }
}

/// Why a run ended with another status than 0.
#[derive(Clone, Copy)]
pub enum Reason<'a> {
    /// The system refused a call.
    Refused {
        /// On what it refused it.
        of: Failed<'a>,
        /// Why.
        error: io::Error,
        /// What an earlier run left beside the file, where it did.
        left: Option<&'a str>,
    },
    /// What this text tells.
    Text(&'a str),
}

/// The words of an error without the system's number of it.
fn without_number(words: &str) -> &str {
    match words.rsplit_once(" (os error ") {
        Some((words, _)) => words,
        None => words,
    }
}

/// The name of a program that was called by a path: the last part of that.
pub fn name_in(path: &str) -> &str
    ensures { IsNameIn path.now result.now }
{
    match path.rsplit_once('/') {
        Some((_, name)) => name,
        None => path,
    }
}

/// The line that tells of a program, called by this path, why a run ended so.
fn line_of(alloc: Global, called: &str, reason: Reason<'_>) -> Result<String, AllocError>
    ensures { IfOk result (λ line. IsReasonLine called.now reason.entry (string_bytes line)) }
{
    let text = text_of(alloc, reason)?;
    line_with(alloc, name_in(called), text.as_str())
}

/// The text of a reason.
fn text_of(alloc: Global, reason: Reason<'_>) -> Result<String, AllocError>
    ensures { IfOk result (λ text. TellsOf reason.entry (string_bytes text)) }
{
    match reason {
        Reason::Refused { of, error, left } => {
            let words = format!(in alloc; "{error}")?;
            let failed = of.name(alloc)?;
            let words = with_left(alloc, without_number(words.as_str()), left)?;
            told(alloc, failed.as_str(), words.as_str())
        }
        Reason::Text(text) => String::from_str(alloc, text),
    }
}

/// What the system said, and what an earlier run left.
fn with_left(alloc: Global, words: &str, left: Option<&str>) -> Result<String, AllocError> {
    match left {
        Some(left) => format!(in alloc;
            "{words}; {left} was left by a run that was stopped, and may be deleted"
        ),
        None => String::from_str(alloc, words),
    }
}

/// What is said of something.
fn told(alloc: Global, what: &str, words: &str) -> Result<String, AllocError>
    ensures { IfOk result (λ text. string_bytes text ≡ what.now ++ codes ": " ++ words.now) }
{
    format!(in alloc; "{what}: {words}")
}

/// The line of a program of this name that tells a text.
fn line_with(alloc: Global, name: &str, text: &str) -> Result<String, AllocError>
    ensures { IfOk result (λ line. string_bytes line ≡ name.now ++ codes ": " ++ text.now ++ codes "\n") }
{
    let line = told(alloc, name, text)?;
    format!(in alloc; "{line}\n")
}

/// Writes behind the error line why a run ended with another status than 0, where that is asked for and known, and
/// there is memory for the line.
pub fn add_reason<E: Sink>(
    err: &mut E,
    is_asked: bool,
    status: u8,
    called: &str,
    reason: Option<Reason<'_>>,
    alloc: Global,
)
    ensures quiet { (is_asked ≡ false) ⊎ (status ≡ 0) → err.new ≡ err.old }
    ensures unknown { reason.entry ≡ None → err.new ≡ err.old }
    ensures line { IfSome reason.entry (λ reason. IsTrue E.tells → (err.new ≡ err.old)
        ⊎ ((line : List ℕ) × IsReasonLine called.now reason line
        × AppendsPrefix (E.seen err.old).written (E.seen err.new).written line)) }
    ensures later { (E.seen err.old).faults ≤ (E.seen err.new).faults }
{
    if !is_asked || status == 0 {
        return;
    }
    let Some(reason) = reason else {
        return;
    };
    write_reason(err, called, reason, alloc);
}

/// Writes behind what a run with status 0 wrote what there is to note of it, where that is asked for and known, and
/// there is memory for the line.
pub fn add_note<E: Sink>(
    err: &mut E,
    is_asked: bool,
    called: &str,
    note: Option<&str>,
    alloc: Global,
)
    ensures quiet { is_asked ≡ false → err.new ≡ err.old }
    ensures unknown { note.entry ≡ None → err.new ≡ err.old }
    ensures line { IfSome note.entry (λ note. IsTrue E.tells → (err.new ≡ err.old)
        ⊎ ((line : List ℕ) × IsReasonLine called.now (TextOf note) line
        × AppendsPrefix (E.seen err.old).written (E.seen err.new).written line)) }
    ensures later { (E.seen err.old).faults ≤ (E.seen err.new).faults }
{
    if !is_asked {
        return;
    }
    if let Some(note) = note {
        write_reason(err, called, Reason::Text(note), alloc);
    }
}

/// Writes the line of a reason, where there is memory for it.
fn write_reason<E: Sink>(err: &mut E, called: &str, reason: Reason<'_>, alloc: Global)
    ensures line { IsTrue E.tells → (err.new ≡ err.old)
        ⊎ ((line : List ℕ) × IsReasonLine called.now reason.entry line
        × AppendsPrefix (E.seen err.old).written (E.seen err.new).written line) }
    ensures later { (E.seen err.old).faults ≤ (E.seen err.new).faults }
{
    if let Ok(line) = line_of(alloc, called, reason) {
        let _ = err.write(line.as_bytes());
    }
}
