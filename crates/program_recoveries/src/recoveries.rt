ghost use Rattle.std.specs.Prelude.{◌≡◌, ◌≤◌, false};

use jiff::Timestamp;
use outside::Sink;
use std::alloc::{AllocError, Global};
use system_objects::DiskFailure;
use undo_trust::gates::{Gate, GateOutcome};
use undo_trust::trust::Distrust;
use undo_trust::undo::plain_name;

/// A moment in seconds since 1970 as a text, in UTC; as a number where it has no date.
fn moment_text(alloc: Global, seconds: i64) -> Result<String, AllocError> {
    let text = match Timestamp::from_second(seconds) {
        Ok(moment) => format!(in alloc; "{moment}")?,
        Err(_) => format!(in alloc; "{seconds}")?,
    };
    Ok(text)
}

/// Why an undo file with an open gate is not believed, and what is to be done.
fn distrust_text(alloc: Global, undo: &str, why: Distrust) -> Result<String, AllocError> {
    let file = plain_name(undo);
    let text = match why {
        Distrust::Names => format!(in alloc;
            "{undo}: not believed: it has an open gate and further names (hard links); delete it, or the other names where an edit of {file} was stopped"
        )?,
        Distrust::Owner(user) => format!(in alloc;
            "{undo}: not believed: it has an open gate and belongs to user {user}; where an edit of {file} by that user was stopped, that user has to run a command on {file}, else delete {undo}"
        )?,
        Distrust::Writers => format!(in alloc;
            "{undo}: not believed: it has an open gate, and more accounts may write it than {file}; where an edit of {file} was stopped, root or its owner has to give it the mode of {file}, else delete it"
        )?,
        Distrust::Changed { opened, changed } => {
            let opened = moment_text(alloc, opened)?;
            let changed = moment_text(alloc, changed)?;
            let (opened, changed) = (opened.as_str(), changed.as_str());
            format!(in alloc;
                "{undo}: not believed: its gate was opened at {opened}, and {file}, or its owner, mode or name, was changed at {changed}; delete {undo} if something else made {file} what it is, or run `touch {undo}` if nothing did"
            )?
        }
    };
    Ok(text)
}

/// What came of a gate that was found open, in a text; none where nothing came of one.
fn outcome_text(alloc: Global, gate: &Gate) -> Result<Option<String>, AllocError> {
    let (file, undo) = (gate.file(), gate.undo());
    match gate.outcome() {
        Some(GateOutcome::Mended) => {
            let text = format!(in alloc; "{file}: an edit that was stopped has been undone")?;
            Ok(Some(text))
        }
        Some(GateOutcome::Unusable) => {
            let text = format!(in alloc;
                "{undo}: it had an open gate and does not fit {file}, which stays as it is"
            )?;
            Ok(Some(text))
        }
        Some(GateOutcome::Open) | None => Ok(None),
    }
}

/// The line of a program, called so, that tells a text.
fn push_line(lines: &mut String, called: &str, text: &str) -> Result<(), AllocError> {
    lines.push_str(called)?;
    lines.push_str(": ")?;
    lines.push_str(text)?;
    lines.push_str("\n")?;
    Ok(())
}

/// The lines that tell of undo files: of the one that was not believed, and of all that were found with an open gate.
fn lines_of(
    alloc: Global,
    called: &str,
    failure: Option<&DiskFailure>,
    gates: &[Gate],
) -> Result<String, AllocError> {
    let mut lines = String::new(alloc);
    if let Some(failure) = failure {
        if let Some(why) = failure.distrust {
            let text = distrust_text(alloc, failure.name.as_str(), why)?;
            push_line(&mut lines, called, text.as_str())?;
        }
    }
    for gate in gates {
        if let Some(text) = outcome_text(alloc, gate)? {
            push_line(&mut lines, called, text.as_str())?;
        }
    }
    Ok(lines)
}

/// Writes, where that is asked for and there is memory for it, why an undo file was not believed, where that is
/// what a call on the disk failed for, a line for each file that was recovered, and one for each undo file with an open
/// gate that did not fit its file.
pub fn tell_undo_files<E: Sink>(
    err: &mut E,
    is_asked: bool,
    called: &str,
    failure: Option<&DiskFailure>,
    gates: &[Gate],
    alloc: Global,
)
    ensures quiet { is_asked ≡ false → err.new ≡ err.old }
    ensures later { (E.seen err.old).faults ≤ (E.seen err.new).faults }
{
    if !is_asked {
        return;
    }
    if let Ok(lines) = lines_of(alloc, called, failure, gates) {
        if !lines.is_empty() {
            let _ = err.write(lines.as_bytes());
        }
    }
}
