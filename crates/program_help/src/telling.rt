ghost use Rattle.std.specs.Prelude.{◌≡◌, ◌≤◌, ◌⊎◌, [], IfSome, IsTrue, string_bytes};
ghost use Rattle.option_words.specs.Items.{texts_of};
ghost use Rattle.outside.specs.Count.{Rose};
ghost use Rattle.program_help.specs.About.{Answers, IsAnswered, IsAnsweredInPart, asked};
ghost use Rattle.refusals.specs.Line.{error_line};
ghost use Rattle.refusals.specs.Refusals.{refusal_of};
ghost use Rattle.refusals.specs.Said.{AppendsUnless};
ghost use Rattle.refusals.specs.declared.cause.Cause.TheVariants.{SinkFault as OutputFault};

use crate::commit::{commit_of, with_commit};
use crate::{About, tell};
use outside::Sink;
use std::alloc::Global;
use std::fs::{File, Files};

/// Writes the text that words ask for, and behind that of a version the commit of an installed program. Answers the
/// status with which the program ends: 0, or that of a fault of the output, of which the error output gets the line.
pub fn tell_asked<R: Files<File = File> + AllocGlobal, O: Sink, E: Sink>(
    system: &R,
    words: &[String],
    text: &str,
    out: &mut O,
    err: &mut E,
) -> u8
    ensures told { result ≡ 0 → IsTrue O.tells
        → IsAnswered (asked (texts_of words.now)) text.now (O.seen out.old).written (O.seen out.new).written }
    ensures part { result ≡ 4 → IsTrue O.tells
        → IsAnsweredInPart (asked (texts_of words.now)) text.now (O.seen out.old).written (O.seen out.new).written }
    ensures fault { (result ≡ 0) ⊎ ((result ≡ 4) × Rose (O.seen out.old).faults (O.seen out.new).faults) }
    ensures quiet { result ≡ 0 → err.new ≡ err.old }
    ensures line { result ≡ 4 → IsTrue E.tells → AppendsUnless (Rose (E.seen err.old).faults (E.seen err.new).faults)
        (E.seen err.old).written (E.seen err.new).written (error_line (refusal_of OutputFault [])) }
    ensures later_out { (O.seen out.old).faults ≤ (O.seen out.new).faults }
    ensures later_err { (E.seen err.old).faults ≤ (E.seen err.new).faults }
{
    let alloc = system.alloc();
    match with_known_commit(alloc, system, words, text) {
        Some(told) => tell(out, err, told.as_str(), alloc),
        None => tell(out, err, text, alloc),
    }
}

/// The text of a version with the commit of the program behind it; none where something else is asked for, where no
/// commit is known, or where memory is refused.
fn with_known_commit<R: Files<File = File>>(
    alloc: Global,
    system: &R,
    words: &[String],
    text: &str,
) -> Option<String>
    ensures { IfSome result (λ told. Answers (asked (texts_of words.now)) text.now (string_bytes told)) }
{
    match About::asked(words) {
        Some(About::Version) => with_commit(alloc, text, commit_of(alloc, system)?.as_str()).ok(),
        _ => None,
    }
}
