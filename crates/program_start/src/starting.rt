ghost use Rattle.std.specs.Prelude.{◌≡◌, ◌≤◌, [], IsTrue};
ghost use Rattle.outside.specs.Count.{Rose};
ghost use Rattle.program_start.specs.Starting.{starting_cause, words_cause};
ghost use Rattle.refusals.specs.Line.{error_line};
ghost use Rattle.refusals.specs.Refusals.{refusal_of};
ghost use Rattle.refusals.specs.Said.{AppendsUnless};
ghost use Rattle.refusals.specs.Status.{status_of};

use outside::Sink;
use refusals::{Cause, Refusal, UsageKind, Word, refuse};
use std::alloc::Global;
use std::io::ErrorKind;

/// Why the program stops where the system does not give it its words. Words that are not all UTF-8 are wrong words from
/// the first one on, in the way that `unreadable` says: a program with commands knows no such command, and another one
/// no such operands.
pub fn words_cause(unreadable: UsageKind, kind: ErrorKind) -> Cause
    ensures { result ≡ words_cause unreadable kind }
{
    match kind {
        ErrorKind::InvalidData => Cause::Usage {
            kind: unreadable,
            word: 0,
        },
        kind => starting_cause(kind),
    }
}

/// Why the program stops where the system fails to give it its words or the moment.
pub fn starting_cause(kind: ErrorKind) -> Cause
    ensures { result ≡ starting_cause kind }
{
    match kind {
        ErrorKind::OutOfMemory => Cause::Memory,
        _ => Cause::StoreFault,
    }
}

/// Says why the program stops before it has begun, and answers its status.
pub fn stop<E: Sink>(err: &mut E, cause: Cause, alloc: Global) -> u8
    ensures status { result ≡ status_of cause }
    ensures line { IsTrue E.tells → AppendsUnless (Rose (E.seen err.old).faults (E.seen err.new).faults)
        (E.seen err.old).written (E.seen err.new).written (error_line (refusal_of cause [])) }
    ensures later { (E.seen err.old).faults ≤ (E.seen err.new).faults }
{
    refuse(err, &Refusal::of(cause, Word::empty(alloc)))
}
