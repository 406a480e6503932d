ghost use Rattle.std.specs.Prelude.{◌≡◌, ◌≢◌, ◌≤◌, ◌⊎◌, ◌↔◌, false, None, Some, Err, Ok, IsTrue, IsErr, IsErrAnd};
ghost use Rattle.std.specs.Prelude.{IfErr, is_ok, nat_eq};
ghost use Rattle.std.specs.Result.{result_err};
ghost use Rattle.outside.specs.Count.{Rose};
ghost use Rattle.run_steps.specs.Done.{IsAllTold, NoFault, outside_of, seen_of, tells_of};
ghost use Rattle.quota_cli.specs.Headline.{HasEffect, Keeps, asked, command_line, uses_asked};
ghost use Rattle.command_words.specs.Asked.{command_of};
ghost use Rattle.command_table.specs.CarriedOut.{CommandCommits, IsCarriedOut, IsToldAsUsed};
ghost use Rattle.quota_cli.specs.Script.{StandsInScript, commanded, is_script};
ghost use Rattle.refusals.specs.declared.cause.Cause.TheVariants.{Memory};
ghost use Rattle.refusals.specs.declared.reason.Refusal.{Refusal};
ghost use Rattle.refusals.specs.Line.{closing_line};
ghost use Rattle.refusals.specs.Said.{AppendsUnless};
ghost use Rattle.refusals.specs.Status.{end_status, status_of};
ghost use Rattle.option_words.specs.Items.{texts_of};

use crate::script::run_script;
use command_table::{carry_out, usage_refusal};
use command_words::Command;
use outside::{Link, Sink, Source, Store};
use refusals::{Refusal, refuse};
use run_steps::Invocation;
use std::alloc::Global;

// Words are read by a call of this crate, too, though it stands below it.
pub use command_words::{UsageFault, read_words};

/// Carries out the command that the words ask for, and answers the status with which the program ends: 0 done,
/// 1 refused by the command, 2 the words are outside the grammar, 3 the file is no quota file of the kind and format,
/// or damaged, 4 a fault of the store, the input, the output or the link, 5 not enough memory. With a status other than
/// 0 one error line goes to `err`.
///
/// `words` are the words of the command line without the program's own name, and `now` is in seconds since 1970.
pub fn run<S: Store, I: Source, O: Sink, E: Sink, L: Link>(
    alloc: Global,
    words: &[String],
    store: &mut S,
    input: &mut I,
    out: &mut O,
    err: &mut E,
    link: &mut L,
    now: u64,
) -> u8
    // Where nothing outside failed and memory sufficed, the run has the effect of the words and no other.
    ensures headline { let tells = tells_of S.tells I.tells O.tells E.tells L.tells in
        let old = seen_of (S.seen store.old) (I.seen input.old) (O.seen out.old) (E.seen err.old) (L.seen link.old) in
        let new = seen_of (S.seen store.new) (I.seen input.new) (O.seen out.new) (E.seen err.new) (L.seen link.new) in
        IsAllTold tells → NoFault old new → result ≢ 5
        → HasEffect (command_line (texts_of words.now) now) tells old new result }
    // What else it keeps, whatever is told: what was done and said, which status it has, what stays, and what has
    // begun.
    ensures keeps { Keeps (command_line (texts_of words.now) now) (tells_of S.tells I.tells O.tells E.tells L.tells)
        (seen_of (S.seen store.old) (I.seen input.old) (O.seen out.old) (E.seen err.old) (L.seen link.old))
        (seen_of (S.seen store.new) (I.seen input.new) (O.seen out.new) (E.seen err.new) (L.seen link.new)) result }
    // Refused words leave the store alone, and a command leaves alone what it does not use, whatever is told.
    ensures store { (refusal : Refusal) → (asked (command_line (texts_of words.now) now)).faulty ≡ Some refusal
        → store.new ≡ store.old }
    ensures input { (uses_asked (command_line (texts_of words.now) now)).input ≡ false → input.new ≡ input.old }
    ensures out { (uses_asked (command_line (texts_of words.now) now)).out ≡ false → out.new ≡ out.old }
    ensures link { (uses_asked (command_line (texts_of words.now) now)).link ≡ false → link.new ≡ link.old }
    // What the input keeps along its calls is kept, such as the files of a store that it reads from.
    ensures source { I.keeps false input.old input.new }
    // All that the run put where a stop of the machine leaves it are files that the steps come to, each behind some
    // first part of their acts; and where the command changes files at one moment, those of one moment alone: of the
    // end, with status 0.
    ensures commits { IsToldAsUsed (uses_asked (command_line (texts_of words.now) now))
        (tells_of S.tells I.tells O.tells E.tells L.tells)
        → CommandCommits (asked (command_line (texts_of words.now) now)) (record { now = now; line = None })
        (nat_eq result 0)
        (outside_of (seen_of (S.seen store.old) (I.seen input.old) (O.seen out.old) (E.seen err.old) (L.seen link.old)))
        (S.seen store.new).files (λ worlds. S.commits worlds store.old store.new) }
{
    let done = carry_out_words(alloc, words, store, input, out, err, link, now);
    finish(err, done)
}

/// Reads the words, and carries out the command that they ask for, but for its error line.
fn carry_out_words<S: Store, I: Source, O: Sink, E: Sink, L: Link>(
    alloc: Global,
    words: &[String],
    store: &mut S,
    input: &mut I,
    out: &mut O,
    err: &mut E,
    link: &mut L,
    now: u64,
) -> Result<(), Refusal>
    ensures carries { IsCarriedOut (asked (command_line (texts_of words.now) now)) (record { now = now; line = None })
        (tells_of S.tells I.tells O.tells E.tells L.tells)
        (seen_of (S.seen store.old) (I.seen input.old) (O.seen out.old) (E.seen err.old) (L.seen link.old))
        (seen_of (S.seen store.new) (I.seen input.new) (O.seen out.new) (E.seen err.new) (L.seen link.new)) result }
    ensures stands { IsTrue (uses_asked (command_line (texts_of words.now) now)).reads_commands
        → IfErr result (StandsInScript now (tells_of S.tells I.tells O.tells E.tells L.tells)
        (seen_of (S.seen store.old) (I.seen input.old) (O.seen out.old) (E.seen err.old) (L.seen link.old))
        (seen_of (S.seen store.new) (I.seen input.new) (O.seen out.new) (E.seen err.new) (L.seen link.new))) }
    ensures usage { (uses_asked (command_line (texts_of words.now) now)).reads_commands ≡ false
        → IsErrAnd result (λ said. status_of said.cause ≡ 2) ↔ IsErr (command_of false (texts_of words.now)) }
    ensures word { (refusal : Refusal) → (asked (command_line (texts_of words.now) now)).faulty ≡ Some refusal
        → IsErrAnd result (λ said. (said ≡ refusal) ⊎ (said.cause ≡ Memory)) }
    ensures quiet { (refusal : Refusal) → (asked (command_line (texts_of words.now) now)).faulty ≡ Some refusal
        → err.new ≡ err.old }
    ensures store { (refusal : Refusal) → (asked (command_line (texts_of words.now) now)).faulty ≡ Some refusal
        → store.new ≡ store.old }
    ensures input { (uses_asked (command_line (texts_of words.now) now)).input ≡ false → input.new ≡ input.old }
    ensures source { I.keeps false input.old input.new }
    ensures out { (uses_asked (command_line (texts_of words.now) now)).out ≡ false → out.new ≡ out.old }
    ensures link { (uses_asked (command_line (texts_of words.now) now)).link ≡ false → link.new ≡ link.old }
    ensures commits { IsToldAsUsed (uses_asked (command_line (texts_of words.now) now))
        (tells_of S.tells I.tells O.tells E.tells L.tells)
        → CommandCommits (asked (command_line (texts_of words.now) now))
        (record { now = now; line = None }) (is_ok result)
        (outside_of (seen_of (S.seen store.old) (I.seen input.old) (O.seen out.old) (E.seen err.old) (L.seen link.old)))
        (S.seen store.new).files (λ worlds. S.commits worlds store.old store.new) }
{
    let invocation = outside_script(now);
    match read_words(alloc, words, false) {
        Ok(command) => carry_command(alloc, command, store, input, out, err, link, invocation),
        Err(fault) => Err(usage_refusal(alloc, fault)),
    }
}

/// The invocation of a command that stands in no script.
fn outside_script(now: u64) -> Invocation
    ensures { result ≡ record { now = now; line = None } }
{
    Invocation { now, line: None }
}

/// Carries out a command of the command line, which may be a script, but for its error line.
fn carry_command<S: Store, I: Source, O: Sink, E: Sink, L: Link>(
    alloc: Global,
    command: Command,
    store: &mut S,
    input: &mut I,
    out: &mut O,
    err: &mut E,
    link: &mut L,
    invocation: Invocation,
) -> Result<(), Refusal>
    requires { (commanded command).known }
    ensures carries { IsCarriedOut (commanded command) invocation (tells_of S.tells I.tells O.tells E.tells L.tells)
        (seen_of (S.seen store.old) (I.seen input.old) (O.seen out.old) (E.seen err.old) (L.seen link.old))
        (seen_of (S.seen store.new) (I.seen input.new) (O.seen out.new) (E.seen err.new) (L.seen link.new)) result }
    ensures stands { IsTrue (commanded command).uses.reads_commands
        → IfErr result (StandsInScript invocation.now (tells_of S.tells I.tells O.tells E.tells L.tells)
        (seen_of (S.seen store.old) (I.seen input.old) (O.seen out.old) (E.seen err.old) (L.seen link.old))
        (seen_of (S.seen store.new) (I.seen input.new) (O.seen out.new) (E.seen err.new) (L.seen link.new))) }
    ensures word { (refusal : Refusal) → (commanded command).faulty ≡ Some refusal → result ≡ Err refusal }
    ensures quiet { (refusal : Refusal) → (commanded command).faulty ≡ Some refusal → err.new ≡ err.old }
    ensures store { (refusal : Refusal) → (commanded command).faulty ≡ Some refusal → store.new ≡ store.old }
    ensures input { (commanded command).uses.input ≡ false → input.new ≡ input.old }
    ensures out { (commanded command).uses.out ≡ false → out.new ≡ out.old }
    ensures link { (commanded command).uses.link ≡ false → link.new ≡ link.old }
    ensures source { I.keeps false input.old input.new }
    ensures commits { IsToldAsUsed (commanded command).uses (tells_of S.tells I.tells O.tells E.tells L.tells)
        → CommandCommits (commanded command) invocation (is_ok result)
        (outside_of (seen_of (S.seen store.old) (I.seen input.old) (O.seen out.old) (E.seen err.old) (L.seen link.old)))
        (S.seen store.new).files (λ worlds. S.commits worlds store.old store.new) }
{
    if is_script(&command) {
        run_script(alloc, store, input, out, err, link, invocation)
    } else {
        carry_out(alloc, command, store, input, out, err, link, invocation)
    }
}

/// Whether a command is a script.
fn is_script(command: &Command) -> bool
    ensures { result ≡ is_script command.now }
{
    matches!(command, Command::Script)
}

/// Writes the error line of a command that was refused, and answers the status with which the program ends. The status
/// stays where the error output fails.
fn finish<E: Sink>(err: &mut E, done: Result<(), Refusal>) -> u8
    ensures status { result ≡ end_status (result_err done) }
    ensures line { IsTrue E.tells → AppendsUnless (Rose (E.seen err.old).faults (E.seen err.new).faults)
        (E.seen err.old).written (E.seen err.new).written (closing_line (result_err done)) }
    ensures later { (E.seen err.old).faults ≤ (E.seen err.new).faults }
{
    match done {
        Ok(()) => 0,
        Err(refusal) => refuse(err, &refusal),
    }
}
