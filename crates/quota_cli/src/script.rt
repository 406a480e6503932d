//! A script: the commands that the lines of the standard input ask for, one after another.

ghost use Rattle.std.specs.Prelude.{◌≡◌, [], false, true, map, is_ok, IfErr, IfSome, Some, ⊤};
ghost use Rattle.std.specs.Result.{result_err};
ghost use Rattle.command_table.specs.CarriedOut.{CommandCommits, IsCarriedOut, IsToldAsUsed};
ghost use Rattle.command_table.specs.Table.{asked_by, described};
ghost use Rattle.command_words.specs.Asked.{command_of};
ghost use Rattle.option_words.specs.Items.{texts_of};
ghost use Rattle.quota_cli.specs.Carrying.{AreCarried, IsLineCarried, unread_cause};
ghost use Rattle.quota_cli.specs.Script.{LineSteps, LinesSteps, StandsInScript, asked_in_script, scripting};
ghost use Rattle.refusals.specs.Refusals.{in_line, refusal_of};
ghost use Rattle.run_steps.specs.Committed.{CommitsSteps};
ghost use Rattle.run_steps.specs.Done.{IsWorldTold, outside_of, seen_of, tells_of};
ghost use Rattle.script_lines.specs.ScriptReading.{IsOfScript, line_read};

use command_table::{carry_out, usage_refusal};
use command_words::read_words;
use outside::{Link, Sink, Source, Store};
use refusals::{Cause, Place, Refusal, Word};
use run_steps::Invocation;
use script_lines::{Script, ScriptFault, ScriptLine, read_script, words_of_line};
use std::alloc::Global;

/// Reads a script from the standard input, up to its first line that is refused or to the end of the input, and then
/// carries out the commands that its lines ask for, one after another.
///
/// # Errors
///
/// The script itself is refused, or a command in one of its lines; or there is not enough memory. The commands in the
/// lines before were carried out.
pub fn run_script<S: Store, I: Source, O: Sink, E: Sink, L: Link>(
    alloc: Global,
    store: &mut S,
    input: &mut I,
    out: &mut O,
    err: &mut E,
    link: &mut L,
    invocation: Invocation,
) -> Result<(), Refusal>
    ensures carries { IsCarriedOut scripting invocation (tells_of S.tells I.tells O.tells E.tells L.tells)
        (seen_of (S.seen store.old) (I.seen input.old) (O.seen out.old) (E.seen err.old) (L.seen link.old))
        (seen_of (S.seen store.new) (I.seen input.new) (O.seen out.new) (E.seen err.new) (L.seen link.new)) result }
    ensures source { I.keeps false input.old input.new }
    // What is refused stands in the script.
    ensures stands { IfErr result (StandsInScript invocation.now (tells_of S.tells I.tells O.tells E.tells L.tells)
        (seen_of (S.seen store.old) (I.seen input.old) (O.seen out.old) (E.seen err.old) (L.seen link.old))
        (seen_of (S.seen store.new) (I.seen input.new) (O.seen out.new) (E.seen err.new) (L.seen link.new))) }
    // All that is committed are files that the steps of the lines come to.
    ensures commits { IsWorldTold (tells_of S.tells I.tells O.tells E.tells L.tells)
        → CommandCommits scripting invocation (is_ok result)
        (outside_of (seen_of (S.seen store.old) (I.seen input.old) (O.seen out.old) (E.seen err.old) (L.seen link.old)))
        (S.seen store.new).files (λ worlds. S.commits worlds store.old store.new) }
{
    match read_script(alloc, input) {
        Ok(script) => {
            let Script { lines, refusal } = script;
            let lines = lines.as_slice();
            carry_lines(
                alloc,
                lines,
                refusal,
                store,
                input,
                out,
                err,
                link,
                invocation.now,
            )
        }
        Err(fault) => Err(unread(alloc, fault)),
    }
}

/// What is said where a script was not read.
fn unread(alloc: Global, fault: ScriptFault) -> Refusal
    ensures { result ≡ refusal_of (unread_cause fault) [] }
{
    let cause = match fault {
        ScriptFault::Source => Cause::SourceFault,
        ScriptFault::Memory => Cause::Memory,
    };
    Refusal::of(cause, Word::empty(alloc))
}

/// Carries out the commands that lines ask for, one after another, and then refuses the script, where it is refused
/// itself.
fn carry_lines<S: Store, I: Source, O: Sink, E: Sink, L: Link>(
    alloc: Global,
    lines: &[ScriptLine],
    refusal: Option<Refusal>,
    store: &mut S,
    input: &mut I,
    out: &mut O,
    err: &mut E,
    link: &mut L,
    now: u64,
) -> Result<(), Refusal>
    requires { IfSome refusal IsOfScript }
    ensures carries { AreCarried now (map line_read lines.now) refusal
        (tells_of S.tells I.tells O.tells E.tells L.tells)
        (seen_of (S.seen store.old) (I.seen input.old) (O.seen out.old) (E.seen err.old) (L.seen link.old))
        (seen_of (S.seen store.new) (I.seen input.new) (O.seen out.new) (E.seen err.new) (L.seen link.new)) result }
    ensures input { input.new ≡ input.old }
    ensures commits { IsWorldTold (tells_of S.tells I.tells O.tells E.tells L.tells)
        → CommitsSteps ⊥ (is_ok result) (LinesSteps now (map line_read lines.now) refusal) (λ _. ⊤)
        (outside_of (seen_of (S.seen store.old) (I.seen input.old) (O.seen out.old) (E.seen err.old) (L.seen link.old)))
        (S.seen store.new).files (λ worlds. S.commits worlds store.old store.new) }
{
    for line in lines {
        match carry_line(alloc, line, store, input, out, err, link, now) {
            Ok(()) => {}
            Err(stop) => return Err(stop),
        }
    }
    match refusal {
        Some(refusal) => Err(refusal),
        None => Ok(()),
    }
}

/// Carries out what a line asks for, in that line.
fn carry_line<S: Store, I: Source, O: Sink, E: Sink, L: Link>(
    alloc: Global,
    line: &ScriptLine,
    store: &mut S,
    input: &mut I,
    out: &mut O,
    err: &mut E,
    link: &mut L,
    now: u64,
) -> Result<(), Refusal>
    ensures carries { IsLineCarried now (line_read line.now) (tells_of S.tells I.tells O.tells E.tells L.tells)
        (seen_of (S.seen store.old) (I.seen input.old) (O.seen out.old) (E.seen err.old) (L.seen link.old))
        (seen_of (S.seen store.new) (I.seen input.new) (O.seen out.new) (E.seen err.new) (L.seen link.new)) result }
    ensures input { input.new ≡ input.old }
    ensures commits { IsWorldTold (tells_of S.tells I.tells O.tells E.tells L.tells)
        → CommitsSteps ⊥ (is_ok result) (LineSteps now (line_read line.now)) (λ _. ⊤)
        (outside_of (seen_of (S.seen store.old) (I.seen input.old) (O.seen out.old) (E.seen err.old) (L.seen link.old)))
        (S.seen store.new).files (λ worlds. S.commits worlds store.old store.new) }
{
    let invocation = in_script(now, line.number);
    let text = line.text.as_str();
    let done = carry_text(alloc, text, store, input, out, err, link, invocation);
    in_line(line.number, done)
}

/// The invocation of a command that stands in a line of a script.
fn in_script(now: u64, number: u64) -> Invocation
    ensures { result ≡ record { now = now; line = Some number } }
{
    let line = Some(number);
    Invocation { now, line }
}

/// What was done in a line of a script: its refusal names the line.
fn in_line(number: u64, done: Result<(), Refusal>) -> Result<(), Refusal>
    ensures { result_err result ≡ in_line number (result_err done) }
{
    match done {
        Ok(()) => Ok(()),
        Err(refusal) => Err(Refusal {
            place: Place {
                line: Some(number),
                input_line: refusal.place.input_line,
            },
            ..refusal
        }),
    }
}

/// Carries out what the words of a line ask for, but for its error line.
fn carry_text<S: Store, I: Source, O: Sink, E: Sink, L: Link>(
    alloc: Global,
    text: &str,
    store: &mut S,
    input: &mut I,
    out: &mut O,
    err: &mut E,
    link: &mut L,
    invocation: Invocation,
) -> Result<(), Refusal>
    ensures carries { IsCarriedOut (asked_in_script text.now) invocation
        (tells_of S.tells I.tells O.tells E.tells L.tells)
        (seen_of (S.seen store.old) (I.seen input.old) (O.seen out.old) (E.seen err.old) (L.seen link.old))
        (seen_of (S.seen store.new) (I.seen input.new) (O.seen out.new) (E.seen err.new) (L.seen link.new)) result }
    ensures link { (asked_in_script text.now).uses.link ≡ false → link.new ≡ link.old }
    ensures input { input.new ≡ input.old }
    ensures commits { IsToldAsUsed (asked_in_script text.now).uses (tells_of S.tells I.tells O.tells E.tells L.tells)
        → CommandCommits (asked_in_script text.now) invocation (is_ok result)
        (outside_of (seen_of (S.seen store.old) (I.seen input.old) (O.seen out.old) (E.seen err.old) (L.seen link.old)))
        (S.seen store.new).files (λ worlds. S.commits worlds store.old store.new) }
{
    match words_of_line(alloc, text) {
        Ok(words) => carry_words(
            alloc,
            words.as_slice(),
            store,
            input,
            out,
            err,
            link,
            invocation,
        ),
        Err(_) => Err(Refusal::of(Cause::Memory, Word::empty(alloc))),
    }
}

/// Carries out what words in a script ask for, but for its error line.
fn carry_words<S: Store, I: Source, O: Sink, E: Sink, L: Link>(
    alloc: Global,
    words: &[String],
    store: &mut S,
    input: &mut I,
    out: &mut O,
    err: &mut E,
    link: &mut L,
    invocation: Invocation,
) -> Result<(), Refusal>
    ensures carries { IsCarriedOut (asked_by described (command_of true (texts_of words.now))) invocation
        (tells_of S.tells I.tells O.tells E.tells L.tells)
        (seen_of (S.seen store.old) (I.seen input.old) (O.seen out.old) (E.seen err.old) (L.seen link.old))
        (seen_of (S.seen store.new) (I.seen input.new) (O.seen out.new) (E.seen err.new) (L.seen link.new)) result }
    ensures link { (asked_by described (command_of true (texts_of words.now))).uses.link ≡ false → link.new ≡ link.old }
    ensures input { input.new ≡ input.old }
    ensures commits { IsToldAsUsed (asked_by described (command_of true (texts_of words.now))).uses
        (tells_of S.tells I.tells O.tells E.tells L.tells)
        → CommandCommits (asked_by described (command_of true (texts_of words.now))) invocation (is_ok result)
        (outside_of (seen_of (S.seen store.old) (I.seen input.old) (O.seen out.old) (E.seen err.old) (L.seen link.old)))
        (S.seen store.new).files (λ worlds. S.commits worlds store.old store.new) }
{
    match read_words(alloc, words, true) {
        Ok(command) => carry_out(alloc, command, store, input, out, err, link, invocation),
        Err(fault) => Err(usage_refusal(alloc, fault)),
    }
}
