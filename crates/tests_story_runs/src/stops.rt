//! Runs over a disk that stops at each of its calls in turn, and what a recovery makes of what is left then.

use crate::comparing::{But, are_same, at_call, copied};
use crate::disks::{disk_of, files_in};
use crate::faults::{fault_line, is_fault_line, last_line};
use crate::journaled::{Journaled, calls_over_disk, run_journaled, run_over_disk};
use crate::leaving::{Course, CutOff, is_between, may_be_left};
use disk_in_memory::MemDisk;
use std::alloc::{AllocError, Global};
use tests_story_stage::{
    Checked, Conditions, NamedBytes, Object, Program, Ran, Stage, Wrong, holds_if, instead,
    is_number, names_left, run_over, unmet, words_of,
};

/// The endings of names under which a run over a journal leaves files, besides those of the words.
const NEW_AND_UNDO: &[&str] = &["", ".new", ".undo", ".und"];

/// What the stops of a line go by.
#[derive(Clone, Copy)]
struct Stops<'a> {
    /// What the words meet that change files.
    setting: &'a Conditions,
    changing: &'a [String],
    /// The words that read them, and so recover them.
    reading: &'a [String],
    /// What the changing words left with no stop.
    whole: &'a Ran,
}

/// What a recovery left.
#[derive(Drop)]
struct Recovery {
    files: Vec<NamedBytes>,
    out: Vec<u8>,
}

/// A run over a disk that stopped, where one over a disk that does not has these outputs.
fn is_stopped(alloc: Global, whole_out: &[u8], whole_err: &[u8], ran: &Journaled) -> Checked {
    is_number(alloc, u64::from(ran.status), 4)?;
    let (out, err) = (ran.streams.out.bytes(), ran.streams.err.bytes());
    let fault = last_line(err);
    if !is_fault_line(fault, fault_line(Object::Store)) {
        return instead(alloc, err);
    }
    let said = err.strip_suffix(fault).unwrap_or(err);
    let is_first = whole_out.starts_with(out) && whole_err.starts_with(said);
    holds_if(alloc, is_first, "the output is no first part")
}

/// The files of a disk, under all names that the words and the journal may give them.
fn files_of(
    stage: &Stage,
    stops: &Stops<'_>,
    disk: &mut MemDisk,
) -> Result<Vec<NamedBytes>, AllocError> {
    let names = names_left(stage.alloc, &stage.files, &stops.whole.words, NEW_AND_UNDO)?;
    files_in(stage.alloc, disk, &names)
}

/// The files that a stop left on a disk.
fn files_left(
    stage: &Stage,
    stops: &Stops<'_>,
    disk: MemDisk,
) -> Result<Vec<NamedBytes>, AllocError> {
    let mut left = disk.after_stop(None)?;
    files_of(stage, stops, &mut left)
}

/// Runs the changing words over a disk that stops at a call, and answers the files that are left.
fn run_in_part<P: Program>(
    program: &P,
    stage: &Stage,
    stops: &Stops<'_>,
    call: u64,
) -> Result<Vec<NamedBytes>, Wrong> {
    let disk = disk_of(stage.alloc, &stage.files, Some(call));
    let ran = run_over_disk(program, stage, stops.setting, stops.changing, disk)?;
    is_stopped(stage.alloc, stops.whole.out(), stops.whole.err(), &ran)?;
    Ok(files_left(stage, stops, ran.disk)?)
}

/// Reads these files by the reading words, on a disk that does not stop.
fn recover<P: Program>(
    program: &P,
    stage: &Stage,
    stops: &Stops<'_>,
    files: &[NamedBytes],
) -> Result<Recovery, Wrong> {
    let none = Conditions::none(stage.alloc);
    let disk = disk_of(stage.alloc, files, None);
    let mut read = run_over_disk(program, stage, &none, stops.reading, disk)?;
    is_number(stage.alloc, u64::from(read.status), 0)?;
    Ok(Recovery {
        files: files_of(stage, stops, &mut read.disk)?,
        out: Vec::from_slice(stage.alloc, read.streams.out.bytes())?,
    })
}

/// Reads these files on a disk that stops at a call, where a whole recovery leaves this, and answers the files that are
/// left.
fn recover_in_part<P: Program>(
    program: &P,
    stage: &Stage,
    stops: &Stops<'_>,
    files: &[NamedBytes],
    whole: &Recovery,
    call: u64,
) -> Result<Vec<NamedBytes>, Wrong> {
    let none = Conditions::none(stage.alloc);
    let disk = disk_of(stage.alloc, files, Some(call));
    let read = run_over_disk(program, stage, &none, stops.reading, disk)?;
    is_stopped(stage.alloc, &whole.out, b"", &read)?;
    Ok(files_left(stage, stops, read.disk)?)
}

/// Recovers what a stopped recovery left, unless an earlier stop left the same. It must leave what a whole one does.
fn recover_again<P: Program>(
    program: &P,
    stage: &Stage,
    stops: &Stops<'_>,
    whole: &Recovery,
    earlier: &[NamedBytes],
    left: &[NamedBytes],
) -> Checked {
    if are_same(earlier, left, But::Nothing) {
        return Ok(());
    }
    let again = recover(program, stage, stops, left)?;
    let is_same = are_same(&again.files, &whole.files, But::Journal);
    holds_if(stage.alloc, is_same, "the files differ")
}

/// Stops a recovery at a call, and recovers what is left, which is answered.
fn stop_recovery_at<P: Program>(
    program: &P,
    stage: &Stage,
    stops: &Stops<'_>,
    files: &[NamedBytes],
    whole: &Recovery,
    (earlier, call): (&[NamedBytes], u64),
) -> Result<Vec<NamedBytes>, Wrong> {
    let left = recover_in_part(program, stage, stops, files, whole, call)?;
    recover_again(program, stage, stops, whole, earlier, &left)?;
    Ok(left)
}

/// Stops a recovery at each of its calls in turn.
fn stop_recovery<P: Program>(
    program: &P,
    stage: &Stage,
    stops: &Stops<'_>,
    files: &[NamedBytes],
    whole: &Recovery,
) -> Checked {
    let none = Conditions::none(stage.alloc);
    let calls = calls_over_disk(program, stage, &none, stops.reading, files)?;
    let mut earlier = copied(stage.alloc, files)?;
    for call in 1..=calls {
        let at = (earlier.as_slice(), call);
        let left = stop_recovery_at(program, stage, stops, files, whole, at);
        earlier = at_call(stage.alloc, call, left)?;
    }
    Ok(())
}

/// Whether the gate of an undo file is open.
fn is_gate_open(files: &[NamedBytes]) -> bool {
    let mut is_open = false;
    for (name, bytes) in files {
        let says_open = bytes.first() == Some(&1);
        is_open = is_open || (says_open && name.as_str().ends_with(".undo"));
    }
    is_open
}

/// Recovers what a stop left, at once, and where a gate is open with a stop at each call of the recovery besides. It
/// answers the files that are there then.
fn recover_left<P: Program>(
    program: &P,
    stage: &Stage,
    stops: &Stops<'_>,
    left: &[NamedBytes],
) -> Result<Vec<NamedBytes>, Wrong> {
    let recovery = recover(program, stage, stops, left)?;
    let may_be_left = may_be_left(stage, stops.whole, &recovery.files, CutOff::Stop);
    holds_if(stage.alloc, may_be_left, "a file is neither old nor new")?;
    if is_gate_open(left) {
        stop_recovery(program, stage, stops, left, &recovery)?;
    }
    Ok(recovery.files)
}

/// Stops the changing words at a call, and recovers what is left, unless an earlier stop left the same.
fn stop_at<P: Program>(
    program: &P,
    stage: &Stage,
    stops: &Stops<'_>,
    call: u64,
    course: &mut Course,
) -> Checked {
    let left = run_in_part(program, stage, stops, call)?;
    if !are_same(&course.earlier, &left, But::Nothing) {
        let files = recover_left(program, stage, stops, &left)?;
        course.is_met = course.is_met || is_between(stage, &files);
    }
    course.earlier = left;
    Ok(())
}

/// Stops the changing words at each of `calls` calls in turn.
fn stop_each<P: Program>(program: &P, stage: &Stage, stops: &Stops<'_>, calls: u64) -> Checked {
    let mut course = Course {
        earlier: Vec::new(stage.alloc),
        is_met: stage.may.is_empty(),
    };
    for call in 1..=calls {
        let told = stop_at(program, stage, stops, call, &mut course);
        at_call(stage.alloc, call, told)?;
    }
    let is_met = course.is_met;
    holds_if(stage.alloc, is_met, "no stop leaves what a line allows")
}

/// Stops behind the last call. What the words made must be there then.
fn stop_behind<P: Program>(program: &P, stage: &Stage, stops: &Stops<'_>, calls: u64) -> Checked {
    let alloc = stage.alloc;
    let disk = disk_of(alloc, &stage.files, Some(calls.saturating_add(1)));
    let ran = run_over_disk(program, stage, stops.setting, stops.changing, disk)?;
    is_number(alloc, u64::from(ran.status), u64::from(stops.whole.status))?;
    let left = files_left(stage, stops, ran.disk)?;
    let is_same = are_same(&left, &stops.whole.files, But::Journal);
    holds_if(alloc, is_same, "the files differ")
}

/// Stops words at each call of the disk, where the words behind the bar read the files that they change.
pub(crate) fn run_stops<P: Program>(
    program: &P,
    stage: &Stage,
    setting: &Conditions,
    rest: &str,
) -> Result<Ran, Wrong> {
    let Some((line, reading)) = rest.split_once(" | ") else {
        return unmet(stage.alloc, "two commands are wanted");
    };
    let whole = run_over(program, stage, &stage.files, setting, line)?;
    let changing = words_of(stage.alloc, line)?;
    let reading = words_of(stage.alloc, reading)?;
    run_journaled(program, stage, &stage.files, setting, line, &whole)?;
    let calls = calls_over_disk(program, stage, setting, &changing, &stage.files)?;
    let stops = Stops {
        setting,
        changing: &changing,
        reading: &reading,
        whole: &whole,
    };
    stop_each(program, stage, &stops, calls)?;
    stop_behind(program, stage, &stops, calls)?;
    Ok(whole)
}
