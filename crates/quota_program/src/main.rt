//! The Linux disk quota tools as one program: [`quota_cli::run::run`] over the words, files and streams of the system.
#![tactic(auto)]

use command_words::{UsageFault, read_words};
use help::text_asked;
use inputs::input_wait;
use journal_store::JournalStore;
use program_help::tell_asked;
use program_recoveries::tell_undo_files;
use program_start::{
    Reason, add_note, add_reason, are_reasons_asked, given_words, hold_closed_streams, name_in,
    run_reason, starting_cause, stop, words_cause,
};
use quota_cli::run::run;
use quota_files::{QuotaFiles, quota_files_of};
use refusals::{Cause, UsageKind};
use run_notes::{ClearedStream, ProgressLine, Teller};
use sharing::sharing_of;
use std::alloc::{AllocError, Global};
use std::fs::{File, Files};
use std::io::{BufReader, Eprint, IsTerminal, Write};
use std::process::ExitCode;
use system_objects::FileDisk;
use system_streams::{StreamSink, StreamSource, UdpLink, moment};
use telling::{Failures, left_of, noted, text_of};

mod help;
mod inputs;
mod quota_files;
mod sharing;
mod telling;
mod usages;

/// The most bytes that are taken from the standard input with one call of the system.
const READ_AHEAD: usize = 65_536;

/// Tells a disk beside which files undo files stand.
fn name_files<R: Files<File = File> + Eprint>(
    disk: &mut FileDisk<'_, R>,
    files: QuotaFiles<'_>,
) -> Result<(), AllocError> {
    match files {
        QuotaFiles::One(file) => disk.undo_beside(file),
        QuotaFiles::Two(one, other) => {
            disk.undo_beside(one)?;
            disk.undo_beside(other)
        }
        QuotaFiles::Exported(exports) => {
            for export in exports.as_slice() {
                disk.undo_beside(export.file.as_str())?;
            }
            Ok(())
        }
        QuotaFiles::Any => Ok(()),
    }
}

/// Tells a disk which files of the command are quota files, and how they are shared with other programs. Words that ask
/// for no command use none, and are refused when they are carried out.
fn share_files<R: Files<File = File> + Eprint>(
    disk: &mut FileDisk<'_, R>,
    words: &[String],
    alloc: Global,
) -> Result<(), Cause> {
    match read_words(alloc, words, false) {
        Ok(command) => {
            let named = name_files(disk, quota_files_of(&command));
            match named.and_then(|()| disk.share(sharing_of(&command))) {
                Ok(()) => Ok(()),
                Err(_) => Err(Cause::Memory),
            }
        }
        Err(UsageFault::Memory) => Err(Cause::Memory),
        Err(UsageFault::Usage { .. }) => Ok(()),
    }
}

/// Carries out words, and says on the error output why they were not, where that is asked for. Answers the status with
/// which the program ends.
fn carry_out<'a, O: Write, E: Write>(
    rt: &'a HostRuntime,
    called: &'a str,
    words: &[String],
    now: u64,
    is_asked: bool,
    progress: &'a ProgressLine,
    out: &mut StreamSink<O>,
    err: &mut StreamSink<E>,
) -> u8 {
    let teller = Teller::of(name_in(called), rt.stderr().is_terminal()).with_line(progress);
    let mut disk = FileDisk::new(rt.alloc(), rt);
    disk.tell(teller);
    if let Err(cause) = share_files(&mut disk, words, rt.alloc()) {
        return stop(err, cause, rt.alloc());
    }
    let Ok(stdin) = BufReader::with_capacity(rt.alloc(), READ_AHEAD, rt.stdin()) else {
        return stop(err, Cause::Memory, rt.alloc());
    };
    let mut input = StreamSource::new(stdin, rt);
    if rt.stdin().is_terminal() {
        input.tell_wait(teller, input_wait(words));
    } else {
        input.tell_progress(teller);
    }
    let mut link = UdpLink::new(rt);
    link.tell_port(teller);
    if is_asked {
        err.keep();
        disk.keep();
        input.keep();
    }
    let mut store = JournalStore::new(disk);
    let status = run(
        rt.alloc(),
        words,
        &mut store,
        &mut input,
        out,
        err,
        &mut link,
        now,
    );
    progress.end(rt);
    let mut disk = store.into_disk();
    disk.clear_made();
    let left = left_of(is_asked, &disk);
    let failures = Failures {
        input: input.failure(),
        output: out.failure(),
        link: link.failure(),
        disk: disk.failure(),
        left: left.as_ref().map(|left| left.as_str()),
    };
    let line = err.last_line();
    let text = text_of(rt.alloc(), is_asked, status, line, words, &input, &disk);
    let text = text.as_ref().map(|text| text.as_str());
    let reason = run_reason(status, text, failures.first());
    add_reason(err, is_asked, status, called, reason, rt.alloc());
    let note = noted(rt.alloc(), is_asked, status, words, &input, &disk);
    let note = note.as_ref().map(|note| note.as_str());
    add_note(err, is_asked, called, note, rt.alloc());
    tell_undo_files(
        err,
        is_asked,
        name_in(called),
        disk.failure(),
        disk.gates(),
        rt.alloc(),
    );
    status
}

fn main(rt: HostRuntime) -> ExitCode {
    let held = hold_closed_streams(&rt);
    let is_terminal = rt.stderr().is_terminal();
    let progress = ProgressLine::new(&rt, is_terminal);
    let mut err = StreamSink::new(ClearedStream::new(rt.stderr(), &rt, Some(&progress)));
    if let Err(error) = &held {
        return ExitCode::from(stop(&mut err, starting_cause(error.kind()), rt.alloc()));
    }
    let is_asked = are_reasons_asked(&rt, is_terminal);
    let status = match (given_words(&rt, "quota_cli"), moment(&rt)) {
        (Ok((called, words)), Ok(now)) => {
            let called = called.as_str();
            let shared = rt.stdout().is_terminal().then_some(&progress);
            let mut out = StreamSink::new(ClearedStream::new(rt.stdout(), &rt, shared));
            match text_asked(&words) {
                Some(text) => {
                    let status = tell_asked(&rt, &words, text, &mut out, &mut err);
                    let reason = Failures::of_output(out.failure()).first();
                    add_reason(&mut err, is_asked, status, called, reason, rt.alloc());
                    status
                }
                None => carry_out(
                    &rt, called, &words, now, is_asked, &progress, &mut out, &mut err,
                ),
            }
        }
        (Err(error), _) => {
            let cause = words_cause(UsageKind::UnknownCommand, error.kind());
            let status = stop(&mut err, cause, rt.alloc());
            let reason = Reason::of_words(error.kind());
            add_reason(&mut err, is_asked, status, "quota_cli", reason, rt.alloc());
            status
        }
        (_, Err(error)) => stop(&mut err, starting_cause(error.kind()), rt.alloc()),
    };
    ExitCode::from(status)
}
