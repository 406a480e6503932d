//! A server of rquota over TCP as a program: [`rpc_record::run_stream`] over the words, files, streams and network of
//! the system.
#![tactic(auto)]

use command_reasons::{Program, program_reason};
use file_locks::sharing::Sharing;
use help::text_asked;
use journal_store::JournalStore;
use program_help::tell_asked;
use program_recoveries::tell_undo_files;
use program_start::{
    Failed, Reason, add_reason, are_reasons_asked, given_words, hold_closed_streams, name_in,
    run_reason, starting_cause, stop, words_cause,
};
use refusals::{Cause, UsageKind};
use rpc_record::run_stream;
use run_notes::Teller;
use std::alloc::{AllocError, Global};
use std::fs::{File, Files};
use std::io;
use std::io::{Eprint, IsTerminal, Write};
use std::process::ExitCode;
use stream_words::read_words;
use system_network::TcpConns;
use system_objects::{DiskFailure, FileDisk};
use system_streams::{LinkFailure, StreamSink};

mod help;

/// Tells a disk beside which files undo files stand, and that each file is read as it is opened, so that no lock is
/// held while connections are waited for. Words that are outside the grammar name no files, and are refused by the run.
fn share_files<R: Files<File = File> + Eprint>(
    disk: &mut FileDisk<'_, R>,
    words: &[String],
) -> Result<(), AllocError> {
    if let Ok(read) = read_words(words) {
        for export in read.exports.as_slice() {
            disk.undo_beside(export.file)?;
        }
    }
    disk.share(Sharing::Kept)
}

/// What the system refused of the output, and why.
fn output_reason<'a>(output: Option<io::Error>) -> Option<Reason<'a>> {
    let error = output?;
    Some(Reason::Refused {
        of: Failed::Output,
        error,
        left: None,
    })
}

/// What the system refused, and why, of the disk or of the connections. A run ends with the first call on the disk that
/// fails, and goes on behind a fault of a connection.
fn system_reason<'a>(
    disk: Option<&'a DiskFailure>,
    conns: Option<LinkFailure>,
) -> Option<Reason<'a>> {
    if let Some(failure) = disk {
        if failure.distrust.is_some() {
            return None;
        }
        return Some(Reason::Refused {
            of: Failed::File(failure.name.as_str()),
            error: failure.error,
            left: None,
        });
    }
    let failure = conns?;
    Some(Reason::Refused {
        of: Failed::TcpPort(failure.port),
        error: failure.error,
        left: None,
    })
}

/// The text of the reason of a status behind this error line; none where it is not asked for, where the system refused
/// something, where no more is known than the error line has, or where there is no memory for it.
fn text_of(
    alloc: Global,
    is_asked: bool,
    status: u8,
    error_line: Option<&[u8]>,
    words: &[String],
) -> Option<String> {
    if !is_asked || status == 0 || status == 4 {
        return None;
    }
    program_reason(alloc, Program::Server, error_line?, words).unwrap_or(None)
}

/// Serves as words ask for it, and says on the error output why it could not, where that is asked for. Answers the
/// status with which the program ends.
fn serve<'a, E: Write>(
    rt: &'a HostRuntime,
    called: &'a str,
    words: &[String],
    is_asked: bool,
    err: &mut StreamSink<E>,
) -> u8 {
    let teller = Teller::of(name_in(called), rt.stderr().is_terminal());
    let mut disk = FileDisk::new(rt.alloc(), rt);
    disk.tell(teller);
    if share_files(&mut disk, words).is_err() {
        return stop(err, Cause::Memory, rt.alloc());
    }
    let mut conns = TcpConns::new(rt);
    conns.tell_port(teller);
    if is_asked {
        err.keep();
    }
    let mut store = JournalStore::new(disk);
    let status = run_stream(rt.alloc(), words, &mut store, &mut conns, err);
    let disk = store.into_disk();
    let text = text_of(rt.alloc(), is_asked, status, err.last_line(), words);
    let refused = system_reason(disk.failure(), conns.failure());
    let reason = run_reason(status, text.as_ref().map(|text| text.as_str()), refused);
    add_reason(err, is_asked, status, called, reason, rt.alloc());
    tell_undo_files(
        err,
        is_asked,
        name_in(called),
        disk.failure(),
        disk.gates(),
        rt.alloc(),
    );
    status
}

fn main(rt: HostRuntime) -> ExitCode {
    let held = hold_closed_streams(&rt);
    let mut err = StreamSink::new(rt.stderr());
    if let Err(error) = &held {
        return ExitCode::from(stop(&mut err, starting_cause(error.kind()), rt.alloc()));
    }
    let is_terminal = rt.stderr().is_terminal();
    let is_asked = are_reasons_asked(&rt, is_terminal);
    let status = match given_words(&rt, "rquotad_tcp") {
        Ok((called, words)) => {
            let called = called.as_str();
            if let Some(text) = text_asked(&words) {
                let mut out = StreamSink::new(rt.stdout());
                let status = tell_asked(&rt, &words, text, &mut out, &mut err);
                let reason = output_reason(out.failure());
                add_reason(&mut err, is_asked, status, called, reason, rt.alloc());
                return ExitCode::from(status);
            }
            serve(&rt, called, &words, is_asked, &mut err)
        }
        Err(error) => {
            let cause = words_cause(UsageKind::WrongOperands, error.kind());
            let status = stop(&mut err, cause, rt.alloc());
            let reason = Reason::of_words(error.kind());
            add_reason(
                &mut err,
                is_asked,
                status,
                "rquotad_tcp",
                reason,
                rt.alloc(),
            );
            status
        }
    };
    ExitCode::from(status)
}
