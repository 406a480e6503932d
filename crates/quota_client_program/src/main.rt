//! A client of rquotad as a program: [`quota_client::run_client`] over the words, streams and network of the system.
#![tactic(auto)]

ghost use Rattle.std.specs.Prelude.{◌≡◌, ◌%◌, ◌^◌};

use command_reasons::{Program, program_reason, reply_reason};
use help::text_asked;
use program_help::tell_asked;
use program_start::{
    Failed, Reason, add_reason, are_reasons_asked, given_words, hold_closed_streams, run_reason,
    starting_cause, stop, words_cause,
};
use quota_client::run_client;
use refusals::UsageKind;
use std::alloc::Global;
use std::io;
use std::io::IsTerminal;
use std::process::ExitCode;
use system_network::UdpPeer;
use system_streams::{LinkFailure, StreamSink, moment};

mod help;

/// The number of the first call, by which its reply is known: the seconds of the clock modulo 2^32.
fn first_xid(seconds: u64) -> u32
    ensures { result ≡ seconds % 2 ^ 32 }
{
    (seconds % 4_294_967_296) as u32
}

/// What the system refused, and why, of the output or of the peer. A run ends with the first one, so there is one at
/// most.
fn system_reason<'a>(output: Option<io::Error>, peer: Option<LinkFailure>) -> Option<Reason<'a>> {
    if let Some(error) = output {
        return Some(Reason::Refused {
            of: Failed::Output,
            error,
            left: None,
        });
    }
    let failure = peer?;
    Some(Reason::Refused {
        of: Failed::UdpPort(failure.port),
        error: failure.error,
        left: None,
    })
}

/// The text of the reason of a status behind this error line, or with status 1, where there is none, behind the last
/// line that was printed; none where it is not asked for, where the system refused something, where no more is known
/// than these lines have, or where there is no memory for it.
fn text_of(
    alloc: Global,
    is_asked: bool,
    status: u8,
    error_line: Option<&[u8]>,
    printed: Option<&[u8]>,
    words: &[String],
) -> Option<String> {
    if !is_asked || status == 0 || status == 4 {
        return None;
    }
    if status == 1 {
        return reply_reason(alloc, printed?, words).unwrap_or(None);
    }
    program_reason(alloc, Program::Client, error_line?, words).unwrap_or(None)
}

fn main(rt: HostRuntime) -> ExitCode {
    let held = hold_closed_streams(&rt);
    let mut err = StreamSink::new(rt.stderr());
    if let Err(error) = &held {
        return ExitCode::from(stop(&mut err, starting_cause(error.kind()), rt.alloc()));
    }
    let is_asked = are_reasons_asked(&rt, rt.stderr().is_terminal());
    let status = match (given_words(&rt, "quota_client"), moment(&rt)) {
        (Ok((called, words)), Ok(now)) => {
            let mut out = StreamSink::new(rt.stdout());
            let mut peer = UdpPeer::new(&rt);
            if is_asked {
                err.keep();
                out.keep();
            }
            let status = match text_asked(&words) {
                Some(text) => tell_asked(&rt, &words, text, &mut out, &mut err),
                None => run_client(&words, &mut peer, &mut out, &mut err, first_xid(now)),
            };
            let line = err.last_line();
            let printed = out.last_line();
            let text = text_of(rt.alloc(), is_asked, status, line, printed, &words);
            let refused = system_reason(out.failure(), peer.failure());
            let reason = run_reason(status, text.as_ref().map(|text| text.as_str()), refused);
            let called = called.as_str();
            add_reason(&mut err, is_asked, status, called, reason, rt.alloc());
            status
        }
        (Err(error), _) => {
            let cause = words_cause(UsageKind::WrongOperands, error.kind());
            let status = stop(&mut err, cause, rt.alloc());
            let reason = Reason::of_words(error.kind());
            add_reason(
                &mut err,
                is_asked,
                status,
                "quota_client",
                reason,
                rt.alloc(),
            );
            status
        }
        (_, Err(error)) => stop(&mut err, starting_cause(error.kind()), rt.alloc()),
    };
    ExitCode::from(status)
}
