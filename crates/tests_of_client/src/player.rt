use crate::parts::bytes_of;
use crate::running::{Failing, Ran, RunInput, new_setting, run};
use std::alloc::{AllocError, Global};
use std::process::Abort;

/// Where the player stands in a row.
#[derive(Drop)]
struct Stage {
    alloc: Global,
    setting: RunInput,
    /// What the run did, once there was one.
    ran: Option<Ran>,
    /// The line told the status.
    told_status: bool,
    /// How much of the output, of the error output and of what was sent was told.
    out_told: usize,
    err_told: usize,
    sent_told: usize,
}

/// The stage at the start of a row.
fn new_stage(alloc: Global) -> Stage {
    Stage {
        alloc,
        setting: new_setting(alloc),
        ran: None,
        told_status: false,
        out_told: 0,
        err_told: 0,
        sent_told: 0,
    }
}

/// Whether all that a row's run did was told.
fn is_told(stage: &Stage) -> bool {
    match &stage.ran {
        Some(ran) => {
            (stage.told_status || ran.status == 0)
                && stage.out_told == ran.out.len()
                && stage.err_told == ran.err.len()
        }
        None => stage.setting.words.as_str() == "",
    }
}

/// A number.
fn number(word: &str) -> Option<u64> {
    word.parse::<u64>().ok()
}

/// A line of an output: `@N` at its front stands for a path of N bytes.
fn line_of(alloc: Global, line: &str) -> Result<Vec<u8>, AllocError> {
    let mut text = Vec::new(alloc);
    match line.strip_prefix('@') {
        Some(rest) => {
            let (len, behind) = rest.split_once(':').unwrap_or(("0", ""));
            for _ in 0..len.parse::<u16>().unwrap_or(0) {
                text.push(b'p')?;
            }
            text.push(b':')?;
            text.extend_from_slice(behind.as_bytes())?;
        }
        None => text.extend_from_slice(line.as_bytes())?,
    }
    text.push(b'\n')?;
    Ok(text)
}

/// Puts an event, so many times.
fn put_events(
    stage: &mut Stage,
    count: Option<u64>,
    parts: Option<&str>,
) -> Result<bool, AllocError> {
    let Some(count) = count else {
        return Ok(false);
    };
    for _ in 0..count {
        let event = match parts {
            Some(parts) => Some(bytes_of(stage.alloc, parts)?),
            None => None,
        };
        stage.setting.events.push(event)?;
    }
    Ok(true)
}

/// The calls that fail, with this one of an object among them.
fn with_failing(failing: Failing, object: &str, call: u64) -> Option<Failing> {
    match object {
        "peer" => Some(Failing {
            peer: call,
            out: failing.out,
            err: failing.err,
        }),
        "out" => Some(Failing {
            peer: failing.peer,
            out: call,
            err: failing.err,
        }),
        "err" => Some(Failing {
            peer: failing.peer,
            out: failing.out,
            err: call,
        }),
        _ => None,
    }
}

/// Says which call of an object fails, besides what fails of others.
fn fail(stage: &mut Stage, words: &str) -> bool {
    let (object, call) = words.split_once(' ').unwrap_or((words, ""));
    let Some(call) = number(call) else {
        return false;
    };
    match with_failing(stage.setting.failing, object, call) {
        Some(failing) => {
            stage.setting.failing = failing;
            true
        }
        None => false,
    }
}

/// Whether two runs did the same.
fn are_same(one: &Ran, other: &Ran) -> bool {
    one.status == other.status
        && one.out == other.out
        && one.err == other.err
        && one.sent == other.sent
}

/// Whether the error output is this.
fn says(ran: &Ran, line: &[u8]) -> bool {
    ran.err.as_slice() == line
}

/// Whether an output is a first part of another one.
fn begins(whole: &[u8], part: &[u8]) -> bool {
    whole.starts_with(part)
}

/// Whether it is a first part, and not all of it.
fn begins_short(whole: &[u8], part: &[u8]) -> bool {
    whole.starts_with(part) && part.len() < whole.len()
}

/// Whether whole lines were written.
fn is_whole(bytes: &[u8]) -> bool {
    match bytes.last() {
        Some(last) => *last == b'\n',
        None => true,
    }
}

/// Whether a run stopped as it should where a call of the object failed, beside one in which none did.
fn is_stopped(object: &str, ran: &Ran, whole: &Ran) -> bool {
    match object {
        "peer" => {
            ran.status == 4
                && says(ran, b"quota: link fault\n")
                && begins(&whole.out, &ran.out)
                && is_whole(&ran.out)
                && whole.sent.starts_with(&ran.sent)
        }
        "out" => {
            ran.status == 4
                && says(ran, b"quota: output fault\n")
                && begins_short(&whole.out, &ran.out)
                && whole.sent.starts_with(&ran.sent)
        }
        _ => {
            ran.status == whole.status && ran.out == whole.out && begins_short(&whole.err, &ran.err)
        }
    }
}

/// Runs with this call of an object failing, and answers what it did, where there is such an object.
fn run_failing(stage: &mut Stage, object: &str, call: u64) -> Result<Option<Ran>, AllocError> {
    let before = stage.setting.failing;
    let Some(failing) = with_failing(before, object, call) else {
        return Ok(None);
    };
    stage.setting.failing = failing;
    let ran = run(stage.alloc, &stage.setting)?;
    stage.setting.failing = before;
    Ok(Some(ran))
}

/// Whether a run with this call of the object failing stops as it should, beside one in which none does.
fn stops(stage: &mut Stage, object: &str, call: u64, whole: &Ran) -> Result<bool, AllocError> {
    match run_failing(stage, object, call)? {
        Some(ran) => Ok(is_stopped(object, &ran, whole)),
        None => Ok(false),
    }
}

/// Runs once, then once for each of so many calls of the object, which fails, and then with one more, which is not
/// made.
fn sweeps_calls(stage: &mut Stage, object: &str, count: u64) -> Result<bool, AllocError> {
    let whole = run(stage.alloc, &stage.setting)?;
    for call in 0..count {
        if !stops(stage, object, call.saturating_add(1), &whole)? {
            return Ok(false);
        }
    }
    let same = match run_failing(stage, object, count.saturating_add(1))? {
        Some(ran) => are_same(&ran, &whole),
        None => false,
    };
    stage.ran = Some(whole);
    Ok(count > 0 && same)
}

/// Sweeps the calls of an object, as a line tells them.
fn sweeps(stage: &mut Stage, words: &str) -> Result<bool, AllocError> {
    let (object, count) = words.split_once(' ').unwrap_or((words, ""));
    match number(count) {
        Some(count) => sweeps_calls(stage, object, count),
        None => Ok(false),
    }
}

/// Whether the next line of the output is this one.
fn is_out(stage: &mut Stage, text: &str) -> Result<bool, AllocError> {
    let line = line_of(stage.alloc, text)?;
    let Some(ran) = &stage.ran else {
        return Ok(false);
    };
    let rest = ran.out.get(stage.out_told..).unwrap_or(b"");
    let holds = rest.starts_with(&line);
    stage.out_told = stage.out_told.saturating_add(line.len());
    Ok(holds)
}

/// Whether the next line of the error output is this one.
fn is_err(stage: &mut Stage, text: &str) -> Result<bool, AllocError> {
    let line = line_of(stage.alloc, text)?;
    let Some(ran) = &stage.ran else {
        return Ok(false);
    };
    let rest = ran.err.get(stage.err_told..).unwrap_or(b"");
    let holds = rest.starts_with(&line);
    stage.err_told = stage.err_told.saturating_add(line.len());
    Ok(holds)
}

/// Whether the next datagram that was sent is this one.
fn is_sent(stage: &mut Stage, parts: &str) -> Result<bool, AllocError> {
    let bytes = bytes_of(stage.alloc, parts)?;
    let Some(ran) = &stage.ran else {
        return Ok(false);
    };
    let holds = ran.sent.get(stage.sent_told) == Some(&bytes);
    stage.sent_told = stage.sent_told.saturating_add(1);
    Ok(holds)
}

/// Whether the run ended with this status.
fn is_status(stage: &mut Stage, word: &str) -> bool {
    stage.told_status = true;
    match &stage.ran {
        Some(ran) => number(word) == Some(u64::from(ran.status)),
        None => false,
    }
}

/// Whether so many datagrams were sent.
fn is_count(stage: &Stage, word: &str) -> bool {
    match &stage.ran {
        Some(ran) => number(word) == Some(ran.sent.len() as u64),
        None => false,
    }
}

/// Whether the peer was started once, at this port, or not at all.
fn is_port(stage: &Stage, port: Option<u64>) -> bool {
    match (&stage.ran, port) {
        (Some(ran), Some(port)) => ran.starts == 1 && ran.port.map(u64::from) == Some(port),
        (Some(ran), None) => ran.starts == 0 && ran.port == None,
        (None, _) => false,
    }
}

/// Sets what the run is given.
fn sets(stage: &mut Stage, verb: &str, rest: &str) -> Result<Option<bool>, AllocError> {
    match verb {
        "words" => {
            stage.setting.words = String::from_str(stage.alloc, rest)?;
            Ok(Some(true))
        }
        "xid" => {
            let xid = rest.parse::<u32>().ok();
            stage.setting.xid = xid.unwrap_or(0);
            Ok(Some(xid.is_some()))
        }
        "quiet" => {
            let count = if rest == "" { Some(1) } else { number(rest) };
            Ok(Some(put_events(stage, count, None)?))
        }
        "datagram" => Ok(Some(put_events(stage, Some(1), Some(rest))?)),
        "datagrams" => {
            let (count, parts) = rest.split_once(' ').unwrap_or((rest, ""));
            Ok(Some(put_events(stage, number(count), Some(parts))?))
        }
        "fails" => Ok(Some(fail(stage, rest))),
        _ => Ok(None),
    }
}

/// Says what the run did.
fn tells(stage: &mut Stage, verb: &str, rest: &str) -> Result<bool, AllocError> {
    match verb {
        "status" => Ok(is_status(stage, rest)),
        ">" => is_out(stage, rest),
        "!" => is_err(stage, rest),
        "sent" => is_sent(stage, rest),
        "calls" => Ok(is_count(stage, rest)),
        "port" => Ok(is_port(stage, number(rest))),
        "unstarted" => Ok(is_port(stage, None)),
        _ => Ok(verb == ""),
    }
}

/// Carries a line out, and answers whether it is as told.
fn does(stage: &mut Stage, line: &str) -> Result<bool, AllocError> {
    let (verb, rest) = line.split_once(' ').unwrap_or((line, ""));
    match verb {
        "=" => {
            let holds = is_told(stage);
            *stage = new_stage(stage.alloc);
            Ok(holds)
        }
        "run" => {
            stage.ran = Some(run(stage.alloc, &stage.setting)?);
            Ok(true)
        }
        "sweep" => sweeps(stage, rest),
        _ => match sets(stage, verb, rest)? {
            Some(holds) => Ok(holds),
            None => tells(stage, verb, rest),
        },
    }
}

/// The first line that is not as told, or an empty one. What is told of a row is looked at in the line behind it.
fn first_wrong(alloc: Global, story: &str) -> Result<String, AllocError> {
    let mut stage = new_stage(alloc);
    for line in story.lines() {
        if !does(&mut stage, line)? {
            return String::from_str(alloc, line);
        }
    }
    if is_told(&stage) {
        Ok(String::new(alloc))
    } else {
        String::from_str(alloc, "the last row")
    }
}

/// Carries a story out, and expects it to hold.
pub(crate) fn play(rt: &impl Abort, alloc: Global, story: &str) {
    match first_wrong(alloc, story) {
        Ok(wrong) => assert_eq!(rt; wrong.as_str(), ""),
        Err(_) => assert!(rt; false, "no memory"),
    }
}
