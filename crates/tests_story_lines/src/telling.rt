use crate::gathering::name_in;
use crate::report_head::head_of;
use std::alloc::Global;
use tests_story_stage::{
    Checked, Last, NO_LINE, OfFile, Stage, Tell, Wrong, find, found, has_name, holds_if, instead,
    is_number, number, unmet,
};

/// Carries out a line that says what the last run left.
///
/// # Errors
///
/// The line does not hold, or there was not enough memory.
pub fn tell(stage: &mut Stage, what: Tell, rest: &str) -> Checked {
    let Some(mut last) = stage.last.take() else {
        return unmet(stage.alloc, NO_LINE);
    };
    let told = tell_of(stage, &mut last, what, rest);
    stage.last = Some(last);
    told
}

/// Carries out a line that says something of this run.
fn tell_of(stage: &mut Stage, last: &mut Last, what: Tell, rest: &str) -> Checked {
    let alloc = stage.alloc;
    match what {
        Tell::Status => {
            last.status_told = true;
            tell_number(alloc, u64::from(last.ran.status), rest)
        }
        Tell::Out => tell_out(alloc, last, rest),
        Tell::Head => tell_head(alloc, last, rest),
        Tell::Err => tell_err(alloc, last, rest),
        Tell::Calls => tell_calls(alloc, last, rest),
        Tell::Files(says) => tell_files(alloc, last, rest, says),
        Tell::Bytes => tell_bytes(stage, last, rest),
        Tell::Numbers => tell_numbers(alloc, last, rest),
        Tell::Writes => tell_number(alloc, last.ran.diary.writes, rest),
        Tell::Answer => tell_answers(stage, last, rest),
    }
}

fn tell_number(alloc: Global, is: u64, rest: &str) -> Checked {
    let want = number(alloc, rest)?;
    is_number(alloc, is, want)
}

fn tell_calls(alloc: Global, last: &Last, rest: &str) -> Checked {
    let calls = last.ran.diary.noted.as_str().trim_end();
    if calls == rest {
        return Ok(());
    }
    instead(alloc, calls.as_bytes())
}

/// The line of a text that begins at a place, without its newline.
pub(crate) fn line_at(said: &[u8], at: usize) -> &[u8] {
    let rest = said.get(at..).unwrap_or(b"");
    rest.split(|byte| *byte == b'\n').next().unwrap_or(b"")
}

/// Where a text ends that begins at a place and is the wanted one with a newline.
fn end_of(alloc: Global, said: &[u8], at: usize, want: &str) -> Result<usize, Wrong> {
    let line = line_at(said, at);
    let end = at.saturating_add(line.len());
    if line == want.as_bytes() && end < said.len() {
        return Ok(end.saturating_add(1));
    }
    instead(alloc, line)
}

fn tell_out(alloc: Global, last: &mut Last, want: &str) -> Checked {
    last.out_told = end_of(alloc, last.ran.out(), last.out_told, want)?;
    Ok(())
}

fn tell_head(alloc: Global, last: &mut Last, rest: &str) -> Checked {
    let head = head_of(alloc, rest)?;
    for line in head.as_str().lines() {
        tell_out(alloc, last, line)?;
    }
    Ok(())
}

fn tell_err(alloc: Global, last: &mut Last, want: &str) -> Checked {
    last.err_told = end_of(alloc, last.ran.err(), last.err_told, want)?;
    Ok(())
}

/// Whether a file is so.
fn is_so(says: OfFile, before: Option<&[u8]>, after: Option<&[u8]>) -> bool {
    match says {
        OfFile::Same => before == after,
        OfFile::Other => before != after,
        OfFile::Absent => after.is_none(),
    }
}

/// At which place bytes begin to differ from others.
fn first_difference(bytes: &[u8], others: &[u8]) -> usize {
    let mut place = 0usize;
    for (byte, other) in bytes.iter().zip(others) {
        if byte != other {
            break;
        }
        place = place.saturating_add(1);
    }
    place
}

/// What a file has instead of the bytes that are wanted.
fn has_instead(alloc: Global, bytes: &[u8], wanted: &[u8]) -> Checked {
    let place = first_difference(bytes, wanted);
    let length = bytes.len();
    let why = match bytes.get(place) {
        Some(byte) => format!(in alloc; "it has {length} bytes, and {byte} at place {place}")?,
        None => format!(in alloc; "it has {length} bytes")?,
    };
    Err(Wrong::Said(why))
}

/// What there is of a file, instead of what a line says of it.
fn is_instead(alloc: Global, before: Option<&[u8]>, after: Option<&[u8]>) -> Checked {
    match (before, after) {
        (_, None) => unmet(alloc, "there is no such file"),
        (None, Some(bytes)) => has_instead(alloc, bytes, b""),
        (Some(old), Some(new)) if old == new => unmet(alloc, "it is as before"),
        (Some(old), Some(new)) => has_instead(alloc, new, old),
    }
}

/// That a run may have looked at a file: one that was there, one that is there now, or one that a word names, perhaps
/// with `.new` added.
fn is_known(alloc: Global, last: &Last, file: &str) -> Checked {
    let bare = file.strip_suffix(".new").unwrap_or(file);
    let is_file = find(&last.before, file).is_some() || find(&last.before, bare).is_some();
    let is_named = find(&last.ran.files, file).is_some() || has_name(&last.ran.words, bare);
    holds_if(
        alloc,
        is_file || is_named,
        "no run looked at a file of this name",
    )
}

/// Notes that a line names a file.
fn name(alloc: Global, last: &mut Last, file: &str) -> Checked {
    last.named
        .push(String::from_str(alloc, file)?)
        .map_err(|_| Wrong::Memory)
}

fn tell_files(alloc: Global, last: &mut Last, rest: &str, says: OfFile) -> Checked {
    for file in rest.split(' ') {
        name(alloc, last, file)?;
        is_known(alloc, last, file)?;
        let (before, after) = (find(&last.before, file), find(&last.ran.files, file));
        if !is_so(says, before, after) {
            return is_instead(alloc, before, after);
        }
    }
    Ok(())
}

fn tell_bytes(stage: &mut Stage, last: &mut Last, rest: &str) -> Checked {
    let alloc = stage.alloc;
    let file = name_in(stage, rest)?;
    let wanted = stage.take();
    name(alloc, last, file)?;
    let bytes = found(alloc, &last.ran.files, file)?;
    if bytes == wanted.as_slice() {
        return Ok(());
    }
    has_instead(alloc, bytes, &wanted)
}

/// The number in the four bytes at a place, or none where the file ends before.
fn number_at(file: &[u8], at: u64) -> Option<u64> {
    match file.get(at as usize..) {
        Some([first, second, third, last, ..]) => Some(u64::from(u32::from_le_bytes([
            *first, *second, *third, *last,
        ]))),
        _ => None,
    }
}

/// That the number of a word stands in a file at a place, or that it ends there where the word is `end`.
fn is_at(alloc: Global, file: &[u8], at: u64, word: &str) -> Checked {
    if word == "end" {
        return is_number(alloc, file.len() as u64, at);
    }
    match number_at(file, at) {
        Some(is) => tell_number(alloc, is, word),
        None => unmet(alloc, "the file ends before"),
    }
}

fn tell_numbers(alloc: Global, last: &mut Last, rest: &str) -> Checked {
    let (file, rest) = rest.split_once(' ').unwrap_or((rest, ""));
    let (at, words) = rest.split_once(' ').unwrap_or((rest, ""));
    let mut at = number(alloc, at)?;
    name(alloc, last, file)?;
    let bytes = found(alloc, &last.ran.files, file)?;
    for word in words.split(' ') {
        is_at(alloc, bytes, at, word)?;
        at = at.saturating_add(4);
    }
    Ok(())
}

/// That each of the next answers of the link, or the next one, has the gathered bytes.
fn tell_answers(stage: &mut Stage, last: &mut Last, rest: &str) -> Checked {
    let alloc = stage.alloc;
    let times = if rest.is_empty() {
        1
    } else {
        number(alloc, rest)?
    };
    let wanted = stage.take();
    for _ in 0..times {
        let answers = last.ran.streams.link.answers();
        let Some(answer) = answers.get(last.answers_told) else {
            return unmet(alloc, "no more answers were sent");
        };
        last.answers_told = last.answers_told.saturating_add(1);
        if answer.as_slice() != wanted.as_slice() {
            return Err(Wrong::Said(format!(in alloc; "it is {answer:?}")?));
        }
    }
    Ok(())
}
