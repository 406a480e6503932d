//! What must be told of a run, and used in a row, before the next one.

use crate::telling::line_at;
use std::alloc::Global;
use tests_story_stage::{
    Checked, Last, NamedBytes, Stage, Wrong, find, has_name, holds_if, instead, is_number, unmet,
};

/// The first of some files that is not as before the run and that no line names.
fn untold<'a>(last: &'a Last, files: &'a [NamedBytes]) -> Option<&'a str> {
    for (name, _) in files {
        let name = name.as_str();
        let is_same = find(&last.before, name) == find(&last.ran.files, name);
        if !is_same && !has_name(&last.named, name) {
            return Some(name);
        }
    }
    None
}

/// That everything that was gathered or set in a row was of use in it.
///
/// # Errors
///
/// It was not, or there was not enough memory.
pub fn is_all_used(stage: &Stage) -> Checked {
    let alloc = stage.alloc;
    holds_if(
        alloc,
        stage.gathered.is_empty(),
        "bytes were gathered, and nothing uses them",
    )?;
    let are_none = stage.may.is_empty() && stage.stays.is_empty();
    holds_if(
        alloc,
        are_none && stage.setting.is_none(),
        "something was set for a run, and none comes",
    )
}

/// That a run took its input to the end, where it ended with status 0 or has an output.
fn is_all_taken(alloc: Global, last: &Last) -> Checked {
    let has_read_all = last.ran.status == 0 || !last.ran.out().is_empty();
    holds_if(
        alloc,
        !has_read_all || last.ran.streams.left().is_empty(),
        "it did not take the input to the end",
    )
}

/// A run of which everything was told that must be told.
///
/// # Errors
///
/// It was not, or there was not enough memory.
pub fn is_all_told(alloc: Global, last: &Last) -> Checked {
    if !last.status_told {
        is_number(alloc, u64::from(last.ran.status), 0)?;
    }
    if last.err_told < last.ran.err().len() {
        return instead(alloc, line_at(last.ran.err(), last.err_told));
    }
    if last.out_told < last.ran.out().len() {
        return instead(alloc, line_at(last.ran.out(), last.out_told));
    }
    if last.answers_told < last.ran.streams.link.answers().len() {
        return unmet(alloc, "an answer was sent that no line tells");
    }
    is_all_taken(alloc, last)?;
    for files in [&last.before, &last.ran.files] {
        if let Some(name) = untold(last, files) {
            let why = format!(in alloc; "no line tells of the file {name}")?;
            return Err(Wrong::Said(why));
        }
    }
    Ok(())
}
