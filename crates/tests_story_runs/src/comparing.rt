//! Files that are compared with others, and what is said where they differ.

use std::alloc::{AllocError, Global};
use tests_story_stage::{NamedBytes, Wrong, find};

/// Which files are passed over where files are compared.
#[derive(Clone, Copy)]
pub(crate) enum But<'a> {
    /// None.
    Nothing,
    /// The one of this name.
    File(&'a str),
    /// Those of the journal.
    Journal,
}

/// Whether the name of a file is one of the journal.
pub(crate) fn is_of_journal(name: &str) -> bool {
    name.ends_with(".undo") || name.ends_with(".und")
}

/// Whether a file is passed over.
fn is_passed_over(name: &str, but: But<'_>) -> bool {
    match but {
        But::Nothing => false,
        But::File(file) => name == file,
        But::Journal => is_of_journal(name),
    }
}

/// Whether each of some files that is not passed over is the same among others.
fn are_among(files: &[NamedBytes], others: &[NamedBytes], but: But<'_>) -> bool {
    let mut are_among = true;
    for (name, bytes) in files {
        let name = name.as_str();
        let is_there = is_passed_over(name, but) || find(others, name) == Some(bytes);
        are_among = are_among && is_there;
    }
    are_among
}

/// Whether some files are the same as others, but for those that are passed over.
pub(crate) fn are_same(files: &[NamedBytes], others: &[NamedBytes], but: But<'_>) -> bool {
    are_among(files, others, but) && are_among(others, files, but)
}

/// A copy of some files.
pub(crate) fn copied(alloc: Global, files: &[NamedBytes]) -> Result<Vec<NamedBytes>, AllocError> {
    let mut copies = Vec::new(alloc);
    for (name, bytes) in files {
        copies.push((
            String::from_str(alloc, name.as_str())?,
            Vec::from_slice(alloc, bytes)?,
        ))?;
    }
    Ok(copies)
}

/// What came of a run, with what it was about where it is wrong.
pub(crate) fn about<T: Drop>(
    alloc: Global,
    what: &str,
    told: Result<T, Wrong>,
) -> Result<T, Wrong> {
    match told {
        Err(Wrong::Said(why)) => Err(Wrong::Said(format!(in alloc; "{what}: {}", why.as_str())?)),
        told => told,
    }
}

/// What came of a run, with the number that was set where it is wrong.
pub(crate) fn at_call<T: Drop>(
    alloc: Global,
    call: u64,
    told: Result<T, Wrong>,
) -> Result<T, Wrong> {
    let what = format!(in alloc; "where {call} is set")?;
    about(alloc, what.as_str(), told)
}
