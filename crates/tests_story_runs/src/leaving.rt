//! What a run may leave that is cut off by a call that fails, or by a stop of the disk.

use crate::comparing::is_of_journal;
use crate::torn::is_torn;
use tests_story_stage::{NamedBytes, Ran, Stage, find, has_name};

/// What cuts a run off.
#[derive(Clone, Copy)]
pub(crate) enum CutOff {
    /// A call that fails.
    Fault,
    /// A disk that stops, from which the files are recovered then.
    Stop,
}

/// How far the runs are of which each is cut off at a later call.
#[derive(Drop)]
pub(crate) struct Course {
    /// What the run before left.
    pub earlier: Vec<NamedBytes>,
    /// Whether a run left what a line allows, where one does.
    pub is_met: bool,
}

/// Whether a line allows that a file is left so besides.
pub(crate) fn is_allowed(stage: &Stage, name: &str, bytes: Option<&[u8]>) -> bool {
    let mut is_allowed = false;
    for (file, kept) in &stage.may {
        let is_so = bytes.is_some() && find(&stage.kept, kept.as_str()) == bytes;
        is_allowed = is_allowed || (file.as_str() == name && is_so);
    }
    is_allowed
}

/// Whether one of these files is so as a line allows besides.
pub(crate) fn is_between(stage: &Stage, files: &[NamedBytes]) -> bool {
    let mut is_between = false;
    for (name, bytes) in files {
        is_between = is_between || is_allowed(stage, name.as_str(), Some(bytes));
    }
    is_between
}

/// Whether a file is so that is between the old and the new one: a file that is not in its place yet, a tree file whose
/// blocks are the old or the new ones, or a file of the journal.
fn is_in_part(stage: &Stage, whole: &Ran, name: &str, bytes: Option<&[u8]>, by: CutOff) -> bool {
    match by {
        CutOff::Fault => {
            name.ends_with(".new") || is_torn(stage, name, find(&whole.files, name), bytes)
        }
        CutOff::Stop => is_of_journal(name),
    }
}

/// Whether a file may be so: as it was, as the whole run left it, as a line allows, or in part.
fn may_be(stage: &Stage, whole: &Ran, name: &str, bytes: Option<&[u8]>, by: CutOff) -> bool {
    let is_old = find(&stage.files, name) == bytes;
    if is_old || has_name(&stage.stays, name) {
        return is_old;
    }
    find(&whole.files, name) == bytes
        || is_allowed(stage, name, bytes)
        || is_in_part(stage, whole, name, bytes, by)
}

/// Whether each of the files of these names may be so.
fn may_all_be(
    stage: &Stage,
    whole: &Ran,
    names: &[NamedBytes],
    files: &[NamedBytes],
    by: CutOff,
) -> bool {
    let mut may_be_so = true;
    for (name, _) in names {
        let bytes = find(files, name.as_str());
        may_be_so = may_be_so && may_be(stage, whole, name.as_str(), bytes, by);
    }
    may_be_so
}

/// Whether these files may be left by a run that is cut off, and no other one is missing.
pub(crate) fn may_be_left(stage: &Stage, whole: &Ran, files: &[NamedBytes], by: CutOff) -> bool {
    may_all_be(stage, whole, &stage.files, files, by) && may_all_be(stage, whole, files, files, by)
}
