//! Steps of opened files of all formats, and the stories that are made of them.

use crate::made_files::{Made, make};
use memory_objects::MemStore;
use opened_file::{FileFault, QuotaFile};
use outside::Store;
use quota_map::{AnyFile, open_file, read_all};
use quota_types::{Entry, Format, Grace, Kind, Rec};
use std::alloc::{AllocError, Global};
use std::process::Abort;
use tests_row_files::{Act, get, next_after};
use tree_file::open_tree;

/// Bytes that stand from a place on.
pub(crate) type Part = (usize, &'static [u8]);

/// A call of an opened file, or a look at it.
pub(crate) enum Step {
    Is(Format),
    Flags(u32),
    Grace(Grace),
    Usable(bool),
    All(&'static [Entry]),
    Get(u32, Option<Rec>),
    GetFails(u32, FileFault),
    Next(Option<u32>, Option<Entry>),
    Put(u32, Rec),
    PutFails(u32, Rec, FileFault),
    Remove(u32),
    SetGrace(Grace),
    /// Another program cuts the file of the store to this many bytes, no more than 1,024.
    Cut(usize),
    /// How many bytes the file of the store has, and the parts of it that aren't zeros.
    File(usize, &'static [Part]),
}

/// What is made as the file `q`, and which calls of the store fail; as a file of what kind and of which format it is
/// opened, and with which limit of blocks where it is a tree file with one of its own; and the steps after each
/// opening.
pub(crate) struct Story {
    pub title: &'static str,
    pub made: Made,
    pub failing: &'static [u64],
    pub kind: Kind,
    pub format: Option<Format>,
    pub limit: Option<u32>,
    pub openings: &'static [&'static [Step]],
}

fn has_all(alloc: Global, file: &mut AnyFile, store: &mut MemStore, want: &[Entry]) -> bool {
    if !QuotaFile::<MemStore>::usable(file) {
        return false;
    }
    match read_all(alloc, file, store) {
        Ok(list) => list.as_slice() == want,
        Err(_) => false,
    }
}

/// Puts a part at its place, and answers whether there is room for it.
fn place(bytes: &mut [u8], at: usize, part: &[u8]) -> bool {
    if at > bytes.len() || part.len() > bytes.len() - at {
        return false;
    }
    bytes[at..at + part.len()].copy_from_slice(part);
    true
}

/// Whether these are `len` bytes of which these parts aren't zeros.
pub(crate) fn are_parts(alloc: Global, found: &[u8], len: usize, parts: &[Part]) -> bool {
    let Ok(mut want) = vec![in alloc; 0; len] else {
        return false;
    };
    for part in parts {
        if !place(&mut want, part.0, part.1) {
            return false;
        }
    }
    found == want.as_slice()
}

/// Whether the file is as told.
fn is_so(file: &AnyFile, step: &Step) -> bool {
    match step {
        Step::Is(want) => QuotaFile::<MemStore>::format(file) == *want,
        Step::Flags(want) => file.flags() == *want,
        Step::Grace(want) => QuotaFile::<MemStore>::grace(file) == *want,
        Step::Usable(want) => QuotaFile::<MemStore>::usable(file) == *want,
        _ => false,
    }
}

/// The change of a step, and what it answers.
fn change_of(step: &Step) -> Option<(Act, Result<(), FileFault>)> {
    match *step {
        Step::Put(id, rec) => Some((Act::Put(id, rec), Ok(()))),
        Step::PutFails(id, rec, fault) => Some((Act::Put(id, rec), Err(fault))),
        Step::Remove(id) => Some((Act::Remove(id), Ok(()))),
        Step::SetGrace(grace) => Some((Act::SetGrace(grace), Ok(()))),
        _ => None,
    }
}

/// Whether the file answers a change as told.
fn changes(file: &mut AnyFile, store: &mut MemStore, step: &Step) -> bool {
    match change_of(step) {
        Some((act, want)) => tests_row_files::make(file, store, &act) == Some(want),
        None => false,
    }
}

/// Cuts the file `q` to `len` bytes. Whether that was done.
fn cut(alloc: Global, store: &mut MemStore, len: usize) -> bool {
    let Ok(kept) = Vec::from_slice(alloc, store.file("q").unwrap_or(b"")) else {
        return false;
    };
    let Some(kept) = kept.as_slice().get(..len) else {
        return false;
    };
    if kept.len() > 1024 || store.create("q").is_err() {
        return false;
    }
    kept.is_empty() || store.write("q", 0, kept).is_ok()
}

/// Whether a look-up answers as told.
fn looks_up(file: &mut AnyFile, store: &mut MemStore, step: &Step) -> bool {
    match step {
        Step::Get(id, want) => get(file, store, *id) == Some(Ok(*want)),
        Step::GetFails(id, fault) => get(file, store, *id) == Some(Err(*fault)),
        Step::Next(after, want) => next_after(file, store, *after) == Some(Ok(*want)),
        _ => false,
    }
}

/// Whether the step is as told.
fn does(alloc: Global, file: &mut AnyFile, store: &mut MemStore, step: &Step) -> bool {
    match step {
        Step::Is(_) | Step::Flags(_) | Step::Grace(_) | Step::Usable(_) => is_so(file, step),
        Step::All(want) => has_all(alloc, file, store, want),
        Step::Get(_, _) | Step::GetFails(_, _) | Step::Next(_, _) => looks_up(file, store, step),
        Step::Cut(len) => cut(alloc, store, *len),
        Step::File(len, parts) => are_parts(alloc, store.file("q").unwrap_or(b""), *len, parts),
        _ => changes(file, store, step),
    }
}

/// The place of the first step, from 1 on, that isn't as told, or 0.
fn first_step(alloc: Global, file: &mut AnyFile, store: &mut MemStore, steps: &[Step]) -> usize {
    for (at, step) in steps.iter().enumerate() {
        if !does(alloc, file, store, step) {
            return at.saturating_add(1);
        }
    }
    0
}

fn opened(alloc: Global, store: &mut MemStore, story: &Story) -> Option<AnyFile> {
    match story.limit {
        None => open_file(alloc, store, "q", story.kind, story.format).ok(),
        Some(limit) => match open_tree(alloc, store, "q", story.kind, None, limit) {
            Ok(file) => Some(AnyFile::Tree(file)),
            Err(_) => None,
        },
    }
}

/// The place of the first opening, from 1 on, in which something isn't as told, and of the step; two zeros where all
/// is.
fn first_otherwise(alloc: Global, story: &Story) -> Result<(usize, usize), AllocError> {
    let failing = Vec::from_slice(alloc, story.failing)?;
    let mut store = MemStore::new(Vec::new(alloc), failing);
    if make(alloc, &mut store, story.made) != Ok(()) {
        return Ok((0, 1));
    }
    for (at, steps) in story.openings.iter().enumerate() {
        let step = match opened(alloc, &mut store, story) {
            Some(mut file) => first_step(alloc, &mut file, &mut store, *steps),
            None => usize::MAX,
        };
        if step != 0 {
            return Ok((at.saturating_add(1), step));
        }
    }
    Ok((0, 0))
}

pub(crate) fn expect_stories(rt: &impl Abort, alloc: Global, stories: &[Story]) {
    for story in stories {
        let found = first_otherwise(alloc, story);
        assert!(rt;
            found == Ok((0, 0)),
            "{}: opening and step {found:?}",
            story.title
        );
    }
}
