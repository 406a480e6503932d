//! Runs over a disk in memory, of which a file is changed in place through a journal.

use crate::comparing::{But, about, are_same};
use crate::disks::{NEVER, disk_calls_made, disk_of, files_in};
use disk_in_memory::MemDisk;
use journal_store::JournalStore;
use std::alloc::Global;
use tests_story_stage::{
    Checked, Conditions, NEW, NamedBytes, Program, Ran, Stage, Streams, Wrong, holds_if, instead,
    is_number, names_left, words_of,
};

/// What a run over a disk left.
#[derive(Drop)]
pub(crate) struct Journaled {
    /// The status with which it ended.
    pub status: u8,
    /// The objects outside but the store.
    pub streams: Streams,
    /// The disk.
    pub disk: MemDisk,
}

/// Runs words over a disk, through a journal.
///
/// # Errors
///
/// They called what they were not given, or there was not enough memory.
pub(crate) fn run_over_disk<P: Program>(
    program: &P,
    stage: &Stage,
    setting: &Conditions,
    words: &[String],
    disk: MemDisk,
) -> Result<Journaled, Wrong> {
    let mut store = JournalStore::new(disk);
    let mut streams = Streams::new(stage.alloc, setting)?;
    let status = program.run(stage.alloc, words, &mut store, &mut streams, stage.now);
    let called = streams.called();
    holds_if(stage.alloc, called.is_empty(), called)?;
    Ok(Journaled {
        status,
        streams,
        disk: store.into_disk(),
    })
}

/// That a run over a disk said, took and sent what one over a store in memory did.
fn does_same(alloc: Global, plain: &Ran, over: &Journaled) -> Checked {
    let streams = &over.streams;
    is_number(alloc, u64::from(over.status), u64::from(plain.status))?;
    if streams.err.bytes() != plain.err() {
        return instead(alloc, streams.err.bytes());
    }
    holds_if(
        alloc,
        streams.out.bytes() == plain.out(),
        "the outputs differ",
    )?;
    let is_taken = streams.left() == plain.streams.left();
    let is_sent = streams.link.answers() == plain.streams.link.answers();
    holds_if(
        alloc,
        is_taken && is_sent,
        "it takes or sends something else",
    )
}

/// That a run over a disk with these files did and left what one over a store in memory did.
fn is_same(alloc: Global, before: &[NamedBytes], plain: &Ran, over: &mut Journaled) -> Checked {
    does_same(alloc, plain, over)?;
    let names = names_left(alloc, before, &plain.words, NEW)?;
    let files = files_in(alloc, &mut over.disk, &names)?;
    let are_same = are_same(&files, &plain.files, But::Journal);
    holds_if(alloc, are_same, "the files differ")
}

/// Runs the words of a line over these files on a disk, through a journal.
///
/// # Errors
///
/// They did not say and leave what they did over a store in memory, or there was not enough memory.
pub(crate) fn run_journaled<P: Program>(
    program: &P,
    stage: &Stage,
    files: &[NamedBytes],
    setting: &Conditions,
    line: &str,
    plain: &Ran,
) -> Checked {
    let words = words_of(stage.alloc, line)?;
    let disk = disk_of(stage.alloc, files, None);
    let mut over = run_over_disk(program, stage, setting, &words, disk)?;
    let told = is_same(stage.alloc, files, plain, &mut over);
    about(stage.alloc, "over a journal", told)
}

/// How many calls of a disk with these files are made by words.
///
/// # Errors
///
/// There are none, or nearly a thousand; they called what they were not given; or there was not enough memory.
pub(crate) fn calls_over_disk<P: Program>(
    program: &P,
    stage: &Stage,
    setting: &Conditions,
    words: &[String],
    files: &[NamedBytes],
) -> Result<u64, Wrong> {
    let disk = disk_of(stage.alloc, files, Some(NEVER));
    let mut over = run_over_disk(program, stage, setting, words, disk)?;
    let calls = disk_calls_made(&mut over.disk);
    holds_if(
        stage.alloc,
        calls > 0 && calls < NEVER - 1,
        "it makes no call of a disk, or too many",
    )?;
    Ok(calls)
}
