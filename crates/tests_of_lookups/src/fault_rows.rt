use crate::built_files::{Built, entries_of, file_of, opened_users};
use memory_objects::MemStore;
use opened_file::FileFault;
use quota_types::{Entry, Format, Rec};
use std::alloc::Global;
use std::process::Abort;
use tests_row_files::{get, next_after, store_of};
use tree_file::TreeFile;

/// How often the store was named by a look-up of the next entry, before it answered rightly; None where it didn't.
fn faults_before_next(
    file: &mut TreeFile,
    store: &mut MemStore,
    after: Option<u32>,
    entry: Option<Entry>,
) -> Option<u32> {
    match next_after(file, store, after)? {
        Ok(found) if found == entry => Some(0),
        Err(FileFault::Store) if next_after(file, store, after) == Some(Ok(entry)) => Some(1),
        _ => None,
    }
}

/// The same, of a look-up of an identifier's record.
fn faults_before_record(
    file: &mut TreeFile,
    store: &mut MemStore,
    id: u32,
    rec: Option<Rec>,
) -> Option<u32> {
    match get(file, store, id)? {
        Ok(found) if found == rec => Some(0),
        Err(FileFault::Store) if get(file, store, id) == Some(Ok(rec)) => Some(1),
        _ => None,
    }
}

/// How often the store was named while each entry was looked up, one after another and by itself; None where an answer
/// was wrong.
fn faults_in_walk(file: &mut TreeFile, store: &mut MemStore, list: &[Entry]) -> Option<u32> {
    let mut faults = 0u32;
    let mut after = None;
    for entry in list {
        let next = faults_before_next(file, store, after, Some(*entry))?;
        let record = faults_before_record(file, store, entry.id, Some(entry.rec))?;
        faults = faults.saturating_add(next).saturating_add(record);
        after = Some(entry.id);
    }
    let end = faults_before_next(file, store, after, None)?;
    Some(faults.saturating_add(end))
}

/// What a walk over a file found, of which one call of the store fails, or none where `failing` is 0.
#[derive(Clone, Copy, Debug)]
struct Walked {
    /// The calls of the store that opening made, and those that were made in all.
    opening: u64,
    calls: u64,
    faults: u32,
    is_written: bool,
}

/// None where the file is not opened, or an answer was wrong.
fn walk_over(alloc: Global, file: &[u8], list: &[Entry], failing: u64) -> Option<Walked> {
    let mut store = store_of(alloc, file, &[failing]).ok()?;
    let mut opened = opened_users(alloc, &mut store)?;
    let opening = calls_of(&store);
    let faults = faults_in_walk(&mut opened, &mut store, list)?;
    Some(Walked {
        opening,
        calls: calls_of(&store),
        faults,
        is_written: store.writes() != 0 || store.file("q") != Some(file),
    })
}

/// How many calls there were of a store whose file was opened and looked at: opening asks twice for its size.
fn calls_of(store: &MemStore) -> u64 {
    store.reads().saturating_add(2)
}

/// Expects each look-up in a file to name the store where a call of it fails, and to answer rightly when it is asked
/// again.
fn expect_faults_told(rt: &impl Abort, alloc: Global, rows: &[Built]) {
    for row in rows {
        let wrong = first_wrong(alloc, row);
        assert!(rt; wrong == Some(0), "{row:?}: {wrong:?}");
    }
}

/// The first call of the store whose fault is not told so, or 0; None where the walk fails without one.
fn first_wrong(alloc: Global, row: &Built) -> Option<u64> {
    let list = entries_of(alloc, row).ok()?;
    let file = file_of(alloc, row)?;
    let sound = walk_over(alloc, file.as_slice(), list.as_slice(), 0)?;
    if sound.faults != 0 || sound.is_written || sound.opening >= sound.calls {
        return None;
    }
    for call in sound.opening..sound.calls {
        let failing = call.saturating_add(1);
        let is_told = match walk_over(alloc, file.as_slice(), list.as_slice(), failing) {
            Some(found) => found.faults == 1 && !found.is_written && found.opening == sound.opening,
            None => false,
        };
        if !is_told {
            return Some(failing);
        }
    }
    Some(0)
}

/// Files with entries that are kept beside each other, with few of them, and with none.
const WALKED: &[Built] = &[
    Built {
        format: Format::V2R1,
        count: 16,
        step: 1,
    },
    Built {
        format: Format::V2R0,
        count: 6,
        step: 100,
    },
    Built {
        format: Format::V2R1,
        count: 4,
        step: 0x1001_0101,
    },
    Built {
        format: Format::V2R0,
        count: 0,
        step: 1,
    },
];

#[test]
fn a_look_up_names_a_store_that_fails_and_answers_when_it_is_asked_again(rt: HostRuntime) {
    expect_faults_told(&rt, rt.alloc(), WALKED);
}
