use crate::built_files::{Built, entries_of, file_of, opened_users, store_with};
use memory_objects::MemStore;
use quota_types::{Entry, Format, Grace, Rec};
use std::alloc::Global;
use std::process::Abort;
use tests_row_files::{Act, make, next_after};
use tree_file::TreeFile;

/// The record that is put between two others.
const BETWEEN: Rec = Rec {
    ihard: 0,
    isoft: 0,
    inodes: 7,
    bhard: 0,
    bsoft: 0,
    space: 0,
    btime: 0,
    itime: 0,
};

const PERIODS: Grace = Grace { block: 7, inode: 9 };

/// Expects the next entry to be the one that is there after a change, wherever a walk stands.
fn expect_changes_seen(rt: &impl Abort, alloc: Global, rows: &[Built]) {
    for row in rows {
        let wrong = first_wrong(alloc, row);
        assert!(rt; wrong == Some(None), "{row:?}: {wrong:?}");
    }
}

/// The first identifier behind which a change is not seen; None where the file is not opened.
fn first_wrong(alloc: Global, row: &Built) -> Option<Option<u32>> {
    let list = entries_of(alloc, row).ok()?;
    let file = file_of(alloc, row)?;
    let mut store = store_with(alloc, file.as_slice())?;
    let mut opened = opened_users(alloc, &mut store)?;
    for (place, entry) in list.iter().enumerate() {
        let behind = list.get(place.saturating_add(1)).copied();
        if !is_seen(&mut opened, &mut store, *entry, behind) {
            return Some(Some(entry.id));
        }
    }
    Some(None)
}

/// Whether a walk that has come to an entry goes on rightly: to the one behind it, to one that was put between them, to
/// that one also once the grace periods were set, and to the one behind again once the other was taken away.
fn is_seen(file: &mut TreeFile, store: &mut MemStore, entry: Entry, behind: Option<Entry>) -> bool {
    let between = Entry {
        id: entry.id.wrapping_add(1),
        rec: BETWEEN,
    };
    is_next(file, store, entry, behind)
        && is_next_once(
            file,
            store,
            entry,
            Act::Put(between.id, BETWEEN),
            Some(between),
        )
        && is_next(file, store, between, behind)
        && is_next_once(file, store, entry, Act::SetGrace(PERIODS), Some(between))
        && is_next_once(file, store, entry, Act::Remove(between.id), behind)
}

/// Whether this comes after an entry, once a walk has come to that and a change was made then.
fn is_next_once(
    file: &mut TreeFile,
    store: &mut MemStore,
    entry: Entry,
    change: Act,
    behind: Option<Entry>,
) -> bool {
    let before = entry.id.checked_sub(1);
    next_after(file, store, before) == Some(Ok(Some(entry)))
        && make(file, store, &change) == Some(Ok(()))
        && is_next(file, store, entry, behind)
}

/// Whether this comes after an entry.
fn is_next(file: &mut TreeFile, store: &mut MemStore, entry: Entry, behind: Option<Entry>) -> bool {
    next_after(file, store, Some(entry.id)) == Some(Ok(behind))
}

/// Files whose identifiers leave room between them.
const WITH_ROOM: &[Built] = &[
    Built {
        format: Format::V2R0,
        count: 30,
        step: 2,
    },
    Built {
        format: Format::V2R1,
        count: 10,
        step: 100,
    },
];

#[test]
fn a_change_between_two_look_ups_is_seen_by_the_next(rt: HostRuntime) {
    expect_changes_seen(&rt, rt.alloc(), WITH_ROOM);
}
