use crate::tree_changes::{USED, open_users};
use crate::tree_files::*;
use memory_objects::MemStore;
use opened_file::{FileFault, QuotaFile};
use quota_types::{Grace, Rec};
use std::alloc::Global;
use std::process::Abort;
use tests_row_files::{Act, get, make, store_of};

/// A file of users in vfsv1 that gets other grace periods.
struct GraceRow {
    title: &'static str,
    file: SixBlocks,
    after: SixBlocks,
    /// The record of identifier 1000, before and then.
    rec: Option<Rec>,
}

/// The periods, and the numbers of the header once it has them.
const PERIODS: Grace = Grace { block: 7, inode: 9 };

const WITH_PERIODS: &[Change] = &[(BLOCK_GRACE, 7), (INODE_GRACE, 9)];

/// The periods that the header has before.
const BEFORE: Grace = Grace {
    block: 604_800,
    inode: 604_800,
};

/// A hundred bytes of 255 behind the last block of the six-block file.
const BEHIND: &[Change] = &[
    (6144, u32::MAX),
    (6148, u32::MAX),
    (6152, u32::MAX),
    (6156, u32::MAX),
    (6160, u32::MAX),
    (6164, u32::MAX),
    (6168, u32::MAX),
    (6172, u32::MAX),
    (6176, u32::MAX),
    (6180, u32::MAX),
    (6184, u32::MAX),
    (6188, u32::MAX),
    (6192, u32::MAX),
    (6196, u32::MAX),
    (6200, u32::MAX),
    (6204, u32::MAX),
    (6208, u32::MAX),
    (6212, u32::MAX),
    (6216, u32::MAX),
    (6220, u32::MAX),
    (6224, u32::MAX),
    (6228, u32::MAX),
    (6232, u32::MAX),
    (6236, u32::MAX),
    (6240, u32::MAX),
];

const GRACED: &[GraceRow] = &[
    GraceRow {
        title: "grace periods are eight bytes, and what no field names stays",
        file: (6144, &[&[(1000, 7), (FLAGS, 5)]]),
        after: (6144, &[&[(1000, 7), (FLAGS, 5)], WITH_PERIODS]),
        rec: Some(USED),
    },
    GraceRow {
        title: "what is behind the last block stays",
        file: (6244, &[BEHIND]),
        after: (6244, &[BEHIND, WITH_PERIODS]),
        rec: Some(USED),
    },
    GraceRow {
        title: "the header alone grows to a block, of which all else is 0",
        file: (32, &[EMPTY]),
        after: (1024, &[EMPTY, WITH_PERIODS]),
        rec: None,
    },
    GraceRow {
        title: "a part of the first block grows to a block",
        file: (1000, &[EMPTY, &[(900, 7)]]),
        after: (1024, &[EMPTY, &[(900, 7)], WITH_PERIODS]),
        rec: None,
    },
];

/// Expects the periods to be set by one write, and the name to be synced then.
fn expect_graced(rt: &impl Abort, alloc: Global, rows: &[GraceRow]) {
    for row in rows {
        let wrong = wrong_in(alloc, row);
        assert!(rt; wrong == Some(""), "{}: {wrong:?}", row.title);
    }
}

/// What is wrong, or nothing; None where the file is not opened.
fn wrong_in(alloc: Global, row: &GraceRow) -> Option<&'static str> {
    let (len, changes) = row.file;
    let file = made(alloc, len, changes).ok()?;
    let mut store = store_of(alloc, file.as_slice(), &[]).ok()?;
    let mut opened = open_users(alloc, &mut store, 100).ok()?;
    let reads = store.reads();
    if make(&mut opened, &mut store, &Act::SetGrace(PERIODS)) != Some(Ok(())) {
        return Some("the answer");
    }
    if store.reads().saturating_sub(reads) > 1 || store.writes() != 1 || store.is_unsynced("q") {
        return Some("the calls of the store");
    }
    if !is_file(alloc, &store, row.after) || store.file("q.new").is_some() {
        return Some("the file");
    }
    if QuotaFile::<MemStore>::grace(&opened) != PERIODS
        || get(&mut opened, &mut store, 1000) != Some(Ok(row.rec))
    {
        return Some("the opened file");
    }
    let mut again = open_users(alloc, &mut store, 100).ok()?;
    if QuotaFile::<MemStore>::grace(&again) != PERIODS
        || get(&mut again, &mut store, 1000) != Some(Ok(row.rec))
    {
        return Some("the file opened again");
    }
    Some("")
}

/// Whether the named file is the one that is described.
fn is_file(alloc: Global, store: &MemStore, want: SixBlocks) -> bool {
    let (len, changes) = want;
    match made(alloc, len, changes) {
        Ok(want) => store.file("q") == Some(want.as_slice()),
        Err(_) => false,
    }
}

#[test]
fn grace_periods_are_set_by_one_write_where_they_stand(rt: HostRuntime) {
    expect_graced(&rt, rt.alloc(), GRACED);
}

/// The calls of the store that setting the periods makes, and whether the file is the new one where one of them fails:
/// the read of the first block, the write and the sync.
const FAILING: &[(u64, bool)] = &[(1, false), (2, false), (3, true)];

/// Expects the file to be the old or the new one where a call of the store fails, and not to be used any more.
fn expect_old_or_new(rt: &impl Abort, alloc: Global, rows: &[GraceRow]) {
    for row in rows {
        expect_old_or_new_in(rt, alloc, row);
    }
}

fn expect_old_or_new_in(rt: &impl Abort, alloc: Global, row: &GraceRow) {
    for (call, is_new) in FAILING {
        let wrong = wrong_at(alloc, row, *call, *is_new);
        assert!(rt; wrong == Some(""), "{}, call {call}: {wrong:?}", row.title);
    }
}

/// What is wrong after a call of the store behind the opening has failed, or nothing; None where the file is not
/// opened.
fn wrong_at(alloc: Global, row: &GraceRow, call: u64, is_new: bool) -> Option<&'static str> {
    let (len, changes) = row.file;
    let file = made(alloc, len, changes).ok()?;
    let mut sound = store_of(alloc, file.as_slice(), &[]).ok()?;
    open_users(alloc, &mut sound, 100).ok()?;
    // opening asks twice for the size of the file
    let opening = sound.reads().saturating_add(2);
    let mut store = store_of(alloc, file.as_slice(), &[opening.saturating_add(call)]).ok()?;
    let mut opened = open_users(alloc, &mut store, 100).ok()?;
    let answer = make(&mut opened, &mut store, &Act::SetGrace(PERIODS));
    if answer != Some(Err(FileFault::Store)) {
        return Some("the answer");
    }
    if !is_file(alloc, &store, if is_new { row.after } else { row.file }) {
        return Some("the file");
    }
    if QuotaFile::<MemStore>::usable(&opened) || QuotaFile::<MemStore>::grace(&opened) != BEFORE {
        return Some("the opened file");
    }
    Some("")
}

#[test]
fn a_fault_of_the_store_leaves_the_old_or_the_new_grace_periods(rt: HostRuntime) {
    expect_old_or_new(&rt, rt.alloc(), GRACED);
}
