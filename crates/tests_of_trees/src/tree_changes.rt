use crate::tree_files::*;
use memory_objects::MemStore;
use opened_file::{FileFault, OpenFault, QuotaFile};
use quota_types::{Format, Kind, Rec};
use std::alloc::Global;
use std::process::Abort;
use tests_row_files::{Act, get, make, store_of};
use tree_file::{TreeFile, open_tree};

pub(crate) const LIMITS: Rec = Rec {
    ihard: 20,
    isoft: 10,
    inodes: 0,
    bhard: 200,
    bsoft: 100,
    space: 0,
    btime: 0,
    itime: 0,
};

/// The record of identifier 1000 of the six-block file.
pub(crate) const USED: Rec = Rec {
    inodes: 1,
    space: 4096,
    ..NULL
};

const NULL: Rec = Rec {
    ihard: 0,
    isoft: 0,
    bhard: 0,
    bsoft: 0,
    ..LIMITS
};

/// A soft limit of one block, and nothing else.
const SOFT: Rec = Rec { bsoft: 1, ..NULL };

/// What the named file is after its changes.
enum After {
    /// The file that is described.
    Is(SixBlocks),
    /// A file of this length in which these numbers stand.
    Has(usize, &'static [Change]),
}

use After::*;

/// A file of users in vfsv1 that is changed.
struct ChangeRow {
    title: &'static str,
    file: SixBlocks,
    limit: u32,
    acts: &'static [Act],
    /// What the last change is refused with.
    fault: Option<FileFault>,
    after: After,
    flags: u32,
    /// Identifiers, each with its record after the changes.
    records: &'static [(u32, Option<Rec>)],
}

/// Expects each file to be changed as its row says.
fn expect_changes(rt: &impl Abort, alloc: Global, rows: &[ChangeRow]) {
    for row in rows {
        let wrong = wrong_in(alloc, row);
        assert!(rt; wrong == Some(""), "{}: {wrong:?}", row.title);
    }
}

/// What is wrong, or nothing; None where the file is not opened.
fn wrong_in(alloc: Global, row: &ChangeRow) -> Option<&'static str> {
    let (len, changes) = row.file;
    let file = made(alloc, len, changes).ok()?;
    let mut store = store_of(alloc, file.as_slice(), &[]).ok()?;
    let mut opened = open_users(alloc, &mut store, row.limit).ok()?;
    if fault_of(&mut opened, &mut store, row.acts) != Some(row.fault) {
        return Some("the answer of the last change");
    }
    if !is_after(alloc, &store, &row.after) {
        return Some("the file");
    }
    if !have_records(&mut opened, &mut store, row.records) {
        return Some("the records of the opened file");
    }
    let mut again = open_users(alloc, &mut store, row.limit).ok()?;
    if !have_records(&mut again, &mut store, row.records) || again.flags() != row.flags {
        return Some("the records and flags of the file opened again");
    }
    Some("")
}

/// Opens the file `q`, a file of users in vfsv1.
pub(crate) fn open_users(
    alloc: Global,
    store: &mut MemStore,
    limit: u32,
) -> Result<TreeFile, OpenFault> {
    open_tree(alloc, store, "q", Kind::User, Some(Format::V2R1), limit)
}

/// The fault of the last change; None where another one is refused, or one may not be asked for.
fn fault_of(file: &mut TreeFile, store: &mut MemStore, acts: &[Act]) -> Option<Option<FileFault>> {
    let mut last = Ok(());
    for next in acts {
        if last.is_err() {
            return None;
        }
        last = make(file, store, next)?;
    }
    Some(last.err())
}

fn is_after(alloc: Global, store: &MemStore, after: &After) -> bool {
    let file = store.file("q").unwrap_or(b"");
    match after {
        Is((len, changes)) => match made(alloc, *len, changes) {
            Ok(want) => file == want.as_slice(),
            Err(_) => false,
        },
        Has(len, numbers) => file.len() == *len && stand_in(file, numbers),
    }
}

fn have_records(file: &mut TreeFile, store: &mut MemStore, records: &[(u32, Option<Rec>)]) -> bool {
    for (id, rec) in records {
        if get(file, store, *id) != Some(Ok(*rec)) {
            return false;
        }
    }
    true
}

/// A byte of the header's block that no field names. Where it stays the file was not built anew.
const UNNAMED: &[Change] = &[(1000, 7)];

/// The numbers of the entry of identifier 1000 in the six-block file once it has the limits.
const ENTRY_WITH_LIMITS: &[Change] = &[
    (ENTRY + 8, 20),
    (ENTRY + 16, 10),
    (ENTRY + 24, 0),
    (ENTRY + 32, 200),
    (ENTRY + 40, 100),
    (ENTRY + 48, 0),
];

/// The numbers of the six-block file once identifier 65536 has the soft limit: the tree blocks 6 and 7 lead to its
/// entry.
#[rattlefmt::skip]
const WITH_65536: &[Change] = &[
    (BLOCKS, 8), (2052, 6), (6144, 7), (7168, 5), (STATED, 2), (ENTRY + 72, 65_536), (ENTRY + 112, 1),
];

/// A hundred bytes behind the sixth block, each of them 255.
#[rattlefmt::skip]
const BEHIND: &[Change] = &[
    (6144, ALL_ONES), (6148, ALL_ONES), (6152, ALL_ONES), (6156, ALL_ONES), (6160, ALL_ONES), (6164, ALL_ONES),
    (6168, ALL_ONES), (6172, ALL_ONES), (6176, ALL_ONES), (6180, ALL_ONES), (6184, ALL_ONES), (6188, ALL_ONES),
    (6192, ALL_ONES), (6196, ALL_ONES), (6200, ALL_ONES), (6204, ALL_ONES), (6208, ALL_ONES), (6212, ALL_ONES),
    (6216, ALL_ONES), (6220, ALL_ONES), (6224, ALL_ONES), (6228, ALL_ONES), (6232, ALL_ONES), (6236, ALL_ONES),
    (6240, ALL_ONES),
];

const ALL_ONES: u32 = u32::MAX;

const CHANGED: &[ChangeRow] = &[
    ChangeRow {
        title: "a record is written over the old one",
        file: (6144, &[UNNAMED]),
        limit: 6,
        acts: &[Act::Put(1000, USED), Act::Put(1000, LIMITS)],
        fault: None,
        after: Is((6144, &[UNNAMED, ENTRY_WITH_LIMITS])),
        flags: 0,
        records: &[(1000, Some(LIMITS))],
    },
    ChangeRow {
        title: "a record is written over the old one, and what is behind the last block stays",
        file: (6200, &[UNNAMED]),
        limit: 6,
        acts: &[Act::Put(1000, USED), Act::Put(1000, LIMITS)],
        fault: None,
        after: Is((6200, &[UNNAMED, ENTRY_WITH_LIMITS])),
        flags: 0,
        records: &[(1000, Some(LIMITS))],
    },
    ChangeRow {
        title: "a free block stays free where a record is written over the old one",
        file: (7168, &[&[(BLOCKS, 7), (FREE, 6)], UNNAMED]),
        limit: 100,
        acts: &[Act::Put(1000, LIMITS)],
        fault: None,
        after: Is((
            7168,
            &[&[(BLOCKS, 7), (FREE, 6)], UNNAMED, ENTRY_WITH_LIMITS],
        )),
        flags: 0,
        records: &[(1000, Some(LIMITS))],
    },
    ChangeRow {
        title: "flags and null records are kept",
        file: (6144, &[&[(FLAGS, 5), (ENTRY + 24, 0), (ENTRY + 48, 0)]]),
        limit: 100,
        acts: &[Act::Put(7, LIMITS)],
        fault: None,
        after: Has(7168, &[(FLAGS, 5)]),
        flags: 5,
        records: &[(7, Some(LIMITS)), (1000, Some(NULL))],
    },
    ChangeRow {
        title: "a file is full past its limit, and may still be used",
        file: (6144, &[]),
        limit: 8,
        acts: &[Act::Put(u32::MAX, LIMITS)],
        fault: Some(FileFault::Full {
            blocks: 9,
            limit: 8,
        }),
        after: Is((6144, &[])),
        flags: 0,
        records: &[(1000, Some(USED)), (u32::MAX, None)],
    },
    ChangeRow {
        title: "a file that lacks room for two tree blocks tells both numbers",
        file: (6144, &[]),
        limit: 6,
        acts: &[Act::Put(65_536, SOFT)],
        fault: Some(FileFault::Full {
            blocks: 8,
            limit: 6,
        }),
        after: Is((6144, &[])),
        flags: 0,
        records: &[(1000, Some(USED)), (65_536, None)],
    },
    ChangeRow {
        title: "two tree blocks are added, and the entry list stays",
        file: (6144, &[]),
        limit: 8,
        acts: &[Act::Put(65_536, SOFT)],
        fault: None,
        after: Is((8192, &[WITH_65536])),
        flags: 0,
        records: &[(1000, Some(USED)), (65_536, Some(SOFT))],
    },
    ChangeRow {
        title: "new blocks are written over what is behind the last one",
        file: (6244, &[BEHIND]),
        limit: 8,
        acts: &[Act::Put(65_536, SOFT)],
        fault: None,
        after: Is((8192, &[WITH_65536])),
        flags: 0,
        records: &[(1000, Some(USED)), (65_536, Some(SOFT))],
    },
    ChangeRow {
        title: "a file has room up to its limit",
        file: (6144, &[]),
        limit: 9,
        acts: &[Act::Put(u32::MAX, LIMITS)],
        fault: None,
        after: Has(9216, &[(BLOCKS, 9)]),
        flags: 0,
        records: &[(1000, Some(USED)), (u32::MAX, Some(LIMITS))],
    },
];

#[test]
fn a_change_is_made_as_it_is_asked_for(rt: HostRuntime) {
    expect_changes(&rt, rt.alloc(), CHANGED);
}

/// Changes of the six-block file: a new record, one over the old one, and none in its place.
const TRIED: &[Act] = &[
    Act::Put(7, LIMITS),
    Act::Put(1000, LIMITS),
    Act::Remove(1000),
];

/// More calls than opening and a change make.
const CALLS: u64 = 60;

/// Expects each change to leave each block old or new where a call of the store fails, whichever it is.
fn expect_old_or_new(rt: &impl Abort, alloc: Global, changes: &[Act]) {
    for change in changes {
        expect_old_or_new_of(rt, alloc, change);
    }
}

fn expect_old_or_new_of(rt: &impl Abort, alloc: Global, change: &Act) {
    for call in 1..CALLS {
        let wrong = wrong_at(alloc, change, call);
        assert!(rt; wrong == Some(""), "{change:?}, call {call}: {wrong:?}");
    }
}

/// What is wrong after the call of the store with this number has failed, or nothing.
fn wrong_at(alloc: Global, change: &Act, call: u64) -> Option<&'static str> {
    let old = made(alloc, 6144, &[]).ok()?;
    let mut sound = store_of(alloc, old.as_slice(), &[]).ok()?;
    let mut opened = open_users(alloc, &mut sound, 100).ok()?;
    if make(&mut opened, &mut sound, change) != Some(Ok(())) {
        return Some("the change without a fault");
    }
    let mut store = store_of(alloc, old.as_slice(), &[call]).ok()?;
    let done = done_with(alloc, &mut store, change);
    let left = store.file("q").unwrap_or(b"");
    let new = sound.file("q").unwrap_or(b"");
    let is_so = match done {
        Done => left == new,
        Refused => are_old_or_new(old.as_slice(), new, left),
        Wrong(wrong) => return Some(wrong),
    };
    Some(if is_so { "" } else { "the file" })
}

/// Whether each block that is left of a file is the old or the new one.
fn are_old_or_new(old: &[u8], new: &[u8], left: &[u8]) -> bool {
    let mut all = true;
    let mut at = 0;
    for block in left.chunks(1024) {
        all = all && (stands_at(old, at, block) || stands_at(new, at, block));
        at = at.saturating_add(block.len());
    }
    all
}

/// Whether a file has these bytes from a place on; what is behind its end counts as zeros.
fn stands_at(file: &[u8], at: usize, block: &[u8]) -> bool {
    let rest = file.get(at..).unwrap_or(b"");
    let count = rest.len().min(block.len());
    rest[..count] == block[..count] && block[count..].iter().all(|byte| *byte == 0)
}

/// How opening and a change end.
enum End {
    Done,
    Refused,
    Wrong(&'static str),
}

use End::*;

fn done_with(alloc: Global, store: &mut MemStore, change: &Act) -> End {
    let mut opened = match open_users(alloc, store, 100) {
        Ok(opened) => opened,
        Err(OpenFault::Store) => return Refused,
        Err(_) => return Wrong("the fault of opening"),
    };
    if let Some(Ok(())) = make(&mut opened, store, change) {
        return Done;
    }
    if QuotaFile::<MemStore>::usable(&opened) {
        return Wrong("the file may still be used");
    }
    Refused
}

#[test]
fn a_fault_of_the_store_leaves_each_block_old_or_new(rt: HostRuntime) {
    expect_old_or_new(&rt, rt.alloc(), TRIED);
}
