use crate::files::*;
use memory_objects::MemStore;
use outside::Store;
use std::alloc::Global;
use std::process::Abort;
use tests_row_files::{Act, make, store_of};
use tree_file::TreeFile;

/// A change of a file, what the file is then, and how many blocks are written.
pub(crate) struct ChangeRow {
    pub title: &'static str,
    pub before: Described,
    pub act: Act,
    pub after: Described,
    pub writes: u64,
}

/// Expects each file to be changed as its row says.
fn expect_changes(rt: &impl Abort, alloc: Global, rows: &[ChangeRow]) {
    for row in rows {
        let wrong = wrong_in(alloc, row);
        assert!(rt; wrong == Some(""), "{}: {wrong:?}", row.title);
    }
}

/// What is wrong, or nothing; None where the file is not opened.
fn wrong_in(alloc: Global, row: &ChangeRow) -> Option<&'static str> {
    let before = made(alloc, &row.before).ok()?;
    let mut store = store_of(alloc, before.as_slice(), &[]).ok()?;
    let mut opened = open_users(alloc, &mut store).ok()?;
    let reads = reads_of(&mut opened, &mut store, &row.act)?;
    if reads > 12 {
        return Some("the number of reads");
    }
    if store.writes() != row.writes {
        return Some("the number of writes");
    }
    if store.is_unsynced("q") {
        return Some("the file is not synced");
    }
    let after = made(alloc, &row.after).ok()?;
    if store.file("q") != Some(after.as_slice()) {
        return Some("the file");
    }
    Some(wrong_again(alloc, &mut store))
}

/// How many reads a change makes; None where it is refused.
fn reads_of(opened: &mut TreeFile, store: &mut MemStore, act: &Act) -> Option<u64> {
    let before = store.reads();
    match make(opened, store, act) {
        Some(Ok(())) => Some(store.reads().saturating_sub(before)),
        _ => None,
    }
}

/// What is wrong with the file when it is opened again: opening checks it.
fn wrong_again(alloc: Global, store: &mut MemStore) -> &'static str {
    match open_users(alloc, store) {
        Ok(_) => "",
        Err(_) => "the file is not opened again",
    }
}

/// The six-block file in which identifier 7 has a record too: tree block 6 leads to it.
const WITH_7: &[Number] = &[(3, 0, 6), (6, 28, 5), (5, 8, 2), (5, 88, 7), (5, 112, 1)];

/// The same file in which the greatest identifier has a record too: the tree blocks 7, 8 and 9 lead to it.
#[rattlefmt::skip]
const WITH_GREATEST: &[Number] = &[
    (1, 1020, 7), (7, 1020, 8), (8, 1020, 9), (9, 1020, 5), (5, 8, 3), (5, 160, u32::MAX), (5, 184, 1),
];

/// Thirteen identifiers from 1000 on in block 5, which has room for one more.
#[rattlefmt::skip]
pub(crate) const THIRTEEN: &[Number] = &[
    (4, 932, 5), (4, 936, 5), (4, 940, 5), (4, 944, 5), (4, 948, 5), (4, 952, 5), (4, 956, 5), (4, 960, 5), (4, 964, 5),
    (4, 968, 5), (4, 972, 5), (4, 976, 5),
    (5, 8, 13), (5, 88, 1001), (5, 160, 1002), (5, 232, 1003), (5, 304, 1004), (5, 376, 1005), (5, 448, 1006),
    (5, 520, 1007), (5, 592, 1008), (5, 664, 1009), (5, 736, 1010), (5, 808, 1011), (5, 880, 1012),
];

/// The fourteenth identifier, 1013: block 5 is full, and in no list if it was the only one.
pub(crate) const FOURTEENTH: &[Number] = &[
    (0, 28, 0),
    (4, 980, 5),
    (5, 8, 14),
    (5, 952, 1013),
    (5, 976, 1),
];

/// A second data block, 6, with identifier 1014: the entry list begins with it.
const SECOND: &[Number] = &[
    (0, 20, 7),
    (0, 28, 6),
    (4, 984, 6),
    (6, 8, 1),
    (6, 16, 1014),
    (6, 40, 1),
];

/// Block 5 before block 6 in the entry list.
const BOTH_LISTED: &[Number] = &[(0, 28, 5), (5, 0, 6), (6, 4, 5)];

/// Blocks 6 and 7 with the identifiers 1001 and 1002, behind block 5 in the entry list.
#[rattlefmt::skip]
const THREE_LISTED: &[Number] = &[
    (0, 20, 8), (4, 932, 6), (4, 936, 7), (5, 0, 6), (6, 0, 7), (6, 4, 5), (7, 4, 6),
    (6, 8, 1), (6, 16, 1001), (7, 8, 1), (7, 16, 1002),
];

/// The bytes of the entry of identifier 1000 are 0, and no leaf names it.
const WITHOUT_1000: &[Number] = &[(4, 928, 0), (5, 16, 0), (5, 40, 0)];

/// Block 6 is free.
const FREE_6: &[Number] = &[(0, 20, 7), (0, 24, 6)];

/// The blocks 7 and 6 are free, in this order.
const FREE_7_AND_6: &[Number] = &[(0, 20, 8), (0, 24, 7), (7, 0, 6)];

/// Nothing but the header and the root is used: the list of free blocks has the data block first, and then the tree
/// blocks from the root on.
#[rattlefmt::skip]
const ALL_FREE: &[Number] = &[
    (0, 24, 5), (0, 28, 0), (1, 0, 0), (5, 0, 2), (2, 0, 3), (3, 0, 4), (3, 12, 0), (5, 8, 0),
];

#[rattlefmt::skip]
pub(crate) const CHANGES: &[ChangeRow] = &[
    ChangeRow {
        title: "a record over the old one: its block",
        before: (6, &[&[(5, 24, 9), (5, 64, 9)]]), act: Act::Put(1000, ONE),
        after: (6, &[]), writes: 1,
    },
    ChangeRow {
        title: "a new leaf in a tree block that is there, in a data block that has room: both",
        before: (6, &[]), act: Act::Put(1001, ONE),
        after: (6, &[&[(4, 932, 5), (5, 8, 2), (5, 88, 1001), (5, 112, 1)]]), writes: 2,
    },
    ChangeRow {
        title: "one tree block is wanted: header, tree blocks 3 and 6, data block 5",
        before: (6, &[]), act: Act::Put(7, ONE),
        after: (7, &[WITH_7, &[(0, 20, 7)]]), writes: 4,
    },
    ChangeRow {
        title: "three tree blocks are wanted: header, root, tree blocks 7 to 9, data block 5",
        before: (7, &[WITH_7, &[(0, 20, 7)]]), act: Act::Put(u32::MAX, ONE),
        after: (10, &[WITH_7, WITH_GREATEST, &[(0, 20, 10)]]), writes: 6,
    },
    ChangeRow {
        title: "a data block that becomes full leaves the entry list",
        before: (6, &[THIRTEEN]), act: Act::Put(1013, ONE),
        after: (6, &[THIRTEEN, FOURTEENTH]), writes: 3,
    },
    ChangeRow {
        title: "where the data blocks are full a new one begins, and enters the entry list",
        before: (6, &[THIRTEEN, FOURTEENTH]), act: Act::Put(1014, ONE),
        after: (7, &[THIRTEEN, FOURTEENTH, SECOND]), writes: 3,
    },
    ChangeRow {
        title: "the next block of the list is its first one, once the one before it is full",
        before: (7, &[THIRTEEN, SECOND, BOTH_LISTED]), act: Act::Put(1013, ONE),
        after: (7, &[THIRTEEN, FOURTEENTH, SECOND]), writes: 4,
    },
    ChangeRow {
        title: "a free block is taken before the file grows",
        before: (7, &[FREE_6]), act: Act::Put(7, ONE),
        after: (7, &[WITH_7, &[(0, 20, 7)]]), writes: 4,
    },
    ChangeRow {
        title: "the free blocks are taken in their order, and then one behind the last one",
        before: (8, &[FREE_7_AND_6]), act: Act::Put(u32::MAX, ONE),
        after: (9, &[&[
            (0, 20, 9), (1, 1020, 7), (7, 1020, 6), (6, 1020, 8), (8, 1020, 5), (5, 8, 2), (5, 88, u32::MAX), (5,
                112, 1),
        ]]), writes: 6,
    },
    ChangeRow {
        title: "a free block becomes a data block before a tree block is taken",
        before: (7, &[THIRTEEN, FOURTEENTH, FREE_6]), act: Act::Put(7, ONE),
        after: (8, &[THIRTEEN, FOURTEENTH, &[
            (0, 20, 8), (0, 28, 6), (3, 0, 7), (7, 28, 6), (6, 8, 1), (6, 16, 7), (6, 40, 1),
        ]]), writes: 4,
    },
    ChangeRow {
        title: "an identifier in a file whose blocks are free",
        before: (6, &[WITHOUT_1000, ALL_FREE]), act: Act::Put(7, ONE),
        after: (6, &[&[(3, 0, 4), (3, 12, 0), (4, 928, 0), (4, 28, 5), (5, 16, 7)]]), writes: 6,
    },
    ChangeRow {
        title: "the last identifier: its tree blocks are free, the lowest first, and then its data block",
        before: (6, &[]), act: Act::Remove(1000),
        after: (6, &[WITHOUT_1000, ALL_FREE]), writes: 6,
    },
    ChangeRow {
        title: "an entry of a block that keeps others and had room: leaf and entry",
        before: (6, &[THIRTEEN]), act: Act::Remove(1000),
        after: (6, &[THIRTEEN, WITHOUT_1000, &[(5, 8, 12)]]), writes: 2,
    },
    ChangeRow {
        title: "a full block enters an empty entry list",
        before: (6, &[THIRTEEN, FOURTEENTH]), act: Act::Remove(1005),
        after: (6, &[THIRTEEN, FOURTEENTH, &[(0, 28, 5), (4, 948, 0), (5, 8, 13), (5, 376, 0)]]), writes: 3,
    },
    ChangeRow {
        title: "a full block enters the entry list before the block that was its first",
        before: (7, &[THIRTEEN, FOURTEENTH, SECOND]), act: Act::Remove(1005),
        after: (7, &[THIRTEEN, FOURTEENTH, SECOND, BOTH_LISTED, &[(4, 948, 0), (5, 8, 13), (5, 376, 0)]]), writes: 4,
    },
    ChangeRow {
        title: "the first block of the entry list is emptied",
        before: (8, &[THREE_LISTED]), act: Act::Remove(1000),
        after: (8,
            &[THREE_LISTED, WITHOUT_1000, &[(0, 24, 5), (0, 28, 6), (5, 0, 0), (5, 8, 0), (6, 4, 0)]]), writes: 4,
    },
    ChangeRow {
        title: "a block amid the entry list is emptied: its neighbours name each other",
        before: (8, &[THREE_LISTED]), act: Act::Remove(1001),
        after: (8, &[THREE_LISTED, &[
            (0, 24, 6), (4, 932, 0), (5, 0, 7), (7, 4, 5), (6, 0, 0), (6, 4, 0), (6, 8, 0), (6, 16, 0),
        ]]), writes: 5,
    },
    ChangeRow {
        title: "the last block of the entry list is emptied",
        before: (8, &[THREE_LISTED]), act: Act::Remove(1002),
        after: (8, &[THREE_LISTED, &[(0, 24, 7), (4, 936, 0), (6, 0, 0), (7, 4, 0), (7, 8, 0), (7, 16, 0)]]), writes: 4,
    },
    ChangeRow {
        title: "a block that is emptied comes before the free ones",
        before: (9, &[THREE_LISTED, &[(0, 20, 9), (0, 24, 8)]]), act: Act::Remove(1002),
        after: (9, &[THREE_LISTED, &[
            (0, 20, 9), (0, 24, 7), (4, 936, 0), (6, 0, 0), (7, 0, 8), (7, 4, 0), (7, 8, 0), (7, 16, 0),
        ]]), writes: 4,
    },
    ChangeRow {
        title: "one tree block is emptied",
        before: (7, &[WITH_7, &[(0, 20, 7)]]), act: Act::Remove(7),
        after: (7, &[&[(0, 20, 7), (0, 24, 6)]]), writes: 4,
    },
    ChangeRow {
        title: "an identifier without a leaf",
        before: (6, &[]), act: Act::Remove(1001), after: (6, &[]), writes: 0,
    },
    ChangeRow {
        title: "an identifier without a lowest tree block",
        before: (6, &[]), act: Act::Remove(7), after: (6, &[]), writes: 0,
    },
    ChangeRow {
        title: "an identifier without any tree block",
        before: (6, &[]), act: Act::Remove(u32::MAX), after: (6, &[]), writes: 0,
    },
];

#[test]
fn a_change_writes_the_blocks_that_it_should(rt: HostRuntime) {
    expect_changes(&rt, rt.alloc(), CHANGES);
}
