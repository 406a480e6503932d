use crate::built_files::{Built, entries_of, file_of, opened_users, store_with};
use memory_objects::MemStore;
use quota_types::{Entry, Format};
use std::alloc::Global;
use std::process::Abort;
use tests_row_files::{get, next_after};
use tree_file::TreeFile;

/// How many reads a look-up makes at most, and all of the next entries together.
#[derive(Clone, Copy, Debug)]
struct Reads {
    record: u64,
    next: u64,
    walk: u64,
}

/// A file of at least this many blocks, and how many reads a walk over all its entries makes at most.
struct ReadRow {
    title: &'static str,
    built: Built,
    blocks: usize,
    walk: u64,
}

/// Expects a look-up of a record to make at most five reads, one of a next entry at most eight, and a walk over all
/// entries as many as its row says.
fn expect_few_reads(rt: &impl Abort, alloc: Global, rows: &[ReadRow]) {
    for row in rows {
        let got = reads_of(alloc, row);
        let are_few = matches!(got, Some(reads)
            if reads.record <= 5 && reads.next <= 8 && reads.walk <= row.walk);
        assert!(rt; are_few, "{}: {got:?}", row.title);
    }
}

/// None where the file is too small or not opened, or where an answer is wrong.
fn reads_of(alloc: Global, row: &ReadRow) -> Option<Reads> {
    let list = entries_of(alloc, &row.built).ok()?;
    let file = file_of(alloc, &row.built)?;
    if file.len() / 1024 < row.blocks {
        return None;
    }
    let mut store = store_with(alloc, file.as_slice())?;
    let mut opened = opened_users(alloc, &mut store)?;
    let record = most_for_a_record(&mut opened, &mut store, list.as_slice())?;
    let begun = store.reads();
    let next = most_for_the_next(&mut opened, &mut store, list.as_slice())?;
    Some(Reads {
        record,
        next,
        walk: store.reads().saturating_sub(begun),
    })
}

/// The most reads of a look-up of a record, each entry in turn; None where an answer is wrong.
fn most_for_a_record(file: &mut TreeFile, store: &mut MemStore, list: &[Entry]) -> Option<u64> {
    let mut most = 0;
    for entry in list {
        let before = store.reads();
        if get(file, store, entry.id) != Some(Ok(Some(entry.rec))) {
            return None;
        }
        most = store.reads().saturating_sub(before).max(most);
    }
    Some(most)
}

/// The most reads of a look-up of a next entry, from the first entry on; None where an answer is wrong.
fn most_for_the_next(file: &mut TreeFile, store: &mut MemStore, list: &[Entry]) -> Option<u64> {
    let mut most = 0;
    let mut after = None;
    for entry in list {
        let before = store.reads();
        if next_after(file, store, after) != Some(Ok(Some(*entry))) {
            return None;
        }
        most = store.reads().saturating_sub(before).max(most);
        after = Some(entry.id);
    }
    Some(most)
}

/// Files whose look-ups are counted. A data block has 21 entries in vfsv0, and 14 in vfsv1.
const READ: &[ReadRow] = &[
    ReadRow {
        title: "identifiers that share no block of the two lowest levels",
        built: Built {
            format: Format::V2R1,
            count: 1500,
            step: 0x002a_0101,
        },
        blocks: 3000,
        walk: 8 * 1500,
    },
    ReadRow {
        title: "identifiers of vfsv0 that follow each other",
        built: Built {
            format: Format::V2R0,
            count: 1000,
            step: 1,
        },
        blocks: 50,
        walk: 8 * 48,
    },
    ReadRow {
        title: "identifiers of vfsv1 that follow each other",
        built: Built {
            format: Format::V2R1,
            count: 1000,
            step: 1,
        },
        blocks: 70,
        walk: 8 * 72,
    },
    ReadRow {
        title: "identifiers of vfsv0 with gaps, in twelve blocks of the lowest level",
        built: Built {
            format: Format::V2R0,
            count: 1000,
            step: 3,
        },
        blocks: 50,
        walk: 8 * (48 + 12),
    },
];

#[test]
fn a_look_up_makes_few_reads_in_a_file_of_many_blocks(rt: HostRuntime) {
    expect_few_reads(&rt, rt.alloc(), READ);
}
