use crate::built_files::{Built, entries_of, file_of, opened_users, store_with};
use crate::moved_blocks::{with_dealt_entries, with_moved_blocks};
use memory_objects::MemStore;
use quota_types::{Entry, Format};
use std::alloc::Global;
use std::process::Abort;
use tests_row_files::{get, holds_entries};
use tree_file::TreeFile;

/// A file that is read before and after its entries were dealt, and before and after its blocks were moved, each by the
/// stride that the row says.
#[derive(Debug)]
struct OrderRow {
    built: Built,
    dealt: usize,
    moved: usize,
}

/// Expects the records to be the same in each order.
fn expect_same_records(rt: &impl Abort, alloc: Global, rows: &[OrderRow]) {
    for row in rows {
        let wrong = wrong_in(alloc, row);
        assert!(rt; wrong == Some(""), "{row:?}: {wrong:?}");
    }
}

/// What is wrong, or nothing; None where there is not enough memory.
fn wrong_in(alloc: Global, row: &OrderRow) -> Option<&'static str> {
    let built = &row.built;
    let file = file_of(alloc, built)?;
    if !is_read(alloc, built, file.as_slice()) {
        return Some("the file that was built");
    }
    let dealt = with_dealt_entries(alloc, built, file.as_slice(), row.dealt).ok()?;
    if !is_read(alloc, built, dealt.as_slice()) {
        return Some("the file whose entries were dealt");
    }
    let moved = with_moved_blocks(alloc, built, dealt.as_slice(), row.moved).ok()?;
    if !is_read(alloc, built, moved.as_slice()) {
        return Some("the file whose blocks were moved");
    }
    Some("")
}

/// Whether the entries of a file that is built, and no others, are read of these bytes, one after another and each by
/// itself, and nothing is written.
fn is_read(alloc: Global, built: &Built, file: &[u8]) -> bool {
    let Ok(list) = entries_of(alloc, built) else {
        return false;
    };
    let Some(mut store) = store_with(alloc, file) else {
        return false;
    };
    let Some(mut opened) = opened_users(alloc, &mut store) else {
        return false;
    };
    holds_entries(&mut opened, &mut store, list.as_slice())
        && holds_none_between(&mut opened, &mut store, built, list.as_slice())
        && store.writes() == 0
}

/// Whether the identifier above each entry has no record, where the file has none for it.
fn holds_none_between(
    file: &mut TreeFile,
    store: &mut MemStore,
    built: &Built,
    list: &[Entry],
) -> bool {
    if built.step < 2 {
        return true;
    }
    for entry in list {
        if get(file, store, entry.id.wrapping_add(1)) != Some(Ok(None)) {
            return false;
        }
    }
    true
}

/// 300 identifiers that share blocks of the lowest level by threes.
const THREES: Built = Built {
    format: Format::V2R1,
    count: 300,
    step: 100,
};

/// Identifiers of which each has a block of the lowest level, and one above that.
const FAR: Built = Built {
    format: Format::V2R1,
    count: 40,
    step: 70_001,
};

/// 300 identifiers that follow each other.
const DENSE: Built = Built {
    format: Format::V2R0,
    count: 300,
    step: 1,
};

const ORDERS: &[OrderRow] = &[
    OrderRow {
        built: THREES,
        dealt: 1,
        moved: 1009,
    },
    OrderRow {
        built: THREES,
        dealt: 299,
        moved: 1013,
    },
    OrderRow {
        built: DENSE,
        dealt: 1,
        moved: 1009,
    },
    OrderRow {
        built: DENSE,
        dealt: 11,
        moved: 1019,
    },
    OrderRow {
        built: DENSE,
        dealt: 151,
        moved: 1021,
    },
    OrderRow {
        built: FAR,
        dealt: 7,
        moved: 1013,
    },
];

#[test]
fn records_are_the_same_in_each_order_of_blocks_and_entries(rt: HostRuntime) {
    expect_same_records(&rt, rt.alloc(), ORDERS);
}
