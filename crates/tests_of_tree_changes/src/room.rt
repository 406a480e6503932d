use crate::files::*;
use crate::rows::{FOURTEENTH, THIRTEEN};
use memory_objects::MemStore;
use opened_file::{FileFault, QuotaFile};
use outside::Store;
use std::alloc::{AllocError, Global};
use std::process::Abort;
use tests_row_files::{Act, get, make, store_of};

/// A file of this many blocks, none of which is free, a new identifier, and how many blocks its record takes.
struct RoomRow {
    title: &'static str,
    blocks: u32,
    numbers: &'static [&'static [Number]],
    id: u32,
    takes: u32,
}

/// The most free blocks that a file of these rows is given.
const FREE: u32 = 4;

/// The data block of the six-block file is full, and so in no list.
const FULL: &[&[Number]] = &[THIRTEEN, FOURTEENTH];

/// Nothing but header and root is there.
const NO_RECORDS: &[&[Number]] = &[&[(0, 28, 0), (1, 0, 0)]];

#[rattlefmt::skip]
const ROOM: &[RoomRow] = &[
    RoomRow { title: "no block", blocks: 6, numbers: &[], id: 1001, takes: 0 },
    RoomRow { title: "one tree block", blocks: 6, numbers: &[], id: 7, takes: 1 },
    RoomRow { title: "two tree blocks", blocks: 6, numbers: &[], id: 0x1_0000, takes: 2 },
    RoomRow { title: "three tree blocks", blocks: 6, numbers: &[], id: u32::MAX, takes: 3 },
    RoomRow { title: "a data block", blocks: 6, numbers: FULL, id: 1014, takes: 1 },
    RoomRow { title: "a data block and one tree block", blocks: 6, numbers: FULL, id: 7, takes: 2 },
    RoomRow { title: "a data block and two tree blocks", blocks: 6, numbers: FULL, id: 0x1_0000, takes: 3 },
    RoomRow { title: "a data block and three tree blocks", blocks: 6, numbers: FULL, id: u32::MAX, takes: 4 },
    RoomRow { title: "all but header and root", blocks: 2, numbers: NO_RECORDS, id: 1000, takes: 4 },
];

/// Expects the record of each row to be written where the blocks that it takes and that are not free fit into the
/// limit, and otherwise to be refused.
fn expect_room(rt: &impl Abort, alloc: Global, rows: &[RoomRow]) {
    for row in rows {
        for free in 0..=FREE {
            let wrong = wrong_with(alloc, row, free);
            assert!(rt; wrong == Some(""), "{}, {free} free: {wrong:?}", row.title);
        }
    }
}

/// What is wrong where this many blocks are free, or nothing; None where there is not enough memory, or the file is not
/// opened.
fn wrong_with(alloc: Global, row: &RoomRow, free: u32) -> Option<&'static str> {
    let file = with_free(alloc, row, free).ok()?;
    let least = row.blocks.saturating_add(row.takes.max(free));
    if free < row.takes {
        let wrong = wrong_below(alloc, row, file.as_slice(), least)?;
        if wrong != "" {
            return Some(wrong);
        }
    }
    wrong_at(alloc, row, file.as_slice(), least)
}

/// The file of a row with this many free blocks behind its own, of which the last one comes first in the list.
fn with_free(alloc: Global, row: &RoomRow, free: u32) -> Result<Vec<u8>, AllocError> {
    let blocks = row.blocks.saturating_add(free);
    let mut file = made(alloc, &(blocks as usize, row.numbers))?;
    let mut head = 0;
    for block in row.blocks..blocks {
        put(&mut file, block as usize, 0, head);
        head = block;
    }
    put(&mut file, 0, 20, blocks);
    put(&mut file, 0, 24, head);
    Ok(file)
}

/// What is wrong with the refusal where one block fewer is allowed than the file would have, or nothing.
fn wrong_below(alloc: Global, row: &RoomRow, file: &[u8], least: u32) -> Option<&'static str> {
    let limit = least.saturating_sub(1);
    let mut store = store_of(alloc, file, &[]).ok()?;
    let mut opened = open_within(alloc, &mut store, limit).ok()?;
    let answer = make(&mut opened, &mut store, &Act::Put(row.id, ONE));
    let full = FileFault::Full {
        blocks: u64::from(least),
        limit: u64::from(limit),
    };
    if answer != Some(Err(full)) {
        return Some("the refusal");
    }
    if store.writes() != 0 || store.file("q") != Some(file) {
        return Some("the file after the refusal");
    }
    if !QuotaFile::<MemStore>::usable(&opened) {
        return Some("the file may not be used");
    }
    Some("")
}

/// What is wrong with the change where as many blocks are allowed as the file has then, or nothing.
fn wrong_at(alloc: Global, row: &RoomRow, file: &[u8], least: u32) -> Option<&'static str> {
    let mut store = store_of(alloc, file, &[]).ok()?;
    let mut opened = open_within(alloc, &mut store, least).ok()?;
    if make(&mut opened, &mut store, &Act::Put(row.id, ONE)) != Some(Ok(())) {
        return Some("the change");
    }
    if blocks_in(&store) != least as usize {
        return Some("the number of blocks");
    }
    let mut again = open_within(alloc, &mut store, least).ok()?;
    if get(&mut again, &mut store, row.id) != Some(Ok(Some(ONE))) {
        return Some("the record");
    }
    Some("")
}

#[test]
fn a_new_record_has_room_up_to_the_limit(rt: HostRuntime) {
    expect_room(&rt, rt.alloc(), ROOM);
}
