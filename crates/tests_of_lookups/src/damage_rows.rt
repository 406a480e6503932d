use crate::built_files::{Built, entry_at, file_of, opened_users, store_with};
use memory_objects::MemStore;
use opened_file::FileFault;
use outside::Store;
use quota_types::DamageKind::{self, *};
use quota_types::{Damage, Entry, Format};
use std::alloc::Global;
use std::process::Abort;
use tests_row_files::{get, next_after};
use tree_file::TreeFile;

/// Four identifiers that share the root and the data block, and nothing else: blocks 3 to 6 are the lowest ones of the
/// tree, 7 to 10 those above them, and 11 to 14 those below the root.
const FOUR: Built = Built {
    format: Format::V2R1,
    count: 4,
    step: 0x4041_0401,
};

const BLOCKS: u32 = 15;

/// The second one, whose way is damaged.
const SECOND: u32 = FOUR.step;

/// Where its references stand, from the root on, and where its entry does.
const AT_ROOT: u32 = 1024 + 4 * 0x40;

const AT_FIRST: u32 = 12 * 1024 + 4 * 0x41;

const AT_SECOND: u32 = 8 * 1024 + 4 * 4;

const AT_LOWEST: u32 = 4 * 1024 + 4;

const AT_ENTRY: u32 = 2 * 1024 + 16 + 72;

/// A number that is written over another one once the file was opened, and how the damage is told.
struct DamageRow {
    title: &'static str,
    at: u32,
    number: u32,
    kind: DamageKind,
    block: u32,
    id: u32,
    /// Whether a look-up of the record tells it too, and not that of the next entry alone. Where none does, the
    /// identifier has no record.
    by_get: bool,
}

/// Expects each damage to be told, with the file as usable as before, once it was mended and for all others.
fn expect_damages_told(rt: &impl Abort, alloc: Global, rows: &[DamageRow]) {
    for row in rows {
        let wrong = wrong_in(alloc, row);
        assert!(rt; wrong == Some(""), "{}: {wrong:?}", row.title);
    }
}

/// What is wrong, or nothing; None where the file is not opened.
fn wrong_in(alloc: Global, row: &DamageRow) -> Option<&'static str> {
    let file = file_of(alloc, &FOUR)?;
    let mut store = store_with(alloc, file.as_slice())?;
    let mut opened = opened_users(alloc, &mut store)?;
    let before = number_in(&store, row.at)?;
    if before == row.number || !is_written(&mut store, row.at, row.number) {
        return Some("the number that is written over");
    }
    if !tells(&mut opened, &mut store, row) {
        return Some("the damage");
    }
    if !others_are_read(&mut opened, &mut store) {
        return Some("the other records");
    }
    if !is_written(&mut store, row.at, before) || store.file("q") != Some(file.as_slice()) {
        return Some("the file that was mended");
    }
    if !is_read(&mut opened, &mut store, 1) || !others_are_read(&mut opened, &mut store) {
        return Some("the records of the file that was mended");
    }
    Some("")
}

/// The number at a place of the file, as it stands there.
fn number_in(store: &MemStore, at: u32) -> Option<u32> {
    let bytes = store.file("q")?.get(at as usize..)?;
    let mut number = [0; 4];
    for (to, from) in number.iter_mut().zip(bytes) {
        *to = *from;
    }
    Some(u32::from_le_bytes(number))
}

/// Writes a number into the file, as another program would. Whether that was done.
fn is_written(store: &mut MemStore, at: u32, number: u32) -> bool {
    store
        .write("q", u64::from(at), &number.to_le_bytes())
        .is_ok()
}

/// Whether the look-ups of the second identifier tell the damage of a row.
fn tells(file: &mut TreeFile, store: &mut MemStore, row: &DamageRow) -> bool {
    let damage = FileFault::Damage(Damage {
        kind: row.kind,
        block: row.block,
        id: row.id,
    });
    let record = if row.by_get { Err(damage) } else { Ok(None) };
    get(file, store, SECOND) == Some(record)
        && next_after(file, store, Some(0)) == Some(Err(damage))
}

/// Whether all other records are read: the first one as the next one of all, and the last one as the one after the
/// third.
fn others_are_read(file: &mut TreeFile, store: &mut MemStore) -> bool {
    let last = entry_at(&FOUR, 3);
    is_read(file, store, 0)
        && is_read(file, store, 2)
        && is_read(file, store, 3)
        && next_after(file, store, None) == Some(Ok(Some(entry_at(&FOUR, 0))))
        && next_after(file, store, Some(entry_at(&FOUR, 2).id)) == Some(Ok(Some(last)))
        && next_after(file, store, Some(last.id)) == Some(Ok(None))
}

/// Whether the record of the identifier at a place is read.
fn is_read(file: &mut TreeFile, store: &mut MemStore, place: u32) -> bool {
    let Entry { id, rec } = entry_at(&FOUR, place);
    get(file, store, id) == Some(Ok(Some(rec)))
}

const DAMAGED: &[DamageRow] = &[
    DamageRow {
        title: "a reference of the root past the last block",
        at: AT_ROOT,
        number: BLOCKS,
        kind: RefOut,
        block: 1,
        id: 0,
        by_get: true,
    },
    DamageRow {
        title: "one of the block below it",
        at: AT_FIRST,
        number: u32::MAX,
        kind: RefOut,
        block: 12,
        id: 0,
        by_get: true,
    },
    DamageRow {
        title: "one of the block above the lowest one",
        at: AT_SECOND,
        number: BLOCKS,
        kind: RefOut,
        block: 8,
        id: 0,
        by_get: true,
    },
    DamageRow {
        title: "one of the lowest block",
        at: AT_LOWEST,
        number: BLOCKS,
        kind: RefOut,
        block: 4,
        id: 0,
        by_get: true,
    },
    DamageRow {
        title: "a lowest block without a reference",
        at: AT_LOWEST,
        number: 0,
        kind: EmptyTree,
        block: 4,
        id: 0,
        by_get: false,
    },
    DamageRow {
        title: "a block below the root without a reference",
        at: AT_FIRST,
        number: 0,
        kind: EmptyTree,
        block: 12,
        id: 0,
        by_get: false,
    },
    DamageRow {
        title: "a data block without the entry",
        at: AT_ENTRY,
        number: 7,
        kind: MissingEntry,
        block: 2,
        id: SECOND,
        by_get: true,
    },
    DamageRow {
        title: "a block of the tree as a data block",
        at: AT_LOWEST,
        number: 14,
        kind: MissingEntry,
        block: 14,
        id: SECOND,
        by_get: true,
    },
];

#[test]
fn a_damage_behind_the_opening_is_told_and_nothing_is_lost(rt: HostRuntime) {
    expect_damages_told(&rt, rt.alloc(), DAMAGED);
}
