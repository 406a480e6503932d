use crate::files::*;
use crate::plain::Plain;
use memory_objects::MemStore;
use outside::Store;
use quota_types::Rec;
use std::alloc::Global;
use std::process::Abort;
use tests_row_files::{Act, get, make, store_of};
use tree_file::TreeFile;

/// How many changes a story has. Each of them is followed by a check.
const STEPS: u32 = 2000;

/// A file without records, of header and root, and how many entries its data blocks have, in vfsv1 and in vfsv0.
const STARTS: &[(Described, usize)] = &[
    ((2, &[&[(0, 20, 2), (0, 28, 0), (1, 0, 0)]]), 14),
    ((2, &[&[(0, 4, 0), (0, 20, 2), (0, 28, 0), (1, 0, 0)]]), 21),
];

/// Expects the story to go as it should from each of these files on.
fn expect_stories(rt: &impl Abort, alloc: Global, starts: &[(Described, usize)]) {
    for (start, room) in starts {
        let end = end_of(alloc, start, *room);
        assert!(rt; end == Some((STEPS, "")), "{end:?}");
    }
}

/// The step that goes wrong, with what is wrong; or the number of steps, with nothing. None where there is not enough
/// memory, or the file is not opened.
fn end_of(alloc: Global, start: &Described, room: usize) -> Option<(u32, &'static str)> {
    let file = made(alloc, start).ok()?;
    let mut store = store_of(alloc, file.as_slice(), &[]).ok()?;
    let mut opened = open_users(alloc, &mut store).ok()?;
    let mut plain = Plain::new(alloc, room);
    let mut number = 1;
    for step in 0..STEPS {
        number = next_number(number);
        let (id, rec) = change_of(step, number);
        plain.set(id, rec).ok()?;
        let wrong = wrong_with(&mut opened, &mut store, id, rec);
        if wrong != "" {
            return Some((step, wrong));
        }
        if blocks_in(&store) != plain.blocks {
            return Some((step, "the number of blocks"));
        }
        if !is_listed(alloc, &mut opened, &mut store, plain.entries.as_slice()) {
            return Some((step, "the records"));
        }
    }
    Some((STEPS, ""))
}

/// What is wrong where an identifier is to get this record, or none, or nothing.
fn wrong_with(
    opened: &mut TreeFile,
    store: &mut MemStore,
    id: u32,
    rec: Option<Rec>,
) -> &'static str {
    if !is_made(opened, store, &act_of(id, rec)) {
        return "the change";
    }
    if !is_got(opened, store, id, rec) {
        return "the record";
    }
    ""
}

fn is_got(opened: &mut TreeFile, store: &mut MemStore, id: u32, rec: Option<Rec>) -> bool {
    get(opened, store, id) == Some(Ok(rec))
}

/// The change that a number gives: of 80 identifiers from 1000 on and 80 that are spread over all of them, one gets a
/// record or loses it. In every second run of 250 steps four of five changes are removals, and otherwise one is.
fn change_of(step: u32, number: u32) -> (u32, Option<Rec>) {
    let drawn = number / 65_536;
    let id = id_of(drawn % 160);
    let is_late = step / 250 % 2 == 1;
    let removes = drawn / 160 % 5 == 0;
    if is_late != removes {
        return (id, None);
    }
    let rec = Rec {
        space: u64::from(step),
        ..ONE
    };
    (id, Some(rec))
}

fn act_of(id: u32, rec: Option<Rec>) -> Act {
    match rec {
        Some(rec) => Act::Put(id, rec),
        None => Act::Remove(id),
    }
}

fn id_of(drawn: u32) -> u32 {
    if drawn < 80 {
        drawn.wrapping_mul(53_687_091)
    } else {
        drawn.wrapping_add(920)
    }
}

/// Whether a change is made with at most twelve reads and twelve writes.
fn is_made(opened: &mut TreeFile, store: &mut MemStore, act: &Act) -> bool {
    let reads = store.reads();
    let writes = store.writes();
    if make(opened, store, act) != Some(Ok(())) {
        return false;
    }
    store.reads().saturating_sub(reads) <= 12 && store.writes().saturating_sub(writes) <= 12
}

#[test]
fn a_story_of_changes_in_place_keeps_the_records(rt: HostRuntime) {
    expect_stories(&rt, rt.alloc(), STARTS);
}
