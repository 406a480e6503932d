use crate::files::*;
use crate::plain::list_with;
use memory_objects::MemStore;
use quota_types::Entry;
use std::alloc::{AllocError, Global};
use std::process::Abort;
use tests_row_files::{Act, make, store_of};
use tree_file::TreeFile;

/// How many orders of removal are tried.
const ORDERS: u32 = 300;

/// How many identifiers there are: 0 to 41.
const COUNT: u32 = 42;

/// Three full data blocks, 5 to 7, which are in no list, before their entries are written.
#[rattlefmt::skip]
const THREE_FULL: Described = (8, &[&[
    (0, 20, 8), (0, 28, 0), (3, 0, 4), (3, 12, 0), (4, 928, 0), (5, 8, 14), (6, 8, 14), (7, 8, 14),
]]);

/// Writes the entry of an identifier and the reference to its data block.
fn enter(file: &mut [u8], id: u32) {
    let block = 5 + id / 14;
    let at = 16 + 72 * (id % 14) as usize;
    put(file, block as usize, at, id);
    put(file, block as usize, at + 24, 1);
    put(file, 4, 4 * id as usize, block);
}

/// The file of the identifiers, with one inode each.
fn full_file(alloc: Global) -> Result<Vec<u8>, AllocError> {
    let mut file = made(alloc, &THREE_FULL)?;
    for id in 0..COUNT {
        enter(&mut file, id);
    }
    Ok(file)
}

fn all_entries(alloc: Global) -> Result<Vec<Entry>, AllocError> {
    let mut entries = Vec::new(alloc);
    for id in 0..COUNT {
        entries.push(Entry { id, rec: ONE })?;
    }
    Ok(entries)
}

/// Expects the identifiers to be removed in this many orders, which one recurrence chooses from a number on.
fn expect_orders(rt: &impl Abort, alloc: Global, orders: u32, seed: u32) {
    let mut number = seed;
    for order in 0..orders {
        let end = end_of(alloc, &mut number);
        assert!(rt; end == Some(""), "order {order}: {end:?}");
    }
}

/// What goes wrong where the identifiers are removed in the order that the numbers from this one on choose, or nothing.
/// None where there is not enough memory, or the file is not opened.
fn end_of(alloc: Global, number: &mut u32) -> Option<&'static str> {
    let file = full_file(alloc).ok()?;
    let mut store = store_of(alloc, file.as_slice(), &[]).ok()?;
    let mut opened = open_users(alloc, &mut store).ok()?;
    let mut entries = all_entries(alloc).ok()?;
    for _ in 0..COUNT {
        *number = next_number(*number);
        let id = chosen(entries.as_slice(), *number)?;
        entries = list_with(alloc, entries.as_slice(), id, None).ok()?;
        let wrong = wrong_without(alloc, &mut opened, &mut store, id, entries.as_slice());
        if wrong != "" {
            return Some(wrong);
        }
    }
    Some("")
}

/// The identifier of the entry that a number chooses.
fn chosen(entries: &[Entry], number: u32) -> Option<u32> {
    let place = (number / 65_536) as usize % entries.len().max(1);
    entries.get(place).map(|entry| entry.id)
}

/// What is wrong once an identifier is removed and these entries are left, or nothing.
fn wrong_without(
    alloc: Global,
    opened: &mut TreeFile,
    store: &mut MemStore,
    id: u32,
    left: &[Entry],
) -> &'static str {
    if make(opened, store, &Act::Remove(id)) != Some(Ok(())) {
        return "the removal";
    }
    if blocks_in(store) != 8 {
        return "the number of blocks";
    }
    if !is_listed(alloc, opened, store, left) {
        return "the records";
    }
    ""
}

#[test]
fn identifiers_are_removed_in_any_order(rt: HostRuntime) {
    expect_orders(&rt, rt.alloc(), ORDERS, 1);
}
