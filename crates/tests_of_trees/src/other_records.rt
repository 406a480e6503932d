use crate::tree_changes::{LIMITS, USED, open_users};
use crate::tree_files::*;
use memory_objects::MemStore;
use quota_types::{Entry, Rec};
use std::alloc::{AllocError, Global};
use std::process::Abort;
use tests_row_files::{Act, holds_entries, make, store_of};

/// Identifiers that are given limits, and then taken away, in a file that uses one inode for each of the identifiers 0,
/// 70, 140 and so on up to 2030.
const GIVEN: &[u32] = &[0, 70, 700, 770, 2030, 1, 2031, u32::MAX];

/// How many identifiers that file has, and how many blocks.
const IDENTIFIERS: u32 = 30;

const LENGTH_IN_BLOCKS: usize = 15;

/// Expects all other records to stay.
fn expect_others_stay(rt: &impl Abort, alloc: Global, ids: &[u32]) {
    let file = thirty(alloc);
    for id in ids {
        let wrong = match &file {
            Ok(file) => wrong_with(alloc, file.as_slice(), *id),
            Err(_) => Some("no file"),
        };
        assert!(rt; wrong == Some(""), "{id}: {wrong:?}");
    }
}

/// The file; it is opened again for each record.
fn thirty(alloc: Global) -> Result<Vec<u8>, AllocError> {
    let mut file = made(alloc, 32, &[EMPTY])?;
    for place in 0..IDENTIFIERS {
        file = with_one_more(alloc, file.as_slice(), 70 * place)?;
    }
    Ok(file)
}

/// The file once a record was put, or nothing where it was refused.
fn with_one_more(alloc: Global, file: &[u8], id: u32) -> Result<Vec<u8>, AllocError> {
    let mut store = store_of(alloc, file, &[])?;
    let Ok(mut opened) = open_users(alloc, &mut store, 100) else {
        return Ok(Vec::new(alloc));
    };
    match make(&mut opened, &mut store, &Act::Put(id, USED)) {
        Some(Ok(())) => Vec::from_slice(alloc, store.file("q").unwrap_or(b"")),
        _ => Ok(Vec::new(alloc)),
    }
}

/// What is wrong after an identifier was given limits, and then was taken away; or nothing.
fn wrong_with(alloc: Global, file: &[u8], id: u32) -> Option<&'static str> {
    if file.len() != 1024 * LENGTH_IN_BLOCKS {
        return Some("the length of the file");
    }
    let mut store = store_of(alloc, file, &[]).ok()?;
    if !is_changed(alloc, &mut store, &Act::Put(id, LIMITS), id, Some(LIMITS))? {
        return Some("after the limits");
    }
    if !is_changed(alloc, &mut store, &Act::Remove(id), id, None)? {
        return Some("after the removal");
    }
    Some("")
}

/// Whether the file, once it was changed, has the entries that it had, but for the one of an identifier.
fn is_changed(
    alloc: Global,
    store: &mut MemStore,
    change: &Act,
    id: u32,
    rec: Option<Rec>,
) -> Option<bool> {
    let mut opened = open_users(alloc, store, 100).ok()?;
    if make(&mut opened, store, change) != Some(Ok(())) {
        return Some(false);
    }
    let mut again = open_users(alloc, store, 100).ok()?;
    let list = entries_with(alloc, id, rec).ok()?;
    Some(holds_entries(&mut again, store, list.as_slice()))
}

/// The entries of the file, with this record of an identifier.
fn entries_with(alloc: Global, id: u32, rec: Option<Rec>) -> Result<Vec<Entry>, AllocError> {
    let mut list = Vec::new(alloc);
    let mut given = rec;
    for place in 0..IDENTIFIERS {
        let other = 70 * place;
        if other >= id {
            push_given(&mut list, id, given)?;
            given = None;
        }
        if other != id {
            list.push(Entry {
                id: other,
                rec: USED,
            })?;
        }
    }
    push_given(&mut list, id, given)?;
    Ok(list)
}

fn push_given(list: &mut Vec<Entry>, id: u32, rec: Option<Rec>) -> Result<(), AllocError> {
    if let Some(rec) = rec {
        list.push(Entry { id, rec })?;
    }
    Ok(())
}

#[test]
fn a_change_leaves_all_other_records(rt: HostRuntime) {
    expect_others_stay(&rt, rt.alloc(), GIVEN);
}
