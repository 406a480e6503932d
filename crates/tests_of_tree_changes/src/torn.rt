use crate::files::*;
use crate::rows::{CHANGES, ChangeRow};
use memory_objects::MemStore;
use opened_file::{FileFault, OpenFault, QuotaFile};
use std::alloc::Global;
use std::process::Abort;
use tests_row_files::{Act, make};

/// More calls than opening and a change make.
const CALLS: u64 = 60;

/// The bytes of another file of the store.
const OTHER: &[u8] = b"the other file";

/// Expects each change to tear no block where a call of the store fails, whichever it is.
fn expect_whole_blocks(rt: &impl Abort, alloc: Global, rows: &[ChangeRow]) {
    for row in rows {
        expect_whole_blocks_of(rt, alloc, row);
    }
}

fn expect_whole_blocks_of(rt: &impl Abort, alloc: Global, row: &ChangeRow) {
    for call in 1..CALLS {
        let wrong = wrong_at(alloc, row, call);
        assert!(rt; wrong == Some(""), "{}, call {call}: {wrong:?}", row.title);
    }
    let end = end_at(alloc, row, CALLS);
    assert!(rt; end == Some(End::Done), "{}: {end:?}", row.title);
}

/// How opening and a change end.
#[derive(Clone, Copy, Debug, PartialEq, Eq)]
enum End {
    Done,
    NotOpened,
    /// The change was refused with a fault of the store, and the file may not be used.
    Refused,
    Wrong(&'static str),
}

/// A store with the file `q` and another one, of which this call fails.
fn store_with(alloc: Global, file: &[u8], call: u64) -> Option<MemStore> {
    let mut files = Vec::new(alloc);
    let name = String::from_str(alloc, "q").ok()?;
    files.push((name, Vec::from_slice(alloc, file).ok()?)).ok()?;
    let name = String::from_str(alloc, "r").ok()?;
    files
        .push((name, Vec::from_slice(alloc, OTHER).ok()?))
        .ok()?;
    Some(MemStore::new(files, Vec::from_slice(alloc, &[call]).ok()?))
}

fn end_of(alloc: Global, store: &mut MemStore, act: &Act) -> End {
    let mut opened = match open_users(alloc, store) {
        Ok(opened) => opened,
        Err(OpenFault::Store) => return End::NotOpened,
        Err(_) => return End::Wrong("the fault of opening"),
    };
    match make(&mut opened, store, act) {
        Some(Ok(())) => return End::Done,
        Some(Err(FileFault::Store)) => {}
        _ => return End::Wrong("the fault of the change"),
    }
    if QuotaFile::<MemStore>::usable(&opened) {
        return End::Wrong("the file may still be used");
    }
    End::Refused
}

/// How a change ends of which this call fails; None where there is not enough memory.
fn end_at(alloc: Global, row: &ChangeRow, call: u64) -> Option<End> {
    let before = made(alloc, &row.before).ok()?;
    let mut store = store_with(alloc, before.as_slice(), call)?;
    Some(end_of(alloc, &mut store, &row.act))
}

/// What is wrong after this call of the store has failed, or nothing; None where there is not enough memory.
fn wrong_at(alloc: Global, row: &ChangeRow, call: u64) -> Option<&'static str> {
    let before = made(alloc, &row.before).ok()?;
    let after = made(alloc, &row.after).ok()?;
    let mut store = store_with(alloc, before.as_slice(), call)?;
    let end = end_of(alloc, &mut store, &row.act);
    if store.file("r") != Some(OTHER) {
        return Some("the other file");
    }
    let file = store.file("q").unwrap_or(b"");
    if is_left(end, file, before.as_slice(), after.as_slice()) {
        Some("")
    } else {
        Some(said_of(end))
    }
}

fn said_of(end: End) -> &'static str {
    match end {
        End::Wrong(wrong) => wrong,
        End::Done => "the file after the change",
        End::NotOpened => "the file that was not opened",
        End::Refused => "the file after the fault",
    }
}

/// Whether a file is what such an end may leave.
fn is_left(end: End, file: &[u8], before: &[u8], after: &[u8]) -> bool {
    match end {
        End::Done => file == after,
        End::NotOpened => file == before,
        End::Refused => are_old_or_new(file, before, after),
        End::Wrong(_) => false,
    }
}

/// Whether each block of a file is one of the file before the change or of the one after it, which is no shorter.
fn are_old_or_new(file: &[u8], before: &[u8], after: &[u8]) -> bool {
    file.len() <= after.len()
        && (0..10).all(|block| is_block_of(file, before, block) || is_block_of(file, after, block))
}

/// Whether two files have the same block. What is past the end of a file is 0.
fn is_block_of(file: &[u8], other: &[u8], block: usize) -> bool {
    let start = block.saturating_mul(1024);
    (0..1024).all(|at| {
        let at = start.saturating_add(at);
        file.get(at).copied().unwrap_or(0) == other.get(at).copied().unwrap_or(0)
    })
}

#[test]
fn a_fault_of_the_store_leaves_old_and_new_blocks(rt: HostRuntime) {
    expect_whole_blocks(&rt, rt.alloc(), CHANGES);
}
