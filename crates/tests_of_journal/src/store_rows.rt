use disk::Disk;
use disk_in_memory::MemDisk;
use journal_store::JournalStore;
use outside::Store;
use std::alloc::{AllocError, Global};
use std::process::Abort;

/// What a file has, where it is there.
type Found = Option<&'static [u8]>;

/// What is done with a store, or seen of it. A call that is not refused must be done.
#[derive(Clone, Copy, Debug)]
enum Step {
    /// Bytes are written to a place.
    Write(&'static str, u64, &'static [u8]),
    /// They are refused.
    NoWrite(&'static str, u64, &'static [u8]),
    /// An empty file is made.
    Create(&'static str),
    /// It is refused.
    NoCreate(&'static str),
    /// A file is waited for.
    Sync(&'static str),
    /// That is refused.
    NoSync(&'static str),
    /// A file gets another name.
    Rename(&'static str, &'static str),
    /// It does not.
    NoRename(&'static str, &'static str),
    /// A file has this.
    Hold(&'static str, Found),
    /// It is not told what it has.
    NoHold(&'static str),
    /// Whether ranges are kept for a name.
    Pends(&'static str, bool),
    /// What is kept for a name is written.
    Commit(&'static str),
}

use Step::{
    Commit, Create, Hold, NoCreate, NoHold, NoRename, NoSync, NoWrite, Pends, Rename, Sync, Write,
};

/// The undo file of a file that had ten bytes, of which the three from the first one on are saved as `123`: the gate,
/// the old length at byte 8, the number of ranges at byte 16, and from byte 1,024 on the place of the range, in eight
/// bytes, how many bytes are saved, in two, six bytes 0, and what is saved.
fn undo_file(alloc: Global, gate: u8) -> Result<Vec<u8>, AllocError> {
    let mut undo = Vec::new(alloc);
    undo.extend_from_slice(&[gate, 0, 0, 0, 0, 0, 0, 0, 10, 0, 0, 0, 0, 0, 0, 0, 1])?;
    undo.resize(1024, 0)?;
    undo.extend_from_slice(&[1, 0, 0, 0, 0, 0, 0, 0, 3, 0, 0, 0, 0, 0, 0, 0])?;
    undo.extend_from_slice(b"123")?;
    Ok(undo)
}

/// A name of 251 bytes.
const LONG: &str =
    "aaaaaaaaaaaaaaaaaaaaaaaaaaaaaaaaaaaaaaaaaaaaaaaaaaaaaaaaaaaaaaaaaaaaaaaaaaaaaaaaaaaaaaaaaaaaaaaaaaaaaaaaaaaaaaaaaaaaaaaaaaaaaaaaaaaaaaaaaaaaaaaaaaaaaaaaaaaaaaaaaaaaaaaaaaaaaaaaaaaaaaaaaaaaaaaaaaaaaaaaaaaaaaaaaaaaaaaaaaaaaaaaaaaaaaaaaaaaaaaaaaaaaaaaaaa";

/// Rows, each over a disk with the file `q` of ten digits, the file `torn` of which the undo file says that it was ten
/// digits, and the file `shut` whose undo file has a closed gate.
#[rattlefmt::skip]
const ROWS: &[&[Step]] = &[
    // The thirteenth range is refused, and the twelve stay kept.
    &[Write("q", 0, b"a"), Write("q", 1, b"b"), Write("q", 2, b"c"), Write("q", 3, b"d"), Write("q", 4, b"e"),
        Write("q", 5, b"f"), Write("q", 6, b"g"), Write("q", 7, b"h"), Write("q", 8, b"i"), Write("q", 9, b"j"),
        Write("q", 10, b"k"), Write("q", 11, b"l"), NoWrite("q", 12, b"m"), Pends("q", true),
        Hold("q", Some(b"abcdefghijkl")), Sync("q"), Pends("q", false), Hold("q", Some(b"abcdefghijkl")),
        Write("q", 12, b"m"), Commit("q"), Pends("q", false), Hold("q", Some(b"abcdefghijklm"))],
    // A byte of a kept range is not written again before a sync, and one behind it is.
    &[Write("q", 2, b"ab"), NoWrite("q", 3, b"x"), NoWrite("q", 1, b"xy"), Write("q", 4, b"c"), Write("q", 1, b"d"),
        Hold("q", Some(b"0dabc56789")), Sync("q"), Write("q", 3, b"x"), Hold("q", Some(b"0daxc56789"))],
    // A gap behind the old end has zeros.
    &[Write("q", 12, b"ab"), Hold("q", Some(b"0123456789\0\0ab")), Sync("q"), Hold("q", Some(b"0123456789\0\0ab"))],
    // While ranges are kept no other name is used but one in `.new`.
    &[Write("q", 0, b"a"), NoHold("torn"), NoSync("shut"), NoCreate("r"), NoCreate("q"), Create("q.new"),
        NoRename("q.new", "q"), NoRename("q.new", "r"), Pends("q", true), Pends("q.new", false),
        Hold("q", Some(b"a123456789")), Sync("q"), Rename("q.new", "q"), Hold("q", Some(b"")), Hold("q.new", None)],
    // A file is made, written and renamed under a name in `.new`, and otherwise nothing is written that is not there.
    &[NoWrite("r", 0, b"a"), Hold("r", None), Write("r.new", 0, b"ab"), Sync("r.new"), NoRename("q", "r"),
        NoRename("r.new", "s.new"), Rename("r.new", "r"), Hold("r", Some(b"ab")), Write("r", 1, b"c"),
        Hold("r", Some(b"ac")), Pends("r", true), Sync("r"), Hold("r", Some(b"ac"))],
    // Names of the journal, and long ones, have no file.
    &[NoHold("q.undo"), NoHold("q.und"), NoHold("shut.undo"), NoCreate("a.undo"), NoCreate("a.und"), NoSync("q.undo"),
        NoWrite("q.undo", 0, b"a"), NoHold(LONG), NoCreate(LONG), Hold("q", Some(b"0123456789"))],
    // What an undo file saves is laid back where its gate is open.
    &[Hold("torn", Some(b"0123456789")), Hold("shut", Some(b"0xyz456789ab")), Hold("torn", Some(b"0123456789"))],
    &[Write("torn", 4, b"x"), Sync("torn"), Hold("torn", Some(b"0123x56789"))],
    &[Write("shut", 12, b"c"), Pends("shut", true), Hold("shut", Some(b"0xyz456789abc"))],
];

/// Puts a file on a disk, and syncs it.
fn put(disk: &mut MemDisk, name: &str, bytes: &[u8]) {
    let mut at = 0u64;
    for chunk in bytes.chunks(1024) {
        if !chunk.is_empty() && chunk.len() <= 1024 && at <= 1 << 42 {
            let _ = Disk::write(disk, name, at, chunk);
        }
        at = at.saturating_add(1024);
    }
    let _ = Disk::sync(disk, name);
}

/// The disk of each row.
fn disk_of_rows(alloc: Global) -> Result<MemDisk, AllocError> {
    let mut disk = MemDisk::new(Vec::new(alloc), Vec::new(alloc), None);
    put(&mut disk, "q", b"0123456789");
    put(&mut disk, "torn", b"0xyz456789ab");
    put(&mut disk, "torn.undo", &undo_file(alloc, 1)?);
    put(&mut disk, "shut", b"0xyz456789ab");
    put(&mut disk, "shut.undo", &undo_file(alloc, 0)?);
    Ok(disk)
}

/// Whether bytes are written to a place.
fn writes<S: Store>(store: &mut S, name: &str, at: u64, bytes: &[u8]) -> Option<bool> {
    if bytes.is_empty() || bytes.len() > 1024 || at > 1 << 42 {
        return None;
    }
    Some(store.write(name, at, bytes).is_ok())
}

/// Whether a file gets another name.
fn renames<S: Store>(store: &mut S, from: &str, to: &str) -> Option<bool> {
    if from == to {
        return None;
    }
    Some(store.rename(from, to).is_ok())
}

/// Whether a file is read as these bytes.
fn reads<S: Store>(store: &mut S, name: &str, wanted: &[u8]) -> bool {
    let mut buf = [0; 1024];
    let found = store.read(name, 0, &mut buf);
    matches!(found, Ok(count) if buf.get(..count) == Some(wanted))
}

/// Whether a file has these bytes and no more, or is not there.
fn holds<S: Store>(store: &mut S, name: &str, wanted: Found) -> bool {
    let len = wanted.map(|bytes| bytes.len() as u64);
    store.size(name) == Ok(len) && reads(store, name, wanted.unwrap_or_default())
}

/// Whether neither the length nor the bytes of a file are told.
fn holds_none<S: Store>(store: &mut S, name: &str) -> bool {
    store.size(name).is_err() && store.read(name, 0, &mut []).is_err()
}

/// Whether what is kept for a name is written.
fn commits<D: Disk>(store: &mut JournalStore<D>, name: &str) -> bool {
    store.pending(name) && store.commit(name).is_ok()
}

/// Whether a step goes as it should.
fn goes<D: Disk>(store: &mut JournalStore<D>, step: Step) -> bool {
    match step {
        Write(name, at, bytes) => writes(store, name, at, bytes) == Some(true),
        NoWrite(name, at, bytes) => writes(store, name, at, bytes) == Some(false),
        Create(name) => store.create(name).is_ok(),
        NoCreate(name) => store.create(name).is_err(),
        Sync(name) => store.sync(name).is_ok(),
        NoSync(name) => store.sync(name).is_err(),
        Rename(from, to) => renames(store, from, to) == Some(true),
        NoRename(from, to) => renames(store, from, to) == Some(false),
        Hold(name, wanted) => holds(store, name, wanted),
        NoHold(name) => holds_none(store, name),
        Pends(name, wanted) => store.pending(name) == wanted,
        Commit(name) => commits(store, name),
    }
}

/// The first step of a row that does not go as it should.
fn first_wrong(alloc: Global, row: &[Step]) -> Result<Option<Step>, AllocError> {
    let mut store = JournalStore::new(disk_of_rows(alloc)?);
    for step in row {
        if !goes(&mut store, *step) {
            return Ok(Some(*step));
        }
    }
    Ok(None)
}

/// Fails with the first step that does not go as it should.
fn expect_rows(rt: &impl Abort, alloc: Global, rows: &[&[Step]]) {
    for row in rows {
        let found = first_wrong(alloc, row);
        assert!(rt; matches!(found, Ok(None)), "{found:?}");
    }
}

#[test]
fn a_store_with_a_journal_does_what_each_call_says(rt: HostRuntime) {
    expect_rows(&rt, rt.alloc(), ROWS);
}
