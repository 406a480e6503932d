use disk::Disk;
use disk_in_memory::MemDisk;
use journal_store::JournalStore;
use outside::Store;
use std::alloc::{AllocError, Global};
use std::process::Abort;

/// How a recovery closes the gate of an undo file.
#[derive(Clone, Copy, Debug)]
enum Closed {
    /// In place: the undo file is as it was, but for its first byte, which is 0.
    InPlace,
    /// By a new undo file of 1,024 bytes 0.
    Anew,
}

use Closed::{Anew, InPlace};

/// What an undo file with an open gate names as the length of the old file and as the number of saved ranges, how many
/// bytes it has, what a recovery makes of its file of twelve bytes `0xyz456789ab`, and how it closes the gate. The
/// first range is of three bytes `123` from byte 1 of the file on, and ends at byte 1,043 of the undo file.
type Row = (u8, u8, usize, &'static [u8], Closed);

/// Bytes past the end of an undo file are read as 0.
#[rattlefmt::skip]
const ROWS: &[Row] = &[
    // The undo file ends with its range, behind it, within the saved bytes, within the head of the range, and before
    // it.
    (10, 1, 1043, b"0123456789", InPlace),
    (10, 1, 1100, b"0123456789", InPlace),
    (10, 1, 1042, b"012\x00456789", Anew),
    (10, 1, 1040, b"0\x00\x00\x00456789", Anew),
    (10, 1, 1033, b"0\x00\x00\x00456789", Anew),
    (10, 1, 1024, b"0xyz456789", Anew),
    (10, 1, 17, b"0xyz456789", Anew),
    // It names no range.
    (10, 0, 1024, b"0xyz456789", InPlace),
    (10, 0, 1023, b"0xyz456789", Anew),
    // It names twelve, of which it has the first one; or one more, so that none is read and the file stays.
    (10, 12, 1043, b"0123456789", Anew),
    (10, 12, 12_480, b"0123456789", InPlace),
    (10, 12, 12_479, b"0123456789", Anew),
    (10, 13, 1024, b"0xyz456789ab", InPlace),
    (10, 13, 1023, b"0xyz456789ab", Anew),
    // The file is shorter than the old one was, and stays.
    (13, 1, 1043, b"0xyz456789ab", InPlace),
    (13, 1, 1042, b"0xyz456789ab", Anew),
];

/// An undo file of this length, which names this.
fn undo_file(alloc: Global, old_length: u8, count: u8, len: usize) -> Result<Vec<u8>, AllocError> {
    let mut undo = Vec::new(alloc);
    undo.extend_from_slice(&[
        1, 0, 0, 0, 0, 0, 0, 0, old_length, 0, 0, 0, 0, 0, 0, 0, count,
    ])?;
    undo.resize(1024, 0)?;
    undo.extend_from_slice(&[1, 0, 0, 0, 0, 0, 0, 0, 3, 0, 0, 0, 0, 0, 0, 0])?;
    undo.extend_from_slice(b"123")?;
    undo.resize(len, 0)?;
    Ok(undo)
}

/// What is left of an undo file whose gate was closed so.
fn undo_left(alloc: Global, undo: &[u8], how: Closed) -> Result<Vec<u8>, AllocError> {
    let mut left = Vec::new(alloc);
    match how {
        InPlace => {
            left.push(0)?;
            left.extend_from_slice(undo.get(1..).unwrap_or_default())?;
        }
        Anew => left.resize(1024, 0)?,
    }
    Ok(left)
}

/// A disk with a file `q` and its undo file.
fn disk_of(alloc: Global, undo: &[u8]) -> Result<MemDisk, AllocError> {
    let mut files = Vec::new(alloc);
    files.push((
        String::from_str(alloc, "q")?,
        Vec::from_slice(alloc, b"0xyz456789ab")?,
    ))?;
    files.push((
        String::from_str(alloc, "q.undo")?,
        Vec::from_slice(alloc, undo)?,
    ))?;
    Ok(MemDisk::new(files, Vec::new(alloc), None))
}

/// Whether a file of a disk has these bytes from a place on, as many as are left of them or 1,024.
fn has_part(disk: &mut MemDisk, name: &str, at: usize, wanted: &[u8]) -> bool {
    let mut buf = [0; 1024];
    let found = Disk::read(disk, name, at as u64, &mut buf);
    let rest = wanted.get(at..).unwrap_or_default();
    matches!(found, Ok(count) if buf.get(..count) == rest.get(..rest.len().min(1024)))
}

/// Whether a file of a disk has these bytes and no more.
fn has(disk: &mut MemDisk, name: &str, wanted: &[u8]) -> bool {
    let mut is_so = Disk::size(disk, name) == Ok(Some(wanted.len() as u64));
    for block in 0..wanted.len().div_ceil(1024) {
        is_so = is_so && has_part(disk, name, block.saturating_mul(1024), wanted);
    }
    is_so
}

/// Whether a row's file is recovered as it says, a second recovery changes nothing, and no new undo file is left.
fn is_recovered(alloc: Global, row: &Row) -> Result<bool, AllocError> {
    let (old_length, count, len, wanted, how) = *row;
    let undo = undo_file(alloc, old_length, count, len)?;
    let left = undo_left(alloc, undo.as_slice(), how)?;
    let mut disk = disk_of(alloc, undo.as_slice())?;
    let mut is_so = true;
    for _ in 0..2 {
        let mut store = JournalStore::new(disk);
        is_so = is_so && store.size("q") == Ok(Some(wanted.len() as u64));
        disk = store.into_disk();
        is_so = is_so && has(&mut disk, "q", wanted) && has(&mut disk, "q.undo", left.as_slice());
        is_so = is_so && Disk::size(&mut disk, "q.und") == Ok(None);
    }
    Ok(is_so)
}

fn expect_rows(rt: &impl Abort, alloc: Global, rows: &[Row]) {
    for row in rows {
        let found = is_recovered(alloc, row);
        assert!(rt; matches!(found, Ok(true)), "{row:?}: {found:?}");
    }
}

#[test]
fn a_recovery_closes_the_gate_in_place_where_the_undo_file_holds_its_ranges(rt: HostRuntime) {
    expect_rows(&rt, rt.alloc(), ROWS);
}
