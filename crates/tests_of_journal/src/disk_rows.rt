use disk::Disk;
use disk_in_memory::MemDisk;
use std::alloc::{AllocError, Global};
use std::process::Abort;

/// What is done with a disk.
#[derive(Clone, Copy, Debug)]
enum Call {
    Write(&'static str, u64, &'static [u8]),
    Create(&'static str),
    Cut(&'static str, u64),
    Sync(&'static str),
    Rename(&'static str, &'static str),
}

use Call::{Create, Cut, Rename, Sync, Write};

/// What a file has, where it is there.
type Found = Option<&'static [u8]>;

/// What is done with a disk that has the file `q` of ten digits, and what a stop then leaves under a name.
type Row = (&'static [Call], &'static str, Found);

/// Of each write that was not synced the greater half is left, from the front; of a new or a shortened file nothing;
/// what was synced is left, and each rename is done.
#[rattlefmt::skip]
const ROWS: &[Row] = &[
    (&[], "q", Some(b"0123456789")),
    (&[], "r", None),
    (&[Write("q", 2, b"abcd")], "q", Some(b"01ab456789")),
    (&[Write("q", 2, b"abc")], "q", Some(b"01ab456789")),
    (&[Write("q", 2, b"a")], "q", Some(b"01a3456789")),
    (&[Write("q", 9, b"abcd")], "q", Some(b"012345678ab")),
    (&[Write("q", 12, b"ab")], "q", Some(b"0123456789\0\0a")),
    (&[Write("q", 2, b"abcd"), Sync("q")], "q", Some(b"01abcd6789")),
    (&[Write("q", 2, b"abcd"), Sync("r")], "q", Some(b"01ab456789")),
    (&[Write("r", 0, b"abcd")], "r", Some(b"ab")),
    (&[Create("r")], "r", None),
    (&[Create("r"), Sync("r")], "r", Some(b"")),
    (&[Create("q")], "q", Some(b"0123456789")),
    (&[Create("q"), Sync("q")], "q", Some(b"")),
    (&[Cut("q", 3)], "q", Some(b"0123456789")),
    (&[Cut("q", 3), Sync("q")], "q", Some(b"012")),
    (&[Cut("q", 30), Sync("q")], "q", Some(b"0123456789")),
    (&[Rename("q", "r")], "r", Some(b"0123456789")),
    (&[Rename("q", "r")], "q", None),
    (&[Write("r", 0, b"abcd"), Rename("r", "q")], "q", Some(b"ab")),
    (&[Write("r", 0, b"abcd"), Sync("r"), Rename("r", "q")], "q", Some(b"abcd")),
    (&[Rename("r", "q")], "q", Some(b"0123456789")),
];

/// Makes a call of a disk.
fn make(disk: &mut MemDisk, call: Call) -> bool {
    match call {
        Write(name, at, bytes) => write(disk, name, at, bytes),
        Create(name) => Disk::create(disk, name).is_ok(),
        Cut(name, len) => Disk::cut(disk, name, len).is_ok(),
        Sync(name) => Disk::sync(disk, name).is_ok(),
        Rename(from, to) => rename(disk, from, to),
    }
}

fn write(disk: &mut MemDisk, name: &str, at: u64, bytes: &[u8]) -> bool {
    let is_allowed = !bytes.is_empty() && bytes.len() <= 1024 && at <= 1 << 42;
    is_allowed && Disk::write(disk, name, at, bytes).is_ok()
}

fn rename(disk: &mut MemDisk, from: &str, to: &str) -> bool {
    from != to && Disk::rename(disk, from, to).is_ok()
}

/// Whether a file is read as these bytes.
fn reads(disk: &mut MemDisk, name: &str, wanted: &[u8]) -> bool {
    let mut buf = [0; 1024];
    let found = Disk::read(disk, name, 0, &mut buf);
    matches!(found, Ok(count) if buf.get(..count) == Some(wanted))
}

/// Whether a file has these bytes and no more, or is not there.
fn holds(disk: &mut MemDisk, name: &str, wanted: Found) -> bool {
    let len = wanted.map(|bytes| bytes.len() as u64);
    Disk::size(disk, name) == Ok(len) && reads(disk, name, wanted.unwrap_or_default())
}

/// The disk of each row, which stops at a call.
fn disk_of_rows(alloc: Global, stop: Option<u64>) -> MemDisk {
    let mut disk = MemDisk::new(Vec::new(alloc), Vec::new(alloc), stop);
    let _ = write(&mut disk, "q", 0, b"0123456789");
    let _ = Disk::sync(&mut disk, "q");
    disk
}

/// Whether a row's calls are done, and a stop then leaves what the row says. A disk that stops right behind them leaves
/// the same, and no call of it is done then.
fn is_left(alloc: Global, (calls, name, wanted): &Row) -> Result<bool, AllocError> {
    let stop = calls.len().saturating_add(3) as u64;
    let mut disk = disk_of_rows(alloc, Some(stop));
    let mut is_so = true;
    for call in calls.iter() {
        is_so = is_so && make(&mut disk, *call);
    }
    is_so = is_so && Disk::create(&mut disk, "q").is_err() && Disk::size(&mut disk, "q").is_err();
    let mut left = disk.after_stop(None)?;
    Ok(is_so && holds(&mut left, name, *wanted))
}

fn expect_rows(rt: &impl Abort, alloc: Global, rows: &[Row]) {
    for row in rows {
        let found = is_left(alloc, row);
        assert!(rt; matches!(found, Ok(true)), "{row:?}: {found:?}");
    }
}

#[test]
fn a_stop_leaves_halves_of_what_was_not_synced(rt: HostRuntime) {
    expect_rows(&rt, rt.alloc(), ROWS);
}
