use disk::{Disk, DiskFault};
use std::alloc::Global;
use std::fs::{File, Files};
use std::process::Abort;
use std::time::Clock;
use std::{fs, io};
use system_objects::FileDisk;

/// A folder, in the current one.
const FOLDER: &str = "disk_of_system_tests";

/// The names of files in it.
const ONE: &str = "disk_of_system_tests/one";

const TWO: &str = "disk_of_system_tests/two";

const THREE: &str = "disk_of_system_tests/three";

/// The undo file of one of them, and what it is called while it is new.
const UNDO: &str = "disk_of_system_tests/two.undo";

const UND: &str = "disk_of_system_tests/two.und";

/// A name in a folder that is not there.
const NOWHERE: &str = "disk_of_system_tests/none/one";

/// What a file has, where it is there.
type Found = Option<&'static [u8]>;

/// What is done with the files, or seen of them.
#[derive(Clone, Copy, Debug)]
enum Step {
    /// An empty file is made.
    Create(&'static str),
    /// Bytes are written to a place.
    Write(&'static str, u64, &'static [u8]),
    /// A file is shortened.
    Cut(&'static str, u64),
    /// A file is waited for.
    Sync(&'static str),
    /// A file gets another name.
    Rename(&'static str, &'static str),
    /// A file does not get another name.
    Stay(&'static str, &'static str),
    /// A file has this.
    Hold(&'static str, Found),
    /// Another program sees this of a file.
    Show(&'static str, Found),
}

use Step::{Create, Cut, Hold, Rename, Show, Stay, Sync, Write};

/// What is absent, then a file that is made, written, cut and renamed, and one that takes its place; then an undo file
/// beside it, and three files in turn, of which two stay open.
const STEPS: &[Step] = &[
    Hold(ONE, None),
    Sync(ONE),
    Cut(ONE, 3),
    Rename(ONE, TWO),
    Show(ONE, None),
    Show(TWO, None),
    Create(ONE),
    Hold(ONE, Some(b"")),
    Show(ONE, Some(b"")),
    Write(ONE, 0, b"0123456789"),
    Cut(ONE, 12),
    Show(ONE, Some(b"0123456789")),
    Write(ONE, 10, b"abc"),
    Cut(ONE, 11),
    Show(ONE, Some(b"0123456789a")),
    Hold(ONE, Some(b"0123456789a")),
    Write(ONE, 3, b"x"),
    Sync(ONE),
    Show(ONE, Some(b"012x456789a")),
    Hold(ONE, Some(b"012x456789a")),
    Cut(ONE, 4),
    Hold(ONE, Some(b"012x")),
    Write(ONE, 6, b"yz"),
    Hold(ONE, Some(b"012x\0\0yz")),
    Stay(ONE, NOWHERE),
    Rename(ONE, TWO),
    Show(ONE, None),
    Show(TWO, Some(b"012x\0\0yz")),
    Hold(TWO, Some(b"012x\0\0yz")),
    Rename(ONE, TWO),
    Hold(TWO, Some(b"012x\0\0yz")),
    Create(ONE),
    Write(ONE, 0, b"new"),
    Sync(ONE),
    Show(ONE, Some(b"new")),
    Rename(ONE, TWO),
    Hold(ONE, None),
    Hold(TWO, Some(b"new")),
    Write(THREE, 2, b"w"),
    Write(TWO, 1, b"o"),
    Sync(THREE),
    Sync(TWO),
    Show(THREE, Some(b"\0\0w")),
    Show(TWO, Some(b"now")),
    Cut(TWO, 0),
    Show(TWO, Some(b"")),
    Create(TWO),
    Hold(TWO, Some(b"")),
    Hold(UNDO, None),
    Sync(UNDO),
    Create(UND),
    Write(UND, 0, b"save"),
    Sync(UND),
    Rename(UND, UNDO),
    Hold(UND, None),
    Show(UNDO, Some(b"save")),
    Write(TWO, 0, b"a"),
    Write(UNDO, 0, b"w"),
    Write(THREE, 0, b"b"),
    Show(TWO, Some(b"a")),
    Show(UNDO, Some(b"save")),
    Show(THREE, Some(b"\0\0w")),
    Sync(UNDO),
    Sync(UNDO),
    Show(UNDO, Some(b"wave")),
    Sync(TWO),
    Hold(THREE, Some(b"b\0w")),
    Write(TWO, 1, b"c"),
    Sync(TWO),
    Show(TWO, Some(b"ac")),
];

/// Whether bytes are written to a place.
fn writes<D: Disk>(disk: &mut D, name: &str, at: u64, bytes: &[u8]) -> bool {
    let is_allowed = !bytes.is_empty() && bytes.len() <= 1024 && at < 2_000_000;
    is_allowed && disk.write(name, at, bytes) == Ok(())
}

/// What comes of giving a file another name.
fn renamed<D: Disk>(disk: &mut D, from: &str, to: &str) -> Option<Result<(), DiskFault>> {
    if from == to {
        return None;
    }
    Some(disk.rename(from, to))
}

/// Whether a read from the beginning of a file on gives these bytes.
fn reads<D: Disk>(disk: &mut D, name: &str, wanted: &[u8]) -> bool {
    let mut buf = [0; 1024];
    let found = disk.read(name, 0, &mut buf);
    matches!(found, Ok(count) if buf.get(..count) == Some(wanted))
}

/// Whether a file has these bytes and no more, or is not there.
fn holds<D: Disk>(disk: &mut D, name: &str, wanted: Found) -> bool {
    let len = wanted.map(|bytes| bytes.len() as u64);
    disk.size(name) == Ok(len) && reads(disk, name, wanted.unwrap_or_default())
}

/// Whether a step goes as it should.
fn goes<R: Files<File = File> + Eprint + Clock>(
    alloc: Global,
    files: &R,
    disk: &mut FileDisk<'_, R>,
    step: Step,
) -> bool {
    match step {
        Create(name) => Disk::create(disk, name) == Ok(()),
        Write(name, at, bytes) => writes(disk, name, at, bytes),
        Cut(name, len) => Disk::cut(disk, name, len) == Ok(()),
        Sync(name) => Disk::sync(disk, name) == Ok(()),
        Rename(from, to) => renamed(disk, from, to) == Some(Ok(())),
        Stay(from, to) => renamed(disk, from, to) == Some(Err(DiskFault)),
        Hold(name, wanted) => holds(disk, name, wanted),
        Show(name, wanted) => holds(&mut FileDisk::new(alloc, files), name, wanted),
    }
}

/// The first step that does not go as it should. Three files are in the folder behind the last one, and no others.
fn first_wrong<R: Files<File = File> + Eprint + Clock>(
    alloc: Global,
    files: &R,
    steps: &[Step],
) -> io::Result<Option<Step>> {
    fs::create_dir(files, FOLDER)?;
    let mut disk = FileDisk::new(alloc, files);
    for step in steps {
        if !goes(alloc, files, &mut disk, *step) {
            return Ok(Some(*step));
        }
    }
    fs::remove_file(files, TWO)?;
    fs::remove_file(files, UNDO)?;
    fs::remove_file(files, THREE)?;
    fs::remove_dir(files, FOLDER)?;
    Ok(None)
}

fn expect_steps<R: Files<File = File> + Eprint + Clock + Abort>(
    alloc: Global,
    rt: &R,
    steps: &[Step],
) {
    let found = first_wrong(alloc, rt, steps);
    assert!(rt; matches!(found, Ok(None)), "{found:?}");
}

#[test]
fn a_disk_of_files_does_what_each_call_says(rt: HostRuntime) {
    expect_steps(rt.alloc(), &rt, STEPS);
}
