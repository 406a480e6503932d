use disk::Disk;
use std::alloc::Global;
use std::fs::{File, Files, OpenOptions};
use std::os::unix::fs::FileExt;
use std::process::Abort;
use std::time::Clock;
use std::{fs, io};
use system_objects::FileDisk;

/// The file, in the current folder.
const NAME: &str = "file_of_system_tests";

/// The bytes that it has first, of which the last block is not whole.
const LENGTH: usize = 1_024_500;

/// What is done with this many bytes of it from a place on.
#[derive(Clone, Copy, Debug)]
enum Step {
    /// They are read.
    Read(usize, usize),
    /// They get a value.
    Write(usize, usize, u8),
    /// Another program gives them a value, where the file had ended before.
    Grow(usize, usize, u8),
}

use Step::{Grow, Read, Write};

/// Blocks in a row, blocks that are far from each other, more of them than are kept, and all of it again after changes.
const STEPS: &[Step] = &[
    Read(0, 1024),
    Read(1024, 1024),
    Read(921_600, 1024),
    Read(307_200, 1024),
    Read(819_200, 1024),
    Read(204_800, 1024),
    Read(716_800, 1024),
    Read(102_400, 1024),
    Read(614_400, 1024),
    Read(409_600, 1024),
    Read(870_400, 1024),
    Read(512_000, 1024),
    Read(2048, 1024),
    Read(921_600, 1024),
    Read(512_100, 24),
    Read(870_410, 1014),
    Read(307_200, 1024),
    Read(512_500, 1024),
    Write(512_100, 24, 7),
    Read(307_300, 24),
    Read(512_000, 1024),
    Read(870_400, 1024),
    Read(512_100, 24),
    Write(512_000, 1024, 8),
    Read(512_000, 1024),
    Write(2048, 1024, 9),
    Read(2048, 1024),
    Read(512_000, 1024),
    Read(1_024_000, 1024),
    Read(1_024_100, 300),
    Grow(1_024_500, 300, 6),
    Read(1_024_000, 1024),
    Read(1_024_400, 400),
    Read(716_800, 1024),
    Write(1_024_800, 1024, 5),
    Read(1_024_000, 1024),
    Read(1_025_024, 1024),
    Read(2_048_000, 1024),
];

/// The bytes of the file at first, different ones in each block.
fn first_bytes(alloc: Global) -> io::Result<Vec<u8>> {
    let mut bytes = Vec::new(alloc);
    for at in 0..LENGTH {
        bytes.push((at % 251) as u8)?;
    }
    Ok(bytes)
}

/// Whether `len` bytes from a place on are read as they should be, and no more than the file has.
fn reads<D: Disk>(disk: &mut D, wanted: &[u8], at: usize, len: usize) -> bool {
    let mut buf = [0; 1024];
    let len = len.min(buf.len());
    let found = disk.read(NAME, at as u64, &mut buf[..len]);
    let end = wanted.len().min(at.saturating_add(len));
    let wanted = wanted.get(at..end).unwrap_or_default();
    matches!(found, Ok(count) if buf.get(..count) == Some(wanted))
}

/// Whether `len` bytes of a value are written to a place.
fn writes<D: Disk>(disk: &mut D, at: usize, len: usize, value: u8) -> bool {
    let bytes = [value; 1024];
    let len = len.min(bytes.len());
    len > 0 && at < 2_000_000 && disk.write(NAME, at as u64, &bytes[..len]) == Ok(())
}

/// Writes `len` bytes of a value to a place, as another program does.
fn grow<R: Files<File = File>>(files: &R, at: usize, len: usize, value: u8) -> io::Result<()> {
    let bytes = [value; 1024];
    let len = len.min(bytes.len());
    let file = OpenOptions::new().write(true).open(files, NAME)?;
    file.write_all_at(&bytes[..len], at as u64)
}

/// Gives `len` bytes from a place on a value, past the end too.
fn fill(bytes: &mut Vec<u8>, at: usize, len: usize, value: u8) -> io::Result<()> {
    let end = at.saturating_add(len);
    if bytes.len() < end {
        bytes.resize(end, value)?;
    }
    if at <= end && end <= bytes.len() {
        bytes[at..end].fill(value);
    }
    Ok(())
}

/// Whether a step goes as it should where the file has these bytes, which are changed along with it.
fn goes<R: Files<File = File> + Eprint + Clock>(
    files: &R,
    disk: &mut FileDisk<'_, R>,
    bytes: &mut Vec<u8>,
    step: Step,
) -> io::Result<bool> {
    match step {
        Read(at, len) => Ok(reads(disk, bytes, at, len)),
        Write(at, len, value) => {
            fill(bytes, at, len, value)?;
            Ok(writes(disk, at, len, value))
        }
        Grow(at, len, value) => {
            fill(bytes, at, len, value)?;
            grow(files, at, len, value)?;
            Ok(true)
        }
    }
}

/// The first step that does not go as it should.
fn first_wrong<R: Files<File = File> + Eprint + Clock>(
    alloc: Global,
    files: &R,
    steps: &[Step],
) -> io::Result<Option<Step>> {
    let mut bytes = first_bytes(alloc)?;
    fs::write(files, NAME, bytes.as_slice())?;
    let mut disk = FileDisk::new(alloc, files);
    for step in steps {
        if !goes(files, &mut disk, &mut bytes, *step)? {
            return Ok(Some(*step));
        }
    }
    fs::remove_file(files, NAME)?;
    Ok(None)
}

fn expect_steps<R: Files<File = File> + Eprint + Clock + Abort>(
    alloc: Global,
    rt: &R,
    steps: &[Step],
) {
    let found = first_wrong(alloc, rt, steps);
    assert!(rt; matches!(found, Ok(None)), "{found:?}");
}

#[test]
fn a_file_is_read_as_it_was_written(rt: HostRuntime) {
    expect_steps(rt.alloc(), &rt, STEPS);
}
