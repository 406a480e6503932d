//! Disks in memory that are made of files.

use disk::Disk;
use disk_in_memory::MemDisk;
use std::alloc::{AllocError, Global};
use tests_story_stage::{NamedBytes, find, making_calls};

/// The number of a call that no run of a story makes of a disk, so that it is known how many it made.
pub(crate) const NEVER: u64 = 1_000;

/// Makes a file, and syncs it.
fn make(disk: &mut MemDisk, name: &str, bytes: &[u8]) {
    let _ = Disk::create(disk, name);
    let mut at = 0u64;
    for chunk in bytes.chunks(1024) {
        if !chunk.is_empty() && chunk.len() <= 1024 && at <= 1 << 42 {
            let _ = Disk::write(disk, name, at, chunk);
        }
        at = at.saturating_add(1024);
    }
    let _ = Disk::sync(disk, name);
}

/// Makes files.
fn filled(mut disk: MemDisk, files: &[NamedBytes]) -> MemDisk {
    for (name, bytes) in files {
        make(&mut disk, name.as_str(), bytes);
    }
    disk
}

/// A disk with these files, all of them synced, that is stopped from a call on, where one is given.
pub(crate) fn disk_of(alloc: Global, files: &[NamedBytes], stop: Option<u64>) -> MemDisk {
    let stop = match stop {
        Some(call) => Some(call.saturating_add(making_calls(files))),
        None => None,
    };
    let disk = MemDisk::new(Vec::new(alloc), Vec::new(alloc), stop);
    filled(disk, files)
}

/// How many calls were made of a disk that is stopped from the one of number [`NEVER`] on.
pub(crate) fn disk_calls_made(disk: &mut MemDisk) -> u64 {
    for probe in 1..=NEVER {
        if Disk::size(disk, "").is_err() {
            return NEVER.saturating_sub(probe);
        }
    }
    0
}

/// The bytes of a file of a disk, or `None` where there is none of this name.
fn bytes_of(alloc: Global, disk: &mut MemDisk, name: &str) -> Result<Option<Vec<u8>>, AllocError> {
    let Ok(Some(size)) = Disk::size(disk, name) else {
        return Ok(None);
    };
    let mut bytes = Vec::new(alloc);
    let mut block = [0; 1024];
    for number in 0..size.div_ceil(1024) {
        let at = number.saturating_mul(1024);
        let count = Disk::read(disk, name, at, &mut block).unwrap_or(0);
        bytes.extend_from_slice(block.get(..count).unwrap_or(b""))?;
    }
    Ok(Some(bytes))
}

/// The files that a disk has under some names.
pub(crate) fn files_in(
    alloc: Global,
    disk: &mut MemDisk,
    names: &[String],
) -> Result<Vec<NamedBytes>, AllocError> {
    let mut files = Vec::new(alloc);
    for name in names {
        let name = name.as_str();
        if find(&files, name).is_some() {
            continue;
        }
        if let Some(bytes) = bytes_of(alloc, disk, name)? {
            files.push((String::from_str(alloc, name)?, bytes))?;
        }
    }
    Ok(files)
}
