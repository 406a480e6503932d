ghost use Rattle.std.specs.Prelude.{◌≤◌, length};

use crate::window::read_from;
use std::alloc::Global;
use std::fs::File;
use std::io;

/// The most bytes of a file that are kept: those of the 4,194,304 blocks that a quota file can have. None behind them
/// is ever read.
const MOST: u64 = 4_294_967_296;

/// A file as it was when it was read.
#[derive(Drop)]
struct WholeFile {
    name: String,
    bytes: Vec<u8>,
    len: u64,
}

/// Files that were read whole, and are as they were then.
#[derive(Drop)]
pub struct WholeFiles {
    alloc: Global,
    files: Vec<WholeFile>,
}

impl WholeFiles {
    /// None was read yet.
    pub fn new(alloc: Global) -> WholeFiles {
        WholeFiles {
            alloc,
            files: Vec::new(alloc),
        }
    }

    /// Reads a file whole, and keeps it under this name.
    ///
    /// # Errors
    ///
    /// The system failed, or there is not enough memory.
    pub fn keep(&mut self, name: &str, file: &File) -> io::Result<()> {
        let len = file.metadata()?.len();
        let mut bytes = Vec::new(self.alloc);
        bytes.resize(len.min(MOST) as usize, 0)?;
        let count = read_from(file, 0, &mut bytes)?;
        bytes.truncate(count);
        let name = String::from_str(self.alloc, name)?;
        self.files.push(WholeFile { name, bytes, len })?;
        Ok(())
    }

    /// Whether a file is kept.
    pub fn has(&self, name: &str) -> bool {
        self.named(name).is_some()
    }

    /// The length of a file in bytes, where it is kept.
    pub fn length(&self, name: &str) -> Option<u64> {
        Some(self.named(name)?.len)
    }

    /// Reads from a place of a file on until the buffer is full or the file ends. One that is not kept has no bytes.
    pub fn read(&self, name: &str, at: u64, buf: &mut [u8]) -> usize
        ensures fits { result ≤ length buf.new }
    {
        match self.named(name) {
            Some(file) => file.read(at, buf),
            None => 0,
        }
    }

    /// The file that is kept under a name.
    fn named(&self, name: &str) -> Option<&WholeFile> {
        self.files.iter().find(|file| file.name.as_str() == name)
    }
}

impl WholeFile {
    /// Reads from a place on until the buffer is full or the file ends.
    fn read(&self, at: u64, buf: &mut [u8]) -> usize
        ensures fits { result ≤ length buf.new }
    {
        let start = at.min(self.bytes.len() as u64) as usize;
        let count = buf.len().min(self.bytes.len() - start);
        buf[..count].copy_from_slice(&self.bytes[start..start + count]);
        count
    }
}
