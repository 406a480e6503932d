use crate::window::WINDOW;
use std::alloc::Global;
use std::fs::File;
use std::io;
use std::os::unix::fs::FileExt;

/// Bytes of a file that were given to be written and are not yet, all of them side by side.
///
/// They are written with one call of the system where there are enough of them, where others stand elsewhere, and by
/// `flush`, which comes before anything else is done with the file.
#[derive(Drop)]
pub(crate) struct WriteBehind {
    bytes: Vec<u8>,
    at: u64,
}

impl WriteBehind {
    /// None yet.
    pub fn new(alloc: Global) -> WriteBehind {
        WriteBehind {
            bytes: Vec::new(alloc),
            at: 0,
        }
    }

    /// Takes bytes that are to be written to a place of the file.
    pub fn take(&mut self, file: &File, at: u64, bytes: &[u8]) -> io::Result<()> {
        if !self.has_room_behind(at, bytes.len()) {
            self.flush(file)?;
            self.at = at;
        }
        if self.bytes.capacity() == 0 {
            self.bytes.reserve(WINDOW)?;
        }
        self.bytes.extend_from_slice(bytes)?;
        Ok(())
    }

    /// Whether `len` bytes at a place stand behind those that were gathered, and are not too many with them.
    fn has_room_behind(&self, at: u64, len: usize) -> bool {
        let held = self.bytes.len();
        at == self.at.saturating_add(held as u64) && held.saturating_add(len) <= WINDOW
    }

    /// Writes what was gathered. Where that fails nothing of it is kept.
    pub fn flush(&mut self, file: &File) -> io::Result<()> {
        if self.bytes.is_empty() {
            return Ok(());
        }
        let done = file.write_all_at(&self.bytes, self.at);
        self.bytes.clear();
        done
    }
}
