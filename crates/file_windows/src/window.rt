ghost use Rattle.std.specs.Prelude.{◌≡◌, ◌≤◌, length, IfOk, IfSome};

use std::alloc::Global;
use std::fs::File;
use std::io;
use std::io::ErrorKind;
use std::os::unix::fs::FileExt;

/// The most bytes of a file that are read ahead, or gathered before they are written, in one call of the system.
pub(crate) const WINDOW: usize = 65_536;

/// Reads from a place on until the buffer is full or the file ends. Each turn reads at least a byte, but for one that a
/// signal interrupts, so the bound on the turns is never met.
pub(crate) fn read_from(file: &File, at: u64, buf: &mut [u8]) -> io::Result<usize>
    ensures { IfOk result (λ count. count ≤ length buf.new) }
{
    let mut done = 0;
    for _ in 0..u64::MAX {
        if done == buf.len() {
            break;
        }
        match file.read_at(&mut buf[done..], at.saturating_add(done as u64)) {
            Ok(0) => break,
            Ok(count) => done += count,
            Err(error) if error.kind() == ErrorKind::Interrupted => {}
            Err(error) => return Err(error),
        }
    }
    Ok(done)
}

/// How far behind the end of a window a run of reads may go on.
const GAP: u64 = 16_384;

/// Whether a place is another one, or at most so far behind it.
pub(crate) fn is_from(start: u64, at: u64, most: u64) -> bool {
    match at.checked_sub(start) {
        Some(behind) => behind <= most,
        None => false,
    }
}

/// Bytes of a file, side by side, that were read with one call of the system.
#[derive(Drop)]
pub(crate) struct FileWindow {
    bytes: Vec<u8>,
    at: u64,
    held: usize,
}

impl FileWindow {
    /// None yet, at the beginning of the file.
    pub fn new(alloc: Global) -> FileWindow {
        FileWindow {
            bytes: Vec::new(alloc),
            at: 0,
            held: 0,
        }
    }

    /// Where they begin.
    #[inline(always)]
    pub fn at(&self) -> u64 {
        self.at
    }

    /// Whether there are some, and they begin at a place.
    pub fn begins_at(&self, at: u64) -> bool {
        self.held > 0 && self.at == at
    }

    /// Whether there are some, and they begin behind a place, at most a window's length behind it.
    pub fn begins_behind(&self, at: u64) -> bool {
        self.held > 0 && at < self.at && self.at - at <= WINDOW as u64
    }

    /// Whether there are some, and a run of reads that came to them leads to a place: one among them, or not far behind
    /// them.
    pub fn leads_to(&self, at: u64) -> bool {
        self.held > 0 && is_from(self.at, at, (self.held as u64).saturating_add(GAP))
    }

    /// Where they end, where they lead to a place, and end there or before it.
    pub fn end_before(&self, at: u64) -> Option<u64> {
        let end = self.at.saturating_add(self.held as u64);
        if self.leads_to(at) && end <= at {
            Some(end)
        } else {
            None
        }
    }

    /// Lets go of them, since the file may not have them any more.
    pub fn forget(&mut self) {
        self.held = 0;
    }

    /// Whether there is memory for `most` bytes, the same number at each call.
    pub fn has_room(&mut self, most: usize) -> bool {
        self.bytes.len() == most || self.bytes.resize(most, 0).is_ok()
    }

    /// Gives the bytes from a place of the file on, where all that are asked for are here, and answers whether they
    /// are.
    #[inline(always)]
    pub fn give(&self, at: u64, buf: &mut [u8]) -> bool
        ensures len { length buf.new ≡ length buf.old }
    {
        match self.piece(at, buf.len()) {
            Some(piece) => {
                buf.copy_from_slice(piece);
                true
            }
            None => false,
        }
    }

    /// Reads from a place on until the buffer is full or the file ends. The window is filled for it, from another place
    /// on, which is not behind it.
    pub fn read(&mut self, file: &File, from: u64, at: u64, buf: &mut [u8]) -> io::Result<usize>
        ensures { IfOk result (λ count. count ≤ length buf.new) }
    {
        self.fill(file, from)?;
        let done = self.give_first(at, buf);
        Ok(done + read_from(file, at.saturating_add(done as u64), &mut buf[done..])?)
    }

    /// This many bytes from a place of the file on, where all of them are here.
    #[inline(always)]
    fn piece(&self, at: u64, len: usize) -> Option<&[u8]>
        ensures { IfSome result (λ piece. length piece.now ≡ len) }
    {
        let start = usize::try_from(at.checked_sub(self.at)?).ok()?;
        let end = start.checked_add(len)?;
        self.bytes.get(..self.held)?.get(start..end)
    }

    /// Fills the window from a place on, with one call of the system, unless a signal interrupts it.
    fn fill(&mut self, file: &File, at: u64) -> io::Result<()> {
        self.at = at;
        self.held = 0;
        match file.read_at(&mut self.bytes, at) {
            Ok(count) => self.held = count,
            Err(error) if error.kind() == ErrorKind::Interrupted => {}
            Err(error) => return Err(error),
        }
        Ok(())
    }

    /// Gives as many bytes from a place on as are here, and answers how many.
    fn give_first(&self, at: u64, buf: &mut [u8]) -> usize
        ensures len { length buf.new ≡ length buf.old }
        ensures fits { result ≤ length buf.new }
    {
        let held = self.held.min(self.bytes.len());
        let start = at.saturating_sub(self.at).min(held as u64) as usize;
        let count = buf.len().min(held - start);
        buf[..count].copy_from_slice(&self.bytes[start..start + count]);
        count
    }
}
