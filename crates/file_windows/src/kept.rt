ghost use Rattle.std.specs.Prelude.{◌≡◌, ◌≤◌, length, IfOk};

use crate::window::{FileWindow, WINDOW, read_from};
use std::alloc::{AllocError, Global};
use std::fs::File;
use std::io;

/// The most bytes of a file that is kept: with the windows and blocks beside it, less than 10 MiB are held.
const MOST: u64 = 8_388_608;

/// The windows of a file that is read in no order, which stand side by side in it. Each is kept once it was read.
///
/// A file is read in no order where half as many reads as it has windows were strays: nothing led to them, or they
/// stepped back. One that is too long is not kept, and neither is one that was changed meanwhile.
#[derive(Drop)]
pub(crate) struct KeptWindows {
    alloc: Global,
    windows: Vec<FileWindow>,
    strays: u64,
    wanted: Option<u64>,
    changed: bool,
}

/// The number of the window that has the byte at a place.
#[inline(always)]
fn window_of(at: u64) -> usize {
    (at / WINDOW as u64) as usize
}

impl KeptWindows {
    /// None yet, and it is not known how long the file is.
    pub fn new(alloc: Global) -> KeptWindows {
        KeptWindows {
            alloc,
            windows: Vec::new(alloc),
            strays: 0,
            wanted: None,
            changed: false,
        }
    }

    /// Notes how long the file is.
    pub fn note_length(&mut self, len: u64) {
        self.wanted = if len <= MOST && !self.changed {
            Some(len.div_ceil(2 * WINDOW as u64))
        } else {
            None
        };
    }

    /// Notes a stray.
    pub fn note_stray(&mut self) {
        self.strays = self.strays.saturating_add(1);
    }

    /// Lets go of all, since the file was changed.
    pub fn forget(&mut self) {
        self.windows.clear();
        self.changed = true;
        self.wanted = None;
    }

    /// Whether the bytes from a place on, so many of them, are to be kept.
    pub fn is_to_keep(&self, at: u64, len: usize) -> bool {
        match self.wanted {
            Some(wanted) => wanted <= self.strays
                && at < MOST
                && ((at % WINDOW as u64) as usize).saturating_add(len) <= WINDOW,
            None => false,
        }
    }

    /// Gives the bytes from a place on, where the window has all that are asked for, and answers whether it has.
    #[inline(always)]
    pub fn give(&self, at: u64, buf: &mut [u8]) -> bool
        ensures len { length buf.new ≡ length buf.old }
    {
        match self.windows.get(window_of(at)) {
            Some(window) => window.give(at, buf),
            None => false,
        }
    }

    /// Reads from a place on until the buffer is full or the file ends. The window that has this place is read, where
    /// there is memory for it, else these bytes alone.
    pub fn read(&mut self, file: &File, at: u64, buf: &mut [u8]) -> io::Result<usize>
        ensures { IfOk result (λ count. count ≤ length buf.new) }
    {
        let number = window_of(at);
        if self.has_room(number) {
            if let Some(window) = self.windows.get_mut(number) {
                return window.read(file, at - at % WINDOW as u64, at, buf);
            }
        }
        read_from(file, at, buf)
    }

    /// Whether there is memory for the window of a number.
    fn has_room(&mut self, number: usize) -> bool {
        if self.add_up_to(number).is_err() {
            return false;
        }
        match self.windows.get_mut(number) {
            Some(window) => window.has_room(WINDOW),
            None => false,
        }
    }

    /// Adds windows, which have nothing yet, up to the one of a number.
    fn add_up_to(&mut self, number: usize) -> Result<(), AllocError> {
        for _ in self.windows.len()..=number {
            self.windows.push(FileWindow::new(self.alloc))?;
        }
        Ok(())
    }
}
