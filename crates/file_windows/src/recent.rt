ghost use Rattle.std.specs.Prelude.{◌≡◌, ◌≤◌, length, IfOk};

use crate::window::{FileWindow, read_from};
use std::alloc::Global;
use std::fs::File;
use std::io;

/// A window, and the number of its last use.
#[derive(Drop)]
struct UsedWindow {
    window: FileWindow,
    used: u64,
}

/// A few windows of one length into a file. Where there are as many as may be, another one takes the place of the one
/// that was used least recently.
#[derive(Drop)]
pub(crate) struct RecentWindows {
    alloc: Global,
    size: usize,
    most: usize,
    windows: Vec<UsedWindow>,
    uses: u64,
}

impl RecentWindows {
    /// None yet, and at most `most` of `size` bytes.
    pub fn new(alloc: Global, size: usize, most: usize) -> RecentWindows {
        RecentWindows {
            alloc,
            size,
            most,
            windows: Vec::new(alloc),
            uses: 0,
        }
    }

    /// Lets go of what was read, since the file may not have it any more.
    pub fn forget(&mut self) {
        for recent in &mut self.windows {
            recent.window.forget();
        }
    }

    /// Whether one of them begins at a place.
    pub fn begins_at(&self, at: u64) -> bool {
        self.windows
            .iter()
            .any(|recent| recent.window.begins_at(at))
    }

    /// Whether one of them begins behind a place, and not farther behind it than it is long.
    pub fn begins_behind(&self, at: u64) -> bool {
        self.windows
            .iter()
            .any(|recent| recent.window.begins_behind(at))
    }

    /// Whether one of them leads to a place.
    pub fn leads_to(&self, at: u64) -> bool {
        self.windows.iter().any(|recent| recent.window.leads_to(at))
    }

    /// Where the last one of those ends that lead to a place, and have nothing from there on.
    pub fn end_before(&self, at: u64) -> Option<u64> {
        self.windows
            .iter()
            .filter_map(|recent| recent.window.end_before(at))
            .max()
    }

    /// Gives the bytes from a place on, where one of the windows has all that are asked for, and answers whether one
    /// has.
    #[inline(always)]
    pub fn give(&mut self, at: u64, buf: &mut [u8]) -> bool
        ensures len { length buf.new ≡ length buf.old }
    {
        for recent in &mut self.windows {
            if recent.window.give(at, buf) {
                self.uses = self.uses.saturating_add(1);
                recent.used = self.uses;
                return true;
            }
        }
        false
    }

    /// Reads from a place on until the buffer is full or the file ends. A window is filled for it, from another place
    /// on, which is not behind it, where there is memory for one.
    pub fn read(&mut self, file: &File, from: u64, at: u64, buf: &mut [u8]) -> io::Result<usize>
        ensures { IfOk result (λ count. count ≤ length buf.new) }
    {
        let place = self.place_for(from);
        match self.windows.get_mut(place) {
            Some(recent) => {
                recent.used = self.uses;
                recent.window.read(file, from, at, buf)
            }
            None => read_from(file, at, buf),
        }
    }

    /// The place of the window that is filled from here on: the one that begins here, which ended too early, or a new
    /// one, or the one that was used least recently. Where there is memory for none it is no window's place.
    fn place_for(&mut self, from: u64) -> usize {
        self.uses = self.uses.saturating_add(1);
        let same = self
            .windows
            .iter()
            .position(|recent| recent.window.at() == from);
        if let Some(place) = same {
            return place;
        }
        let behind = self.windows.len();
        if behind < self.most && self.add_window() {
            return behind;
        }
        self.oldest()
    }

    /// Whether there is memory for one more window, which then stands behind the others.
    fn add_window(&mut self) -> bool {
        let mut window = FileWindow::new(self.alloc);
        window.has_room(self.size) && self.windows.push(UsedWindow { window, used: 0 }).is_ok()
    }

    /// The place of the window that was used least recently, or 0.
    fn oldest(&self) -> usize {
        let by_use = self
            .windows
            .iter()
            .enumerate()
            .min_by_key(|(_, recent)| recent.used);
        by_use.map_or(0, |(place, _)| place)
    }
}
