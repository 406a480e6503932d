ghost use Rattle.std.specs.Prelude.{◌≤◌, length, IfOk};

use crate::kept::KeptWindows;
use crate::recent::RecentWindows;
use crate::window::{WINDOW, is_from, read_from};
use std::alloc::Global;
use std::fs::File;
use std::io;

/// The bytes of a block, which begins at a multiple of as many bytes.
const BLOCK: u64 = 1_024;

/// The most blocks that are kept.
const BLOCKS: usize = 8;

/// How far behind a block that was read by itself the next read may begin a run.
const FAR_GAP: u64 = 32_768;

/// The most windows that are kept of a file that is read in some order.
const WINDOWS: usize = 8;

/// What was read of a file last, with what was read ahead of that.
///
/// Reads of places of which each lies not far behind the one before it are a run: it fills one window after another,
/// each with one call of the system. Eight windows are kept, since runs go on side by side, as that of the data blocks
/// of a file and that of the tree blocks that lead to them. Where a run stepped back, over the beginning of a window,
/// windows stand side by side from then on, so that what a run stepped over is there.
///
/// What no run leads to is read by itself, a block of the file, and eight of these are kept, so that places that are
/// far from each other cost no more than they hold, and those that are wanted again and again are read once. A block
/// right behind two of them begins a run, and one right before three begins a run that goes down. Where so much was
/// read like this that the file is read in no order, it is kept as far as it is asked for.
///
/// What another program writes to the file meanwhile may be missed, however much later it is read; but what ends before
/// the bytes that are asked for is read again, so a file that grew is read to its new end.
#[derive(Drop)]
pub(crate) struct ReadAhead {
    runs: RecentWindows,
    run_start: u64,
    down_start: Option<u64>,
    steps_back: bool,
    kept: KeptWindows,
    far: RecentWindows,
    far_end: Option<u64>,
}

impl ReadAhead {
    /// Nothing was read yet, and a read from the beginning of the file goes on.
    pub fn new(alloc: Global) -> ReadAhead {
        ReadAhead {
            runs: RecentWindows::new(alloc, WINDOW, WINDOWS),
            run_start: 0,
            down_start: None,
            steps_back: false,
            kept: KeptWindows::new(alloc),
            far: RecentWindows::new(alloc, BLOCK as usize, BLOCKS),
            far_end: None,
        }
    }

    /// Notes how long the file is.
    pub fn note_length(&mut self, len: u64) {
        self.kept.note_length(len);
    }

    /// Lets go of what was read, since the file may not have it any more.
    pub fn forget(&mut self) {
        self.runs.forget();
        self.down_start = None;
        self.kept.forget();
        self.far.forget();
    }

    /// Reads from a place on until the buffer is full or the file ends.
    pub fn read(&mut self, file: &File, at: u64, buf: &mut [u8]) -> io::Result<usize>
        ensures { IfOk result (λ count. count ≤ length buf.new) }
    {
        let far_end = self.far_end.take();
        if self.runs.give(at, buf) || self.kept.give(at, buf) || self.far.give(at, buf) {
            return Ok(buf.len());
        }
        if self.kept.is_to_keep(at, buf.len()) {
            return self.kept.read(file, at, buf);
        }
        if let Some(from) = self.window_for(far_end, at) {
            self.run_start = from;
            return self.runs.read(file, from, at, buf);
        }
        self.kept.note_stray();
        let count = self.read_block(file, at, buf)?;
        self.far_end = Some(at.saturating_add(count as u64));
        Ok(count)
    }

    /// Where the window begins that is to be filled for the bytes from a place on, where a run leads to them.
    fn window_for(&mut self, far_end: Option<u64>, at: u64) -> Option<u64> {
        let block = at - at % BLOCK;
        if self.is_led_to(far_end, at) || self.is_behind_two(block) {
            return Some(self.window_up(at));
        }
        let behind = block.saturating_add(BLOCK);
        if self.down_start == Some(behind) || self.is_before_three(behind) {
            self.down_start = Some(behind.saturating_sub(WINDOW as u64));
            return self.down_start;
        }
        None
    }

    /// Whether the run that was followed last leads to a place, or another one, or the read before, where that was one
    /// of a block by itself.
    fn is_led_to(&self, far_end: Option<u64>, at: u64) -> bool {
        let by_far = match far_end {
            Some(end) => is_from(end, at, FAR_GAP),
            None => false,
        };
        by_far || is_from(self.run_start, at, 2 * WINDOW as u64) || self.runs.leads_to(at)
    }

    /// Whether the two blocks before this one were read by themselves.
    fn is_behind_two(&self, block: u64) -> bool {
        match block.checked_sub(2 * BLOCK) {
            Some(second) => self.far.begins_at(second) && self.far.begins_at(second + BLOCK),
            None => false,
        }
    }

    /// Whether the three blocks from this one on were read by themselves.
    fn is_before_three(&self, block: u64) -> bool {
        let second = block.saturating_add(BLOCK);
        let third = second.saturating_add(BLOCK);
        self.far.begins_at(block) && self.far.begins_at(second) && self.far.begins_at(third)
    }

    /// Where the window begins that is to be filled for a place to which a run leads up: there, or where another window
    /// ends, which leads there, where runs step back.
    fn window_up(&mut self, at: u64) -> u64 {
        if self.runs.begins_behind(at) {
            self.kept.note_stray();
            self.steps_back = true;
        }
        if !self.steps_back {
            return at;
        }
        match self.runs.end_before(at) {
            Some(end) if at.saturating_sub(end) <= WINDOW as u64 - BLOCK => end,
            _ => at,
        }
    }

    /// Reads from a place on until the buffer is full or the file ends. The block that has all of these bytes is read,
    /// where there is one and there is memory for it, else they alone.
    fn read_block(&mut self, file: &File, at: u64, buf: &mut [u8]) -> io::Result<usize>
        ensures { IfOk result (λ count. count ≤ length buf.new) }
    {
        let start = at % BLOCK;
        if start as usize + buf.len() > BLOCK as usize {
            return read_from(file, at, buf);
        }
        self.far.read(file, at - start, at, buf)
    }
}
