use std::cell::Cell;
use std::io;
use std::io::{Eprint, Write};
use std::time::{Clock, Duration, Instant};

/// For how many seconds a run works before it is told how far it is.
const PATIENCE: u64 = 2;

/// After how many seconds that is told again.
const PERIOD: u64 = 1;

/// A line on a terminal that tells how far a run is. It stands there until something else is written, is erased then,
/// and leaves nothing behind.
#[derive(Drop)]
pub struct ProgressLine {
    /// Whether it stands there.
    is_shown: Cell<bool>,
    /// When it is written next; none where it is not written any more.
    due: Cell<Option<Instant>>,
}

/// This many seconds from now on; none where the clock fails.
fn seconds_from_now<C: Clock>(clock: &C, seconds: u64) -> Option<Instant> {
    match Instant::now(clock) {
        Ok(now) => now.checked_add(Duration::from_secs(seconds)),
        Err(_) => None,
    }
}

impl ProgressLine {
    /// A line that is written two seconds from now on, where `is_asked`.
    pub fn new<C: Clock>(clock: &C, is_asked: bool) -> Self {
        let due = if is_asked {
            seconds_from_now(clock, PATIENCE)
        } else {
            None
        };
        ProgressLine {
            is_shown: Cell::new(false),
            due: Cell::new(due),
        }
    }

    /// Whether it may be written yet.
    pub(crate) fn is_asked(&self) -> bool {
        self.due.get().is_some()
    }

    /// Whether it is to be written now. It is not again for a second.
    pub(crate) fn is_due<C: Clock>(&self, clock: &C) -> bool {
        let Some(due) = self.due.get() else {
            return false;
        };
        match Instant::now(clock) {
            Ok(now) if due <= now => {
                self.due.set(seconds_from_now(clock, PERIOD));
                true
            }
            _ => false,
        }
    }

    /// Makes place for it, and notes that it stands there.
    pub(crate) fn begin<E: Eprint>(&self, err: &E) {
        self.is_shown.set(true);
        let _ = eprint!(err; "\r\x1b[K");
    }

    /// Erases it where it stands there.
    pub(crate) fn erase<E: Eprint>(&self, err: &E) {
        if self.is_shown.get() {
            self.is_shown.set(false);
            let _ = eprint!(err; "\r\x1b[K");
        }
    }

    /// Erases it where it stands there. It is not written any more.
    pub fn end<E: Eprint>(&self, err: &E) {
        self.due.set(None);
        self.erase(err);
    }
}

/// A stream that clears a progress line away before it is written to, where that may stand on the same terminal.
#[derive(Drop)]
pub struct ClearedStream<'a, 'b, W, E> {
    stream: W,
    err: &'a E,
    line: Option<&'b ProgressLine>,
}

impl<'a, 'b, W, E> ClearedStream<'a, 'b, W, E> {
    /// The stream, and the line, where it may stand on the same terminal.
    pub fn new(stream: W, err: &'a E, line: Option<&'b ProgressLine>) -> Self {
        ClearedStream { stream, err, line }
    }
}

impl<'a, 'b, W: Write, E: Eprint> Write for ClearedStream<'a, 'b, W, E> {
    fn write(&mut self, buf: &[u8]) -> io::Result<usize> {
        if let Some(line) = self.line {
            line.end(self.err);
        }
        self.stream.write(buf)
    }

    fn flush(&mut self) -> io::Result<()> {
        self.stream.flush()
    }
}
