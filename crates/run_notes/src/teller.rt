use crate::progress_line::ProgressLine;
use std::io::Eprint;
use std::time::Clock;

/// The bytes of a MiB.
const MIB: u64 = 1_048_576;

/// The most bytes of a name that is shown on a line which is to fit a terminal.
const NAME: usize = 32;

/// Who is told on a terminal what a run waits for, and how far it is: whoever called a program of this name, or nobody.
#[derive(Clone, Copy)]
pub struct Teller<'a> {
    called: Option<&'a str>,
    line: Option<&'a ProgressLine>,
}

/// What a file is called on a line that is to fit a terminal: by the last part of its name, where that is short.
fn short_name(name: &str) -> &str {
    let last = match name.rsplit_once('/') {
        Some((_, last)) => last,
        None => name,
    };
    if last.len() <= NAME && last.bytes().all(|byte| byte.is_ascii_graphic()) {
        last
    } else {
        "a file"
    }
}

impl<'a> Teller<'a> {
    /// Nobody is told.
    pub fn nobody() -> Self {
        Teller {
            called: None,
            line: None,
        }
    }

    /// Whoever called a program of this name is told, where `is_asked`.
    pub fn of(called: &'a str, is_asked: bool) -> Self {
        let called = if is_asked { Some(called) } else { None };
        Teller { called, line: None }
    }

    /// The same, and how far the run is is told on this line, which is erased before anything else is told.
    pub fn with_line(self, line: &'a ProgressLine) -> Self {
        Teller {
            called: self.called,
            line: Some(line),
        }
    }

    /// Whether somebody is told.
    pub fn is_asked(&self) -> bool {
        self.called.is_some()
    }

    /// Whether somebody is told how far the run is.
    pub fn has_line(&self) -> bool {
        match self.line {
            Some(line) => line.is_asked(),
            None => false,
        }
    }

    /// Whether it is to be told now how far the run is.
    pub fn is_due<C: Clock>(&self, clock: &C) -> bool {
        match self.line {
            Some(line) => line.is_due(clock),
            None => false,
        }
    }

    /// Erases the line, where it stands there.
    fn erase<E: Eprint>(&self, err: &E) {
        if let Some(line) = self.line {
            line.erase(err);
        }
    }

    /// Tells how many bytes of a file were read, which has this length. Where more were read, some were again.
    pub fn show_read<E: Eprint>(&self, err: &E, bytes: u64, name: &str, len: Option<u64>) {
        let (Some(called), Some(line)) = (self.called, self.line) else {
            return;
        };
        line.begin(err);
        let read = bytes / MIB;
        let name = short_name(name);
        let _ = match len {
            Some(len) if bytes <= len => {
                let all = len / MIB;
                eprint!(err; "{called}: read {read} MiB of {all} MiB of {name}")
            }
            _ => eprint!(err; "{called}: read {read} MiB of {name}"),
        };
    }

    /// Tells how many bytes of the standard input were read.
    pub fn show_input<E: Eprint>(&self, err: &E, bytes: u64) {
        let (Some(called), Some(line)) = (self.called, self.line) else {
            return;
        };
        line.begin(err);
        let _ = eprint!(err; "{called}: read {bytes} bytes of the standard input");
    }

    /// Tells what is waited for. That the error output fails changes nothing.
    pub fn tell<E: Eprint>(&self, err: &E, what: &str) {
        if let Some(called) = self.called {
            self.erase(err);
            let _ = eprintln!(err; "{called}: {what}");
        }
    }

    /// Tells what is waited for of a file.
    pub fn tell_of<E: Eprint>(&self, err: &E, file: &str, what: &str) {
        if let Some(called) = self.called {
            self.erase(err);
            let _ = eprintln!(err; "{called}: {file}: {what}");
        }
    }

    /// Tells what is waited for at a port.
    pub fn tell_port<E: Eprint>(&self, err: &E, what: &str, port: u16) {
        if let Some(called) = self.called {
            self.erase(err);
            let _ = eprintln!(err; "{called}: {what} {port}");
        }
    }
}
