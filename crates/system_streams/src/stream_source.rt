ghost use Rattle.std.specs.Prelude.{◌≡◌};

use outside::{Source, SourceFault};
use run_notes::{LastText, ReadCount, Teller};
use std::io;
use std::io::{Eprint, ErrorKind, Read};
use std::time::Clock;

/// A stream of the system as a source, such as standard input. It tells nothing of what is left in it.
#[derive(Drop)]
pub struct StreamSource<'a, R, E> {
    stream: R,
    err: &'a E,
    faults: u64,
    failure: Option<io::Error>,
    /// What was read last, where that is kept.
    last: Option<LastText>,
    /// Whether the last read gave nothing, where what was read is kept.
    has_ended: bool,
    /// Whether a word was read, where that is kept.
    has_word: bool,
    /// Who is told that the stream is waited for, and what of it, until that was told.
    waiting: Option<(Teller<'a>, &'static str)>,
    /// Who is told how much was read.
    progress: Option<Teller<'a>>,
    reads: ReadCount,
}

impl<'a, R, E: Eprint> StreamSource<'a, R, E> {
    /// The stream, which has not failed yet, and where it is told that the stream is waited for.
    pub fn new(stream: R, err: &'a E) -> Self
        ensures { result.faults ≡ 0 }
    {
        StreamSource {
            stream,
            err,
            faults: 0,
            failure: None,
            last: None,
            has_ended: false,
            has_word: false,
            waiting: None,
            progress: None,
            reads: ReadCount::new(),
        }
    }

    /// Why the last call that failed did; none where none did.
    pub fn failure(&self) -> Option<io::Error> {
        self.failure
    }

    /// Keeps from now on what is read last.
    pub fn keep(&mut self)
        ensures { self.new.faults ≡ self.old.faults }
    {
        self.last = Some(LastText::new());
    }

    /// The line of this number, counted from 1, where it was read and is kept.
    pub fn line(&self, number: u64) -> Option<&[u8]> {
        self.last.as_ref()?.line(number)
    }

    /// Whether it is known that the stream ended, and gave no word before.
    pub fn is_blank(&self) -> bool {
        self.last.is_some() && self.has_ended && !self.has_word
    }

    /// Says with the first read what is waited for.
    pub fn tell_wait(&mut self, teller: Teller<'a>, what: &'static str)
        ensures { self.new.faults ≡ self.old.faults }
    {
        self.waiting = Some((teller, what));
    }

    /// Says from now on how much was read, where that takes long.
    pub fn tell_progress(&mut self, teller: Teller<'a>)
        ensures { self.new.faults ≡ self.old.faults }
    {
        self.progress = Some(teller);
    }

    /// Says what is waited for, unless that was said.
    fn tell(&mut self)
        ensures { self.new.faults ≡ self.old.faults }
    {
        if let Some((teller, what)) = self.waiting.take() {
            teller.tell(self.err, what);
        }
    }

    /// Keeps what was read, where that is asked for.
    fn note(&mut self, bytes: &[u8])
        ensures { self.new.faults ≡ self.old.faults }
    {
        let Some(last) = &mut self.last else {
            return;
        };
        last.push(bytes);
        self.has_ended = bytes.is_empty();
        self.has_word = self.has_word || has_word(bytes);
    }
}

/// Whether there is anything but blanks and ends of lines.
fn has_word(bytes: &[u8]) -> bool {
    bytes
        .iter()
        .any(|byte| !matches!(*byte, b' ' | b'\t' | b'\n'))
}

impl<'a, R, E: Eprint + Clock> StreamSource<'a, R, E> {
    /// Counts what was read, and says how much that is where it is due. The clock is looked at where the stream gave
    /// less than there is room for, too: more has to be waited for then.
    fn tell_read(&mut self, count: usize, is_short: bool)
        ensures { self.new.faults ≡ self.old.faults }
    {
        let Some(teller) = self.progress else {
            return;
        };
        let is_much = self.reads.add(count);
        if (is_much || is_short) && teller.is_due(self.err) {
            teller.show_input(self.err, self.reads.bytes());
        }
    }
}

impl<'a, R: Read, E: Eprint + Clock> Source for StreamSource<'a, R, E> {
    ghost use Rattle.std.specs.Prelude.{false, [], ⊤};
    ghost use Rattle.std.proofs.lemmas.Bool.{false≢true};

    ghost tells = { false };

    ghost seen = { λ s. record { left = []; faults = s.faults } };

    ghost keeps = { λ _ _ _. ⊤ };

    ghost keeps_itself = { λ _. tt };

    ghost keeps_on = { λ _ _ _ _ _ _ _. tt };

    ghost keeps_any = { λ _ _ _. tt };

    ghost keeps_behind = { λ _ _ _ _ told. absurd (false≢true told) };

    /// Reads what the stream gives at once, and again where a signal interrupts. Each turn but the last one is such an
    /// interruption, so the bound on the turns is never met.
    fn read(&mut self, buf: &mut [u8]) -> Result<usize, SourceFault> {
        self.tell();
        for _ in 0..u64::MAX {
            match self.stream.read(buf) {
                Ok(count) => {
                    self.note(&buf[..count]);
                    self.tell_read(count, count < buf.len());
                    return Ok(count);
                }
                Err(error) if error.kind() == ErrorKind::Interrupted => {}
                Err(error) => {
                    self.failure = Some(error);
                    break;
                }
            }
        }
        self.faults = self.faults.saturating_add(1);
        Err(SourceFault)
    }
}
