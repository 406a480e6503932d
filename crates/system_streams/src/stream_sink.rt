ghost use Rattle.std.specs.Prelude.{◌≡◌};

use outside::{Sink, SinkFault};
use run_notes::LastText;
use std::io;
use std::io::Write;

/// A stream of the system as a sink, such as standard output. It tells nothing of what was written.
#[derive(Drop)]
pub struct StreamSink<W> {
    stream: W,
    faults: u64,
    failure: Option<io::Error>,
    /// What was written last, where that is kept.
    last: Option<LastText>,
}

impl<W> StreamSink<W> {
    /// The stream, which has not failed yet.
    pub fn new(stream: W) -> Self
        ensures { result.faults ≡ 0 }
    {
        StreamSink {
            stream,
            faults: 0,
            failure: None,
            last: None,
        }
    }

    /// Why the last call that failed did; none where none did.
    pub fn failure(&self) -> Option<io::Error> {
        self.failure
    }

    /// Keeps from now on what is written last.
    pub fn keep(&mut self)
        ensures { self.new.faults ≡ self.old.faults }
    {
        self.last = Some(LastText::new());
    }

    /// The last line that was written, where it is kept.
    pub fn last_line(&self) -> Option<&[u8]> {
        let last = self.last.as_ref()?;
        Some(last.last_line())
    }

    /// Keeps what was written, where that is asked for.
    fn note(&mut self, bytes: &[u8])
        ensures { self.new.faults ≡ self.old.faults }
    {
        if let Some(last) = &mut self.last {
            last.push(bytes);
        }
    }
}

impl<W: Write> Sink for StreamSink<W> {
    ghost use Rattle.std.specs.Prelude.{false, []};

    ghost tells = { false };

    ghost seen = { λ s. record { written = []; faults = s.faults } };

    /// Writes all the bytes, in as many calls of the system as it takes.
    fn write(&mut self, bytes: &[u8]) -> Result<(), SinkFault> {
        if let Err(error) = self.stream.write_all(bytes) {
            self.faults = self.faults.saturating_add(1);
            self.failure = Some(error);
            return Err(SinkFault);
        }
        self.note(bytes);
        Ok(())
    }
}
