ghost use Rattle.std.specs.Prelude.{◌≡◌, ◌+◌, ◌≤◌, ◌++◌, ℕ, List, [], length, IsTrue, OnOk, OnErr};
ghost use Rattle.outside.specs.Count.{Rose};
ghost use Rattle.outside.specs.Text.{AppendsPrefix};
ghost use Rattle.outside.specs.Gathering.{Gathers, WritesPrefix};

use arrayvec::ArrayVec;
use outside::{Sink, SinkFault};
use std::marker::Model;

/// How many bytes are gathered at most.
const CAPACITY: usize = 4096;

/// Text that is gathered before it is written, so that many short pieces make few calls of the sink. It takes no
/// memory of the heap. After a fault it is not used again.
#[derive(Debug, Drop)]
pub struct TextBuffer {
    bytes: ArrayVec<u8, CAPACITY>,
}

impl Model for TextBuffer {
    ghost use Rattle.std.specs.Prelude.{ℕ, List};

    ghost Value = { List ℕ };

    ghost view = { λ b. b.bytes.items };
}

impl TextBuffer {
    /// Nothing is gathered.
    pub fn new() -> Self
        ensures { result ≡ [] }
    {
        TextBuffer {
            bytes: ArrayVec::new(),
        }
    }

    #[tactic(auto, using(outside::proofs::TextLemmas::appends_at_flush, outside::proofs::TextLemmas::appends_at_write))]
    /// Gathers more text. The sink gets what was gathered before where the buffer has no room for it.
    ///
    /// # Errors
    ///
    /// The sink failed.
    pub fn put<O: Sink>(&mut self, sink: &mut O, text: &[u8]) -> Result<(), SinkFault>
        ensures ok { OnOk result (Gathers O.tells (O.seen sink.old).written self.old (O.seen sink.new).written self.new
            text.now) }
        ensures fault { OnErr result (WritesPrefix O.tells (O.seen sink.old).written self.old (O.seen sink.new).written
            text.now) }
        ensures cause { OnErr result (Rose (O.seen sink.old).faults (O.seen sink.new).faults) }
        ensures later { (O.seen sink.old).faults ≤ (O.seen sink.new).faults }
    {
        if text.len() <= self.bytes.remaining_capacity() {
            self.push(text);
            return Ok(());
        }
        self.flush(sink)?;
        if text.len() <= CAPACITY {
            self.push(text);
            return Ok(());
        }
        sink.write(text)
    }

    fn push(&mut self, text: &[u8])
        requires { length self.old + length text.now ≤ CAPACITY }
        ensures { self.new ≡ self.old ++ text.now }
    {
        self.bytes.try_extend_from_slice(text).unwrap();
    }

    /// Writes what is gathered.
    ///
    /// # Errors
    ///
    /// The sink failed.
    pub fn flush<O: Sink>(&mut self, sink: &mut O) -> Result<(), SinkFault>
        ensures ok { OnOk result (IsTrue O.tells → (O.seen sink.new).written ≡ (O.seen sink.old).written ++ self.old) }
        ensures fault { OnErr result (IsTrue O.tells
            → AppendsPrefix (O.seen sink.old).written (O.seen sink.new).written self.old) }
        ensures empty { OnOk result (self.new ≡ []) }
        ensures cause { OnErr result (Rose (O.seen sink.old).faults (O.seen sink.new).faults) }
        ensures later { (O.seen sink.old).faults ≤ (O.seen sink.new).faults }
    {
        if !self.bytes.is_empty() {
            sink.write(self.bytes.as_slice())?;
            self.bytes.clear();
        }
        Ok(())
    }
}
