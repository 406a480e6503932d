ghost use Rattle.std.specs.Prelude.{◌≡◌, ◌≤◌, ◌++◌, [], OnOk, OnErr};
ghost use Rattle.outside.specs.Count.{Rose};
ghost use Rattle.file_commands.specs.Gathered.{gathered_seen};

use outside::{Sink, SinkFault};
use std::alloc::Global;

/// Text that is gathered in memory to know how long it is. A call fails only where there is not enough memory.
#[derive(Drop)]
pub(crate) struct Gathered {
    text: Vec<u8>,
    faults: u64,
}

impl Gathered {
    /// No text yet.
    pub(crate) fn new(alloc: Global) -> Self
        ensures { gathered_seen result ≡ record { written = []; faults = 0 } }
    {
        Gathered {
            text: Vec::new(alloc),
            faults: 0,
        }
    }

    /// The text so far.
    pub(crate) fn text(&self) -> &[u8]
        ensures { result.now ≡ (gathered_seen self.now).written }
    {
        &self.text
    }
}

impl Sink for Gathered {
    ghost use Rattle.std.specs.Prelude.{true};

    ghost tells = { true };

    ghost seen = { gathered_seen };

    fn write(&mut self, bytes: &[u8]) -> Result<(), SinkFault>
        ensures ok { OnOk result ((gathered_seen self.new).written ≡ (gathered_seen self.old).written ++ bytes.now) }
        ensures fault { OnErr result ((gathered_seen self.new).written ≡ (gathered_seen self.old).written) }
        ensures cause { OnErr result (Rose (gathered_seen self.old).faults (gathered_seen self.new).faults) }
        ensures later { (gathered_seen self.old).faults ≤ (gathered_seen self.new).faults }
    {
        if self.text.extend_from_slice(bytes).is_err() {
            self.faults = self.faults.saturating_add(1);
            return Err(SinkFault);
        }
        Ok(())
    }
}
