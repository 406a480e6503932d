ghost use Rattle.std.specs.Prelude.{◌≡◌, ◌≤◌, ◌++◌, Contains, IsErr, OnOk, OnErr};
ghost use Rattle.outside.specs.Count.{Rose, counted};
ghost use Rattle.memory_objects.specs.InMemory.{mem_sink_plan, mem_sink_seen, new_plan};

use crate::failures::Failures;
use outside::{Sink, SinkFault};

/// A sink in memory, which tells what was written to it. It can be made to fail at given calls.
#[derive(Debug, Drop)]
pub struct MemSink {
    bytes: Vec<u8>,
    failures: Failures,
}

impl MemSink {
    /// A sink that `bytes` were written to already. The calls whose numbers, from 1 on, stand in `failing` fail.
    pub fn new(bytes: Vec<u8>, failing: Vec<u64>) -> Self
        ensures seen { ⟦<MemSink as Sink>⟧.seen result ≡ record { written = bytes.items; faults = 0 } }
        ensures plan { mem_sink_plan result ≡ new_plan failing.items }
    {
        MemSink {
            bytes,
            failures: Failures::new(failing),
        }
    }

    /// The bytes written so far, those of `new` first.
    pub fn bytes(&self) -> &[u8]
        ensures { result.now ≡ (⟦<MemSink as Sink>⟧.seen self.now).written }
    {
        &self.bytes
    }
}

impl Sink for MemSink {
    ghost use Rattle.std.specs.Prelude.{true};

    ghost tells = { true };

    ghost seen = { mem_sink_seen };

    fn write(&mut self, bytes: &[u8]) -> Result<(), SinkFault>
        ensures planned { Contains (mem_sink_plan self.old).failing (counted (mem_sink_plan self.old).calls)
            → IsErr result }
        ensures plan { mem_sink_plan self.new
            ≡ record (mem_sink_plan self.old) { calls = counted (mem_sink_plan self.old).calls } }
        ensures ok { OnOk result ((mem_sink_seen self.new).written ≡ (mem_sink_seen self.old).written ++ bytes.now) }
        ensures fault { OnErr result ((mem_sink_seen self.new).written ≡ (mem_sink_seen self.old).written) }
        ensures cause { OnErr result (Rose (mem_sink_seen self.old).faults (mem_sink_seen self.new).faults) }
        ensures later { (mem_sink_seen self.old).faults ≤ (mem_sink_seen self.new).faults }
    {
        if self.failures.next_fails() {
            return Err(SinkFault);
        }
        if self.bytes.extend_from_slice(bytes).is_err() {
            self.failures.count_fault();
            return Err(SinkFault);
        }
        Ok(())
    }
}
