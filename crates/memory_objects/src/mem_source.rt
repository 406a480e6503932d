ghost use Rattle.std.specs.Prelude.{◌≡◌, ◌≤◌, ◌↔◌, ◌⊎◌, ◌++◌, [], length, take, Contains, IsErr, IfOk, OnErr};
ghost use Rattle.outside.specs.Count.{Rose, counted};
ghost use Rattle.memory_objects.specs.InMemory.{mem_source_plan, mem_source_seen, new_plan};

use crate::failures::Failures;
use outside::{Source, SourceFault};

/// A source in memory, which tells the bytes that are left. It can be made to fail at given calls, and fails at no
/// other.
#[derive(Debug, Drop)]
pub struct MemSource {
    bytes: Vec<u8>,
    /// How many of the bytes were taken.
    at: usize,
    failures: Failures,
}

impl MemSource {
    /// A source of which `bytes` are left. The calls whose numbers, from 1 on, stand in `failing` fail.
    pub fn new(bytes: Vec<u8>, failing: Vec<u64>) -> Self
        ensures seen { ⟦<MemSource as Source>⟧.seen result ≡ record { left = bytes.items; faults = 0 } }
        ensures plan { mem_source_plan result ≡ new_plan failing.items }
    {
        MemSource {
            bytes,
            at: 0,
            failures: Failures::new(failing),
        }
    }

    /// The bytes that are left.
    pub fn left(&self) -> &[u8]
        ensures { result.now ≡ (⟦<MemSource as Source>⟧.seen self.now).left }
    {
        self.bytes.get(self.at..).unwrap_or(&[])
    }
}

impl Source for MemSource {
    ghost use Rattle.std.specs.Prelude.{true};
    ghost use Rattle.outside.specs.Behind.{IsBehind, behind_nothing, behind_on};

    ghost tells = { true };

    ghost seen = { mem_source_seen };

    ghost keeps = { λ _ old new. IsBehind (mem_source_seen old).left (mem_source_seen new).left };

    ghost keeps_itself = { λ source. behind_nothing (mem_source_seen source).left };

    ghost keeps_on = { λ _ _ first between last. behind_on (mem_source_seen first).left (mem_source_seen between).left
        (mem_source_seen last).left };

    ghost keeps_any = { λ _ _ behind. behind };

    ghost keeps_behind = { λ _ _ _ behind _. behind };

    fn read(&mut self, buf: &mut [u8]) -> Result<usize, SourceFault>
        ensures planned { IsErr result
            ↔ Contains (mem_source_plan self.old).failing (counted (mem_source_plan self.old).calls) }
        ensures plan { mem_source_plan self.new
            ≡ record (mem_source_plan self.old) { calls = counted (mem_source_plan self.old).calls } }
        ensures fits { IfOk result (λ count. count ≤ length buf.new) }
        ensures taken { IfOk result (λ count. (mem_source_seen self.old).left
            ≡ take count buf.new ++ (mem_source_seen self.new).left) }
        ensures end { IfOk result (λ count. count ≡ 0
            → (length buf.old ≡ 0) ⊎ ((mem_source_seen self.old).left ≡ [])) }
        ensures fault { OnErr result ((mem_source_seen self.new).left ≡ (mem_source_seen self.old).left) }
        ensures cause { OnErr result (Rose (mem_source_seen self.old).faults (mem_source_seen self.new).faults) }
        ensures later { (mem_source_seen self.old).faults ≤ (mem_source_seen self.new).faults }
    {
        if self.failures.next_fails() {
            return Err(SourceFault);
        }
        let left = self.left();
        let count = buf.len().min(left.len());
        buf[..count].copy_from_slice(&left[..count]);
        self.at += count;
        Ok(count)
    }
}
