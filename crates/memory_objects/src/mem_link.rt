ghost use Rattle.std.specs.Prelude.{◌≡◌, ◌≤◌, ◌↔◌, ◌⊎◌, ◌∷◌, ◌++◌, [], None, length, min, take, Contains, IsErr, is_ok};
ghost use Rattle.std.specs.Prelude.{if◌then◌else◌, IfOk, OnOk, OnErr};
ghost use Rattle.outside.specs.Count.{Rose, counted};
ghost use Rattle.memory_objects.specs.InMemory.{answers_in, datagrams_of, mem_link_plan, mem_link_seen, new_plan};
ghost use Rattle.memory_objects.specs.InMemory.{port_of};
ghost use Rattle.outside.specs.Seen.{Datagram, started_at};

use crate::failures::Failures;
use outside::{Got, Link, LinkFault};
use std::alloc::AllocError;

/// A link in memory, which tells the datagrams that are left, the answers that were sent and how it was started. It can
/// be made to fail at given calls. Where it cannot get memory for an answer, it has failed too.
#[derive(Debug, Drop)]
pub struct MemLink {
    datagrams: Vec<(Vec<u8>, u64)>,
    /// How many of the datagrams were taken.
    taken: usize,
    answers: Vec<Vec<u8>>,
    /// How often it was started.
    starts: u64,
    /// The port at which it was started last, and how many of the datagrams were taken before.
    last: Option<(u16, usize)>,
    failures: Failures,
}

impl MemLink {
    /// A link to which these datagrams come, each at its moment. The calls whose numbers, from 1 on, stand in `failing`
    /// fail.
    pub fn new(datagrams: Vec<(Vec<u8>, u64)>, failing: Vec<u64>) -> Self
        ensures seen { ⟦<MemLink as Link>⟧.seen result
            ≡ record {
              left = datagrams_of datagrams.items;
              answers = [];
              started = record { times = 0; last = None };
              faults = 0;
            } }
        ensures plan { mem_link_plan result ≡ new_plan failing.items }
    {
        let answers = Vec::new(*datagrams.allocator());
        MemLink {
            datagrams,
            taken: 0,
            answers,
            starts: 0,
            last: None,
            failures: Failures::new(failing),
        }
    }

    /// The answers that were sent.
    pub fn answers(&self) -> &[Vec<u8>]
        ensures { answers_in result.now ≡ (⟦<MemLink as Link>⟧.seen self.now).answers }
    {
        &self.answers
    }

    /// How often it was started, up to the last value of the counter.
    pub fn starts(&self) -> u64
        ensures { result ≡ (⟦<MemLink as Link>⟧.seen self.now).started.times }
    {
        self.starts
    }

    /// The port at which it was started last, or `None` where it was not started.
    pub fn port(&self) -> Option<u16>
        ensures { result ≡ port_of (⟦<MemLink as Link>⟧.seen self.now).started.last }
    {
        match self.last {
            Some((port, _)) => Some(port),
            None => None,
        }
    }

    /// Keeps an answer.
    fn keep(&mut self, bytes: &[u8]) -> Result<(), AllocError>
        ensures ok { OnOk result
            (answers_in self.new.answers.items ≡ answers_in self.old.answers.items ++ bytes.now ∷ []) }
        ensures err { OnErr result (answers_in self.new.answers.items ≡ answers_in self.old.answers.items) }
        ensures datagrams { self.new.datagrams.items ≡ self.old.datagrams.items }
        ensures taken { self.new.taken ≡ self.old.taken }
        ensures starts { self.new.starts ≡ self.old.starts }
        ensures last { self.new.last ≡ self.old.last }
        ensures plan { mem_link_plan self.new ≡ mem_link_plan self.old }
        ensures faults { (mem_link_seen self.new).faults ≡ (mem_link_seen self.old).faults }
    {
        let answer = Vec::from_slice(*self.answers.allocator(), bytes)?;
        self.answers.push(answer)?;
        Ok(())
    }
}

impl Link for MemLink {
    ghost use Rattle.std.specs.Prelude.{true};

    ghost tells = { true };

    ghost seen = { mem_link_seen };

    fn start(&mut self, port: u16) -> Result<(), LinkFault>
        ensures planned { IsErr result
            ↔ Contains (mem_link_plan self.old).failing (counted (mem_link_plan self.old).calls) }
        ensures plan { mem_link_plan self.new
            ≡ record (mem_link_plan self.old) { calls = counted (mem_link_plan self.old).calls } }
        ensures started { OnOk result ((mem_link_seen self.new).started
            ≡ started_at (mem_link_seen self.old).started port (mem_link_seen self.old).left) }
        ensures fault { OnErr result ((mem_link_seen self.new).started ≡ (mem_link_seen self.old).started) }
        ensures left { (mem_link_seen self.new).left ≡ (mem_link_seen self.old).left }
        ensures answers { (mem_link_seen self.new).answers ≡ (mem_link_seen self.old).answers }
        ensures faults { (mem_link_seen self.new).faults ≡ (if is_ok result then (mem_link_seen self.old).faults
            else counted (mem_link_seen self.old).faults) }
        ensures cause { OnErr result (Rose (mem_link_seen self.old).faults (mem_link_seen self.new).faults) }
        ensures later { (mem_link_seen self.old).faults ≤ (mem_link_seen self.new).faults }
    {
        if self.failures.next_fails() {
            return Err(LinkFault);
        }
        self.starts = self.starts.saturating_add(1);
        self.last = Some((port, self.taken));
        Ok(())
    }

    fn next(&mut self, buf: &mut [u8; 4096]) -> Result<Got, LinkFault>
        ensures planned { Contains (mem_link_plan self.old).failing (counted (mem_link_plan self.old).calls)
            → IsErr result }
        ensures otherwise { IsErr result
            → (Contains (mem_link_plan self.old).failing (counted (mem_link_plan self.old).calls))
            ⊎ ((mem_link_seen self.old).left ≡ []) }
        ensures plan { mem_link_plan self.new
            ≡ record (mem_link_plan self.old) { calls = counted (mem_link_plan self.old).calls } }
        ensures fits { IfOk result (λ got. got.len ≤ 4096) }
        ensures taken { IfOk result (λ got. (datagram : Datagram)
            × ((mem_link_seen self.old).left ≡ datagram ∷ (mem_link_seen self.new).left)
            × (take got.len buf.new ≡ take 4096 datagram.bytes)
            × (got.len ≡ min 4096 (length datagram.bytes))
            × (got.now ≡ datagram.moment)) }
        ensures fault { OnErr result ((mem_link_seen self.new).left ≡ (mem_link_seen self.old).left) }
        ensures answers { (mem_link_seen self.new).answers ≡ (mem_link_seen self.old).answers }
        ensures started { (mem_link_seen self.new).started ≡ (mem_link_seen self.old).started }
        ensures faults { (mem_link_seen self.new).faults ≡ (if is_ok result then (mem_link_seen self.old).faults
            else counted (mem_link_seen self.old).faults) }
        ensures cause { OnErr result (Rose (mem_link_seen self.old).faults (mem_link_seen self.new).faults) }
        ensures later { (mem_link_seen self.old).faults ≤ (mem_link_seen self.new).faults }
    {
        if self.failures.next_fails() {
            return Err(LinkFault);
        }
        if self.taken >= self.datagrams.len() {
            self.failures.count_fault();
            return Err(LinkFault);
        }
        let datagram = &self.datagrams[self.taken];
        let len = datagram.0.len().min(4096);
        buf[..len].copy_from_slice(&datagram.0[..len]);
        let got = Got {
            len,
            now: datagram.1,
        };
        self.taken += 1;
        Ok(got)
    }

    fn answer(&mut self, bytes: &[u8]) -> Result<(), LinkFault>
        ensures planned { Contains (mem_link_plan self.old).failing (counted (mem_link_plan self.old).calls)
            → IsErr result }
        ensures plan { mem_link_plan self.new
            ≡ record (mem_link_plan self.old) { calls = counted (mem_link_plan self.old).calls } }
        ensures sent { OnOk result
            ((mem_link_seen self.new).answers ≡ (mem_link_seen self.old).answers ++ bytes.now ∷ []) }
        ensures fault { OnErr result ((mem_link_seen self.new).answers ≡ (mem_link_seen self.old).answers) }
        ensures left { (mem_link_seen self.new).left ≡ (mem_link_seen self.old).left }
        ensures started { (mem_link_seen self.new).started ≡ (mem_link_seen self.old).started }
        ensures faults { (mem_link_seen self.new).faults ≡ (if is_ok result then (mem_link_seen self.old).faults
            else counted (mem_link_seen self.old).faults) }
        ensures cause { OnErr result (Rose (mem_link_seen self.old).faults (mem_link_seen self.new).faults) }
        ensures later { (mem_link_seen self.old).faults ≤ (mem_link_seen self.new).faults }
    {
        if self.failures.next_fails() {
            return Err(LinkFault);
        }
        if self.keep(bytes).is_err() {
            self.failures.count_fault();
            return Err(LinkFault);
        }
        Ok(())
    }
}
