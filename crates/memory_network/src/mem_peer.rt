ghost use Rattle.std.specs.Prelude.{◌≡◌, ◌≤◌, ◌↔◌, ◌⊎◌, ◌∷◌, ◌++◌, List, [], None, Contains, IsErr, is_ok};
ghost use Rattle.std.specs.Prelude.{if◌then◌else◌, IfOk, IfSome, OnOk, OnErr};
ghost use Rattle.outside.specs.Count.{Rose, counted};
ghost use Rattle.memory_objects.specs.InMemory.{new_plan};
ghost use Rattle.network.specs.Events.{Event, KeepsStart, TakesEvent, peer_started_at};
ghost use Rattle.memory_network.specs.MemPeer.{event_in, events_of, mem_peer_plan, mem_peer_seen, port_of, sent_in};

use memory_objects::Failures;
use network::{Peer, PeerFault};
use std::alloc::AllocError;

/// How a peer in memory was started last.
#[derive(Clone, Copy, Debug)]
struct LastStart {
    /// The port that was asked for.
    port: u16,
    /// How many datagrams had been sent before.
    sent: usize,
    /// How many of the events had been taken before.
    taken: usize,
}

/// A peer in memory, which tells the events that are left, the datagrams that were sent and how it was started. It can
/// be made to fail at given calls. Where it cannot get memory for what is sent, it has failed too.
#[derive(Debug, Drop)]
pub struct MemPeer {
    events: Vec<Option<Vec<u8>>>,
    /// How many of the events were taken.
    taken: usize,
    sent: Vec<Vec<u8>>,
    /// How often it was started.
    starts: u64,
    last: Option<LastStart>,
    failures: Failures,
}

impl MemPeer {
    /// A peer to which nothing was sent. These events come from it, each a datagram, or a quiet where it is `None`. The
    /// calls whose numbers, from 1 on, stand in `failing` fail.
    pub fn new(events: Vec<Option<Vec<u8>>>, failing: Vec<u64>) -> Self
        ensures seen { ⟦<MemPeer as Peer>⟧.seen result
            ≡ record {
              left = events_of events.items;
              sent = [];
              started = record { times = 0; last = None };
              faults = 0;
            } }
        ensures plan { mem_peer_plan result ≡ new_plan failing.items }
    {
        let sent = Vec::new(*events.allocator());
        MemPeer {
            events,
            taken: 0,
            sent,
            starts: 0,
            last: None,
            failures: Failures::new(failing),
        }
    }

    /// The datagrams that were sent.
    pub fn sent(&self) -> &[Vec<u8>]
        ensures { sent_in result.now ≡ (⟦<MemPeer as Peer>⟧.seen self.now).sent }
    {
        &self.sent
    }

    /// How often it was started, up to the last value of the counter.
    pub fn starts(&self) -> u64
        ensures { result ≡ (⟦<MemPeer as Peer>⟧.seen self.now).started.times }
    {
        self.starts
    }

    /// The port at which it was started last, or `None` where it was not started.
    pub fn port(&self) -> Option<u16>
        ensures { result ≡ port_of (⟦<MemPeer as Peer>⟧.seen self.now).started.last }
    {
        match self.last {
            Some(last) => Some(last.port),
            None => None,
        }
    }

    /// Keeps a datagram that is sent.
    fn keep(&mut self, bytes: &[u8]) -> Result<(), AllocError>
        ensures ok { OnOk result (sent_in self.new.sent.items ≡ sent_in self.old.sent.items ++ bytes.now ∷ []) }
        ensures err { OnErr result (sent_in self.new.sent.items ≡ sent_in self.old.sent.items) }
        ensures events { self.new.events.items ≡ self.old.events.items }
        ensures taken { self.new.taken ≡ self.old.taken }
        ensures starts { self.new.starts ≡ self.old.starts }
        ensures last { self.new.last ≡ self.old.last }
        ensures plan { mem_peer_plan self.new ≡ mem_peer_plan self.old }
        ensures faults { (mem_peer_seen self.new).faults ≡ (mem_peer_seen self.old).faults }
    {
        let datagram = Vec::from_slice(*self.sent.allocator(), bytes)?;
        self.sent.push(datagram)?;
        Ok(())
    }
}

/// Gives the first 4,096 bytes of a datagram, and how many they are; a quiet gives nothing.
fn give(event: &Option<Vec<u8>>, buf: &mut [u8; 4096]) -> Option<usize>
    ensures fits { IfSome result (λ len. len ≤ 4096) }
    ensures taken { (rest : List Event) → TakesEvent result buf.new (event_in event.now ∷ rest) rest }
{
    match event {
        Some(datagram) => {
            let len = datagram.len().min(4096);
            buf[..len].copy_from_slice(&datagram[..len]);
            Some(len)
        }
        None => None,
    }
}

impl Peer for MemPeer {
    ghost use Rattle.std.specs.Prelude.{true};

    ghost tells = { true };

    ghost seen = { mem_peer_seen };

    fn start(&mut self, port: u16) -> Result<(), PeerFault>
        ensures planned { IsErr result
            ↔ Contains (mem_peer_plan self.old).failing (counted (mem_peer_plan self.old).calls) }
        ensures plan { mem_peer_plan self.new
            ≡ record (mem_peer_plan self.old) { calls = counted (mem_peer_plan self.old).calls } }
        ensures started { OnOk result
            ((mem_peer_seen self.new).started ≡ peer_started_at (mem_peer_seen self.old) port) }
        ensures fault { OnErr result ((mem_peer_seen self.new).started ≡ (mem_peer_seen self.old).started) }
        ensures left { (mem_peer_seen self.new).left ≡ (mem_peer_seen self.old).left }
        ensures sent { (mem_peer_seen self.new).sent ≡ (mem_peer_seen self.old).sent }
        ensures faults { (mem_peer_seen self.new).faults ≡ (if is_ok result then (mem_peer_seen self.old).faults
            else counted (mem_peer_seen self.old).faults) }
        ensures steady { OnOk result ((mem_peer_seen self.new).faults ≡ (mem_peer_seen self.old).faults) }
        ensures cause { OnErr result (Rose (mem_peer_seen self.old).faults (mem_peer_seen self.new).faults) }
        ensures later { (mem_peer_seen self.old).faults ≤ (mem_peer_seen self.new).faults }
    {
        if self.failures.next_fails() {
            return Err(PeerFault);
        }
        self.starts = self.starts.saturating_add(1);
        self.last = Some(LastStart {
            port,
            sent: self.sent.len(),
            taken: self.taken,
        });
        Ok(())
    }

    fn send(&mut self, bytes: &[u8]) -> Result<(), PeerFault>
        ensures planned { Contains (mem_peer_plan self.old).failing (counted (mem_peer_plan self.old).calls)
            → IsErr result }
        ensures plan { mem_peer_plan self.new
            ≡ record (mem_peer_plan self.old) { calls = counted (mem_peer_plan self.old).calls } }
        ensures sent { OnOk result ((mem_peer_seen self.new).sent ≡ (mem_peer_seen self.old).sent ++ bytes.now ∷ []) }
        ensures fault { OnErr result ((mem_peer_seen self.new).sent ≡ (mem_peer_seen self.old).sent) }
        ensures left { (mem_peer_seen self.new).left ≡ (mem_peer_seen self.old).left }
        ensures leaves { KeepsStart (mem_peer_seen self.old) (mem_peer_seen self.new) }
        ensures faults { (mem_peer_seen self.new).faults ≡ (if is_ok result then (mem_peer_seen self.old).faults
            else counted (mem_peer_seen self.old).faults) }
        ensures steady { OnOk result ((mem_peer_seen self.new).faults ≡ (mem_peer_seen self.old).faults) }
        ensures cause { OnErr result (Rose (mem_peer_seen self.old).faults (mem_peer_seen self.new).faults) }
    {
        if self.failures.next_fails() {
            return Err(PeerFault);
        }
        if self.keep(bytes).is_err() {
            self.failures.count_fault();
            return Err(PeerFault);
        }
        Ok(())
    }

    fn receive(&mut self, buf: &mut [u8; 4096]) -> Result<Option<usize>, PeerFault>
        ensures planned { Contains (mem_peer_plan self.old).failing (counted (mem_peer_plan self.old).calls)
            → IsErr result }
        ensures otherwise { IsErr result
            → (Contains (mem_peer_plan self.old).failing (counted (mem_peer_plan self.old).calls))
            ⊎ ((mem_peer_seen self.old).left ≡ []) }
        ensures plan { mem_peer_plan self.new
            ≡ record (mem_peer_plan self.old) { calls = counted (mem_peer_plan self.old).calls } }
        ensures fits { IfOk result (λ got. IfSome got (λ len. len ≤ 4096)) }
        ensures taken { IfOk result
            (λ got. TakesEvent got buf.new (mem_peer_seen self.old).left (mem_peer_seen self.new).left) }
        ensures fault { OnErr result ((mem_peer_seen self.new).left ≡ (mem_peer_seen self.old).left) }
        ensures sent { (mem_peer_seen self.new).sent ≡ (mem_peer_seen self.old).sent }
        ensures leaves { KeepsStart (mem_peer_seen self.old) (mem_peer_seen self.new) }
        ensures faults { (mem_peer_seen self.new).faults ≡ (if is_ok result then (mem_peer_seen self.old).faults
            else counted (mem_peer_seen self.old).faults) }
        ensures steady { OnOk result ((mem_peer_seen self.new).faults ≡ (mem_peer_seen self.old).faults) }
        ensures cause { OnErr result (Rose (mem_peer_seen self.old).faults (mem_peer_seen self.new).faults) }
    {
        if self.failures.next_fails() {
            return Err(PeerFault);
        }
        if self.taken >= self.events.len() {
            self.failures.count_fault();
            return Err(PeerFault);
        }
        let got = give(&self.events[self.taken], buf);
        self.taken += 1;
        Ok(got)
    }
}
