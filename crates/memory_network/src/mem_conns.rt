ghost use Rattle.std.specs.Prelude.{◌≡◌, ◌≤◌, ◌<◌, ◌+◌, ◌↔◌, ◌⊎◌, ◌++◌, [], None, length, take, map, false, is_ok};
ghost use Rattle.std.specs.Prelude.{if◌then◌else◌, Contains, IsErr, IsTrue, IfOk, OnOk, OnErr};
ghost use Rattle.outside.specs.Count.{Rose, counted};
ghost use Rattle.memory_objects.specs.InMemory.{new_plan};
ghost use Rattle.memory_network.specs.KeptConnection.{arrival_in, arrivals_of};

use crate::kept_connection::KeptConnection;
use memory_objects::Failures;
use network::{ConnFault, Conns};
use std::alloc::{AllocError, Global};

/// How connections in memory were listened for last.
#[derive(Clone, Copy, Debug)]
struct LastListen {
    /// The port that was asked for.
    port: u16,
    /// How many connections had been accepted before.
    accepted: usize,
}

/// Connections in memory, which tell those that are left, the open one, the closed ones and how it listened. They can
/// be made to fail at given calls. Where there is no memory for what is written, that write has failed too.
#[derive(Debug, Drop)]
pub struct MemConns {
    connections: Vec<KeptConnection>,
    /// How many of the connections are closed, from the first one on.
    closed: usize,
    /// Whether the one behind these is open.
    is_open: bool,
    /// How often it began to listen.
    listens: u64,
    last: Option<LastListen>,
    /// Which calls are to fail. How many did is counted below, apart for the two kinds of calls.
    failures: Failures,
    listener_faults: u64,
    connection_faults: u64,
    ghost within: { closed + (if is_open then 1 else 0) ≤ length connections.items },
}

/// Counts one more fault.
fn count_fault(faults: &mut u64)
    ensures counted { faults.new ≡ counted faults.old }
    ensures later { faults.old ≤ faults.new }
{
    *faults = faults.saturating_add(1);
}

/// These connections, each with its moment and its bytes, as they are kept.
fn keep_all(
    alloc: Global,
    connections: Vec<(u64, Vec<u8>)>,
) -> Result<Vec<KeptConnection>, AllocError>
    ensures { IfOk result (λ kept. map arrival_in kept.items ≡ arrivals_of connections.items) }
{
    let mut kept = Vec::with_capacity(alloc, connections.len())?;
    for (moment, bytes) in connections {
        kept.push(KeptConnection::new(moment, bytes))?;
    }
    Ok(kept)
}

impl MemConns {
    ghost use Rattle.memory_network.specs.MemConns.{accepted_count, connection_count, listen_port, mem_conns_plan};
    ghost use Rattle.memory_network.specs.MemConns.{mem_conns_seen, written_at};

    /// Connections that come one after another, each at its moment and with its bytes. The calls of `listen`, `accept`,
    /// `read` and `write` whose numbers, from 1 on, stand in `failing` fail.
    ///
    /// # Errors
    ///
    /// There is not enough memory.
    pub fn new(
        alloc: Global,
        connections: Vec<(u64, Vec<u8>)>,
        failing: Vec<u64>,
    ) -> Result<Self, AllocError>
        ensures seen { IfOk result (λ conns. ⟦<MemConns as Conns>⟧.seen conns ≡ record {
          left = arrivals_of connections.items;
          current = None;
          closed = [];
          listened = record { times = 0; last = None };
          listener_faults = 0;
          connection_faults = 0;
        }) }
        ensures shut { IfOk result (λ conns. ⟦<MemConns as Conns>⟧.is_open conns ≡ false) }
        ensures plan { IfOk result (λ conns. mem_conns_plan conns ≡ new_plan failing.items) }
    {
        Ok(MemConns {
            connections: keep_all(alloc, connections)?,
            closed: 0,
            is_open: false,
            listens: 0,
            last: None,
            failures: Failures::new(failing),
            listener_faults: 0,
            connection_faults: 0,
        })
    }

    /// How many connections there are, those that are left too.
    pub fn count(&self) -> usize
        ensures { result ≡ connection_count (⟦<MemConns as Conns>⟧.seen self.now) }
    {
        self.connections.len()
    }

    /// What was written on the connection at this place of the list, counted from 0: nothing where it was not accepted.
    pub fn written(&self, place: usize) -> &[u8]
        requires { place < connection_count (⟦<MemConns as Conns>⟧.seen self.now) }
        ensures { result.now ≡ written_at (⟦<MemConns as Conns>⟧.seen self.now) place }
    {
        if place < self.accepted() {
            self.connections[place].written()
        } else {
            &[]
        }
    }

    /// How often it began to listen, up to the last value of the counter.
    pub fn listens(&self) -> u64
        ensures { result ≡ (⟦<MemConns as Conns>⟧.seen self.now).listened.times }
    {
        self.listens
    }

    /// The port at which it began to listen last, or `None` where it did not.
    pub fn port(&self) -> Option<u16>
        ensures { result ≡ listen_port (⟦<MemConns as Conns>⟧.seen self.now).listened.last }
    {
        match self.last {
            Some(last) => Some(last.port),
            None => None,
        }
    }

    /// How many connections were accepted.
    fn accepted(&self) -> usize
        ensures { result ≡ accepted_count self.now }
    {
        if self.is_open {
            self.closed + 1
        } else {
            self.closed
        }
    }
}

impl Conns for MemConns {
    ghost use Rattle.std.specs.Prelude.{true};
    ghost use Rattle.std.specs.Option.{option_map};
    ghost use Rattle.network.specs.Connections.{AcceptsNext, ChangesCurrent, ClosesCurrent, FailsToWrite};
    ghost use Rattle.network.specs.Connections.{KeepsConnections, KeepsListening, listened_at, unread};
    ghost use Rattle.network.specs.Connections.{with_failed_read, with_taken, with_written};
    ghost use Rattle.memory_network.specs.MemConns.{mem_conns_plan, mem_conns_seen, told_where_open};

    ghost tells = { true };

    ghost is_open = { λ conns. conns.is_open };

    ghost seen = { mem_conns_seen };

    ghost told_open = { λ conns _. told_where_open conns.connections.items conns.closed conns.is_open conns.within };

    fn listen(&mut self, port: u16) -> Result<(), ConnFault>
        ensures planned { IsErr result
            ↔ Contains (mem_conns_plan self.old).failing (counted (mem_conns_plan self.old).calls) }
        ensures plan { mem_conns_plan self.new
            ≡ record (mem_conns_plan self.old) { calls = counted (mem_conns_plan self.old).calls } }
        ensures listened { OnOk result
            ((mem_conns_seen self.new).listened ≡ listened_at (mem_conns_seen self.old) port) }
        ensures fault { OnErr result ((mem_conns_seen self.new).listened ≡ (mem_conns_seen self.old).listened) }
        ensures leaves { KeepsConnections (mem_conns_seen self.old) (mem_conns_seen self.new) }
        ensures open_as_before { self.new.is_open ≡ self.old.is_open }
        ensures faults { (mem_conns_seen self.new).listener_faults
            ≡ (if is_ok result then (mem_conns_seen self.old).listener_faults
            else counted (mem_conns_seen self.old).listener_faults) }
        ensures cause { OnErr result
            (Rose (mem_conns_seen self.old).listener_faults (mem_conns_seen self.new).listener_faults) }
    {
        if self.failures.next_fails() {
            count_fault(&mut self.listener_faults);
            return Err(ConnFault);
        }
        let accepted = self.accepted();
        self.listens = self.listens.saturating_add(1);
        self.last = Some(LastListen { port, accepted });
        Ok(())
    }

    fn accept(&mut self) -> Result<u64, ConnFault>
        requires { self.old.is_open ≡ false }
        ensures planned { Contains (mem_conns_plan self.old).failing (counted (mem_conns_plan self.old).calls)
            → IsErr result }
        ensures otherwise { IsErr result
            → (Contains (mem_conns_plan self.old).failing (counted (mem_conns_plan self.old).calls))
            ⊎ ((mem_conns_seen self.old).left ≡ []) }
        ensures plan { mem_conns_plan self.new
            ≡ record (mem_conns_plan self.old) { calls = counted (mem_conns_plan self.old).calls } }
        ensures opens { self.new.is_open ≡ is_ok result }
        ensures accepted { IfOk result
            (λ moment. AcceptsNext moment (mem_conns_seen self.old) (mem_conns_seen self.new)) }
        ensures fault { OnErr result ((mem_conns_seen self.new).left ≡ (mem_conns_seen self.old).left) }
        ensures closed { (mem_conns_seen self.new).closed ≡ (mem_conns_seen self.old).closed }
        ensures leaves { KeepsListening (mem_conns_seen self.old) (mem_conns_seen self.new) }
        ensures connection_faults { (mem_conns_seen self.new).connection_faults
            ≡ (mem_conns_seen self.old).connection_faults }
        ensures faults { (mem_conns_seen self.new).listener_faults
            ≡ (if is_ok result then (mem_conns_seen self.old).listener_faults
            else counted (mem_conns_seen self.old).listener_faults) }
        ensures cause { OnErr result
            (Rose (mem_conns_seen self.old).listener_faults (mem_conns_seen self.new).listener_faults) }
    {
        if self.failures.next_fails() {
            count_fault(&mut self.listener_faults);
            return Err(ConnFault);
        }
        if self.closed >= self.connections.len() {
            count_fault(&mut self.listener_faults);
            return Err(ConnFault);
        }
        let moment = self.connections[self.closed].begin();
        self.is_open = true;
        Ok(moment)
    }

    fn read(&mut self, buf: &mut [u8]) -> Result<usize, ConnFault>
        requires { IsTrue self.old.is_open }
        ensures planned { IsErr result
            ↔ Contains (mem_conns_plan self.old).failing (counted (mem_conns_plan self.old).calls) }
        ensures plan { mem_conns_plan self.new
            ≡ record (mem_conns_plan self.old) { calls = counted (mem_conns_plan self.old).calls } }
        ensures fits { IfOk result (λ count. count ≤ length buf.new) }
        ensures taken { IfOk result (λ count. (mem_conns_seen self.new).current
            ≡ option_map (with_taken count) (mem_conns_seen self.old).current) }
        ensures bytes { IfOk result (λ count. unread (mem_conns_seen self.old).current
            ≡ take count buf.new ++ unread (mem_conns_seen self.new).current) }
        ensures end { IfOk result (λ count. count ≡ 0
            → (length buf.old ≡ 0) ⊎ (unread (mem_conns_seen self.old).current ≡ [])) }
        ensures fault { OnErr result ((mem_conns_seen self.new).current
            ≡ option_map with_failed_read (mem_conns_seen self.old).current) }
        ensures leaves { ChangesCurrent (mem_conns_seen self.old) (mem_conns_seen self.new) }
        ensures open_as_before { self.new.is_open ≡ self.old.is_open }
        ensures faults { (mem_conns_seen self.new).connection_faults
            ≡ (if is_ok result then (mem_conns_seen self.old).connection_faults
            else counted (mem_conns_seen self.old).connection_faults) }
        ensures cause { OnErr result
            (Rose (mem_conns_seen self.old).connection_faults (mem_conns_seen self.new).connection_faults) }
    {
        if self.failures.next_fails() {
            self.connections[self.closed].fail_read();
            count_fault(&mut self.connection_faults);
            return Err(ConnFault);
        }
        Ok(self.connections[self.closed].read(buf))
    }

    fn write(&mut self, bytes: &[u8]) -> Result<(), ConnFault>
        requires { IsTrue self.old.is_open }
        ensures planned { Contains (mem_conns_plan self.old).failing (counted (mem_conns_plan self.old).calls)
            → IsErr result }
        ensures plan { mem_conns_plan self.new
            ≡ record (mem_conns_plan self.old) { calls = counted (mem_conns_plan self.old).calls } }
        ensures written { OnOk result ((mem_conns_seen self.new).current
            ≡ option_map (with_written bytes.now) (mem_conns_seen self.old).current) }
        ensures fault { OnErr result
            (FailsToWrite bytes.now (mem_conns_seen self.old).current (mem_conns_seen self.new).current) }
        ensures leaves { ChangesCurrent (mem_conns_seen self.old) (mem_conns_seen self.new) }
        ensures open_as_before { self.new.is_open ≡ self.old.is_open }
        ensures faults { (mem_conns_seen self.new).connection_faults
            ≡ (if is_ok result then (mem_conns_seen self.old).connection_faults
            else counted (mem_conns_seen self.old).connection_faults) }
        ensures cause { OnErr result
            (Rose (mem_conns_seen self.old).connection_faults (mem_conns_seen self.new).connection_faults) }
    {
        if self.failures.next_fails() {
            self.connections[self.closed].fail_write();
            count_fault(&mut self.connection_faults);
            return Err(ConnFault);
        }
        match self.connections[self.closed].write(bytes) {
            Ok(()) => Ok(()),
            Err(_) => {
                count_fault(&mut self.connection_faults);
                Err(ConnFault)
            }
        }
    }

    fn close(&mut self)
        ensures shut { self.new.is_open ≡ false }
        ensures closed { ClosesCurrent (mem_conns_seen self.old) (mem_conns_seen self.new) }
        ensures left { (mem_conns_seen self.new).left ≡ (mem_conns_seen self.old).left }
        ensures listened { (mem_conns_seen self.new).listened ≡ (mem_conns_seen self.old).listened }
        ensures listener_faults { (mem_conns_seen self.new).listener_faults
            ≡ (mem_conns_seen self.old).listener_faults }
        ensures connection_faults { (mem_conns_seen self.new).connection_faults
            ≡ (mem_conns_seen self.old).connection_faults }
        ensures plan { mem_conns_plan self.new ≡ mem_conns_plan self.old }
    {
        if self.is_open {
            self.closed += 1;
            self.is_open = false;
        }
    }
}
