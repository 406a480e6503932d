ghost use Rattle.std.specs.Prelude.{◌≡◌, ◌≤◌, length, false, is_some, IfOk};
ghost use Rattle.outside.specs.Count.{counted};

use crate::open_connection::OpenConnection;
use network::{ConnFault, Conns};
use run_notes::Teller;
use std::io;
use std::io::{Eprint, ErrorKind};
use std::net::{Ipv4Addr, Net, OpenListener, TcpListener};
use std::time::Clock;
use system_streams::{LinkFailure, moment};

/// A socket that listens, with its port.
#[derive(Drop)]
struct Bound<L> {
    listener: L,
    port: u16,
}

/// Connections to a TCP socket on 127.0.0.1. They tell nothing of what comes and goes, but whether one is open.
///
/// A read fails for which nothing comes for 30 seconds, and a write of which nothing goes in 30 seconds of waiting, and
/// so does each one 300 seconds after the connection was accepted. A connection that ended before that is passed over.
#[derive(Drop)]
pub struct TcpConns<'a, R: Net> {
    system: &'a R,
    bound: Option<Bound<R::Listener>>,
    current: Option<OpenConnection<R::Stream>>,
    listener_faults: u64,
    connection_faults: u64,
    failure: Option<LinkFailure>,
    teller: Teller<'a>,
}

impl<'a, R: Net + Clock + Eprint> TcpConns<'a, R> {
    /// Connections that were not listened for yet.
    pub fn new(system: &'a R) -> Self
        ensures shut { ⟦<TcpConns<'a, R> as Conns>⟧.is_open result ≡ false }
        ensures listener_faults { (⟦<TcpConns<'a, R> as Conns>⟧.seen result).listener_faults ≡ 0 }
        ensures connection_faults { (⟦<TcpConns<'a, R> as Conns>⟧.seen result).connection_faults ≡ 0 }
    {
        TcpConns {
            system,
            bound: None,
            current: None,
            listener_faults: 0,
            connection_faults: 0,
            failure: None,
            teller: Teller::nobody(),
        }
    }

    /// The last call that failed; none where none did.
    pub fn failure(&self) -> Option<LinkFailure> {
        self.failure
    }

    /// Says at which port connections are accepted, once they are.
    pub fn tell_port(&mut self, teller: Teller<'a>)
        ensures current { is_some self.new.current ≡ is_some self.old.current }
        ensures listener_faults { self.new.listener_faults ≡ self.old.listener_faults }
        ensures connection_faults { self.new.connection_faults ≡ self.old.connection_faults }
    {
        self.teller = teller;
    }

    /// The port that the socket is bound to; 0 before it listened.
    pub fn port(&self) -> u16 {
        match &self.bound {
            Some(bound) => bound.port,
            None => 0,
        }
    }

    /// A socket that listens at a port, or at one that the system chooses where it is 0.
    fn bind(&self, port: u16) -> io::Result<Bound<R::Listener>> {
        let listener = TcpListener::bind(self.system, (Ipv4Addr::LOCALHOST, port))?;
        let port = listener.local_addr()?.port();
        Ok(Bound { listener, port })
    }

    /// Waits for a connection, and answers it with the moment. One that a signal interrupts, or that has ended already,
    /// is waited for again. Each turn but the last one is such a one, so the bound on the turns is never met.
    fn next(&self) -> io::Result<(OpenConnection<R::Stream>, u64)> {
        let Some(bound) = &self.bound else {
            return Err(io::Error::from(ErrorKind::NotConnected));
        };
        for _ in 0..u64::MAX {
            match bound.listener.accept() {
                Ok((stream, _)) => {
                    let connection = OpenConnection::new(self.system, stream)?;
                    return Ok((connection, moment(self.system)?));
                }
                Err(error) if is_passing(&error) => {}
                Err(error) => return Err(error),
            }
        }
        Err(io::Error::from(ErrorKind::TimedOut))
    }

    /// Counts and notes a fault of `listen` or `accept`, at a port.
    fn fail_listener(&mut self, port: u16, error: io::Error) -> ConnFault
        ensures listener_faults { self.new.listener_faults ≡ counted self.old.listener_faults }
        ensures later { self.old.listener_faults ≤ self.new.listener_faults }
        ensures connection_faults { self.new.connection_faults ≡ self.old.connection_faults }
        ensures current { is_some self.new.current ≡ is_some self.old.current }
    {
        self.failure = Some(LinkFailure { port, error });
        self.listener_faults = self.listener_faults.saturating_add(1);
        ConnFault
    }

    /// Counts and notes a fault of `read` or `write`.
    fn fail_connection(&mut self, error: io::Error) -> ConnFault
        ensures connection_faults { self.new.connection_faults ≡ counted self.old.connection_faults }
        ensures later { self.old.connection_faults ≤ self.new.connection_faults }
        ensures listener_faults { self.new.listener_faults ≡ self.old.listener_faults }
        ensures current { is_some self.new.current ≡ is_some self.old.current }
    {
        let port = self.port();
        self.failure = Some(LinkFailure { port, error });
        self.connection_faults = self.connection_faults.saturating_add(1);
        ConnFault
    }

    /// Takes bytes of the open connection.
    fn take(&mut self, buf: &mut [u8]) -> io::Result<usize>
        ensures fits { IfOk result (λ count. count ≤ length buf.new) }
        ensures current { is_some self.new.current ≡ is_some self.old.current }
        ensures listener_faults { self.new.listener_faults ≡ self.old.listener_faults }
        ensures connection_faults { self.new.connection_faults ≡ self.old.connection_faults }
    {
        match &mut self.current {
            Some(connection) => connection.read(self.system, buf),
            None => Err(io::Error::from(ErrorKind::NotConnected)),
        }
    }

    /// Writes bytes on the open connection.
    fn put(&mut self, bytes: &[u8]) -> io::Result<()>
        ensures current { is_some self.new.current ≡ is_some self.old.current }
        ensures listener_faults { self.new.listener_faults ≡ self.old.listener_faults }
        ensures connection_faults { self.new.connection_faults ≡ self.old.connection_faults }
    {
        match &mut self.current {
            Some(connection) => connection.write(self.system, bytes),
            None => Err(io::Error::from(ErrorKind::NotConnected)),
        }
    }
}

/// Whether an error of `accept` says that a signal interrupted it, or that the connection has ended already, so that
/// the next one may come. Source: accept(2).
fn is_passing(error: &io::Error) -> bool {
    let kind = error.kind();
    kind == ErrorKind::Interrupted || kind == ErrorKind::ConnectionAborted
}

impl<'a, R: Net + Clock + Eprint> Conns for TcpConns<'a, R> {
    ghost use Rattle.std.specs.Prelude.{None, []};
    ghost use Rattle.std.proofs.lemmas.Bool.{false≢true};

    ghost tells = { false };

    ghost is_open = { λ conns. is_some conns.current };

    ghost seen = { λ conns. record {
      left = [];
      current = None;
      closed = [];
      listened = record { times = 0; last = None };
      listener_faults = conns.listener_faults;
      connection_faults = conns.connection_faults;
    } };

    ghost told_open = { λ _ told. absurd (false≢true told) };

    /// Listens at a port. A socket that has the port already is kept, and so are the connections that wait in it.
    fn listen(&mut self, port: u16) -> Result<(), ConnFault> {
        if port != 0 && self.port() == port {
            return Ok(());
        }
        match self.bind(port) {
            Ok(bound) => {
                let port = bound.port;
                self.teller
                    .tell_port(self.system, "serves rquota at TCP port", port);
                self.bound = Some(bound);
                Ok(())
            }
            Err(error) => Err(self.fail_listener(port, error)),
        }
    }

    fn accept(&mut self) -> Result<u64, ConnFault> {
        match self.next() {
            Ok((connection, now)) => {
                self.current = Some(connection);
                Ok(now)
            }
            Err(error) => Err(self.fail_listener(self.port(), error)),
        }
    }

    fn read(&mut self, buf: &mut [u8]) -> Result<usize, ConnFault> {
        match self.take(buf) {
            Ok(count) => Ok(count),
            Err(error) => Err(self.fail_connection(error)),
        }
    }

    fn write(&mut self, bytes: &[u8]) -> Result<(), ConnFault> {
        match self.put(bytes) {
            Ok(()) => Ok(()),
            Err(error) => Err(self.fail_connection(error)),
        }
    }

    fn close(&mut self) {
        self.current = None;
    }
}
