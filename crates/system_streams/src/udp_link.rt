ghost use Rattle.std.specs.Prelude.{◌≡◌, ◌≤◌, IfOk, Ok, OnErr};
ghost use Rattle.outside.specs.Count.{Rose};

use crate::moment;
use outside::{Got, Link, LinkFault};
use run_notes::Teller;
use std::io;
use std::io::{Eprint, ErrorKind};
use std::net::{Ipv4Addr, Net, SocketAddr, UdpSocket};
use std::time::Clock;

/// A socket that takes the datagrams sent to it, with its port, and whoever sent the last one.
#[derive(Drop)]
struct Bound {
    socket: UdpSocket,
    port: u16,
    sender: Option<SocketAddr>,
}

/// A call on a link that the system refused.
#[derive(Clone, Copy)]
pub struct LinkFailure {
    /// The port that was asked for, or that the socket is bound to.
    pub port: u16,
    /// Why it was refused.
    pub error: io::Error,
}

/// A UDP socket on 127.0.0.1 as a link. It tells nothing of the datagrams, the answers and how it was started.
#[derive(Drop)]
pub struct UdpLink<'a, R> {
    system: &'a R,
    bound: Option<Bound>,
    faults: u64,
    failure: Option<LinkFailure>,
    teller: Teller<'a>,
}

impl<'a, R: Net + Clock + Eprint> UdpLink<'a, R> {
    /// A link that was not started yet.
    pub fn new(system: &'a R) -> Self
        ensures { result.faults ≡ 0 }
    {
        UdpLink {
            system,
            bound: None,
            faults: 0,
            failure: None,
            teller: Teller::nobody(),
        }
    }

    /// The last call that failed; none where none did.
    pub fn failure(&self) -> Option<LinkFailure> {
        self.failure
    }

    /// Says to which port the socket is bound, once it is.
    pub fn tell_port(&mut self, teller: Teller<'a>)
        ensures { self.new.faults ≡ self.old.faults }
    {
        self.teller = teller;
    }

    /// The port that the socket is bound to; 0 before the link was started.
    pub fn port(&self) -> u16 {
        match &self.bound {
            Some(bound) => bound.port,
            None => 0,
        }
    }

    /// Binds a socket to a port, or to one that the system chooses where it is 0. A socket that has the port already is
    /// kept, and so are the datagrams that wait in it.
    fn bind(&mut self, port: u16) -> io::Result<()>
        ensures { self.new.faults ≡ self.old.faults }
    {
        if port != 0 && self.port() == port {
            return Ok(());
        }
        let socket = UdpSocket::bind(self.system, (Ipv4Addr::LOCALHOST, port))?;
        let port = socket.local_addr()?.port();
        self.bound = Some(Bound {
            socket,
            port,
            sender: None,
        });
        self.teller
            .tell_port(self.system, "serves rquota at UDP port", port);
        Ok(())
    }

    /// Waits for a datagram, and answers how many of its bytes there are, and the moment.
    fn receive(&mut self, buf: &mut [u8; 4096]) -> io::Result<Got>
        ensures fits { IfOk result (λ got. got.len ≤ 4096) }
        ensures faults { self.new.faults ≡ self.old.faults }
    {
        let Some(bound) = &mut self.bound else {
            return Err(io::Error::from(ErrorKind::NotConnected));
        };
        let (len, sender) = bound.socket.recv_from(buf)?;
        bound.sender = Some(sender);
        let now = moment(self.system)?;
        Ok(Got { len, now })
    }

    /// Sends an answer to whoever sent the last datagram.
    fn send(&self, bytes: &[u8]) -> io::Result<()> {
        let Some(bound) = &self.bound else {
            return Err(io::Error::from(ErrorKind::NotConnected));
        };
        let Some(sender) = bound.sender else {
            return Err(io::Error::from(ErrorKind::NotConnected));
        };
        if bound.socket.send_to(bytes, sender)? < bytes.len() {
            return Err(io::Error::from(ErrorKind::WriteZero));
        }
        Ok(())
    }

    /// Turns an error of the system, at a call on a port, into a fault, which is counted and noted.
    fn counting<T>(&mut self, port: u16, answer: io::Result<T>) -> Result<T, LinkFault>
        ensures ok { IfOk result (λ value. answer ≡ Ok value) }
        ensures cause { OnErr result (Rose self.old.faults self.new.faults) }
        ensures later { self.old.faults ≤ self.new.faults }
    {
        match answer {
            Ok(value) => Ok(value),
            Err(error) => {
                self.failure = Some(LinkFailure { port, error });
                self.faults = self.faults.saturating_add(1);
                Err(LinkFault)
            }
        }
    }
}

impl<'a, R: Net + Clock + Eprint> Link for UdpLink<'a, R> {
    ghost use Rattle.std.specs.Prelude.{None, false, []};

    ghost tells = { false };

    ghost seen = { λ link. record {
      left = [];
      answers = [];
      started = record { times = 0; last = None };
      faults = link.faults;
    } };

    fn start(&mut self, port: u16) -> Result<(), LinkFault> {
        let bound = self.bind(port);
        self.counting(port, bound)
    }

    fn next(&mut self, buf: &mut [u8; 4096]) -> Result<Got, LinkFault> {
        let got = self.receive(buf);
        self.counting(self.port(), got)
    }

    fn answer(&mut self, bytes: &[u8]) -> Result<(), LinkFault> {
        let sent = self.send(bytes);
        self.counting(self.port(), sent)
    }
}
