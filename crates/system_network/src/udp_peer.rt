ghost use Rattle.std.specs.Prelude.{◌≡◌, ◌≤◌, IfOk, IfSome, Ok, OnErr, OnOk};
ghost use Rattle.outside.specs.Count.{Rose};

use network::{Peer, PeerFault};
use std::io;
use std::io::ErrorKind;
use std::net::{Ipv4Addr, Net, SocketAddr, UdpSocket};
use std::time::{Clock, Duration, Instant};
use system_streams::LinkFailure;

/// For how long no datagram of the server comes where there is a quiet, in seconds.
const QUIET: u64 = 2;

/// A socket of its own, and the port of the server that is asked.
#[derive(Drop)]
struct Asking {
    socket: UdpSocket,
    server: u16,
}

/// A server at a UDP port of 127.0.0.1. It tells nothing of what comes and goes, and of how it was started.
///
/// The socket is not connected, so that no server at the port is a quiet and not a fault.
#[derive(Drop)]
pub struct UdpPeer<'a, R> {
    system: &'a R,
    asking: Option<Asking>,
    faults: u64,
    failure: Option<LinkFailure>,
}

impl<'a, R: Net + Clock> UdpPeer<'a, R> {
    /// A peer that was not started yet.
    pub fn new(system: &'a R) -> Self
        ensures { (⟦<UdpPeer<'a, R> as Peer>⟧.seen result).faults ≡ 0 }
    {
        UdpPeer {
            system,
            asking: None,
            faults: 0,
            failure: None,
        }
    }

    /// The last call that failed, with the port of the server; none where none did.
    pub fn failure(&self) -> Option<LinkFailure> {
        self.failure
    }

    /// The port of the server; 0 before the peer was started.
    fn server(&self) -> u16 {
        match &self.asking {
            Some(asking) => asking.server,
            None => 0,
        }
    }

    /// Sends a datagram to the server.
    fn put(&self, bytes: &[u8]) -> io::Result<()> {
        let Some(asking) = &self.asking else {
            return Err(io::Error::from(ErrorKind::NotConnected));
        };
        let server = (Ipv4Addr::LOCALHOST, asking.server);
        if asking.socket.send_to(bytes, server)? < bytes.len() {
            return Err(io::Error::from(ErrorKind::WriteZero));
        }
        Ok(())
    }

    /// Waits for a datagram of the server, and answers how many of its bytes there are, or `None` where none came.
    /// Those of others are passed over. Each turn but the last one is one of those, or an interruption, so the bound on
    /// the turns is never met.
    fn take(&self, buf: &mut [u8; 4096]) -> io::Result<Option<usize>>
        ensures { IfOk result (λ got. IfSome got (λ len. len ≤ 4096)) }
    {
        let Some(asking) = &self.asking else {
            return Err(io::Error::from(ErrorKind::NotConnected));
        };
        let start = Instant::now(self.system)?;
        for _ in 0..u64::MAX {
            let left = Duration::from_secs(QUIET).saturating_sub(start.elapsed(self.system)?);
            if left.is_zero() {
                break;
            }
            if let Some(len) = asking.take_within(left, buf)? {
                return Ok(Some(len));
            }
        }
        Ok(None)
    }

    /// Turns an error of the system, at a call on a port, into a fault, which is counted and noted.
    fn counting<T>(&mut self, port: u16, answer: io::Result<T>) -> Result<T, PeerFault>
        ensures ok { IfOk result (λ value. answer ≡ Ok value) }
        ensures steady { OnOk result (self.new.faults ≡ self.old.faults) }
        ensures cause { OnErr result (Rose self.old.faults self.new.faults) }
        ensures later { self.old.faults ≤ self.new.faults }
    {
        match answer {
            Ok(value) => Ok(value),
            Err(error) => {
                self.failure = Some(LinkFailure { port, error });
                self.faults = self.faults.saturating_add(1);
                Err(PeerFault)
            }
        }
    }
}

impl Asking {
    /// A socket at a port of its own, to ask the server at a port.
    fn new<R: Net>(system: &R, server: u16) -> io::Result<Self> {
        let socket = UdpSocket::bind(system, (Ipv4Addr::LOCALHOST, 0))?;
        Ok(Asking { socket, server })
    }

    /// Waits so long for one datagram, which is not 0, and answers how many of its bytes there are where it is the
    /// server's. It answers `None` too where nothing came, or where a signal interrupts.
    fn take_within(&self, time: Duration, buf: &mut [u8; 4096]) -> io::Result<Option<usize>>
        ensures { IfOk result (λ got. IfSome got (λ len. len ≤ 4096)) }
    {
        self.socket.set_read_timeout(Some(time))?;
        match self.socket.recv_from(buf) {
            Ok((len, sender)) if self.is_server(&sender) => Ok(Some(len)),
            Ok(_) => Ok(None),
            Err(error) if error.kind() == ErrorKind::WouldBlock => Ok(None),
            Err(error) if error.kind() == ErrorKind::Interrupted => Ok(None),
            Err(error) => Err(error),
        }
    }

    /// Whether an address is that of the server.
    fn is_server(&self, address: &SocketAddr) -> bool {
        *address == SocketAddr::from((Ipv4Addr::LOCALHOST, self.server))
    }
}

impl<'a, R: Net + Clock> Peer for UdpPeer<'a, R> {
    ghost use Rattle.std.specs.Prelude.{None, false, []};

    ghost tells = { false };

    ghost seen = { λ peer. record {
      left = [];
      sent = [];
      started = record { times = 0; last = None };
      faults = peer.faults;
    } };

    fn start(&mut self, port: u16) -> Result<(), PeerFault> {
        let asking = Asking::new(self.system, port);
        self.asking = Some(self.counting(port, asking)?);
        Ok(())
    }

    fn send(&mut self, bytes: &[u8]) -> Result<(), PeerFault> {
        let sent = self.put(bytes);
        self.counting(self.server(), sent)
    }

    /// Gives the next datagram of the server, or `None` where none came for two seconds.
    fn receive(&mut self, buf: &mut [u8; 4096]) -> Result<Option<usize>, PeerFault> {
        let got = self.take(buf);
        self.counting(self.server(), got)
    }
}
