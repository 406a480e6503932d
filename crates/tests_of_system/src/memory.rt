ghost use Rattle.std.specs.Prelude.{◌≡◌, false, IfOk};

use crate::exchange::{answered, gives};
use memory_network::{MemConns, MemPeer};
use network::{Conns, Peer};
use std::alloc::{AllocError, Global};
use std::process::Abort;

/// One connection, which comes at second 7.
fn one_connection(alloc: Global) -> Result<MemConns, AllocError>
    ensures { IfOk result (λ conns. ⟦<MemConns as Conns>⟧.is_open conns ≡ false) }
{
    let mut connections = Vec::new(alloc);
    connections.push((7, Vec::from_slice(alloc, b"call")?))?;
    MemConns::new(alloc, connections, Vec::new(alloc))
}

/// A quiet, and then a datagram.
fn two_events(alloc: Global) -> Result<MemPeer, AllocError> {
    let mut events = Vec::new(alloc);
    events.push(None)?;
    events.push(Some(Vec::from_slice(alloc, b"reply")?))?;
    Ok(MemPeer::new(events, Vec::new(alloc)))
}

/// Whether connections tell the port that was listened at, and what was written on the first one.
fn tells_written(conns: &MemConns, port: u16, bytes: &[u8]) -> bool {
    if conns.count() == 0 {
        return false;
    }
    conns.port() == Some(port) && conns.listens() == 1 && conns.written(0) == bytes
}

/// Whether connections in memory are served.
fn conns_go(alloc: Global) -> Result<bool, AllocError> {
    let mut conns = one_connection(alloc)?;
    let listens = conns.listen(875).is_ok();
    let moment = answered(&mut conns, b"call", b"reply");
    Ok(listens && moment == Some(7) && tells_written(&conns, 875, b"reply"))
}

/// Whether a peer tells the port at which it was started, and the one datagram that was sent.
fn tells_sent(peer: &MemPeer, port: u16, bytes: &[u8]) -> bool {
    match peer.sent() {
        [sent] => peer.port() == Some(port) && peer.starts() == 1 && sent.as_slice() == bytes,
        _ => false,
    }
}

/// Whether a peer in memory gives its events, and fails once none is left.
fn peer_goes(alloc: Global) -> Result<bool, AllocError> {
    let mut peer = two_events(alloc)?;
    let starts = peer.start(875).is_ok();
    let sends = peer.send(b"call").is_ok();
    let gives_both = gives(&mut peer, None) && gives(&mut peer, Some(b"reply"));
    let is_over = peer.receive(&mut [0; 4096]).is_err();
    Ok(starts && sends && gives_both && is_over && tells_sent(&peer, 875, b"call"))
}

fn expect_both<R: AllocGlobal + Abort>(rt: &R) {
    let conns = conns_go(rt.alloc());
    assert!(rt; conns == Ok(true), "{conns:?}");
    let peer = peer_goes(rt.alloc());
    assert!(rt; peer == Ok(true), "{peer:?}");
}

#[test]
fn the_network_in_memory_gives_what_it_was_made_with(rt: HostRuntime) {
    expect_both(&rt);
}
