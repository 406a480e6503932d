use crate::exchange::gives;
use network::{Peer, PeerFault};
use std::io;
use std::net::{Ipv4Addr, Net, SocketAddr, UdpSocket};
use std::process::Abort;
use std::time::{Clock, Duration, Instant};
use system_network::UdpPeer;

/// A datagram of the server, and what the peer gives of it.
const ANSWERS: &[(&[u8], &[u8])] = &[(b"reply", b"reply"), (b"", b""), (&[7; 4097], &[7; 4096])];

/// Whether a peer that was not started sends nothing and gives nothing.
fn is_idle<R: Net + Clock>(peer: &mut UdpPeer<'_, R>) -> bool {
    let is_unsent = peer.send(b"early") == Err(PeerFault);
    let mut buf = [0; 4096];
    let is_ungiven = peer.receive(&mut buf) == Err(PeerFault);
    is_unsent && is_ungiven && peer.failure().is_some()
}

/// Who sent these bytes to a server, where they came.
fn asker(server: &UdpSocket, call: &[u8]) -> io::Result<Option<SocketAddr>> {
    let mut buf = [0; 64];
    let (len, asker) = server.recv_from(&mut buf)?;
    if buf.get(..len) == Some(call) {
        Ok(Some(asker))
    } else {
        Ok(None)
    }
}

/// Whether a call reaches the server, and a peer gives its answer and not that of a stranger which came first. The
/// answer is in the socket before it is asked for.
fn goes<R: Net + Clock>(
    peer: &mut UdpPeer<'_, R>,
    server: &UdpSocket,
    stranger: &UdpSocket,
    answer: &(&[u8], &[u8]),
) -> io::Result<bool> {
    if peer.send(b"call") == Err(PeerFault) {
        return Ok(false);
    }
    let Some(asker) = asker(server, b"call")? else {
        return Ok(false);
    };
    stranger.send_to(b"stray", asker)?;
    server.send_to(answer.0, asker)?;
    Ok(gives(peer, Some(answer.1)))
}

/// Whether a peer sends to a port where no server is, and gives a quiet after two seconds.
fn is_quiet<R: Net + Clock>(rt: &R, peer: &mut UdpPeer<'_, R>) -> io::Result<bool> {
    let is_sent = peer.send(b"call") == Ok(());
    let start = Instant::now(rt)?;
    let is_quiet = gives(peer, None);
    let time = start.elapsed(rt)?;
    Ok(is_sent && is_quiet && time >= Duration::from_secs(2) && time < Duration::from_secs(10))
}

/// Whether a peer that is started sends calls and gives the answers of its server, one after another, and a quiet once
/// the server is gone.
fn all_go<R: Net + Clock>(rt: &R, answers: &[(&[u8], &[u8])]) -> io::Result<bool> {
    let mut peer = UdpPeer::new(rt);
    let server = UdpSocket::bind(rt, (Ipv4Addr::LOCALHOST, 0))?;
    let stranger = UdpSocket::bind(rt, (Ipv4Addr::LOCALHOST, 0))?;
    server.set_read_timeout(Some(Duration::from_secs(10)))?;
    if !is_idle(&mut peer) || peer.start(server.local_addr()?.port()) == Err(PeerFault) {
        return Ok(false);
    }
    for answer in answers {
        if !goes(&mut peer, &server, &stranger, answer)? {
            return Ok(false);
        }
    }
    drop(server);
    is_quiet(rt, &mut peer)
}

fn expect_answers<R: Net + Clock + Abort>(rt: &R, answers: &[(&[u8], &[u8])]) {
    let found = all_go(rt, answers);
    assert!(rt; matches!(found, Ok(true)), "{found:?}");
}

#[test]
fn a_udp_peer_gives_the_datagrams_of_its_server(rt: HostRuntime) {
    expect_answers(&rt, ANSWERS);
}
