use outside::{Link, LinkFault};
use std::io;
use std::net::{Ipv4Addr, Net, UdpSocket};
use std::process::Abort;
use std::time::{Clock, Duration};
use system_streams::{UdpLink, moment};

/// A call that asks for the quota of user 1000 under `/home`, from that user.
const CALL: &[u8] =
    b"\0\0\0\x01\0\0\0\0\0\0\0\x02\0\x01\x86\xab\0\0\0\x01\0\0\0\x01\0\0\0\x01\0\0\0\x18\0\0\0\0\0\0\0\x01h\0\0\0\0\0\x03\xe8\0\0\x03\xe8\0\0\0\0\0\0\0\0\0\0\0\0\0\0\0\x05/home\0\0\0\0\0\x03\xe8";

/// The reply to it, with limits and usage.
const REPLY: &[u8] =
    b"\0\0\0\x01\0\0\0\x01\0\0\0\0\0\0\0\0\0\0\0\0\0\0\0\0\0\0\0\x01\0\0\x04\0\0\0\0\x01\0\0\0\xc8\0\0\0\x64\0\0\0\x04\0\0\0\x14\0\0\0\x0a\0\0\0\x01\0\0\0\0\0\0\0\0";

/// A datagram, what the link gives of it, and what is answered.
type Exchange = (&'static [u8], &'static [u8], &'static [u8]);

const EXCHANGES: &[Exchange] = &[
    (CALL, CALL, REPLY),
    (b"", b"", b"told"),
    (&[7; 4097], &[7; 4096], b"told"),
];

/// Whether a link that was not started has no port, gives nothing and answers nothing.
fn is_idle<R: Net + Clock + Eprint>(link: &mut UdpLink<'_, R>) -> bool {
    let mut buf = [0; 4096];
    link.port() == 0
        && link.next(&mut buf) == Err(LinkFault)
        && link.answer(b"early") == Err(LinkFault)
}

/// Whether a link starts, and answers nothing before a datagram came.
fn is_started<R: Net + Clock + Eprint>(link: &mut UdpLink<'_, R>) -> bool {
    link.start(0) == Ok(()) && link.port() != 0 && link.answer(b"early") == Err(LinkFault)
}

/// One who waits ten seconds for an answer.
fn asker<R: Net>(rt: &R) -> io::Result<UdpSocket> {
    let asker = UdpSocket::bind(rt, (Ipv4Addr::LOCALHOST, 0))?;
    asker.set_read_timeout(Some(Duration::from_secs(10)))?;
    Ok(asker)
}

/// Whether a link gives these bytes, at a moment from this one on and not after the present one.
fn gives<R: Net + Clock + Eprint>(
    rt: &R,
    link: &mut UdpLink<'_, R>,
    taken: &[u8],
    before: u64,
) -> io::Result<bool> {
    let mut buf = [0; 4096];
    let Ok(got) = link.next(&mut buf) else {
        return Ok(false);
    };
    let after = moment(rt)?;
    Ok(buf.get(..got.len) == Some(taken) && before <= got.now && got.now <= after)
}

/// Whether the asker gets these bytes from a port.
fn gets(asker: &UdpSocket, reply: &[u8], port: u16) -> io::Result<bool> {
    let mut answer = [0; 128];
    let (len, from) = asker.recv_from(&mut answer)?;
    Ok(answer.get(..len) == Some(reply) && from.port() == port)
}

/// Whether a datagram is taken and answered.
fn goes<R: Net + Clock + Eprint>(
    rt: &R,
    link: &mut UdpLink<'_, R>,
    asker: &UdpSocket,
    exchange: &Exchange,
) -> io::Result<bool> {
    let before = moment(rt)?;
    asker.send_to(exchange.0, (Ipv4Addr::LOCALHOST, link.port()))?;
    let is_taken = gives(rt, link, exchange.1, before)? && link.answer(exchange.2) == Ok(());
    Ok(is_taken && gets(asker, exchange.2, link.port())?)
}

/// Whether a link that starts takes datagrams and answers them, one after another.
fn all_go<R: Net + Clock + Eprint>(rt: &R, exchanges: &[Exchange]) -> io::Result<bool> {
    let mut link = UdpLink::new(rt);
    let asker = asker(rt)?;
    if !is_idle(&mut link) || !is_started(&mut link) {
        return Ok(false);
    }
    for exchange in exchanges {
        if !goes(rt, &mut link, &asker, exchange)? {
            return Ok(false);
        }
    }
    Ok(true)
}

fn expect_exchanges<R: Net + Clock + Eprint + Abort>(rt: &R, exchanges: &[Exchange]) {
    let found = all_go(rt, exchanges);
    assert!(rt; matches!(found, Ok(true)), "{found:?}");
}

#[test]
fn a_udp_link_takes_datagrams_and_answers_their_sender(rt: HostRuntime) {
    expect_exchanges(&rt, EXCHANGES);
}
