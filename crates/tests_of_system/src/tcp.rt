ghost use Rattle.std.specs.Prelude.{◌≡◌, false};

use crate::exchange::answered;
use network::{ConnFault, Conns};
use std::io;
use std::io::{Read, Write};
use std::net::{Ipv4Addr, Net, OpenStream, Shutdown, TcpStream};
use std::process::Abort;
use std::time::{Clock, Duration};
use system_network::TcpConns;
use system_streams::moment;

/// What a client writes on its connection, and what is answered.
const EXCHANGES: &[(&[u8], &[u8])] = &[
    (b"\x80\0\0\x04call", b"\x80\0\0\x05reply"),
    (b"x", b""),
    (&[7; 64], &[8; 100]),
];

/// Whether connections that were not listened for have no port, and none of them is opened.
fn is_idle<'a, R: Net + Clock + Eprint>(conns: &mut TcpConns<'a, R>) -> bool
    requires { ⟦<TcpConns<'a, R> as Conns>⟧.is_open conns.old ≡ false }
    ensures { ⟦<TcpConns<'a, R> as Conns>⟧.is_open conns.new ≡ false }
{
    if conns.accept().is_ok() {
        conns.close();
        return false;
    }
    conns.port() == 0 && conns.failure().is_some()
}

/// A client of a port that has written its call and writes no more, and that waits ten seconds for an answer.
fn client<R: Net>(rt: &R, port: u16, call: &[u8]) -> io::Result<R::Stream> {
    let mut client = TcpStream::connect(rt, (Ipv4Addr::LOCALHOST, port))?;
    client.set_read_timeout(Some(Duration::from_secs(10)))?;
    client.write_all(call)?;
    client.shutdown(Shutdown::Write)?;
    Ok(client)
}

/// Whether a client gets these bytes, and then the end.
fn gets<S: Read>(client: &mut S, reply: &[u8]) -> io::Result<bool> {
    let mut answer = [0; 128];
    let mut len = 0;
    for _ in 0..answer.len() {
        let count = client.read(answer.get_mut(len..).unwrap_or(&mut []))?;
        if count == 0 {
            break;
        }
        len = len.saturating_add(count);
    }
    Ok(answer.get(..len) == Some(reply))
}

/// Whether a client's call is taken and answered, at a moment from the time before it on and not after the present one.
fn goes<'a, R: Net + Clock + Eprint>(
    rt: &R,
    conns: &mut TcpConns<'a, R>,
    exchange: &(&[u8], &[u8]),
) -> io::Result<bool>
    requires { ⟦<TcpConns<'a, R> as Conns>⟧.is_open conns.old ≡ false }
    ensures { ⟦<TcpConns<'a, R> as Conns>⟧.is_open conns.new ≡ false }
{
    let before = moment(rt)?;
    let mut client = client(rt, conns.port(), exchange.0)?;
    let Some(accepted) = answered(conns, exchange.0, exchange.1) else {
        return Ok(false);
    };
    let after = moment(rt)?;
    Ok(before <= accepted && accepted <= after && gets(&mut client, exchange.1)?)
}

/// Whether connections that are listened for are served, one after another.
fn all_go<R: Net + Clock + Eprint>(rt: &R, exchanges: &[(&[u8], &[u8])]) -> io::Result<bool> {
    let mut conns = TcpConns::new(rt);
    if !is_idle(&mut conns) {
        return Ok(false);
    }
    if conns.listen(0) == Err(ConnFault) {
        return Ok(false);
    }
    for exchange in exchanges {
        if !goes(rt, &mut conns, exchange)? {
            return Ok(false);
        }
    }
    Ok(true)
}

fn expect_exchanges<R: Net + Clock + Eprint + Abort>(rt: &R, exchanges: &[(&[u8], &[u8])]) {
    let found = all_go(rt, exchanges);
    assert!(rt; matches!(found, Ok(true)), "{found:?}");
}

#[test]
fn tcp_connections_give_their_bytes_and_take_answers(rt: HostRuntime) {
    expect_exchanges(&rt, EXCHANGES);
}
