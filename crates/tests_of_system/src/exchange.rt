ghost use Rattle.std.specs.Prelude.{◌≡◌, false, true};

use network::{Conns, Peer};

/// Whether the open connection gives just these bytes at once.
fn takes<C: Conns>(conns: &mut C, bytes: &[u8]) -> bool
    requires { C.is_open conns.old ≡ true }
    ensures { C.is_open conns.new ≡ true }
{
    let mut buf = [0; 64];
    match conns.read(&mut buf) {
        Ok(count) => buf.get(..count) == Some(bytes),
        Err(_) => false,
    }
}

/// Whether a call is taken on the open connection, is answered, and is the last one.
fn answers<C: Conns>(conns: &mut C, call: &[u8], reply: &[u8]) -> bool
    requires { C.is_open conns.old ≡ true }
    ensures { C.is_open conns.new ≡ true }
{
    let is_taken = takes(conns, call);
    let is_written = conns.write(reply).is_ok();
    let is_last = takes(conns, b"");
    is_taken && is_written && is_last
}

/// The moment of the next connection, where a call is taken on it, is answered, and is the last one. It is closed then.
pub fn answered<C: Conns>(conns: &mut C, call: &[u8], reply: &[u8]) -> Option<u64>
    requires { C.is_open conns.old ≡ false }
    ensures { C.is_open conns.new ≡ false }
{
    let Ok(moment) = conns.accept() else {
        return None;
    };
    let is_answered = answers(conns, call, reply);
    conns.close();
    if is_answered { Some(moment) } else { None }
}

/// Whether the next event of a peer is a datagram of which these bytes are given, or a quiet.
pub fn gives<P: Peer>(peer: &mut P, wanted: Option<&[u8]>) -> bool {
    let mut buf = [0; 4096];
    match peer.receive(&mut buf) {
        Ok(Some(len)) => buf.get(..len) == wanted,
        Ok(None) => wanted.is_none(),
        Err(_) => false,
    }
}
