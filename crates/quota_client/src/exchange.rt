ghost use Rattle.std.specs.Prelude.{◌≡◌, ◌≤◌, length, None, IsTrue, IfNone, IfOk, IfSome, OnErr, OnOk};
ghost use Rattle.outside.specs.Count.{Rose};
ghost use Rattle.network.specs.Events.{KeepsStart};
ghost use Rattle.rquota_xdr.specs.Reply.{reply_xid};
ghost use Rattle.rquota_xdr.specs.declared.reply.Reply.{Reply};
ghost use Rattle.quota_client.specs.Exchange.{Begins, Exchanges, IsReplyTo};
ghost use Rattle.quota_client.specs.Receiving.{Attempts, HasXid, IsRead, Receives, StopsBehind};

use network::{Peer, PeerFault};
use rquota_xdr::{Reply, read_reply};

/// How often a call is sent at most.
const ATTEMPTS: usize = 3;

/// How many other datagrams an attempt passes over at most.
const MOST_OTHERS: usize = 64;

/// What was received.
#[derive(Clone, Copy)]
pub(crate) enum Received {
    /// A quiet: no datagram came.
    Quiet,
    /// A datagram that is no reply to the call.
    Other,
    /// A datagram that is a reply to the call.
    Answer(Reply),
}

/// Asks a server: sends the call up to three times, and answers the first reply with this xid, or none.
///
/// Behind each call datagrams are received up to the first one that is such a reply, or up to a quiet, or until there
/// were 64 others. So replies to other calls are passed over, whether they come late, twice or out of order, and so is
/// whatever is no reply. No memory of the heap is taken.
///
/// `call` has at most 1,092 bytes, as `write_call` makes them, and `xid` is the number that it begins with: what is
/// sent is not looked at here.
///
/// # Errors
///
/// The peer failed. The exchange was begun, and what was taken of the events does not complete it.
pub fn ask<P: Peer>(peer: &mut P, xid: u32, call: &[u8]) -> Result<Option<Reply>, PeerFault>
    requires { length call.now ≤ 1092 }
    ensures exchanged { IfOk result (λ reply. IsTrue P.tells
        → Exchanges xid call.now (P.seen peer.old) (P.seen peer.new) reply) }
    ensures begun { OnErr result (IsTrue P.tells → Begins xid call.now (P.seen peer.old) (P.seen peer.new)) }
    // Whatever the peer tells, a reply has this xid.
    ensures own { IfOk result (λ reply. IfSome reply (λ found. reply_xid found ≡ xid)) }
    ensures steady { OnOk result ((P.seen peer.new).faults ≡ (P.seen peer.old).faults) }
    ensures cause { OnErr result (Rose (P.seen peer.old).faults (P.seen peer.new).faults) }
    ensures leaves { KeepsStart (P.seen peer.old) (P.seen peer.new) }
{
    for _attempt in 0..ATTEMPTS {
        peer.send(call)?;
        if let Some(reply) = await_reply(peer, xid)? {
            return Ok(Some(reply));
        }
    }
    Ok(None)
}

/// What one attempt receives behind its call: the first reply with this xid, or none where a quiet or 64 other
/// datagrams come before.
fn await_reply<P: Peer>(peer: &mut P, xid: u32) -> Result<Option<Reply>, PeerFault>
    ensures attempted { IfOk result (λ reply. IsTrue P.tells
        → Attempts xid (P.seen peer.old) (P.seen peer.new) reply) }
    ensures stopped { OnErr result (IsTrue P.tells → StopsBehind xid (P.seen peer.old) (P.seen peer.new)) }
    ensures own { IfOk result (λ reply. IfSome reply (λ found. reply_xid found ≡ xid)) }
    ensures steady { OnOk result ((P.seen peer.new).faults ≡ (P.seen peer.old).faults) }
    ensures cause { OnErr result (Rose (P.seen peer.old).faults (P.seen peer.new).faults) }
    ensures leaves { KeepsStart (P.seen peer.old) (P.seen peer.new) }
{
    let mut buf = [0; 4096];
    for _other in 0..MOST_OTHERS {
        match receive(peer, xid, &mut buf)? {
            Received::Quiet => return Ok(None),
            Received::Answer(reply) => return Ok(Some(reply)),
            Received::Other => {}
        }
    }
    Ok(None)
}

/// Receives one event.
fn receive<P: Peer>(peer: &mut P, xid: u32, buf: &mut [u8; 4096]) -> Result<Received, PeerFault>
    ensures received { IfOk result (λ received. IsTrue P.tells
        → Receives xid (P.seen peer.old) (P.seen peer.new) received) }
    ensures own { IfOk result (HasXid xid) }
    ensures fault { OnErr result (IsTrue P.tells → (P.seen peer.new).left ≡ (P.seen peer.old).left) }
    ensures sent { (P.seen peer.new).sent ≡ (P.seen peer.old).sent }
    ensures steady { OnOk result ((P.seen peer.new).faults ≡ (P.seen peer.old).faults) }
    ensures cause { OnErr result (Rose (P.seen peer.old).faults (P.seen peer.new).faults) }
    ensures leaves { KeepsStart (P.seen peer.old) (P.seen peer.new) }
{
    match peer.receive(buf)? {
        None => Ok(Received::Quiet),
        Some(len) => Ok(read_datagram(&buf[..len], xid)),
    }
}

/// What a datagram is.
fn read_datagram(datagram: &[u8], xid: u32) -> Received
    ensures { IsRead xid datagram.now result }
{
    match reply_to(datagram, xid) {
        Some(reply) => Received::Answer(reply),
        None => Received::Other,
    }
}

/// The reply with this xid that the bytes spell, where they do.
fn reply_to(bytes: &[u8], xid: u32) -> Option<Reply>
    ensures own { IfSome result (IsReplyTo xid bytes.now) }
    ensures none { IfNone result ((reply : Reply) → ¬ IsReplyTo xid bytes.now reply) }
{
    let reply = read_reply(bytes)?;
    if xid_of(reply) == xid {
        Some(reply)
    } else {
        None
    }
}

/// The xid of a reply.
fn xid_of(reply: Reply) -> u32
    ensures { result ≡ reply_xid reply }
{
    match reply {
        Reply::OldRpc { xid }
        | Reply::NoProgram { xid }
        | Reply::NoVersion { xid }
        | Reply::NoProcedure { xid }
        | Reply::Auth { xid, .. }
        | Reply::Garbage { xid }
        | Reply::Null { xid }
        | Reply::Quota { xid, .. }
        | Reply::NoQuota { xid }
        | Reply::Denied { xid } => xid,
    }
}
