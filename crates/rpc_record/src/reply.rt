ghost use Rattle.std.specs.Prelude.{◌≡◌, ◌≤◌, take, IsTrue, OnErr, OnOk};
ghost use Rattle.std.specs.Option.{option_map};
ghost use Rattle.network.specs.Connections.{ChangesCurrent, FailsToWrite, with_written};
ghost use Rattle.rpc_record.specs.Answers.{marked, reply_bytes};
ghost use Rattle.rquota_xdr.specs.Reply.{spelling_of};

use network::{ConnFault, Conns};
use rquota_xdr::{Reply, write_reply};

/// The bit of a head that marks the last fragment of a record.
const LAST: u32 = 0x8000_0000;

/// Writes a reply on the open connection, where there is one, as a record of one fragment. It is one call of `write`.
///
/// # Errors
///
/// The connection failed. A prefix of the record was written.
pub(crate) fn send<C: Conns>(conns: &mut C, reply: Option<Reply>) -> Result<(), ConnFault>
    requires { IsTrue (C.is_open conns.old) }
    ensures sent { OnOk result (IsTrue C.tells
        → (C.seen conns.new).current ≡ option_map (with_written (reply_bytes reply)) (C.seen conns.old).current) }
    ensures unsent { OnErr result (IsTrue C.tells
        → FailsToWrite (reply_bytes reply) (C.seen conns.old).current (C.seen conns.new).current) }
    ensures leaves { ChangesCurrent (C.seen conns.old) (C.seen conns.new) }
    ensures open_as_before { C.is_open conns.new ≡ C.is_open conns.old }
{
    let Some(reply) = reply else {
        return Ok(());
    };
    let mut out = [0; 72];
    let len = put_record(&reply, &mut out);
    conns.write(&out[..len])
}

/// Writes a reply as a record of one fragment at the start of the buffer, and answers how many bytes that are.
fn put_record(reply: &Reply, out: &mut [u8; 72]) -> usize
    ensures record { take result out.new ≡ marked (spelling_of reply.now) }
    ensures fits { result ≤ 72 }
{
    let mut spelled = [0; 68];
    let len = write_reply(reply, &mut spelled);
    let head = LAST + len as u32;
    out[..4].copy_from_slice(&head.to_be_bytes());
    out[4..4 + len].copy_from_slice(&spelled[..len]);
    4 + len
}
