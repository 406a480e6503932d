ghost use Rattle.std.specs.Prelude.{◌≡◌, ◌*◌, ◌≤◌, ◌++◌, [], map, IsSome, IsTrue, IfErr, OnErr, OnOk};
ghost use Rattle.std.specs.Option.{option_to_list};
ghost use Rattle.outside.specs.Count.{Rose};
ghost use Rattle.quota_map.specs.AnyFile.{any_get_reads};
ghost use Rattle.rquota_xdr.specs.Reply.{spelling_of};
ghost use Rattle.rquota_serve.specs.Exports.{Serves};
ghost use Rattle.rquota_serve.specs.Looking.{LooksUpIn, exports_at};
ghost use Rattle.rquota_serve.specs.Refusal.{OnLink, file_in};
ghost use Rattle.rquota_serve.specs.Serving.{Stopped};
ghost use Rattle.rquota_serve.specs.Served.{ReadsForTaken, Served};

use crate::{Exports, ServeFault, answer};
use outside::{Link, LinkFault, Store};
use rquota_xdr::{Reply, write_reply};

/// Takes exactly `calls` datagrams from a link, those without a reply counted too, and sends the reply to each, at its
/// own moment. A datagram is read by its first 4,096 bytes. The link is not started by it. No memory is taken.
///
/// # Errors
///
/// The link failed, or an exported file did. The answers that were sent are then those to the datagrams before the one
/// at hand; fewer than `calls` were taken, or the reply to the last one that was taken was not sent.
pub fn serve<S: Store, L: Link>(
    exports: &mut Exports,
    store: &mut S,
    link: &mut L,
    calls: u32,
) -> Result<(), ServeFault>
    ensures served { OnOk result (IsTrue L.tells → Served (Serves S.tells (S.seen store.old).files exports.old) calls
        (L.seen link.old) (L.seen link.new)) }
    ensures stopped { OnErr result (IsTrue L.tells → Stopped (Serves S.tells (S.seen store.old).files exports.old) calls
        (L.seen link.old) (L.seen link.new)) }
    ensures looks { LooksUpIn file_in (exports_at S.tells (S.seen store.old) exports.old)
        (exports_at S.tells (S.seen store.new) exports.new) (any_get_reads * calls) result }
    // Whatever it answers, only a datagram that was taken makes calls of `read`, and at most `any_get_reads` of them.
    ensures reads { IsTrue L.tells → ReadsForTaken any_get_reads (L.seen link.old) (L.seen link.new)
        (S.seen store.old).reads (S.seen store.new).reads }
    // Nothing is committed.
    ensures commits { S.commits [] store.old store.new }
    ensures started { (L.seen link.new).started ≡ (L.seen link.old).started }
    ensures unlinked { IfErr result (λ fault. OnLink fault (Rose (L.seen link.old).faults (L.seen link.new).faults)) }
    ensures later { (L.seen link.old).faults ≤ (L.seen link.new).faults }
{
    let mut buf = [0; 4096];
    for _call in 0..calls {
        serve_one(exports, store, link, &mut buf)?;
    }
    Ok(())
}

/// The same, of one datagram.
fn serve_one<S: Store, L: Link>(
    exports: &mut Exports,
    store: &mut S,
    link: &mut L,
    buf: &mut [u8; 4096],
) -> Result<(), ServeFault>
    ensures served { OnOk result (IsTrue L.tells → Served (Serves S.tells (S.seen store.old).files exports.old) 1
        (L.seen link.old) (L.seen link.new)) }
    ensures stopped { OnErr result (IsTrue L.tells → Stopped (Serves S.tells (S.seen store.old).files exports.old) 1
        (L.seen link.old) (L.seen link.new)) }
    ensures looks { LooksUpIn file_in (exports_at S.tells (S.seen store.old) exports.old)
        (exports_at S.tells (S.seen store.new) exports.new) any_get_reads result }
    ensures reads { IsTrue L.tells → ReadsForTaken any_get_reads (L.seen link.old) (L.seen link.new)
        (S.seen store.old).reads (S.seen store.new).reads }
    ensures commits { S.commits [] store.old store.new }
    ensures started { (L.seen link.new).started ≡ (L.seen link.old).started }
    ensures unlinked { IfErr result (λ fault. OnLink fault (Rose (L.seen link.old).faults (L.seen link.new).faults)) }
    ensures later { (L.seen link.old).faults ≤ (L.seen link.new).faults }
{
    let got = link.next(buf)?;
    let reply = answer(exports, store, &buf[..got.len], got.now)?;
    send(link, reply)?;
    Ok(())
}

/// Sends a reply, where there is one, to whoever sent the datagram that was taken last.
fn send<L: Link>(link: &mut L, reply: Option<Reply>) -> Result<(), LinkFault>
    ensures sent { OnOk result (IsTrue L.tells → (L.seen link.new).answers
        ≡ (L.seen link.old).answers ++ map spelling_of (option_to_list reply)) }
    ensures unsent { OnErr result (IsTrue L.tells → (L.seen link.new).answers ≡ (L.seen link.old).answers) }
    ensures some { OnErr result (IsSome reply) }
    ensures left { (L.seen link.new).left ≡ (L.seen link.old).left }
    ensures started { (L.seen link.new).started ≡ (L.seen link.old).started }
    ensures cause { OnErr result (Rose (L.seen link.old).faults (L.seen link.new).faults) }
    ensures later { (L.seen link.old).faults ≤ (L.seen link.new).faults }
{
    let Some(reply) = reply else {
        return Ok(());
    };
    let mut out = [0; 68];
    let len = write_reply(&reply, &mut out);
    link.answer(&out[..len])
}
