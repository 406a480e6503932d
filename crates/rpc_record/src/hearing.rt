ghost use Rattle.std.specs.Prelude.{◌≡◌, ◌*◌, [], Some, length, IfOk, IsTrue, OnErr};
ghost use Rattle.network.specs.Connections.{ChangesCurrent, with_written};
ghost use Rattle.quota_map.specs.AnyFile.{any_get_reads};
ghost use Rattle.rpc_record.specs.Hearing.{AnswersInPart, IsHeard, awaited_at};
ghost use Rattle.rquota_serve.specs.Exports.{Serves};
ghost use Rattle.rquota_serve.specs.Looking.{LooksUpIn, exports_at};

use crate::heard::Heard;
use crate::reply::send;
use network::Conns;
use opened_file::FileFault;
use outside::Store;
use rpc_marks::{Marker, Step};
use rquota_serve::{Exports, answer};

/// Feeds a marker a piece of a connection that came at the moment `now`, and answers each record that ends in it.
///
/// # Errors
///
/// The store failed, or an exported file is damaged. The answers to the records before that one were written.
pub(crate) fn hear<S: Store, C: Conns>(
    exports: &mut Exports,
    store: &mut S,
    conns: &mut C,
    marker: &mut Marker,
    piece: &[u8],
    now: u64,
) -> Result<Heard, FileFault>
    requires { IsTrue (C.is_open conns.old) }
    ensures heard { IfOk result
        (λ heard. IsTrue C.tells → IsHeard (Serves S.tells (S.seen store.old).files exports.old) piece.now
        (awaited_at now marker.old) (awaited_at now marker.new) (C.seen conns.old).current
        (C.seen conns.new).current heard) }
    ensures stopped { OnErr result
        (IsTrue C.tells → AnswersInPart (Serves S.tells (S.seen store.old).files exports.old) piece.now
        (awaited_at now marker.old) with_written (C.seen conns.old).current (C.seen conns.new).current) }
    ensures looks { LooksUpIn Some (exports_at S.tells (S.seen store.old) exports.old)
        (exports_at S.tells (S.seen store.new) exports.new) (any_get_reads * length piece.now) result }
    ensures leaves { ChangesCurrent (C.seen conns.old) (C.seen conns.new) }
    ensures open_as_before { C.is_open conns.new ≡ C.is_open conns.old }
    // Nothing is committed.
    ensures commits { S.commits [] store.old store.new }
{
    let mut at = 0;
    while at < piece.len() {
        let (count, step) = marker.feed(&piece[at..]);
        at += count;
        match step {
            Step::More => return Ok(Heard::GoesOn),
            Step::TooLong => return Ok(Heard::TooLong),
            Step::Whole => {
                let reply = answer(exports, store, marker.body(), now)?;
                if send(conns, reply).is_err() {
                    return Ok(Heard::WriteFault);
                }
            }
        }
    }
    Ok(Heard::GoesOn)
}
