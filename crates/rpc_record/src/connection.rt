ghost use Rattle.std.specs.Prelude.{◌≡◌, ◌≤◌, ◌<◌, [], Some, length, take, IfOk, IsTrue, OnErr, OnOk};
ghost use Rattle.std.specs.Option.{option_map};
ghost use Rattle.network.specs.Connections.{Arrival, ChangesCurrent, accepted, unread, with_failed_read};
ghost use Rattle.rpc_record.specs.Hearing.{TakesPiece};
ghost use Rattle.rpc_record.specs.Serving.{IsBegun, IsServed, connection_reads};
ghost use Rattle.rquota_serve.specs.Exports.{Serves};
ghost use Rattle.rquota_serve.specs.Looking.{LooksUpIn, exports_at};

use crate::heard::Heard;
use crate::hearing::hear;
use network::{ConnFault, Conns};
use opened_file::FileFault;
use outside::Store;
use rpc_marks::Marker;
use rquota_serve::Exports;

/// The most bytes that are taken of a connection.
const MOST_BYTES: usize = 16_777_216;

/// The most bytes that are taken by one call of `read`.
const MOST_PIECE: usize = 4096;

/// Serves the open connection, which came at the moment `now`: answers the records of its bytes up to its end, to a
/// record that is too long, to 16,777,216 bytes, or to a fault of its read or write. It stays open.
///
/// # Errors
///
/// The store failed, or an exported file is damaged.
pub(crate) fn serve_connection<S: Store, C: Conns>(
    exports: &mut Exports,
    store: &mut S,
    conns: &mut C,
    now: u64,
) -> Result<(), FileFault>
    requires { IsTrue (C.is_open conns.old) }
    ensures served { OnOk result (IsTrue C.tells → (arrival : Arrival) → now ≡ arrival.moment
        → (C.seen conns.old).current ≡ Some (accepted arrival)
        → IsServed (Serves S.tells (S.seen store.old).files exports.old) arrival (C.seen conns.new).current) }
    ensures stopped { OnErr result (IsTrue C.tells → (arrival : Arrival) → now ≡ arrival.moment
        → (C.seen conns.old).current ≡ Some (accepted arrival)
        → IsBegun (Serves S.tells (S.seen store.old).files exports.old) arrival (C.seen conns.new).current) }
    ensures looks { LooksUpIn Some (exports_at S.tells (S.seen store.old) exports.old)
        (exports_at S.tells (S.seen store.new) exports.new) connection_reads result }
    ensures leaves { ChangesCurrent (C.seen conns.old) (C.seen conns.new) }
    ensures open_as_before { C.is_open conns.new ≡ C.is_open conns.old }
    // Nothing is committed.
    ensures commits { S.commits [] store.old store.new }
{
    let mut marker = Marker::new();
    let mut buf = [0; MOST_PIECE];
    let mut left = MOST_BYTES;
    while left > 0 {
        let Ok(count) = read_piece(conns, &mut buf, left) else {
            return Ok(());
        };
        if count == 0 {
            return Ok(());
        }
        left -= count;
        match hear(exports, store, conns, &mut marker, &buf[..count], now)? {
            Heard::GoesOn => {}
            Heard::TooLong => return Ok(()),
            Heard::WriteFault => return Ok(()),
        }
    }
    Ok(())
}

/// Takes the next piece of the open connection into the front of `buf`, at most `left` bytes, and answers how many it
/// has.
///
/// # Errors
///
/// The connection failed.
fn read_piece<C: Conns>(
    conns: &mut C,
    buf: &mut [u8; MOST_PIECE],
    left: usize,
) -> Result<usize, ConnFault>
    requires open { IsTrue (C.is_open conns.old) }
    requires some { 0 < left }
    ensures fits { IfOk result (λ count. count ≤ 4096) }
    ensures within { IfOk result (λ count. count ≤ left) }
    ensures size { IfOk result (λ count. length (take count buf.new) ≡ count) }
    ensures taken { IfOk result (λ count. IsTrue C.tells
        → TakesPiece (take count buf.new) (C.seen conns.old).current (C.seen conns.new).current) }
    ensures end { IfOk result (λ count. IsTrue C.tells → count ≡ 0 → unread (C.seen conns.old).current ≡ []) }
    ensures fault { OnErr result (IsTrue C.tells
        → (C.seen conns.new).current ≡ option_map with_failed_read (C.seen conns.old).current) }
    ensures leaves { ChangesCurrent (C.seen conns.old) (C.seen conns.new) }
    ensures open_as_before { C.is_open conns.new ≡ C.is_open conns.old }
{
    let most = left.min(MOST_PIECE);
    conns.read(&mut buf[..most])
}
