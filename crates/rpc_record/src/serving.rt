ghost use Rattle.std.specs.Prelude.{◌≡◌, ◌*◌, [], false, IsTrue, IfErr, OnErr, OnOk};
ghost use Rattle.network.specs.Connections.{KeepsListening};
ghost use Rattle.outside.specs.Count.{Rose};
ghost use Rattle.rpc_record.specs.Serving.{ServesConns, StopsServing, connection_reads};
ghost use Rattle.rpc_record.specs.Faults.{OnConn, file_in, leaves_open};
ghost use Rattle.rquota_serve.specs.Exports.{Serves};
ghost use Rattle.rquota_serve.specs.Looking.{LooksUpIn, exports_at};

use crate::StreamFault;
use crate::connection::serve_connection;
use network::Conns;
use outside::Store;
use rquota_serve::Exports;

/// Accepts exactly `connections` connections, one after another, answers the records of each, at its own moment, and
/// closes it: at its end, behind a record that is too long, behind 16,777,216 bytes, or behind a fault of its read or
/// write. No memory is taken.
///
/// # Errors
///
/// No further connection could be accepted, or an exported file failed. Fewer connections than `connections` were
/// served; the one at hand when a file failed stays open.
pub fn serve_stream<S: Store, C: Conns>(
    exports: &mut Exports,
    store: &mut S,
    conns: &mut C,
    connections: u32,
) -> Result<(), StreamFault>
    requires { C.is_open conns.old ≡ false }
    ensures served { OnOk result
        (IsTrue C.tells → ServesConns (Serves S.tells (S.seen store.old).files exports.old) connections
        (C.seen conns.old) (C.seen conns.new)) }
    ensures stopped { OnErr result
        (IsTrue C.tells → StopsServing (Serves S.tells (S.seen store.old).files exports.old) connections
        (C.seen conns.old) (C.seen conns.new)) }
    // A connection is open behind it only where an exported file failed.
    ensures open { C.is_open conns.new ≡ leaves_open result }
    ensures looks { LooksUpIn file_in (exports_at S.tells (S.seen store.old) exports.old)
        (exports_at S.tells (S.seen store.new) exports.new) (connection_reads * connections) result }
    ensures unaccepted { IfErr result (λ fault. OnConn fault
        (Rose (C.seen conns.old).listener_faults (C.seen conns.new).listener_faults)) }
    ensures leaves { KeepsListening (C.seen conns.old) (C.seen conns.new) }
    // Nothing is committed.
    ensures commits { S.commits [] store.old store.new }
{
    for _connection in 0..connections {
        serve_next(exports, store, conns)?;
    }
    Ok(())
}

/// The same, of one connection.
fn serve_next<S: Store, C: Conns>(
    exports: &mut Exports,
    store: &mut S,
    conns: &mut C,
) -> Result<(), StreamFault>
    requires { C.is_open conns.old ≡ false }
    ensures served { OnOk result (IsTrue C.tells → ServesConns (Serves S.tells (S.seen store.old).files exports.old) 1
        (C.seen conns.old) (C.seen conns.new)) }
    ensures stopped { OnErr result
        (IsTrue C.tells → StopsServing (Serves S.tells (S.seen store.old).files exports.old) 1
        (C.seen conns.old) (C.seen conns.new)) }
    ensures open { C.is_open conns.new ≡ leaves_open result }
    ensures looks { LooksUpIn file_in (exports_at S.tells (S.seen store.old) exports.old)
        (exports_at S.tells (S.seen store.new) exports.new) connection_reads result }
    ensures unaccepted { IfErr result (λ fault. OnConn fault
        (Rose (C.seen conns.old).listener_faults (C.seen conns.new).listener_faults)) }
    ensures leaves { KeepsListening (C.seen conns.old) (C.seen conns.new) }
    ensures commits { S.commits [] store.old store.new }
{
    let now = conns.accept()?;
    serve_connection(exports, store, conns, now)?;
    conns.close();
    Ok(())
}
