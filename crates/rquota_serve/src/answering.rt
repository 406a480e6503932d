ghost use Rattle.std.specs.Prelude.{◌≡◌, ◌↔◌, [], None, Some, IfOk, OnErr, length};
ghost use Rattle.quota_map.specs.AnyFile.{any_get_reads};
ghost use Rattle.rquota_xdr.specs.Call.{HasPathWithin, call_of};
ghost use Rattle.rquota_xdr.specs.declared.call.Call.TheVariants.{Silent};
ghost use Rattle.rquota_serve.specs.ExportedValues.{ExportedValues};
ghost use Rattle.rquota_serve.specs.Exports.{HasPaths, Serves, exports_seen};
ghost use Rattle.rquota_serve.specs.Looking.{LooksUpIn, exports_at};
ghost use Rattle.rquota_serve.specs.Refusal.{IsQuota};
ghost use Rattle.rquota_serve.specs.Reply.{plain_reply, reply_of, reply_to, reply_with};

use crate::asking::{kind_named, may_ask};
use crate::{Exports, quota_of};
use opened_file::FileFault;
use outside::Store;
use quota_types::Rec;
use rquota_xdr::{Call, Reply, read_call};

/// The reply to a datagram that comes at the moment `now`, in seconds since 1970; none where it is no call. A caller
/// who may not ask is denied before anything is looked up: no call on the store is made unless limits are told. No
/// memory is taken.
///
/// # Errors
///
/// The store failed, or the exported file that was asked for is damaged.
pub fn answer<S: Store>(
    exports: &mut Exports,
    store: &mut S,
    datagram: &[u8],
    now: u64,
) -> Result<Option<Reply>, FileFault>
    ensures reply { IfOk result
        (λ reply. (exported : ExportedValues) → Serves S.tells (S.seen store.old).files exports.old exported
        → reply ≡ reply_of exported datagram.now now) }
    // Whatever the store tells, the reply is that of some values under just the paths that are exported.
    ensures told { IfOk result (λ reply. (exported : ExportedValues) × HasPaths (exports_seen exports.old) exported
        × (reply ≡ reply_of exported datagram.now now)) }
    ensures silent { IfOk result (λ reply. (reply ≡ None) ↔ (call_of datagram.now ≡ Silent)) }
    // Whatever the store tells, it is refused only where limits would be told.
    ensures asked { OnErr result ((exported : ExportedValues) → HasPaths (exports_seen exports.old) exported
        → IsQuota (reply_of exported datagram.now now)) }
    ensures looks { LooksUpIn Some (exports_at S.tells (S.seen store.old) exports.old)
        (exports_at S.tells (S.seen store.new) exports.new) any_get_reads result }
    // The store is looked at only where limits are told.
    ensures untouched { IfOk result (λ reply. ¬ (IsQuota reply) → S.seen store.new ≡ S.seen store.old) }
    // Nothing is committed.
    ensures commits { S.commits [] store.old store.new }
{
    answer_call(exports, store, datagram, now, read_call(datagram))
}

/// The same, of what the datagram asks.
fn answer_call<S: Store>(
    exports: &mut Exports,
    store: &mut S,
    datagram: &[u8],
    now: u64,
    call: Call,
) -> Result<Option<Reply>, FileFault>
    requires { HasPathWithin (length datagram.now) call }
    ensures reply { IfOk result
        (λ reply. (exported : ExportedValues) → Serves S.tells (S.seen store.old).files exports.old exported
        → reply ≡ reply_to exported datagram.now now call) }
    ensures told { IfOk result (λ reply. (exported : ExportedValues) × HasPaths (exports_seen exports.old) exported
        × (reply ≡ reply_to exported datagram.now now call)) }
    ensures asked { OnErr result ((exported : ExportedValues) → HasPaths (exports_seen exports.old) exported
        → IsQuota (reply_to exported datagram.now now call)) }
    ensures looks { LooksUpIn Some (exports_at S.tells (S.seen store.old) exports.old)
        (exports_at S.tells (S.seen store.new) exports.new) any_get_reads result }
    ensures untouched { IfOk result (λ reply. ¬ (IsQuota reply) → S.seen store.new ≡ S.seen store.old) }
    ensures commits { S.commits [] store.old store.new }
{
    match call {
        Call::Get {
            xid,
            caller,
            path,
            kind,
            id,
        } => {
            let path = &datagram[path.start..path.start + path.len];
            let Some(kind) = kind_named(kind) else {
                return Ok(Some(Reply::NoQuota { xid }));
            };
            if !may_ask(kind, &caller, id) {
                return Ok(Some(Reply::Denied { xid }));
            }
            let found = exports.look_up(store, path, kind, id)?;
            Ok(Some(reply_with(xid, now, found)))
        }
        other => Ok(plain_reply(&other)),
    }
}

/// The reply to a call that asks for no limits; none where it is no call.
fn plain_reply(call: &Call) -> Option<Reply>
    ensures { result ≡ plain_reply call.now }
{
    match *call {
        Call::OldRpc { xid } => Some(Reply::OldRpc { xid }),
        Call::NoProgram { xid } => Some(Reply::NoProgram { xid }),
        Call::NoVersion { xid } => Some(Reply::NoVersion { xid }),
        Call::NoProcedure { xid } => Some(Reply::NoProcedure { xid }),
        Call::Auth { xid, stat } => Some(Reply::Auth { xid, stat }),
        Call::Garbage { xid } => Some(Reply::Garbage { xid }),
        Call::Null { xid } => Some(Reply::Null { xid }),
        Call::Set { xid } => Some(Reply::Denied { xid }),
        Call::Silent | Call::Get { .. } => None,
    }
}

/// What is told of the record that was looked up.
fn reply_with(xid: u32, now: u64, found: Option<Rec>) -> Reply
    ensures { result ≡ reply_with xid now found }
{
    match found {
        Some(rec) => Reply::Quota {
            xid,
            quota: quota_of(&rec, now),
        },
        None => Reply::NoQuota { xid },
    }
}
