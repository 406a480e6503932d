ghost use Rattle.std.specs.Prelude.{◌≡◌, ◌≤◌, length, None, Some, OnOk, IfOk, IfErr, ◌+◌, ◌<◌, ◌^◌, if◌then◌else◌};
ghost use Rattle.std.specs.Prelude.{is_some, IfSome};
ghost use Rattle.rquota_xdr.specs.Rows.{first_failing};
ghost use Rattle.rquota_xdr.specs.Call.{head_rows, HasPathWithin, call_of};
ghost use Rattle.rquota_xdr.specs.Fields.{has_type, is_set, xid_of, arguments_at, has_arguments, id_of, kind_of};
ghost use Rattle.rquota_xdr.specs.Fields.{path_of};

use crate::authentication::authenticate;
use crate::units::{opaque_at, unit_at};
use crate::{Call, Span};

/// The bytes of a head.
const LEN: usize = 24;

/// The message type of a call.
const CALL: u32 = 0;

/// The version of RPC.
const RPC_VERSION: u32 = 2;

/// The number of rquota.
const PROGRAM: u32 = 100_011;

/// The head of a call that has a credential.
#[derive(Clone, Copy)]
pub(crate) struct CallHead {
    pub(crate) xid: u32,
    /// The arguments have a type, as in version 2.
    pub(crate) has_type: bool,
    /// The call sets limits, and does not ask for them.
    pub(crate) is_set: bool,
}

/// The head of a call, or the answer where there is none or nothing more of it is read.
#[tactic(auto, unfolding(crate::specs::Call::head_rows))]
pub(crate) fn head_of(bytes: &[u8]) -> Result<CallHead, Call>
    ensures ok { OnOk result (first_failing (head_rows bytes.now) ≡ None) }
    ensures err { IfErr result (λ call. first_failing (head_rows bytes.now) ≡ Some call) }
    ensures xid { IfOk result (λ head. head.xid ≡ xid_of bytes.now) }
    ensures has_type { IfOk result (λ head. head.has_type ≡ has_type bytes.now) }
    ensures is_set { IfOk result (λ head. head.is_set ≡ is_set bytes.now) }
    ensures long { OnOk result (24 ≤ length bytes.now) }
{
    if bytes.len() < LEN || unit_at(bytes, 4) != CALL {
        return Err(Call::Silent);
    }
    let xid = unit_at(bytes, 0);
    if unit_at(bytes, 8) != RPC_VERSION {
        return Err(Call::OldRpc { xid });
    }
    if unit_at(bytes, 12) != PROGRAM {
        return Err(Call::NoProgram { xid });
    }
    let version = unit_at(bytes, 16);
    if version != 1 && version != 2 {
        return Err(Call::NoVersion { xid });
    }
    let procedure = unit_at(bytes, 20);
    if procedure > 4 {
        return Err(Call::NoProcedure { xid });
    }
    if procedure == 0 {
        return Err(Call::Null { xid });
    }
    Ok(CallHead {
        xid,
        has_type: version == 2,
        is_set: procedure > 2,
    })
}

/// The most bytes of a path (`RQ_PATHLEN` of `rquota.x`).
const MOST_PATH: usize = 1024;

/// What the arguments of a call say.
#[derive(Clone, Copy)]
pub(crate) struct Arguments {
    pub(crate) path: Span,
    pub(crate) kind: u32,
    pub(crate) id: u32,
}

/// The place of the path: behind the command of a call that sets limits, and otherwise first.
fn path_at(head: CallHead, arguments: usize) -> usize
    requires { arguments + 4 < 2 ^ 64 }
    ensures { result ≡ (if head.is_set then arguments + 4 else arguments) }
{
    if head.is_set {
        arguments + 4
    } else {
        arguments
    }
}

/// How many units stand behind the path: the identifier, the type, and the eight numbers of a call that sets limits.
fn units_behind_path(head: CallHead) -> usize
    ensures { result ≡ (if head.is_set then (if head.has_type then 10 else 9) else (if head.has_type then 2 else 1)) }
{
    match (head.is_set, head.has_type) {
        (false, false) => 1,
        (false, true) => 2,
        (true, false) => 9,
        (true, true) => 10,
    }
}

/// The arguments at a place, where all of them stand there.
#[tactic(auto, unfolding(crate::specs::Fields::has_arguments))]
pub(crate) fn arguments_of(bytes: &[u8], head: CallHead, at: usize) -> Option<Arguments>
    requires is_set { head.is_set ≡ is_set bytes.now }
    requires has_type { head.has_type ≡ has_type bytes.now }
    requires at { at ≡ arguments_at bytes.now }
    requires inside { at ≤ length bytes.now }
    ensures found { is_some result ≡ has_arguments bytes.now }
    ensures path { IfSome result (λ found. found.path ≡ path_of bytes.now) }
    ensures inside { IfSome result (λ found. found.path.start + found.path.len ≤ length bytes.now) }
    ensures few { IfSome result (λ found. found.path.len ≤ 1024) }
    ensures kind { IfSome result (λ found. found.kind ≡ kind_of bytes.now) }
    ensures id { IfSome result (λ found. found.id ≡ id_of bytes.now) }
{
    let path = opaque_at(bytes, path_at(head, at), MOST_PATH, bytes.len())?;
    if path.end + 4 * units_behind_path(head) > bytes.len() {
        return None;
    }
    if head.has_type {
        return Some(Arguments {
            path: path.body,
            kind: unit_at(bytes, path.end),
            id: unit_at(bytes, path.end + 4),
        });
    }
    Some(Arguments {
        path: path.body,
        kind: 0,
        id: unit_at(bytes, path.end),
    })
}

/// What a datagram asks: the answer of the first row of the table `call_of` that fails, or the accepted call. The path
/// of a `Get` stands in the datagram.
#[tactic(auto, using(crate::proofs::RowLemmas::two_tables), unfolding(crate::specs::Call::argument_rows, crate::specs::Call::accepted))]
pub fn read_call(bytes: &[u8]) -> Call
    ensures call { result ≡ call_of bytes.now }
    ensures path { HasPathWithin (length bytes.now) result }
{
    let head = match head_of(bytes) {
        Ok(head) => head,
        Err(call) => return call,
    };
    let xid = head.xid;
    let found = match authenticate(bytes) {
        Ok(found) => found,
        Err(stat) => return Call::Auth { xid, stat },
    };
    let Some(arguments) = arguments_of(bytes, head, found.arguments) else {
        return Call::Garbage { xid };
    };
    if head.is_set {
        return Call::Set { xid };
    }
    Call::Get {
        xid,
        caller: found.caller,
        path: arguments.path,
        kind: arguments.kind,
        id: arguments.id,
    }
}
