ghost use Rattle.std.specs.Prelude.{◌≡◌, ◌+◌, ◌≤◌, ◌==◌, if◌then◌else◌, length, None, Some, is_some, IfSome, OnOk};
ghost use Rattle.std.specs.Prelude.{IfOk, IfErr};
ghost use Rattle.rquota_xdr.specs.Rows.{first_failing};
ghost use Rattle.rquota_xdr.specs.Units.{unit_at};
ghost use Rattle.rquota_xdr.specs.Call.{credential_rows, caller_rows};
ghost use Rattle.rquota_xdr.specs.Fields.{body_end_of, caller_of, flavor_of, is_system_credential, verifier_at, xid_of};
ghost use Rattle.rquota_xdr.specs.Fields.{arguments_at};
ghost use Rattle.rquota_xdr.specs.declared.call.Call.TheVariants.{Auth};

use crate::units::{opaque_at, unit_at};
use crate::{Caller, Gids};

/// The most bytes of the body of a credential or of a verifier (RFC 5531, section 8.2).
pub(crate) const MOST_AUTH: usize = 400;

/// The most bytes of a machine's name (RFC 5531, appendix A).
const MOST_NAME: usize = 255;

/// The most further groups of a caller (RFC 5531, appendix A).
const MOST_GIDS: usize = 16;

/// The flavor of a credential that names nobody (RFC 5531, section 8.2).
const AUTH_NONE: u32 = 0;

/// The flavor of a credential of the system.
const AUTH_SYS: u32 = 1;

/// The `auth_stat` of a credential that cannot be read (RFC 5531, section 9).
const BAD_CREDENTIAL: u32 = 1;

/// The `auth_stat` of a credential of a flavor that is not served.
const REJECTED_CREDENTIAL: u32 = 2;

/// What a credential says.
#[derive(Drop)]
pub(crate) struct Credential {
    /// Who calls; none where the credential names nobody.
    pub(crate) caller: Option<Caller>,
    /// The place behind the credential.
    pub(crate) end: usize,
}

/// The caller that a credential of the system names, whose body ends at this place.
#[tactic(auto, unfolding(crate::specs::Fields::is_system_credential, crate::specs::Fields::caller_of))]
fn system_caller(bytes: &[u8], end: usize) -> Option<Caller>
    requires inside { end ≤ length bytes.now }
    requires body { 32 ≤ end }
    requires end { end ≡ body_end_of bytes.now }
    ensures found { is_some result ≡ is_system_credential bytes.now }
    ensures caller { IfSome result (λ caller. caller ≡ caller_of bytes.now) }
{
    let ids = opaque_at(bytes, 36, MOST_NAME, end)?.end;
    if ids + 12 > end {
        return None;
    }
    let count = unit_at(bytes, ids + 8) as usize;
    if count > MOST_GIDS || ids + 12 + 4 * count > end {
        return None;
    }
    Some(Caller {
        uid: unit_at(bytes, ids),
        gid: unit_at(bytes, ids + 4),
        gids: Gids::read(bytes, ids + 12, count),
    })
}

/// The credential of a call, or the `auth_stat` of its refusal.
#[tactic(auto, unfolding(crate::specs::Call::credential_rows))]
pub(crate) fn credential_of(bytes: &[u8]) -> Result<Credential, u32>
    requires { 24 ≤ length bytes.now }
    ensures ok { OnOk result (first_failing (credential_rows bytes.now) ≡ None) }
    ensures err { IfErr result (λ stat.
        first_failing (credential_rows bytes.now) ≡ Some (Auth (xid_of bytes.now) stat)) }
    ensures caller { IfOk result (λ found.
        found.caller ≡ (if flavor_of bytes.now == 0 then None else Some (caller_of bytes.now))) }
    ensures end { IfOk result (λ found. found.end ≡ verifier_at bytes.now) }
    ensures inside { IfOk result (λ found. found.end ≤ length bytes.now) }
{
    let Some(credential) = opaque_at(bytes, 28, MOST_AUTH, bytes.len()) else {
        return Err(BAD_CREDENTIAL);
    };
    let end = credential.end;
    match unit_at(bytes, 24) {
        AUTH_NONE => Ok(Credential { caller: None, end }),
        AUTH_SYS => match system_caller(bytes, 32 + credential.body.len) {
            Some(caller) => Ok(Credential {
                caller: Some(caller),
                end,
            }),
            None => Err(BAD_CREDENTIAL),
        },
        _ => Err(REJECTED_CREDENTIAL),
    }
}

/// The `auth_stat` of a verifier that cannot be read (RFC 5531, section 9).
const BAD_VERIFIER: u32 = 3;

/// The `auth_stat` of a credential that names nobody.
const TOO_WEAK: u32 = 5;

/// Who calls, and what stands behind.
#[derive(Drop)]
pub(crate) struct Authenticated {
    pub(crate) caller: Caller,
    /// The place of the arguments.
    pub(crate) arguments: usize,
}

/// The caller that the credential names, where a verifier stands behind it, or the `auth_stat` of the refusal.
#[tactic(auto, using(crate::proofs::RowLemmas::two_tables), unfolding(crate::specs::Call::caller_rows, crate::specs::Call::verifier_rows))]
pub(crate) fn authenticate(bytes: &[u8]) -> Result<Authenticated, u32>
    requires { 24 ≤ length bytes.now }
    ensures ok { OnOk result (first_failing (caller_rows bytes.now) ≡ None) }
    ensures err { IfErr result (λ stat.
        first_failing (caller_rows bytes.now) ≡ Some (Auth (xid_of bytes.now) stat)) }
    ensures caller { IfOk result (λ found. found.caller ≡ caller_of bytes.now) }
    ensures arguments { IfOk result (λ found. found.arguments ≡ arguments_at bytes.now) }
    ensures inside { IfOk result (λ found. found.arguments ≤ length bytes.now) }
{
    let credential = credential_of(bytes)?;
    let Some(verifier) = opaque_at(bytes, credential.end + 4, MOST_AUTH, bytes.len()) else {
        return Err(BAD_VERIFIER);
    };
    match credential.caller {
        Some(caller) => Ok(Authenticated {
            caller,
            arguments: verifier.end,
        }),
        None => Err(TOO_WEAK),
    }
}
