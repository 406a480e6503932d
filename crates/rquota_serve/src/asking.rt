ghost use Rattle.std.specs.Prelude.{◌≡◌};
ghost use Rattle.rquota_serve.specs.Reply.{is_owner, kind_named, may_ask};

use quota_types::Kind;
use rquota_xdr::Caller;

/// Whose usage a type names, where it names one.
pub(crate) fn kind_named(number: u32) -> Option<Kind>
    ensures { result ≡ kind_named number }
{
    Kind::numbered(number)
}

/// Whether the caller is this user, or is in this group; no caller is a project.
fn is_owner(kind: Kind, caller: &Caller, id: u32) -> bool
    ensures { result ≡ is_owner kind caller.now id }
{
    match kind {
        Kind::User => caller.uid == id,
        Kind::Group => caller.gid == id || caller.gids.as_slice().contains(&id),
        Kind::Project => false,
    }
}

/// Whether the caller may ask for an identifier: the superuser for each, every other one for his own.
pub(crate) fn may_ask(kind: Kind, caller: &Caller, id: u32) -> bool
    ensures { result ≡ may_ask kind caller.now id }
{
    caller.uid == 0 || is_owner(kind, caller, id)
}
