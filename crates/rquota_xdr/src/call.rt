ghost use Rattle.std.specs.Prelude.{◌≡◌, ◌+◌, ◌*◌, ◌≤◌, length};
ghost use Rattle.rquota_xdr.specs.Units.{units_from};

use crate::units::units_from;
use arrayvec::ArrayVec;
use std::marker::Model;

/// What a datagram asks.
#[derive(Debug, Drop, PartialEq, Eq)]
pub enum Call {
    /// It is no call of RPC, and gets no reply.
    Silent,
    /// Its version of RPC is not 2.
    OldRpc {
        xid: u32,
    },
    /// Its program is not rquota.
    NoProgram {
        xid: u32,
    },
    /// Its version of rquota is neither 1 nor 2.
    NoVersion {
        xid: u32,
    },
    /// rquota has no such procedure.
    NoProcedure {
        xid: u32,
    },
    /// Its credential or its verifier is refused, by this `auth_stat` (RFC 5531, section 9).
    Auth {
        xid: u32,
        stat: u32,
    },
    /// Its arguments are no arguments of its procedure.
    Garbage {
        xid: u32,
    },
    /// It does nothing, and is answered.
    Null {
        xid: u32,
    },
    /// It asks for limits and usage. `path` is where the path's bytes stand in the datagram, `kind` is 0 for a user, 1
    /// for a group and 2 for a project, and any other number names nothing.
    Get {
        xid: u32,
        caller: Caller,
        path: Span,
        kind: u32,
        id: u32,
    },
    /// It asks to change limits.
    Set {
        xid: u32,
    },
}

/// Who calls, as the credential says (RFC 5531, appendix A).
#[derive(Debug, Drop, PartialEq, Eq)]
pub struct Caller {
    /// The user.
    pub uid: u32,
    /// The user's group.
    pub gid: u32,
    /// The user's further groups.
    pub gids: Gids,
}

/// The further groups of a caller, at most 16 (RFC 5531, appendix A). Contracts see the list of their numbers.
#[derive(Debug, Drop, PartialEq, Eq)]
pub struct Gids {
    numbers: ArrayVec<u32, 16>,
}

impl Model for Gids {
    ghost use Rattle.std.specs.Prelude.{ℕ, List};

    ghost Value = { List ℕ };

    ghost view = { λ g. g.numbers.items };

    ghost inverse = { λ numbers. record { numbers = record { items = numbers } } };
}

impl Gids {
    /// The groups whose numbers are this many units from a place on.
    pub(crate) fn read(bytes: &[u8], at: usize, count: usize) -> Self
        requires few { count ≤ 16 }
        requires inside { at + 4 * count ≤ length bytes.now }
        ensures { result ≡ units_from bytes.now at count }
    {
        Gids {
            numbers: units_from(bytes, at, count),
        }
    }

    /// The numbers of the groups, in the order of the call.
    pub fn as_slice(&self) -> &[u32]
        ensures numbers { result.now ≡ self.now }
        ensures few { length result.now ≤ 16 }
    {
        self.numbers.as_slice()
    }
}

/// Where bytes stand in a datagram.
#[derive(Clone, Copy, Debug, PartialEq, Eq)]
pub struct Span {
    /// The place of the first byte.
    pub start: usize,
    /// How many bytes there are.
    pub len: usize,
}
