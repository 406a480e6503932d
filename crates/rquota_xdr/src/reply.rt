ghost use Rattle.std.specs.Prelude.{◌≡◌, ◌≢◌, ◌==◌, ◌&&◌, ◌%◌, ◌/◌, nat_le, length, is_some, IfSome, IfNone, Some, ◌*◌};
ghost use Rattle.std.specs.Prelude.{◌≤◌, ◌++◌, drop};
ghost use Rattle.rquota_xdr.specs.Units.{units_from};
ghost use Rattle.rquota_xdr.specs.Reply.{FitsUnits, quota_units, spelling_of, units_of, AreNumbers, bytes_of};
ghost use Rattle.rquota_xdr.specs.declared.reply.Quota.{Quota};
ghost use Rattle.rquota_xdr.specs.declared.reply.Reply.{Reply};

use crate::units::{put_units, units_from};
use arrayvec::ArrayVec;

/// A reply to a call, whose xid it has.
#[derive(Clone, Copy, Debug, PartialEq, Eq)]
pub enum Reply {
    /// Only version 2 of RPC is served.
    OldRpc { xid: u32 },
    /// The program is not served.
    NoProgram { xid: u32 },
    /// Only versions 1 and 2 are served.
    NoVersion { xid: u32 },
    /// There is no such procedure.
    NoProcedure { xid: u32 },
    /// The credential or the verifier is refused, by this `auth_stat` (RFC 5531, section 9).
    Auth { xid: u32, stat: u32 },
    /// The arguments could not be read.
    Garbage { xid: u32 },
    /// The call that does nothing was done.
    Null { xid: u32 },
    /// The limits and the usage that were asked for.
    Quota { xid: u32, quota: Quota },
    /// There is no quota of that path and kind.
    NoQuota { xid: u32 },
    /// The caller may not do this.
    Denied { xid: u32 },
}

/// The limits and the usage of one identifier, as they are sent (`struct rquota` of `rquota.x`).
#[derive(Clone, Copy, Debug, Default, PartialEq, Eq)]
pub struct Quota {
    /// The bytes of a block.
    pub bsize: u32,
    /// 1 where limits are enforced.
    pub active: u32,
    /// Hard limit of blocks; 0 is none.
    pub bhard: u32,
    /// Soft limit of blocks; 0 is none.
    pub bsoft: u32,
    /// Blocks in use.
    pub curblocks: u32,
    /// Hard limit of files; 0 is none.
    pub fhard: u32,
    /// Soft limit of files; 0 is none.
    pub fsoft: u32,
    /// Files in use.
    pub curfiles: u32,
    /// Seconds left of the grace period of blocks.
    pub btimeleft: u32,
    /// Seconds left of the grace period of files.
    pub ftimeleft: u32,
}

/// The most bytes of a reply.
const MOST_BYTES: usize = 68;

/// The quota with these units, where there is one.
fn quota_with(units: &[u32]) -> Option<Quota>
    ensures read { IfSome result (λ quota. units.now ≡ quota_units quota) }
    ensures none { IfNone result ((quota : Quota) → units.now ≢ quota_units quota) }
{
    match *units {
        [
            bsize,
            active,
            bhard,
            bsoft,
            curblocks,
            fhard,
            fsoft,
            curfiles,
            btimeleft,
            ftimeleft,
        ] => Some(Quota {
            bsize,
            active,
            bhard,
            bsoft,
            curblocks,
            fhard,
            fsoft,
            curfiles,
            btimeleft,
            ftimeleft,
        }),
        _ => None,
    }
}

/// The reply with these units, where there is one.
fn reply_with(units: &[u32]) -> Option<Reply>
    ensures read { IfSome result (λ reply. units.now ≡ units_of reply) }
    ensures none { IfNone result ((reply : Reply) → units.now ≢ units_of reply) }
{
    match *units {
        [xid, 1, 0, 0, 0, 0] => Some(Reply::Null { xid }),
        [xid, 1, 0, 0, 0, 1] => Some(Reply::NoProgram { xid }),
        [xid, 1, 0, 0, 0, 2, 1, 2] => Some(Reply::NoVersion { xid }),
        [xid, 1, 0, 0, 0, 3] => Some(Reply::NoProcedure { xid }),
        [xid, 1, 0, 0, 0, 4] => Some(Reply::Garbage { xid }),
        [xid, 1, 1, 0, 2, 2] => Some(Reply::OldRpc { xid }),
        [xid, 1, 1, 1, stat] => Some(Reply::Auth { xid, stat }),
        [xid, 1, 0, 0, 0, 0, 2] => Some(Reply::NoQuota { xid }),
        [xid, 1, 0, 0, 0, 0, 3] => Some(Reply::Denied { xid }),
        [xid, 1, 0, 0, 0, 0, 1, ref numbers @ ..] => Some(Reply::Quota {
            xid,
            quota: quota_with(numbers)?,
        }),
        _ => None,
    }
}

/// The numbers of the units that the bytes are, where they are whole units and no more than a reply has.
fn whole_units(bytes: &[u8]) -> Option<ArrayVec<u32, 17>>
    ensures whole { is_some result ≡ (nat_le (length bytes.now) 68 && length bytes.now % 4 == 0) }
    ensures units { IfSome result (λ units. units.items ≡ units_from bytes.now 0 (length bytes.now / 4)) }
{
    if bytes.len() > MOST_BYTES || bytes.len() % 4 != 0 {
        return None;
    }
    Some(units_from(bytes, 0, bytes.len() / 4))
}

/// The reply that the bytes spell, where they are the whole spelling of one.
pub fn read_reply(bytes: &[u8]) -> Option<Reply>
    ensures read { IfSome result (λ reply. bytes.now ≡ spelling_of reply) }
    ensures found { (reply : Reply) → FitsUnits reply → bytes.now ≡ spelling_of reply → result ≡ Some reply }
    ensures none { IfNone result ((reply : Reply) → FitsUnits reply → bytes.now ≢ spelling_of reply) }
    ensures fits { IfSome result FitsUnits }
{
    let units = whole_units(bytes)?;
    reply_with(units.as_slice())
}

/// Writes the units of a reply from the start on, and answers how many bytes they are.
fn put(out: &mut [u8; 68], units: &[u32]) -> usize
    requires { length units.now ≤ 17 }
    ensures len { result ≡ 4 * length units.now }
    ensures bytes { out.new ≡ bytes_of units.now ++ drop (4 * length units.now) out.old }
    ensures numbers { AreNumbers units.now }
{
    put_units(&mut out[..], units);
    4 * units.len()
}

/// Writes the ten numbers of a quota behind the head of a reply.
fn put_quota(out: &mut [u8; 68], xid: u32, quota: &Quota) -> usize
    ensures len { result ≡ 68 }
    ensures bytes { out.new ≡ spelling_of (Reply.Quota xid quota.now) }
    ensures numbers { FitsUnits (Reply.Quota xid quota.now) }
{
    put(
        out,
        &[
            xid,
            1,
            0,
            0,
            0,
            0,
            1,
            quota.bsize,
            quota.active,
            quota.bhard,
            quota.bsoft,
            quota.curblocks,
            quota.fhard,
            quota.fsoft,
            quota.curfiles,
            quota.btimeleft,
            quota.ftimeleft,
        ],
    )
}

/// Writes the bytes of a reply at the start of the buffer, and answers how many they are. The rest of the buffer stays.
pub fn write_reply(reply: &Reply, out: &mut [u8; 68]) -> usize
    ensures len { result ≡ length (spelling_of reply.now) }
    ensures bytes { out.new ≡ spelling_of reply.now ++ drop (length (spelling_of reply.now)) out.old }
    ensures fits { result ≤ 68 }
    ensures numbers { FitsUnits reply.now }
{
    match *reply {
        Reply::Null { xid } => put(out, &[xid, 1, 0, 0, 0, 0]),
        Reply::NoProgram { xid } => put(out, &[xid, 1, 0, 0, 0, 1]),
        Reply::NoVersion { xid } => put(out, &[xid, 1, 0, 0, 0, 2, 1, 2]),
        Reply::NoProcedure { xid } => put(out, &[xid, 1, 0, 0, 0, 3]),
        Reply::Garbage { xid } => put(out, &[xid, 1, 0, 0, 0, 4]),
        Reply::OldRpc { xid } => put(out, &[xid, 1, 1, 0, 2, 2]),
        Reply::Auth { xid, stat } => put(out, &[xid, 1, 1, 1, stat]),
        Reply::Quota { xid, quota } => put_quota(out, xid, &quota),
        Reply::NoQuota { xid } => put(out, &[xid, 1, 0, 0, 0, 0, 2]),
        Reply::Denied { xid } => put(out, &[xid, 1, 0, 0, 0, 0, 3]),
    }
}
