ghost use Rattle.std.specs.Prelude.{◌≡◌, None, Some, IfOk, IfErr, OnOk};
ghost use Rattle.quota_types.specs.Kept.{IsKept, kept_of};
ghost use Rattle.quota_types.specs.Range.{unfit};
ghost use Rattle.quota_types.specs.Rec.{is_null_of};
ghost use Rattle.quota_types.specs.Timers.{timers_of};

use crate::ranges::with_timers;
use crate::timers::wanted_timer;
use crate::{Format, Grace, NoRoom, Rec, kept};

/// What the format keeps of an identifier's record with these timers, in seconds since 1970, each of which may be a sum
/// beyond 64 bits.
///
/// # Errors
///
/// The first field for which the format has no room, in the order of `Field`, with its value; that of the space is in
/// bytes.
pub fn kept_timed(
    format: Format,
    id: u32,
    rec: Rec,
    btime: u128,
    itime: u128,
) -> Result<Rec, NoRoom>
    ensures kept { IfOk result (λ next. next ≡ kept_of format id (record rec { btime = btime; itime = itime })) }
    ensures again { IfOk result (IsKept format id) }
    ensures null { IfOk result (λ next. is_null_of next ≡ is_null_of rec) }
    ensures wanted { OnOk result (unfit format id (record rec { btime = btime; itime = itime }) ≡ None) }
    ensures refused { IfErr result (λ out. unfit format id (record rec { btime = btime; itime = itime })
        ≡ Some (out.field, out.value)) }
    ensures id { IfErr result (λ out. out.id ≡ id) }
{
    let timed = with_timers(format, id, rec, btime, itime)?;
    Ok(kept(format, id, timed))
}

/// What the format keeps of an identifier's record with the timers that `next_timers` tells.
///
/// # Errors
///
/// The first field for which the format has no room, in the order of `Field`, with its value; that of a timer may be a
/// sum beyond 64 bits.
pub fn next_kept(format: Format, id: u32, rec: Rec, grace: Grace, now: u64) -> Result<Rec, NoRoom>
    ensures kept { IfOk result (λ next. next ≡ kept_of format id (timers_of rec grace now)) }
    ensures again { IfOk result (IsKept format id) }
    ensures null { IfOk result (λ next. is_null_of next ≡ is_null_of rec) }
    ensures wanted { OnOk result (unfit format id (timers_of rec grace now) ≡ None) }
    ensures refused { IfErr result (λ out. unfit format id (timers_of rec grace now) ≡ Some (out.field, out.value)) }
    ensures id { IfErr result (λ out. out.id ≡ id) }
{
    let btime = wanted_timer(rec.bsoft, rec.kib(), rec.btime, grace.block, now);
    let itime = wanted_timer(rec.isoft, rec.inodes, rec.itime, grace.inode, now);
    kept_timed(format, id, rec, btime, itime)
}
