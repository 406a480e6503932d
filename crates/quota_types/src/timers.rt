ghost use Rattle.std.specs.Prelude.{◌≡◌, ◌+◌, if◌then◌else◌, IfOk, Some, None};
ghost use Rattle.std.specs.Result.{result_err};
ghost use Rattle.quota_types.specs.Timers.{is_exceeded, timer_of, timers_of};
ghost use Rattle.quota_types.specs.TimerRoom.{starts_past_64_bits, timer_past_64_bits};

use crate::{Field, Grace, Rec};

/// Whether there is a limit, that is one other than 0, and the usage exceeds it. Both are in one unit.
pub fn is_exceeded(limit: u64, used: u64) -> bool
    ensures { result ≡ is_exceeded limit used }
{
    limit != 0 && used > limit
}

/// A timer as it is to be, in seconds since 1970; the end of one that starts may be a sum beyond 64 bits.
pub(crate) fn wanted_timer(soft: u64, used: u64, timer: u64, grace: u64, now: u64) -> u128
    ensures { result ≡ timer_of soft used timer grace now }
{
    if !is_exceeded(soft, used) {
        0
    } else if timer == 0 {
        u128::from(now) + u128::from(grace)
    } else {
        u128::from(timer)
    }
}

fn next_timer(soft: u64, used: u64, timer: u64, grace: u64, now: u64) -> Option<u64>
    ensures { result ≡ (if starts_past_64_bits soft used timer grace now then None
        else Some (timer_of soft used timer grace now)) }
{
    u64::try_from(wanted_timer(soft, used, timer, grace, now)).ok()
}

/// The record with both timers as they are to be at the moment `now`, in seconds since 1970. Where a soft limit is
/// exceeded, a timer that does not run starts and ends a grace period from now, and one that runs stays; otherwise the
/// timer is 0.
///
/// # Errors
///
/// The first timer, that of blocks before that of inodes, that starts and whose end does not fit 64 bits.
pub fn next_timers(rec: Rec, grace: Grace, now: u64) -> Result<Rec, Field>
    ensures timers { IfOk result (λ next. next ≡ timers_of rec grace now) }
    ensures refused { result_err result ≡ timer_past_64_bits rec grace now }
{
    let btime = next_timer(rec.bsoft, rec.kib(), rec.btime, grace.block, now).ok_or(Field::Btime)?;
    let itime = next_timer(rec.isoft, rec.inodes, rec.itime, grace.inode, now).ok_or(Field::Itime)?;
    Ok(Rec {
        btime,
        itime,
        ..rec
    })
}
