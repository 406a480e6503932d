ghost use Rattle.std.specs.Prelude.{◌≡◌, ◌≤◌};
ghost use Rattle.rquota_serve.specs.Quota.{block_power, fit_blocks, limit_blocks, narrowed, quota_of_record};
ghost use Rattle.rquota_serve.specs.Quota.{seconds_left, space_blocks};

use quota_types::Rec;
use rquota_xdr::Quota;

/// A number, or the greatest one of 32 bits where it does not fit.
fn narrowed(number: u64) -> u32
    ensures { result ≡ narrowed number }
{
    u32::try_from(number).unwrap_or(u32::MAX)
}

/// A limit in KiB as blocks of 2^`power` bytes, rounded up.
fn limit_blocks(power: u32, kib: u64) -> u64
    requires low { 10 ≤ power }
    requires high { power ≤ 30 }
    ensures { result ≡ limit_blocks power kib }
{
    kib.div_ceil(1 << (power - 10))
}

/// A space in bytes as blocks of 2^`power` bytes, rounded up.
fn space_blocks(power: u32, space: u64) -> u64
    requires { power ≤ 30 }
    ensures { result ≡ space_blocks power space }
{
    space.div_ceil(1 << power)
}

/// Whether the three numbers of blocks fit 32 bits.
fn fit_blocks(rec: &Rec, power: u32) -> bool
    requires low { 10 ≤ power }
    requires high { power ≤ 30 }
    ensures { result ≡ fit_blocks rec.now power }
{
    let most = u64::from(u32::MAX);
    limit_blocks(power, rec.bhard) <= most
        && limit_blocks(power, rec.bsoft) <= most
        && space_blocks(power, rec.space) <= most
}

/// The least power of two for a block by which the numbers of blocks fit, or the greatest where none does.
fn block_power(rec: &Rec) -> u32
    ensures power { result ≡ block_power rec.now }
    ensures low { 10 ≤ result }
    ensures high { result ≤ 30 }
{
    for power in 10..31 {
        if fit_blocks(rec, power) {
            return power;
        }
    }
    30
}

/// The seconds from a moment to a timer: 0 where the timer is not after it.
fn seconds_left(timer: u64, now: u64) -> u32
    ensures { result ≡ seconds_left timer now }
{
    narrowed(timer.saturating_sub(now))
}

/// The limits and the usage of a record as they are sent at the moment `now`, in seconds since 1970. Blocks have the
/// least size from 1,024 bytes to 2^30 by which their numbers fit; what does not fit is the greatest number of 32 bits.
pub fn quota_of(rec: &Rec, now: u64) -> Quota
    ensures { result ≡ quota_of_record rec.now now }
{
    let power = block_power(rec);
    Quota {
        bsize: 1 << power,
        active: 1,
        bhard: narrowed(limit_blocks(power, rec.bhard)),
        bsoft: narrowed(limit_blocks(power, rec.bsoft)),
        curblocks: narrowed(space_blocks(power, rec.space)),
        fhard: narrowed(rec.ihard),
        fsoft: narrowed(rec.isoft),
        curfiles: narrowed(rec.inodes),
        btimeleft: seconds_left(rec.btime, now),
        ftimeleft: seconds_left(rec.itime, now),
    }
}
