ghost use Rattle.std.specs.Prelude.{◌≡◌, ℕ, ◌+◌, ◌/◌, ◌^◌, ◌<◌, ◌≤◌, length, true};
ghost use Rattle.quota_types.specs.Bytes.{number_at};
ghost use Rattle.quota_types.specs.Format.{is_flat, record_size};
ghost use Rattle.quota_types.specs.Rec.{is_zeros};
ghost use Rattle.quota_types.specs.Ids.{IsAfter};
ghost use Rattle.quota_v1.specs.FlatFile.{or_week};
ghost use Rattle.quota_v1.specs.Place.{flat_limit, inode_time_at, past_time, record_start, records_read, time_width};

use quota_types::{Format, Rec, le32_at, le64_at};

/// The most bytes that a record of any flat format has.
pub(crate) const MOST_RECORD: usize = 40;

/// Where the first of the two times of a record begins.
pub(crate) const TIMES: usize = 24;

/// The grace period that 0, or no stored period, stands for: 7 days, in seconds.
const WEEK: u64 = 604_800;

/// Where the second of the two times of a record begins (`struct v1_disk_dqblk`, whose times have 64 bits where it is
/// one of vfsold, and 32 bits where it is one of vfsold32).
pub(crate) fn second_time(format: Format) -> usize
    ensures { result ≡ inode_time_at format }
{
    match format {
        Format::V1R32 => 28,
        Format::V1 | Format::V2R0 | Format::V2R1 => 32,
    }
}

/// Where the record of an identifier starts, which is how many bytes there are of records before it.
#[tactic(auto, unfolding(crate::specs::Place::record_start))]
pub(crate) fn record_start(format: Format, id: usize) -> usize
    requires { id ≤ 2 ^ 32 }
    ensures place { result ≡ record_start format id }
    ensures small { result < 2 ^ 40 }
{
    format.record_size() * id
}

/// How many bytes a flat file may have: a record for each identifier below 1,048,576.
pub(crate) fn flat_limit(format: Format) -> u64
    ensures { result ≡ flat_limit format }
{
    1_048_576 * format.record_size() as u64
}

/// How many whole records a file of these bytes has.
#[tactic(auto, using(crate::proofs::PlaceLemmas::records_few))]
pub(crate) fn records_in(format: Format, len: u64) -> u32
    requires { len ≤ flat_limit format }
    ensures value { result ≡ len / record_size format }
    ensures few { result ≤ 1048576 }
{
    (len / format.record_size() as u64) as u32
}

/// How many records are read at once: as many whole ones as one call of `read` gives.
pub(crate) fn records_read(format: Format) -> u32
    ensures { result ≡ records_read format }
{
    match format {
        Format::V1 => 25,
        Format::V1R32 => 32,
        Format::V2R0 => 21,
        Format::V2R1 => 14,
    }
}

/// A stored grace period, where 0 stands for 7 days.
pub(crate) fn or_week(seconds: u64) -> u64
    ensures { result ≡ or_week seconds }
{
    if seconds == 0 { WEEK } else { seconds }
}

/// A number of four bytes.
pub(crate) fn number4(bytes: &[u8], at: usize) -> u64
    requires { at + 4 ≤ length bytes.now }
    ensures value { result ≡ number_at 4 bytes.now at }
    ensures small { result < 2 ^ 32 }
{
    u64::from(le32_at(bytes, at))
}

/// A time of a record.
pub(crate) fn time_at(format: Format, bytes: &[u8], at: usize) -> u64
    requires flat { is_flat format ≡ true }
    requires within { at + time_width format ≤ length bytes.now }
    ensures value { result ≡ number_at (time_width format) bytes.now at }
    ensures small { result < past_time format }
{
    match format {
        Format::V1 => le64_at(bytes, at),
        Format::V1R32 => u64::from(le32_at(bytes, at)),
        Format::V2R0 | Format::V2R1 => unreachable!(),
    }
}

/// Whether all eight values are 0.
pub(crate) fn is_zeros(rec: &Rec) -> bool
    ensures { result ≡ is_zeros rec.now }
{
    rec.is_null() && rec.btime == 0 && rec.itime == 0
}

/// The first identifier after another one, or 0; or `most`, where that is less.
pub(crate) fn first_after(after: Option<u32>, most: u32) -> u32
    ensures first { (id : ℕ) → IsAfter after id → result ≤ id }
    ensures comes_after { (id : ℕ) → result ≤ id → id < most → IsAfter after id }
{
    match after {
        Some(after) => after.saturating_add(1).min(most),
        None => 0,
    }
}
