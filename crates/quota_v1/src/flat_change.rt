ghost use Rattle.std.specs.Prelude.{◌≡◌, ◌+◌, ◌^◌, ◌<◌, ◌≤◌, length, None, true};
ghost use Rattle.quota_types.specs.Bytes.{number_at};
ghost use Rattle.quota_types.specs.Format.{is_flat, record_size};
ghost use Rattle.quota_types.specs.Kept.{IsKept};
ghost use Rattle.quota_types.specs.Range.{unfit};
ghost use Rattle.quota_types.specs.Rec.{kib_of};
ghost use Rattle.quota_types.specs.KeptBytes.{KeepsOutside};
ghost use Rattle.quota_v1.specs.FlatFile.{timed_record};
ghost use Rattle.quota_v1.specs.Place.{block_time_at, block_time_start, inode_time_at, past_time, record_start};
ghost use Rattle.quota_v1.specs.Place.{time_width};

use crate::flat_record::{TIMES, record_start, second_time};
use quota_types::{Format, Rec, set_le32_at, set_le64_at};

/// Writes a number of four bytes.
fn write4(bytes: &mut [u8], at: usize, number: u64)
    requires within { at + 4 ≤ length bytes.old }
    requires small { number < 2 ^ 32 }
    ensures value { number_at 4 bytes.new at ≡ number }
    ensures kept { KeepsOutside at (at + 4) bytes.old bytes.new }
{
    set_le32_at(bytes, at, number as u32);
}

/// Writes a hard limit, a soft limit and a usage.
fn write_limits(bytes: &mut [u8], at: usize, hard: u64, soft: u64, used: u64)
    requires within { at + 12 ≤ length bytes.old }
    requires hard { hard < 2 ^ 32 }
    requires soft { soft < 2 ^ 32 }
    requires used { used < 2 ^ 32 }
    ensures hard { number_at 4 bytes.new at ≡ hard }
    ensures soft { number_at 4 bytes.new (at + 4) ≡ soft }
    ensures used { number_at 4 bytes.new (at + 8) ≡ used }
    ensures kept { KeepsOutside at (at + 12) bytes.old bytes.new }
{
    write4(bytes, at, hard);
    write4(bytes, at + 4, soft);
    write4(bytes, at + 8, used);
}

/// Writes a time of a record.
fn write_time(format: Format, bytes: &mut [u8], at: usize, time: u64)
    requires flat { is_flat format ≡ true }
    requires within { at + time_width format ≤ length bytes.old }
    requires small { time < past_time format }
    ensures value { number_at (time_width format) bytes.new at ≡ time }
    ensures kept { KeepsOutside at (at + time_width format) bytes.old bytes.new }
{
    match format {
        Format::V1 => set_le64_at(bytes, at, time),
        Format::V1R32 => set_le32_at(bytes, at, time as u32),
        Format::V2R0 | Format::V2R1 => unreachable!(),
    }
}

/// Writes the two times of a record that starts at a place, which in record 0 are the grace periods.
pub(crate) fn write_times(format: Format, bytes: &mut [u8], start: usize, block: u64, inode: u64)
    requires flat { is_flat format ≡ true }
    requires within { start + record_size format ≤ length bytes.old }
    requires block { block < past_time format }
    requires inode { inode < past_time format }
    ensures block { number_at (time_width format) bytes.new (start + block_time_at) ≡ block }
    ensures inode { number_at (time_width format) bytes.new (start + inode_time_at format) ≡ inode }
    ensures kept { KeepsOutside (start + block_time_at) (start + record_size format) bytes.old bytes.new }
{
    write_time(format, bytes, start + TIMES, block);
    write_time(format, bytes, start + second_time(format), inode);
}

/// Writes the record of an identifier, but its times.
pub(crate) fn write_numbers(format: Format, bytes: &mut [u8], at: usize, rec: &Rec)
    requires flat { is_flat format ≡ true }
    requires within { at + block_time_at ≤ length bytes.old }
    requires fits { unfit format 0 rec.now ≡ None }
    ensures bhard { number_at 4 bytes.new at ≡ rec.now.bhard }
    ensures bsoft { number_at 4 bytes.new (at + 4) ≡ rec.now.bsoft }
    ensures space { number_at 4 bytes.new (at + 8) ≡ kib_of rec.now.space }
    ensures ihard { number_at 4 bytes.new (at + 12) ≡ rec.now.ihard }
    ensures isoft { number_at 4 bytes.new (at + 16) ≡ rec.now.isoft }
    ensures inodes { number_at 4 bytes.new (at + 20) ≡ rec.now.inodes }
    ensures kept { KeepsOutside at (at + block_time_at) bytes.old bytes.new }
{
    write_limits(bytes, at, rec.bhard, rec.bsoft, rec.kib());
    write_limits(bytes, at + 12, rec.ihard, rec.isoft, rec.inodes);
}

/// Writes the record of an identifier. The times of record 0 stay.
pub(crate) fn write_record(format: Format, bytes: &mut [u8], id: u32, rec: &Rec)
    requires flat { is_flat format ≡ true }
    requires within { record_start format id + record_size format ≤ length bytes.old }
    requires kept { IsKept format id rec.now }
    ensures written { timed_record format bytes.new id ≡ rec.now }
    ensures others { KeepsOutside (record_start format id) (record_start format id + record_size format)
        bytes.old bytes.new }
    ensures times { id ≡ 0 → KeepsOutside (record_start format 0) (block_time_start format 0) bytes.old bytes.new }
{
    let start = record_start(format, id as usize);
    write_numbers(format, bytes, start, rec);
    if id == 0 {
        return;
    }
    write_times(format, bytes, start, rec.btime, rec.itime);
}
