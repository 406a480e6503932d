ghost use Rattle.std.specs.Prelude.{◌≡◌, ◌+◌, ◌*◌, ◌%◌, ◌<◌, ◌≤◌, length, List, ℕ, None, IfSome, true};
ghost use Rattle.quota_types.specs.Format.{is_flat, record_size};
ghost use Rattle.quota_types.specs.Kept.{IsKept};
ghost use Rattle.quota_types.specs.Range.{unfit};
ghost use Rattle.quota_types.specs.Rec.{kib_of};
ghost use Rattle.quota_v1.specs.FlatFile.{stored_at, timed_at, unless_zeros};
ghost use Rattle.quota_v1.specs.Place.{past_time, record_start};
ghost use Rattle.quota_v1.specs.Slot.{AreFrom, IsFirstRecord};

use crate::flat_change::{write_numbers, write_times};
use crate::flat_record::{
    MOST_RECORD, TIMES, is_zeros, number4, record_start, second_time, time_at,
};
use quota_types::{Entry, Format, Grace, Rec};

/// The bytes of a record, from a place on, as a record.
fn stored_at(format: Format, bytes: &[u8], at: usize) -> Rec
    requires flat { is_flat format ≡ true }
    requires within { at + record_size format ≤ length bytes.now }
    ensures value { result ≡ stored_at format bytes.now at }
    ensures fits { unfit format 0 result ≡ None }
    ensures whole { 1024 * kib_of result.space ≡ result.space }
{
    Rec {
        bhard: number4(bytes, at),
        bsoft: number4(bytes, at + 4),
        space: 1024 * number4(bytes, at + 8),
        ihard: number4(bytes, at + 12),
        isoft: number4(bytes, at + 16),
        inodes: number4(bytes, at + 20),
        btime: time_at(format, bytes, at + TIMES),
        itime: time_at(format, bytes, at + second_time(format)),
    }
}

/// The bytes of a record, from a place on, as the record of an identifier: identifier 0 has no timers, since the times
/// there are the grace periods.
fn timed_at(format: Format, bytes: &[u8], at: usize, id: u32) -> Rec
    requires flat { is_flat format ≡ true }
    requires within { at + record_size format ≤ length bytes.now }
    requires small { id < 1048576 }
    ensures value { result ≡ timed_at format bytes.now at id }
    ensures kept { IsKept format id result }
{
    let rec = stored_at(format, bytes, at);
    if id == 0 {
        Rec {
            btime: 0,
            itime: 0,
            ..rec
        }
    } else {
        rec
    }
}

/// The record of an identifier by its bytes, which stand from a place on, where they are not all zero.
pub(crate) fn record_at(format: Format, bytes: &[u8], at: usize, id: u32) -> Option<Rec>
    requires flat { is_flat format ≡ true }
    requires within { at + record_size format ≤ length bytes.now }
    requires small { id < 1048576 }
    ensures value { result ≡ unless_zeros (timed_at format bytes.now at id) }
    ensures kept { IfSome result (IsKept format id) }
{
    let rec = timed_at(format, bytes, at, id);
    if is_zeros(&rec) { None } else { Some(rec) }
}

/// The first identifier from one up to another one that has a record, by bytes that begin with the record of `first`.
pub(crate) fn first_record(
    format: Format,
    bytes: &[u8],
    first: u32,
    from: u32,
    to: u32,
) -> Option<Entry>
    requires flat { is_flat format ≡ true }
    requires begins { first ≤ from }
    requires within { record_start format to ≤ record_start format first + length bytes.now }
    requires small { to ≤ 1048576 }
    ensures found { (file : List ℕ) → length file % record_size format ≡ 0
        → AreFrom file (record_start format first) bytes.now
        → IsFirstRecord format file from to result }
    ensures kept { IfSome result (λ entry. IsKept format entry.id entry.rec) }
    ensures between { IfSome result (λ entry. (from ≤ entry.id) × (entry.id < to)) }
{
    for id in from..to {
        let at = record_start(format, (id - first) as usize);
        if let Some(rec) = record_at(format, bytes, at, id) {
            return Some(Entry { id, rec });
        }
    }
    None
}

/// The bytes of a record, with two times in the place of its timers. Behind them there are zeros.
pub(crate) fn record_bytes(format: Format, rec: &Rec, times: Grace) -> [u8; 40]
    requires flat { is_flat format ≡ true }
    requires fits { unfit format 0 rec.now ≡ None }
    requires block { times.block < past_time format }
    requires inode { times.inode < past_time format }
    ensures stored { stored_at format result 0 ≡ record rec.now {
      space = 1024 * kib_of rec.now.space;
      btime = times.block;
      itime = times.inode;
    } }
    ensures whole { record_size format ≤ length result }
{
    let mut bytes = [0; MOST_RECORD];
    write_numbers(format, &mut bytes, 0, rec);
    write_times(format, &mut bytes, 0, times.block, times.inode);
    bytes
}
