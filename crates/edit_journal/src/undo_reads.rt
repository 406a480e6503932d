//! What is read of an undo file.

ghost use Rattle.std.specs.Prelude.{◌≡◌, ◌↔◌, ◌<◌, ◌≤◌, ◌+◌, ◌^◌, ◌&&◌, ◌||◌, [], ℕ, length, nat_eq, nat_le};
ghost use Rattle.std.specs.Prelude.{slice_index, unwrap_or, IfOk, IsTrue, OnOk};
ghost use Rattle.edit_journal.specs.Recovered.{bytes_of};
ghost use Rattle.edit_journal.specs.Keeps.{OnlyLooks};
ghost use Rattle.edit_journal.specs.Recovery.{BeginsSo};
ghost use Rattle.edit_journal.specs.Undo.{range_at, saved_ranges, ranges_fit};
ghost use Rattle.edit_journal.specs.UndoSaves.{HoldsItsRanges};
ghost use Rattle.quota_types.specs.Bytes.{byte_at, number_at};

use disk::{Disk, DiskFault};
use quota_types::{le16_at, le32_at, le64_at};

/// The gate of an undo file, the length of the old file, and the number of saved ranges.
#[derive(Clone, Copy)]
pub(crate) struct UndoHead {
    pub gate: u8,
    pub old_length: u64,
    pub count: u32,
}

/// The place of a saved range, and the number of its saved bytes.
#[derive(Clone, Copy)]
pub(crate) struct SpanHead {
    pub at: u64,
    pub saved: u16,
}

/// Reads bytes of a file from a place on; those past its end are 0.
///
/// # Errors
///
/// The disk failed. Nothing changed, but `buf` may hold anything.
pub fn read_padded<D: Disk>(
    disk: &mut D,
    name: &str,
    at: u64,
    buf: &mut [u8],
) -> Result<(), DiskFault>
    requires { length buf.old ≤ 1024 }
    ensures same { OnOk result (IsTrue D.tells → (j : ℕ) → j < length buf.old
        → slice_index buf.new j ≡ byte_at (bytes_of (D.seen disk.old) name.now) (at + j)) }
    ensures looks { OnlyLooks (D.seen disk.old) (D.seen disk.new) result }
{
    let count = disk.read(name, at, buf)?;
    for place in count..buf.len() {
        buf[place] = 0;
    }
    Ok(())
}

/// Reads the head of an undo file.
pub(crate) fn read_head<D: Disk>(disk: &mut D, undo: &str) -> Result<UndoHead, DiskFault>
    ensures begins { IfOk result (λ head. IsTrue D.tells
        → BeginsSo head.gate head.old_length head.count (bytes_of (D.seen disk.old) undo.now)) }
    ensures looks { OnlyLooks (D.seen disk.old) (D.seen disk.new) result }
{
    let mut bytes = [0; 20];
    read_padded(disk, undo, 0, &mut bytes)?;
    Ok(UndoHead {
        gate: bytes[0],
        old_length: le64_at(&bytes, 8),
        count: le32_at(&bytes, 16),
    })
}

/// Reads the head of a saved range.
pub(crate) fn read_span<D: Disk>(disk: &mut D, undo: &str, k: u32) -> Result<SpanHead, DiskFault>
    requires { k < 12 }
    ensures place { IfOk result (λ span. IsTrue D.tells
        → span.at ≡ number_at 8 (bytes_of (D.seen disk.old) undo.now) (range_at k)) }
    ensures number { IfOk result (λ span. IsTrue D.tells
        → span.saved ≡ number_at 2 (bytes_of (D.seen disk.old) undo.now) (range_at k + 8)) }
    ensures looks { OnlyLooks (D.seen disk.old) (D.seen disk.new) result }
{
    let mut bytes = [0; 16];
    read_padded(disk, undo, 1024 + 1040 * u64::from(k), &mut bytes)?;
    Ok(SpanHead {
        at: le64_at(&bytes, 0),
        saved: le16_at(&bytes, 8),
    })
}

/// Whether a saved range fits.
fn fits(old_length: u64, span: SpanHead) -> bool
    ensures { result ≡ (nat_le span.saved 1024 && nat_le span.at (2 ^ 42)
        && (nat_eq span.saved 0 || nat_le (span.at + span.saved) old_length)) }
{
    span.saved <= 1024
        && span.at <= 1 << 42
        && (span.saved == 0 || span.at + u64::from(span.saved) <= old_length)
}

/// Whether all saved ranges fit.
pub(crate) fn all_fit<D: Disk>(
    disk: &mut D,
    undo: &str,
    old_length: u64,
    count: u32,
) -> Result<bool, DiskFault>
    requires { count ≤ 12 }
    ensures fit { IfOk result (λ fit. IsTrue D.tells → fit
        ≡ ranges_fit old_length (saved_ranges (bytes_of (D.seen disk.old) undo.now) 0 count)) }
    ensures looks { OnlyLooks (D.seen disk.old) (D.seen disk.new) result }
{
    for k in 0..count {
        let span = read_span(disk, undo, k)?;
        if !fits(old_length, span) {
            return Ok(false);
        }
    }
    Ok(true)
}

/// Whether the first saved ranges of an undo file end within a length.
fn end_within<D: Disk>(disk: &mut D, undo: &str, length: u64, count: u32) -> Result<bool, DiskFault>
    requires { count ≤ 12 }
    ensures within { IfOk result (λ within. IsTrue D.tells → (IsTrue within ↔ ((k : ℕ) → k < count
        → range_at k + 16 + number_at 2 (bytes_of (D.seen disk.old) undo.now) (range_at k + 8) ≤ length))) }
    ensures looks { OnlyLooks (D.seen disk.old) (D.seen disk.new) result }
{
    for k in 0..count {
        let span = read_span(disk, undo, k)?;
        let end = 1040 + 1040 * u64::from(k) + u64::from(span.saved);
        if end > length {
            return Ok(false);
        }
    }
    Ok(true)
}

/// Whether an undo file that names this many ranges holds them: it has room for its head, and each of them ends within
/// it. Of more than 12 a recovery reads none.
pub(crate) fn holds_ranges<D: Disk>(disk: &mut D, undo: &str, count: u32) -> Result<bool, DiskFault>
    ensures holds { IfOk result (λ holds. IsTrue D.tells → count ≡ number_at 4 (bytes_of (D.seen disk.old) undo.now) 16
        → (IsTrue holds ↔ HoldsItsRanges (bytes_of (D.seen disk.old) undo.now))) }
    ensures looks { OnlyLooks (D.seen disk.old) (D.seen disk.new) result }
{
    let length = disk.size(undo)?.unwrap_or(0);
    if length < 1024 {
        return Ok(false);
    }
    if count > 12 {
        return Ok(true);
    }
    let within = end_within(disk, undo, length, count)?;
    Ok(within)
}
