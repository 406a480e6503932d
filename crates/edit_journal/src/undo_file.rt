//! The parts of an undo file.

ghost use Rattle.std.specs.Prelude.{◌≡◌, ◌≢◌, ◌+◌, ◌<◌, ◌≤◌, ◌^◌, [], ◌∷◌, length, unwrap_or, IsTrue, OnOk};
ghost use Rattle.disk.specs.DiskSeen.{IsDurable, Passes};
ghost use Rattle.disk.specs.DiskCalls.{TearsRange};
ghost use Rattle.edit_journal.specs.Recovered.{bytes_of};
ghost use Rattle.edit_journal.specs.Keeps.{Keeps};
ghost use Rattle.edit_journal.specs.Settled.{TearsFrom};
ghost use Rattle.edit_journal.specs.ByteRanges.{ranges_of, with_laid};
ghost use Rattle.edit_journal.specs.Undo.{range_at};
ghost use Rattle.edit_journal.specs.UndoSaves.{Saves, SavesOne};
ghost use Rattle.outside.specs.World.{KeepsOthers, with_bytes};
ghost use Rattle.quota_types.specs.Bytes.{number_at};

use crate::KeptRange;
use disk::{Disk, DiskFault};
use quota_types::{set_le16_at, set_le32_at, set_le64_at};

/// The gate of an undo file that a recovery lays back.
pub const OPEN: u8 = 1;

/// The gate of an undo file that says nothing.
pub const CLOSED: u8 = 0;

/// Sets the gate of an undo file, and waits until it is kept.
///
/// # Errors
///
/// The disk failed. A stop may leave any byte as the gate.
pub fn set_gate<D: Disk>(disk: &mut D, undo: &str, gate: u8) -> Result<(), DiskFault>
    ensures set { OnOk result (IsTrue D.tells
        → (D.seen disk.new).files ≡ with_bytes (D.seen disk.old).files undo.now 0 (gate ∷ [])) }
    ensures kept { OnOk result (IsTrue D.tells → IsDurable undo.now (D.seen disk.new)) }
    ensures passes { Passes (TearsRange undo.now 0 1) (D.seen disk.old) (D.seen disk.new) }
    ensures keeps { Keeps (KeepsOthers undo.now) (D.seen disk.old) (D.seen disk.new) result }
{
    disk.write(undo, 0, &[gate])?;
    disk.sync(undo)?;
    Ok(())
}

/// Writes bytes into a file, if there are any.
pub(crate) fn write_some<D: Disk>(
    disk: &mut D,
    name: &str,
    at: u64,
    bytes: &[u8],
) -> Result<(), DiskFault>
    requires few { length bytes.now ≤ 1024 }
    requires place { at ≤ 2 ^ 42 }
    ensures written { OnOk result (IsTrue D.tells → bytes_of (D.seen disk.new) name.now
        ≡ with_laid (bytes_of (D.seen disk.old) name.now) at bytes.now) }
    ensures passes { Passes (TearsRange name.now at (length bytes.now)) (D.seen disk.old) (D.seen disk.new) }
    ensures keeps { Keeps (KeepsOthers name.now) (D.seen disk.old) (D.seen disk.new) result }
{
    if bytes.is_empty() {
        return Ok(());
    }
    disk.write(name, at, bytes)
}

/// What stands before the bytes of a saved range.
fn range_head(at: u64, count: u16) -> [u8; 16]
    ensures place { number_at 8 result 0 ≡ at }
    ensures number { number_at 2 result 8 ≡ count }
    ensures rest { number_at 6 result 10 ≡ 0 }
    ensures whole { length result ≡ 16 }
{
    let mut head = [0; 16];
    set_le64_at(&mut head, 0, at);
    set_le16_at(&mut head, 8, count);
    head
}

/// Saves as many bytes of a file as a buffer has room for, as a range of its undo file.
fn save_through<D: Disk>(
    disk: &mut D,
    name: &str,
    undo: &str,
    k: u64,
    at: u64,
    buf: &mut [u8],
) -> Result<(), DiskFault>
    requires apart { name.now ≢ undo.now }
    requires number { k < 12 }
    requires place { at ≤ 2 ^ 42 }
    requires few { length buf.old ≤ 1024 }
    ensures saved { OnOk result (IsTrue D.tells → SavesOne (bytes_of (D.seen disk.old) name.now) k at (length buf.old)
        (bytes_of (D.seen disk.new) undo.now)) }
    ensures passes { Passes (TearsRange undo.now (range_at k) 1040) (D.seen disk.old) (D.seen disk.new) }
    ensures keeps { Keeps (KeepsOthers undo.now) (D.seen disk.old) (D.seen disk.new) result }
{
    let count = disk.read(name, at, buf)?;
    let place = 1024 + 1040 * k;
    disk.write(undo, place, &range_head(at, count as u16))?;
    write_some(disk, undo, place + 16, &buf[..count])?;
    Ok(())
}

/// Saves what a file has in a range, as a range of its undo file.
///
/// # Errors
///
/// The disk failed. A stop may leave any bytes where the range is saved.
pub fn save_range<D: Disk>(
    disk: &mut D,
    name: &str,
    undo: &str,
    k: u64,
    range: &KeptRange,
) -> Result<(), DiskFault>
    requires apart { name.now ≢ undo.now }
    requires number { k < 12 }
    ensures saved { OnOk result (IsTrue D.tells → SavesOne (bytes_of (D.seen disk.old) name.now) k
        range.now.at (length range.now.bytes.items) (bytes_of (D.seen disk.new) undo.now)) }
    ensures passes { Passes (TearsRange undo.now (range_at k) 1040) (D.seen disk.old) (D.seen disk.new) }
    ensures keeps { Keeps (KeepsOthers undo.now) (D.seen disk.old) (D.seen disk.new) result }
{
    let mut room = [0; 1024];
    save_through(
        disk,
        name,
        undo,
        k,
        range.at,
        &mut room[..range.bytes.len()],
    )
}

/// The length of the old file and the number of ranges, as an undo file has them from byte 8 on.
fn undo_head(old_length: u64, count: u32) -> [u8; 12]
    ensures old_length { number_at 8 result 0 ≡ old_length }
    ensures count { number_at 4 result 8 ≡ count }
    ensures whole { length result ≡ 12 }
{
    let mut head = [0; 12];
    set_le64_at(&mut head, 0, old_length);
    set_le32_at(&mut head, 8, count);
    head
}

/// Saves what a file has in ranges, and its length, in its undo file, and waits until all of that is kept.
///
/// # Errors
///
/// The disk failed. A stop may leave any bytes from byte 8 of the undo file on.
pub fn save_ranges<D: Disk>(
    disk: &mut D,
    name: &str,
    undo: &str,
    ranges: &[KeptRange],
) -> Result<(), DiskFault>
    requires apart { name.now ≢ undo.now }
    requires most { length ranges.now ≤ 12 }
    ensures saved { OnOk result (IsTrue D.tells → 1024 ≤ length (bytes_of (D.seen disk.old) undo.now)
        → Saves (bytes_of (D.seen disk.old) name.now) (ranges_of ranges.now) (bytes_of (D.seen disk.new) undo.now)) }
    ensures kept { OnOk result (IsTrue D.tells → IsDurable undo.now (D.seen disk.new)) }
    ensures passes { Passes (TearsFrom undo.now 8) (D.seen disk.old) (D.seen disk.new) }
    ensures keeps { Keeps (KeepsOthers undo.now) (D.seen disk.old) (D.seen disk.new) result }
{
    let old_length = disk.size(name)?.unwrap_or(0);
    for (index, range) in ranges.iter().enumerate() {
        save_range(disk, name, undo, index as u64, range)?;
    }
    disk.write(undo, 8, &undo_head(old_length, ranges.len() as u32))?;
    disk.sync(undo)?;
    Ok(())
}
