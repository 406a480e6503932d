//! The ranges that are written into the file itself.

ghost use Rattle.std.specs.Prelude.{◌≡◌, [], List, ℕ, Some, length, IsTrue, OnOk, false};
ghost use Rattle.disk.specs.DiskSeen.{IsDurable, Passes};
ghost use Rattle.disk.specs.DiskCalls.{TearsRange};
ghost use Rattle.edit_journal.specs.Recovered.{bytes_of};
ghost use Rattle.edit_journal.specs.Keeps.{Keeps};
ghost use Rattle.edit_journal.specs.Settled.{TearsRanges};
ghost use Rattle.edit_journal.specs.ByteRanges.{laid, ranges_of, with_laid};
ghost use Rattle.outside.specs.World.{KeepsOthers};

use crate::KeptRange;
use disk::{Disk, DiskFault};

/// Writes a range into a file.
///
/// # Errors
///
/// The disk failed. A stop may leave any bytes in the range.
pub fn write_range<D: Disk>(disk: &mut D, name: &str, range: &KeptRange) -> Result<(), DiskFault>
    ensures written { OnOk result (IsTrue D.tells → (D.seen disk.new).files name.now
        ≡ Some (with_laid (bytes_of (D.seen disk.old) name.now) range.now.at range.now.bytes.items)) }
    ensures passes { Passes (TearsRange name.now range.now.at (length range.now.bytes.items)) (D.seen disk.old)
        (D.seen disk.new) }
    ensures keeps { Keeps (KeepsOthers name.now) (D.seen disk.old) (D.seen disk.new) result }
{
    disk.write(name, range.at, range.bytes.as_slice())
}

/// Writes ranges into a file, one after the other, and waits until the file is kept.
///
/// # Errors
///
/// The disk failed. A stop may leave any bytes in the ranges, and past the old end.
pub fn write_ranges<D: Disk>(
    disk: &mut D,
    name: &str,
    ranges: &[KeptRange],
) -> Result<(), DiskFault>
    ensures written { OnOk result (IsTrue D.tells → (old : List ℕ) → (D.seen disk.old).files name.now ≡ Some old
        → (D.seen disk.new).files name.now ≡ Some (laid (ranges_of ranges.now) old)) }
    ensures kept { OnOk result (IsTrue D.tells → IsDurable name.now (D.seen disk.new)) }
    ensures passes { Passes (TearsRanges name.now (ranges_of ranges.now)) (D.seen disk.old) (D.seen disk.new) }
    ensures synced { OnOk result (IsTrue D.tells → (D.seen disk.new).unsynced name.now ≡ false) }
    ensures keeps { Keeps (KeepsOthers name.now) (D.seen disk.old) (D.seen disk.new) result }
{
    for range in ranges {
        write_range(disk, name, range)?;
    }
    disk.sync(name)?;
    Ok(())
}
