//! A commit of ranges to a file.

ghost use Rattle.std.specs.Prelude.{◌≡◌, ◌≢◌, ◌≤◌, List, ℕ, length, IsTrue, OnOk, false};
ghost use Rattle.disk.specs.DiskSeen.{OnlyLeaves, Passes};
ghost use Rattle.edit_journal.specs.Keeps.{Keeps};
ghost use Rattle.edit_journal.specs.Settled.{CanCommit, IsSettled, RecoversToEither};
ghost use Rattle.edit_journal.specs.Recovered.{KeepsOtherThree};
ghost use Rattle.edit_journal.specs.ByteRanges.{laid, ranges_of};
ghost use Rattle.outside.specs.World.{KeepsOtherTwo};

use crate::undo_file::{CLOSED, OPEN, save_ranges, set_gate};
use crate::{KeptRange, ready_undo, write_ranges};
use disk::{Disk, DiskFault};

/// Writes ranges into a file in place. Where the file is settled, a stop of the machine at any moment leaves files of
/// which a recovery makes the old file or the new one, and the new file is settled then.
///
/// # Errors
///
/// The disk failed. A recovery makes the old file or the new one.
pub fn commit_ranges<D: Disk>(
    disk: &mut D,
    name: &str,
    undo: &str,
    ranges: &[KeptRange],
) -> Result<(), DiskFault>
    requires apart { name.now ≢ undo.now }
    requires most { length ranges.now ≤ 12 }
    ensures leaves { IsTrue D.tells → (old : List ℕ) → IsSettled name.now undo.now old (D.seen disk.old)
        → OnlyLeaves (RecoversToEither name.now undo.now old (laid (ranges_of ranges.now) old)) (D.seen disk.old)
        (D.seen disk.new) }
    ensures settled { OnOk result (IsTrue D.tells → (old : List ℕ) → IsSettled name.now undo.now old (D.seen disk.old)
        → IsSettled name.now undo.now (laid (ranges_of ranges.now) old) (D.seen disk.new)) }
    ensures others { Passes (KeepsOtherTwo name.now undo.now) (D.seen disk.old) (D.seen disk.new) }
    ensures synced { OnOk result (IsTrue D.tells → (D.seen disk.new).unsynced name.now ≡ false) }
    ensures keeps { Keeps (KeepsOtherTwo name.now undo.now) (D.seen disk.old) (D.seen disk.new) result }
{
    save_ranges(disk, name, undo, ranges)?;
    set_gate(disk, undo, OPEN)?;
    write_ranges(disk, name, ranges)?;
    set_gate(disk, undo, CLOSED)?;
    Ok(())
}

/// Writes ranges into a file in place, and makes its undo file before where there is none. Where a commit can start, a
/// stop of the machine at any moment leaves files of which a recovery makes the old file or the new one, and the new
/// file is settled then. All other files but the undo file, under both its names, stay.
///
/// # Errors
///
/// The disk failed. A recovery makes the old file or the new one.
pub fn commit_file<D: Disk>(
    disk: &mut D,
    name: &str,
    undo: &str,
    und: &str,
    ranges: &[KeptRange],
) -> Result<(), DiskFault>
    requires apart { name.now ≢ undo.now }
    requires unmade { name.now ≢ und.now }
    requires first { und.now ≢ undo.now }
    requires most { length ranges.now ≤ 12 }
    ensures leaves { IsTrue D.tells → (old : List ℕ) → CanCommit name.now undo.now old (D.seen disk.old)
        → OnlyLeaves (RecoversToEither name.now undo.now old (laid (ranges_of ranges.now) old)) (D.seen disk.old)
        (D.seen disk.new) }
    ensures settled { OnOk result (IsTrue D.tells → (old : List ℕ) → CanCommit name.now undo.now old (D.seen disk.old)
        → IsSettled name.now undo.now (laid (ranges_of ranges.now) old) (D.seen disk.new)) }
    ensures others { IsTrue D.tells
        → Passes (KeepsOtherThree name.now undo.now und.now) (D.seen disk.old) (D.seen disk.new) }
    ensures synced { OnOk result (IsTrue D.tells → (D.seen disk.new).unsynced name.now ≡ false) }
    ensures keeps { Keeps (KeepsOtherThree name.now undo.now und.now) (D.seen disk.old) (D.seen disk.new) result }
{
    ready_undo(disk, undo, und)?;
    commit_ranges(disk, name, undo, ranges)?;
    Ok(())
}
