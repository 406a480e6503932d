//! The making of a new undo file.

ghost use Rattle.std.specs.Prelude.{◌≡◌, ◌≢◌, ◌↔◌, ◌≤◌, [], List, ℕ, Some, length, replicate, unwrap_or, IfOk, IsTrue};
ghost use Rattle.std.specs.Prelude.{OnOk, OnErr};
ghost use Rattle.disk.specs.DiskSeen.{ChangesNothing, IsDurable, OnlyLeaves, Passes};
ghost use Rattle.edit_journal.specs.Recovered.{bytes_of};
ghost use Rattle.edit_journal.specs.Keeps.{Keeps};
ghost use Rattle.edit_journal.specs.Settled.{CanCommit, IsSettled, MakesUndo, RecoversTo};
ghost use Rattle.outside.specs.Count.{Rose};
ghost use Rattle.outside.specs.World.{KeepsOtherTwo};

use disk::{Disk, DiskFault};

/// Makes a new undo file of 1,024 bytes 0, whose gate is closed, in place of the one that was there. It is written
/// under a first name, and takes its own once it is kept.
///
/// # Errors
///
/// The disk failed. A stop leaves the undo file as it was, or the new one.
pub fn make_undo<D: Disk>(disk: &mut D, undo: &str, und: &str) -> Result<(), DiskFault>
    requires apart { und.now ≢ undo.now }
    ensures made { OnOk result (IsTrue D.tells → (D.seen disk.new).files undo.now ≡ Some (replicate 1024 0)) }
    ensures kept { OnOk result (IsTrue D.tells → IsDurable undo.now (D.seen disk.new)) }
    ensures passes { IsTrue D.tells → Passes (MakesUndo und.now undo.now) (D.seen disk.old) (D.seen disk.new) }
    ensures keeps { Keeps (KeepsOtherTwo und.now undo.now) (D.seen disk.old) (D.seen disk.new) result }
{
    disk.create(und)?;
    disk.write(und, 0, &[0; 1024])?;
    disk.sync(und)?;
    disk.rename(und, undo)?;
    Ok(())
}

/// Whether an undo file has room for its head.
fn has_room<D: Disk>(disk: &mut D, undo: &str) -> Result<bool, DiskFault>
    ensures room { IfOk result
        (λ room. IsTrue D.tells → (IsTrue room ↔ (1024 ≤ length (bytes_of (D.seen disk.old) undo.now)))) }
    ensures names { (D.seen disk.new).unsynced ≡ (D.seen disk.old).unsynced }
    ensures cause { OnErr result (Rose (D.seen disk.old).faults (D.seen disk.new).faults) }
    ensures leaves { ChangesNothing (D.seen disk.old) (D.seen disk.new) }
{
    let length = disk.size(undo)?.unwrap_or(0);
    Ok(length >= 1024)
}

/// Makes a new undo file where there is none, or one without room for its head.
///
/// # Errors
///
/// The disk failed. A recovery makes the file that it was.
pub fn ready_undo<D: Disk>(disk: &mut D, undo: &str, und: &str) -> Result<(), DiskFault>
    requires apart { und.now ≢ undo.now }
    ensures leaves { IsTrue D.tells → (name file : List ℕ) → name ≢ und.now → name ≢ undo.now
        → CanCommit name undo.now file (D.seen disk.old)
        → OnlyLeaves (RecoversTo name undo.now file) (D.seen disk.old) (D.seen disk.new) }
    ensures settled { OnOk result (IsTrue D.tells → (name file : List ℕ) → name ≢ und.now → name ≢ undo.now
        → CanCommit name undo.now file (D.seen disk.old) → IsSettled name undo.now file (D.seen disk.new)) }
    ensures passes { IsTrue D.tells → Passes (MakesUndo und.now undo.now) (D.seen disk.old) (D.seen disk.new) }
    ensures keeps { Keeps (KeepsOtherTwo und.now undo.now) (D.seen disk.old) (D.seen disk.new) result }
{
    if has_room(disk, undo)? {
        return Ok(());
    }
    make_undo(disk, undo, und)?;
    Ok(())
}
