//! Laws of recoveries, for those who build on them.

ghost use Rattle.std.specs.Prelude.{List, ℕ};
ghost use Rattle.disk.specs.DiskSeen.{EachImage, Passes};
ghost use Rattle.disk.specs.DiskLaws.{IsFresh};
ghost use Rattle.edit_journal.specs.Recovered.{RecoversSame};
ghost use Rattle.edit_journal.specs.Settled.{RecoversToEither};
ghost use Rattle.outside.specs.World.{World};

use disk::Disk;

/// Where whatever a stop may leave recovers to one of two files, so does what a stop at any moment of a recovery
/// leaves; and what a stop then may leave of a disk that has those files alone, so that a stop in the recovery of them
/// leaves such files again, and so on.
pub fn a_stopped_recovery_recovers<D: Disk>()
    ensures stopped { (name undo und old new : List ℕ) (before after : D) (image : World)
        → EachImage (RecoversToEither name undo old new) (D.seen before)
        → Passes (RecoversSame name undo und) (D.seen before) (D.seen after)
        → (D.seen after).since (D.seen before).moment image → RecoversToEither name undo old new image }
    ensures again { (name undo old new : List ℕ) (disk : D) (left : World) → RecoversToEither name undo old new left
        → IsFresh left (D.seen disk) → EachImage (RecoversToEither name undo old new) (D.seen disk) }
{}
