//! The calls of a store, on a journal.

use crate::journal::Journal;
use crate::kinds::{NameKind, kind_of};
use crate::overlay::{laid_read, laid_size, overlaps_any};
use disk::Disk;
use edit_journal::KeptRange;
use outside::StoreFault;

impl<D: Disk> Journal<D> {
    ghost use Rattle.std.specs.Prelude.{◌≡◌, ◌≢◌, ◌⊎◌, ◌^◌, ◌≤◌, [], None, Some, length, option_map, take, false, true};
    ghost use Rattle.std.specs.Prelude.{IfOk, IsSome, IsTrue, OnErr, OnOk, is_ok};
    ghost use Rattle.journal_store.specs.Calls.{CommitsNothing, MakesFile, Refuses, RefusesFor, ReplacesFile};
    ghost use Rattle.journal_store.specs.Calls.{SyncsFile};
    ghost use Rattle.journal_store.specs.JournalStore.{Holds, IsAbsent, IsRefused, IsRenameRefused, IsReplaceRefused};
    ghost use Rattle.journal_store.specs.JournalStore.{IsWriteRefused, KeepsSame, disk_of, told_of};
    ghost use Rattle.journal_store.specs.Kinds.{kind_of};
    ghost use Rattle.journal_store.specs.Told.{LooksAtName};
    ghost use Rattle.outside.specs.Unsynced.{AddsNone, with_handed, with_name};
    ghost use Rattle.outside.specs.World.{KeepsOtherTwo, KeepsOthers, bytes_from, with_bytes, with_file, with_new_name};

    /// Begins a call on a name: holds it where it is plain, and answers whether it is.
    fn enter(&mut self, name: &str) -> Result<bool, StoreFault>
        ensures plain { IfOk result (λ plain. IsTrue plain → kind_of name.now ≡ NameKind.Plain) }
        ensures held { IfOk result (λ plain. IsTrue plain → Holds self.new name.now) }
        ensures new { IfOk result (λ plain. plain ≡ false → kind_of name.now ≡ NameKind.New) }
        ensures ranges { KeepsSame self.old self.new }
        ensures leaves { IsTrue D.tells → LooksAtName (is_ok result) name.now (told_of self.old) (told_of self.new) }
        ensures moments { IsTrue D.tells → CommitsNothing name.now (disk_of self.old) (disk_of self.new) }
        ensures refuses { RefusesFor (IsRefused self.old name.now) D.seen self.old.disk self.new.disk result }
    {
        match kind_of(name) {
            NameKind::Barred => Err(StoreFault),
            NameKind::New => Ok(false),
            NameKind::Plain => {
                self.hold(name)?;
                Ok(true)
            }
        }
    }

    /// The length of a file, or `None` where there is none of this name.
    pub(crate) fn size(&mut self, name: &str) -> Result<Option<u64>, StoreFault>
        ensures found { IfOk result
            (λ found. IsTrue D.tells → found ≡ option_map length ((told_of self.old).files name.now)) }
        ensures leaves { IsTrue D.tells → LooksAtName (is_ok result) name.now (told_of self.old) (told_of self.new) }
        ensures moments { IsTrue D.tells → CommitsNothing name.now (disk_of self.old) (disk_of self.new) }
        ensures refuses { RefusesFor (IsRefused self.old name.now) D.seen self.old.disk self.new.disk result }
    {
        let plain = self.enter(name)?;
        if plain {
            let Ok(held) = laid_size(&mut self.disk, name, self.ranges.as_slice()) else {
                return Err(StoreFault);
            };
            return Ok(held);
        }
        let Ok(found) = self.disk.size(name) else {
            return Err(StoreFault);
        };
        Ok(found)
    }

    /// Reads the bytes of a file from place `at` on, as many as `buf` holds or the file has, and answers how many.
    pub(crate) fn read(&mut self, name: &str, at: u64, buf: &mut [u8]) -> Result<usize, StoreFault>
        requires { length buf.old ≤ 1024 }
        ensures fits { IfOk result (λ count. count ≤ length buf.new) }
        ensures count { IfOk result (λ count. IsTrue D.tells
            → count ≡ length (bytes_from ((told_of self.old).files name.now) at (length buf.old))) }
        ensures bytes { IfOk result (λ count. IsTrue D.tells
            → take count buf.new ≡ bytes_from ((told_of self.old).files name.now) at (length buf.old)) }
        ensures leaves { IsTrue D.tells → LooksAtName (is_ok result) name.now (told_of self.old) (told_of self.new) }
        ensures moments { IsTrue D.tells → CommitsNothing name.now (disk_of self.old) (disk_of self.new) }
        ensures refuses { RefusesFor (IsRefused self.old name.now) D.seen self.old.disk self.new.disk result }
    {
        let plain = self.enter(name)?;
        if plain {
            let Ok(held) = laid_read(&mut self.disk, name, self.ranges.as_slice(), at, buf) else {
                return Err(StoreFault);
            };
            return Ok(held);
        }
        let Ok(count) = self.disk.read(name, at, buf) else {
            return Err(StoreFault);
        };
        Ok(count)
    }

    /// Writes bytes into a file at place `at`, or keeps them until it is synced.
    pub(crate) fn write(&mut self, name: &str, at: u64, bytes: &[u8]) -> Result<(), StoreFault>
        requires some { 1 ≤ length bytes.now }
        requires few { length bytes.now ≤ 1024 }
        requires place { at ≤ 2 ^ 42 }
        ensures ok { OnOk result (IsTrue D.tells
            → (told_of self.new).files ≡ with_bytes (told_of self.old).files name.now at bytes.now) }
        ensures unsynced { OnOk result (IsTrue D.tells
            → (told_of self.new).unsynced ≡ with_name (told_of self.old).unsynced name.now true) }
        ensures fault { OnErr result (IsTrue D.tells → ((told_of self.new).files ≡ (told_of self.old).files)
            ⊎ ((told_of self.new).files ≡ with_bytes (told_of self.old).files name.now at bytes.now)) }
        ensures names { IsTrue D.tells → KeepsOthers name.now (told_of self.old).unsynced (told_of self.new).unsynced }
        ensures absent { OnOk result (IsTrue D.tells → kind_of name.now ≡ NameKind.Plain
            → IsSome ((told_of self.old).files name.now)) }
        ensures moments { IsTrue D.tells → CommitsNothing name.now (disk_of self.old) (disk_of self.new) }
        ensures refuses { Refuses (IsWriteRefused self.old name.now at (length bytes.now))
            (IsWriteRefused self.old name.now at (length bytes.now)
            ⊎ (IsTrue D.tells → IsAbsent (told_of self.old).files name.now))
            (IsRefused self.old name.now) D.seen self.old.disk self.new.disk result }
    {
        let plain = self.enter(name)?;
        if !plain {
            let Ok(()) = self.disk.write(name, at, bytes) else {
                return Err(StoreFault);
            };
            return Ok(());
        }
        if self.ranges.is_full() || overlaps_any(self.ranges.as_slice(), at, bytes.len() as u64) {
            return Err(StoreFault);
        }
        let Ok(found) = self.disk.size(name) else {
            return Err(StoreFault);
        };
        if found.is_none() {
            return Err(StoreFault);
        }
        self.ranges.push(KeptRange::new(at, bytes));
        Ok(())
    }

    /// Makes an empty file of this name, in place of the one that was there. A plain one is recovered first, where it
    /// is not held, so its undo file changes nothing of the new one; it is not journaled, and until it is synced a stop
    /// may leave any bytes in it. No name is held then.
    pub(crate) fn create(&mut self, name: &str) -> Result<(), StoreFault>
        ensures ok { OnOk result (IsTrue D.tells
            → (told_of self.new).files ≡ with_file (told_of self.old).files name.now (Some [])) }
        ensures unsynced { OnOk result (IsTrue D.tells
            → (told_of self.new).unsynced ≡ with_name (told_of self.old).unsynced name.now true) }
        ensures fault { OnErr result (IsTrue D.tells → ((told_of self.new).files ≡ (told_of self.old).files)
            ⊎ ((told_of self.new).files ≡ with_file (told_of self.old).files name.now (Some []))) }
        ensures names { IsTrue D.tells → KeepsOthers name.now (told_of self.old).unsynced (told_of self.new).unsynced }
        ensures moments { IsTrue D.tells → MakesFile name.now (disk_of self.old) (disk_of self.new) result }
        ensures refuses { Refuses (IsReplaceRefused self.old name.now) (IsReplaceRefused self.old name.now)
            (IsRefused self.old name.now) D.seen self.old.disk self.new.disk result }
    {
        let plain = self.enter(name)?;
        if !plain {
            let Ok(()) = self.disk.create(name) else {
                return Err(StoreFault);
            };
            return Ok(());
        }
        if !self.ranges.is_empty() {
            return Err(StoreFault);
        }
        self.ready = false;
        let Ok(()) = self.disk.create(name) else {
            return Err(StoreFault);
        };
        Ok(())
    }

    /// Writes the ranges that are kept for a file into it, or waits for it where there are none.
    pub(crate) fn sync(&mut self, name: &str) -> Result<(), StoreFault>
        ensures unsynced { OnOk result (IsTrue D.tells
            → (told_of self.new).unsynced ≡ with_name (told_of self.old).unsynced name.now false) }
        ensures leaves { IsTrue D.tells → LooksAtName (is_ok result) name.now (told_of self.old) (told_of self.new) }
        ensures moments { IsTrue D.tells
            → SyncsFile name.now (told_of self.old).files (disk_of self.old) (disk_of self.new) result }
        ensures given { OnOk result (kind_of name.now ≡ NameKind.Plain → self.new.ranges.items ≡ []) }
        ensures kept { OnErr result (KeepsSame self.old self.new) }
        ensures refuses { RefusesFor (IsRefused self.old name.now) D.seen self.old.disk self.new.disk result }
    {
        let plain = self.enter(name)?;
        if !plain {
            let Ok(()) = self.disk.sync(name) else {
                return Err(StoreFault);
            };
            return Ok(());
        }
        if self.ranges.is_empty() {
            let Ok(()) = self.disk.sync(name) else {
                return Err(StoreFault);
            };
            return Ok(());
        }
        self.held_commit(name)?;
        Ok(())
    }

    /// Gives a file whose name is new a plain name, whose file is recovered first. A call that is refused touches
    /// nothing. No name is held then.
    pub(crate) fn rename(&mut self, from: &str, to: &str) -> Result<(), StoreFault>
        requires { from.now ≢ to.now }
        ensures ok { OnOk result (IsTrue D.tells
            → (told_of self.new).files ≡ with_new_name (told_of self.old).files from.now to.now) }
        ensures unsynced { OnOk result (IsTrue D.tells → IsSome ((told_of self.old).files from.now)
            → (told_of self.new).unsynced ≡ with_handed (told_of self.old).unsynced from.now to.now) }
        ensures absent { OnOk result (IsTrue D.tells → (told_of self.old).files from.now ≡ None
            → AddsNone (told_of self.old).unsynced (told_of self.new).unsynced) }
        ensures fault { OnErr result (IsTrue D.tells → (told_of self.new).files ≡ (told_of self.old).files) }
        ensures names { IsTrue D.tells
            → KeepsOtherTwo from.now to.now (told_of self.old).unsynced (told_of self.new).unsynced }
        ensures moments { IsTrue D.tells
            → ReplacesFile from.now to.now (told_of self.old).unsynced (told_of self.old).files
            (disk_of self.old) (disk_of self.new) result }
        ensures refuses { RefusesFor (IsRenameRefused self.old from.now to.now) D.seen self.old.disk
            self.new.disk result }
    {
        if kind_of(from) != NameKind::New || kind_of(to) != NameKind::Plain {
            return Err(StoreFault);
        }
        if !self.ranges.is_empty() {
            return Err(StoreFault);
        }
        self.hold(to)?;
        self.ready = false;
        let Ok(()) = self.disk.rename(from, to) else {
            return Err(StoreFault);
        };
        Ok(())
    }
}
