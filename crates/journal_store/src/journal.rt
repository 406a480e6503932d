//! A disk, and the ranges of one file that are kept until they are written in place.

ghost use Rattle.std.specs.Prelude.{◌≡◌, ◌≤◌, IsSome, IsTrue, length};
ghost use Rattle.std.proofs.Props.{props};
ghost use Rattle.edit_journal.specs.Recovered.{IsRecovered};
ghost use Rattle.edit_journal.specs.UndoName.{undo_name};
ghost use Rattle.journal_store.specs.Kinds.{kind_of};
ghost use Rattle.journal_store.specs.declared.kinds.NameKind.TheVariants.{Plain};

use crate::kinds::{NameKind, kind_of};
use arrayvec::{ArrayString, ArrayVec};
use disk::Disk;
use edit_journal::names::{und_name, undo_name};
use edit_journal::{KeptRange, commit_file, recover_file};
use outside::StoreFault;

/// A disk, and the ranges of one file that are kept until they are written in place.
#[derive(Drop)]
pub(crate) struct Journal<D: Disk> {
    pub(crate) disk: D,
    /// The name that was held last.
    pub(crate) name: ArrayString<250>,
    /// Whether the file of that name has been recovered, and since then was changed by nothing but commits that were
    /// done.
    pub(crate) ready: bool,
    /// The ranges that are kept for that name.
    pub(crate) ranges: ArrayVec<KeptRange, 12>,
    ghost plain: { kind_of name.bytes ≡ Plain },
    ghost settled: { IsTrue D.tells → IsTrue ready
        → IsRecovered name.bytes (undo_name name.bytes) ((D.seen disk).files name.bytes)
        (D.seen disk) } by { Prim.hlevel props },
    ghost there: { IsTrue D.tells → 1 ≤ length ranges.items → IsSome ((D.seen disk).files name.bytes) },
}

impl<D: Disk> Journal<D> {
    ghost use Rattle.std.specs.Prelude.{◌↔◌, [], false, OnErr, OnOk, is_ok};
    ghost use Rattle.std.specs.Str.{bytes_eq};
    ghost use Rattle.edit_journal.specs.Keeps.{CountsFaults};
    ghost use Rattle.journal_store.specs.Calls.{CommitsFile, CommitsNothing, RecoversFile, RefusesFor};
    ghost use Rattle.journal_store.specs.JournalStore.{Holds, IsPending, IsRefused, IsSecond, KeepsAny, KeepsSame};
    ghost use Rattle.journal_store.specs.JournalStore.{disk_of, told_of};
    ghost use Rattle.journal_store.specs.Kinds.{is_new};
    ghost use Rattle.journal_store.specs.Told.{LooksAtName};
    ghost use Rattle.outside.specs.Unsynced.{with_name};

    /// A journal of this disk that holds no name.
    pub(crate) fn new(disk: D) -> Self
        ensures disk { result.disk ≡ disk }
        ensures ranges { result.ranges.items ≡ [] }
    {
        let name = ArrayString::new();
        let ranges = ArrayVec::new();
        Journal {
            disk,
            name,
            ready: false,
            ranges,
        }
    }

    /// The disk. What is kept is given up.
    pub(crate) fn into_disk(self) -> D
        ensures { result ≡ self.disk }
    {
        self.disk
    }

    /// Whether this name was held last.
    fn is_named(&self, name: &str) -> bool
        ensures { result ≡ bytes_eq self.now.name.bytes name.now }
    {
        self.name.as_str() == name
    }

    /// Whether ranges are kept for a name.
    pub(crate) fn is_pending(&self, name: &str) -> bool
        ensures { IsTrue result ↔ IsPending self.now name.now }
    {
        self.is_named(name) && !self.ranges.is_empty()
    }

    /// Recovers a file, and holds its name.
    fn take(&mut self, name: &str) -> Result<(), StoreFault>
        requires plain { kind_of name.now ≡ NameKind.Plain }
        requires first { 1 ≤ length self.old.ranges.items → self.old.name.bytes ≡ name.now }
        ensures held { OnOk result (Holds self.new name.now) }
        ensures ranges { KeepsSame self.old self.new }
        ensures leaves { IsTrue D.tells → LooksAtName (is_ok result) name.now (told_of self.old) (told_of self.new) }
        ensures moments { IsTrue D.tells → RecoversFile name.now (disk_of self.old) (disk_of self.new) result }
        ensures counts { CountsFaults (disk_of self.old) (disk_of self.new) result }
    {
        self.ready = false;
        let undo = undo_name(name);
        let und = und_name(name);
        let Ok(()) = recover_file(&mut self.disk, name, undo.as_str(), und.as_str()) else {
            return Err(StoreFault);
        };
        self.name.clear();
        self.name.push_str(name);
        self.ready = true;
        Ok(())
    }

    /// Holds a name: recovers its file, where the name is not held.
    pub(crate) fn hold(&mut self, name: &str) -> Result<(), StoreFault>
        requires plain { kind_of name.now ≡ NameKind.Plain }
        ensures held { OnOk result (Holds self.new name.now) }
        ensures ranges { KeepsSame self.old self.new }
        ensures leaves { IsTrue D.tells → LooksAtName (is_ok result) name.now (told_of self.old) (told_of self.new) }
        ensures moments { IsTrue D.tells → CommitsNothing name.now (disk_of self.old) (disk_of self.new) }
        ensures refuses { RefusesFor (IsSecond self.old name.now) D.seen self.old.disk self.new.disk result }
    {
        let named = self.is_named(name);
        if self.ready && named {
            return Ok(());
        }
        if !named && !self.ranges.is_empty() {
            return Err(StoreFault);
        }
        self.take(name)
    }

    /// Recovers a file, and holds its name. What is kept stays kept.
    pub(crate) fn recover(&mut self, name: &str) -> Result<(), StoreFault>
        requires { is_new name.now ≡ false }
        ensures leaves { IsTrue D.tells → LooksAtName (is_ok result) name.now (told_of self.old) (told_of self.new) }
        ensures moments { IsTrue D.tells → RecoversFile name.now (disk_of self.old) (disk_of self.new) result }
        ensures kept { KeepsSame self.old self.new }
        ensures refuses { RefusesFor (IsRefused self.old name.now) D.seen self.old.disk self.new.disk result }
    {
        if kind_of(name) != NameKind::Plain {
            return Err(StoreFault);
        }
        if !self.ranges.is_empty() && !self.is_named(name) {
            return Err(StoreFault);
        }
        self.take(name)?;
        Ok(())
    }

    /// Writes the ranges that are kept into the held file.
    pub(crate) fn held_commit(&mut self, name: &str) -> Result<(), StoreFault>
        requires held { Holds self.old name.now }
        requires some { KeepsAny self.old }
        ensures unsynced { OnOk result (IsTrue D.tells
            → (told_of self.new).unsynced ≡ with_name (told_of self.old).unsynced name.now false) }
        ensures leaves { IsTrue D.tells → LooksAtName (is_ok result) name.now (told_of self.old) (told_of self.new) }
        ensures moments { IsTrue D.tells
            → CommitsFile name.now (told_of self.old).files (disk_of self.old) (disk_of self.new) result }
        ensures given { OnOk result (self.new.ranges.items ≡ []) }
        ensures kept { OnErr result (KeepsSame self.old self.new) }
        ensures counts { CountsFaults (disk_of self.old) (disk_of self.new) result }
    {
        self.ready = false;
        let undo = undo_name(name);
        let und = und_name(name);
        let ranges = self.ranges.as_slice();
        let Ok(()) = commit_file(&mut self.disk, name, undo.as_str(), und.as_str(), ranges) else {
            return Err(StoreFault);
        };
        self.ranges.clear();
        self.ready = true;
        Ok(())
    }
}
