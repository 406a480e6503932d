//! A store over a disk.

ghost use Rattle.std.specs.Prelude.{List, ℕ, ◌≡◌, ◌≢◌, ◌⊎◌, ◌↔◌, ◌^◌, ◌≤◌, ◌∷◌, [], None, Some, length, option_map};
ghost use Rattle.std.specs.Prelude.{take, false, true, IfOk, IsSome, IsTrue, OnErr, OnOk, is_ok};
ghost use Rattle.edit_journal.specs.Keeps.{CountsFaults};
ghost use Rattle.journal_store.specs.Kinds.{is_new, kind_of};
ghost use Rattle.journal_store.specs.Told.{told_files, told_names};
ghost use Rattle.outside.specs.Count.{Rose, counted};
ghost use Rattle.outside.specs.Frame.{ChangesOne, ChangesTwo, OnlyReads};
ghost use Rattle.outside.specs.Replacement.{replacement_name};
ghost use Rattle.outside.specs.Unsynced.{AddsNone, with_handed, with_name};
ghost use Rattle.outside.specs.World.{bytes_from, with_bytes, with_file, with_new_name};

use crate::NameKind;
use crate::journal::Journal;
use disk::Disk;
use outside::{Store, StoreFault};

/// Named files over a disk, of which one at a time is changed in place through a journal.
///
/// A call on a name that ends in none of `.new`, `.undo` and `.und` first recovers its file, where the name is not held
/// yet, and then holds it. What is written into the held file is kept, up to twelve ranges, and is seen by each call on
/// it; `sync` writes it into the file in place. Names that end in `.new` go to the disk at once. There is no file of a
/// name that ends in `.undo` or `.und`, and none is read or written of a name of more than 250 bytes, not counting the
/// ending `.new`.
///
/// A call is refused where the disk failed in it, and besides where the name has no file so, where a plain name is used
/// while ranges are kept for another one, where a range would be the thirteenth or has a byte in common with a kept
/// one, where bytes are written into a plain file that is not there, where a file of which ranges are kept is made anew
/// or replaced, and where a file is renamed that is not one under `.new` that gets a plain name.
#[derive(Drop)]
pub struct JournalStore<D: Disk> {
    journal: Journal<D>,
    faults: u64,
    reads: u64,
    writes: u64,
}

/// Counts a call that was refused.
fn count_fault<T>(faults: &mut u64, done: &Result<T, StoreFault>)
    ensures ok { OnOk done.now (faults.new ≡ faults.old) }
    ensures err { OnErr done.now (faults.new ≡ counted faults.old) }
    ensures later { faults.old ≤ faults.new }
{
    if done.is_err() {
        *faults = faults.saturating_add(1);
    }
}

impl<D: Disk> JournalStore<D> {
    ghost use Rattle.journal_store.specs.Calls.{CommitsFile, CountsRefusal, RecoversFile, RefusesFor};
    ghost use Rattle.journal_store.specs.JournalStore.{IsPending, IsRefused, KeepsSame, disk_in, disk_seen, inside};
    ghost use Rattle.journal_store.specs.JournalStore.{store_seen};

    /// A store over this disk. It holds no name.
    pub fn new(disk: D) -> Self
        ensures disk { disk_in result ≡ disk }
        ensures told { IsTrue D.tells → (store_seen result).files ≡ told_files (D.seen disk).files [] [] }
        ensures unsynced { IsTrue D.tells → (store_seen result).unsynced ≡ told_names (D.seen disk).unsynced [] [] }
        ensures faults { (store_seen result).faults ≡ 0 }
        ensures reads { (store_seen result).reads ≡ 0 }
        ensures writes { (store_seen result).writes ≡ 0 }
        ensures pending { (name : List ℕ) → IsPending (inside result) name → ⊥ }
    {
        JournalStore {
            journal: Journal::new(disk),
            faults: 0,
            reads: 0,
            writes: 0,
        }
    }

    /// The disk, as it is. What is kept is given up.
    pub fn into_disk(self) -> D
        ensures { result ≡ disk_in self }
    {
        self.journal.into_disk()
    }

    /// Whether a name is held, and ranges are kept for it.
    pub fn pending(&self, name: &str) -> bool
        ensures { IsTrue result ↔ IsPending (inside self.now) name.now }
    {
        self.journal.is_pending(name)
    }

    /// Writes the ranges that are kept for a file into it, in place, so that a stop at any moment leaves the file of
    /// before or the new one. Where an earlier commit of it was refused, the file is recovered first.
    ///
    /// # Errors
    ///
    /// The disk failed. The ranges stay kept, and what is told of the file is the same.
    pub fn commit(&mut self, name: &str) -> Result<(), StoreFault>
        requires { IsPending (inside self.old) name.now }
        ensures unsynced { OnOk result (IsTrue D.tells
            → (store_seen self.new).unsynced ≡ with_name (store_seen self.old).unsynced name.now false) }
        ensures cause { OnErr result (Rose (store_seen self.old).faults (store_seen self.new).faults) }
        ensures leaves { OnlyReads (is_ok result) name.now (store_seen self.old) (store_seen self.new) }
        ensures reads { (store_seen self.new).reads ≡ (store_seen self.old).reads }
        ensures moments { IsTrue D.tells
            → CommitsFile name.now (store_seen self.old).files (disk_seen self.old) (disk_seen self.new) result }
        ensures given { OnOk result (IsPending (inside self.new) name.now → ⊥) }
        ensures kept { OnErr result (KeepsSame (inside self.old) (inside self.new)) }
        ensures only { CountsFaults (disk_seen self.old) (disk_seen self.new) result }
        ensures own { CountsRefusal result (store_seen self.old).faults (store_seen self.new).faults }
    {
        let done = self.journal.sync(name);
        count_fault(&mut self.faults, &done);
        done
    }

    /// Recovers a file, and holds its name: it is, in whatever a stop may leave then, what its undo file says that it
    /// was, or as it was where the undo file says nothing, and its gate is closed. What is kept stays kept.
    ///
    /// # Errors
    ///
    /// The name has no file, ranges are kept for another one, or the disk failed. No name is held then, unless ranges
    /// are kept.
    pub fn recover(&mut self, name: &str) -> Result<(), StoreFault>
        requires { is_new name.now ≡ false }
        ensures cause { OnErr result (Rose (store_seen self.old).faults (store_seen self.new).faults) }
        ensures leaves { OnlyReads (is_ok result) name.now (store_seen self.old) (store_seen self.new) }
        ensures reads { (store_seen self.new).reads ≡ (store_seen self.old).reads }
        ensures moments { IsTrue D.tells → RecoversFile name.now (disk_seen self.old) (disk_seen self.new) result }
        ensures kept { KeepsSame (inside self.old) (inside self.new) }
        ensures refuses { RefusesFor (IsRefused (inside self.old) name.now) D.seen (disk_in self.old)
            (disk_in self.new) result }
        ensures own { CountsRefusal result (store_seen self.old).faults (store_seen self.new).faults }
    {
        let done = self.journal.recover(name);
        count_fault(&mut self.faults, &done);
        done
    }
}

impl<D: Disk> Store for JournalStore<D> {
    ghost use Rattle.journal_store.specs.Calls.{CommitsNothing, CountsRefusal, MakesFile, Refuses, RefusesFor};
    ghost use Rattle.journal_store.specs.Calls.{ReplacesFile, SyncsFile};
    ghost use Rattle.journal_store.specs.Commits.{Commits, commits_then, nothing_commits};
    ghost use Rattle.journal_store.specs.JournalStore.{IsAbsent, IsRefused, IsRenameRefused, IsReplaceRefused};
    ghost use Rattle.journal_store.specs.JournalStore.{IsWriteRefused, disk_in, disk_seen, inside, store_seen};

    ghost tells = { D.tells };

    ghost seen = { store_seen };

    ghost commits = { λ worlds old new. IsTrue D.tells → Commits worlds (disk_seen old) (disk_seen new) };

    ghost commits_nothing = { λ worlds store told. nothing_commits worlds (disk_seen store) };

    ghost commits_on = { λ one two first between last former latter told.
        commits_then one two (disk_seen first) (disk_seen between) (disk_seen last) (former told) (latter told) };

    fn size(&mut self, name: &str) -> Result<Option<u64>, StoreFault>
        ensures found { IfOk result
            (λ found. IsTrue D.tells → found ≡ option_map length ((store_seen self.old).files name.now)) }
        ensures cause { OnErr result (Rose (store_seen self.old).faults (store_seen self.new).faults) }
        ensures leaves { OnlyReads (is_ok result) name.now (store_seen self.old) (store_seen self.new) }
        ensures reads { (store_seen self.new).reads ≡ (store_seen self.old).reads }
        ensures commits { IsTrue D.tells → Commits [] (disk_seen self.old) (disk_seen self.new) }
        ensures moments { IsTrue D.tells → CommitsNothing name.now (disk_seen self.old) (disk_seen self.new) }
        ensures refuses { RefusesFor (IsRefused (inside self.old) name.now) D.seen (disk_in self.old)
            (disk_in self.new) result }
        ensures own { CountsRefusal result (store_seen self.old).faults (store_seen self.new).faults }
    {
        let done = self.journal.size(name);
        count_fault(&mut self.faults, &done);
        done
    }

    fn read(&mut self, name: &str, at: u64, buf: &mut [u8]) -> Result<usize, StoreFault>
        requires { length buf.old ≤ 1024 }
        ensures fits { IfOk result (λ count. count ≤ length buf.new) }
        ensures count { IfOk result (λ count. IsTrue D.tells
            → count ≡ length (bytes_from ((store_seen self.old).files name.now) at (length buf.old))) }
        ensures bytes { IfOk result (λ count. IsTrue D.tells
            → take count buf.new ≡ bytes_from ((store_seen self.old).files name.now) at (length buf.old)) }
        ensures cause { OnErr result (Rose (store_seen self.old).faults (store_seen self.new).faults) }
        ensures leaves { OnlyReads (is_ok result) name.now (store_seen self.old) (store_seen self.new) }
        ensures reads { (store_seen self.new).reads ≡ counted (store_seen self.old).reads }
        ensures commits { IsTrue D.tells → Commits [] (disk_seen self.old) (disk_seen self.new) }
        ensures moments { IsTrue D.tells → CommitsNothing name.now (disk_seen self.old) (disk_seen self.new) }
        ensures refuses { RefusesFor (IsRefused (inside self.old) name.now) D.seen (disk_in self.old)
            (disk_in self.new) result }
        ensures own { CountsRefusal result (store_seen self.old).faults (store_seen self.new).faults }
    {
        self.reads = self.reads.saturating_add(1);
        let done = self.journal.read(name, at, buf);
        count_fault(&mut self.faults, &done);
        done
    }

    fn write(&mut self, name: &str, at: u64, bytes: &[u8]) -> Result<(), StoreFault>
        requires some { 1 ≤ length bytes.now }
        requires few { length bytes.now ≤ 1024 }
        requires place { at ≤ 2 ^ 42 }
        ensures ok { OnOk result (IsTrue D.tells
            → (store_seen self.new).files ≡ with_bytes (store_seen self.old).files name.now at bytes.now) }
        ensures unsynced { OnOk result (IsTrue D.tells
            → (store_seen self.new).unsynced ≡ with_name (store_seen self.old).unsynced name.now true) }
        ensures fault { OnErr result (IsTrue D.tells → ((store_seen self.new).files ≡ (store_seen self.old).files)
            ⊎ ((store_seen self.new).files ≡ with_bytes (store_seen self.old).files name.now at bytes.now)) }
        ensures cause { OnErr result (Rose (store_seen self.old).faults (store_seen self.new).faults) }
        ensures leaves { ChangesOne name.now (store_seen self.old) (store_seen self.new) }
        ensures writes { (store_seen self.new).writes ≡ counted (store_seen self.old).writes }
        ensures commits { IsTrue D.tells → Commits [] (disk_seen self.old) (disk_seen self.new) }
        ensures absent { OnOk result (IsTrue D.tells → kind_of name.now ≡ NameKind.Plain
            → IsSome ((store_seen self.old).files name.now)) }
        ensures moments { IsTrue D.tells → CommitsNothing name.now (disk_seen self.old) (disk_seen self.new) }
        ensures refuses { Refuses (IsWriteRefused (inside self.old) name.now at (length bytes.now))
            (IsWriteRefused (inside self.old) name.now at (length bytes.now)
            ⊎ (IsTrue D.tells → IsAbsent (store_seen self.old).files name.now))
            (IsRefused (inside self.old) name.now) D.seen (disk_in self.old) (disk_in self.new) result }
        ensures own { CountsRefusal result (store_seen self.old).faults (store_seen self.new).faults }
    {
        self.writes = self.writes.saturating_add(1);
        let done = self.journal.write(name, at, bytes);
        count_fault(&mut self.faults, &done);
        done
    }

    /// Makes an empty file, as `Store` says. One of a plain name is recovered first where it is not held, an absent one
    /// too, so that no recovery changes the new one. It is not journaled: until it is synced a stop may leave any bytes
    /// in it.
    fn create(&mut self, name: &str) -> Result<(), StoreFault>
        ensures ok { OnOk result (IsTrue D.tells
            → (store_seen self.new).files ≡ with_file (store_seen self.old).files name.now (Some [])) }
        ensures unsynced { OnOk result (IsTrue D.tells
            → (store_seen self.new).unsynced ≡ with_name (store_seen self.old).unsynced name.now true) }
        ensures fault { OnErr result (IsTrue D.tells → ((store_seen self.new).files ≡ (store_seen self.old).files)
            ⊎ ((store_seen self.new).files ≡ with_file (store_seen self.old).files name.now (Some []))) }
        ensures cause { OnErr result (Rose (store_seen self.old).faults (store_seen self.new).faults) }
        ensures leaves { ChangesOne name.now (store_seen self.old) (store_seen self.new) }
        ensures writes { (store_seen self.new).writes ≡ (store_seen self.old).writes }
        ensures commits { (base : List ℕ) → name.now ≡ replacement_name base → IsTrue D.tells
            → Commits [] (disk_seen self.old) (disk_seen self.new) }
        ensures moments { IsTrue D.tells → MakesFile name.now (disk_seen self.old) (disk_seen self.new) result }
        ensures refuses { Refuses (IsReplaceRefused (inside self.old) name.now)
            (IsReplaceRefused (inside self.old) name.now)
            (IsRefused (inside self.old) name.now) D.seen (disk_in self.old) (disk_in self.new) result }
        ensures own { CountsRefusal result (store_seen self.old).faults (store_seen self.new).faults }
    {
        let done = self.journal.create(name);
        count_fault(&mut self.faults, &done);
        done
    }

    fn sync(&mut self, name: &str) -> Result<(), StoreFault>
        ensures unsynced { OnOk result (IsTrue D.tells
            → (store_seen self.new).unsynced ≡ with_name (store_seen self.old).unsynced name.now false) }
        ensures cause { OnErr result (Rose (store_seen self.old).faults (store_seen self.new).faults) }
        ensures leaves { OnlyReads (is_ok result) name.now (store_seen self.old) (store_seen self.new) }
        ensures reads { (store_seen self.new).reads ≡ (store_seen self.old).reads }
        ensures commits { IsTrue D.tells
            → Commits ((store_seen self.new).files ∷ []) (disk_seen self.old) (disk_seen self.new) }
        ensures beside { (base : List ℕ) → name.now ≡ replacement_name base → IsTrue D.tells
            → Commits [] (disk_seen self.old) (disk_seen self.new) }
        ensures moments { IsTrue D.tells
            → SyncsFile name.now (store_seen self.old).files (disk_seen self.old) (disk_seen self.new) result }
        ensures refuses { RefusesFor (IsRefused (inside self.old) name.now) D.seen (disk_in self.old)
            (disk_in self.new) result }
        ensures own { CountsRefusal result (store_seen self.old).faults (store_seen self.new).faults }
    {
        let done = self.journal.sync(name);
        count_fault(&mut self.faults, &done);
        done
    }

    /// Gives a file another name, as `Store` says, once the file that has that name is recovered, an absent one too. A
    /// call that is refused so touches nothing.
    fn rename(&mut self, from: &str, to: &str) -> Result<(), StoreFault>
        requires { from.now ≢ to.now }
        ensures ok { OnOk result (IsTrue D.tells
            → (store_seen self.new).files ≡ with_new_name (store_seen self.old).files from.now to.now) }
        ensures unsynced { OnOk result (IsTrue D.tells → IsSome ((store_seen self.old).files from.now)
            → (store_seen self.new).unsynced ≡ with_handed (store_seen self.old).unsynced from.now to.now) }
        ensures absent { OnOk result (IsTrue D.tells → (store_seen self.old).files from.now ≡ None
            → AddsNone (store_seen self.old).unsynced (store_seen self.new).unsynced) }
        ensures fault { OnErr result ((store_seen self.new).files ≡ (store_seen self.old).files) }
        ensures cause { OnErr result (Rose (store_seen self.old).faults (store_seen self.new).faults) }
        ensures leaves { ChangesTwo from.now to.now (store_seen self.old) (store_seen self.new) }
        ensures writes { (store_seen self.new).writes ≡ (store_seen self.old).writes }
        ensures commits { (store_seen self.old).unsynced from.now ≡ false → IsTrue D.tells
            → Commits (with_new_name (store_seen self.old).files from.now to.now ∷ []) (disk_seen self.old)
            (disk_seen self.new) }
        ensures moments { IsTrue D.tells
            → ReplacesFile from.now to.now (store_seen self.old).unsynced (store_seen self.old).files
            (disk_seen self.old) (disk_seen self.new) result }
        ensures refuses { RefusesFor (IsRenameRefused (inside self.old) from.now to.now) D.seen (disk_in self.old)
            (disk_in self.new) result }
        ensures own { CountsRefusal result (store_seen self.old).faults (store_seen self.new).faults }
    {
        let done = self.journal.rename(from, to);
        count_fault(&mut self.faults, &done);
        done
    }
}
