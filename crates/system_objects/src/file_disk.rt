ghost use Rattle.std.specs.Prelude.{◌≡◌, ◌≤◌, length, Ok, IfOk, OnErr};
ghost use Rattle.outside.specs.Count.{Rose};

use crate::last_read::LastRead;
use crate::open_files::OpenFiles;
use disk::{Disk, DiskFault};
use file_locks::failed::FailedAt;
use file_locks::sharing::Sharing;
use run_notes::{ReadCount, Teller};
use std::alloc::{AllocError, Global};
use std::fs::{File, Files};
use std::io;
use std::io::Eprint;
use std::time::Clock;
use undo_trust::gates::Gate;
use undo_trust::trust::Distrust;
use undo_trust::undo::{UNDO, plain_name, shown_undo, undone_file};

/// A call on a disk that the system refused.
#[derive(Drop)]
pub struct DiskFailure {
    /// The name of the file at which it failed: that by which it was made, of a rename the new one, or one of a file
    /// beside it.
    pub name: String,
    /// Why it was refused.
    pub error: io::Error,
    /// Why an undo file was not believed, where that is what it was refused for.
    pub distrust: Option<Distrust>,
}

/// The name of the file at which a call by a name failed: of an undo file, which may stand beside the file behind a
/// link, the place.
fn failed_name<R: Files<File = File>>(
    alloc: Global,
    files: &R,
    name: &str,
    at: FailedAt,
) -> io::Result<String> {
    match (at, undone_file(name)) {
        (FailedAt::Name, Some((file, ending))) => shown_undo(alloc, files, file, ending),
        (FailedAt::Name, None) => Ok(String::from_str(alloc, name)?),
        (FailedAt::Plain, _) => Ok(String::from_str(alloc, plain_name(name))?),
        (FailedAt::Undo, _) => shown_undo(alloc, files, plain_name(name), UNDO),
    }
}

/// The files of the system as a disk, by paths that count from the current folder. It tells nothing of them.
///
/// The two files that were used last stay open. Reads of one that go on where others came to are from eight windows of
/// 65,536 bytes, those of other places from eight blocks of 1,024 bytes, and bytes that are to be written side by side
/// are gathered up to the number of a window, so that all make few calls of the system. Where a file of at most
/// 8,388,608 bytes is read in no order, each window of it that is read is kept. What was read is forgotten where the
/// file is written or cut, where it is closed, and where a call on it fails. What was gathered is written before the
/// file is read, cut, synced or closed, before its length is asked for, and before any file is made or renamed; where
/// that fails, the call at hand is the one that failed.
///
/// A file that was there when its name was used first is never made by a write to it: where it is gone, the write
/// fails. A file that is made under a name with `.new` behind that of a link stands beside the file behind the link,
/// and takes its place there.
///
/// A name that ends in `.undo` or `.und` is that of an undo file of the file whose name stands before, where that has
/// one (`undo_beside`); else nothing stands there. It stands beside the file behind a link, too, is never locked
/// itself, and is changed only where the lock that its file is due is held, and the file may be written to. It is made
/// with the owner, the group and the permissions of its file, and follows them when it is changed, as a file in `.new`
/// has those of the one that it is to replace.
///
/// What was made in `.new` or `.und` and not renamed stays until `clear_made` takes it away.
///
/// Another account may have made what stands under such a name. So it is looked at before it is opened and behind that,
/// no link is followed, and what is made is made where nothing stands. An undo file counts where it is a regular file
/// of one name, belongs to the owner of its file, to root or to the caller, and is writable for nobody who may not
/// write its file. Another one with a closed gate counts for nothing, and one with an open gate is a fault. So is an
/// open gate where the file was changed by something else since it was opened, as far as the times of both files tell.
///
/// To sync a file is fdatasync(2) of it, of an undo file fsync(2), unless this object did that and did not change the
/// file since, and where its name was made by this object since then fsync(2) of its folder, too; a rename ends with
/// fsync(2) of the folder. A name that was there before is taken for one that a stop leaves.
#[derive(Drop)]
pub struct FileDisk<'a, R> {
    open: OpenFiles<'a, R>,
    faults: u64,
    failure: Option<DiskFailure>,
    /// What was read last, where that is kept.
    last: Option<LastRead>,
    /// The file that is read, and how much of it was.
    read_name: String,
    reads: ReadCount,
}

impl<'a, R: Files<File = File> + Eprint> FileDisk<'a, R> {
    /// The files of the system, none of them open yet, and none to be locked that is there.
    pub fn new(alloc: Global, files: &'a R) -> Self
        ensures faults { result.faults ≡ 0 }
    {
        FileDisk {
            open: OpenFiles::new(alloc, files),
            faults: 0,
            failure: None,
            last: None,
            read_name: String::new(alloc),
            reads: ReadCount::new(),
        }
    }

    /// The last call that failed; none where none did, or where there was not enough memory for its name.
    pub fn failure(&self) -> Option<&DiskFailure> {
        self.failure.as_ref()
    }

    /// The gates of undo files that were open, with what came of them.
    pub fn gates(&self) -> &[Gate] {
        self.open.gates.as_slice()
    }

    /// Says where a lock is waited for, and how much of a file was read where that takes long.
    pub fn tell(&mut self, teller: Teller<'a>)
        ensures faults { self.new.faults ≡ self.old.faults }
    {
        self.open.teller = teller;
    }

    /// Keeps from now on what is read last of a file that has no undo file, from its beginning on.
    pub fn keep(&mut self)
        ensures faults { self.new.faults ≡ self.old.faults }
    {
        self.last = Some(LastRead::new(self.open.alloc));
    }

    /// The line of this number, counted from 1, of a file that was read last, where the line is kept.
    pub fn line(&self, name: &str, number: u64) -> Option<&[u8]> {
        self.last.as_ref()?.line(name, number)
    }

    /// Whether it is known that a file was read last, and that no word was read of it.
    pub fn is_blank(&self, name: &str) -> bool {
        match &self.last {
            Some(last) => last.is_blank(name),
            None => false,
        }
    }

    /// Keeps what was read of a file at a place, where that is asked for.
    fn note_read(&mut self, name: &str, at: u64, bytes: &[u8])
        ensures faults { self.new.faults ≡ self.old.faults }
    {
        if let Some(last) = &mut self.last {
            if plain_name(name) == name && !self.open.undone.names(name) {
                last.push(name, at, bytes);
            }
        }
    }

    /// Takes away what was made in `.new` and `.und` and was not renamed, where its name still stands for what was
    /// made. It is called at the end of a run, while the locks are still held.
    pub fn clear_made(&mut self)
        ensures faults { self.new.faults ≡ self.old.faults }
    {
        self.open.clear_made();
    }

    /// What a run that was stopped left beside a file, as it may be shown; none where nothing is known of that.
    pub fn left_beside(&self, name: &str) -> Option<String> {
        self.open.left_beside(name).unwrap_or(None)
    }

    /// Says that a file has an undo file. From the first one on only those have one of which it was said, and what
    /// stands beside any other file is not looked at.
    ///
    /// # Errors
    ///
    /// There is not enough memory for the name.
    pub fn undo_beside(&mut self, name: &str) -> Result<(), AllocError>
        ensures faults { self.new.faults ≡ self.old.faults }
    {
        self.open.undone.add(name)
    }

    /// Says what is done from now on so that no other program comes between.
    ///
    /// # Errors
    ///
    /// There is not enough memory for the name of the file that is to be locked.
    pub fn share(&mut self, sharing: Sharing<'_>) -> Result<(), AllocError>
        ensures faults { self.new.faults ≡ self.old.faults }
    {
        self.open.share(sharing)
    }

    /// Notes a call that failed, where there is memory for the name.
    fn note_failure(&mut self, name: &str, error: io::Error)
        ensures faults { self.new.faults ≡ self.old.faults }
    {
        let distrust = self.open.distrust.take();
        let at = self.open.failed_at;
        self.open.failed_at = FailedAt::Name;
        let found = failed_name(self.open.alloc, self.open.files, name, at);
        self.failure = found.ok().map(|name| DiskFailure {
            name,
            error,
            distrust,
        });
    }

    /// Turns an error of the system, at a call on the file of a name, into a fault, which is counted and noted.
    fn counting<T>(&mut self, name: &str, answer: io::Result<T>) -> Result<T, DiskFault>
        ensures ok { IfOk result (λ value. answer ≡ Ok value) }
        ensures cause { OnErr result (Rose self.old.faults self.new.faults) }
        ensures later { self.old.faults ≤ self.new.faults }
    {
        match answer {
            Ok(value) => Ok(value),
            Err(error) => {
                self.note_failure(name, error);
                self.faults = self.faults.saturating_add(1);
                Err(DiskFault)
            }
        }
    }
}

impl<'a, R: Files<File = File> + Eprint + Clock> FileDisk<'a, R> {
    /// Counts what was read of a file, and answers whether the clock is to be looked at.
    fn count_read(&mut self, name: &str, count: usize) -> bool
        ensures faults { self.new.faults ≡ self.old.faults }
    {
        if self.read_name.as_str() != name {
            self.reads = ReadCount::new();
            self.read_name.clear();
            if self.read_name.push_str(name).is_err() {
                return false;
            }
        }
        self.reads.add(count)
    }

    /// Says how much of a file was read, where somebody is told and it is due. A file that is kept is not read any
    /// more.
    fn tell_read(&mut self, name: &str, count: usize)
        ensures faults { self.new.faults ≡ self.old.faults }
    {
        let teller = self.open.teller;
        if !teller.has_line() || self.open.is_keeping() {
            return;
        }
        if self.count_read(name, count) && teller.is_due(self.open.files) {
            let len = self.open.length_now(name);
            teller.show_read(self.open.files, self.reads.bytes(), name, len);
        }
    }
}

impl<'a, R: Files<File = File> + Eprint + Clock> Disk for FileDisk<'a, R> {
    ghost use Rattle.std.specs.Prelude.{false};
    ghost use Rattle.std.proofs.lemmas.Bool.{false≢true};
    ghost use Rattle.system_objects.specs.Untold.{untold};

    ghost tells = { false };

    ghost seen = { λ disk. untold disk.faults };

    ghost read_is_image = { λ _. tt };

    ghost present_is_now = { λ _ _. (λ _. tt, λ _. tt) };

    ghost synced_is_kept = { λ _ _ told _. absurd (false≢true told) };

    fn size(&mut self, name: &str) -> Result<Option<u64>, DiskFault> {
        let found = self.open.length(name);
        self.counting(name, found)
    }

    fn read(&mut self, name: &str, at: u64, buf: &mut [u8]) -> Result<usize, DiskFault> {
        let count = self.open.read(name, at, buf);
        if let Ok(count) = count {
            self.note_read(name, at, &buf[..count]);
            self.tell_read(name, count);
        }
        self.counting(name, count)
    }

    fn write(&mut self, name: &str, at: u64, bytes: &[u8]) -> Result<(), DiskFault> {
        let done = self.open.write(name, at, bytes);
        self.counting(name, done)
    }

    fn create(&mut self, name: &str) -> Result<(), DiskFault> {
        let done = self.open.make(name);
        self.counting(name, done)
    }

    fn cut(&mut self, name: &str, len: u64) -> Result<(), DiskFault> {
        let done = self.open.cut(name, len);
        self.counting(name, done)
    }

    fn sync(&mut self, name: &str) -> Result<(), DiskFault> {
        let done = self.open.sync(name);
        self.counting(name, done)
    }

    fn rename(&mut self, from: &str, to: &str) -> Result<(), DiskFault> {
        let done = self.open.rename(from, to);
        self.counting(to, done)
    }
}
