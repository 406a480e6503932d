ghost use Rattle.std.specs.Prelude.{◌≡◌, ◌≤◌, length, IfOk};

use file_locks::failed::FailedAt;
use file_locks::held::HeldFiles;
use file_locks::sharing::{Lock, Sharing};
use file_names::looks::FirstLooks;
use file_names::names::sync_folder;
use file_names::new_names::NewNames;
use file_names::slots::{Slot, Slots};
use file_names::stamp::{Node, Stamp};
use file_names::synced::SyncedFiles;
use file_windows::{Access, Opened, Waiting, WholeFiles};
use run_notes::Teller;
use std::alloc::{AllocError, Global};
use std::fs::{File, Files};
use std::io;
use std::io::{Eprint, ErrorKind};
use undo_trust::gates::Gates;
use undo_trust::trust::Distrust;
use undo_trust::undo::{is_to_recover, undone_file};
use undo_trust::undone::Undone;

/// A file that was made, by the name that it was made under, and where that is. They differ behind a link.
#[derive(Drop)]
pub(crate) struct Made {
    pub name: String,
    pub path: String,
    pub node: Node,
}

/// A file that is to be locked with its first use.
#[derive(Drop)]
pub(crate) struct Wanted {
    pub name: String,
    pub lock: Lock,
}

/// How the files are shared.
#[derive(Drop)]
pub(crate) enum Shared {
    /// No file is locked that was there before.
    Free,
    /// One file is locked with its first use.
    Locked(Wanted),
    /// Each file is locked alone with its first change.
    Guarded,
    /// Each file is read whole with its first use.
    Kept,
}

/// The files of the system: the two that were used last, which stay open, and those that are locked.
#[derive(Drop)]
pub(crate) struct OpenFiles<'a, R> {
    pub alloc: Global,
    pub files: &'a R,
    pub shared: Shared,
    pub is_locked: bool,
    pub slots: Slots,
    pub made: Option<Made>,
    pub held: HeldFiles,
    pub looks: FirstLooks,
    pub new_names: NewNames,
    pub synced: SyncedFiles,
    pub whole: WholeFiles,
    /// Which files have an undo file.
    pub undone: Undone,
    /// The gates of undo files that were open.
    pub gates: Gates,
    /// The undo file that was made, and does not have its name yet.
    pub made_undo: Option<Made>,
    /// Who is told that a lock is waited for.
    pub teller: Teller<'a>,
    /// At which file the call at hand failed, where it did.
    pub failed_at: FailedAt,
    /// Why the call at hand did not believe an undo file, where it did not.
    pub distrust: Option<Distrust>,
}

impl<'a, R: Files<File = File> + Eprint> OpenFiles<'a, R> {
    /// The files of the system, none of them open yet.
    pub fn new(alloc: Global, files: &'a R) -> Self {
        OpenFiles {
            alloc,
            files,
            shared: Shared::Free,
            is_locked: false,
            slots: Slots::new(),
            made: None,
            held: HeldFiles::new(alloc),
            looks: FirstLooks::new(alloc),
            new_names: NewNames::new(alloc),
            synced: SyncedFiles::new(alloc),
            whole: WholeFiles::new(alloc),
            undone: Undone::each(alloc),
            gates: Gates::new(alloc),
            made_undo: None,
            teller: Teller::nobody(),
            failed_at: FailedAt::Name,
            distrust: None,
        }
    }

    /// Says how the files are shared from now on.
    pub fn share(&mut self, sharing: Sharing<'_>) -> Result<(), AllocError> {
        self.shared = match sharing {
            Sharing::Free => Shared::Free,
            Sharing::Locked { name, lock } => {
                let name = String::from_str(self.alloc, name)?;
                Shared::Locked(Wanted { name, lock })
            }
            Sharing::Guarded => Shared::Guarded,
            Sharing::Kept => Shared::Kept,
        };
        Ok(())
    }

    /// The length of a file; what is no file, such as a folder, is an error.
    pub fn length(&mut self, name: &str) -> io::Result<Option<u64>> {
        if self.is_keeping() && self.keep(name)? {
            return Ok(self.whole.length(name));
        }
        if !self.open(name, Access::Reading)? {
            return Ok(None);
        }
        let Some(file) = self.slots.last() else {
            return Ok(None);
        };
        let length = file.opened.length();
        Ok(Some(self.closing(length)?))
    }

    /// The length of a file as it is now, where it is open.
    pub fn length_now(&self, name: &str) -> Option<u64> {
        match self.slots.metadata(name) {
            Ok(Some(metadata)) => Some(metadata.len()),
            _ => None,
        }
    }

    /// Reads from a place of a file on; a file that is not there has no bytes.
    pub fn read(&mut self, name: &str, at: u64, buf: &mut [u8]) -> io::Result<usize>
        ensures fits { IfOk result (λ count. count ≤ length buf.new) }
    {
        if self.is_keeping() && self.keep(name)? {
            return Ok(self.whole.read(name, at, buf));
        }
        if !self.open(name, Access::Reading)? {
            return Ok(0);
        }
        let Some(file) = self.slots.last() else {
            return Ok(0);
        };
        let count = file.opened.read(at, buf);
        self.closing(count)
    }

    /// Writes bytes to a place of a file. Where that begins to mend it, its undo file is stamped before.
    pub fn write(&mut self, name: &str, at: u64, bytes: &[u8]) -> io::Result<()> {
        if self.gates.is_unmended(name) {
            self.stamp_undo(name)?;
        }
        self.write_to(name, at, bytes)
    }

    /// Writes bytes to a place of a file.
    pub fn write_to(&mut self, name: &str, at: u64, bytes: &[u8]) -> io::Result<()> {
        if !self.open(name, Access::Writing)? {
            return Err(io::Error::from(ErrorKind::NotFound));
        }
        let Some(file) = self.slots.last() else {
            return Err(io::Error::from(ErrorKind::NotFound));
        };
        if file.is_synced {
            file.is_synced = false;
            self.synced.forget(file.node);
        }
        let node = file.node;
        let done = file.opened.write(at, bytes);
        self.closing(done)?;
        if at == 0 {
            self.note_gate(name, node, bytes)?;
        }
        Ok(())
    }

    /// Shortens a file to this many bytes. One that is not longer stays, and one that is not there is not made. Where
    /// that begins to mend it, its undo file is stamped before.
    pub fn cut(&mut self, name: &str, len: u64) -> io::Result<()> {
        if self.gates.is_unmended(name) {
            self.stamp_undo(name)?;
        }
        if !self.open(name, Access::Reading)? {
            return Ok(());
        }
        if !self.open(name, Access::Writing)? {
            return Err(io::Error::from(ErrorKind::NotFound));
        }
        let Some(file) = self.slots.last() else {
            return Err(io::Error::from(ErrorKind::NotFound));
        };
        file.is_synced = false;
        self.synced.forget(file.node);
        let done = file.opened.cut(len);
        self.closing(done)
    }

    /// Waits until a file's bytes are on the disk, and its name where that is new. A file that is not there has no
    /// bytes.
    pub fn sync(&mut self, name: &str) -> io::Result<()> {
        if self.is_keeping() && self.has_kept(name) {
            return Ok(());
        }
        if self.open(name, Access::Reading)? {
            self.sync_last()?;
        }
        if self.new_names.is_empty() {
            return Ok(());
        }
        let path = self.path_of(name)?;
        self.sync_names(path.as_str())
    }

    /// Waits until the bytes of the file that was used last are on the disk, of an undo file its times, too, unless
    /// that was done and it was not changed since.
    pub fn sync_last(&mut self) -> io::Result<()> {
        let Some(file) = self.slots.last() else {
            return Ok(());
        };
        if file.is_synced {
            return Ok(());
        }
        let done = file.opened.sync(file.waiting);
        let metadata = self.closing(done)?;
        self.synced.note(Stamp::of(&metadata))?;
        if let Some(file) = self.slots.last() {
            file.is_synced = true;
        }
        Ok(())
    }

    /// Waits until the names in a file's folder are on the disk, where the file's own was given or taken away since
    /// that was done last.
    pub fn sync_names(&mut self, path: &str) -> io::Result<()> {
        if self.new_names.has(path) {
            sync_folder(self.files, path)?;
            self.new_names.forget_beside(path);
        }
        Ok(())
    }

    /// Whether each file is to be kept.
    #[inline(always)]
    pub fn is_keeping(&self) -> bool {
        matches!(self.shared, Shared::Kept)
    }

    /// Whether a file is kept, or is the undo file of one that is.
    fn has_kept(&self, name: &str) -> bool {
        match undone_file(name) {
            Some((file, _)) => self.whole.has(file),
            None => self.whole.has(name),
        }
    }

    /// Keeps a file as it is now, and lets it go, unless it is kept already, is not there, has to be recovered before,
    /// or is an undo file. Answers whether it is kept, or is the undo file of one that is.
    fn keep(&mut self, name: &str) -> io::Result<bool> {
        if self.has_kept(name) {
            return Ok(true);
        }
        if undone_file(name).is_some() || !self.open(name, Access::Reading)? {
            return Ok(false);
        }
        if self.is_due(name)? {
            return Ok(false);
        }
        let Some(file) = self.slots.last() else {
            return Ok(false);
        };
        let node = file.node;
        if let Some((file, _)) = self.held.again(node, Access::Reading)? {
            self.whole.keep(name, &file)?;
        }
        self.slots.close_all()?;
        self.held.release(node);
        Ok(self.whole.has(name))
    }

    /// Whether a file has to be recovered. An open gate that is not believed is an error.
    fn is_due(&mut self, name: &str) -> io::Result<bool> {
        if !self.undone.has(name) {
            return Ok(false);
        }
        let is_due = is_to_recover(self.alloc, self.files, name);
        let is_due = self.at(FailedAt::Undo, is_due)?;
        if is_due {
            self.judge_undo(name)?;
        }
        Ok(is_due)
    }

    /// Opens a file, unless it is open, and answers whether one is then: where it is to be read and is not there, none
    /// is.
    #[inline(always)]
    pub fn open(&mut self, name: &str, access: Access) -> io::Result<bool> {
        if self.slots.serve(name, access) {
            return Ok(true);
        }
        self.open_other(name, access)
    }

    /// Holds a file that was just opened as the one that was used last.
    pub fn put(
        &mut self,
        name: &str,
        file: File,
        access: Access,
        node: Node,
        is_synced: bool,
    ) -> io::Result<()> {
        let opened = Opened::new(
            self.alloc,
            String::from_str(self.alloc, name)?,
            file,
            access,
        );
        let waiting = match undone_file(name) {
            Some(_) => Waiting::Times,
            None => Waiting::Bytes,
        };
        let slot = Slot {
            opened,
            node,
            waiting,
            is_synced,
        };
        self.slots.put(name, slot)
    }

    /// Notes where something failed, unless that was noted when it did.
    pub fn at<T>(&mut self, place: FailedAt, done: io::Result<T>) -> io::Result<T>
        ensures same { result ≡ done }
    {
        if done.is_err() && matches!(self.failed_at, FailedAt::Name) {
            self.failed_at = place;
        }
        done
    }

    /// Closes the file that was used last where what was done with it failed, so that it is opened anew.
    fn closing<T>(&mut self, done: io::Result<T>) -> io::Result<T>
        ensures same { result ≡ done }
    {
        if done.is_err() {
            self.slots.drop_last();
        }
        done
    }
}
