//! How a file is found, locked and opened.

use crate::open_files::{OpenFiles, Shared};
use file_locks::failed::FailedAt;
use file_locks::locks::{LockedFile, lock_made, lock_to_read, lock_unchanged, lock_waiting};
use file_locks::sharing::Lock;
use file_names::names::{
    NEW, behind_link, changed_meanwhile, is_itself, itself_at, make_absent, open_file, replaced_at,
    stamp_at,
};
use file_names::stamp::{Node, Stamp};
use file_windows::{Access, no_regular_file};
use std::fs::{File, Files};
use std::io;
use std::io::{Eprint, ErrorKind};
use undo_trust::beside::{Beside, open_beside};
use undo_trust::undo::{is_to_recover, undo_path, undone_file};

impl<'a, R: Files<File = File> + Eprint> OpenFiles<'a, R> {
    /// Opens a file where none that is open serves, and answers whether one is open then. It stands apart, so that a
    /// use of an open one does not carry it along.
    #[inline(never)]
    pub fn open_other(&mut self, name: &str, access: Access) -> io::Result<bool> {
        let path = self.path_of(name)?;
        let opened = match undone_file(name) {
            Some((file, _)) => self.find_undo(file, path.as_str(), access)?,
            None if self.is_replacement(name) => self.find_new(path.as_str(), access)?,
            None => self.find_plain(path.as_str(), access)?,
        };
        let Some((file, access)) = opened else {
            return Ok(false);
        };
        let stamp = Stamp::of(&file.metadata()?);
        let is_synced = self.synced.has(stamp);
        self.put(name, file, access, stamp.node(), is_synced)?;
        Ok(true)
    }

    /// A file that is no undo file, which is opened or held, and is locked before where that is due; none where it is
    /// not there and is to be read.
    fn find_plain(&mut self, path: &str, access: Access) -> io::Result<Option<(File, Access)>> {
        let found = stamp_at(self.files, path)?;
        let found = self.lock_to_recover(path, found)?;
        self.looks.note(path, found)?;
        self.find(path, found, access)
    }

    /// Whether a name is that of a file which is to replace another one, and so may be taken by another account.
    fn is_replacement(&self, name: &str) -> bool {
        match name.strip_suffix(NEW) {
            Some(replaced) if !self.undone.names(name) => {
                self.undone.names(replaced) || self.looks.first(replaced).is_some()
            }
            _ => false,
        }
    }

    /// A file that is to replace another one, which is opened or held; none where it is not there and is to be read. No
    /// link is followed.
    fn find_new(&mut self, path: &str, access: Access) -> io::Result<Option<(File, Access)>> {
        let Some(seen) = itself_at(self.files, path)? else {
            return self.find_absent(path, access);
        };
        if let Some(held) = self.held.again(Node::of(&seen), access)? {
            return Ok(Some(held));
        }
        match open_beside(self.files, path, access)? {
            Beside::Opened(found) => Ok(Some((found.file, access))),
            Beside::NoFile(metadata) => Err(no_regular_file(&metadata)),
            Beside::Nothing => Ok(None),
        }
    }

    /// Locks a file alone at the first look at it, where it has to be recovered and files are shared. That waits for
    /// those who have it, unless a file is locked already.
    fn lock_to_recover(&mut self, path: &str, found: Option<Stamp>) -> io::Result<Option<Stamp>> {
        let Some(stamp) = found else {
            return Ok(None);
        };
        if !self.undone.has(path) || !self.is_first_look(path, stamp.node()) {
            return Ok(found);
        }
        let is_due = is_to_recover(self.alloc, self.files, path);
        if !self.at(FailedAt::Undo, is_due)? {
            return Ok(found);
        }
        let locked = if self.held.is_empty() {
            lock_waiting(self.files, self.teller, path, found, Lock::Exclusive)?
        } else {
            Some(lock_unchanged(self.files, path, None)?)
        };
        if let Some(locked) = locked {
            self.held.add(locked)?;
        }
        stamp_at(self.files, path)
    }

    /// Whether files are shared, and a file is looked at for the first time that nothing locks at its first use.
    fn is_first_look(&self, path: &str, node: Node) -> bool {
        !matches!(self.shared, Shared::Free)
            && self.lock_wanted(path).is_none()
            && self.looks.first(path).is_none()
            && !self.held.has(node)
    }

    /// The file that a name stands for, which is opened for it or held, and is locked before where that is due; none
    /// where it is not there and is to be read.
    fn find(
        &mut self,
        path: &str,
        found: Option<Stamp>,
        access: Access,
    ) -> io::Result<Option<(File, Access)>> {
        let Some(stamp) = found else {
            return self.find_absent(path, access);
        };
        if let Some(held) = self.held.again(stamp.node(), access)? {
            return Ok(Some(held));
        }
        let locked = match self.lock_wanted(path) {
            Some(lock) => self.lock(path, found, lock)?,
            None if self.is_guarded() && access == Access::Writing => Some(self.guard(path)?),
            None => return Ok(Some((open_file(self.files, path, access)?, access))),
        };
        match locked {
            Some(node) => self.held.again(node, access),
            None => self.find_absent(path, access),
        }
    }

    /// What stands in place of a file that is not there: none where it is to be read, and one that is made where it is
    /// to be written to, unless there was one at the first look.
    fn find_absent(&mut self, path: &str, access: Access) -> io::Result<Option<(File, Access)>> {
        if access == Access::Reading {
            return Ok(None);
        }
        self.stay_absent(path)?;
        self.new_names.note(path)?;
        self.synced.clear();
        let file = make_absent(self.files, path)?;
        let node = self.held.add(lock_made(file, access)?)?;
        self.held.again(node, access)
    }

    /// Whether each file is locked with its first change.
    pub fn is_guarded(&self) -> bool {
        matches!(self.shared, Shared::Guarded)
    }

    /// How the file of a name is to be locked with its first use, where it is.
    fn lock_wanted(&self, path: &str) -> Option<Lock> {
        match &self.shared {
            Shared::Locked(wanted) if wanted.name.as_str() == path => Some(wanted.lock),
            Shared::Kept => Some(Lock::Shared),
            _ => None,
        }
    }

    /// Locks the file that is to be locked, unless that was done: then its name stands for another file by now, which
    /// is an error, but where files are kept. None is locked where it is not there.
    fn lock(&mut self, path: &str, found: Option<Stamp>, lock: Lock) -> io::Result<Option<Node>> {
        if self.is_locked {
            return Err(changed_meanwhile());
        }
        let Some(locked) = self.wait_for(path, found, lock)? else {
            return Ok(None);
        };
        self.is_locked = !matches!(self.shared, Shared::Kept);
        Ok(Some(self.held.add(locked)?))
    }

    /// Waits until a file is locked. One that is to be read is locked alone while it has to be recovered.
    fn wait_for(
        &mut self,
        path: &str,
        found: Option<Stamp>,
        lock: Lock,
    ) -> io::Result<Option<LockedFile>> {
        match lock {
            Lock::Shared => lock_to_read(
                self.alloc,
                self.files,
                self.teller,
                path,
                found,
                &mut self.failed_at,
            ),
            Lock::Exclusive => lock_waiting(self.files, self.teller, path, found, lock),
        }
    }

    /// Locks a file before its first change, where it is as it was at the first look at it.
    pub fn guard(&mut self, path: &str) -> io::Result<Node> {
        let locked = lock_unchanged(self.files, path, self.looks.first(path))?;
        Ok(self.held.add(locked)?)
    }

    /// Locks a file before it is replaced, where it is there, is not held already, and may be opened.
    fn lock_before_change(&mut self, path: &str) -> io::Result<()> {
        match self.lock_replaced(path) {
            Err(error) if error.kind() == ErrorKind::PermissionDenied => {
                self.failed_at = FailedAt::Name;
                Ok(())
            }
            done => done,
        }
    }

    /// Locks a file before it is replaced, where it is there and is not held already.
    fn lock_replaced(&mut self, path: &str) -> io::Result<()> {
        let found = replaced_at(self.files, path)?;
        if let Some(stamp) = found {
            if self.held.has(stamp.node()) {
                return Ok(());
            }
        }
        match self.lock_wanted(path) {
            Some(lock) => {
                self.lock(path, found, lock)?;
                Ok(())
            }
            None if self.is_guarded() => self.guard_present(path, found),
            None => Ok(()),
        }
    }

    /// Locks a file before it is changed. One that is not there is to have been absent at the first look, too.
    fn guard_present(&mut self, path: &str, found: Option<Stamp>) -> io::Result<()> {
        if found.is_none() {
            return self.stay_absent(path);
        }
        self.guard(path)?;
        Ok(())
    }

    /// Refuses a file that is not there where there was one at the first look.
    pub fn stay_absent(&self, path: &str) -> io::Result<()> {
        match self.looks.first(path) {
            Some(Some(_)) => Err(changed_meanwhile()),
            _ => Ok(()),
        }
    }

    /// Where the file of a name is: one that was made may be behind a link, as an undo file may be, and as one may be
    /// that is to replace a file that was looked at.
    pub fn path_of(&self, name: &str) -> io::Result<String> {
        if let Some((file, ending)) = undone_file(name) {
            return undo_path(self.alloc, self.files, file, ending);
        }
        if let Some(made) = &self.made {
            if made.name.as_str() == name {
                return Ok(String::from_str(self.alloc, made.path.as_str())?);
            }
        }
        match name.strip_suffix(NEW) {
            Some(file) if self.looks.first(file).is_some() => self.path_of_new(file),
            _ => Ok(String::from_str(self.alloc, name)?),
        }
    }

    /// Where the file stands that is to replace another one: beside that one.
    fn path_of_new(&self, replaced: &str) -> io::Result<String> {
        let mut path = behind_link(self.alloc, self.files, replaced)?;
        path.push_str(NEW)?;
        Ok(path)
    }

    /// Where a file is to be made. One that is to replace another stands beside that one, which is locked before.
    pub fn path_to_make(&mut self, name: &str) -> io::Result<String> {
        let Some(replaced) = name.strip_suffix(NEW) else {
            return Ok(String::from_str(self.alloc, name)?);
        };
        let done = self.lock_before_change(replaced);
        self.at(FailedAt::Plain, done)?;
        self.path_of_new(replaced)
    }

    /// Where a file that is renamed goes. Where it was made and another program took its name meanwhile, that is an
    /// error.
    pub fn path_to_replace(&mut self, from: &str, to: &str, source: &str) -> io::Result<String> {
        if let Some(made) = &self.made {
            if made.name.as_str() == from {
                if !is_itself(self.files, source, made.node)? {
                    return Err(changed_meanwhile());
                }
                if from.strip_suffix(NEW) == Some(to) {
                    let target = source.strip_suffix(NEW).unwrap_or(to);
                    return Ok(String::from_str(self.alloc, target)?);
                }
            }
        }
        self.lock_before_change(to)?;
        Ok(String::from_str(self.alloc, to)?)
    }
}
