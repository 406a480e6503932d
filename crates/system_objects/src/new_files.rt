//! How a file is made that is to replace another one, how it gets its name, and what is left of it.

use crate::open_files::{Made, OpenFiles};
use file_locks::locks::lock_made;
use file_names::names::{
    NEW, is_itself, itself_at, lock_at_once, make_anew, metadata_at, rename_present,
};
use file_names::stamp::Node;
use file_windows::Access;
use std::fs::{File, Files, Metadata};
use std::io::{Eprint, ErrorKind};
use std::os::unix::fs::MetadataExt;
use std::{fs, io};
use undo_trust::beside::{Beside, open_beside, refuse_locked};
use undo_trust::owner::give_owner;
use undo_trust::trust::is_owner_or_caller;
use undo_trust::undo::{UND, plain_name, shown_undo, undo_path, undone_file};

impl<'a, R: Files<File = File> + Eprint> OpenFiles<'a, R> {
    /// Makes an empty file and locks it, but for undo files. One whose name ends in `.new` is made beside the file that
    /// it is to replace, which is locked before, and which may stand behind a link; it gets the owner, the group and
    /// the permissions of that.
    pub fn make(&mut self, name: &str) -> io::Result<()> {
        self.slots.close_all()?;
        self.synced.clear();
        if let Some((file, _)) = undone_file(name) {
            return self.make_undo(name, file);
        }
        let path = self.path_to_make(name)?;
        self.refuse_taken(path.as_str())?;
        let replaced = self.before_replaced(name, path.as_str())?;
        self.new_names.note(path.as_str())?;
        let file = make_anew(self.files, path.as_str())?;
        let node = Node::of(&file.metadata()?);
        self.made = Some(Made {
            name: String::from_str(self.alloc, name)?,
            path,
            node,
        });
        if let Some(replaced) = &replaced {
            give_owner(&file, replaced);
        }
        self.held.add(lock_made(file, Access::Making)?)?;
        if let Some((file, access)) = self.held.again(node, Access::Reading)? {
            self.put(name, file, access, node, false)?;
        }
        Ok(())
    }

    /// Takes away what was made to replace a file, or to be its undo file, and was not renamed, where its name still
    /// stands for it: it is of no use to anybody. What was made is locked, and so is the file of an undo file.
    pub fn clear_made(&mut self) {
        if let Some(made) = self.made.take() {
            if made.path.as_str().ends_with(NEW) {
                self.clear(&made);
            }
        }
        if let Some(made) = self.made_undo.take() {
            if made.path.as_str().ends_with(UND) {
                self.clear(&made);
            }
        }
    }

    /// Takes away the name of a file that was made, where it still stands for that. Where it can't be taken away it
    /// stays.
    fn clear(&self, made: &Made) {
        if let Ok(true) = is_itself(self.files, made.path.as_str(), made.node) {
            let _ = fs::remove_file(self.files, made.path.as_str());
        }
    }

    /// What a run that was stopped left beside a file, as it may be shown: what was to replace it, or a new undo file.
    /// None where there is none of the caller or of the owner of the file, or another program has it in use.
    pub fn left_beside(&self, name: &str) -> io::Result<Option<String>> {
        let file = plain_name(name);
        let of = self.metadata_of(file)?;
        for ending in [NEW, UND] {
            let path = undo_path(self.alloc, self.files, file, ending)?;
            if self.is_left(path.as_str(), of.as_ref())? {
                return Ok(Some(shown_undo(self.alloc, self.files, file, ending)?));
            }
        }
        Ok(None)
    }

    /// Whether a run that was stopped left what stands at a place beside a file: a regular file of the caller or of the
    /// owner of that file. That another program has it in use is an error. What another account made may be anything.
    fn is_left(&self, path: &str, of: Option<&Metadata>) -> io::Result<bool> {
        let left = match open_beside(self.files, path, Access::Reading) {
            Ok(Beside::Opened(left)) => left,
            Err(error) if error.kind() != ErrorKind::PermissionDenied => return Err(error),
            _ => return Ok(false),
        };
        if !is_owner_or_caller(left.metadata.uid(), of) {
            return Ok(false);
        }
        lock_at_once(&left.file)?;
        Ok(true)
    }

    /// Refuses a name for a new file under which stands one that another program has locked.
    fn refuse_taken(&self, path: &str) -> io::Result<()> {
        match itself_at(self.files, path) {
            Ok(Some(old)) if !self.held.has(Node::of(&old)) => refuse_locked(self.files, path),
            _ => Ok(()),
        }
    }

    /// What the system says of the file that a new one of this name and at this place is to replace; none where there
    /// is none. Its undo file is judged before.
    fn before_replaced(&mut self, name: &str, path: &str) -> io::Result<Option<Metadata>> {
        let (Some(file), Some(place)) = (name.strip_suffix(NEW), path.strip_suffix(NEW)) else {
            return Ok(None);
        };
        self.judge_undo(file)?;
        metadata_at(self.files, place)
    }

    /// Renames a file, which takes the owner and the permissions of the one that had the name, and waits until that is
    /// done on the disk. Where it was made to replace that one, it takes its place behind a link, and the link stays.
    pub fn rename(&mut self, from: &str, to: &str) -> io::Result<()> {
        self.slots.close_all()?;
        self.synced.clear();
        let source = self.path_of(from)?;
        if let Some((file, _)) = undone_file(to) {
            return self.rename_undo(source.as_str(), to, file);
        }
        let target = self.path_to_replace(from, to, source.as_str())?;
        let old = metadata_at(self.files, target.as_str()).unwrap_or(None);
        if let Some(old) = &old {
            self.follow_replaced(from, old)?;
        }
        if self.rename_as(source.as_str(), target.as_str())? {
            if let Some(old) = &old {
                self.held.release(Node::of(old));
            }
            self.made = None;
            self.looks.forget(from);
            self.looks.forget(to);
        }
        Ok(())
    }

    /// Gives a file that was made under a name the owner, the group and the permissions of the one that it is to
    /// replace, unless it has them.
    fn follow_replaced(&self, from: &str, of: &Metadata) -> io::Result<()> {
        match &self.made {
            Some(made) if made.name.as_str() == from => self.held.follow_owner(made.node, of),
            _ => Ok(()),
        }
    }

    /// Renames a file, and waits until that is done on the disk. Answers whether it was there.
    pub fn rename_as(&mut self, source: &str, target: &str) -> io::Result<bool> {
        self.new_names.note(source)?;
        self.new_names.note(target)?;
        let was_there = rename_present(self.files, source, target)?;
        if was_there {
            self.sync_names(target)?;
        }
        self.sync_names(source)?;
        Ok(was_there)
    }
}
