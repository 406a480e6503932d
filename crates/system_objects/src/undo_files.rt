//! How an undo file is found, judged, made and stamped.

use crate::open_files::{Made, OpenFiles, Shared};
use file_locks::failed::FailedAt;
use file_locks::sharing::Lock;
use file_names::names::{changed_meanwhile, is_itself, make_anew, metadata_at, stamp_at};
use file_names::stamp::Node;
use file_windows::Access;
use std::fs::{File, Files, Metadata};
use std::io;
use std::io::{Eprint, ErrorKind};
use undo_trust::beside::{Beside, OpenBeside, open_beside};
use undo_trust::owner::give_owner;
use undo_trust::trust::{Distrust, change_of, distrust_of, serves};
use undo_trust::undo::{OPEN, UNDO, UNREAD, is_open, shown_undo, undone_file};

/// An undo file that was just opened, and whether it was opened to be written to.
#[derive(Drop)]
struct FoundUndo {
    undo: OpenBeside,
    is_writable: bool,
}

/// What was opened, where it is a regular file.
fn regular(found: Beside, is_writable: bool) -> Option<FoundUndo> {
    match found {
        Beside::Opened(undo) => Some(FoundUndo { undo, is_writable }),
        _ => None,
    }
}

/// Whether the system refuses to open a file to be written to that may still be read.
fn is_for_reading_alone(error: io::Error) -> bool {
    matches!(
        error.kind(),
        ErrorKind::PermissionDenied | ErrorKind::ReadOnlyFilesystem
    )
}

impl<'a, R: Files<File = File> + Eprint> OpenFiles<'a, R> {
    /// An undo file, which is opened; none where it is not there, or counts for nothing since its gate is closed and it
    /// is not ours, or can't be used. It is never locked: whoever may change it holds its file.
    pub fn find_undo(
        &mut self,
        file: &str,
        path: &str,
        access: Access,
    ) -> io::Result<Option<(File, Access)>> {
        if !self.undone.has(file) {
            return Ok(None);
        }
        if access != Access::Reading {
            self.before_undo(file)?;
        }
        let Some(found) = self.open_undo(path, access)? else {
            return Ok(None);
        };
        let of = self.metadata_of(file)?;
        if access != Access::Reading {
            self.stand_beside(path, of.as_ref())?;
        }
        if self.counts(file, path, &found, of.as_ref())? {
            Ok(Some((found.undo.file, access)))
        } else {
            Ok(None)
        }
    }

    /// Opens an undo file where a regular file stands there, so that it may be written to where files are changed.
    fn open_undo(&self, path: &str, access: Access) -> io::Result<Option<FoundUndo>> {
        if access != Access::Reading || self.is_writing() {
            match open_beside(self.files, path, Access::Writing) {
                Err(error) if access == Access::Reading && is_for_reading_alone(error) => {}
                found => return Ok(regular(found?, true)),
            }
        }
        let found = open_beside(self.files, path, Access::Reading)?;
        Ok(regular(found, false))
    }

    /// Whether files are changed in place.
    fn is_writing(&self) -> bool {
        match &self.shared {
            Shared::Locked(wanted) => wanted.lock == Lock::Exclusive,
            Shared::Kept => false,
            Shared::Free | Shared::Guarded => true,
        }
    }

    /// What the system says of a file beside which an undo file stands: of the open file, where it is open. None where
    /// it is not there.
    pub fn metadata_of(&self, file: &str) -> io::Result<Option<Metadata>> {
        if let Some(metadata) = self.slots.metadata(file)? {
            return Ok(Some(metadata));
        }
        let Some(metadata) = metadata_at(self.files, file)? else {
            return Ok(None);
        };
        let held = self.held.metadata(Node::of(&metadata))?;
        Ok(Some(held.unwrap_or(metadata)))
    }

    /// Refuses the place of an undo file that does not stand beside its file by now, as where a link on the way to that
    /// leads elsewhere meanwhile.
    fn stand_beside(&self, path: &str, of: Option<&Metadata>) -> io::Result<()> {
        let (Some((place, _)), Some(of)) = (undone_file(path), of) else {
            return Ok(());
        };
        if is_itself(self.files, place, Node::of(of))? {
            Ok(())
        } else {
            Err(changed_meanwhile())
        }
    }

    /// Whether an undo file counts. One with an open gate does, or is an error where it is not believed. One with a
    /// closed gate does where it is ours, and where files are changed also may be written to, and was made by this
    /// program or is as one that it would make.
    fn counts(
        &mut self,
        file: &str,
        path: &str,
        found: &FoundUndo,
        of: Option<&Metadata>,
    ) -> io::Result<bool> {
        let undo = &found.undo.metadata;
        let distrust = distrust_of(undo, of);
        if is_open(&found.undo.file)? {
            self.stand_beside(path, of)?;
            self.believe(file, undo, of, distrust)?;
            return Ok(true);
        }
        let is_ours = self.gates.has_made(file, Node::of(undo)) || serves(undo, of);
        let is_usable = !self.is_writing() || (found.is_writable && is_ours);
        Ok(distrust.is_none() && is_usable)
    }

    /// Notes that a gate was found open, or refuses to believe it: where the undo file is not ours, or where its file
    /// is not as a stop of this program leaves it. A gate that is known is asked for the first alone.
    fn believe(
        &mut self,
        file: &str,
        undo: &Metadata,
        of: Option<&Metadata>,
        distrust: Option<Distrust>,
    ) -> io::Result<()> {
        let node = Node::of(undo);
        let is_known = self.gates.has_open(file, node);
        let why = match (distrust, of) {
            (None, Some(of)) if !is_known => change_of(self.alloc, self.files, undo, of),
            _ => distrust,
        };
        if why.is_some() {
            self.distrust = why;
            let refused = io::Error::new(ErrorKind::InvalidData, "Not believed");
            return self.at(FailedAt::Undo, Err(refused));
        }
        if !is_known {
            let shown = shown_undo(self.alloc, self.files, file, UNDO)?;
            self.gates.note_found(file, shown.as_str(), node)?;
        }
        Ok(())
    }

    /// Judges the undo file of a file that is about to be replaced, before anything is made for that.
    pub fn judge_undo(&mut self, file: &str) -> io::Result<()> {
        if !self.undone.has(file) {
            return Ok(());
        }
        let undo = self.undo_name(file)?;
        let done = self.open(undo.as_str(), Access::Reading);
        self.at(FailedAt::Undo, done)?;
        Ok(())
    }

    /// The name of the undo file of a file.
    fn undo_name(&self, file: &str) -> io::Result<String> {
        let mut undo = String::from_str(self.alloc, file)?;
        undo.push_str(UNDO)?;
        Ok(undo)
    }

    /// Sees to it that an undo file may be changed: its file, where it is there, is locked before that where that is
    /// due, and may be written to; unless files are free, it is the one that is locked. One that is not there is to
    /// have been absent at the first look, too.
    pub fn before_undo(&mut self, file: &str) -> io::Result<()> {
        let done = self.hold_for_undo(file);
        self.at(FailedAt::Plain, done)
    }

    /// Sees to the same, but does not note where it failed.
    fn hold_for_undo(&mut self, file: &str) -> io::Result<()> {
        let Some(stamp) = stamp_at(self.files, file)? else {
            return self.stay_absent(file);
        };
        let mut node = stamp.node();
        if self.is_guarded() && !self.held.has(node) {
            node = self.guard(file)?;
        }
        let is_held = self.held.may_use(node, Access::Writing)?;
        if is_held || matches!(self.shared, Shared::Free) {
            Ok(())
        } else {
            Err(changed_meanwhile())
        }
    }

    /// Makes an empty undo file, which is not locked, with the owner, the group and the permissions of its file.
    pub fn make_undo(&mut self, name: &str, file: &str) -> io::Result<()> {
        self.before_undo(file)?;
        let path = self.path_of(name)?;
        let of = self.metadata_of(file)?;
        self.stand_beside(path.as_str(), of.as_ref())?;
        self.new_names.note(path.as_str())?;
        let made = make_anew(self.files, path.as_str())?;
        let node = Node::of(&made.metadata()?);
        self.made_undo = Some(Made {
            name: String::from_str(self.alloc, name)?,
            path,
            node,
        });
        if let Some(of) = &of {
            give_owner(&made, of);
        }
        self.gates.note_made(file, node)?;
        self.put(name, made, Access::Making, node, false)
    }

    /// Gives a new undo file its name, and waits until that is done on the disk. That another program took its first
    /// name meanwhile is an error.
    pub fn rename_undo(&mut self, source: &str, to: &str, file: &str) -> io::Result<()> {
        self.before_undo(file)?;
        if let Some(made) = &self.made_undo {
            if !is_itself(self.files, source, made.node)? {
                return Err(changed_meanwhile());
            }
        }
        let target = self.path_of(to)?;
        let of = self.metadata_of(file)?;
        self.stand_beside(target.as_str(), of.as_ref())?;
        self.rename_as(source, target.as_str())?;
        self.made_undo = None;
        self.gates.note_closed(file);
        Ok(())
    }

    /// Stamps an undo file with the present time before its file is mended by what it saves: a recovery that is stopped
    /// is then one of a file that was changed right behind its gate. What is written is a byte that nobody reads.
    pub fn stamp_undo(&mut self, file: &str) -> io::Result<()> {
        let done = self.write_unread(file);
        self.at(FailedAt::Undo, done)?;
        self.gates.note_mended(file);
        Ok(())
    }

    /// Writes a byte that nobody reads to an undo file, and waits until its times are on the disk.
    fn write_unread(&mut self, file: &str) -> io::Result<()> {
        let undo = self.undo_name(file)?;
        self.write_to(undo.as_str(), UNREAD, &[0])?;
        self.sync_last()
    }

    /// Notes what a write to the beginning of an undo file makes of its gate.
    pub fn note_gate(&mut self, name: &str, node: Node, bytes: &[u8]) -> io::Result<()> {
        if let Some((file, UNDO)) = undone_file(name) {
            if bytes.first() == Some(&OPEN) {
                self.gates.note_ours(file, node)?;
            } else {
                self.gates.note_closed(file);
            }
        }
        Ok(())
    }
}
