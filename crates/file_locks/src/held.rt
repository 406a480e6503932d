use crate::locks::LockedFile;
use file_names::stamp::Node;
use file_windows::Access;
use std::alloc::{AllocError, Global};
use std::fs::{File, Metadata};
use std::io;
use std::io::ErrorKind;
use undo_trust::owner::follow_owner;

/// The files that are locked, whatever their names. Each is let go with the last of its open files.
#[derive(Drop)]
pub struct HeldFiles {
    files: Vec<LockedFile>,
}

impl HeldFiles {
    /// None is locked yet.
    pub fn new(alloc: Global) -> HeldFiles {
        HeldFiles {
            files: Vec::new(alloc),
        }
    }

    /// Holds a file that was locked, and answers which one it is.
    ///
    /// # Errors
    ///
    /// There is not enough memory.
    pub fn add(&mut self, locked: LockedFile) -> Result<Node, AllocError> {
        let node = locked.node;
        self.files.push(locked)?;
        Ok(node)
    }

    /// Whether none is held.
    pub fn is_empty(&self) -> bool {
        self.files.is_empty()
    }

    /// Whether a file is held.
    pub fn has(&self, node: Node) -> bool {
        self.named(node).is_some()
    }

    /// Whether a file is held.
    ///
    /// # Errors
    ///
    /// It is, and may not be used so.
    pub fn may_use(&self, node: Node, access: Access) -> io::Result<bool> {
        match self.named(node) {
            Some(held) if held.access.allows(access) => Ok(true),
            Some(held) => Err(
                held.denied
                    .unwrap_or(io::Error::from(ErrorKind::PermissionDenied)),
            ),
            None => Ok(false),
        }
    }

    /// The file once more, where it is held.
    ///
    /// # Errors
    ///
    /// It may not be used so, or the system failed.
    pub fn again(&self, node: Node, access: Access) -> io::Result<Option<(File, Access)>> {
        if !self.may_use(node, access)? {
            return Ok(None);
        }
        match self.named(node) {
            Some(held) => Ok(Some((held.file.try_clone()?, held.access))),
            None => Ok(None),
        }
    }

    /// What the system says of a file, where it is held.
    ///
    /// # Errors
    ///
    /// The system failed.
    pub fn metadata(&self, node: Node) -> io::Result<Option<Metadata>> {
        match self.named(node) {
            Some(held) => Ok(Some(held.file.metadata()?)),
            None => Ok(None),
        }
    }

    /// Gives a held file, which this program has made, the owner, the group and the permissions of another one.
    ///
    /// # Errors
    ///
    /// The system failed to say what those of the held file are.
    pub fn follow_owner(&self, node: Node, of: &Metadata) -> io::Result<()> {
        if let Some(held) = self.named(node) {
            follow_owner(&held.file, &held.file.metadata()?, of);
        }
        Ok(())
    }

    /// The held file, where it is.
    fn named(&self, node: Node) -> Option<&LockedFile> {
        self.files.iter().find(|held| held.node == node)
    }

    /// Lets go of a file.
    pub fn release(&mut self, node: Node) {
        self.files.retain(|held| held.node != node);
    }
}
