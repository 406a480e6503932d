use crate::stamp::{Node, Stamp};
use std::alloc::{AllocError, Global};

/// The files that were synced, as they were then, and have not been changed since.
#[derive(Drop)]
pub struct SyncedFiles {
    stamps: Vec<Stamp>,
}

impl SyncedFiles {
    /// None was synced yet.
    pub fn new(alloc: Global) -> SyncedFiles {
        SyncedFiles {
            stamps: Vec::new(alloc),
        }
    }

    /// Notes a file that was synced.
    pub fn note(&mut self, stamp: Stamp) -> Result<(), AllocError> {
        self.forget(stamp.node());
        self.stamps.push(stamp)?;
        Ok(())
    }

    /// Whether a file that is now so was synced, and is as it was then.
    pub fn has(&self, stamp: Stamp) -> bool {
        self.stamps.contains(&stamp)
    }

    /// Forgets a file that is about to be changed.
    pub fn forget(&mut self, node: Node) {
        self.stamps.retain(|stamp| stamp.node() != node);
    }

    /// Forgets all files, since one of them is about to be made or to get another name.
    pub fn clear(&mut self) {
        self.stamps.clear();
    }
}
