use std::fs::Metadata;
use std::os::unix::fs::MetadataExt;

/// Which file it is, whatever its name.
#[derive(Clone, Copy, Debug, PartialEq, Eq)]
pub struct Node {
    device: u64,
    inode: u64,
}

impl Node {
    /// That of a file with this metadata.
    pub fn of(metadata: &Metadata) -> Node {
        Node {
            device: metadata.dev(),
            inode: metadata.ino(),
        }
    }
}

/// Which file it is, and what changes with each change of it, as far as the clock of the file system tells one moment
/// from the next.
#[derive(Clone, Copy, Debug, PartialEq, Eq)]
pub struct Stamp {
    node: Node,
    len: u64,
    modified: i64,
    modified_nanos: i64,
    changed: i64,
    changed_nanos: i64,
}

impl Stamp {
    /// That of a file with this metadata.
    pub fn of(metadata: &Metadata) -> Stamp {
        Stamp {
            node: Node::of(metadata),
            len: metadata.len(),
            modified: metadata.mtime(),
            modified_nanos: metadata.mtime_nsec(),
            changed: metadata.ctime(),
            changed_nanos: metadata.ctime_nsec(),
        }
    }

    /// Which file it is.
    pub fn node(&self) -> Node {
        self.node
    }
}
