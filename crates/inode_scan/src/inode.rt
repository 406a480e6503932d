ghost use Rattle.std.specs.Prelude.{◌≡◌, Ok, Err, if◌then◌else◌};
ghost use Rattle.inode_scan.specs.Tally.{agrees, counted_at, first_kept};

use crate::ScanFault;
use crate::row::Row;

/// An inode of a device.
#[derive(Clone, Copy, PartialEq, Eq, Hash)]
pub(crate) struct Inode {
    /// The device.
    pub(crate) device: u64,
    /// The inode's number on it.
    pub(crate) number: u64,
}

/// What the first line of an inode says, and where it stands.
#[derive(Clone, Copy)]
pub(crate) struct FirstLine {
    /// The identifier of the owner.
    pub(crate) owner: u32,
    /// The identifier of the group, or of the project in a listing of projects.
    pub(crate) group: u32,
    /// How many blocks of 512 bytes the inode uses.
    pub(crate) blocks: u64,
    /// The line's number, from 1 on.
    pub(crate) number: u64,
}

impl FirstLine {
    /// What is kept of the line of this number, where it is the first of its inode.
    pub(crate) fn of(row: &Row, number: u64) -> FirstLine
        ensures { result ≡ first_kept (counted_at number row.now) }
    {
        FirstLine {
            owner: row.owner,
            group: row.group,
            blocks: row.blocks,
            number,
        }
    }

    /// Refuses a later line of the inode, of this number, that does not say the same.
    pub(crate) fn check(&self, row: &Row, number: u64) -> Result<(), ScanFault>
        ensures { result
            ≡ (if agrees self.now row.now then Ok tt else Err (ScanFault.Conflict number self.now.number)) }
    {
        if self.owner == row.owner && self.group == row.group && self.blocks == row.blocks {
            Ok(())
        } else {
            Err(ScanFault::Conflict {
                line: number,
                first: self.number,
            })
        }
    }
}
