ghost use Rattle.std.specs.Prelude.{◌≡◌, ◌^◌};
ghost use Rattle.inode_scan.specs.Firsts.{narrow_inode, narrow_line, widened};
ghost use Rattle.inode_scan.specs.Line.{below};

use crate::inode::{FirstLine, Inode};
use std::hash::{Hash, Hasher};

/// An inode whose device and number have 32 bits each, as they have on Linux and in ext4.
#[derive(Clone, Copy, PartialEq, Eq)]
pub(crate) struct NarrowInode {
    /// The device.
    device: u32,
    /// The inode's number on it.
    number: u32,
}

impl NarrowInode {
    /// The inode in this form, or `None` where one of its numbers has more than 32 bits.
    pub(crate) fn of(inode: Inode) -> Option<NarrowInode>
        ensures { result ≡ narrow_inode inode }
    {
        Some(NarrowInode {
            device: in_32_bits(inode.device)?,
            number: in_32_bits(inode.number)?,
        })
    }
}

impl Hash for NarrowInode {
    ghost use Rattle.std.specs.Prelude.{◌++◌, ◌/◌};
    ghost use Rattle.std.specs.Hash as fed;
    ghost use Rattle.std.specs.Cmp.Rules.{hashing};
    ghost use Rattle.std.proofs.Common.{rules};

    ghost hash_input = { λ inode. fed.u32 inode.device ++ fed.u32 (inode.number / 4) };

    ghost respects_eq = { Prim.search (hashing, rules) };

    /// Four inodes in a row are hashed alike, so that a map keeps them in one place: a listing usually has inodes of a
    /// folder, whose numbers stand close together, and memory is what looking them up waits for.
    fn hash<H: Hasher>(&self, state: &mut H) {
        self.device.hash(state);
        (self.number / 4).hash(state);
    }
}

/// What the first line of an inode says, and where it stands, in numbers of 32 bits each.
#[derive(Clone, Copy)]
pub(crate) struct NarrowLine {
    /// The identifier of the owner.
    owner: u32,
    /// The identifier of the group, or of the project in a listing of projects.
    group: u32,
    /// How many blocks of 512 bytes the inode uses.
    blocks: u32,
    /// The line's number, from 1 on.
    number: u32,
}

impl NarrowLine {
    /// The line in this form, or `None` where one of its numbers has more than 32 bits.
    pub(crate) fn of(line: FirstLine) -> Option<NarrowLine>
        ensures { result ≡ narrow_line line }
    {
        Some(NarrowLine {
            owner: line.owner,
            group: line.group,
            blocks: in_32_bits(line.blocks)?,
            number: in_32_bits(line.number)?,
        })
    }

    /// The line in the form that has room for each line.
    pub(crate) fn widened(self) -> FirstLine
        ensures { result ≡ widened self }
    {
        FirstLine {
            owner: self.owner,
            group: self.group,
            blocks: u64::from(self.blocks),
            number: u64::from(self.number),
        }
    }
}

/// The number, or `None` where it has more than 32 bits.
pub(crate) fn in_32_bits(number: u64) -> Option<u32>
    ensures { result ≡ below (2 ^ 32) number }
{
    u32::try_from(number).ok()
}
