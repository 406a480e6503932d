ghost use Rattle.std.specs.Prelude.{◌≡◌};
ghost use Rattle.inode_scan.specs.declared.scan_fault.ScanFault.TheVariants.{Memory};
ghost use Rattle.inode_scan.specs.declared.scan_fault.ApplyFault.TheVariants.{Memory as NoMemory, NoRoom as Unfit};
ghost use Rattle.inode_scan.specs.ListingFaults.{line_fault};

use input_text::LineFault;
use quota_types::NoRoom;
use std::alloc::{AllocError, AllocFailed};

/// Why a listing gives no usage.
#[derive(Clone, Copy, Debug, PartialEq, Eq)]
pub enum ScanFault {
    /// The source failed.
    Source,
    /// The listing has more than 1,099,511,627,776 bytes.
    TooLarge,
    /// The line of this number, from 1 on, has words and is not five numbers in their ranges.
    BadLine(u64),
    /// The line of this number, from 1 on, has more than 256 bytes.
    LongLine(u64),
    /// Two lines of one inode do not tell the same owner, group or project, and number of blocks.
    Conflict {
        /// The number of the later line, from 1 on.
        line: u64,
        /// The number of the inode's first line.
        first: u64,
    },
    /// There was not enough memory.
    Memory,
}

impl From<LineFault> for ScanFault {
    ghost from_gives = { λ lines fault. fault ≡ line_fault lines };

    fn from(lines: LineFault) -> Self {
        match lines {
            LineFault::Source => ScanFault::Source,
            LineFault::Long(number) => ScanFault::LongLine(number),
            LineFault::TooLarge => ScanFault::TooLarge,
        }
    }
}

impl From<AllocError> for ScanFault {
    ghost from_gives = { λ _ fault. fault ≡ Memory };

    fn from(_: AllocError) -> Self {
        ScanFault::Memory
    }
}

impl<T: Drop> From<AllocFailed<T>> for ScanFault {
    ghost from_gives = { λ _ fault. fault ≡ Memory };

    fn from(_: AllocFailed<T>) -> Self {
        ScanFault::Memory
    }
}

/// Why there are no records with the usage of a listing.
#[derive(Clone, Copy, Debug, PartialEq, Eq)]
pub enum ApplyFault {
    /// The format has no room for a value.
    NoRoom(NoRoom),
    /// There was not enough memory.
    Memory,
}

impl From<NoRoom> for ApplyFault {
    ghost from_gives = { λ out fault. fault ≡ Unfit out };

    fn from(out: NoRoom) -> Self {
        ApplyFault::NoRoom(out)
    }
}

impl<T: Drop> From<AllocFailed<T>> for ApplyFault {
    ghost from_gives = { λ _ fault. fault ≡ NoMemory };

    fn from(_: AllocFailed<T>) -> Self {
        ApplyFault::Memory
    }
}
