//! Small tree files as data, and what a check answers on them.

use entry_codec::{Header, HeaderFault, Order, read_header};
use file_blocks::CheckFault;
use memory_objects::MemStore;
use outside::Store;
use quota_types::{Damage, DamageKind, Kind};
use std::alloc::{AllocError, Global};
use tests_row_files::store_of;
use tree_check::{Checked, check};

/// A number that is written over four bytes, at a place.
pub(crate) type Change = (usize, u32);

/// The six-block file at a length, with these numbers over its own, list after list.
pub(crate) type SixBlocks = (usize, &'static [&'static [Change]]);

/// Where the numbers of the header stand.
pub(crate) const MAGIC: usize = 0;

pub(crate) const VERSION: usize = 4;

pub(crate) const BLOCK_GRACE: usize = 8;

pub(crate) const INODE_GRACE: usize = 12;

pub(crate) const FLAGS: usize = 16;

pub(crate) const BLOCKS: usize = 20;

pub(crate) const FREE: usize = 24;

pub(crate) const FIRST: usize = 28;

/// Where the parts of data block 5 stand: its links, its stored number and its one entry.
pub(crate) const NEXT: usize = 5120;

pub(crate) const PREVIOUS: usize = 5124;

pub(crate) const STATED: usize = 5128;

pub(crate) const ENTRY: usize = 5136;

/// The six-block file, as the quota tools write it: vfsv1 of users, both grace periods a week, none of its blocks free,
/// data block 5 first in the entry list; its tree; and its one entry: identifier 1000 uses 4,096 bytes and one inode.
const SIX: &[Change] = &[
    (MAGIC, 0xd9c0_1f11),
    (VERSION, 1),
    (BLOCK_GRACE, 604_800),
    (INODE_GRACE, 604_800),
    (BLOCKS, 6),
    (FIRST, 5),
    (1024, 2),
    (2048, 3),
    (3084, 4),
    (5024, 5),
    (STATED, 1),
    (ENTRY, 1000),
    (ENTRY + 24, 1),
    (ENTRY + 48, 4096),
];

/// Leaves the header and the root of the six-block file: no other blocks, and no records.
pub(crate) const EMPTY: &[Change] = &[(BLOCKS, 2), (FIRST, 0)];

/// Fills the last data block of the six-block file: fourteen identifiers from 1000 on. It is in no list then.
pub(crate) const FULL: &[Change] = &[
    (STATED, 14),
    (FIRST, 0),
    (5024, 5),
    (5028, 5),
    (5032, 5),
    (5036, 5),
    (5040, 5),
    (5044, 5),
    (5048, 5),
    (5052, 5),
    (5056, 5),
    (5060, 5),
    (5064, 5),
    (5068, 5),
    (5072, 5),
    (5076, 5),
    (ENTRY, 1000),
    (ENTRY + 72, 1001),
    (ENTRY + 144, 1002),
    (ENTRY + 216, 1003),
    (ENTRY + 288, 1004),
    (ENTRY + 360, 1005),
    (ENTRY + 432, 1006),
    (ENTRY + 504, 1007),
    (ENTRY + 576, 1008),
    (ENTRY + 648, 1009),
    (ENTRY + 720, 1010),
    (ENTRY + 792, 1011),
    (ENTRY + 864, 1012),
    (ENTRY + 936, 1013),
];

/// A file of vfsv0 with two full data blocks: block 5 has identifiers from 1000 on, and block 6 from 768 on.
pub(crate) const TWO_FULL_OF_VFSV0: &[Change] = &[
    (VERSION, 0),
    (BLOCKS, 7),
    (FIRST, 0),
    (STATED, 21),
    (6152, 21),
    (5024, 5),
    (5028, 5),
    (5032, 5),
    (5036, 5),
    (5040, 5),
    (5044, 5),
    (5048, 5),
    (5052, 5),
    (5056, 5),
    (5060, 5),
    (5064, 5),
    (5068, 5),
    (5072, 5),
    (5076, 5),
    (5080, 5),
    (5084, 5),
    (5088, 5),
    (5092, 5),
    (5096, 5),
    (5100, 5),
    (5104, 5),
    (4096, 6),
    (4100, 6),
    (4104, 6),
    (4108, 6),
    (4112, 6),
    (4116, 6),
    (4120, 6),
    (4124, 6),
    (4128, 6),
    (4132, 6),
    (4136, 6),
    (4140, 6),
    (4144, 6),
    (4148, 6),
    (4152, 6),
    (4156, 6),
    (4160, 6),
    (4164, 6),
    (4168, 6),
    (4172, 6),
    (4176, 6),
    (ENTRY, 1000),
    (ENTRY + 48, 1001),
    (ENTRY + 96, 1002),
    (ENTRY + 144, 1003),
    (ENTRY + 192, 1004),
    (ENTRY + 240, 1005),
    (ENTRY + 288, 1006),
    (ENTRY + 336, 1007),
    (ENTRY + 384, 1008),
    (ENTRY + 432, 1009),
    (ENTRY + 480, 1010),
    (ENTRY + 528, 1011),
    (ENTRY + 576, 1012),
    (ENTRY + 624, 1013),
    (ENTRY + 672, 1014),
    (ENTRY + 720, 1015),
    (ENTRY + 768, 1016),
    (ENTRY + 816, 1017),
    (ENTRY + 864, 1018),
    (ENTRY + 912, 1019),
    (ENTRY + 960, 1020),
    (6160, 768),
    (6208, 769),
    (6256, 770),
    (6304, 771),
    (6352, 772),
    (6400, 773),
    (6448, 774),
    (6496, 775),
    (6544, 776),
    (6592, 777),
    (6640, 778),
    (6688, 779),
    (6736, 780),
    (6784, 781),
    (6832, 782),
    (6880, 783),
    (6928, 784),
    (6976, 785),
    (7024, 786),
    (7072, 787),
    (7120, 788),
];

/// Writes a number over the four bytes at a place, where the file has them.
fn put(file: &mut [u8], at: usize, number: u32) {
    for (place, byte) in number.to_le_bytes().iter().enumerate() {
        if let Some(to) = file.get_mut(at.saturating_add(place)) {
            *to = *byte;
        }
    }
}

/// Writes these numbers over a file's own.
fn put_all(file: &mut [u8], changes: &[Change]) {
    for (at, number) in changes {
        put(file, *at, *number);
    }
}

/// The file that was described.
pub(crate) fn made(
    alloc: Global,
    len: usize,
    changes: &[&[Change]],
) -> Result<Vec<u8>, AllocError> {
    let mut file = vec![in alloc; 0u8; len]?;
    put_all(&mut file, SIX);
    for more in changes {
        put_all(&mut file, more);
    }
    Ok(file)
}

/// Whether these numbers stand in a file.
pub(crate) fn stand_in(file: &[u8], numbers: &[Change]) -> bool {
    numbers.iter().all(|(at, number)| {
        file.get(*at..at.saturating_add(4)) == Some(number.to_le_bytes().as_slice())
    })
}

/// The header of a file of users.
pub(crate) fn header_of(file: &[u8]) -> Result<Header, HeaderFault> {
    let mut block = [0; 1024];
    for (to, from) in block.iter_mut().zip(file) {
        *to = *from;
    }
    read_header(&block, Kind::User, Order::Little)
}

/// What a check of a file of users answers, of which the calls of the store with these numbers fail, and how many
/// blocks it read. A file without a header is no file of these rows.
pub(crate) fn checked_failing(
    alloc: Global,
    file: &[u8],
    failing: &[u64],
) -> Result<(Result<Checked, CheckFault>, u64), AllocError> {
    let mut store = store_of(alloc, file, failing)?;
    let answer = match header_of(file) {
        Ok(header) => check_by(alloc, &mut store, &header),
        Err(_) => Err(CheckFault::Memory),
    };
    Ok((answer, store.reads()))
}

/// What a check answers that is given this header.
fn check_by(alloc: Global, store: &mut MemStore, header: &Header) -> Result<Checked, CheckFault> {
    if header.format.is_flat() || header.blocks < 2 {
        return Err(CheckFault::Memory);
    }
    check(alloc, store, "q", header, Order::Little)
}

/// What a check of a file answers where no call fails, and how many blocks it read.
pub(crate) fn checked(
    alloc: Global,
    file: &[u8],
) -> Result<(Result<Checked, CheckFault>, u64), AllocError> {
    checked_failing(alloc, file, &[])
}

/// The answer that names a damage.
pub(crate) fn named(kind: DamageKind, block: u32, id: u32) -> Result<Checked, CheckFault> {
    Err(CheckFault::Damage(Damage { kind, block, id }))
}

/// The answer that finds this many records and free blocks.
pub(crate) fn found(used: u64, free: u32) -> Result<Checked, CheckFault> {
    Ok(Checked { used, free })
}
