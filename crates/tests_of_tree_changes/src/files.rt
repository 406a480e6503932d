//! Small tree files of users as data.

use memory_objects::MemStore;
use opened_file::OpenFault;
use quota_types::{Entry, Kind, Rec};
use std::alloc::{AllocError, Global};
use tests_row_files::next_after;
use tree_file::{TreeFile, open_tree};

/// A number that is written over four bytes: the block, the byte of it where it begins, and the number.
pub(crate) type Number = (usize, usize, u32);

/// A file of this many blocks: the six-block file with these numbers over its own, list after list.
pub(crate) type Described = (usize, &'static [&'static [Number]]);

/// The six-block file: vfsv1, block 5 alone in the entry list, and the way of identifier 1000 over the blocks 1 to 4 to
/// its entry, which is the first one of block 5.
#[rattlefmt::skip]
const SIX: &[Number] = &[
    (0, 0, 0xd9c0_1f11), (0, 4, 1), (0, 8, 604_800), (0, 12, 604_800), (0, 20, 6), (0, 28, 5),
    (1, 0, 2), (2, 0, 3), (3, 12, 4), (4, 928, 5),
    (5, 8, 1), (5, 16, 1000), (5, 40, 1),
];

/// A record of one inode: the number 1 at byte 24 of its entry.
pub(crate) const ONE: Rec = Rec {
    ihard: 0,
    isoft: 0,
    inodes: 1,
    bhard: 0,
    bsoft: 0,
    space: 0,
    btime: 0,
    itime: 0,
};

/// How many blocks the files may have.
const LIMIT: u32 = 1000;

/// Writes a number into a block, where the file has it.
pub(crate) fn put(file: &mut [u8], block: usize, at: usize, number: u32) {
    let start = block.saturating_mul(1024).saturating_add(at);
    for (place, byte) in number.to_le_bytes().iter().enumerate() {
        if let Some(to) = file.get_mut(start.saturating_add(place)) {
            *to = *byte;
        }
    }
}

fn put_all(file: &mut [u8], numbers: &[Number]) {
    for (block, at, number) in numbers {
        put(file, *block, *at, *number);
    }
}

/// The file that is described.
pub(crate) fn made(alloc: Global, described: &Described) -> Result<Vec<u8>, AllocError> {
    let (blocks, lists) = *described;
    let mut file = vec![in alloc; 0u8; blocks.saturating_mul(1024)]?;
    put_all(&mut file, SIX);
    for numbers in lists {
        put_all(&mut file, numbers);
    }
    Ok(file)
}

/// Opens the file `q`, which is checked block by block.
pub(crate) fn open_users(alloc: Global, store: &mut MemStore) -> Result<TreeFile, OpenFault> {
    open_within(alloc, store, LIMIT)
}

/// Opens the file `q`, which may have at most `limit` blocks.
pub(crate) fn open_within(
    alloc: Global,
    store: &mut MemStore,
    limit: u32,
) -> Result<TreeFile, OpenFault> {
    open_tree(alloc, store, "q", Kind::User, None, limit)
}

/// Whether the entries of the opened file are these, and those of the file that is opened anew, and so checked, too.
pub(crate) fn is_listed(
    alloc: Global,
    opened: &mut TreeFile,
    store: &mut MemStore,
    list: &[Entry],
) -> bool {
    match open_users(alloc, store) {
        Ok(mut again) => lists(opened, store, list) && lists(&mut again, store, list),
        Err(_) => false,
    }
}

fn lists(file: &mut TreeFile, store: &mut MemStore, list: &[Entry]) -> bool {
    let mut after = None;
    for entry in list {
        if next_after(file, store, after) != Some(Ok(Some(*entry))) {
            return false;
        }
        after = Some(entry.id);
    }
    next_after(file, store, after) == Some(Ok(None))
}

/// How many blocks the file `q` has.
pub(crate) fn blocks_in(store: &MemStore) -> usize {
    store.file("q").unwrap_or(b"").len() / 1024
}

/// The recurrence by which orders are chosen: 1103515245 times the number before, and 12345, modulo 2 to the 31st.
pub(crate) fn next_number(number: u32) -> u32 {
    number.wrapping_mul(1_103_515_245).wrapping_add(12_345) % 0x8000_0000
}
