use memory_objects::MemStore;
use quota_types::{Entry, Format, Grace, Kind, Rec};
use std::alloc::{AllocError, Global};
use tests_row_files::{ordered, store_of};
use tree_build::build;
use tree_file::{TreeFile, open_tree};

/// A file of users that is built: this many identifiers from 0 on, each this far above the one before it.
#[derive(Clone, Copy, Debug)]
pub(crate) struct Built {
    pub format: Format,
    pub count: u32,
    pub step: u32,
}

/// A week, as the quota tools set it.
const WEEK: Grace = Grace {
    block: 604_800,
    inode: 604_800,
};

/// The record of the identifier at a place. No two are the same.
fn record_at(place: u32) -> Rec {
    let number = u64::from(place);
    Rec {
        ihard: 0,
        isoft: number,
        inodes: number + 1,
        bhard: 0,
        bsoft: 0,
        space: 1024 * number,
        btime: 0,
        itime: 0,
    }
}

/// The entry of the identifier at a place.
pub(crate) fn entry_at(built: &Built, place: u32) -> Entry {
    Entry {
        id: place.wrapping_mul(built.step),
        rec: record_at(place),
    }
}

/// The entries of the file.
pub(crate) fn entries_of(alloc: Global, built: &Built) -> Result<Vec<Entry>, AllocError> {
    let mut list = Vec::new(alloc);
    for place in 0..built.count {
        list.push(entry_at(built, place))?;
    }
    Ok(list)
}

/// The bytes of the file, or None where it can't be built.
pub(crate) fn file_of(alloc: Global, built: &Built) -> Option<Vec<u8>> {
    let list = entries_of(alloc, built).ok()?;
    let entries = ordered(alloc, built.format, list.as_slice()).ok()?;
    if built.format.is_flat() {
        return None;
    }
    build(
        alloc,
        built.format,
        Kind::User,
        WEEK,
        0,
        entries.as_slice(),
        u32::MAX,
    )
    .ok()
}

/// A store with a file.
pub(crate) fn store_with(alloc: Global, file: &[u8]) -> Option<MemStore> {
    store_of(alloc, file, &[]).ok()
}

/// Opens the file `q`, a file of users.
pub(crate) fn opened_users(alloc: Global, store: &mut MemStore) -> Option<TreeFile> {
    open_tree(alloc, store, "q", Kind::User, None, u32::MAX).ok()
}
