use memory_objects::MemStore;
use opened_file::ReplaceFault;
use outside::Store;
use quota_map::replace_file;
use quota_types::{Entry, Format, Grace, Kind, Rec};
use std::alloc::Global;

pub(crate) const LIMITS: Rec = Rec {
    ihard: 20,
    isoft: 10,
    inodes: 0,
    bhard: 200,
    bsoft: 100,
    space: 0,
    btime: 0,
    itime: 0,
};

/// The record of 4,096 bytes and one inode, with timers.
pub(crate) const USED: Rec = Rec {
    ihard: 0,
    isoft: 0,
    inodes: 1,
    bhard: 0,
    bsoft: 0,
    space: 4096,
    btime: 11,
    itime: 13,
};

/// A record that limits nothing and counts nothing, with a timer.
pub(crate) const NULL: Rec = Rec {
    ihard: 0,
    isoft: 0,
    inodes: 0,
    bhard: 0,
    bsoft: 0,
    space: 0,
    btime: 0,
    itime: 5,
};

pub(crate) const LAST: Entry = Entry {
    id: 1000,
    rec: USED,
};

pub(crate) const LIST: [Entry; 2] = [Entry { id: 0, rec: LIMITS }, LAST];

pub(crate) const NULLS: [Entry; 1] = [Entry { id: 7, rec: NULL }];

pub(crate) const PERIODS: Grace = Grace { block: 7, inode: 9 };

pub(crate) const DOUBLED: Grace = Grace {
    block: 14,
    inode: 18,
};

/// What the file `q` is made of, by `replace_file`.
#[derive(Clone, Copy, Debug)]
pub(crate) enum Made {
    /// `LIST` in a flat file of users.
    Flat,
    /// `LIST` in a flat file of users, of vfsold32.
    Flat32,
    /// `LIST` and flags 5 in vfsv0, of users.
    Narrow,
    /// `LIST` and flags 5 in vfsv1, of users.
    Wide,
    /// `LIST` and flags 5 in vfsv1, of projects.
    OfProjects,
    /// `LIST` and flags 5 in vfsv1, of users, with at most 6 blocks.
    WideInSix,
    /// `NULLS` in vfsv0, of groups.
    Nulls,
    /// Bytes that stand from their places on, or an empty file.
    Written(&'static [(u64, &'static [u8])]),
}

/// Writes bytes from their places on, or makes an empty file.
fn write_parts(store: &mut MemStore, parts: &[(u64, &[u8])]) -> bool {
    if parts.is_empty() {
        return store.create("q").is_ok();
    }
    for part in parts {
        if !write_part(store, part.0, part.1) {
            return false;
        }
    }
    true
}

/// Writes bytes from a place on.
fn write_part(store: &mut MemStore, at: u64, bytes: &[u8]) -> bool {
    if at >= 4096 || bytes.len() > 1024 {
        return false;
    }
    store.write("q", at, bytes).is_ok()
}

pub(crate) fn make(alloc: Global, store: &mut MemStore, made: Made) -> Result<(), ReplaceFault> {
    let user = Kind::User;
    match made {
        Made::Written(parts) => {
            if write_parts(store, parts) {
                Ok(())
            } else {
                Err(ReplaceFault::Store)
            }
        }
        Made::Flat => replace_file(alloc, store, "q", Format::V1, user, PERIODS, 5, &LIST, 0),
        Made::Flat32 => {
            replace_file(alloc, store, "q", Format::V1R32, user, PERIODS, 5, &LIST, 0)
        }
        Made::Narrow => replace_file(alloc, store, "q", Format::V2R0, user, PERIODS, 5, &LIST, 7),
        Made::Wide => replace_file(alloc, store, "q", Format::V2R1, user, PERIODS, 5, &LIST, 7),
        Made::OfProjects => {
            let project = Kind::Project;
            replace_file(
                alloc,
                store,
                "q",
                Format::V2R1,
                project,
                PERIODS,
                5,
                &LIST,
                7,
            )
        }
        Made::WideInSix => {
            replace_file(alloc, store, "q", Format::V2R1, user, PERIODS, 5, &LIST, 6)
        }
        Made::Nulls => {
            let group = Kind::Group;
            replace_file(
                alloc,
                store,
                "q",
                Format::V2R0,
                group,
                PERIODS,
                0,
                &NULLS,
                6,
            )
        }
    }
}
