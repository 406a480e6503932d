use memory_objects::MemStore;
use quota_types::{Entry, Format, Grace, Kind, Rec};
use rquota_serve::Exports;
use std::alloc::Global;
use tests_row_files::listed;

/// A path, whose usage is told under it, and the file.
pub(crate) type Told = (&'static str, Kind, &'static str);

const GRACE: Grace = Grace {
    block: 604_800,
    inode: 604_800,
};

/// The record of user 1000 in the file `q`.
pub(crate) const USER: Rec = Rec {
    ihard: 20,
    isoft: 10,
    inodes: 1,
    bhard: 200,
    bsoft: 100,
    space: 4096,
    btime: 0,
    itime: 0,
};

/// The record of group 100 in the file `g`, with timers.
pub(crate) const GROUP: Rec = Rec {
    ihard: 0,
    isoft: 1,
    inodes: 2,
    bhard: 0,
    bsoft: 1,
    space: 2048,
    btime: 1_700_000_060,
    itime: 1_700_000_000,
};

/// The record of project 7 in the file `p`.
pub(crate) const PROJECT: Rec = Rec {
    ihard: 6,
    isoft: 5,
    inodes: 3,
    bhard: 80,
    bsoft: 40,
    space: 9216,
    btime: 0,
    itime: 0,
};

/// The bytes of a file of a kind with one entry, or None where it can't be made.
fn file_of(alloc: Global, kind: Kind, format: Format, id: u32, rec: Rec) -> Option<Vec<u8>> {
    let store = listed(alloc, kind, format, GRACE, &[Entry { id, rec }])?;
    Vec::from_slice(alloc, store.file("q")?).ok()
}

/// A store with the files `q` of users, `g` of groups and `p` of projects, of one format, whose calls fail that
/// `failing` names.
pub(crate) fn store_with(alloc: Global, format: Format, failing: &[u64]) -> Option<MemStore> {
    let users = file_of(alloc, Kind::User, format, 1000, USER)?;
    let groups = file_of(alloc, Kind::Group, format, 100, GROUP)?;
    let projects = file_of(alloc, Kind::Project, format, 7, PROJECT)?;
    let mut files = Vec::new(alloc);
    let name = String::from_str(alloc, "q").ok()?;
    files.push((name, users)).ok()?;
    let name = String::from_str(alloc, "g").ok()?;
    files.push((name, groups)).ok()?;
    let name = String::from_str(alloc, "p").ok()?;
    files.push((name, projects)).ok()?;
    Some(MemStore::new(files, Vec::from_slice(alloc, failing).ok()?))
}

/// Exports one file more, where that may be done and is not refused.
pub(crate) fn add(
    alloc: Global,
    exports: &mut Exports,
    store: &mut MemStore,
    told: Told,
    format: Format,
) -> bool {
    if !exports.may_add(told.0, told.1) {
        return false;
    }
    let added = exports.add(alloc, store, told.0, told.1, told.2, Some(format));
    added == Ok(())
}

/// The exports of these files, or None where one can't be exported.
pub(crate) fn exports_of(
    alloc: Global,
    store: &mut MemStore,
    told: &[Told],
    format: Format,
) -> Option<Exports> {
    let mut exports = Exports::new(alloc);
    for one in told {
        if !add(alloc, &mut exports, store, *one, format) {
            return None;
        }
    }
    Some(exports)
}
