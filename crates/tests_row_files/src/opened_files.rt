ghost use Rattle.std.specs.Prelude.{◌≡◌, None, All, IfOk, IfSome, IsTrue};
ghost use Rattle.std.specs.List.Sorted.{IsStrictlyIncreasing};
ghost use Rattle.quota_types.specs.Kept.{IsKept, kept_of};
ghost use Rattle.quota_types.specs.Range.{unfit};
ghost use Rattle.quota_value.specs.Listed.{ids_of};
ghost use Rattle.quota_types.specs.Ids.{IsAfter};

use memory_objects::MemStore;
use opened_file::{FileFault, QuotaFile};
use quota_map::{AnyFile, open_file};
use quota_types::{Entry, Format, Grace, Kind, Rec, check_grace, check_record, kept};
use std::alloc::{AllocError, Global};

/// A store with the one file `q`, whose calls fail that `failing` names, counted from 1.
pub fn store_of(alloc: Global, file: &[u8], failing: &[u64]) -> Result<MemStore, AllocError> {
    let mut files = Vec::new(alloc);
    files.push((String::from_str(alloc, "q")?, Vec::from_slice(alloc, file)?))?;
    Ok(MemStore::new(files, Vec::from_slice(alloc, failing)?))
}

/// What the format keeps of entries, up to the first that has no greater identifier than the one before it, or for
/// which the format has no room.
pub fn ordered(alloc: Global, format: Format, list: &[Entry]) -> Result<Vec<Entry>, AllocError>
    ensures ascending { IfOk result (λ list. IsStrictlyIncreasing (ids_of list.items)) }
    ensures fits { IfOk result (λ list. All (λ entry. unfit format entry.id entry.rec ≡ None) list.items) }
    ensures kept { IfOk result (λ list. All (λ entry. kept_of format entry.id entry.rec ≡ entry.rec) list.items) }
{
    let mut ordered = Vec::new(alloc);
    let mut after = None;
    for entry in list {
        let Some(entry) = kept_behind(format, after, *entry) else {
            break;
        };
        ordered.push(entry)?;
        after = Some(entry.id);
    }
    Ok(ordered)
}

/// What the format keeps of an entry that comes after another one, where it has room for it.
fn kept_behind(format: Format, after: Option<u32>, entry: Entry) -> Option<Entry>
    ensures behind { IfSome result (λ entry. IsAfter after entry.id) }
    ensures kept { IfSome result (λ entry. IsKept format entry.id entry.rec) }
{
    let Entry { id, rec } = entry;
    if !is_behind(after, id) || check_record(format, id, &rec).is_err() {
        return None;
    }
    let rec = kept(format, id, rec);
    Some(Entry { id, rec })
}

fn is_behind(after: Option<u32>, id: u32) -> bool
    ensures { IsTrue result → IsAfter after id }
{
    match after {
        Some(after) => after < id,
        None => true,
    }
}

/// A change of an opened file.
#[derive(Clone, Copy, Debug)]
pub enum Act {
    /// An identifier gets a record.
    Put(u32, Rec),
    /// An identifier's record is taken away.
    Remove(u32),
    /// The grace periods are set.
    SetGrace(Grace),
}

/// What a change answers, or None where it may not be asked for.
pub fn make<F: QuotaFile<MemStore>>(
    file: &mut F,
    store: &mut MemStore,
    change: &Act,
) -> Option<Result<(), FileFault>> {
    if !file.usable() {
        return None;
    }
    match *change {
        Act::Put(id, rec) => put(file, store, id, rec),
        Act::Remove(id) => Some(file.remove(store, id)),
        Act::SetGrace(grace) => set_grace(file, store, grace),
    }
}

/// What the file answers that is to put what it keeps of a record.
fn put<F: QuotaFile<MemStore>>(
    file: &mut F,
    store: &mut MemStore,
    id: u32,
    rec: Rec,
) -> Option<Result<(), FileFault>> {
    let format = file.format();
    if !file.usable() || check_record(format, id, &rec).is_err() {
        return None;
    }
    let rec = kept(format, id, rec);
    if rec.is_null() {
        return None;
    }
    Some(file.put(store, id, rec))
}

/// What the file answers that is to set its grace periods.
fn set_grace<F: QuotaFile<MemStore>>(
    file: &mut F,
    store: &mut MemStore,
    grace: Grace,
) -> Option<Result<(), FileFault>> {
    if !file.usable() || check_grace(file.format(), &grace).is_err() {
        return None;
    }
    Some(file.set_grace(store, grace))
}

/// What a look-up answers, or None where it may not be asked for.
pub fn get<F: QuotaFile<MemStore>>(
    file: &mut F,
    store: &mut MemStore,
    id: u32,
) -> Option<Result<Option<Rec>, FileFault>> {
    if !file.usable() {
        return None;
    }
    Some(file.get(store, id))
}

/// What a look-up of the next identifier answers, or None where it may not be asked for.
pub fn next_after<F: QuotaFile<MemStore>>(
    file: &mut F,
    store: &mut MemStore,
    after: Option<u32>,
) -> Option<Result<Option<Entry>, FileFault>> {
    if !file.usable() {
        return None;
    }
    Some(file.next_after(store, after))
}

/// Whether an opened file has these entries and no others: each is the next one after the one before it, and is looked
/// up.
pub fn holds_entries<F: QuotaFile<MemStore>>(
    file: &mut F,
    store: &mut MemStore,
    list: &[Entry],
) -> bool {
    let mut after = None;
    for entry in list {
        if next_after(file, store, after) != Some(Ok(Some(*entry)))
            || get(file, store, entry.id) != Some(Ok(Some(entry.rec)))
        {
            return false;
        }
        after = Some(entry.id);
    }
    next_after(file, store, after) == Some(Ok(None))
}

/// The bytes of an empty file of a kind in a format, without grace periods of its own.
fn empty_file(format: Format, kind: Kind) -> &'static [u8] {
    match (format, kind) {
        (Format::V1 | Format::V1R32, _) => b"",
        (Format::V2R0, Kind::User) => {
            b"\x11\x1f\xc0\xd9\0\0\0\0\0\0\0\0\0\0\0\0\0\0\0\0\x02\0\0\0\0\0\0\0\0\0\0\0"
        }
        (Format::V2R0, Kind::Group) => {
            b"\x27\x19\xc0\xd9\0\0\0\0\0\0\0\0\0\0\0\0\0\0\0\0\x02\0\0\0\0\0\0\0\0\0\0\0"
        }
        (Format::V2R1, Kind::User) => {
            b"\x11\x1f\xc0\xd9\x01\0\0\0\0\0\0\0\0\0\0\0\0\0\0\0\x02\0\0\0\0\0\0\0\0\0\0\0"
        }
        (Format::V2R1, Kind::Group) => {
            b"\x27\x19\xc0\xd9\x01\0\0\0\0\0\0\0\0\0\0\0\0\0\0\0\x02\0\0\0\0\0\0\0\0\0\0\0"
        }
        (Format::V2R0, Kind::Project) => {
            b"\x14\x3f\xc0\xd9\0\0\0\0\0\0\0\0\0\0\0\0\0\0\0\0\x02\0\0\0\0\0\0\0\0\0\0\0"
        }
        (Format::V2R1, Kind::Project) => {
            b"\x14\x3f\xc0\xd9\x01\0\0\0\0\0\0\0\0\0\0\0\0\0\0\0\x02\0\0\0\0\0\0\0\0\0\0\0"
        }
    }
}

/// The file `q` of a store, opened in its format, or None where it is refused.
pub fn opened(alloc: Global, store: &mut MemStore, format: Format, kind: Kind) -> Option<AnyFile> {
    open_file(alloc, store, "q", kind, Some(format)).ok()
}

/// A store with a file of these grace periods and entries, or None where a file of the format can't have them.
pub fn listed(
    alloc: Global,
    kind: Kind,
    format: Format,
    grace: Grace,
    list: &[Entry],
) -> Option<MemStore> {
    let mut store = store_of(alloc, empty_file(format, kind), &[]).ok()?;
    let mut opened = opened(alloc, &mut store, format, kind)?;
    if make(&mut opened, &mut store, &Act::SetGrace(grace)) != Some(Ok(())) {
        return None;
    }
    for entry in list {
        let put = make(&mut opened, &mut store, &Act::Put(entry.id, entry.rec));
        if put != Some(Ok(())) {
            return None;
        }
    }
    store_of(alloc, store.file("q")?, &[]).ok()
}
