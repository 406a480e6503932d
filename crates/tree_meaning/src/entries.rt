ghost use Rattle.std.specs.Prelude.{◌≡◌, ℕ, ◌+◌, ◌<◌, ◌≤◌, ◌++◌, ◌||◌, length, false, None, Some, IfNone, IfOk, IfSome};
ghost use Rattle.std.specs.Prelude.{IsSome, OnOk, IfErr, MatchOption};
ghost use Rattle.std.specs.Option.{option_map};
ghost use Rattle.std.specs.Bool.{OnFalse, OnTrue};
ghost use Rattle.arrayvec.specs.ArrayVec.{array_vec_len};
ghost use Rattle.entry_codec.specs.Entry.{entries_per_block, is_unused};
ghost use Rattle.quota_types.specs.Format.{IsTreeFormat, record_size};
ghost use Rattle.quota_types.specs.Kept.{IsKept};
ghost use Rattle.tree_meaning.specs.Compared.{AreEntriesOf, IsEntryDefectAt};
ghost use Rattle.quota_types.specs.Times.{StandsIn, StandsTwiceIn, times};
ghost use Rattle.quota_types.specs.Damage.{NamesItsId};
ghost use Rattle.tree_meaning.specs.Entries.{entry_bytes, has_unused, id_in, used_ids};
ghost use Rattle.tree_meaning.specs.EntryRecords.{IsRecordIn, record_by};
ghost use Rattle.tree_meaning.specs.TreeFile.{record_in};

use arrayvec::ArrayVec;
use byte_order::Order;
use entry_codec::{entries_per_block, read_entry, read_id};
use file_blocks::le32;
use quota_types::{Damage, DamageKind, Format, Rec, damage_at};

/// What the entries of a data block are used for.
#[derive(Drop)]
struct UsedEntries {
    /// The identifiers of those that are used, in order.
    ids: ArrayVec<u32, 21>,
    /// Whether some entry is unused.
    has_unused: bool,
}

impl UsedEntries {
    /// Counts an entry, by its bytes.
    fn add(&mut self, format: Format, bytes: &[u8])
        requires tree { IsTreeFormat format }
        requires size { length bytes.now ≡ record_size format }
        requires room { array_vec_len self.old.ids < 21 }
        ensures ids { self.new.ids.items ≡ self.old.ids.items ++ id_in format bytes.now }
        ensures unused { self.new.has_unused ≡ (self.old.has_unused || is_unused bytes.now) }
        ensures len { array_vec_len self.new.ids ≤ array_vec_len self.old.ids + 1 }
    {
        match read_id(bytes) {
            Some(id) => self.ids.push(id),
            None => self.has_unused = true,
        }
    }
}

/// The bytes of an entry, by its place among the entries.
pub(crate) fn entry_bytes(format: Format, block: &[u8; 1024], place: usize) -> &[u8]
    requires tree { IsTreeFormat format }
    requires place { place < entries_per_block format }
    ensures value { result.now ≡ entry_bytes format block.now place }
    ensures size { length result.now ≡ record_size format }
{
    let size = format.record_size();
    let start = 16 + size * place;
    &block[start..start + size]
}

/// What the entries of a block are used for.
fn read_used(format: Format, block: &[u8; 1024]) -> UsedEntries
    requires tree { IsTreeFormat format }
    ensures ids { result.ids.items ≡ used_ids format block.now }
    ensures unused { result.has_unused ≡ has_unused format block.now }
{
    let mut used = UsedEntries {
        ids: ArrayVec::new(),
        has_unused: false,
    };
    for place in 0..entries_per_block(format) {
        used.add(format, entry_bytes(format, block, place));
    }
    used
}

/// Whether the entry of a block at a place among the entries has this identifier. An unused one has 0.
fn has_id(format: Format, block: &[u8; 1024], place: usize, id: u32) -> bool
    requires tree { IsTreeFormat format }
    requires place { place < entries_per_block format }
    ensures other { OnFalse result (record_by format block.now id place ≡ None) }
{
    le32(block, 16 + format.record_size() * place) == id
}

/// The record of the entry of a block at a place among the entries, where it is used by this identifier.
#[inline(always)]
fn record_by(format: Format, block: &[u8; 1024], place: usize, id: u32) -> Option<Rec>
    requires tree { IsTreeFormat format }
    requires place { place < entries_per_block format }
    ensures value { result ≡ record_by format block.now id place }
    ensures kept { IfSome result (IsKept format id) }
{
    let bytes = entry_bytes(format, block, place);
    if le32(block, 16 + format.record_size() * place) != id {
        return None;
    }
    let (_, rec) = read_entry(format, bytes, Order::Little)?;
    Some(rec)
}

/// The first entry of a block that is used by an identifier: its place among the entries, and its record.
fn first_used(format: Format, block: &[u8; 1024], id: u32) -> Option<(usize, Rec)>
    requires tree { IsTreeFormat format }
    ensures value { option_map (λ found. found.1) result ≡ record_in format block.now id }
    ensures there { IfSome result (λ found. (found.0 < entries_per_block format)
        × (record_by format block.now id found.0 ≡ Some found.1)) }
    ensures kept { IfSome result (λ found. IsKept format id found.1) }
{
    for place in 0..entries_per_block(format) {
        if !has_id(format, block, place, id) {
            continue;
        }
        if let Some(rec) = record_by(format, block, place, id) {
            return Some((place, rec));
        }
    }
    None
}

/// The record of the first entry of a block that is used by an identifier.
pub fn find_record(format: Format, block: &[u8; 1024], id: u32) -> Option<Rec>
    requires tree { IsTreeFormat format }
    ensures value { result ≡ record_in format block.now id }
    ensures kept { IfSome result (IsKept format id) }
{
    let (_place, rec) = first_used(format, block, id)?;
    Some(rec)
}

/// The place among the entries of a block of the first one that is used by an identifier, or none where it uses none.
pub fn find_place(format: Format, block: &[u8; 1024], id: u32) -> Option<usize>
    requires tree { IsTreeFormat format }
    ensures low { IfSome result (λ place. place < entries_per_block format) }
    ensures used { IfSome result (λ place. IsSome (record_by format block.now id place)) }
    ensures none { IfNone result (record_in format block.now id ≡ None) }
{
    let (place, _rec) = first_used(format, block, id)?;
    Some(place)
}

/// The record of an entry of a block that is used by an identifier: of that at the place `near`, where that is one, and
/// otherwise of the first one. Then the place behind it is near, so that entries that follow one another are found at
/// once.
#[inline(always)]
pub fn find_near(format: Format, block: &[u8; 1024], id: u32, near: &mut usize) -> Option<Rec>
    requires tree { IsTreeFormat format }
    ensures there { IfSome result (IsRecordIn format block.now id) }
    ensures none { IfNone result (record_in format block.now id ≡ None) }
    ensures kept { IfSome result (IsKept format id) }
{
    if *near < entries_per_block(format) {
        if let Some(rec) = record_by(format, block, *near, id) {
            *near += 1;
            return Some(rec);
        }
    }
    find_from_first(format, block, id, near)
}

/// The same, of the first one. It stands apart, so that what is near is found without it.
#[inline(never)]
fn find_from_first(format: Format, block: &[u8; 1024], id: u32, near: &mut usize) -> Option<Rec>
    requires tree { IsTreeFormat format }
    ensures there { IfSome result (IsRecordIn format block.now id) }
    ensures none { IfNone result (record_in format block.now id ≡ None) }
    ensures kept { IfSome result (IsKept format id) }
{
    let (place, rec) = first_used(format, block, id)?;
    *near = place + 1;
    Some(rec)
}

/// The first of some numbers that is none of others.
fn first_not_in(numbers: &[u32], others: &[u32]) -> Option<u32>
    ensures { MatchOption result ((number : ℕ) → StandsIn numbers.now number → StandsIn others.now number)
        (λ number. StandsIn numbers.now number × (times others.now number ≡ 0)) }
{
    for number in numbers {
        if !others.contains(number) {
            return Some(*number);
        }
    }
    None
}

/// The first of some numbers that stands among them twice.
fn first_double(numbers: &[u32]) -> Option<u32>
    ensures { MatchOption result ((number : ℕ) → times numbers.now number ≤ 1)
        (λ number. StandsTwiceIn numbers.now number) }
{
    for number in numbers {
        if count(numbers, *number) > 1 {
            return Some(*number);
        }
    }
    None
}

/// How often a number stands among others.
fn count(numbers: &[u32], number: u32) -> usize
    ensures { result ≡ times numbers.now number }
{
    numbers.iter().filter(|other| **other == number).count()
}

/// Whether each of some numbers is greater than the one before it.
fn ascends(numbers: &[u32]) -> bool
    ensures { OnTrue result ((number : ℕ) → times numbers.now number ≤ 1) }
{
    let mut least = 0;
    for number in numbers {
        if u64::from(*number) < least {
            return false;
        }
        least = u64::from(*number) + 1;
    }
    true
}

/// Whether all entries of a block are used by these identifiers, in this order. No list of them is made. `false` says
/// nothing.
fn is_full_of(format: Format, block: &[u8; 1024], ids: &[u32]) -> bool
    requires tree { IsTreeFormat format }
    ensures ids { OnTrue result (used_ids format block.now ≡ ids.now) }
    ensures full { OnTrue result (has_unused format block.now ≡ false) }
{
    if ids.len() != entries_per_block(format) {
        return false;
    }
    for (place, id) in ids.iter().enumerate() {
        match read_id(entry_bytes(format, block, place)) {
            Some(used_by) if used_by == *id => {}
            _ => return false,
        }
    }
    true
}

/// Compares the entries of a data block with the identifiers that lead to it, and answers whether one is unused. The
/// block is that of its words in the order in which the file is read, in which it states this number of entries.
///
/// In a file that was built at once each data block but the last is full, and ascends by identifier. For such a block
/// no list of its entries is made.
pub fn compare_entries(
    format: Format,
    number: u32,
    stated: u16,
    block: &[u8; 1024],
    ids: &[u32],
) -> Result<bool, Damage>
    requires tree { IsTreeFormat format }
    ensures entries { OnOk result (AreEntriesOf stated (used_ids format block.now) ids.now) }
    ensures room { IfOk result (λ has_room. has_room ≡ has_unused format block.now) }
    ensures refused { IfErr result (IsEntryDefectAt number stated (used_ids format block.now) ids.now) }
    ensures names_id { IfErr result (λ damage. NamesItsId damage.kind damage.id) }
{
    let stated = usize::from(stated);
    if stated == ids.len() && ascends(ids) && is_full_of(format, block, ids) {
        return Ok(false);
    }
    let used = read_used(format, block);
    if stated != used.ids.len() {
        return Err(damage_at(DamageKind::BadCount, number));
    }
    compare_ids(number, used.ids.as_slice(), ids)?;
    Ok(used.has_unused)
}

/// Compares the identifiers of a data block's used entries with those that lead to it.
///
/// An identifier without an entry is looked for first: where more of them lead to the block than it has entries, one of
/// the first `used.len() + 1` has none, and the searches that follow never run. None runs where both are the same and
/// ascend.
fn compare_ids(number: u32, used: &[u32], ids: &[u32]) -> Result<(), Damage>
    ensures same { OnOk result (AreEntriesOf (length used.now) used.now ids.now) }
    ensures refused { IfErr result (λ damage. (stated : ℕ) → IsEntryDefectAt number stated used.now ids.now damage) }
    ensures names_id { IfErr result (λ damage. NamesItsId damage.kind damage.id) }
{
    if used == ids && ascends(used) {
        return Ok(());
    }
    if let Some(id) = first_not_in(ids, used) {
        return Err(Damage {
            kind: DamageKind::MissingEntry,
            block: number,
            id,
        });
    }
    if let Some(id) = first_not_in(used, ids) {
        return Err(Damage {
            kind: DamageKind::StrayEntry,
            block: number,
            id,
        });
    }
    if let Some(id) = first_double(used) {
        return Err(Damage {
            kind: DamageKind::DoubleEntry,
            block: number,
            id,
        });
    }
    Ok(())
}
