//! What is read of a file over which kept ranges are laid.

ghost use Rattle.std.specs.Prelude.{◌≡◌, ◌<◌, ◌≤◌, ◌+◌, ◌-◌, ◌^◌, List, ℕ, length, min, option_map, slice_index, take};
ghost use Rattle.std.specs.Prelude.{unwrap_or, IfOk, IsTrue};
ghost use Rattle.edit_journal.specs.Keeps.{OnlyLooks};
ghost use Rattle.edit_journal.specs.ByteRanges.{laid, range_of, ranges_of, with_laid};
ghost use Rattle.journal_store.specs.Overlap.{overlaps, overlaps_any};
ghost use Rattle.outside.specs.World.{bytes_from};
ghost use Rattle.quota_types.specs.Bytes.{byte_at};

use disk::{Disk, DiskFault};
use edit_journal::{KeptRange, read_padded};

/// The place behind a range.
fn end_of(range: &KeptRange) -> u64
    ensures { result ≡ range.now.at + length range.now.bytes.items }
{
    range.at() + range.bytes().len() as u64
}

/// The length of a file that has `old_length` bytes once ranges were laid over it.
pub(crate) fn laid_length(ranges: &[KeptRange], old_length: u64) -> u64
    ensures { (file : List ℕ) → length file ≡ old_length → result ≡ length (laid (ranges_of ranges.now) file) }
{
    let mut longest = old_length;
    for range in ranges {
        longest = longest.max(end_of(range));
    }
    longest
}

/// The byte that a range has at place `at + place` of a file, if it has one there.
fn byte_of(range: &KeptRange, at: u64, place: u64) -> Option<u8>
    requires { place < 1024 }
    ensures { (file : List ℕ) → unwrap_or result (byte_at file (at + place))
        ≡ byte_at (with_laid file range.now.at range.now.bytes.items) (at + place) }
{
    let start = range.at();
    let bytes = range.bytes();
    if at > start + 1024 || at + place < start {
        return None;
    }
    let index = (at + place - start) as usize;
    if index >= bytes.len() {
        return None;
    }
    Some(bytes[index])
}

/// Lays a range over bytes of a file that stand in a buffer, which are those from place `at` on.
fn lay_one(range: &KeptRange, at: u64, buf: &mut [u8])
    requires { length buf.old ≤ 1024 }
    ensures { (file : List ℕ) → ((j : ℕ) → j < length buf.old → slice_index buf.old j ≡ byte_at file (at + j))
        → (j : ℕ) → j < length buf.old
        → slice_index buf.new j ≡ byte_at (with_laid file range.now.at range.now.bytes.items) (at + j) }
{
    for place in 0..buf.len() {
        buf[place] = byte_of(range, at, place as u64).unwrap_or(buf[place]);
    }
}

/// Lays ranges over bytes of a file that stand in a buffer, which are those from place `at` on.
pub(crate) fn lay_over(ranges: &[KeptRange], at: u64, buf: &mut [u8])
    requires { length buf.old ≤ 1024 }
    ensures { (file : List ℕ) → ((j : ℕ) → j < length buf.old → slice_index buf.old j ≡ byte_at file (at + j))
        → (j : ℕ) → j < length buf.old → slice_index buf.new j ≡ byte_at (laid (ranges_of ranges.now) file) (at + j) }
{
    for range in ranges {
        lay_one(range, at, buf);
    }
}

/// How many bytes a file of this length has from a place on, up to `most`.
pub(crate) fn count_from(file_length: u64, at: u64, most: usize) -> usize
    ensures { result ≡ min most (file_length - at) }
{
    let left = file_length.saturating_sub(at);
    left.min(most as u64) as usize
}

/// Whether a range has a byte in common with one of `count` bytes at place `at`.
fn overlaps(range: &KeptRange, at: u64, count: u64) -> bool
    requires low { at ≤ 2 ^ 42 }
    requires few { count ≤ 1024 }
    ensures { result ≡ overlaps at count (range_of range.now) }
{
    range.at() < at + count && at < end_of(range)
}

/// Whether one of these ranges has a byte in common with one of `count` bytes at place `at`.
pub(crate) fn overlaps_any(ranges: &[KeptRange], at: u64, count: u64) -> bool
    requires low { at ≤ 2 ^ 42 }
    requires few { count ≤ 1024 }
    ensures { result ≡ overlaps_any at count ranges.now }
{
    ranges.iter().any(|range| overlaps(range, at, count))
}

/// The length of a file over which ranges are laid, or `None` where there is none of this name.
///
/// # Errors
///
/// The disk failed. Nothing changed.
pub(crate) fn laid_size<D: Disk>(
    disk: &mut D,
    name: &str,
    ranges: &[KeptRange],
) -> Result<Option<u64>, DiskFault>
    ensures found { IfOk result (λ found. IsTrue D.tells
        → found ≡ option_map length (option_map (laid (ranges_of ranges.now)) ((D.seen disk.old).files name.now))) }
    ensures looks { OnlyLooks (D.seen disk.old) (D.seen disk.new) result }
{
    let Some(old_length) = disk.size(name)? else {
        return Ok(None);
    };
    Ok(Some(laid_length(ranges, old_length)))
}

/// Reads bytes of a file over which ranges are laid, from a place on, as many as `buf` holds or the file has.
///
/// # Errors
///
/// The disk failed. Nothing changed, but `buf` may hold anything.
pub(crate) fn laid_read<D: Disk>(
    disk: &mut D,
    name: &str,
    ranges: &[KeptRange],
    at: u64,
    buf: &mut [u8],
) -> Result<usize, DiskFault>
    requires { length buf.old ≤ 1024 }
    ensures fits { IfOk result (λ count. count ≤ length buf.new) }
    ensures count { IfOk result (λ count. IsTrue D.tells → count
        ≡ length (bytes_from (option_map (laid (ranges_of ranges.now)) ((D.seen disk.old).files name.now)) at
        (length buf.old))) }
    ensures bytes { IfOk result (λ count. IsTrue D.tells → take count buf.new
        ≡ bytes_from (option_map (laid (ranges_of ranges.now)) ((D.seen disk.old).files name.now)) at
        (length buf.old)) }
    ensures looks { OnlyLooks (D.seen disk.old) (D.seen disk.new) result }
{
    if ranges.is_empty() {
        let count = disk.read(name, at, buf)?;
        return Ok(count);
    }
    let Some(length) = laid_size(disk, name, ranges)? else {
        return Ok(0);
    };
    read_padded(disk, name, at, buf)?;
    lay_over(ranges, at, buf);
    Ok(count_from(length, at, buf.len()))
}
