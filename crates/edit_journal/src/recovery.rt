//! The recovery of a file.

ghost use Rattle.std.specs.Prelude.{◌≡◌, ◌≢◌, ◌<◌, ◌≤◌, ◌^◌, ◌+◌, [], List, ℕ, Some, length, true, IfOk, IsTrue, OnOk};
ghost use Rattle.std.specs.Prelude.{false};
ghost use Rattle.disk.specs.DiskSeen.{IsDurable, OnlyLeaves, Passes};
ghost use Rattle.disk.specs.DiskCalls.{TearsRange};
ghost use Rattle.edit_journal.specs.Keeps.{InPlace, Keeps, OnlyLooks};
ghost use Rattle.edit_journal.specs.Recovery.{BeginsSo, ClosesGate, IsRead, StatesSaved, IsSame, MendsFile};
ghost use Rattle.edit_journal.specs.Recovery.{RecoversInPlace, Restores, is_mended};
ghost use Rattle.edit_journal.specs.Recovered.{bytes_of, RecoversAsBefore, RecoversSame, IsRecovered, KeepsOtherThree};
ghost use Rattle.edit_journal.specs.ByteRanges.{laid, with_laid};
ghost use Rattle.edit_journal.specs.Undo.{bytes_at, recovered, saved_range, saved_ranges, range_fits, ranges_fit};
ghost use Rattle.edit_journal.specs.Undo.{undone};
ghost use Rattle.edit_journal.specs.UndoSaves.{HoldsItsRanges};
ghost use Rattle.quota_types.specs.Bytes.{byte_at, number_at};
ghost use Rattle.outside.specs.World.{KeepsOtherTwo, KeepsOthers};

use crate::make_undo;
use crate::undo_file::{CLOSED, OPEN, set_gate, write_some};
use crate::undo_reads::{
    SpanHead, UndoHead, all_fit, holds_ranges, read_head, read_padded, read_span,
};
use disk::{Disk, DiskFault};

/// Writes bytes of an undo file into its file, as many as a buffer has room for.
fn lay_through<D: Disk>(
    disk: &mut D,
    name: &str,
    undo: &str,
    from: u64,
    at: u64,
    buf: &mut [u8],
) -> Result<(), DiskFault>
    requires few { length buf.old ≤ 1024 }
    requires place { at ≤ 2 ^ 42 }
    ensures laid { OnOk result (IsTrue D.tells → bytes_of (D.seen disk.new) name.now
        ≡ with_laid (bytes_of (D.seen disk.old) name.now) at
        (bytes_at (bytes_of (D.seen disk.old) undo.now) from (length buf.old))) }
    ensures passes { Passes (TearsRange name.now at (length buf.old)) (D.seen disk.old) (D.seen disk.new) }
    ensures keeps { Keeps (KeepsOthers name.now) (D.seen disk.old) (D.seen disk.new) result }
{
    read_padded(disk, undo, from, buf)?;
    write_some(disk, name, at, buf)?;
    Ok(())
}

/// The head of a saved range, or one of no bytes where it cannot be laid back.
fn clamped(span: SpanHead) -> SpanHead
    ensures place { result.at ≤ 2 ^ 42 }
    ensures few { result.saved ≤ 1024 }
    ensures same { span.at ≤ 2 ^ 42 → span.saved ≤ 1024 → result ≡ span }
{
    if span.at <= 1 << 42 && span.saved <= 1024 {
        span
    } else {
        SpanHead { at: 0, saved: 0 }
    }
}

/// Lays a saved range that fits back.
fn lay_span<D: Disk>(disk: &mut D, name: &str, undo: &str, k: u32) -> Result<(), DiskFault>
    requires number { k < 12 }
    ensures laid { OnOk result (IsTrue D.tells → (old_length : ℕ)
        → range_fits old_length (saved_range (bytes_of (D.seen disk.old) undo.now) k) ≡ true
        → bytes_of (D.seen disk.new) name.now ≡ with_laid (bytes_of (D.seen disk.old) name.now)
        (saved_range (bytes_of (D.seen disk.old) undo.now) k).at
        (saved_range (bytes_of (D.seen disk.old) undo.now) k).bytes) }
    ensures passes { IsTrue D.tells → (old_length : ℕ)
        → range_fits old_length (saved_range (bytes_of (D.seen disk.old) undo.now) k) ≡ true
        → Passes (TearsRange name.now (saved_range (bytes_of (D.seen disk.old) undo.now) k).at
        (length (saved_range (bytes_of (D.seen disk.old) undo.now) k).bytes)) (D.seen disk.old) (D.seen disk.new) }
    ensures keeps { Keeps (KeepsOthers name.now) (D.seen disk.old) (D.seen disk.new) result }
{
    let found = read_span(disk, undo, k)?;
    let span = clamped(found);
    let mut room = [0; 1024];
    let from = 1040 + 1040 * u64::from(k);
    lay_through(
        disk,
        name,
        undo,
        from,
        span.at,
        &mut room[..span.saved as usize],
    )?;
    Ok(())
}

/// Lays saved ranges that fit back, one after the other.
fn lay_spans<D: Disk>(disk: &mut D, name: &str, undo: &str, count: u32) -> Result<(), DiskFault>
    requires apart { name.now ≢ undo.now }
    requires most { count ≤ 12 }
    ensures laid { OnOk result (IsTrue D.tells → (old_length : ℕ)
        → ranges_fit old_length (saved_ranges (bytes_of (D.seen disk.old) undo.now) 0 count) ≡ true
        → bytes_of (D.seen disk.new) name.now
        ≡ laid (saved_ranges (bytes_of (D.seen disk.old) undo.now) 0 count) (bytes_of (D.seen disk.old) name.now)) }
    ensures passes { IsTrue D.tells → (old_length : ℕ)
        → ranges_fit old_length (saved_ranges (bytes_of (D.seen disk.old) undo.now) 0 count) ≡ true
        → number_at 4 (bytes_of (D.seen disk.old) undo.now) 16 ≡ count
        → Passes (MendsFile name.now (bytes_of (D.seen disk.old) undo.now)) (D.seen disk.old) (D.seen disk.new) }
    ensures keeps { Keeps (KeepsOthers name.now) (D.seen disk.old) (D.seen disk.new) result }
{
    for k in 0..count {
        lay_span(disk, name, undo, k)?;
    }
    Ok(())
}

/// Lays what a usable undo file saves back into its file, cuts it to the old length, and waits until it is kept.
///
/// # Errors
///
/// The disk failed. A recovery makes of the file what it would have before.
fn mend<D: Disk>(disk: &mut D, name: &str, undo: &str, head: UndoHead) -> Result<(), DiskFault>
    requires apart { name.now ≢ undo.now }
    requires most { head.count ≤ 12 }
    ensures mended { OnOk result (IsTrue D.tells → (file : List ℕ)
        → StatesSaved head.old_length head.count (bytes_of (D.seen disk.old) undo.now)
        → (D.seen disk.old).files name.now ≡ Some file
        → (D.seen disk.new).files name.now ≡ Some (undone file (bytes_of (D.seen disk.old) undo.now))) }
    ensures kept { OnOk result (IsTrue D.tells → IsDurable name.now (D.seen disk.new)) }
    ensures passes { IsTrue D.tells → StatesSaved head.old_length head.count (bytes_of (D.seen disk.old) undo.now)
        → Passes (MendsFile name.now (bytes_of (D.seen disk.old) undo.now)) (D.seen disk.old) (D.seen disk.new) }
    ensures synced { OnOk result (IsTrue D.tells → (D.seen disk.new).unsynced name.now ≡ false) }
    ensures keeps { Keeps (KeepsOthers name.now) (D.seen disk.old) (D.seen disk.new) result }
{
    lay_spans(disk, name, undo, head.count)?;
    disk.cut(name, head.old_length)?;
    disk.sync(name)?;
    Ok(())
}

/// Waits until a file and its undo file are kept.
fn keep_both<D: Disk>(disk: &mut D, name: &str, undo: &str) -> Result<(), DiskFault>
    ensures file { OnOk result (IsTrue D.tells → IsDurable name.now (D.seen disk.new)) }
    ensures saved { OnOk result (IsTrue D.tells → IsDurable undo.now (D.seen disk.new)) }
    ensures synced { OnOk result (IsTrue D.tells → (D.seen disk.new).unsynced name.now ≡ false) }
    ensures keeps { Keeps (KeepsOtherTwo name.now undo.now) (D.seen disk.old) (D.seen disk.new) result }
    ensures looks { Passes IsSame (D.seen disk.old) (D.seen disk.new) }
{
    disk.sync(name)?;
    disk.sync(undo)?;
    Ok(())
}

/// Whether an undo file with this head says how its file was.
fn can_mend<D: Disk>(
    disk: &mut D,
    name: &str,
    undo: &str,
    head: UndoHead,
) -> Result<bool, DiskFault>
    ensures most { IfOk result (λ can. IsTrue can → head.count ≤ 12) }
    ensures usable { IfOk result (λ can. IsTrue D.tells
        → BeginsSo head.gate head.old_length head.count (bytes_of (D.seen disk.old) undo.now)
        → can ≡ is_mended ((D.seen disk.old).files name.now) ((D.seen disk.old).files undo.now)) }
    ensures looks { OnlyLooks (D.seen disk.old) (D.seen disk.new) result }
{
    if head.gate != OPEN || head.count > 12 {
        return Ok(false);
    }
    let Some(length) = disk.size(name)? else {
        return Ok(false);
    };
    if length < head.old_length {
        return Ok(false);
    }
    all_fit(disk, undo, head.old_length, head.count)
}

/// Mends a file where its undo file says how it was.
///
/// # Errors
///
/// The disk failed. A recovery makes of the file what it would have before.
fn restore<D: Disk>(disk: &mut D, name: &str, undo: &str, head: UndoHead) -> Result<(), DiskFault>
    requires apart { name.now ≢ undo.now }
    ensures restored { OnOk result (IsTrue D.tells
        → BeginsSo head.gate head.old_length head.count (bytes_of (D.seen disk.old) undo.now)
        → (D.seen disk.new).files name.now
        ≡ recovered ((D.seen disk.old).files name.now) ((D.seen disk.old).files undo.now)) }
    ensures kept { OnOk result
        (IsTrue D.tells → IsDurable name.now (D.seen disk.old) → IsDurable name.now (D.seen disk.new)) }
    ensures passes { IsTrue D.tells → IsRead name.now undo.now head.gate head.old_length head.count (D.seen disk.old)
        → Passes (Restores name.now undo.now) (D.seen disk.old) (D.seen disk.new) }
    ensures synced { OnOk result
        (IsTrue D.tells → (D.seen disk.old).unsynced name.now ≡ false → (D.seen disk.new).unsynced name.now ≡ false) }
    ensures keeps { Keeps (KeepsOthers name.now) (D.seen disk.old) (D.seen disk.new) result }
{
    let usable = can_mend(disk, name, undo, head)?;
    if !usable {
        return Ok(());
    }
    mend(disk, name, undo, head)?;
    Ok(())
}

/// Closes the gate of an undo file that names this many ranges: in place where it holds them, so that this needs no
/// room and no new file, and else by a new undo file. A write may leave any bytes past the old end of a file, which
/// must not be taken for a saved range.
///
/// # Errors
///
/// The disk failed. A stop may leave any byte as the gate where the undo file holds its ranges, and else the undo file
/// as it was, or the new one.
fn close_gate<D: Disk>(disk: &mut D, undo: &str, und: &str, count: u32) -> Result<(), DiskFault>
    requires apart { und.now ≢ undo.now }
    ensures closed { OnOk result (IsTrue D.tells → byte_at (bytes_of (D.seen disk.new) undo.now) 0 ≢ 1) }
    ensures kept { OnOk result (IsTrue D.tells → IsDurable undo.now (D.seen disk.new)) }
    ensures passes { IsTrue D.tells → count ≡ number_at 4 (bytes_of (D.seen disk.old) undo.now) 16
        → IsDurable undo.now (D.seen disk.old)
        → Passes (ClosesGate und.now undo.now) (D.seen disk.old) (D.seen disk.new) }
    ensures in_place { IsTrue D.tells → count ≡ number_at 4 (bytes_of (D.seen disk.old) undo.now) 16
        → HoldsItsRanges (bytes_of (D.seen disk.old) undo.now)
        → InPlace (TearsRange undo.now 0 1) (KeepsOthers undo.now) undo.now (D.seen disk.old) (D.seen disk.new) result }
    ensures keeps { Keeps (KeepsOtherTwo und.now undo.now) (D.seen disk.old) (D.seen disk.new) result }
{
    if holds_ranges(disk, undo, count)? {
        set_gate(disk, undo, CLOSED)?;
        return Ok(());
    }
    make_undo(disk, undo, und)?;
    Ok(())
}

/// Recovers a file that is kept, as its undo file is, whose gate is open: mends it, and closes the gate.
///
/// # Errors
///
/// The disk failed. A recovery makes of the file what it would have before.
fn recover_kept<D: Disk>(
    disk: &mut D,
    name: &str,
    undo: &str,
    und: &str,
    head: UndoHead,
) -> Result<(), DiskFault>
    requires apart { name.now ≢ undo.now }
    requires unmade { name.now ≢ und.now }
    requires first { und.now ≢ undo.now }
    requires open { head.gate ≡ 1 }
    ensures done { OnOk result
        (IsTrue D.tells → IsRead name.now undo.now head.gate head.old_length head.count (D.seen disk.old)
        → IsRecovered name.now undo.now
        (recovered ((D.seen disk.old).files name.now) ((D.seen disk.old).files undo.now)) (D.seen disk.new)) }
    ensures passes { IsTrue D.tells → IsRead name.now undo.now head.gate head.old_length head.count (D.seen disk.old)
        → Passes (RecoversSame name.now undo.now und.now) (D.seen disk.old) (D.seen disk.new) }
    ensures in_place { IsTrue D.tells → IsRead name.now undo.now head.gate head.old_length head.count (D.seen disk.old)
        → HoldsItsRanges (bytes_of (D.seen disk.old) undo.now)
        → InPlace (RecoversInPlace name.now undo.now) (KeepsOtherTwo name.now undo.now) undo.now (D.seen disk.old)
        (D.seen disk.new) result }
    ensures synced { OnOk result
        (IsTrue D.tells → (D.seen disk.old).unsynced name.now ≡ false → (D.seen disk.new).unsynced name.now ≡ false) }
    ensures keeps { Keeps (KeepsOtherThree name.now undo.now und.now) (D.seen disk.old) (D.seen disk.new) result }
{
    restore(disk, name, undo, head)?;
    close_gate(disk, undo, und, head.count)?;
    Ok(())
}

/// Recovers a file: it is, in whatever a stop may leave then, what its undo file says that it was, or as it was where
/// the undo file says nothing, and the gate of its undo file is closed. A stop at any moment leaves files of which a
/// recovery makes the same. All other files but the undo file, under both its names, stay.
///
/// Where the undo file holds its ranges its first byte alone changes, so that this needs no room and makes no file.
/// Else an open gate is closed by a new undo file.
///
/// # Errors
///
/// The disk failed. A recovery makes of the file what it would have before.
pub fn recover_file<D: Disk>(
    disk: &mut D,
    name: &str,
    undo: &str,
    und: &str,
) -> Result<(), DiskFault>
    requires apart { name.now ≢ undo.now }
    requires unmade { name.now ≢ und.now }
    requires first { und.now ≢ undo.now }
    ensures done { OnOk result (IsTrue D.tells → IsRecovered name.now undo.now
        (recovered ((D.seen disk.old).files name.now) ((D.seen disk.old).files undo.now)) (D.seen disk.new)) }
    ensures leaves { IsTrue D.tells
        → OnlyLeaves (RecoversAsBefore name.now undo.now (D.seen disk.old)) (D.seen disk.old) (D.seen disk.new) }
    ensures passes { IsTrue D.tells
        → Passes (RecoversSame name.now undo.now und.now) (D.seen disk.old) (D.seen disk.new) }
    ensures in_place { IsTrue D.tells → HoldsItsRanges (bytes_of (D.seen disk.old) undo.now)
        → InPlace (RecoversInPlace name.now undo.now) (KeepsOtherTwo name.now undo.now) undo.now (D.seen disk.old)
        (D.seen disk.new) result }
    ensures synced { OnOk result (IsTrue D.tells → (D.seen disk.new).unsynced name.now ≡ false) }
    ensures keeps { Keeps (KeepsOtherThree name.now undo.now und.now) (D.seen disk.old) (D.seen disk.new) result }
{
    keep_both(disk, name, undo)?;
    let head = read_head(disk, undo)?;
    if head.gate != OPEN {
        return Ok(());
    }
    recover_kept(disk, name, undo, und, head)?;
    Ok(())
}
