ghost use Rattle.std.specs.Prelude.{◌≡◌, ◌⊎◌, ◌+◌, ◌-◌, ◌^◌, ◌<◌, ◌≤◌, ℕ, List, Ok, Err, Some, length, true, min};
ghost use Rattle.std.specs.Prelude.{IfErr, IfOk, IfSome, IsTrue, OnErr, OnOk, is_ok, []};
ghost use Rattle.opened_file.specs.Committed.{CommitsOnce};
ghost use Rattle.file_blocks.specs.Block.{file_of};
ghost use Rattle.outside.specs.Count.{Rose, counted};
ghost use Rattle.outside.specs.Frame.{ChangesOne, OnlyReads};
ghost use Rattle.outside.specs.ManyCalls.{IsSynced};
ghost use Rattle.outside.specs.World.{with_bytes};
ghost use Rattle.quota_types.specs.Format.{is_flat};
ghost use Rattle.quota_types.specs.Kept.{IsKept};
ghost use Rattle.quota_types.specs.Range.{grace_unfit};
ghost use Rattle.quota_v1.specs.Change.{FlatGraced};
ghost use Rattle.quota_v1.specs.FlatCalls.{MayRefuse};
ghost use Rattle.quota_v1.specs.FlatFile.{flat_record};
ghost use Rattle.quota_v1.specs.Slot.{AreFrom, ChangesFile, IsRecordFault, PutsRecord, MakesOne};
ghost use Rattle.quota_v1.specs.Place.{flat_limit, past_time};
ghost use Rattle.quota_v1.specs.View.{IsFlatDefect};

use crate::flat_change::write_times;
use crate::flat_record::{MOST_RECORD, record_start};
use crate::slot::{record_at, record_bytes};
use opened_file::FileFault;
use outside::{Store, StoreFault};
use quota_types::{Damage, DamageKind, Format, Grace, Rec};

/// Reads the bytes of a file from a place on, as many as `buf` holds, and answers how many there were. Past the end of
/// the file there are zeros. After a fault `buf` may hold anything.
pub(crate) fn read_from<S: Store>(
    store: &mut S,
    name: &str,
    at: u64,
    buf: &mut [u8],
) -> Result<usize, StoreFault>
    requires { length buf.old ≤ 1024 }
    ensures shown { OnOk result (IsTrue S.tells
        → AreFrom (file_of (S.seen store.old).files name.now) at buf.new) }
    ensures count { IfOk result (λ count. IsTrue S.tells
        → count ≡ min (length buf.old) (length (file_of (S.seen store.old).files name.now) - at)) }
    ensures few { IfOk result (λ count. count ≤ length buf.old) }
    ensures cause { OnErr result (Rose (S.seen store.old).faults (S.seen store.new).faults) }
    ensures leaves { OnlyReads (is_ok result) name.now (S.seen store.old) (S.seen store.new) }
    ensures reads { (S.seen store.new).reads ≡ counted (S.seen store.old).reads }
    ensures commits { S.commits [] store.old store.new }
{
    let count = store.read(name, at, buf)?;
    buf[count..].fill(0);
    Ok(count)
}

/// The record of an identifier, read where it stands in a file that had `len` bytes. None is read where it stands
/// behind them.
///
/// # Errors
///
/// The store failed, or the file ends within the record.
pub(crate) fn read_record<S: Store>(
    store: &mut S,
    name: &str,
    format: Format,
    len: u64,
    id: u32,
) -> Result<Option<Rec>, FileFault>
    requires flat { is_flat format ≡ true }
    requires limited { len ≤ flat_limit format }
    ensures found { IfOk result (λ found. IsTrue S.tells → (file : List ℕ)
        → (S.seen store.old).files name.now ≡ Some file → length file ≡ len → found ≡ flat_record format file id) }
    ensures kept { IfOk result (λ found. IfSome found (IsKept format id)) }
    ensures refused { IfErr result (IsRecordFault (S.seen store.old).faults (S.seen store.new).faults
        (λ damage. IsTrue S.tells → IsFlatDefect format (file_of (S.seen store.old).files name.now) damage)) }
    ensures may { IfErr result MayRefuse }
    ensures leaves { OnlyReads (is_ok result) name.now (S.seen store.old) (S.seen store.new) }
    ensures reads { (S.seen store.new).reads ≤ (S.seen store.old).reads + 1 }
    ensures commits { S.commits [] store.old store.new }
{
    let size = format.record_size();
    let at = record_start(format, id as usize) as u64;
    if len < at + size as u64 {
        return Ok(None);
    }
    let mut bytes = [0; MOST_RECORD];
    let Ok(count) = read_from(store, name, at, &mut bytes) else {
        return Err(FileFault::Store);
    };
    if count == 0 {
        return Ok(None);
    }
    if count < size {
        return Err(FileFault::Damage(Damage {
            kind: DamageKind::PartialRecord,
            block: id,
            id: 0,
        }));
    }
    Ok(record_at(format, &bytes, 0, id))
}

/// Writes bytes into a file at a place, and syncs it.
///
/// # Errors
///
/// The store failed. The file is as before, or has the bytes.
fn write_synced<S: Store>(
    store: &mut S,
    name: &str,
    at: u64,
    bytes: &[u8],
) -> Result<(), StoreFault>
    requires some { 1 ≤ length bytes.now }
    requires few { length bytes.now ≤ 1024 }
    requires place { at ≤ 2 ^ 42 }
    ensures written { OnOk result (IsTrue S.tells
        → (S.seen store.new).files ≡ with_bytes (S.seen store.old).files name.now at bytes.now) }
    ensures synced { OnOk result (IsTrue S.tells → IsSynced name.now (S.seen store.old) (S.seen store.new)) }
    ensures torn { OnErr result (IsTrue S.tells → ((S.seen store.new).files ≡ (S.seen store.old).files)
        ⊎ ((S.seen store.new).files ≡ with_bytes (S.seen store.old).files name.now at bytes.now)) }
    ensures cause { OnErr result (Rose (S.seen store.old).faults (S.seen store.new).faults) }
    ensures leaves { ChangesOne name.now (S.seen store.old) (S.seen store.new) }
    ensures writes { (S.seen store.new).writes ≤ (S.seen store.old).writes + 1 }
    ensures rose { Rose (S.seen store.old).writes (S.seen store.new).writes }
    ensures commits { CommitsOnce (λ worlds. S.commits worlds store.old store.new) (IsTrue S.tells
        → (S.seen store.new).files ≡ with_bytes (S.seen store.old).files name.now at bytes.now)
        (S.seen store.new).files }
{
    store.write(name, at, bytes)?;
    store.sync(name)
}

/// Writes the record of an identifier where it stands, and syncs the file. In the place of the timers of identifier 0
/// these times are written, which are the file's grace periods.
///
/// # Errors
///
/// The store failed. The file is as before, or has the record.
pub(crate) fn write_record<S: Store>(
    store: &mut S,
    name: &str,
    format: Format,
    id: u32,
    rec: &Rec,
    times: Grace,
) -> Result<(), StoreFault>
    requires flat { is_flat format ≡ true }
    requires kept { IsKept format id rec.now }
    requires block { times.block < past_time format }
    requires inode { times.inode < past_time format }
    ensures changes { ChangesFile S.tells (PutsRecord format id rec.now times) name.now
        (S.seen store.old) (S.seen store.new) result }
    ensures reads { (S.seen store.new).reads ≡ (S.seen store.old).reads }
    ensures commits { CommitsOnce (λ worlds. S.commits worlds store.old store.new) (IsTrue S.tells
        → MakesOne (PutsRecord format id rec.now times) name.now (S.seen store.old).files (S.seen store.new).files)
        (S.seen store.new).files }
{
    let times = times_in(id, rec, times);
    let bytes = record_bytes(format, rec, times);
    let at = record_start(format, id as usize) as u64;
    write_synced(store, name, at, &bytes[..format.record_size()])
}

/// The two times that are written in a record: those of record 0 are the file's grace periods.
fn times_in(id: u32, rec: &Rec, times: Grace) -> Grace
    ensures first { id ≡ 0 → result ≡ times }
    ensures other { ¬ (id ≡ 0) → (result.block ≡ rec.now.btime) × (result.inode ≡ rec.now.itime) }
{
    if id == 0 {
        times
    } else {
        Grace {
            block: rec.btime,
            inode: rec.itime,
        }
    }
}

/// Sets the grace periods of a file, which are the times of record 0: that is read, and written with them, and the file
/// is synced. Where it has no record 0 it gets one.
///
/// # Errors
///
/// The store failed. The file is as before, or has the periods.
pub(crate) fn write_grace<S: Store>(
    store: &mut S,
    name: &str,
    format: Format,
    grace: Grace,
) -> Result<(), StoreFault>
    requires flat { is_flat format ≡ true }
    requires fits { grace_unfit format grace ≡ None }
    ensures changes { ChangesFile S.tells (FlatGraced format grace) name.now (S.seen store.old)
        (S.seen store.new) result }
    ensures commits { CommitsOnce (λ worlds. S.commits worlds store.old store.new) (IsTrue S.tells
        → MakesOne (FlatGraced format grace) name.now (S.seen store.old).files (S.seen store.new).files)
        (S.seen store.new).files }
{
    let mut bytes = [0; MOST_RECORD];
    read_from(store, name, 0, &mut bytes)?;
    write_times(format, &mut bytes, 0, grace.block, grace.inode);
    write_synced(store, name, 0, &bytes[..format.record_size()])
}
