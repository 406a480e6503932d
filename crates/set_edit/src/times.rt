ghost use Rattle.std.specs.Prelude.{◌≡◌, Option, None, Some, true, IsTrue, IfOk, IfErr, IfSome, OnOk, if◌then◌else◌};
ghost use Rattle.std.specs.FinMap.{get};
ghost use Rattle.quota_types.specs.Kept.{IsKept, kept_of};
ghost use Rattle.quota_types.specs.Range.{unfit};
ghost use Rattle.quota_types.specs.declared.record.Rec.{Rec};
ghost use Rattle.outside.specs.Frame.{OnlyReads};
ghost use Rattle.quota_value.specs.QuotaValue.{QuotaValue};
ghost use Rattle.opened_file.specs.Changes.{file_at, laws_of};
ghost use Rattle.opened_file.specs.Committed.{CommitsOnce};
ghost use Rattle.set_edit.specs.EditCalls.{Edits, StandsEdited};
ghost use Rattle.set_edit.specs.Edits.{times_edit};
ghost use Rattle.set_edit.specs.Times.{found_or_zeros, record_in, skips_both, time_of, times_skipped, with_times};

use crate::edit::put_or_remove;
use crate::{EditFault, Skipped, TimeWord};
use opened_file::QuotaFile;
use outside::Store;
use quota_types::{Format, NoRoom, Rec, is_exceeded, kept_timed};

/// Sets the ends of an identifier's grace periods. Where a soft limit is not 0 and the usage exceeds it, that timer
/// becomes the moment `now`, in seconds since 1970, plus the seconds of the word, or 0 where the word unsets it.
/// Otherwise that timer stays and is told as skipped. What the format keeps of the record is put; where both are
/// skipped nothing is written.
///
/// # Errors
///
/// It is refused with `NoRoom` by the first field for which the format has no room, with its value: the identifier,
/// even where both times are skipped, or a timer for which it has no room, that for blocks before that for inodes,
/// whose value may be a sum beyond 64 bits. Each fault of the opened file is answered as it is.
pub fn set_times<S: Store, F: QuotaFile<S>>(
    file: &mut F,
    store: &mut S,
    id: u32,
    block: TimeWord,
    inode: TimeWord,
    now: u64,
) -> Result<Skipped, EditFault>
    requires { IsTrue (F.seen file.old).usable }
    ensures edits { Edits (times_edit id block inode now)
        (laws_of S.tells F.stands_for F.makes F.may_leave F.lacks_room F.may_refuse F.change_reads
        F.change_writes F.done_writes)
        (file_at (F.holds file.old store.old) (F.seen file.old) (S.seen store.old))
        (file_at (F.holds file.new store.new) (F.seen file.new) (S.seen store.new)) result }
    ensures skipped { IfOk result (λ skipped. (value : QuotaValue) → F.holds file.old store.old value
        → skipped ≡ times_skipped (record_in value id)) }
    // Whatever the store tells, what is skipped is so of a record that the format keeps.
    ensures told { IfOk result (λ skipped. (old : Option Rec) × IfSome old (IsKept (F.seen file.old).format id)
        × (skipped ≡ times_skipped (found_or_zeros old))) }
    // Whatever the store tells, nothing is written where both are told as skipped.
    ensures unwritten { IfOk result (λ skipped. IsTrue (skips_both skipped)
        → OnlyReads true (F.seen file.old).name (S.seen store.old) (S.seen store.new)) }
    // Nothing is committed, or once the files as they are told then, of which the named one stands for what the edit
    // makes of it.
    ensures commits { CommitsOnce (λ worlds. S.commits worlds store.old store.new)
        (StandsEdited (times_edit id block inode now)
        (F.holds file.old store.old) (F.stands_for (F.seen file.old).format)
        ((S.seen store.new).files (F.seen file.old).name))
        (S.seen store.new).files }
{
    let rec = found_or_zeros(file.get(store, id)?);
    let skipped = skipped_times(&rec);
    let next = next_times(file.format(), id, rec, block, inode, now)?;
    if skipped.both() {
        return Ok(skipped);
    }
    put_or_remove(file, store, id, next)?;
    Ok(skipped)
}

/// The record that was found, or one of zeros.
fn found_or_zeros(found: Option<Rec>) -> Rec
    ensures { result ≡ found_or_zeros found }
{
    found.unwrap_or_default()
}

/// Which times of a record are skipped.
fn skipped_times(rec: &Rec) -> Skipped
    ensures { result ≡ times_skipped rec.now }
{
    Skipped {
        block: !is_exceeded(rec.bsoft, rec.kib()),
        inode: !is_exceeded(rec.isoft, rec.inodes),
    }
}

/// What the format keeps of an identifier's record with new times, where they are not skipped.
fn next_times(
    format: Format,
    id: u32,
    rec: Rec,
    block: TimeWord,
    inode: TimeWord,
    now: u64,
) -> Result<Rec, NoRoom>
    ensures kept { IfOk result (λ next. next ≡ kept_of format id (with_times rec block inode now)) }
    ensures again { IfOk result (IsKept format id) }
    ensures wanted { OnOk result (unfit format id (with_times rec block inode now) ≡ None) }
    ensures refused { IfErr result (λ out. unfit format id (with_times rec block inode now)
        ≡ Some (out.field, out.value)) }
    ensures id { IfErr result (λ out. out.id ≡ id) }
{
    let stays = skipped_times(&rec);
    let btime = next_time(stays.block, rec.btime, block, now);
    let itime = next_time(stays.inode, rec.itime, inode, now);
    kept_timed(format, id, rec, btime, itime)
}

/// A timer as it was where it is skipped, and otherwise as the word asks for, which may be a sum beyond 64 bits.
fn next_time(skipped: bool, timer: u64, word: TimeWord, now: u64) -> u128
    ensures { result ≡ (if skipped then timer else time_of word now) }
{
    if skipped {
        return u128::from(timer);
    }
    match word {
        TimeWord::Seconds(seconds) => u128::from(now) + u128::from(seconds),
        TimeWord::Unset => 0,
    }
}
