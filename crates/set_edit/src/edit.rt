ghost use Rattle.std.specs.Prelude.{◌≡◌, IfErr, IfSome, IsTrue, unwrap_or};
ghost use Rattle.quota_types.specs.Kept.{IsKept};
ghost use Rattle.quota_types.specs.Rec.{zero_record};
ghost use Rattle.opened_file.specs.Changes.{Changes, file_at, laws_of};
ghost use Rattle.opened_file.specs.Committed.{CommitsOnce, StandsChanged};
ghost use Rattle.opened_file.specs.QuotaFile.{WantsNoMemory};
ghost use Rattle.set_edit.specs.EditFault.{file_fault};
ghost use Rattle.set_edit.specs.Edited.{with_limits};
ghost use Rattle.set_edit.specs.EditCalls.{change_to, Edits, ReadsOnce, StandsEdited};
ghost use Rattle.set_edit.specs.Edits.{limits_edit};

use crate::{EditFault, Limits};
use opened_file::{FileFault, QuotaFile};
use outside::Store;
use quota_types::{Rec, next_kept};

/// Sets the four limits of an identifier's record, or of a record of zeros where it has none, and then its timers at
/// the moment `now`, in seconds since 1970. What the format keeps of the record is put, and a null record is removed.
///
/// # Errors
///
/// It is refused with `NoRoom` by the first field of the record for which the format has no room, in the order of
/// `Field`, with its value. Then, and where the file has no room or there is no memory, nothing has changed; where
/// there is no room nothing is written whatever fails besides. Where the store failed and the file may still be used,
/// nothing has changed either; where it may not, the named file is as it was, or lies between the old one and what the
/// change would have made of it. Each fault of the opened file is answered as it is, and raises its count of refusals.
pub fn set_limits<S: Store, F: QuotaFile<S>>(
    file: &mut F,
    store: &mut S,
    id: u32,
    limits: &Limits,
    now: u64,
) -> Result<(), EditFault>
    requires { IsTrue (F.seen file.old).usable }
    ensures edits { Edits (limits_edit id limits.now now)
        (laws_of S.tells F.stands_for F.makes F.may_leave F.lacks_room F.may_refuse F.change_reads
        F.change_writes F.done_writes)
        (file_at (F.holds file.old store.old) (F.seen file.old) (S.seen store.old))
        (file_at (F.holds file.new store.new) (F.seen file.new) (S.seen store.new)) result }
    // However it ended, no more was read than a look-up and some change of the file may read.
    ensures reads { ReadsOnce (F.get_reads (F.seen file.old).format) (F.change_reads (F.seen file.old))
        (S.seen store.old).reads (S.seen store.new).reads }
    // It is never refused for lack of memory.
    ensures memory { IfErr result (λ fault. IfSome (file_fault fault) WantsNoMemory) }
    // Nothing is committed, or once the files as they are told then, of which the named one stands for what the edit
    // makes of it.
    ensures commits { CommitsOnce (λ worlds. S.commits worlds store.old store.new)
        (StandsEdited (limits_edit id limits.now now)
        (F.holds file.old store.old) (F.stands_for (F.seen file.old).format)
        ((S.seen store.new).files (F.seen file.old).name))
        (S.seen store.new).files }
{
    let old = file.get(store, id)?;
    let rec = limited(old, limits);
    let next = next_kept(file.format(), id, rec, file.grace(), now)?;
    put_or_remove(file, store, id, next)?;
    Ok(())
}

/// The record, or one of zeros, with these limits.
fn limited(old: Option<Rec>, limits: &Limits) -> Rec
    ensures { result ≡ with_limits (unwrap_or old zero_record) limits.now }
{
    Rec {
        ihard: limits.ihard,
        isoft: limits.isoft,
        bhard: limits.bhard,
        bsoft: limits.bsoft,
        ..old.unwrap_or_default()
    }
}

/// Gives an identifier this record, or takes its record away where this one is null.
pub(crate) fn put_or_remove<S: Store, F: QuotaFile<S>>(
    file: &mut F,
    store: &mut S,
    id: u32,
    rec: Rec,
) -> Result<(), FileFault>
    requires usable { IsTrue (F.seen file.old).usable }
    requires kept { IsKept (F.seen file.old).format id rec }
    ensures changes { Changes (change_to id rec)
        (laws_of S.tells F.stands_for F.makes F.may_leave F.lacks_room F.may_refuse F.change_reads
        F.change_writes F.done_writes)
        (file_at (F.holds file.old store.old) (F.seen file.old) (S.seen store.old))
        (file_at (F.holds file.new store.new) (F.seen file.new) (S.seen store.new)) result }
    ensures memory { IfErr result WantsNoMemory }
    ensures commits { CommitsOnce (λ worlds. S.commits worlds store.old store.new) (StandsChanged (change_to id rec)
        (F.holds file.old store.old) (F.stands_for (F.seen file.old).format)
        ((S.seen store.new).files (F.seen file.old).name))
        (S.seen store.new).files }
{
    if rec.is_null() {
        file.remove(store, id)
    } else {
        file.put(store, id, rec)
    }
}
