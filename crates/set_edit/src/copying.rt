ghost use Rattle.std.specs.Prelude.{◌≡◌, IsTrue};
ghost use Rattle.opened_file.specs.Changes.{file_at, laws_of};
ghost use Rattle.opened_file.specs.Committed.{CommitsOnce};
ghost use Rattle.set_edit.specs.EditCalls.{Edits, StandsEdited};
ghost use Rattle.set_edit.specs.Edits.{copy_edit, limits_of};

use crate::{EditFault, Limits, set_limits};
use opened_file::QuotaFile;
use outside::Store;
use quota_types::Rec;

/// Sets the four limits of the identifier `to` to those of `from`, which are 0 where `from` has no record, and then its
/// timers at the moment `now`, in seconds since 1970. Nothing but the limits is copied. What the format keeps of the
/// record is put, and a null record is removed.
///
/// # Errors
///
/// As `set_limits` for the identifier `to`; each fault of the opened file is answered as it is.
pub fn copy_limits<S: Store, F: QuotaFile<S>>(
    file: &mut F,
    store: &mut S,
    from: u32,
    to: u32,
    now: u64,
) -> Result<(), EditFault>
    requires { IsTrue (F.seen file.old).usable }
    ensures edits { Edits (copy_edit from to now)
        (laws_of S.tells F.stands_for F.makes F.may_leave F.lacks_room F.may_refuse F.change_reads
        F.change_writes F.done_writes)
        (file_at (F.holds file.old store.old) (F.seen file.old) (S.seen store.old))
        (file_at (F.holds file.new store.new) (F.seen file.new) (S.seen store.new)) result }
    // Nothing is committed, or once the files as they are told then, of which the named one stands for what the edit
    // makes of it.
    ensures commits { CommitsOnce (λ worlds. S.commits worlds store.old store.new) (StandsEdited (copy_edit from to now)
        (F.holds file.old store.old) (F.stands_for (F.seen file.old).format)
        ((S.seen store.new).files (F.seen file.old).name))
        (S.seen store.new).files }
{
    let source = file.get(store, from)?;
    set_limits(file, store, to, &limits_of(source), now)
}

/// The limits of a record, which are 0 where there is none.
fn limits_of(found: Option<Rec>) -> Limits
    ensures { result ≡ limits_of found }
{
    let rec = found.unwrap_or_default();
    Limits {
        bsoft: rec.bsoft,
        bhard: rec.bhard,
        isoft: rec.isoft,
        ihard: rec.ihard,
    }
}
