ghost use Rattle.std.specs.Prelude.{IsTrue};
ghost use Rattle.opened_file.specs.Changes.{file_at, laws_of};
ghost use Rattle.opened_file.specs.Committed.{CommitsOnce};
ghost use Rattle.set_edit.specs.EditCalls.{Edits, StandsEdited};
ghost use Rattle.set_edit.specs.Edits.{grace_edit};

use crate::EditFault;
use opened_file::QuotaFile;
use outside::Store;
use quota_types::{Grace, check_grace};

/// Sets both grace periods of the file, in seconds. All records stay as they are.
///
/// # Errors
///
/// It is refused with `NoRoom` by the first period for which the format has no room, that for blocks before that for
/// inodes, with its value and identifier 0. Each fault of the opened file is answered as it is; that it is full never
/// comes.
pub fn set_grace_periods<S: Store, F: QuotaFile<S>>(
    file: &mut F,
    store: &mut S,
    grace: Grace,
) -> Result<(), EditFault>
    requires { IsTrue (F.seen file.old).usable }
    ensures edits { Edits (grace_edit grace)
        (laws_of S.tells F.stands_for F.makes F.may_leave F.lacks_room F.may_refuse F.change_reads
        F.change_writes F.done_writes)
        (file_at (F.holds file.old store.old) (F.seen file.old) (S.seen store.old))
        (file_at (F.holds file.new store.new) (F.seen file.new) (S.seen store.new)) result }
    // Nothing is committed, or once the files as they are told then, of which the named one stands for what the edit
    // makes of it.
    ensures commits { CommitsOnce (λ worlds. S.commits worlds store.old store.new) (StandsEdited (grace_edit grace)
        (F.holds file.old store.old) (F.stands_for (F.seen file.old).format)
        ((S.seen store.new).files (F.seen file.old).name))
        (S.seen store.new).files }
{
    check_grace(file.format(), &grace)?;
    file.set_grace(store, grace)?;
    Ok(())
}
