ghost use Rattle.std.specs.Prelude.{◌≡◌};
ghost use Rattle.set_edit.specs.declared.edit_fault.EditFault.TheVariants.{File, NoRoom as Unfit};

use opened_file::FileFault;
use quota_types::NoRoom;

/// Why an edit of a quota file was refused.
#[derive(Clone, Copy, Debug, PartialEq, Eq)]
pub enum EditFault {
    /// A call on the opened file was refused.
    File(FileFault),
    /// The format has no room for a value.
    NoRoom(NoRoom),
}

impl From<FileFault> for EditFault {
    ghost from_gives = { λ fault edit. edit ≡ File fault };

    fn from(fault: FileFault) -> Self {
        EditFault::File(fault)
    }
}

impl From<NoRoom> for EditFault {
    ghost from_gives = { λ out edit. edit ≡ Unfit out };

    fn from(out: NoRoom) -> Self {
        EditFault::NoRoom(out)
    }
}
