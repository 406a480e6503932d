use opened_file::{FileFault, OpenFault, ReplaceFault};
use quota_types::NoRoom;
use thiserror::Error;

/// Why a quota file was not converted.
#[derive(Clone, Copy, Debug, PartialEq, Eq, Error)]
pub enum ConvertFault {
    /// The new file has the name of the one that is to be converted.
    #[error("the source and the target have the same name")]
    SameName,
    /// There is a file of the new one's name.
    #[error("there is a target already")]
    TargetExists,
    /// The file could not be opened, or the store failed when it was asked for the new one.
    #[error("the source could not be opened")]
    Open(OpenFault),
    /// The opened file could not be read, or there was not enough memory for its records.
    #[error("the source could not be read")]
    File(FileFault),
    /// The new format has no room for a value.
    #[error("the format of the target has no room for a value of the source")]
    NoRoom(NoRoom),
    /// The new file could not be made.
    #[error("the target could not be made")]
    Replace(ReplaceFault),
}
