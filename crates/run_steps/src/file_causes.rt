ghost use Rattle.std.specs.Prelude.{◌≡◌};
ghost use Rattle.run_steps.specs.Opening.{file_cause, opening_cause};

use opened_file::{FileFault, OpenFault};
use refusals::Cause;

/// What is said where a call on an opened file was refused.
pub fn file_cause(fault: FileFault) -> Cause
    ensures { result ≡ file_cause fault }
{
    match fault {
        FileFault::Store => Cause::StoreFault,
        FileFault::Damage(damage) => Cause::Damaged(damage),
        FileFault::Full { blocks, limit } => Cause::Full { blocks, limit },
        FileFault::Memory => Cause::Memory,
    }
}

/// What is said of a file that could not be opened.
pub fn opening_cause(fault: OpenFault) -> Cause
    ensures { result ≡ opening_cause fault }
{
    match fault {
        OpenFault::Store => Cause::StoreFault,
        OpenFault::NoFile => Cause::NoFile,
        OpenFault::TooLarge { .. } => Cause::TooLarge,
        OpenFault::Memory => Cause::Memory,
        OpenFault::NotQuota => Cause::NotQuota,
        OpenFault::WrongKind => Cause::WrongKind,
        OpenFault::UnknownVersion => Cause::UnknownVersion,
        OpenFault::BadBlockCount => Cause::BadBlockCount,
        OpenFault::FormatMismatch { .. } => Cause::OtherFormat,
        OpenFault::Damage(damage) => Cause::Damaged(damage),
    }
}
