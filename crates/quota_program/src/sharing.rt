ghost use Rattle.quota_program.specs.Sharing.{IsLocked, IsSharing};

use command_words::Command;
use file_locks::sharing::{Lock, Sharing};
use refusals::Word;

/// A file that is locked with its first use.
fn locked(file: &Word, lock: Lock) -> Sharing<'_>
    ensures { IsLocked file.now lock result }
{
    Sharing::Locked {
        name: file.as_str(),
        lock,
    }
}

/// How the files of a command are shared with other programs. The one that it may change is locked alone, and the one
/// that it reads beside others; what it makes anew is locked in any case. What `rquotad` serves is read as it begins,
/// so that no lock is held while it waits for calls.
pub fn sharing_of(command: &Command) -> Sharing<'_>
    ensures { IsSharing command.now result }
{
    match command {
        Command::Report { file, .. } | Command::PrintForm { file, .. } => {
            locked(file, Lock::Shared)
        }
        Command::Convert { source, .. } => locked(source, Lock::Shared),
        Command::SetLimits { file, .. }
        | Command::CopyLimits { file, .. }
        | Command::Batch { file, .. }
        | Command::SetGrace { file, .. }
        | Command::SetTimes { file, .. }
        | Command::ApplyForm { file, .. }
        | Command::Check { file, .. }
        | Command::Generate { file, .. } => locked(file, Lock::Exclusive),
        Command::Serve { .. } => Sharing::Kept,
        Command::Script => Sharing::Guarded,
    }
}
