ghost use Rattle.quota_program.specs.QuotaFiles.{IsOpened};

use command_words::Command;
use option_words::ExportOptions;

/// The quota files that a command opens. Beside each of them, and beside no other file, stands an undo file.
#[derive(Clone, Copy, Debug)]
pub enum QuotaFiles<'a> {
    /// This one.
    One(&'a str),
    /// These two.
    Two(&'a str, &'a str),
    /// The files of exports.
    Exported(&'a ExportOptions),
    /// Whatever files the lines of a script name.
    Any,
}

/// The quota files that a command opens. What it reads besides, names or an input, is no quota file.
pub fn quota_files_of(command: &Command) -> QuotaFiles<'_>
    ensures { IsOpened command.now result }
{
    match command {
        Command::Report { file, .. }
        | Command::PrintForm { file, .. }
        | Command::SetLimits { file, .. }
        | Command::CopyLimits { file, .. }
        | Command::Batch { file, .. }
        | Command::SetGrace { file, .. }
        | Command::SetTimes { file, .. }
        | Command::ApplyForm { file, .. }
        | Command::Check { file, .. }
        | Command::Generate { file, .. } => QuotaFiles::One(file.as_str()),
        Command::Convert { source, target, .. } => {
            QuotaFiles::Two(source.as_str(), target.as_str())
        }
        Command::Serve { exports, .. } => QuotaFiles::Exported(exports),
        Command::Script => QuotaFiles::Any,
    }
}
