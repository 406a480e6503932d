ghost use Rattle.std.specs.Prelude.{◌≡◌};
ghost use Rattle.refusals.specs.Line.{usage_name};
ghost use Rattle.refusals.specs.Status.{group_of, status_in, status_of};

use quota_types::{Damage, NoRoom};

/// What is wrong with the words of a command line.
#[derive(Clone, Copy, Debug, PartialEq, Eq)]
pub enum UsageKind {
    /// There are no words.
    NoCommand,
    /// The first word is no command.
    UnknownCommand,
    /// The command has no such option.
    UnknownOption,
    /// The words end before an option's value.
    MissingValue,
    /// A value is not of its form or range.
    BadValue,
    /// An option stands a second time.
    Repeated,
    /// Two options exclude each other.
    Excludes,
    /// A required option is not there.
    MissingOption,
    /// The number of operands is another one.
    WrongOperands,
    /// A file's name is not one.
    BadFileName,
}

impl UsageKind {
    /// Its name, as error lines print it.
    pub fn name(self) -> &'static str
        ensures { result.now ≡ usage_name self }
    {
        match self {
            UsageKind::NoCommand => "NoCommand",
            UsageKind::UnknownCommand => "UnknownCommand",
            UsageKind::UnknownOption => "UnknownOption",
            UsageKind::MissingValue => "MissingValue",
            UsageKind::BadValue => "BadValue",
            UsageKind::Repeated => "Repeated",
            UsageKind::Excludes => "Excludes",
            UsageKind::MissingOption => "MissingOption",
            UsageKind::WrongOperands => "WrongOperands",
            UsageKind::BadFileName => "BadFileName",
        }
    }
}

/// Why a command was not carried out.
#[derive(Clone, Copy, Debug, PartialEq, Eq)]
pub enum Cause {
    /// The store failed.
    StoreFault,
    /// There is no such file.
    NoFile,
    /// The file is larger than is read.
    TooLarge,
    /// The input failed.
    SourceFault,
    /// The output failed.
    SinkFault,
    /// The link failed.
    LinkFault,
    /// There was not enough memory.
    Memory,
    /// The file does not begin as a quota file does.
    NotQuota,
    /// The file is one of another kind.
    WrongKind,
    /// The file has a version that is not known.
    UnknownVersion,
    /// The header has a number of blocks below 2.
    BadBlockCount,
    /// The file has another format than the one that was asked for.
    OtherFormat,
    /// The file is damaged.
    Damaged(Damage),
    /// The file would need more blocks than it may have.
    Full {
        /// The blocks that it would need.
        blocks: u64,
        /// The blocks that it may have.
        limit: u64,
    },
    /// The format has no room for a value.
    NoRoom(NoRoom),
    /// A word names no identifier.
    UnknownName,
    /// A word is not of a number's form or range.
    BadNumber,
    /// The file that is to be made exists already.
    TargetExists,
    /// A file is to be made of itself.
    SameName,
    /// A line of a form is absent, or not as it was printed.
    BadForm(u64),
    /// A line breaks the rules of its file or input.
    BadLine(u64),
    /// A line is longer than is read.
    LongLine(u64),
    /// A line says something else of an inode than an earlier one.
    Conflict {
        /// The line.
        line: u64,
        /// The first line of the inode.
        first: u64,
    },
    /// The words are outside the grammar.
    Usage {
        /// What is wrong.
        kind: UsageKind,
        /// The number of the word, counted from 0.
        word: u64,
    },
}

/// What a cause is one of. All causes of a group end the program with the same status.
#[derive(Clone, Copy, Debug, PartialEq, Eq)]
pub enum CauseGroup {
    /// The command is refused.
    Denied,
    /// The words are outside the grammar.
    BadWords,
    /// The file is no quota file of the kind and format, or damaged.
    BadFile,
    /// Something outside failed.
    Fault,
    /// There was not enough memory.
    NoMemory,
}

impl CauseGroup {
    /// The status with which the program ends.
    pub fn status(self) -> u8
        ensures { result ≡ status_in self }
    {
        match self {
            CauseGroup::Denied => 1,
            CauseGroup::BadWords => 2,
            CauseGroup::BadFile => 3,
            CauseGroup::Fault => 4,
            CauseGroup::NoMemory => 5,
        }
    }
}

impl Cause {
    /// What it is one of.
    pub fn group(self) -> CauseGroup
        ensures { result ≡ group_of self }
    {
        match self {
            Cause::NoFile
            | Cause::TooLarge
            | Cause::Full { .. }
            | Cause::NoRoom(_)
            | Cause::UnknownName
            | Cause::BadNumber
            | Cause::TargetExists
            | Cause::SameName
            | Cause::BadForm(_)
            | Cause::BadLine(_)
            | Cause::LongLine(_)
            | Cause::Conflict { .. } => CauseGroup::Denied,
            Cause::Usage { .. } => CauseGroup::BadWords,
            Cause::NotQuota
            | Cause::WrongKind
            | Cause::UnknownVersion
            | Cause::BadBlockCount
            | Cause::OtherFormat
            | Cause::Damaged(_) => CauseGroup::BadFile,
            Cause::StoreFault | Cause::SourceFault | Cause::SinkFault | Cause::LinkFault => {
                CauseGroup::Fault
            }
            Cause::Memory => CauseGroup::NoMemory,
        }
    }

    /// The status with which the program ends.
    pub fn status(self) -> u8
        ensures { result ≡ status_of self }
    {
        self.group().status()
    }
}
