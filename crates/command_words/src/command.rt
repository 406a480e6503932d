use option_words::ExportOptions;
use quota_types::{Format, Kind};
use refusals::Word;
use report_options::Options;

/// What the options of a command say that opens a quota file.
#[derive(Debug, Drop)]
pub struct Common {
    /// Whose usage the file limits.
    pub kind: Kind,
    /// The format of the file, where one is asked for.
    pub format: Option<Format>,
    /// The name of the file of names, where one is asked for.
    pub names: Option<Word>,
}

/// What a command line asks for. It owns its words.
#[derive(Debug, Drop)]
pub enum Command {
    /// The report of a file.
    Report {
        /// What the options say of the file.
        common: Common,
        /// What is shown.
        options: Options,
        /// The name of the file.
        file: Word,
    },
    /// Four new limits of an identifier.
    SetLimits {
        /// What the options say of the file.
        common: Common,
        /// The word for the identifier.
        name: Word,
        /// The words for the limits: the soft and the hard one of blocks, then those of inodes.
        limits: [Word; 4],
        /// The name of the file.
        file: Word,
    },
    /// The limits of one identifier for another one.
    CopyLimits {
        /// What the options say of the file.
        common: Common,
        /// The word for the identifier whose limits are copied.
        proto: Word,
        /// The word for the identifier that gets them.
        name: Word,
        /// The name of the file.
        file: Word,
    },
    /// New limits of many identifiers, a line each.
    Batch {
        /// What the options say of the file.
        common: Common,
        /// The name of the file with the lines; none for the standard input.
        input: Option<Word>,
        /// The name of the file.
        file: Word,
    },
    /// The two grace periods of a file.
    SetGrace {
        /// What the options say of the file.
        common: Common,
        /// The word for the seconds of blocks.
        block: Word,
        /// The word for the seconds of inodes.
        inode: Word,
        /// The name of the file.
        file: Word,
    },
    /// What is left of the grace periods of an identifier.
    SetTimes {
        /// What the options say of the file.
        common: Common,
        /// The word for the identifier.
        name: Word,
        /// The word for the time of blocks.
        block: Word,
        /// The word for the time of inodes.
        inode: Word,
        /// The name of the file.
        file: Word,
    },
    /// The limits of an identifier as a form to be edited.
    PrintForm {
        /// What the options say of the file.
        common: Common,
        /// The word for the identifier.
        name: Word,
        /// The name of the file.
        file: Word,
    },
    /// An edited form becomes the limits of an identifier.
    ApplyForm {
        /// What the options say of the file.
        common: Common,
        /// The name of the file with the form; none for the standard input.
        input: Option<Word>,
        /// The word for the identifier.
        name: Word,
        /// The name of the file.
        file: Word,
    },
    /// The usage in a listing becomes that of a file.
    Check {
        /// What the options say of the file.
        common: Common,
        /// A new file is made.
        fresh: bool,
        /// The device whose lines count; none for all of them.
        device: Option<u64>,
        /// The name of the file with the listing; none for the standard input.
        input: Option<Word>,
        /// The name of the file.
        file: Word,
    },
    /// A file in another format.
    Convert {
        /// Whose usage the files limit.
        kind: Kind,
        /// The format of the source.
        old: Format,
        /// The format of the target.
        new: Format,
        /// The name of the file that is read.
        source: Word,
        /// The name of the file that is made.
        target: Word,
    },
    /// Answers to calls over the network.
    Serve {
        /// The format of the files, where one is asked for.
        format: Option<Format>,
        /// How many calls are answered.
        calls: u32,
        /// The port; 0 for any one that is free.
        port: u16,
        /// What is exported.
        exports: ExportOptions,
    },
    /// A list of commands, a line each.
    Script,
    /// A listing that is made up, and the file of its usage.
    Generate {
        /// Where the numbers begin.
        seed: u64,
        /// How many lines the listing has.
        count: u32,
        /// The name of the file.
        file: Word,
    },
}
