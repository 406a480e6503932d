ghost use Rattle.std.specs.Prelude.{◌≡◌, ◌<◌, OnSome};
ghost use Rattle.option_words.specs.Switches.{letter_switch, long_switch};
ghost use Rattle.option_words.specs.Given.{raised, no_flags};

use crate::Tool;

/// An option of a command.
#[derive(Clone, Copy, Debug, PartialEq, Eq)]
pub enum Switch {
    /// One without a value.
    Flagged(Flag),
    /// One with a value.
    Setting(Setting),
    /// One with three words: a path, a kind and a file.
    Export,
}

/// An option without a value.
#[derive(Clone, Copy, Debug, PartialEq, Eq)]
pub enum Flag {
    /// The file is one of users.
    Users,
    /// The file is one of groups.
    Groups,
    /// The file is one of projects.
    Projects,
    /// A report shows the identifiers that use nothing, too.
    Verbose,
    /// A report shows numbers instead of names.
    Numeric,
    /// A report shows when a grace period ends.
    Raw,
    /// Limits are set for many identifiers.
    Batch,
    /// Grace periods are set.
    Grace,
    /// Times are set.
    Times,
    /// A form is printed.
    Print,
    /// A form is applied.
    Apply,
    /// A new file is made.
    Fresh,
}

/// An option with a value.
#[derive(Clone, Copy, Debug, PartialEq, Eq)]
pub enum Setting {
    /// The format of a file.
    QuotaFormat,
    /// The file of names.
    Names,
    /// The identifier whose limits are copied.
    Proto,
    /// The file that is read instead of the standard input.
    Input,
    /// The device whose lines count.
    Device,
    /// The formats of a conversion.
    Formats,
    /// How many calls are answered.
    Calls,
    /// The port.
    Port,
}

/// Which options without a value are given.
#[derive(Clone, Copy, Debug, PartialEq, Eq)]
pub struct Flags {
    /// The file is one of users.
    pub users: bool,
    /// The file is one of groups.
    pub groups: bool,
    /// The file is one of projects.
    pub projects: bool,
    /// A report shows the identifiers that use nothing, too.
    pub verbose: bool,
    /// A report shows numbers instead of names.
    pub numeric: bool,
    /// A report shows when a grace period ends.
    pub raw: bool,
    /// Limits are set for many identifiers.
    pub batch: bool,
    /// Grace periods are set.
    pub grace: bool,
    /// Times are set.
    pub times: bool,
    /// A form is printed.
    pub print: bool,
    /// A form is applied.
    pub apply: bool,
    /// A new file is made.
    pub fresh: bool,
}

impl Flags {
    /// No flag.
    pub fn none() -> Self
        ensures { result ≡ no_flags }
    {
        Flags {
            users: false,
            groups: false,
            projects: false,
            verbose: false,
            numeric: false,
            raw: false,
            batch: false,
            grace: false,
            times: false,
            print: false,
            apply: false,
            fresh: false,
        }
    }

    /// The flags and one more.
    pub fn with(self, flag: Flag) -> Self
        ensures { result ≡ raised flag self }
    {
        let mut flags = self;
        match flag {
            Flag::Users => flags.users = true,
            Flag::Groups => flags.groups = true,
            Flag::Projects => flags.projects = true,
            Flag::Verbose => flags.verbose = true,
            Flag::Numeric => flags.numeric = true,
            Flag::Raw => flags.raw = true,
            Flag::Batch => flags.batch = true,
            Flag::Grace => flags.grace = true,
            Flag::Times => flags.times = true,
            Flag::Print => flags.print = true,
            Flag::Apply => flags.apply = true,
            Flag::Fresh => flags.fresh = true,
        }
        flags
    }
}

impl Tool {
    /// The option that a letter stands for.
    pub fn letter_switch(self, letter: u8) -> Option<Switch>
        ensures meant { result ≡ letter_switch self letter }
        ensures ascii { OnSome result (letter < 128) }
    {
        match self {
            Tool::Repquota => repquota_letter(letter),
            Tool::Setquota => setquota_letter(letter),
            Tool::Edquota => edquota_letter(letter),
            Tool::Quotacheck => quotacheck_letter(letter),
            Tool::Convertquota => convertquota_letter(letter),
            Tool::Rquotad | Tool::Script | Tool::Generate => None,
        }
    }

    /// The option that a word with two hyphens stands for.
    pub fn long_switch(self, written: &str) -> Option<Switch>
        ensures { result ≡ long_switch self written.now }
    {
        match (self, written) {
            (Tool::Repquota | Tool::Setquota | Tool::Edquota, "--names") => {
                Some(Switch::Setting(Setting::Names))
            }
            (Tool::Setquota | Tool::Edquota | Tool::Quotacheck, "--input") => {
                Some(Switch::Setting(Setting::Input))
            }
            (Tool::Edquota, "--print") => Some(Switch::Flagged(Flag::Print)),
            (Tool::Edquota, "--apply") => Some(Switch::Flagged(Flag::Apply)),
            (Tool::Quotacheck, "--device") => Some(Switch::Setting(Setting::Device)),
            (Tool::Rquotad, "--format") => Some(Switch::Setting(Setting::QuotaFormat)),
            (Tool::Rquotad, "--calls") => Some(Switch::Setting(Setting::Calls)),
            (Tool::Rquotad, "--port") => Some(Switch::Setting(Setting::Port)),
            (Tool::Rquotad, "--export") => Some(Switch::Export),
            _ => None,
        }
    }
}

/// What a letter stands for in `repquota`.
fn repquota_letter(letter: u8) -> Option<Switch>
    ensures meant { result ≡ letter_switch Tool.Repquota letter }
    ensures ascii { OnSome result (letter < 128) }
{
    match letter {
        b'u' => Some(Switch::Flagged(Flag::Users)),
        b'g' => Some(Switch::Flagged(Flag::Groups)),
        b'P' => Some(Switch::Flagged(Flag::Projects)),
        b'v' => Some(Switch::Flagged(Flag::Verbose)),
        b'n' => Some(Switch::Flagged(Flag::Numeric)),
        b'p' => Some(Switch::Flagged(Flag::Raw)),
        b'F' => Some(Switch::Setting(Setting::QuotaFormat)),
        _ => None,
    }
}

/// What a letter stands for in `setquota`.
fn setquota_letter(letter: u8) -> Option<Switch>
    ensures meant { result ≡ letter_switch Tool.Setquota letter }
    ensures ascii { OnSome result (letter < 128) }
{
    match letter {
        b'u' => Some(Switch::Flagged(Flag::Users)),
        b'g' => Some(Switch::Flagged(Flag::Groups)),
        b'P' => Some(Switch::Flagged(Flag::Projects)),
        b'b' => Some(Switch::Flagged(Flag::Batch)),
        b't' => Some(Switch::Flagged(Flag::Grace)),
        b'T' => Some(Switch::Flagged(Flag::Times)),
        b'F' => Some(Switch::Setting(Setting::QuotaFormat)),
        b'p' => Some(Switch::Setting(Setting::Proto)),
        _ => None,
    }
}

/// What a letter stands for in `edquota`.
fn edquota_letter(letter: u8) -> Option<Switch>
    ensures meant { result ≡ letter_switch Tool.Edquota letter }
    ensures ascii { OnSome result (letter < 128) }
{
    match letter {
        b'u' => Some(Switch::Flagged(Flag::Users)),
        b'g' => Some(Switch::Flagged(Flag::Groups)),
        b'P' => Some(Switch::Flagged(Flag::Projects)),
        b'F' => Some(Switch::Setting(Setting::QuotaFormat)),
        _ => None,
    }
}

/// What a letter stands for in `quotacheck`.
fn quotacheck_letter(letter: u8) -> Option<Switch>
    ensures meant { result ≡ letter_switch Tool.Quotacheck letter }
    ensures ascii { OnSome result (letter < 128) }
{
    match letter {
        b'u' => Some(Switch::Flagged(Flag::Users)),
        b'g' => Some(Switch::Flagged(Flag::Groups)),
        b'P' => Some(Switch::Flagged(Flag::Projects)),
        b'c' => Some(Switch::Flagged(Flag::Fresh)),
        b'F' => Some(Switch::Setting(Setting::QuotaFormat)),
        _ => None,
    }
}

/// What a letter stands for in `convertquota`.
fn convertquota_letter(letter: u8) -> Option<Switch>
    ensures meant { result ≡ letter_switch Tool.Convertquota letter }
    ensures ascii { OnSome result (letter < 128) }
{
    match letter {
        b'u' => Some(Switch::Flagged(Flag::Users)),
        b'g' => Some(Switch::Flagged(Flag::Groups)),
        b'P' => Some(Switch::Flagged(Flag::Projects)),
        b'f' => Some(Switch::Setting(Setting::Formats)),
        _ => None,
    }
}
