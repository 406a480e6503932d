ghost use Rattle.std.specs.Prelude.{◌≡◌};
ghost use Rattle.std.specs.List.{list_any};
ghost use Rattle.command_words.specs.Modes.{are_flat_projects, are_projects, are_two_kinds, are_two_modes, excludes};
ghost use Rattle.command_words.specs.Modes.{is_flat_conversion, is_flat_format, is_of_projects, kind_asked, lacks};
ghost use Rattle.command_words.specs.Modes.{mode_of, options_of, two_of};
ghost use Rattle.option_words.specs.Given.{exports_given, given_options};

use option_words::{Conversion, ExportWords, Flags, Given, Tool};
use quota_types::{Format, Kind};
use report_options::Options;

/// A mode of a command: what its options choose, with its own operands.
#[derive(Clone, Copy, Debug, PartialEq, Eq)]
pub enum Mode {
    /// `repquota`.
    Reporting,
    /// `setquota` with four limits.
    Limiting,
    /// `setquota -p`.
    Copying,
    /// `setquota -b`.
    Batching,
    /// `setquota -t`.
    SettingGrace,
    /// `setquota -T`.
    SettingTimes,
    /// `edquota --print`.
    Printing,
    /// `edquota --apply`.
    Applying,
    /// `quotacheck`.
    Checking,
    /// `convertquota`.
    Converting,
    /// `rquotad`.
    Serving,
    /// `script`.
    Scripting,
    /// `generate`.
    Generating,
}

/// Whether options were given that exclude each other.
pub fn excludes(tool: Tool, given: &Given<'_>) -> bool
    ensures { result ≡ excludes tool (given_options given.now) }
{
    are_two_kinds(&given.flags) || are_flat_projects(given) || are_two_modes(tool, given)
}

/// Whether two kinds are asked for.
fn are_two_kinds(flags: &Flags) -> bool
    ensures { result ≡ are_two_kinds flags.now }
{
    (flags.users && (flags.groups || flags.projects)) || (flags.groups && flags.projects)
}

/// Whether flat files of projects are asked for. Both flat formats are of quotas of users and groups alone.
fn are_flat_projects(given: &Given<'_>) -> bool
    ensures { result ≡ are_flat_projects (given_options given.now) }
{
    are_projects(given) && (is_flat_format(given.format) || is_flat_conversion(given.conversion))
}

/// Whether projects are asked for, by the option or by an export.
fn are_projects(given: &Given<'_>) -> bool
    ensures { result ≡ are_projects (given_options given.now) }
{
    given.flags.projects || exports_projects(given.exports.as_slice())
}

/// Whether one of the exports is that of projects.
fn exports_projects(exports: &[ExportWords<'_>]) -> bool
    ensures { result ≡ list_any is_of_projects (exports_given exports.now) }
{
    exports.iter().any(|export| export.kind == Kind::Project)
}

/// Whether a format is asked for, and it is that of a flat file.
fn is_flat_format(format: Option<Format>) -> bool
    ensures { result ≡ is_flat_format format }
{
    match format {
        Some(format) => format.is_flat(),
        None => false,
    }
}

/// Whether one of the formats of a conversion is that of a flat file.
fn is_flat_conversion(conversion: Option<Conversion>) -> bool
    ensures { result ≡ is_flat_conversion conversion }
{
    match conversion {
        Some(formats) => formats.old.is_flat() || formats.new.is_flat(),
        None => false,
    }
}

/// Whether two modes of one command are asked for, or an input where the mode reads none.
fn are_two_modes(tool: Tool, given: &Given<'_>) -> bool
    ensures { result ≡ are_two_modes tool (given_options given.now) }
{
    let flags = &given.flags;
    match tool {
        Tool::Setquota => {
            two_of(given.proto.is_some(), flags.batch, flags.grace, flags.times)
                || (given.input.is_some() && !flags.batch)
        }
        Tool::Edquota => (flags.print && flags.apply) || (given.input.is_some() && flags.print),
        _ => false,
    }
}

/// Whether two of four hold.
fn two_of(a: bool, b: bool, c: bool, d: bool) -> bool
    ensures { result ≡ two_of a b c d }
{
    (a && (b || c || d)) || (b && (c || d)) || (c && d)
}

/// Whether a required option was not given. In a script what reads an input has to name it.
pub fn lacks(in_script: bool, tool: Tool, given: &Given<'_>) -> bool
    ensures { result ≡ lacks in_script tool (given_options given.now) }
{
    let flags = &given.flags;
    let unnamed_input = in_script && given.input.is_none();
    match tool {
        Tool::Setquota => flags.batch && unnamed_input,
        Tool::Edquota => !(flags.print || flags.apply) || (flags.apply && unnamed_input),
        Tool::Quotacheck => unnamed_input,
        Tool::Convertquota => given.conversion.is_none(),
        Tool::Rquotad => {
            given.calls.is_none() || given.port.is_none() || given.exports.is_empty()
        }
        Tool::Repquota | Tool::Script | Tool::Generate => false,
    }
}

/// The mode that the options choose.
pub fn mode_of(tool: Tool, given: &Given<'_>) -> Mode
    ensures { result ≡ mode_of tool (given_options given.now) }
{
    match tool {
        Tool::Repquota => Mode::Reporting,
        Tool::Setquota => setquota_mode(given),
        Tool::Edquota if given.flags.print => Mode::Printing,
        Tool::Edquota => Mode::Applying,
        Tool::Quotacheck => Mode::Checking,
        Tool::Convertquota => Mode::Converting,
        Tool::Rquotad => Mode::Serving,
        Tool::Script => Mode::Scripting,
        Tool::Generate => Mode::Generating,
    }
}

/// The mode of `setquota` that the options choose.
fn setquota_mode(given: &Given<'_>) -> Mode
    ensures { result ≡ mode_of Tool.Setquota (given_options given.now) }
{
    if given.proto.is_some() {
        Mode::Copying
    } else if given.flags.batch {
        Mode::Batching
    } else if given.flags.grace {
        Mode::SettingGrace
    } else if given.flags.times {
        Mode::SettingTimes
    } else {
        Mode::Limiting
    }
}

/// Users, unless groups or projects are asked for.
pub fn kind_asked(flags: &Flags) -> Kind
    ensures { result ≡ kind_asked flags.now }
{
    if flags.projects {
        Kind::Project
    } else if flags.groups {
        Kind::Group
    } else {
        Kind::User
    }
}

/// What a report shows.
pub fn options_of(flags: &Flags) -> Options
    ensures { result ≡ options_of flags.now }
{
    Options {
        verbose: flags.verbose,
        numeric: flags.numeric,
        raw: flags.raw,
    }
}
