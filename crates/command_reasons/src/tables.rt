//! What is wanted of each option, operand, line and file.

use option_words::{Flags, Setting, Tool};
use quota_types::Format;

/// The commands.
pub(crate) const COMMANDS: &str =
    "repquota, setquota, edquota, quotacheck, convertquota, rquotad, script or generate";

/// The formats.
pub(crate) const FORMATS: &str = "vfsold, vfsold32, vfsv0 or vfsv1";

/// What the name of a file is.
pub(crate) const FILE_NAME: &str =
    "the name of a file has 1 to 250 bytes from ! to ~, no blank and no letter outside of ASCII, \
     and does not end in .new, .undo or .und; go into the folder first";

/// How the system says that a file is a device, a pipe or the like.
pub(crate) const IRREGULAR: &str = "Not a regular file";

/// Why a port gives no reply.
pub(crate) const NO_REPLY: &str =
    "look whether rquotad serves at that --port, or has answered its --calls, and whether a firewall keeps datagrams \
         out";

/// What is said of a listing that is empty or has blank lines alone.
pub(crate) const NO_LINE: &str = "no line of an inode was read, so all use was set to 0";

/// What is read of a file.
#[derive(Clone, Copy, PartialEq, Eq)]
pub(crate) enum FileUse {
    /// Quotas.
    Quotas,
    /// Names.
    Names,
    /// The lines of an input.
    Input,
    /// The lines of an input of a command in a script.
    ScriptInput,
}

/// How the format of a quota file is given.
#[derive(Clone, Copy, PartialEq, Eq)]
pub(crate) enum FormatWord {
    /// By `-F FORMAT`.
    Letter,
    /// By `-f OLD,NEW`.
    Conversion,
    /// By `--format FORMAT`.
    Served,
    /// By the word FORMAT.
    Streamed,
}

/// What the operands of a form are.
#[derive(Clone, Copy)]
pub(crate) struct Form {
    /// How many there are.
    pub count: usize,
    /// Their names.
    pub names: &'static str,
}

/// The name of a command.
pub(crate) fn tool_name(tool: Tool) -> &'static str {
    match tool {
        Tool::Repquota => "repquota",
        Tool::Setquota => "setquota",
        Tool::Edquota => "edquota",
        Tool::Quotacheck => "quotacheck",
        Tool::Convertquota => "convertquota",
        Tool::Rquotad => "rquotad",
        Tool::Script => "script",
        Tool::Generate => "generate",
    }
}

/// The options of a command.
pub(crate) fn options_of(tool: Tool) -> &'static str {
    match tool {
        Tool::Repquota => "-u, -g, -P, -v, -n, -p, -F FORMAT and --names FILE",
        Tool::Setquota => {
            "-u, -g, -P, -F FORMAT, --names FILE, -p PROTO, -t, -T, -b and --input FILE"
        }
        Tool::Edquota => "-u, -g, -P, -F FORMAT, --names FILE, --print, --apply and --input FILE",
        Tool::Quotacheck => "-u, -g, -P, -c, -F FORMAT, --device NUMBER and --input FILE",
        Tool::Convertquota => "-u, -g, -P and -f OLD,NEW",
        Tool::Rquotad => {
            "--format FORMAT, --calls NUMBER, --port NUMBER and --export PATH KIND FILE"
        }
        Tool::Script | Tool::Generate => "none",
    }
}

/// What the value of an option is called.
pub(crate) fn value_name(setting: Setting) -> &'static str {
    match setting {
        Setting::QuotaFormat => "FORMAT",
        Setting::Names | Setting::Input => "FILE",
        Setting::Proto => "PROTO",
        Setting::Device | Setting::Calls | Setting::Port => "NUMBER",
        Setting::Formats => "OLD,NEW",
    }
}

/// What is wanted of the value of an option.
pub(crate) fn value_wanted(setting: Setting) -> &'static str {
    match setting {
        Setting::QuotaFormat => "a format is one of vfsold, vfsold32, vfsv0 or vfsv1",
        Setting::Names | Setting::Input => FILE_NAME,
        Setting::Proto => "an identifier is wanted",
        Setting::Device => "the number of a device is below 2^64",
        Setting::Formats => {
            "two formats are wanted with a comma between them, each of vfsold, vfsold32, vfsv0 or vfsv1"
        }
        Setting::Calls => "a number from 1 to 4294967295 is wanted",
        Setting::Port => "a port is a number from 0 to 65535",
    }
}

/// The operands that a command has with these options.
pub(crate) fn form_of(tool: Tool, flags: &Flags, has_proto: bool) -> Form {
    match tool {
        Tool::Repquota | Tool::Quotacheck => operands(1, "FILE"),
        Tool::Setquota => setquota_form(flags, has_proto),
        Tool::Edquota => operands(2, "NAME FILE"),
        Tool::Convertquota => operands(2, "SOURCE TARGET"),
        Tool::Rquotad | Tool::Script => operands(0, ""),
        Tool::Generate => operands(3, "SEED COUNT FILE"),
    }
}

/// The operands that `setquota` has with these options.
fn setquota_form(flags: &Flags, has_proto: bool) -> Form {
    if has_proto {
        operands(2, "NAME FILE")
    } else if flags.batch {
        operands(1, "FILE")
    } else if flags.grace {
        operands(3, "BGRACE IGRACE FILE")
    } else if flags.times {
        operands(4, "NAME BTIME ITIME FILE")
    } else {
        operands(6, "NAME BSOFT BHARD ISOFT IHARD FILE")
    }
}

/// So many operands of these names.
fn operands(count: usize, names: &'static str) -> Form {
    Form { count, names }
}

/// What a line of the input of a command has to be.
pub(crate) fn line_wanted(tool: Tool, is_project: bool) -> &'static str {
    match tool {
        Tool::Setquota => "the five words NAME BSOFT BHARD ISOFT IHARD are wanted, in UTF-8",
        Tool::Quotacheck if is_project => {
            "the five numbers of owner, project, device, inode and blocks are wanted"
        }
        Tool::Quotacheck => {
            "the five numbers that find -printf '%U %G %D %i %b\\n' prints are wanted"
        }
        _ => "the words of a command are wanted, in UTF-8",
    }
}

/// What a line of a file of names has to be.
pub(crate) fn names_wanted(is_project: bool) -> &'static str {
    if is_project {
        "NAME:NUMBER is wanted, as in projid(5)"
    } else {
        "a line as in passwd(5) or group(5) is wanted, whose name has no blank"
    }
}

/// How many bytes a line of the input of a command has at most.
pub(crate) fn longest_line(tool: Tool) -> &'static str {
    match tool {
        Tool::Quotacheck => "a line of a listing has at most 256 bytes",
        Tool::Script => "a line of a script has at most 4096 bytes",
        _ => "a line has at most 1024 bytes",
    }
}

/// What to do about what is said of a file.
pub(crate) fn file_advice(
    what: &str,
    used_for: FileUse,
    given_by: FormatWord,
) -> Option<&'static str> {
    match what {
        "no such file" => Some(absent_advice(used_for)),
        "too large" => Some(
            "it has more bytes than are read; look at the name, or split the input",
        ),
        "exists already" => {
            Some("convertquota replaces no file; choose another name, or move that file away")
        }
        "same name" => Some("TARGET has to be another file than SOURCE"),
        "not a quota file" => Some(flat_advice(given_by)),
        "wrong kind" => Some(kind_advice(given_by)),
        "unknown version" => Some("its version is neither 0 nor 1; treat it as damaged"),
        "bad block count" => Some("its header has fewer than two blocks; treat it as damaged"),
        _ => None,
    }
}

/// What to do about a file that is not there.
fn absent_advice(used_for: FileUse) -> &'static str {
    match used_for {
        FileUse::Quotas => {
            "look at the name, and whether its file system is mounted; \
             quota_cli quotacheck -c makes a new quota file of a listing"
        }
        FileUse::Names => {
            "look at the name; --names is a file of names, as /etc/passwd, /etc/group or /etc/projid"
        }
        FileUse::Input => "look at the name; where --input is left away the standard input is read",
        FileUse::ScriptInput => "look at the name; --input is a file of lines for that command",
    }
}

/// What to do about a file that is no regular one; none where no more is known than that.
pub(crate) fn irregular_advice(used_for: FileUse) -> Option<&'static str> {
    match used_for {
        FileUse::Quotas => None,
        FileUse::Names => Some("write the names into a regular file"),
        FileUse::Input => Some("leave --input away, and the standard input is read"),
        FileUse::ScriptInput => Some("write the lines into a regular file"),
    }
}

/// What to do about a file that does not begin as a tree file does.
fn flat_advice(given_by: FormatWord) -> &'static str {
    match given_by {
        FormatWord::Letter => {
            "it does not begin as a tree file does; a flat file needs -F vfsold or -F vfsold32"
        }
        FormatWord::Conversion => {
            "it does not begin as a tree file does; a flat file needs -f vfsold,NEW or -f vfsold32,NEW"
        }
        FormatWord::Served => {
            "it does not begin as a tree file does; a flat file needs --format vfsold or --format vfsold32"
        }
        FormatWord::Streamed => {
            "it does not begin as a tree file does; of flat files FORMAT is vfsold or vfsold32"
        }
    }
}

/// What to do about a file of another kind.
fn kind_advice(given_by: FormatWord) -> &'static str {
    match given_by {
        FormatWord::Letter | FormatWord::Conversion => {
            "its header has another kind; -u is for users, -g for groups and -P for projects"
        }
        FormatWord::Served | FormatWord::Streamed => {
            "its header has another kind; KIND is user, group or project"
        }
    }
}

/// What to do about a file of another format.
pub(crate) fn other_advice(given_by: FormatWord) -> &'static str {
    match given_by {
        FormatWord::Letter => "leave -F away, or give that one",
        FormatWord::Conversion => "give that one as OLD in -f OLD,NEW",
        FormatWord::Served => "leave --format away, or give that one",
        FormatWord::Streamed => "give that one as FORMAT, or any",
    }
}

/// The name of a format.
pub(crate) fn format_name(format: Format) -> &'static str {
    match format {
        Format::V1 => "vfsold",
        Format::V1R32 => "vfsold32",
        Format::V2R0 => "vfsv0",
        Format::V2R1 => "vfsv1",
    }
}
