//! How each command is used: its forms, its options, the formats and two examples.

ghost use Rattle.std.specs.Prelude.{IsTrue, nat_eq};
ghost use Rattle.std.specs.List.{starts_with};
ghost use Rattle.quota_program.specs.Help.{usage_of};

use option_words::Tool;

/// What `repquota --help` writes.
const REPQUOTA: &str =
    "Usage: quota_cli repquota [-u|-g|-P] [-v] [-n] [-p] [-F FORMAT] [--names FILE]
                          FILE

Writes a report of FILE: the grace periods, and a line for each user, group or
project that has a record.

Options:
  -u, -g, -P    users, which is the default, groups or projects
  -v            shows those that use nothing, too
  -n            shows # and the identifier in place of each name
  -p            shows when a period ends, in seconds since 1970
  -F FORMAT     the format of FILE
  --names FILE  the file of names, in the form of passwd(5) or group(5); that
                of projects has lines NAME:NUMBER, as projid(5)

FORMAT is vfsold, vfsold32, vfsv0 or vfsv1. Without -F the file says which of
the last two it has; a flat file needs -F vfsold, or -F vfsold32 where its
records have 32 bytes, and projects have none.

Examples:
    quota_cli repquota -u --names /etc/passwd /home/aquota.user
    quota_cli repquota -g --names /etc/group /home/aquota.group

The manual page is the reference: man quota_cli-repquota.
";

/// What `setquota --help` writes.
const SETQUOTA: &str = "Usage: quota_cli setquota [-u|-g|-P] [-F FORMAT] [--names FILE]
                          NAME BSOFT BHARD ISOFT IHARD FILE
   or: quota_cli setquota [-u|-g|-P] [-F FORMAT] [--names FILE]
                          -p PROTO NAME FILE
   or: quota_cli setquota [-u|-g|-P] [-F FORMAT] [--names FILE]
                          -t BGRACE IGRACE FILE
   or: quota_cli setquota [-u|-g|-P] [-F FORMAT] [--names FILE]
                          -T NAME BTIME ITIME FILE
   or: quota_cli setquota [-u|-g|-P] [-F FORMAT] [--names FILE]
                          -b [--input FILE] FILE

Sets the limits of NAME in FILE: the soft and the hard limit of blocks, then
those of inodes; or what one of the options -p, -t, -T and -b says.

Options:
  -u, -g, -P    a user, which is the default, a group or a project
  -F FORMAT     the format of FILE
  --names FILE  the file of names, in the form of passwd(5) or group(5); that
                of projects has lines NAME:NUMBER, as projid(5); without it
                NAME and PROTO are numbers
  -p PROTO      NAME gets the limits of PROTO
  -t            sets the grace periods of FILE, in seconds
  -T            sets how long the grace periods of NAME last from now on: a
                number of seconds, or unset
  -b            sets the limits of many: each line of standard input has the
                words NAME BSOFT BHARD ISOFT IHARD
  --input FILE  the lines of -b are read from this file

Limits of blocks are in KiB and may end in K, M, G or T, those of inodes in k,
m, g or t; 0 is no limit.

FORMAT is vfsold, vfsold32, vfsv0 or vfsv1. Without -F the file says which of
the last two it has; a flat file needs -F vfsold, or -F vfsold32 where its
records have 32 bytes, and projects have none.

Examples:
    quota_cli setquota -u --names /etc/passwd alice 100M 200M 1k 2k \\
        /home/aquota.user
    quota_cli setquota -u --names /etc/passwd -b --input lines \\
        /home/aquota.user

The manual page is the reference: man quota_cli-setquota.
";

/// What `edquota --help` writes.
const EDQUOTA: &str = "Usage: quota_cli edquota [-u|-g|-P] [-F FORMAT] [--names FILE]
                         --print NAME FILE
   or: quota_cli edquota [-u|-g|-P] [-F FORMAT] [--names FILE]
                         --apply [--input FILE] NAME FILE

Prints the limits of NAME in FILE as a form, or reads one that was changed, and
sets its limits. No editor is started.

Options:
  -u, -g, -P    a user, which is the default, a group or a project
  -F FORMAT     the format of FILE
  --names FILE  the file of names, in the form of passwd(5) or group(5); that
                of projects has lines NAME:NUMBER, as projid(5); without it
                NAME is a number
  --print       writes the form to standard output
  --apply       reads the form from standard input, and sets its limits
  --input FILE  the form of --apply is read from this file

FORMAT is vfsold, vfsold32, vfsv0 or vfsv1. Without -F the file says which of
the last two it has; a flat file needs -F vfsold, or -F vfsold32 where its
records have 32 bytes, and projects have none.

Examples:
    quota_cli edquota --print -u --names /etc/passwd alice \\
        /home/aquota.user >form
    quota_cli edquota --apply -u --names /etc/passwd --input form alice \\
        /home/aquota.user

The manual page is the reference: man quota_cli-edquota.
";

/// What `quotacheck --help` writes.
const QUOTACHECK: &str = "Usage: quota_cli quotacheck [-u|-g|-P] [-c] [-F FORMAT] [--device NUMBER]
                            [--input FILE] FILE

Sets the use of all users, groups or projects in FILE to what a listing of
inodes says, and keeps their limits. The listing has the lines of
find -printf '%U %G %D %i %b\\n', and is read from standard input. With -P the
second word of a line is the project, which find cannot print.

Options:
  -u, -g, -P       users, which is the default, groups or projects
  -c               makes a new file, without limits, whatever was there
  -F FORMAT        the format of FILE
  --device NUMBER  counts only the lines of this device
  --input FILE     the listing is read from this file

FORMAT is vfsold, vfsold32, vfsv0 or vfsv1. Without -F the file says which of
the last two it has, and a new one is vfsv1; a flat file needs -F vfsold, or
-F vfsold32 where its records have 32 bytes, and projects have none.

Examples:
    find /home -xdev ! -path /home/aquota.user ! -path /home/aquota.group \\
        -printf '%U %G %D %i %b\\n' >/root/listing &&
        quota_cli quotacheck -u --device \"$(stat -c %d /home)\" \\
            --input /root/listing /home/aquota.user
    quota_cli quotacheck -c -g --input /root/listing /home/aquota.group

The manual page is the reference: man quota_cli-quotacheck.
";

/// What `convertquota --help` writes.
const CONVERTQUOTA: &str = "Usage: quota_cli convertquota [-u|-g|-P] -f OLD,NEW SOURCE TARGET

Makes TARGET, a quota file of format NEW, from SOURCE, which has format OLD and
stays as it is. TARGET may not be there.

Options:
  -u, -g, -P  both files are those of users, which is the default, of groups or
              of projects
  -f OLD,NEW  the two formats, which may be the same

OLD and NEW are vfsold, vfsold32, vfsv0 or vfsv1; projects have neither of the
first two, which are flat: with records of 40 bytes, and of 32.

Examples:
    quota_cli convertquota -u -f vfsv0,vfsv1 /home/aquota.user \\
        /home/aquota.user.vfsv1
    quota_cli convertquota -u -f vfsold,vfsv1 /home/quota.user \\
        /home/aquota.user

The manual page is the reference: man quota_cli-convertquota.
";

/// What `rquotad --help` writes.
const RQUOTAD: &str = "Usage: quota_cli rquotad [--format FORMAT] --calls NUMBER --port NUMBER
                         (--export PATH KIND FILE)...

Answers calls of rquota over UDP at 127.0.0.1.

Options:
  --format FORMAT          the format of all files
  --calls NUMBER           takes this number of datagrams, and then ends
  --port NUMBER            the UDP port; with 0 the system chooses one
  --export PATH KIND FILE  clients ask for FILE by PATH; KIND is user, group or
                           project, of which the superuser alone is told; there
                           are 1 to 16 exports

FORMAT is vfsold, vfsold32, vfsv0 or vfsv1. Without --format each file says
which of the last two it has; flat files need --format vfsold, or
--format vfsold32 where their records have 32 bytes, and projects have none.

Examples:
    quota_cli rquotad --calls 1000 --port 8750 \\
        --export /home user /home/aquota.user
    quota_cli rquotad --calls 1000 --port 8750 \\
        --export /home user /home/aquota.user \\
        --export /home group /home/aquota.group

The manual page is the reference: man quota_cli-rquotad.
";

/// What `script --help` writes.
const SCRIPT: &str = "Usage: quota_cli script

Runs the lines of standard input as commands, one after another. A line has the
words of one command, with spaces and tabs between them and no quoting; lines
without words, and those that begin with #, are passed over. The first line
whose status is not 0 ends the script, and this is its status.

It has no options. Commands that read standard input need --input there.

The formats are those of its commands: vfsold, vfsold32, vfsv0 and vfsv1.

Examples:
    quota_cli script <commands
    echo 'repquota -u --names /etc/passwd /home/aquota.user' | quota_cli script

The manual page is the reference: man quota_cli.
";

/// What `generate --help` writes.
const GENERATE: &str = "Usage: quota_cli generate SEED COUNT FILE

Makes up a listing of COUNT lines from SEED, and makes FILE of it, a quota file
of users, whatever was there. It is there to try and to measure the program.
SEED is below 2^64, and COUNT is 1 to 1,000,000.

It has no options.

The format of FILE is vfsv1.

Examples:
    quota_cli generate 0 1000 /root/made.user
    quota_cli generate 1 100000 /root/large.user

The manual page is the reference: man quota_cli.
";

/// How a command is used.
pub fn usage_text(tool: Tool) -> &'static str
    ensures { IsTrue (starts_with nat_eq result.now (usage_of tool)) }
{
    match tool {
        Tool::Repquota => REPQUOTA,
        Tool::Setquota => SETQUOTA,
        Tool::Edquota => EDQUOTA,
        Tool::Quotacheck => QUOTACHECK,
        Tool::Convertquota => CONVERTQUOTA,
        Tool::Rquotad => RQUOTAD,
        Tool::Script => SCRIPT,
        Tool::Generate => GENERATE,
    }
}
