ghost use Rattle.std.specs.Option.{option_map};
ghost use Rattle.std.specs.Prelude.{Some};
ghost use Rattle.option_words.specs.Items.{texts_of};
ghost use Rattle.program_help.specs.About.{asked, question_of};
ghost use Rattle.quota_program.specs.Help.{IsTold};

use crate::usages::usage_text;
use option_words::Tool;
use program_help::About;

/// What `--help` writes.
const HELP: &str = "Usage: quota_cli COMMAND [OPTION]... [OPERAND]...
   or: quota_cli COMMAND --help

The Linux disk quota tools, for quota files while quotas are off.

Examples:
    quota_cli repquota -u --names /etc/passwd /home/aquota.user
    quota_cli setquota -u --names /etc/passwd alice 100M 200M 1k 2k \\
        /home/aquota.user
    quota_cli setquota --help

Commands:
  repquota [-u|-g|-P] [-v] [-n] [-p] [-F FORMAT] [--names FILE] FILE
                        the report of a quota file
  setquota [-u|-g|-P] [-F FORMAT] [--names FILE]
           NAME BSOFT BHARD ISOFT IHARD FILE
                        new limits of one identifier
  setquota [-u|-g|-P] [-F FORMAT] [--names FILE] -p PROTO NAME FILE
                        the limits of another identifier
  setquota [-u|-g|-P] [-F FORMAT] [--names FILE] -t BGRACE IGRACE FILE
                        new grace periods, in seconds
  setquota [-u|-g|-P] [-F FORMAT] [--names FILE] -T NAME BTIME ITIME FILE
                        what is left of the grace periods of one identifier
  setquota [-u|-g|-P] [-F FORMAT] [--names FILE] -b [--input FILE] FILE
                        new limits of many identifiers, a line of input each
  edquota  [-u|-g|-P] [-F FORMAT] [--names FILE] --print NAME FILE
                        the limits of one identifier as a form
  edquota  [-u|-g|-P] [-F FORMAT] [--names FILE]
           --apply [--input FILE] NAME FILE
                        the limits that such a form asks for
  quotacheck [-u|-g|-P] [-c] [-F FORMAT] [--device NUMBER] [--input FILE] FILE
                        the usage that a listing of inodes tells, as
                        find -printf '%U %G %D %i %b\\n' prints it; with -c in
                        a new file, without limits, whatever was there
  convertquota [-u|-g|-P] -f OLD,NEW SOURCE TARGET
                        a new file in another format, from one that stays
  rquotad  [--format FORMAT] --calls NUMBER --port NUMBER
           (--export PATH KIND FILE)...
                        so many calls of rquota on 127.0.0.1 are answered
  script                the commands in the lines of standard input, one after
                        another; those that read input need --input there
  generate SEED COUNT FILE
                        a quota file out of a listing that is made, to try with

-u is for users, which is the default, -g for groups and -P for projects; with
-P the second word of a listing's line is the project, in place of the group.
FORMAT is vfsold, vfsold32, vfsv0 or vfsv1; without it the file says which of
the last two it has, and projects have neither of the first two. KIND is user,
group or project. Limits of blocks are in KiB and may end in K, M, G or T,
those of inodes in k, m, g or t. A time is a number of seconds, or unset.
--names names a file in the form of passwd(5) or group(5), or one with lines
NAME:NUMBER of projects; without it NAME is a number. --input names the file
that is read in place of standard input. --device NUMBER counts one device.

Exit status: 0 done, 1 refused, 2 wrong words, 3 not a quota file that is asked
for, or a damaged one, 4 a fault of the system, 5 want of memory.

The manual pages are the reference: man quota_cli, and for a command with a
page of its own man quota_cli-setquota and its like. In the program's
repository they stand in docs/, beside FORMATS.md, which has the bytes of quota
files, and PROMISES.md, which has what is proved.
";

/// What `--version` writes.
const VERSION: &str = "quota_cli 0.1.0 (vfsold, vfsold32, vfsv0, vfsv1)
";

/// The text that words ask for, of what the program says about itself; none where they ask for nothing of that.
pub fn text_asked(words: &[String]) -> Option<&'static str>
    ensures { IsTold (asked (texts_of words.now)) (option_map (λ text. text.now) result) }
{
    text_about(About::asked(words)?)
}

/// The text about this, where there is one.
fn text_about(about: About<'_>) -> Option<&'static str>
    ensures { IsTold (Some (question_of about.entry)) (option_map (λ text. text.now) result) }
{
    match about {
        About::Help => Some(HELP),
        About::Version => Some(VERSION),
        About::Command(name) => Some(usage_text(Tool::named(name)?)),
    }
}
