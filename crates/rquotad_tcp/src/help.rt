ghost use Rattle.std.specs.Option.{option_map};
ghost use Rattle.std.specs.Prelude.{Some};
ghost use Rattle.option_words.specs.Items.{texts_of};
ghost use Rattle.program_help.specs.About.{asked, question_of};
ghost use Rattle.rquotad_tcp.specs.Help.{IsTold};

use program_help::About;

/// What `--help` writes.
const HELP: &str = "Usage: rquotad_tcp PORT CONNECTIONS FORMAT PATH KIND FILE...

Answers calls of rquota over TCP at 127.0.0.1, one connection after another.

PORT is the TCP port; with 0 the system chooses one. CONNECTIONS is how many
connections are accepted; then the program ends. FORMAT is the format of all
files: vfsold, vfsold32, vfsv0 or vfsv1, or any, with which each file says
which of the last two it has; projects have no flat files.

There are 1 to 16 times PATH KIND FILE: clients ask for FILE by PATH, and KIND
is user, group or project, of which the superuser alone is told.

Examples:
    rquotad_tcp 8750 1000 any /home user /home/aquota.user
    rquotad_tcp 8750 1000 any /home user /home/aquota.user \\
        /home group /home/aquota.group

Exit status: 0 done, 1 refused, 2 wrong words, 3 not a quota file that is asked
for, or a damaged one, 4 a fault of the system, 5 want of memory.

The manual page is the reference: man rquotad_tcp.
";

/// What `--version` writes.
const VERSION: &str = "rquotad_tcp 0.1.0
";

/// The text that words ask for, of what the program says about itself; none where they ask for nothing of that.
pub fn text_asked(words: &[String]) -> Option<&'static str>
    ensures { IsTold (asked (texts_of words.now)) (option_map (λ text. text.now) result) }
{
    text_about(About::asked(words)?)
}

/// The text about this, where there is one. The program has no commands.
fn text_about(about: About<'_>) -> Option<&'static str>
    ensures { IsTold (Some (question_of about.entry)) (option_map (λ text. text.now) result) }
{
    match about {
        About::Help => Some(HELP),
        About::Version => Some(VERSION),
        About::Command(_) => None,
    }
}
