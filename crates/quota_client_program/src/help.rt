ghost use Rattle.std.specs.Option.{option_map};
ghost use Rattle.std.specs.Prelude.{Some};
ghost use Rattle.option_words.specs.Items.{texts_of};
ghost use Rattle.program_help.specs.About.{asked, question_of};
ghost use Rattle.quota_client_program.specs.Help.{IsTold};

use program_help::About;

/// What `--help` writes.
const HELP: &str = "Usage: quota_client MODE PORT UID GID PATH...

Asks an rquotad on 127.0.0.1 for the limits and the usage of a user.

Modes:
  quota PORT UID GID PATH...
                        prints a line for each path: its limits and usage
  warn PORT UID GID PATH...
                        prints a line for each soft limit that is exceeded

PORT is the UDP port of the rquotad, from 1 to 65535. UID is the number of the
user, and GID that of a group of the user; both are sent with each call. There
are 1 to 16 paths, which are asked for one after another, each by at most three
calls. A call without an answer is waited for two seconds.

A path under which the server has no limits of the user is printed as none by
quota, and not at all by warn. One is denied whose limits the server does not
tell this user; refused where the server takes no such call; and no reply where
none came.

Exit status: 0 each path has limits or has none, 1 some path is denied, refused
or has no reply, 2 wrong words, 4 a fault of the system, 5 want of memory.

The manual page is the reference: man quota_client.
";

/// What `--version` writes.
const VERSION: &str = "quota_client 0.1.0
";

/// The text that words ask for, of what the program says about itself; none where they ask for nothing of that.
pub fn text_asked(words: &[String]) -> Option<&'static str>
    ensures { IsTold (asked (texts_of words.now)) (option_map (λ text. text.now) result) }
{
    text_about(About::asked(words)?)
}

/// The text about this, where there is one. The program has no commands.
fn text_about(about: About<'_>) -> Option<&'static str>
    ensures { IsTold (Some (question_of about.entry)) (option_map (λ text. text.now) result) }
{
    match about {
        About::Help => Some(HELP),
        About::Version => Some(VERSION),
        About::Command(_) => None,
    }
}
