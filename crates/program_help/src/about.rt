ghost use Rattle.std.specs.Option.{option_map};
ghost use Rattle.std.specs.Prelude.{◌≡◌, ◌≤◌, ◌++◌, ◌⊎◌, [], IsTrue};
ghost use Rattle.option_words.specs.Items.{texts_of};
ghost use Rattle.outside.specs.Count.{Rose};
ghost use Rattle.outside.specs.Text.{AppendsPrefix};
ghost use Rattle.program_help.specs.About.{asked, asked_alone, asked_of, question_of};
ghost use Rattle.refusals.specs.Line.{error_line};
ghost use Rattle.refusals.specs.Refusals.{refusal_of};
ghost use Rattle.refusals.specs.Said.{AppendsUnless};
ghost use Rattle.refusals.specs.declared.cause.Cause.TheVariants.{SinkFault as OutputFault};

use outside::Sink;
use refusals::{Cause, Refusal, Word, refuse};
use std::alloc::Global;

/// What a program says about itself.
#[derive(Clone, Copy, Debug)]
pub enum About<'a> {
    /// Its commands, their words and the statuses.
    Help,
    /// Its name and its version.
    Version,
    /// How the command of this name is used, where it has one.
    Command(&'a str),
}

impl<'a> About<'a> {
    /// What words ask for: the one word `--help` or `--version`, or `--help` as the only word behind the name of a
    /// command.
    pub fn asked(words: &'a [String]) -> Option<Self>
        ensures { option_map question_of result ≡ asked (texts_of words.now) }
    {
        match words {
            [word] => About::alone(word.as_str()),
            [name, word] => About::of(name.as_str(), word.as_str()),
            _ => None,
        }
    }

    /// What a word asks for that stands alone.
    fn alone(word: &str) -> Option<Self>
        ensures { option_map question_of result ≡ asked_alone word.now }
    {
        if word == "--help" {
            Some(About::Help)
        } else if word == "--version" {
            Some(About::Version)
        } else {
            None
        }
    }

    /// What a word asks for behind a name.
    fn of(name: &'a str, word: &str) -> Option<Self>
        ensures { option_map question_of result ≡ asked_of name.now word.now }
    {
        if word == "--help" {
            Some(About::Command(name))
        } else {
            None
        }
    }
}

/// Writes a text to the output, and answers the status with which the program ends: 0, or that of a fault of the
/// output, of which the error output gets the line.
pub fn tell<O: Sink, E: Sink>(out: &mut O, err: &mut E, text: &str, alloc: Global) -> u8
    ensures told { result ≡ 0 → IsTrue O.tells
        → (O.seen out.new).written ≡ (O.seen out.old).written ++ text.now }
    ensures part { result ≡ 4 → IsTrue O.tells
        → AppendsPrefix (O.seen out.old).written (O.seen out.new).written text.now }
    ensures fault { (result ≡ 0) ⊎ ((result ≡ 4) × Rose (O.seen out.old).faults (O.seen out.new).faults) }
    // The error output gets nothing, or the line of a fault of the output.
    ensures quiet { result ≡ 0 → err.new ≡ err.old }
    ensures line { result ≡ 4 → IsTrue E.tells → AppendsUnless (Rose (E.seen err.old).faults (E.seen err.new).faults)
        (E.seen err.old).written (E.seen err.new).written (error_line (refusal_of OutputFault [])) }
    ensures later_out { (O.seen out.old).faults ≤ (O.seen out.new).faults }
    ensures later_err { (E.seen err.old).faults ≤ (E.seen err.new).faults }
{
    match out.write(text.as_bytes()) {
        Ok(()) => 0,
        Err(_) => refuse(err, &Refusal::of(Cause::SinkFault, Word::empty(alloc))),
    }
}
