ghost use Rattle.std.specs.Prelude.{◌≡◌, Ok, Err, MatchResult};
ghost use Rattle.command_words.specs.Asked.{asked_of, command_of, may_stand};
ghost use Rattle.option_words.specs.Items.{texts_of};
ghost use Rattle.command_words.specs.Usage.{IsFaultOf, IsUsageFault};

use crate::Command;
use crate::building::mode_command;
use crate::mode::{excludes, lacks, mode_of};
use option_words::{Fault, Tool, scan_words};
use refusals::UsageKind;
use std::alloc::{AllocError, Global};

/// Why words were not read.
#[derive(Clone, Copy, Debug, PartialEq, Eq)]
pub enum UsageFault {
    /// The words are outside the grammar.
    Usage {
        /// What is wrong.
        kind: UsageKind,
        /// The number of the word, counted from 0.
        word: u64,
    },
    /// There was not enough memory for the command's words.
    Memory,
}

impl From<AllocError> for UsageFault {
    ghost use Rattle.command_words.specs.declared.reading.UsageFault.TheVariants.{Memory};

    ghost from_gives = { λ _ fault. fault ≡ Memory };

    fn from(_: AllocError) -> Self {
        UsageFault::Memory
    }
}

impl From<Fault> for UsageFault {
    ghost use Rattle.command_words.specs.declared.reading.UsageFault.TheVariants.{Usage};

    ghost from_gives = { λ met fault. fault ≡ Usage met.kind met.word };

    fn from(met: Fault) -> Self {
        UsageFault::Usage {
            kind: met.kind,
            word: met.word,
        }
    }
}

/// The command that the words ask for. In a script the standard input is the script's, and `script` is no command.
///
/// # Errors
///
/// The words are outside the grammar, or there is not enough memory for a command that they ask for.
pub fn read_words(alloc: Global, words: &[String], in_script: bool) -> Result<Command, UsageFault>
    ensures { MatchResult result (λ command. command_of in_script (texts_of words.now) ≡ Ok command)
        (IsUsageFault (command_of in_script (texts_of words.now))) }
{
    let Some((name, behind)) = words.split_first() else {
        return Err(UsageFault::from(Fault::at(UsageKind::NoCommand, 0)));
    };
    match Tool::named(name.as_str()) {
        Some(tool) if may_stand(in_script, tool) => read_command(alloc, in_script, tool, behind),
        _ => Err(UsageFault::from(Fault::at(UsageKind::UnknownCommand, 0))),
    }
}

/// Whether a command may stand here: in a script there is none of another script.
fn may_stand(in_script: bool, tool: Tool) -> bool
    ensures { result ≡ may_stand in_script tool }
{
    !(in_script && matches!(tool, Tool::Script))
}

/// The command that the words behind its name ask for.
fn read_command(
    alloc: Global,
    in_script: bool,
    tool: Tool,
    behind: &[String],
) -> Result<Command, UsageFault>
    ensures { MatchResult result (λ command. asked_of in_script tool (texts_of behind.now) ≡ Ok command)
        (IsFaultOf (asked_of in_script tool (texts_of behind.now))) }
{
    let words = behind.len() + 1;
    let scan = scan_words(tool, behind)?;
    if excludes(tool, &scan.given) {
        return Err(UsageFault::from(Fault::at(UsageKind::Excludes, words)));
    }
    if lacks(in_script, tool, &scan.given) {
        return Err(UsageFault::from(Fault::at(UsageKind::MissingOption, words)));
    }
    let mode = mode_of(tool, &scan.given);
    mode_command(alloc, mode, &scan.given, scan.operands.as_slice(), words)
}
