ghost use Rattle.std.specs.Prelude.{◌≡◌};
ghost use Rattle.command_words.specs.Usage.{usage_refusal};
ghost use Rattle.command_table.specs.Table.{unknown_command};

use command_words::UsageFault;
use refusals::{Cause, Refusal, UsageKind, Word};
use std::alloc::Global;

/// What is said of words that were not read.
pub fn usage_refusal(alloc: Global, fault: UsageFault) -> Refusal
    ensures { result ≡ usage_refusal fault }
{
    let cause = match fault {
        UsageFault::Usage { kind, word } => Cause::Usage { kind, word },
        UsageFault::Memory => Cause::Memory,
    };
    Refusal::of(cause, Word::empty(alloc))
}

/// What is said of a command that is unknown.
pub fn unknown_command(alloc: Global) -> Refusal
    ensures { result ≡ unknown_command }
{
    let cause = Cause::Usage {
        kind: UsageKind::UnknownCommand,
        word: 0,
    };
    Refusal::of(cause, Word::empty(alloc))
}
