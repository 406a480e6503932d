ghost use Rattle.std.specs.Prelude.{◌≡◌, [], IfErr, IfOk, IsTrue, None, unwrap_or, is_ok};
ghost use Rattle.outside.specs.Frame.{OnlyReads};
ghost use Rattle.run_steps.specs.Naming.{FileOfNamesMayRefuse, MayBeNames, NamesMayRefuse, names_of_file, names_seen};
ghost use Rattle.run_steps.specs.Causes.{IsNamesFault, load_cause, names_cause};
ghost use Rattle.refusals.specs.Outcome.{Passed};
ghost use Rattle.refusals.specs.Refusals.{nowhere};

use id_names::{Names, NamesFault};
use opened_file::{LoadFault, load};
use outside::Store;
use quota_types::Kind;
use refusals::{Cause, Refusal, Word};
use std::alloc::Global;

/// The most bytes of a file of names.
const MOST_NAMES: u64 = 16_777_216;

/// The names that a command is given: those of its file of names, or none.
///
/// # Errors
///
/// The file of names is not there, is too large, or has a line that breaks the rules; the store failed, or there is not
/// enough memory.
pub fn read_names<S: Store>(
    alloc: Global,
    kind: Kind,
    names: Option<Word>,
    store: &mut S,
) -> Result<Names, Refusal>
    ensures read { IfOk result
        (λ lines. IsTrue S.tells → names_seen kind names (S.seen store.old).files ≡ Passed lines) }
    ensures given { IfOk result (MayBeNames names) }
    ensures refused { IfErr result (λ refusal. IsNamesFault (S.seen store.old).faults (S.seen store.new).faults S.tells
        (names_seen kind names (S.seen store.old).files) refusal refusal.cause) }
    ensures may { IfErr result (λ refusal. NamesMayRefuse names refusal.cause refusal.name) }
    ensures placed { IfErr result (λ refusal. refusal.place ≡ nowhere) }
    ensures leaves { OnlyReads (is_ok result) (unwrap_or names []) (S.seen store.old) (S.seen store.new) }
    ensures commits { S.commits [] store.old store.new }
    ensures untouched { names ≡ None → store.new ≡ store.old }
{
    match names {
        None => Ok(Names::none(alloc)),
        Some(name) => read_names_file(alloc, kind, name, store),
    }
}

/// The names that a file tells.
fn read_names_file<S: Store>(
    alloc: Global,
    kind: Kind,
    name: Word,
    store: &mut S,
) -> Result<Names, Refusal>
    ensures read { IfOk result
        (λ lines. IsTrue S.tells → names_of_file kind name ((S.seen store.old).files name) ≡ Passed lines) }
    ensures refused { IfErr result (λ refusal. IsNamesFault (S.seen store.old).faults (S.seen store.new).faults S.tells
        (names_of_file kind name ((S.seen store.old).files name)) refusal refusal.cause) }
    ensures may { IfErr result (λ refusal. FileOfNamesMayRefuse name refusal.cause refusal.name) }
    ensures placed { IfErr result (λ refusal. refusal.place ≡ nowhere) }
    ensures leaves { OnlyReads (is_ok result) name (S.seen store.old) (S.seen store.new) }
    ensures commits { S.commits [] store.old store.new }
{
    match load(alloc, store, name.as_str(), MOST_NAMES) {
        Ok(bytes) => match Names::read(alloc, &bytes, kind) {
            Ok(names) => Ok(names),
            Err(fault) => Err(Refusal::of(names_cause(fault), name)),
        },
        Err(fault) => Err(Refusal::of(load_cause(fault), name)),
    }
}

/// What is said where the lines of a file of names were not read.
fn names_cause(fault: NamesFault) -> Cause
    ensures { result ≡ names_cause fault }
{
    match fault {
        NamesFault::BadLine(line) => Cause::BadLine(line),
        NamesFault::Memory => Cause::Memory,
    }
}

/// What is said where a file could not be read whole.
pub fn load_cause(fault: LoadFault) -> Cause
    ensures { result ≡ load_cause fault }
{
    match fault {
        LoadFault::Store => Cause::StoreFault,
        LoadFault::NoFile => Cause::NoFile,
        LoadFault::TooLarge => Cause::TooLarge,
        LoadFault::Memory => Cause::Memory,
    }
}
