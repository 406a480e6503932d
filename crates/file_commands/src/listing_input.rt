ghost use Rattle.std.specs.Prelude.{◌≡◌, ◌≤◌, [], false, IfErr, IfOk, IsSome, IsTrue, None, OnOk, Some, unwrap_or};
ghost use Rattle.std.specs.Prelude.{is_ok};
ghost use Rattle.outside.specs.Behind.{IsBehind};
ghost use Rattle.outside.specs.Count.{Rose};
ghost use Rattle.outside.specs.Frame.{OnlyReads};
ghost use Rattle.input_text.specs.InputLeft.{left_from};
ghost use Rattle.refusals.specs.Outcome.{Passed};
ghost use Rattle.run_steps.specs.Taking.{AListing, InputMayRefuse, file_said, input_said};
ghost use Rattle.run_steps.specs.Causes.{IsInputFault};
ghost use Rattle.file_commands.specs.Check.{scan_cause, scan_step};
ghost use Rattle.refusals.specs.declared.cause.Cause.TheVariants.{StoreFault as StoreFailed};
ghost use Rattle.refusals.specs.Refusals.{nowhere, refusal_of};

use inode_scan::{ScanFault, Usage, scan};
use input_text::{StoreInput, StoreSource};
use outside::{Source, Store};
use quota_types::Kind;
use refusals::{Cause, Refusal, Word};
use std::alloc::Global;

/// The usage of users, groups or projects that a listing tells, of one device or of all. It stands in the file of this
/// name, or in the input where no file is named.
///
/// # Errors
///
/// The file is not there; a line is bad, too long, or conflicts with an earlier one; the listing is too large; the
/// store or the input failed; or there is not enough memory.
pub fn take_usage<S: Store, I: Source>(
    alloc: Global,
    kind: Kind,
    device: Option<u64>,
    from: Option<Word>,
    store: &mut S,
    input: &mut I,
) -> Result<Usage, Refusal>
    ensures read { IfOk result (λ usage. IsTrue S.tells → (from ≡ None → IsTrue I.tells)
        → input_said from (scan_step kind device from) (S.seen store.old).files (I.seen input.old).left
        ≡ Passed usage) }
    ensures ended { OnOk result (from ≡ None → IsTrue I.tells → (I.seen input.new).left ≡ []) }
    ensures behind { (from ≡ None → IsTrue I.tells) → IsBehind (I.seen input.old).left (I.seen input.new).left }
    ensures untouched { IsSome from → input.new ≡ input.old }
    ensures refused { IfErr result (λ refusal. IsInputFault (Rose (S.seen store.old).faults (S.seen store.new).faults)
        (Rose (I.seen input.old).faults (I.seen input.new).faults) (IsTrue S.tells × (from ≡ None → IsTrue I.tells))
        (input_said from (scan_step kind device from) (S.seen store.old).files (I.seen input.old).left) refusal
        refusal.cause) }
    ensures may { IfErr result (λ refusal. InputMayRefuse AListing from refusal.cause refusal.name) }
    ensures placed { IfErr result (λ refusal. refusal.place ≡ nowhere) }
    ensures leaves { OnlyReads (is_ok result) (unwrap_or from []) (S.seen store.old) (S.seen store.new) }
    ensures commits { S.commits [] store.old store.new }
    ensures later { (I.seen input.old).faults ≤ (I.seen input.new).faults }
    ensures keeps { I.keeps false input.old input.new }
{
    match from {
        Some(name) => scan_file(alloc, kind, device, name, store),
        None => scan_input(alloc, kind, device, input),
    }
}

/// The usage that a listing in the input tells.
fn scan_input<I: Source>(
    alloc: Global,
    kind: Kind,
    device: Option<u64>,
    input: &mut I,
) -> Result<Usage, Refusal>
    ensures read { IfOk result
        (λ usage. IsTrue I.tells → scan_step kind device None (I.seen input.old).left ≡ Passed usage) }
    ensures ended { OnOk result (IsTrue I.tells → (I.seen input.new).left ≡ []) }
    ensures behind { IsTrue I.tells → IsBehind (I.seen input.old).left (I.seen input.new).left }
    ensures refused { IfErr result (λ refusal. IsInputFault ⊥
        (Rose (I.seen input.old).faults (I.seen input.new).faults) (IsTrue I.tells)
        (scan_step kind device None (I.seen input.old).left) refusal refusal.cause) }
    ensures may { IfErr result (λ refusal. InputMayRefuse AListing None refusal.cause refusal.name) }
    ensures placed { IfErr result (λ refusal. refusal.place ≡ nowhere) }
    ensures later { (I.seen input.old).faults ≤ (I.seen input.new).faults }
    ensures keeps { I.keeps false input.old input.new }
{
    match scan(alloc, input, kind, device) {
        Ok(usage) => Ok(usage),
        Err(fault) => Err(Refusal::of(scan_cause(Cause::SourceFault, fault), Word::empty(alloc))),
    }
}

/// The usage that a listing in a file tells.
fn scan_file<S: Store>(
    alloc: Global,
    kind: Kind,
    device: Option<u64>,
    name: Word,
    store: &mut S,
) -> Result<Usage, Refusal>
    ensures read { IfOk result (λ usage. IsTrue S.tells
        → file_said name (scan_step kind device (Some name)) ((S.seen store.old).files name) ≡ Passed usage) }
    ensures refused { IfErr result (λ refusal. IsInputFault
        (Rose (S.seen store.old).faults (S.seen store.new).faults) ⊥ (IsTrue S.tells)
        (file_said name (scan_step kind device (Some name)) ((S.seen store.old).files name)) refusal refusal.cause) }
    ensures may { IfErr result (λ refusal. InputMayRefuse AListing (Some name) refusal.cause refusal.name) }
    ensures placed { IfErr result (λ refusal. refusal.place ≡ nowhere) }
    ensures leaves { OnlyReads (is_ok result) name (S.seen store.old) (S.seen store.new) }
    ensures commits { S.commits [] store.old store.new }
{
    match store.size(name.as_str()) {
        Ok(Some(_)) => scan_there(alloc, kind, device, name, store),
        Ok(None) => Err(Refusal::of(Cause::NoFile, name)),
        Err(_) => Err(Refusal::of(Cause::StoreFault, name)),
    }
}

/// The usage that a listing in a file tells that is there.
fn scan_there<S: Store>(
    alloc: Global,
    kind: Kind,
    device: Option<u64>,
    name: Word,
    store: &mut S,
) -> Result<Usage, Refusal>
    ensures read { IfOk result (λ usage. IsTrue S.tells
        → scan_step kind device (Some name) (left_from ((S.seen store.old).files name) 0) ≡ Passed usage) }
    ensures refused { IfErr result (λ refusal. IsInputFault
        (Rose (S.seen store.old).faults (S.seen store.new).faults) ⊥ (IsTrue S.tells)
        (scan_step kind device (Some name) (left_from ((S.seen store.old).files name) 0)) refusal refusal.cause) }
    ensures may { IfErr result (λ refusal. InputMayRefuse AListing (Some name) refusal.cause refusal.name) }
    ensures placed { IfErr result (λ refusal. refusal.place ≡ nowhere) }
    ensures leaves { OnlyReads (is_ok result) name (S.seen store.old) (S.seen store.new) }
    ensures commits { S.commits [] store.old store.new }
{
    let mut source = StoreSource {
        name: name.into_string(),
        at: 0,
    };
    let mut input = StoreInput {
        source: &mut source,
        store,
    };
    match scan(alloc, &mut input, kind, device) {
        Ok(usage) => Ok(usage),
        Err(fault) => Err(listing_refusal(fault, Word::of(source.name))),
    }
}

/// The refusal of a listing in the file of this name.
fn listing_refusal(fault: ScanFault, name: Word) -> Refusal
    ensures { result ≡ refusal_of (scan_cause StoreFailed fault) name }
{
    Refusal::of(scan_cause(Cause::StoreFault, fault), name)
}

/// What is said of a listing that gives no usage, where this is said of what it is read from.
pub(crate) fn scan_cause(failed: Cause, fault: ScanFault) -> Cause
    ensures { result ≡ scan_cause failed fault }
{
    match fault {
        ScanFault::Source => failed,
        ScanFault::TooLarge => Cause::TooLarge,
        ScanFault::BadLine(line) => Cause::BadLine(line),
        ScanFault::LongLine(line) => Cause::LongLine(line),
        ScanFault::Conflict { line, first } => Cause::Conflict { line, first },
        ScanFault::Memory => Cause::Memory,
    }
}
