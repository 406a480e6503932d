ghost use Rattle.std.specs.Prelude.{◌≡◌, ◌≤◌, [], false, is_ok, IfErr, IfOk, IsSome, IsTrue, None, OnOk, Some};
ghost use Rattle.std.specs.Prelude.{unwrap_or};
ghost use Rattle.id_names.specs.FirstMatch.{first_name};
ghost use Rattle.outside.specs.Behind.{IsBehind};
ghost use Rattle.outside.specs.Count.{Rose};
ghost use Rattle.outside.specs.Frame.{OnlyReads};
ghost use Rattle.input_text.specs.InputLeft.{left_from};
ghost use Rattle.report_text.specs.Report.{shown_name};
ghost use Rattle.set_edit.specs.FormReading.{form_read};
ghost use Rattle.set_edit.specs.FormFaults.{IsFormFault};
ghost use Rattle.refusals.specs.Outcome.{Passed};
ghost use Rattle.run_steps.specs.Taking.{file_said, input_said};
ghost use Rattle.run_steps.specs.Causes.{IsInputFault};
ghost use Rattle.edit_commands.specs.Apply.{FormMayRefuse, form_cause, form_step};
ghost use Rattle.refusals.specs.declared.cause.Cause.TheVariants.{StoreFault as StoreFailed};
ghost use Rattle.refusals.specs.Refusals.{nowhere, refusal_of};

use crate::print::numbered;
use id_names::Names;
use input_text::{LineFault, StoreInput, StoreSource};
use outside::{Source, Store};
use quota_types::Kind;
use refusals::{Cause, Refusal, Word};
use set_edit::{FormFault, Limits, read_form};
use std::alloc::Global;

/// The limits that the form of an identifier asks for. It stands in the file of this name, or in the input where no
/// file is named.
///
/// # Errors
///
/// The file is not there; the form is not as it has to be, or too long; or the store or the input failed.
pub fn take_form<S: Store, I: Source>(
    alloc: Global,
    names: &Names,
    kind: Kind,
    id: u32,
    file: &str,
    from: Option<Word>,
    store: &mut S,
    input: &mut I,
) -> Result<Limits, Refusal>
    ensures read { IfOk result (λ limits. IsTrue S.tells → (from ≡ None → IsTrue I.tells)
        → input_said from (form_step kind names.now file.now id from) (S.seen store.old).files (I.seen input.old).left
        ≡ Passed limits) }
    ensures ended { OnOk result (from ≡ None → IsTrue I.tells → (I.seen input.new).left ≡ []) }
    ensures behind { (from ≡ None → IsTrue I.tells) → IsBehind (I.seen input.old).left (I.seen input.new).left }
    ensures untouched { IsSome from → input.new ≡ input.old }
    ensures refused { IfErr result (λ refusal. IsInputFault (Rose (S.seen store.old).faults (S.seen store.new).faults)
        (Rose (I.seen input.old).faults (I.seen input.new).faults) (IsTrue S.tells × (from ≡ None → IsTrue I.tells))
        (input_said from (form_step kind names.now file.now id from) (S.seen store.old).files (I.seen input.old).left)
        refusal refusal.cause) }
    ensures may { IfErr result (λ refusal. FormMayRefuse from refusal.cause refusal.name) }
    ensures placed { IfErr result (λ refusal. refusal.place ≡ nowhere) }
    ensures leaves { OnlyReads (is_ok result) (unwrap_or from []) (S.seen store.old) (S.seen store.new) }
    ensures commits { S.commits [] store.old store.new }
    ensures later { (I.seen input.old).faults ≤ (I.seen input.new).faults }
    ensures keeps { I.keeps false input.old input.new }
{
    match from {
        Some(name) => read_form_file(names, kind, id, file, name, store),
        None => read_form_input(alloc, names, kind, id, file, input),
    }
}

/// The limits that a form in the input asks for.
fn read_form_input<I: Source>(
    alloc: Global,
    names: &Names,
    kind: Kind,
    id: u32,
    file: &str,
    input: &mut I,
) -> Result<Limits, Refusal>
    ensures read { IfOk result (λ limits. IsTrue I.tells
        → form_step kind names.now file.now id None (I.seen input.old).left ≡ Passed limits) }
    ensures ended { OnOk result (IsTrue I.tells → (I.seen input.new).left ≡ []) }
    ensures behind { IsTrue I.tells → IsBehind (I.seen input.old).left (I.seen input.new).left }
    ensures refused { IfErr result (λ refusal. IsInputFault ⊥
        (Rose (I.seen input.old).faults (I.seen input.new).faults) (IsTrue I.tells)
        (form_step kind names.now file.now id None (I.seen input.old).left) refusal refusal.cause) }
    ensures may { IfErr result (λ refusal. FormMayRefuse None refusal.cause refusal.name) }
    ensures placed { IfErr result (λ refusal. refusal.place ≡ nowhere) }
    ensures later { (I.seen input.old).faults ≤ (I.seen input.new).faults }
    ensures keeps { I.keeps false input.old input.new }
{
    match read_form_of(input, names, kind, id, file) {
        Ok(limits) => Ok(limits),
        Err(fault) => Err(Refusal::of(form_cause(Cause::SourceFault, fault), Word::empty(alloc))),
    }
}

/// The limits that a form in a file asks for.
fn read_form_file<S: Store>(
    names: &Names,
    kind: Kind,
    id: u32,
    file: &str,
    name: Word,
    store: &mut S,
) -> Result<Limits, Refusal>
    ensures read { IfOk result (λ limits. IsTrue S.tells
        → file_said name (form_step kind names.now file.now id (Some name)) ((S.seen store.old).files name)
        ≡ Passed limits) }
    ensures refused { IfErr result (λ refusal. IsInputFault
        (Rose (S.seen store.old).faults (S.seen store.new).faults) ⊥ (IsTrue S.tells)
        (file_said name (form_step kind names.now file.now id (Some name)) ((S.seen store.old).files name)) refusal
        refusal.cause) }
    ensures may { IfErr result (λ refusal. FormMayRefuse (Some name) refusal.cause refusal.name) }
    ensures placed { IfErr result (λ refusal. refusal.place ≡ nowhere) }
    ensures leaves { OnlyReads (is_ok result) name (S.seen store.old) (S.seen store.new) }
    ensures commits { S.commits [] store.old store.new }
{
    match store.size(name.as_str()) {
        Ok(Some(_)) => read_form_there(names, kind, id, file, name, store),
        Ok(None) => Err(Refusal::of(Cause::NoFile, name)),
        Err(_) => Err(Refusal::of(Cause::StoreFault, name)),
    }
}

/// The limits that a form in a file asks for that is there.
fn read_form_there<S: Store>(
    names: &Names,
    kind: Kind,
    id: u32,
    file: &str,
    name: Word,
    store: &mut S,
) -> Result<Limits, Refusal>
    ensures read { IfOk result (λ limits. IsTrue S.tells
        → form_step kind names.now file.now id (Some name) (left_from ((S.seen store.old).files name) 0)
        ≡ Passed limits) }
    ensures refused { IfErr result (λ refusal. IsInputFault
        (Rose (S.seen store.old).faults (S.seen store.new).faults) ⊥ (IsTrue S.tells)
        (form_step kind names.now file.now id (Some name) (left_from ((S.seen store.old).files name) 0)) refusal
        refusal.cause) }
    ensures may { IfErr result (λ refusal. FormMayRefuse (Some name) refusal.cause refusal.name) }
    ensures placed { IfErr result (λ refusal. refusal.place ≡ nowhere) }
    ensures leaves { OnlyReads (is_ok result) name (S.seen store.old) (S.seen store.new) }
    ensures commits { S.commits [] store.old store.new }
{
    let mut source = StoreSource {
        name: name.into_string(),
        at: 0,
    };
    let mut input = StoreInput {
        source: &mut source,
        store,
    };
    match read_form_of(&mut input, names, kind, id, file) {
        Ok(limits) => Ok(limits),
        Err(fault) => Err(form_refusal(fault, Word::of(source.name))),
    }
}

/// The refusal of a form in the file of this name.
fn form_refusal(fault: FormFault, name: Word) -> Refusal
    ensures { result ≡ refusal_of (form_cause StoreFailed fault) name }
{
    Refusal::of(form_cause(Cause::StoreFault, fault), name)
}

/// The limits that the form of an identifier asks for, which a source gives.
fn read_form_of<I: Source>(
    source: &mut I,
    names: &Names,
    kind: Kind,
    id: u32,
    file: &str,
) -> Result<Limits, FormFault>
    ensures limits { IfOk result (λ limits. IsTrue I.tells
        → form_read kind (shown_name (first_name names.now) id) id file.now (I.seen source.old).left ≡ Ok limits) }
    ensures ended { OnOk result (IsTrue I.tells → (I.seen source.new).left ≡ []) }
    ensures refused { IfErr result (IsFormFault (I.seen source.old).faults (I.seen source.new).faults I.tells
        (form_read kind (shown_name (first_name names.now) id) id file.now (I.seen source.old).left)) }
    ensures later { (I.seen source.old).faults ≤ (I.seen source.new).faults }
    ensures keeps { I.keeps (is_ok result) source.old source.new }
{
    match names.name_of(id) {
        Some(name) => read_form(source, kind, name, id, file),
        None => read_form(source, kind, numbered(id).as_slice(), id, file),
    }
}

/// What is said of a form that gives no limits, where this is said of what it is read from.
fn form_cause(failed: Cause, fault: FormFault) -> Cause
    ensures { result ≡ form_cause failed fault }
{
    match fault {
        FormFault::Lines(LineFault::Source) => failed,
        FormFault::Lines(LineFault::Long(line)) => Cause::LongLine(line),
        FormFault::Lines(LineFault::TooLarge) => Cause::TooLarge,
        FormFault::BadForm(line) => Cause::BadForm(line),
    }
}
