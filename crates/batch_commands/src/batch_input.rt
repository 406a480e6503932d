ghost use Rattle.std.specs.Prelude.{◌≡◌, ◌≤◌, ◌<◌, ◌-◌, [], true, false, IfErr, IfOk, IfSome, IsSome, IsTrue};
ghost use Rattle.std.specs.Prelude.{MatchResult, None, Ok, Some, unwrap_or};
ghost use Rattle.outside.specs.Behind.{IsBehind};
ghost use Rattle.outside.specs.Count.{Rose};
ghost use Rattle.outside.specs.Frame.{OnlyReads};
ghost use Rattle.input_text.specs.LineReading.{lines_left};
ghost use Rattle.input_text.specs.InputLeft.{left_from};
ghost use Rattle.outside.specs.Unsynced.{AddsNone};
ghost use Rattle.refusals.specs.Outcome.{Passed};
ghost use Rattle.run_steps.specs.Taking.{InputMayRefuse, Lines, file_said, input_name, input_said};
ghost use Rattle.run_steps.specs.Causes.{IsInputFault};
ghost use Rattle.batch_commands.specs.Batch.{batch_step, input_asks, lines_ask};
ghost use Rattle.batch_commands.specs.BatchReading.{IsOfInputLine, input_cause, read_then, refusal_read};
ghost use Rattle.batch_commands.specs.declared.batch_input.InputFault.TheVariants.{Source as SourceFailed};
ghost use Rattle.batch_commands.specs.declared.batch_input.InputFault.TheVariants.{Memory as NoMemory};
ghost use Rattle.batch_commands.specs.declared.batch_line.BatchLineRead.TheVariants.{Refused as Faulty};
ghost use Rattle.refusals.specs.Refusals.{nowhere, refusal_of};

use crate::batch_line::{BatchLineRead, LineEdit, read_edit_line};
use arrayvec::ArrayVec;
use id_names::Names;
use input_text::{LineFault, LineReader, StoreInput, StoreSource};
use outside::{Source, Store};
use refusals::{Cause, Refusal, Word};
use std::alloc::Global;

/// How many bytes a line has at most.
const MAX_LINE: usize = 1024;

/// How many bytes of an input are read at most.
const MAX_INPUT: u64 = 16_777_216;

/// The edits that an input asks for, in order, up to the first line that is refused.
#[derive(Debug, Drop)]
pub struct Batch {
    /// The edits.
    pub edits: Vec<LineEdit>,
    /// The refusal of the line behind them, where one is refused.
    pub refusal: Option<Refusal>,
}

/// Why an input was not read up to a line that is refused, or up to its end.
#[derive(Clone, Copy, Debug, PartialEq, Eq)]
enum InputFault {
    /// The source failed.
    Source,
    /// There is not enough memory.
    Memory,
}

/// Reads the edits that an input asks for: the file of this name, or the standard input where none is named.
///
/// # Errors
///
/// The file is not there; the store or the input failed, or there is not enough memory.
pub fn take_batch<S: Store, I: Source>(
    alloc: Global,
    names: &Names,
    from: Option<Word>,
    store: &mut S,
    input: &mut I,
) -> Result<Batch, Refusal>
    ensures read { IfOk result (λ batch. IsTrue S.tells → (from ≡ None → IsTrue I.tells)
        → input_said from (batch_step names.now from) (S.seen store.old).files (I.seen input.old).left
        ≡ Passed (record { edits = batch.edits.items; refusal = batch.refusal })) }
    ensures ended { IfOk result
        (λ batch. batch.refusal ≡ None → from ≡ None → IsTrue I.tells → (I.seen input.new).left ≡ []) }
    ensures behind { (from ≡ None → IsTrue I.tells) → IsBehind (I.seen input.old).left (I.seen input.new).left }
    ensures untouched { IsSome from → input.new ≡ input.old }
    ensures unread { from ≡ None → store.new ≡ store.old }
    ensures may_ask { IfOk result (λ batch. IfSome batch.refusal (IsOfInputLine names.now (input_name from))) }
    ensures refused { IfErr result (λ refusal. IsInputFault (Rose (S.seen store.old).faults (S.seen store.new).faults)
        (Rose (I.seen input.old).faults (I.seen input.new).faults) (IsTrue S.tells × (from ≡ None → IsTrue I.tells))
        (input_said from (batch_step names.now from) (S.seen store.old).files (I.seen input.old).left) refusal
        refusal.cause) }
    ensures may { IfErr result (λ refusal. InputMayRefuse Lines from refusal.cause refusal.name) }
    ensures placed { IfErr result (λ refusal. refusal.place ≡ nowhere) }
    ensures leaves { OnlyReads false (unwrap_or from []) (S.seen store.old) (S.seen store.new) }
    ensures synced { IfOk result
        (λ batch. batch.refusal ≡ None → AddsNone (S.seen store.old).unsynced (S.seen store.new).unsynced) }
    ensures commits { S.commits [] store.old store.new }
    ensures later { (I.seen input.old).faults ≤ (I.seen input.new).faults }
    ensures keeps { I.keeps false input.old input.new }
{
    match from {
        Some(name) => take_file(alloc, names, name, store),
        None => take_input(alloc, names, input),
    }
}

/// What the lines of the standard input ask for, up to the first one that is refused.
fn take_input<I: Source>(alloc: Global, names: &Names, input: &mut I) -> Result<Batch, Refusal>
    ensures read { IfOk result (λ batch. IsTrue I.tells → input_asks names.now [] (I.seen input.old).left
        ≡ record { edits = batch.edits.items; refusal = batch.refusal }) }
    ensures ended { IfOk result (λ batch. batch.refusal ≡ None → IsTrue I.tells → (I.seen input.new).left ≡ []) }
    ensures behind { IsTrue I.tells → IsBehind (I.seen input.old).left (I.seen input.new).left }
    ensures may_ask { IfOk result (λ batch. IfSome batch.refusal (IsOfInputLine names.now [])) }
    ensures refused { IfErr result
        (λ refusal. IsInputFault ⊥ (Rose (I.seen input.old).faults (I.seen input.new).faults) (IsTrue I.tells)
        (batch_step names.now None (I.seen input.old).left) refusal refusal.cause) }
    ensures may { IfErr result (λ refusal. InputMayRefuse Lines None refusal.cause refusal.name) }
    ensures placed { IfErr result (λ refusal. refusal.place ≡ nowhere) }
    ensures later { (I.seen input.old).faults ≤ (I.seen input.new).faults }
    ensures keeps { I.keeps false input.old input.new }
{
    match read_batch(alloc, names, "", input) {
        Ok(batch) => Ok(batch),
        Err(fault) => Err(Refusal::of(input_cause(fault, Cause::SourceFault), Word::empty(alloc))),
    }
}

/// What the lines of the file of this name ask for, up to the first one that is refused.
fn take_file<S: Store>(
    alloc: Global,
    names: &Names,
    name: Word,
    store: &mut S,
) -> Result<Batch, Refusal>
    ensures read { IfOk result (λ batch. IsTrue S.tells
        → file_said name (batch_step names.now (Some name)) ((S.seen store.old).files name)
        ≡ Passed (record { edits = batch.edits.items; refusal = batch.refusal })) }
    ensures may_ask { IfOk result (λ batch. IfSome batch.refusal (IsOfInputLine names.now name)) }
    ensures refused { IfErr result (λ refusal. IsInputFault
        (Rose (S.seen store.old).faults (S.seen store.new).faults) ⊥ (IsTrue S.tells)
        (file_said name (batch_step names.now (Some name)) ((S.seen store.old).files name)) refusal refusal.cause) }
    ensures may { IfErr result (λ refusal. InputMayRefuse Lines (Some name) refusal.cause refusal.name) }
    ensures placed { IfErr result (λ refusal. refusal.place ≡ nowhere) }
    ensures leaves { OnlyReads false name (S.seen store.old) (S.seen store.new) }
    ensures synced { IfOk result
        (λ batch. batch.refusal ≡ None → AddsNone (S.seen store.old).unsynced (S.seen store.new).unsynced) }
    ensures commits { S.commits [] store.old store.new }
{
    match store.size(name.as_str()) {
        Ok(Some(_)) => take_there(alloc, names, name, store),
        Ok(None) => Err(Refusal::of(Cause::NoFile, name)),
        Err(_) => Err(Refusal::of(Cause::StoreFault, name)),
    }
}

/// What the lines of a file ask for that is there, up to the first one that is refused.
fn take_there<S: Store>(
    alloc: Global,
    names: &Names,
    name: Word,
    store: &mut S,
) -> Result<Batch, Refusal>
    ensures read { IfOk result
        (λ batch. IsTrue S.tells → input_asks names.now name (left_from ((S.seen store.old).files name) 0)
        ≡ record { edits = batch.edits.items; refusal = batch.refusal }) }
    ensures may_ask { IfOk result (λ batch. IfSome batch.refusal (IsOfInputLine names.now name)) }
    ensures refused { IfErr result (λ refusal. IsInputFault
        (Rose (S.seen store.old).faults (S.seen store.new).faults) ⊥ (IsTrue S.tells)
        (batch_step names.now (Some name) (left_from ((S.seen store.old).files name) 0)) refusal refusal.cause) }
    ensures may { IfErr result (λ refusal. InputMayRefuse Lines (Some name) refusal.cause refusal.name) }
    ensures placed { IfErr result (λ refusal. refusal.place ≡ nowhere) }
    ensures leaves { OnlyReads false name (S.seen store.old) (S.seen store.new) }
    ensures synced { IfOk result
        (λ batch. batch.refusal ≡ None → AddsNone (S.seen store.old).unsynced (S.seen store.new).unsynced) }
    ensures commits { S.commits [] store.old store.new }
{
    let Ok(place) = Word::copy_of(alloc, name.as_str()) else {
        return Err(Refusal::of(Cause::Memory, name));
    };
    let mut source = StoreSource {
        name: name.into_string(),
        at: 0,
    };
    let mut input = StoreInput {
        source: &mut source,
        store,
    };
    match read_batch(alloc, names, place.as_str(), &mut input) {
        Ok(batch) => Ok(batch),
        Err(fault) => Err(Refusal::of(input_cause(fault, Cause::StoreFault), place)),
    }
}

/// What is said where an input was not read.
fn input_cause(fault: InputFault, failed: Cause) -> Cause
    ensures { result ≡ input_cause fault failed }
{
    match fault {
        InputFault::Source => failed,
        InputFault::Memory => Cause::Memory,
    }
}

/// Reads the edits that a source asks for, which is called by this name.
fn read_batch<I: Source>(
    alloc: Global,
    names: &Names,
    place: &str,
    source: &mut I,
) -> Result<Batch, InputFault>
    ensures read { IfOk result (λ batch. IsTrue I.tells → input_asks names.now place.now (I.seen source.old).left
        ≡ record { edits = batch.edits.items; refusal = batch.refusal }) }
    ensures ended { IfOk result (λ batch. batch.refusal ≡ None → IsTrue I.tells → (I.seen source.new).left ≡ []) }
    ensures may_ask { IfOk result (λ batch. IfSome batch.refusal (IsOfInputLine names.now place.now)) }
    ensures cause { IfErr result
        (λ fault. fault ≡ SourceFailed → Rose (I.seen source.old).faults (I.seen source.new).faults) }
    ensures later { (I.seen source.old).faults ≤ (I.seen source.new).faults }
    ensures keeps { I.keeps false source.old source.new }
    ensures kept { IfOk result (λ batch. batch.refusal ≡ None → I.keeps true source.old source.new) }
{
    let mut reader = LineReader::new();
    let mut line = ArrayVec::new();
    let mut edits = Vec::new(alloc);
    loop {
        match take_line(alloc, names, place, &mut reader, &mut line, source)? {
            None => {
                return Ok(Batch {
                    edits,
                    refusal: None,
                });
            }
            Some(BatchLineRead::Nothing) => {}
            Some(BatchLineRead::Edit(edit)) => {
                if edits.push(edit).is_err() {
                    return Err(InputFault::Memory);
                }
            }
            Some(BatchLineRead::Refused(refusal)) => {
                return Ok(Batch {
                    edits,
                    refusal: Some(refusal),
                });
            }
        }
    }
}

/// Reads what the next line says, or `None` at the end of the input.
fn take_line<I: Source>(
    alloc: Global,
    names: &Names,
    place: &str,
    reader: &mut LineReader,
    line: &mut ArrayVec<u8, 4096>,
    source: &mut I,
) -> Result<Option<BatchLineRead>, InputFault>
    ensures read { IfOk result (λ read. IsTrue I.tells
        → lines_ask names.now place.now reader.old.number (lines_left 1024 16777216 reader.old (I.seen source.old).left)
        ≡ read_then read
        (lines_ask names.now place.now reader.new.number
        (lines_left 1024 16777216 reader.new (I.seen source.new).left))) }
    ensures ended { IfOk result (λ read. read ≡ None → IsTrue I.tells → (I.seen source.new).left ≡ []) }
    ensures may_ask { IfOk result (λ read. IfSome (refusal_read read) (IsOfInputLine names.now place.now)) }
    ensures nearer { IfOk result (λ read. IsSome read → refusal_read read ≡ None
        → 16777216 - reader.new.given < 16777216 - reader.old.given) }
    ensures cause { IfErr result
        (λ fault. fault ≡ SourceFailed → Rose (I.seen source.old).faults (I.seen source.new).faults) }
    ensures later { (I.seen source.old).faults ≤ (I.seen source.new).faults }
    ensures keeps { I.keeps false source.old source.new }
    ensures kept { IfOk result (λ read. refusal_read read ≡ None → I.keeps true source.old source.new) }
{
    match reader.next_line(source, line, MAX_LINE, MAX_INPUT) {
        Ok(true) => match read_edit_line(alloc, names, place, reader.lines(), line.as_slice()) {
            Ok(said) => Ok(Some(said)),
            Err(_) => Err(InputFault::Memory),
        },
        Ok(false) => Ok(None),
        Err(LineFault::Source) => Err(InputFault::Source),
        Err(LineFault::Long(number)) => refused_input(alloc, Cause::LongLine(number), place),
        Err(LineFault::TooLarge) => refused_input(alloc, Cause::TooLarge, place),
    }
}

/// The refusal of an input of this name.
fn refused_input(
    alloc: Global,
    cause: Cause,
    place: &str,
) -> Result<Option<BatchLineRead>, InputFault>
    ensures { MatchResult result (λ read. read ≡ Some (Faulty (refusal_of cause place.now)))
        (λ fault. fault ≡ NoMemory) }
{
    match Word::copy_of(alloc, place) {
        Ok(name) => Ok(Some(BatchLineRead::Refused(Refusal::of(cause, name)))),
        Err(_) => Err(InputFault::Memory),
    }
}
