ghost use Rattle.std.specs.Prelude.{◌≡◌, ◌⊎◌, ◌+◌, ◌*◌, ◌<◌, ◌≤◌, ◌^◌, ℕ, Bool, true, Option, None, Some, IfErr, IfOk};
ghost use Rattle.std.specs.Prelude.{IfSome, IsErrAnd, IsSome, IsTrue, List, [], Ok, OnOk, false, length, is_ok, ⊤};
ghost use Rattle.std.specs.Option.{option_map};
ghost use Rattle.outside.specs.ManyCalls.{Syncs};
ghost use Rattle.outside.specs.Replacement.{ReplacesOnly, replacement_name};
ghost use Rattle.file_blocks.specs.Block.{file_of};
ghost use Rattle.opened_file.specs.Load.{IsLoadFault};
ghost use Rattle.quota_value.specs.QuotaValue.{QuotaValue};
ghost use Rattle.opened_file.specs.Replace.{pieces_of};
ghost use Rattle.outside.specs.Seen.{LinkSeen, SinkSeen, SourceSeen};
ghost use Rattle.quota_map.specs.Asked.{Asked, asked_of};
ghost use Rattle.quota_map.specs.View.{IsOpenedAs, IsView, fresh_seen};
ghost use Rattle.refusals.specs.Status.{status_of};
ghost use Rattle.run_steps.specs.Act.{Together};
ghost use Rattle.run_steps.specs.Done.{IsUnwritten, seen_of, tells_of};
ghost use Rattle.run_steps.specs.Carrying.{CarriesOut};
ghost use Rattle.batch_commands.specs.AtOnce.{IsPaid, MakeTogether};
ghost use Rattle.batch_commands.specs.FullForLines.{AllFit};
ghost use Rattle.outside.specs.World.{World};
ghost use Rattle.batch_commands.specs.Batch.{LineEditMayRefuse, line_uses, way_of};
ghost use Rattle.batch_commands.specs.BatchReading.{LineSteps};
ghost use Rattle.batch_commands.specs.LinesCommitted.{CommitsFrom};
ghost use Rattle.batch_commands.specs.declared.together.GivenUp.TheVariants.{NoMemory};
ghost use Rattle.batch_commands.specs.Together.{AreNeverDone, HasBytes, IfEnded, IfNotMade, IfWanting, IsEditOf};
ghost use Rattle.batch_commands.specs.Together.{IsGivenUp, IsMadeInMemory, IsOnlyRead, IsWithin, MayPay, ReadsWhole};
ghost use Rattle.batch_commands.specs.Together.{StandsAlone, is_of_call, refusal_in, replace_cause};

use crate::batch::{EditedLines, edit_all};
use crate::batch_line::LineEdit;
use crate::reached_length::{MOST_BYTES, MOST_WRITES, most_bytes, pieces};
use file_in_memory::OneFile;
use opened_file::{LoadFault, OpenFault, QuotaFile, ReplaceFault, load, name_of_new, replace};
use outside::Store;
use quota_map::{AnyFile, open_file};
use quota_types::{Format, Kind};
use refusals::{Cause, Refusal, Word};
use run_steps::load_cause;
use std::alloc::{AllocError, Global};

/// What became of edits that were to be made together.
#[derive(Debug, Drop)]
pub enum Attempt {
    /// They were made, up to one that was refused, or the store failed.
    Ended(Result<(), Refusal>),
    /// They were not made, and the store was only read. The name of the file is handed back.
    NotMade(Word),
}

/// A file that was read whole, for which lines may be edited in memory.
#[derive(Debug, Drop)]
pub struct Whole {
    /// Its bytes.
    pub bytes: Vec<u8>,
    /// How many bytes it may have once the lines are edited.
    pub most: u64,
}

/// Why lines are not edited in a copy of a file.
#[derive(Debug, Drop)]
pub enum GivenUp {
    /// There is not enough memory to name the copy or to open it.
    NoMemory,
    /// A call on the copy failed, which is left so.
    Failed(OneFile),
    /// The copy came to have these bytes, more than it may.
    TooLong(Vec<u8>),
}

impl From<AllocError> for GivenUp {
    ghost from_gives = { λ _ cause. cause ≡ NoMemory };

    fn from(_: AllocError) -> Self {
        GivenUp::NoMemory
    }
}

/// A file in memory, for which lines were edited, up to one that was refused.
#[derive(Debug, Drop)]
pub struct Edited {
    /// Its bytes.
    pub bytes: Vec<u8>,
    /// How many calls of `write` the edits made.
    pub writes: u64,
    /// The lines that were edited.
    pub lines: EditedLines,
}

/// Sets the limits that lines ask for in the file of this name, up to the first edit that is refused, by one
/// replacement of the file. So it is done where there are at least two lines that leave room in the file, where no file
/// has its name with `.new` added, and where it pays: where the replacement takes no more than twelve calls of `write`
/// for each line that was edited. Where the edits change nothing nothing is written.
///
/// # Errors
///
/// In what became of it: a line was refused by its edit, the store failed, or there is not enough memory, with which
/// nothing was written.
pub fn edit_together<S: Store>(
    alloc: Global,
    kind: Kind,
    format: Option<Format>,
    lines: &[LineEdit],
    file: Word,
    store: &mut S,
    now: u64,
) -> Attempt
    ensures carries { (value : QuotaValue)
        → (IsTrue S.tells → IsView ((S.seen store.old).files file) kind (asked_of format) (Ok value))
        → (input : SourceSeen) (out err : SinkSeen) (link : LinkSeen)
        (input_tells out_tells err_tells link_tells : Bool)
        → IfEnded result
        (CarriesOut (LineSteps (way_of lines.now) file now lines.now value) line_uses
        (LineEditMayRefuse (asked_of format) file)
        (tells_of S.tells input_tells out_tells err_tells link_tells)
        (seen_of (S.seen store.old) input out err link) (seen_of (S.seen store.new) input out err link)) }
    ensures back { IfNotMade result (λ name. name ≡ file) }
    // Where there was not enough memory nothing was written.
    ensures wanting { IfEnded result (IfWanting (IsUnwritten (S.seen store.old) (S.seen store.new))) }
    ensures reads_only { IfNotMade result (λ _. IsOnlyRead true (S.seen store.old) (S.seen store.new)) }
    ensures others { ReplacesOnly file (S.seen store.old).files (S.seen store.new).files }
    ensures synced { IfEnded result
        (λ ended. IsTrue S.tells → Syncs (is_ok ended) (S.seen store.old) (S.seen store.new)) }
    // The files of one moment were committed, to which the steps come: of the end, where all was done; and where they
    // were not made, none.
    ensures commits { IsTrue S.tells → (value : QuotaValue)
        → IsView ((S.seen store.old).files file) kind (asked_of format) (Ok value)
        → IfEnded result (λ ended. CommitsFrom ⊤ (is_ok ended) (LineSteps (way_of lines.now) file now lines.now value)
        (ReplacesOnly file (S.seen store.old).files) (S.seen store.old).files (S.seen store.new).files
        (λ worlds. S.commits worlds store.old store.new)) }
    ensures none_committed { IfNotMade result (λ _. S.commits [] store.old store.new) }
    // They are made wherever they are said to be made together.
    ensures together { IfNotMade result
        (λ _.
        IsTrue S.tells → (value : QuotaValue) → IsView ((S.seen store.old).files file) kind (asked_of format) (Ok value)
        → MakeTogether (asked_of format) file now lines.now (S.seen store.old).files value → ⊥) }
    // Where all was done, no more was read than twelve blocks a line.
    ensures reads { IfEnded result (λ ended. OnOk ended (IsTrue S.tells
        → (S.seen store.new).reads ≤ (S.seen store.old).reads + 12 * length lines.now)) }
    // Where they were not made nothing was read, or they are never all done.
    ensures reads_more { IfNotMade result (λ _. IsTrue S.tells → (value : QuotaValue)
        → IsView ((S.seen store.old).files file) kind (asked_of format) (Ok value)
        → ((S.seen store.new).reads ≤ (S.seen store.old).reads) ⊎ AreNeverDone file now lines.now value) }
{
    if lines.len() < 2 {
        return Attempt::NotMade(file);
    }
    match read_whole(alloc, format, lines, file.as_str(), store) {
        Ok(Some(whole)) => edit_bytes(alloc, kind, format, lines, file, whole, store, now),
        Ok(None) => Attempt::NotMade(file),
        Err(fault) => Attempt::Ended(Err(Refusal::of(load_cause(fault), file))),
    }
}

/// The file of this name, where a replacement of it may take no more calls of `write` than the edits of these lines,
/// which leave room in it, and none has its name with `.new` added.
fn read_whole<S: Store>(
    alloc: Global,
    format: Option<Format>,
    lines: &[LineEdit],
    name: &str,
    store: &mut S,
) -> Result<Option<Whole>, LoadFault>
    ensures whole { IfOk result (λ found. IfSome found (λ whole. IsTrue S.tells
        → StandsAlone (S.seen store.old).files name.now whole.bytes.items)) }
    ensures pays { IfOk result
        (λ found. IfSome found (λ whole. IsTrue S.tells → MayPay (asked_of format) (length lines.now) whole)) }
    ensures refused { IfErr result (IsLoadFault (S.seen store.old).faults (S.seen store.new).faults S.tells
        ((S.seen store.old).files name.now) (length (file_of (S.seen store.old).files name.now))) }
    ensures leaves { IsOnlyRead (is_ok result) (S.seen store.old) (S.seen store.new) }
    ensures commits { S.commits [] store.old store.new }
    ensures reads { IsTrue S.tells → ReadsWhole (length lines.now) (length (file_of (S.seen store.old).files name.now))
        (S.seen store.old).reads (S.seen store.new).reads }
    ensures unread { IfOk result (λ found. found ≡ None → (S.seen store.new).reads ≡ (S.seen store.old).reads) }
    ensures there { IfOk result (λ found. found ≡ None → IsTrue S.tells → (bytes : List ℕ)
        → StandsAlone (S.seen store.old).files name.now bytes → IsPaid (asked_of format) lines.now (length bytes) → ⊥) }
{
    match size_alone(alloc, name, store)? {
        Some(size) => match most_bytes(format, lines, size) {
            Some(most) => {
                let bytes = load(alloc, store, name, size)?;
                Ok(Some(Whole { bytes, most }))
            }
            None => Ok(None),
        },
        None => Ok(None),
    }
}

/// The length of the file of this name, where there is one, and none has its name with `.new` added.
fn size_alone<S: Store>(alloc: Global, name: &str, store: &mut S) -> Result<Option<u64>, LoadFault>
    ensures size { IfOk result (λ found. IfSome found (λ size. IsTrue S.tells
        → Some size ≡ option_map length ((S.seen store.old).files name.now))) }
    ensures alone { IfOk result (λ found. IfSome found (λ size. IsTrue S.tells
        → (S.seen store.old).files (replacement_name name.now) ≡ None)) }
    ensures there { IfOk result (λ found. found ≡ None → IsTrue S.tells → (bytes : List ℕ)
        → StandsAlone (S.seen store.old).files name.now bytes → ⊥) }
    ensures refused { IfErr result (IsLoadFault (S.seen store.old).faults (S.seen store.new).faults S.tells
        ((S.seen store.old).files name.now) (length (file_of (S.seen store.old).files name.now))) }
    ensures leaves { IsOnlyRead (is_ok result) (S.seen store.old) (S.seen store.new) }
    ensures commits { S.commits [] store.old store.new }
    ensures reads { (S.seen store.new).reads ≡ (S.seen store.old).reads }
{
    let new_name = name_of_new(alloc, name)?;
    match store.size(new_name.as_str())? {
        Some(_) => Ok(None),
        None => Ok(store.size(name)?),
    }
}

/// Edits lines of a file that was read whole in memory, and puts the new file in its place where that pays.
fn edit_bytes<S: Store>(
    alloc: Global,
    kind: Kind,
    format: Option<Format>,
    lines: &[LineEdit],
    file: Word,
    whole: Whole,
    store: &mut S,
    now: u64,
) -> Attempt
    ensures carries { (others : ℕ) → length lines.now ≡ 1 + others
        → (value : QuotaValue) → (IsTrue S.tells → StandsAlone (S.seen store.old).files file whole.bytes.items)
        → (IsTrue S.tells → IsView (Some whole.bytes.items) kind (asked_of format) (Ok value))
        → (input : SourceSeen) (out err : SinkSeen) (link : LinkSeen)
        (input_tells out_tells err_tells link_tells : Bool)
        → IfEnded result
        (CarriesOut (LineSteps (Together others) file now lines.now value) line_uses
        (LineEditMayRefuse (asked_of format) file)
        (tells_of S.tells input_tells out_tells err_tells link_tells)
        (seen_of (S.seen store.old) input out err link) (seen_of (S.seen store.new) input out err link)) }
    ensures back { IfNotMade result (λ name. name ≡ file) }
    ensures untouched { IfNotMade result (λ _. S.seen store.new ≡ S.seen store.old) }
    ensures wanting { IfEnded result (IfWanting (IsUnwritten (S.seen store.old) (S.seen store.new))) }
    ensures others { ReplacesOnly file (S.seen store.old).files (S.seen store.new).files }
    ensures synced { IfEnded result
        (λ ended. IsTrue S.tells → Syncs (is_ok ended) (S.seen store.old) (S.seen store.new)) }
    ensures commits { IsTrue S.tells → (others : ℕ) (value : QuotaValue)
        → StandsAlone (S.seen store.old).files file whole.bytes.items
        → IsView (Some whole.bytes.items) kind (asked_of format) (Ok value)
        → IfEnded result (λ ended. CommitsFrom ⊤ (is_ok ended) (LineSteps (Together others) file now lines.now value)
        (ReplacesOnly file (S.seen store.old).files) (S.seen store.old).files (S.seen store.new).files
        (λ worlds. S.commits worlds store.old store.new)) }
    ensures none_committed { IfNotMade result (λ _. S.commits [] store.old store.new) }
    // Where it does not pay, one of the lines is refused in every file.
    ensures never { MayPay (asked_of format) (length lines.now) whole → (value : QuotaValue)
        → IsView (Some whole.bytes.items) kind (asked_of format) (Ok value)
        → IfNotMade result (λ _. AreNeverDone file now lines.now value) }
    // Where all of them fit it pays.
    ensures fitting { MayPay (asked_of format) (length lines.now) whole
        → (others : ℕ) (value : QuotaValue) (files : World)
        → files file ≡ Some whole.bytes.items → IsView (Some whole.bytes.items) kind (asked_of format) (Ok value)
        → AllFit (Together others) file now lines.now files value → IfNotMade result (λ _. ⊥) }
    ensures reads { (S.seen store.new).reads ≡ (S.seen store.old).reads }
{
    match edit_in_memory(alloc, kind, format, lines, file.as_str(), whole, now) {
        Ok(Some(edited)) => put_back(alloc, file, edited, store),
        Ok(None) => Attempt::NotMade(file),
        Err(_) => Attempt::Ended(Err(Refusal::of(Cause::Memory, file))),
    }
}

/// Edits lines of a file that was read whole in memory, up to the first edit that is refused. It is `None` where the
/// file is not opened.
///
/// # Errors
///
/// There is not enough memory, for the name of the copy, for opening it, or for its bytes.
fn edit_in_memory(
    alloc: Global,
    kind: Kind,
    format: Option<Format>,
    lines: &[LineEdit],
    name: &str,
    whole: Whole,
    now: u64,
) -> Result<Option<Edited>, GivenUp>
    ensures made { IfOk result (λ found. IfSome found (λ edited. (others : ℕ) (value : QuotaValue)
        → IsView (Some whole.bytes.items) kind (asked_of format) (Ok value)
        → IsMadeInMemory (LineSteps (Together others) name.now now lines.now value) name.now
        whole.bytes.items edited)) }
    ensures edits { IfOk result
        (λ found.
        IfSome found (IsEditOf (LineEditMayRefuse (asked_of format) name.now) (length lines.now) whole.bytes.items)) }
    ensures within { IfOk result (λ found. IfSome found (IsWithin whole.most (length lines.now))) }
    // A copy that was opened is given up only where a call on it failed, or where it has more bytes than it may.
    ensures given_up { IfErr result (IsGivenUp ⊤ whole.most 0) }
    ensures opens { IfOk result
        (λ found.
        found ≡ None → (value : QuotaValue) → IsView (Some whole.bytes.items) kind (asked_of format) (Ok value) → ⊥) }
{
    let Whole { bytes, most } = whole;
    let file = Word::copy_of(alloc, name)?;
    let mut memory = OneFile::new(String::from_str(alloc, name)?, bytes);
    match open_file(alloc, &mut memory, name, kind, format) {
        Ok(opened) => Ok(Some(edit_opened(opened, lines, file, memory, most, now)?)),
        Err(fault) if is_of_call(fault) => Err(GivenUp::NoMemory),
        Err(_) => Ok(None),
    }
}

/// Whether a file was not opened for a fault of the store, or since there is not enough memory, and not for its bytes.
fn is_of_call(fault: OpenFault) -> bool
    ensures { result ≡ is_of_call fault }
{
    matches!(fault, OpenFault::Store | OpenFault::Memory)
}

/// Edits lines of an opened file in memory, up to the first edit that is refused.
///
/// # Errors
///
/// A call on the copy failed for lack of memory, or it has more than `most` bytes, which no edit makes of it. It is
/// handed back so.
fn edit_opened(
    mut opened: AnyFile,
    lines: &[LineEdit],
    file: Word,
    mut memory: OneFile,
    most: u64,
    now: u64,
) -> Result<Edited, GivenUp>
    requires { ⟦<AnyFile as QuotaFile<OneFile>>⟧.seen opened
        ≡ fresh_seen file (⟦<AnyFile as QuotaFile<OneFile>>⟧.seen opened).format }
    ensures made { IfOk result (λ edited. (bytes : List ℕ) → HasBytes file bytes (⟦<OneFile as Store>⟧.seen memory)
        → (others : ℕ) (value : QuotaValue) → ⟦<AnyFile as QuotaFile<OneFile>>⟧.holds opened memory value
        → IsMadeInMemory (LineSteps (Together others) file now lines.now value) file bytes edited) }
    ensures edits { IfOk result (λ edited. (bytes : List ℕ) → HasBytes file bytes (⟦<OneFile as Store>⟧.seen memory)
        → (asked : Asked) → IsOpenedAs asked (⟦<AnyFile as QuotaFile<OneFile>>⟧.seen opened).format
        → (value : QuotaValue) → ⟦<AnyFile as QuotaFile<OneFile>>⟧.holds opened memory value
        → IsEditOf (LineEditMayRefuse asked file) (length lines.now) bytes edited) }
    ensures within { IfOk result (IsWithin most (length lines.now)) }
    ensures given_up { IfErr result
        (λ cause. (value : QuotaValue) → ⟦<AnyFile as QuotaFile<OneFile>>⟧.holds opened memory value
        → IsGivenUp ⊥ most (⟦<OneFile as Store>⟧.seen memory).faults cause) }
{
    let edited = edit_all(&mut opened, lines, file, &mut memory, now);
    if is_fault(&edited.ended) {
        return Err(GivenUp::Failed(memory));
    }
    let writes = memory.writes();
    let bytes = memory.into_bytes();
    if bytes.len() as u64 > most {
        return Err(GivenUp::TooLong(bytes));
    }
    Ok(Edited {
        bytes,
        writes,
        lines: edited,
    })
}

/// Whether edits ended since something failed or there was not enough memory.
fn is_fault(ended: &Result<(), Refusal>) -> bool
    ensures own { result ≡ false → IfErr ended.now (λ refusal. status_of refusal.cause < 4) }
    ensures fault { result ≡ true → IsErrAnd ended.now (λ refusal. 4 ≤ status_of refusal.cause) }
{
    match ended {
        Ok(()) => false,
        Err(refusal) => refusal.cause.status() >= 4,
    }
}

/// Puts a file that was edited in memory in the place of the one of this name, where that pays. Where the edits of its
/// lines wrote nothing there is nothing to be put.
fn put_back<S: Store>(alloc: Global, file: Word, edited: Edited, store: &mut S) -> Attempt
    ensures carries { (asked : Asked) (bytes : List ℕ) (now : ℕ) (lines : List LineEdit) (value : QuotaValue)
        → IsEditOf (LineEditMayRefuse asked file) (length lines) bytes edited → (others : ℕ) → length lines ≡ 1 + others
        → (IsTrue S.tells → StandsAlone (S.seen store.old).files file bytes
        × IsMadeInMemory (LineSteps (Together others) file now lines value) file bytes edited)
        → (input : SourceSeen) (out err : SinkSeen) (link : LinkSeen)
        (input_tells out_tells err_tells link_tells : Bool)
        → IfEnded result
        (CarriesOut (LineSteps (Together others) file now lines value) line_uses (LineEditMayRefuse asked file)
        (tells_of S.tells input_tells out_tells err_tells link_tells)
        (seen_of (S.seen store.old) input out err link) (seen_of (S.seen store.new) input out err link)) }
    ensures back { IfNotMade result (λ name. name ≡ file) }
    ensures untouched { IfNotMade result (λ _. S.seen store.new ≡ S.seen store.old) }
    ensures wanting { (asked : Asked) (count : ℕ) (bytes : List ℕ)
        → IsEditOf (LineEditMayRefuse asked file) count bytes edited
        → IfEnded result (IfWanting (IsUnwritten (S.seen store.old) (S.seen store.new))) }
    ensures others { ReplacesOnly file (S.seen store.old).files (S.seen store.new).files }
    ensures synced { IfEnded result
        (λ ended. IsTrue S.tells → Syncs (is_ok ended) (S.seen store.old) (S.seen store.new)) }
    ensures commits { IsTrue S.tells
        → (bytes : List ℕ) (now : ℕ) (lines : List LineEdit) (value : QuotaValue) (others : ℕ)
        → StandsAlone (S.seen store.old).files file bytes
        → IsMadeInMemory (LineSteps (Together others) file now lines value) file bytes edited
        → IfEnded result (λ ended. CommitsFrom ⊤ (is_ok ended) (LineSteps (Together others) file now lines value)
        (ReplacesOnly file (S.seen store.old).files) (S.seen store.old).files (S.seen store.new).files
        (λ worlds. S.commits worlds store.old store.new)) }
    ensures none_committed { IfNotMade result (λ _. S.commits [] store.old store.new) }
    // Where it is not put there it does not pay, and a line was refused.
    ensures unpaid { IfNotMade result (λ _. length edited.bytes.items ≤ 2 ^ 42
        → 12 * edited.lines.made < pieces_of (length edited.bytes.items)) }
    ensures refused { (asked : Asked) (count : ℕ) (whole : Whole) → MayPay asked count whole
        → IsWithin whole.most count edited
        → IfNotMade result (λ _. IsSome (refusal_in edited.lines.ended)) }
    ensures reads { (S.seen store.new).reads ≡ (S.seen store.old).reads }
{
    if edited.writes == 0 {
        return Attempt::Ended(edited.lines.ended);
    }
    if !pays(&edited) {
        return Attempt::NotMade(file);
    }
    match replace(alloc, store, file.as_str(), edited.bytes.as_slice()) {
        Ok(()) => Attempt::Ended(edited.lines.ended),
        Err(fault) => Attempt::Ended(Err(Refusal::of(replace_cause(fault), file))),
    }
}

/// What is said where the file is not replaced.
fn replace_cause(fault: ReplaceFault) -> Cause
    ensures { result ≡ replace_cause fault }
{
    match fault {
        ReplaceFault::Store | ReplaceFault::Full { .. } => Cause::StoreFault,
        ReplaceFault::Memory => Cause::Memory,
    }
}

/// Whether the replacement by a file that was edited in memory pays, and it may be replaced.
fn pays(edited: &Edited) -> bool
    ensures within { result ≡ true → length edited.now.bytes.items ≤ 2 ^ 42 }
    ensures few { result ≡ true → pieces_of (length edited.now.bytes.items) ≤ 12 * edited.now.lines.made }
    ensures no { result ≡ false → length edited.now.bytes.items ≤ 2 ^ 42
        → 12 * edited.now.lines.made < pieces_of (length edited.now.bytes.items) }
{
    let bytes = edited.bytes.len() as u64;
    bytes <= MOST_BYTES && pieces(bytes) <= edited.lines.made.saturating_mul(MOST_WRITES)
}
