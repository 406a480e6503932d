ghost use Rattle.std.specs.Prelude.{ℕ, ◌+◌, ◌*◌, ◌≤◌, List, Option, None, ◌≡◌, ◌≢◌, Bool, Ok, false, IfErr, IsSome};
ghost use Rattle.std.specs.Prelude.{IsTrue, OnOk, length, is_ok};
ghost use Rattle.file_blocks.specs.Block.{file_of};
ghost use Rattle.outside.specs.ManyCalls.{Syncs};
ghost use Rattle.quota_value.specs.QuotaValue.{QuotaValue};
ghost use Rattle.outside.specs.Seen.{Datagram, LinkSeen, SinkSeen, SourceSeen};
ghost use Rattle.opened_file.specs.EditsOne.{EditsOne};
ghost use Rattle.outside.specs.Replacement.{ReplacesOnly};
ghost use Rattle.outside.specs.World.{KeepsOthers};
ghost use Rattle.quota_map.specs.Asked.{Asked, asked_of};
ghost use Rattle.quota_map.specs.View.{IsOpenedAs, IsView, fresh_seen, opening_reads};
ghost use Rattle.refusals.specs.declared.cause.Cause.TheVariants.{Memory};
ghost use Rattle.run_steps.specs.Act.{Together, Way};
ghost use Rattle.run_steps.specs.Committed.{CommitsSteps};
ghost use Rattle.run_steps.specs.Done.{IsUnwritten, RunTells, seen_of, tells_of};
ghost use Rattle.run_steps.specs.Carrying.{CarriesOut};
ghost use Rattle.refusals.specs.Outcome.{Passed};
ghost use Rattle.run_steps.specs.Steps.{Opening};
ghost use Rattle.run_steps.specs.Taking.{input_said};
ghost use Rattle.run_steps.specs.Writes.{ReadsWithin};
ghost use Rattle.batch_commands.specs.AtOnce.{AreMadeTogether, MakeTogether};
ghost use Rattle.batch_commands.specs.Batch.{AskedEdits, BatchMayRefuse, BatchSteps, LineEditMayRefuse};
ghost use Rattle.batch_commands.specs.Batch.{NamedBatchMayRefuse, ReadSteps, batch_reads, batch_step, batch_uses};
ghost use Rattle.batch_commands.specs.Batch.{input_edits, line_reads, line_uses, way_of};
ghost use Rattle.batch_commands.specs.BatchReading.{LineSteps};
ghost use Rattle.batch_commands.specs.LinesCommitted.{CommitsEach, CommitsFrom};
ghost use Rattle.batch_commands.specs.Together.{HasMade, IfOwn, IfWanting, refusal_in};

use crate::batch_input::{Batch, take_batch};
use crate::batch_line::{LineEdit, at_line};
use crate::together::{Attempt, edit_together};
use command_words::Common;
use edit_steps::edit_cause;
use id_names::Names;
use opened_file::QuotaFile;
use outside::{Source, Store};
use quota_map::{AnyFile, open_file};
use quota_types::{Format, Kind};
use refusals::{Refusal, Word};
use run_steps::{opening_cause, read_names};
use set_edit::set_limits;
use std::alloc::Global;

/// Sets the limits that lines of an input ask for, up to the first that is refused, at the moment `now` in seconds
/// since 1970.
///
/// # Errors
///
/// The names are not read, the file is not opened, the input is not read, or a line or its edit is refused.
pub fn apply_lines<S: Store, I: Source>(
    alloc: Global,
    common: Common,
    from: Option<Word>,
    file: Word,
    store: &mut S,
    input: &mut I,
    now: u64,
) -> Result<(), Refusal>
    ensures carries { (out err : SinkSeen) (link : LinkSeen) (out_tells err_tells link_tells : Bool) (line : Option ℕ)
        → CarriesOut (BatchSteps common from file (record { now = now; line = line })) (batch_uses from)
        (BatchMayRefuse common from file)
        (tells_of S.tells I.tells out_tells err_tells link_tells)
        (seen_of (S.seen store.old) (I.seen input.old) out err link)
        (seen_of (S.seen store.new) (I.seen input.new) out err link) result }
    // Where there was not enough memory nothing was written.
    ensures wanting { IfWanting (IsUnwritten (S.seen store.old) (S.seen store.new)) result }
    // No file but this one has changed, and the one with `.new` added to its name, however it ended.
    ensures others { ReplacesOnly file (S.seen store.old).files (S.seen store.new).files }
    // What was written has been synced where it was done, and where it was not too, unless a call on the store failed.
    ensures synced { IsTrue S.tells → Syncs (is_ok result) (S.seen store.old) (S.seen store.new) }
    // All that was committed is files that the steps come to, behind some first lines, in which no file has changed but
    // this one and the one with `.new` added to its name; and where lines are made together those of one moment alone.
    ensures commits { (datagrams : List Datagram) (line : Option ℕ) → IsTrue S.tells → (from ≡ None → IsTrue I.tells)
        → CommitsSteps
        (AreMadeTogether common from file now (record {
          files = (S.seen store.old).files;
          input = (I.seen input.old).left;
          datagrams = datagrams;
        }))
        (is_ok result) (BatchSteps common from file (record { now = now; line = line }))
        (ReplacesOnly file (S.seen store.old).files)
        (record { files = (S.seen store.old).files; input = (I.seen input.old).left; datagrams = datagrams })
        (S.seen store.new).files
        (λ worlds. S.commits worlds store.old store.new) }
    // Where it was done without a file of names, and out of the standard input, no more was read than the opening of
    // the file takes, and seventeen blocks for each line that asks for an edit.
    ensures reads { OnOk result (IsTrue S.tells → IsTrue I.tells
        → ReadsWithin (batch_reads common from file (S.seen store.old).files (I.seen input.old).left) (S.seen store.old)
        (S.seen store.new)) }
    ensures untouched { IsSome from → input.new ≡ input.old }
    ensures keeps { I.keeps false input.old input.new }
{
    let Common {
        kind,
        format,
        names,
    } = common;
    match read_names(alloc, kind, names, store) {
        Ok(names) => apply_named(alloc, &names, kind, format, from, file, store, input, now),
        Err(refusal) => Err(refusal),
    }
}

/// Sets the limits that the lines of an input ask for, where these are the names.
fn apply_named<S: Store, I: Source>(
    alloc: Global,
    names: &Names,
    kind: Kind,
    format: Option<Format>,
    from: Option<Word>,
    file: Word,
    store: &mut S,
    input: &mut I,
    now: u64,
) -> Result<(), Refusal>
    ensures carries { (out err : SinkSeen) (link : LinkSeen) (out_tells err_tells link_tells : Bool)
        → CarriesOut (Opening kind (asked_of format) file (ReadSteps names.now from file now))
        (batch_uses from) (NamedBatchMayRefuse (asked_of format) from file names.now)
        (tells_of S.tells I.tells out_tells err_tells link_tells)
        (seen_of (S.seen store.old) (I.seen input.old) out err link)
        (seen_of (S.seen store.new) (I.seen input.new) out err link) result }
    ensures wanting { IfWanting (IsUnwritten (S.seen store.old) (S.seen store.new)) result }
    ensures others { ReplacesOnly file (S.seen store.old).files (S.seen store.new).files }
    ensures synced { IsTrue S.tells → Syncs (is_ok result) (S.seen store.old) (S.seen store.new) }
    ensures commits { (datagrams : List Datagram) → IsTrue S.tells → (from ≡ None → IsTrue I.tells)
        → CommitsSteps
        ((value : QuotaValue) → IsView ((S.seen store.old).files file) kind (asked_of format) (Ok value)
        → (asked : AskedEdits)
        → input_said from (batch_step names.now from) (S.seen store.old).files (I.seen input.old).left ≡ Passed asked
        → MakeTogether (asked_of format) file now asked.edits (S.seen store.old).files value)
        (is_ok result) (Opening kind (asked_of format) file (ReadSteps names.now from file now))
        (ReplacesOnly file (S.seen store.old).files)
        (record { files = (S.seen store.old).files; input = (I.seen input.old).left; datagrams = datagrams })
        (S.seen store.new).files
        (λ worlds. S.commits worlds store.old store.new) }
    ensures reads { from ≡ None
        → OnOk result (IsTrue S.tells → IsTrue I.tells → (S.seen store.new).reads ≤ (S.seen store.old).reads
        + (opening_reads (asked_of format) (file_of (S.seen store.old).files file)
        + line_reads (input_edits names.now (I.seen input.old).left))) }
    ensures untouched { IsSome from → input.new ≡ input.old }
    ensures keeps { I.keeps false input.old input.new }
{
    match open_file(alloc, store, file.as_str(), kind, format) {
        Ok(opened) => apply_opened(
            alloc, names, kind, format, opened, from, file, store, input, now,
        ),
        Err(fault) => Err(Refusal::of(opening_cause(fault), file)),
    }
}

/// Reads the lines of an input, and sets the limits that they ask for in an opened file.
fn apply_opened<S: Store, I: Source>(
    alloc: Global,
    names: &Names,
    kind: Kind,
    format: Option<Format>,
    opened: AnyFile,
    from: Option<Word>,
    file: Word,
    store: &mut S,
    input: &mut I,
    now: u64,
) -> Result<(), Refusal>
    requires { ⟦<AnyFile as QuotaFile<S>>⟧.seen opened
        ≡ fresh_seen file (⟦<AnyFile as QuotaFile<S>>⟧.seen opened).format }
    ensures carries { IsOpenedAs (asked_of format) (⟦<AnyFile as QuotaFile<S>>⟧.seen opened).format
        → (value : QuotaValue) → (IsTrue S.tells → ⟦<AnyFile as QuotaFile<S>>⟧.holds opened store.old value)
        → (IsTrue S.tells → IsView ((S.seen store.old).files file) kind (asked_of format) (Ok value))
        → (out err : SinkSeen) (link : LinkSeen) (out_tells err_tells link_tells : Bool)
        → CarriesOut (ReadSteps names.now from file now value) (batch_uses from)
        (NamedBatchMayRefuse (asked_of format) from file names.now)
        (tells_of S.tells I.tells out_tells err_tells link_tells)
        (seen_of (S.seen store.old) (I.seen input.old) out err link)
        (seen_of (S.seen store.new) (I.seen input.new) out err link) result }
    ensures wanting { IfWanting (IsUnwritten (S.seen store.old) (S.seen store.new)) result }
    ensures others { ReplacesOnly file (S.seen store.old).files (S.seen store.new).files }
    ensures synced { IsTrue S.tells → Syncs (is_ok result) (S.seen store.old) (S.seen store.new) }
    ensures commits { (datagrams : List Datagram) → IsTrue S.tells → (from ≡ None → IsTrue I.tells)
        → (value : QuotaValue) → ⟦<AnyFile as QuotaFile<S>>⟧.holds opened store.old value
        → IsView ((S.seen store.old).files file) kind (asked_of format) (Ok value)
        → CommitsSteps
        ((asked : AskedEdits)
        → input_said from (batch_step names.now from) (S.seen store.old).files (I.seen input.old).left ≡ Passed asked
        → MakeTogether (asked_of format) file now asked.edits (S.seen store.old).files value)
        (is_ok result) (ReadSteps names.now from file now value) (ReplacesOnly file (S.seen store.old).files)
        (record { files = (S.seen store.old).files; input = (I.seen input.old).left; datagrams = datagrams })
        (S.seen store.new).files
        (λ worlds. S.commits worlds store.old store.new) }
    ensures reads { IsOpenedAs (asked_of format) (⟦<AnyFile as QuotaFile<S>>⟧.seen opened).format
        → (value : QuotaValue) → (IsTrue S.tells → ⟦<AnyFile as QuotaFile<S>>⟧.holds opened store.old value)
        → (IsTrue S.tells → IsView ((S.seen store.old).files file) kind (asked_of format) (Ok value))
        → from ≡ None → OnOk result (IsTrue S.tells → IsTrue I.tells
        → (S.seen store.new).reads ≤ (S.seen store.old).reads
        + line_reads (input_edits names.now (I.seen input.old).left)) }
    ensures untouched { IsSome from → input.new ≡ input.old }
    ensures keeps { I.keeps false input.old input.new }
{
    match take_batch(alloc, names, from, store, input) {
        Ok(batch) => {
            let Batch { edits, refusal } = batch;
            match edit_lines(
                alloc,
                kind,
                format,
                opened,
                edits.as_slice(),
                file,
                store,
                now,
            ) {
                Ok(()) => match refusal {
                    Some(refusal) => Err(refusal),
                    None => Ok(()),
                },
                Err(refusal) => Err(refusal),
            }
        }
        Err(refusal) => Err(refusal),
    }
}

/// Sets the limits that lines ask for in an opened file of this name, up to the first edit that is refused: by one
/// replacement of the file where that pays, and otherwise in its place, one line after another.
fn edit_lines<S: Store>(
    alloc: Global,
    kind: Kind,
    format: Option<Format>,
    mut opened: AnyFile,
    lines: &[LineEdit],
    file: Word,
    store: &mut S,
    now: u64,
) -> Result<(), Refusal>
    requires { ⟦<AnyFile as QuotaFile<S>>⟧.seen opened
        ≡ fresh_seen file (⟦<AnyFile as QuotaFile<S>>⟧.seen opened).format }
    ensures carries { IsOpenedAs (asked_of format) (⟦<AnyFile as QuotaFile<S>>⟧.seen opened).format
        → (value : QuotaValue) → (IsTrue S.tells → ⟦<AnyFile as QuotaFile<S>>⟧.holds opened store.old value)
        → (IsTrue S.tells → IsView ((S.seen store.old).files file) kind (asked_of format) (Ok value))
        → (input : SourceSeen) (out err : SinkSeen) (link : LinkSeen)
        (input_tells out_tells err_tells link_tells : Bool)
        → CarriesOut (LineSteps (way_of lines.now) file now lines.now value) line_uses
        (LineEditMayRefuse (asked_of format) file)
        (tells_of S.tells input_tells out_tells err_tells link_tells)
        (seen_of (S.seen store.old) input out err link)
        (seen_of (S.seen store.new) input out err link) result }
    ensures wanting { IfWanting (IsUnwritten (S.seen store.old) (S.seen store.new)) result }
    ensures others { ReplacesOnly file (S.seen store.old).files (S.seen store.new).files }
    ensures synced { IsTrue S.tells → Syncs (is_ok result) (S.seen store.old) (S.seen store.new) }
    ensures commits { IsTrue S.tells → (value : QuotaValue) → ⟦<AnyFile as QuotaFile<S>>⟧.holds opened store.old value
        → IsView ((S.seen store.old).files file) kind (asked_of format) (Ok value)
        → CommitsFrom (MakeTogether (asked_of format) file now lines.now (S.seen store.old).files value) (is_ok result)
        (LineSteps (way_of lines.now) file now lines.now value) (ReplacesOnly file (S.seen store.old).files)
        (S.seen store.old).files (S.seen store.new).files (λ worlds. S.commits worlds store.old store.new) }
    ensures reads { IsOpenedAs (asked_of format) (⟦<AnyFile as QuotaFile<S>>⟧.seen opened).format
        → (value : QuotaValue) → (IsTrue S.tells → ⟦<AnyFile as QuotaFile<S>>⟧.holds opened store.old value)
        → (IsTrue S.tells → IsView ((S.seen store.old).files file) kind (asked_of format) (Ok value))
        → OnOk result (IsTrue S.tells → (S.seen store.new).reads ≤ (S.seen store.old).reads
        + line_reads lines.now) }
{
    match edit_together(alloc, kind, format, lines, file, store, now) {
        Attempt::Ended(ended) => ended,
        Attempt::NotMade(file) => edit_all(&mut opened, lines, file, store, now).ended,
    }
}

/// Lines that were edited, up to one that was refused.
#[derive(Debug, Drop)]
pub struct EditedLines {
    /// How many were.
    pub made: u64,
    /// How their edits ended.
    pub ended: Result<(), Refusal>,
}

/// Sets the limits that lines ask for in an opened file of this name, in order, up to the first edit that is refused.
///
/// # Errors
///
/// In how it ended: an edit was refused, or the store failed. None is refused for lack of memory.
pub fn edit_all<S: Store>(
    opened: &mut AnyFile,
    lines: &[LineEdit],
    file: Word,
    store: &mut S,
    now: u64,
) -> EditedLines
    requires { ⟦<AnyFile as QuotaFile<S>>⟧.seen opened.old
        ≡ fresh_seen file (⟦<AnyFile as QuotaFile<S>>⟧.seen opened.old).format }
    ensures carries { (way : Way) (asked : Asked)
        → IsOpenedAs asked (⟦<AnyFile as QuotaFile<S>>⟧.seen opened.old).format
        → (value : QuotaValue) → (IsTrue S.tells → ⟦<AnyFile as QuotaFile<S>>⟧.holds opened.old store.old value)
        → (input : SourceSeen) (out err : SinkSeen) (link : LinkSeen)
        (input_tells out_tells err_tells link_tells : Bool)
        → CarriesOut (LineSteps way file now lines.now value) line_uses (LineEditMayRefuse asked file)
        (tells_of S.tells input_tells out_tells err_tells link_tells)
        (seen_of (S.seen store.old) input out err link)
        (seen_of (S.seen store.new) input out err link) result.ended }
    // So many lines were edited as it says, unless it ended since something failed.
    ensures counted { IsTrue S.tells → (others : ℕ) (value : QuotaValue)
        → ⟦<AnyFile as QuotaFile<S>>⟧.holds opened.old store.old value
        → (input : SourceSeen) (out err : SinkSeen) (link : LinkSeen) (tells : RunTells)
        → IfOwn result.ended
        (HasMade (LineSteps (Together others) file now lines.now value) tells (refusal_in result.ended) result.made
        (seen_of (S.seen store.old) input out err link)
        (seen_of (S.seen store.new) input out err link)) }
    ensures few { result.made ≤ length lines.now }
    ensures all { OnOk result.ended (result.made ≡ length lines.now) }
    ensures memory { IfErr result.ended (λ refusal. refusal.cause ≢ Memory) }
    ensures leaves { EditsOne file (S.seen store.old) (S.seen store.new) }
    ensures synced { IsTrue S.tells → Syncs (is_ok result.ended) (S.seen store.old) (S.seen store.new) }
    // All that was committed is files that the steps of the lines come to, in their order, in which no other file has
    // changed: of so many moments at most as there are lines.
    ensures commits { IsTrue S.tells → (way : Way) (value : QuotaValue)
        → ⟦<AnyFile as QuotaFile<S>>⟧.holds opened.old store.old value
        → CommitsEach (LineSteps way file now lines.now value) (KeepsOthers file (S.seen store.old).files)
        (S.seen store.old).files
        (length lines.now) (λ worlds. S.commits worlds store.old store.new) }
    ensures reads { OnOk result.ended ((S.seen store.new).reads ≤ (S.seen store.old).reads + 17 * length lines.now) }
{
    for (made, line) in lines.iter().enumerate() {
        match set_limits(opened, store, line.id, &line.limits, now) {
            Ok(()) => {}
            Err(fault) => {
                let refusal = at_line(line.number, Refusal::of(edit_cause(fault), file));
                return EditedLines {
                    made: made as u64,
                    ended: Err(refusal),
                };
            }
        }
    }
    EditedLines {
        made: lines.len() as u64,
        ended: Ok(()),
    }
}
