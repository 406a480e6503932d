ghost use Rattle.std.specs.Prelude.{ℕ, List, Option, ◌≡◌, Bool, Err, IfErr, IfOk, IsTrue, OnOk, Some, false, is_ok, ⊤};
ghost use Rattle.outside.specs.ManyCalls.{Syncs};
ghost use Rattle.quota_value.specs.QuotaValue.{QuotaValue};
ghost use Rattle.outside.specs.Seen.{Datagram, LinkSeen, SinkSeen, SourceSeen};
ghost use Rattle.outside.specs.World.{KeepsOthers};
ghost use Rattle.opened_file.specs.Committed.{CommitsOnce};
ghost use Rattle.quota_map.specs.Asked.{asked_of};
ghost use Rattle.quota_map.specs.AnyFile.{HoldsAny, any_at, any_laws, any_seen};
ghost use Rattle.quota_map.specs.StandsFor.{StandsForAs};
ghost use Rattle.set_edit.specs.EditCalls.{Edits, StandsEdited};
ghost use Rattle.refusals.specs.declared.reason.Refusal.{Refusal};
ghost use Rattle.run_steps.specs.Committed.{CommitsSteps};
ghost use Rattle.run_steps.specs.Done.{seen_of, tells_of};
ghost use Rattle.refusals.specs.Outcome.{refusal_in};
ghost use Rattle.run_steps.specs.Carrying.{CarriesOut, EditsAlone};
ghost use Rattle.run_steps.specs.Steps.{Then};
ghost use Rattle.edit_commands.specs.Edits.{EditMayRefuse, EditSteps, FileEditMayRefuse, FileEditSteps};
ghost use Rattle.edit_commands.specs.Edits.{NamedEditMayRefuse, faulty_edit};
ghost use Rattle.edit_commands.specs.EditsInPart.{IsLeftFor, unskipped, MaySkip};
ghost use Rattle.run_steps.specs.Changing.{edit_uses};
ghost use Rattle.edit_commands.specs.declared.edit.FileEdit.{FileEdit as FileEditOf};
ghost use Rattle.edit_commands.specs.Made.{MakesEdit, MakesNamed, MakesWords};
ghost use Rattle.edit_commands.specs.EditWords.{edit_meant, edit_read, edit_warns, skipped_by, words_warn};

use crate::EditWords;
use crate::edit::FileEdit;
use crate::edit_words::{names_wanted, read_edit};
use crate::warning::write_warnings;
use command_words::Common;
use edit_steps::edit_cause;
use id_names::Names;
use opened_file::QuotaFile;
use outside::{Sink, Store};
use quota_map::{AnyFile, open_file};
use quota_types::{Format, Kind};
use refusals::{Cause, Refusal, Word};
use run_steps::{Invocation, opening_cause, read_names};
use set_edit::{EditFault, Skipped, copy_limits, set_grace_periods, set_limits, set_times};
use std::alloc::Global;

/// Carries out the edit of a file that words ask for.
///
/// # Errors
///
/// The names are not read, a word is faulty, the file is not opened, or the edit is refused; or the error output fails
/// in a warning.
pub fn edit_by_words<S: Store, E: Sink>(
    alloc: Global,
    common: Common,
    words: EditWords,
    file: Word,
    store: &mut S,
    err: &mut E,
    invocation: Invocation,
) -> Result<(), Refusal>
    ensures carries { (input : SourceSeen) (out : SinkSeen) (link : LinkSeen) (input_tells out_tells link_tells : Bool)
        → CarriesOut (EditSteps common words file invocation) (edit_uses (words_warn words))
        (EditMayRefuse common words file)
        (tells_of S.tells input_tells out_tells E.tells link_tells)
        (seen_of (S.seen store.old) input out (E.seen err.old) link)
        (seen_of (S.seen store.new) input out (E.seen err.new) link) result }
    // A faulty word is refused before anything is read, where its refusal rests on nothing but the words.
    ensures word { (refusal : Refusal) → faulty_edit common words ≡ Some refusal → result ≡ Err refusal }
    ensures store { (refusal : Refusal) → faulty_edit common words ≡ Some refusal → store.new ≡ store.old }
    ensures silent { (refusal : Refusal) → faulty_edit common words ≡ Some refusal → err.new ≡ err.old }
    // Where it was refused, the file is as it was, or as an edit that failed may leave it, unless it warns.
    ensures named { words_warn words ≡ false → IfErr result (λ refusal. IsTrue S.tells
        → IsLeftFor refusal.cause ((S.seen store.old).files file) ((S.seen store.new).files file)) }
    // No file but this one has changed, with twelve calls of `write` at most, however it ended.
    ensures alone { EditsAlone file (S.seen store.old) (S.seen store.new) }
    // Where it was done, the files are what a change of such a file makes of them.
    ensures made { OnOk result (IsTrue S.tells
        → MakesWords common words file invocation.now (S.seen store.old).files (S.seen store.new).files) }
    // What was written has been synced where it was done, and where it was not too, unless a call on the store failed.
    ensures synced { IsTrue S.tells → Syncs (is_ok result) (S.seen store.old) (S.seen store.new) }
    // All that is committed are the files of one moment, to which its steps come, and which are those of the end where
    // it was done.
    ensures commits { (input : List ℕ) (datagrams : List Datagram) → IsTrue S.tells
        → CommitsSteps ⊤ (is_ok result) (EditSteps common words file invocation)
        (KeepsOthers file (S.seen store.old).files)
        (record { files = (S.seen store.old).files; input = input; datagrams = datagrams }) (S.seen store.new).files
        (λ worlds. S.commits worlds store.old store.new) }
    ensures quiet { words_warn words ≡ false → err.new ≡ err.old }
{
    let Common {
        kind,
        format,
        names,
    } = common;
    let names = names_wanted(&words, names);
    match read_names(alloc, kind, names, store) {
        Ok(names) => edit_named(
            alloc, &names, kind, format, words, file, store, err, invocation,
        ),
        Err(refusal) => Err(refusal),
    }
}

/// Carries out the edit of a file that words ask for, where these are the names.
fn edit_named<S: Store, E: Sink>(
    alloc: Global,
    names: &Names,
    kind: Kind,
    format: Option<Format>,
    words: EditWords,
    file: Word,
    store: &mut S,
    err: &mut E,
    invocation: Invocation,
) -> Result<(), Refusal>
    ensures carries { (input : SourceSeen) (out : SinkSeen) (link : LinkSeen) (input_tells out_tells link_tells : Bool)
        → CarriesOut (Then (edit_read names.now words)
        (λ (edit : FileEditOf). FileEditSteps kind (asked_of format) edit file invocation))
        (edit_uses (words_warn words)) (NamedEditMayRefuse (asked_of format) words file names.now)
        (tells_of S.tells input_tells out_tells E.tells link_tells)
        (seen_of (S.seen store.old) input out (E.seen err.old) link)
        (seen_of (S.seen store.new) input out (E.seen err.new) link) result }
    ensures word { (refusal : Refusal) → refusal_in (edit_read names.now words) ≡ Some refusal → result ≡ Err refusal }
    ensures store { (refusal : Refusal) → refusal_in (edit_read names.now words) ≡ Some refusal
        → store.new ≡ store.old }
    ensures silent { (refusal : Refusal) → refusal_in (edit_read names.now words) ≡ Some refusal → err.new ≡ err.old }
    ensures named { words_warn words ≡ false → IfErr result (λ refusal. IsTrue S.tells
        → IsLeftFor refusal.cause ((S.seen store.old).files file) ((S.seen store.new).files file)) }
    ensures alone { EditsAlone file (S.seen store.old) (S.seen store.new) }
    ensures made { OnOk result (IsTrue S.tells
        → MakesNamed names.now kind (asked_of format) words file invocation.now (S.seen store.old).files
        (S.seen store.new).files) }
    ensures synced { IsTrue S.tells → Syncs (is_ok result) (S.seen store.old) (S.seen store.new) }
    ensures commits { (input : List ℕ) (datagrams : List Datagram) → IsTrue S.tells
        → CommitsSteps ⊤ (is_ok result)
        (Then (edit_read names.now words)
        (λ (edit : FileEditOf). FileEditSteps kind (asked_of format) edit file invocation))
        (KeepsOthers file (S.seen store.old).files)
        (record { files = (S.seen store.old).files; input = input; datagrams = datagrams }) (S.seen store.new).files
        (λ worlds. S.commits worlds store.old store.new) }
    ensures quiet { words_warn words ≡ false → err.new ≡ err.old }
{
    match read_edit(alloc, names, words) {
        Ok(edit) => edit_file(alloc, kind, format, &edit, file, store, err, invocation),
        Err(refusal) => Err(refusal),
    }
}

/// Opens a file, edits it, and warns of the times that the edit skipped.
///
/// # Errors
///
/// The file is not opened, or the edit is refused; or the error output fails in a warning.
pub fn edit_file<S: Store, E: Sink>(
    alloc: Global,
    kind: Kind,
    format: Option<Format>,
    edit: &FileEdit,
    file: Word,
    store: &mut S,
    err: &mut E,
    invocation: Invocation,
) -> Result<(), Refusal>
    ensures carries { (input : SourceSeen) (out : SinkSeen) (link : LinkSeen) (input_tells out_tells link_tells : Bool)
        → CarriesOut (FileEditSteps kind (asked_of format) edit.now file invocation) (edit_uses (edit_warns edit.now))
        (FileEditMayRefuse (asked_of format) edit.now file)
        (tells_of S.tells input_tells out_tells E.tells link_tells)
        (seen_of (S.seen store.old) input out (E.seen err.old) link)
        (seen_of (S.seen store.new) input out (E.seen err.new) link) result }
    ensures named { edit_warns edit.now ≡ false → IfErr result (λ refusal. IsTrue S.tells
        → IsLeftFor refusal.cause ((S.seen store.old).files file) ((S.seen store.new).files file)) }
    ensures alone { EditsAlone file (S.seen store.old) (S.seen store.new) }
    ensures made { OnOk result (IsTrue S.tells
        → MakesEdit kind (asked_of format) (edit_meant edit.now invocation.now) file (S.seen store.old).files
        (S.seen store.new).files) }
    ensures synced { IsTrue S.tells → Syncs (is_ok result) (S.seen store.old) (S.seen store.new) }
    ensures commits { (input : List ℕ) (datagrams : List Datagram) → IsTrue S.tells
        → CommitsSteps ⊤ (is_ok result) (FileEditSteps kind (asked_of format) edit.now file invocation)
        (KeepsOthers file (S.seen store.old).files)
        (record { files = (S.seen store.old).files; input = input; datagrams = datagrams }) (S.seen store.new).files
        (λ worlds. S.commits worlds store.old store.new) }
    ensures quiet { edit_warns edit.now ≡ false → err.new ≡ err.old }
{
    match open_file(alloc, store, file.as_str(), kind, format) {
        Ok(mut opened) => match make_edit(&mut opened, store, edit, invocation.now) {
            Ok(skipped) => match write_warnings(err, invocation.line, skipped) {
                Ok(()) => Ok(()),
                Err(_) => Err(Refusal::of(Cause::SinkFault, file)),
            },
            Err(fault) => Err(Refusal::of(edit_cause(fault), file)),
        },
        Err(fault) => Err(Refusal::of(opening_cause(fault), file)),
    }
}

/// Makes an edit of an opened file, and answers which times it skipped.
fn make_edit<S: Store>(
    opened: &mut AnyFile,
    store: &mut S,
    edit: &FileEdit,
    now: u64,
) -> Result<Skipped, EditFault>
    requires { IsTrue (⟦<AnyFile as QuotaFile<S>>⟧.seen opened.old).usable }
    ensures edits { Edits (edit_meant edit.now now) (any_laws S.tells)
        (any_at S.tells (S.seen store.old) opened.old) (any_at S.tells (S.seen store.new) opened.new) result }
    ensures skipped { IfOk result (λ skipped. (value : QuotaValue)
        → ⟦<AnyFile as QuotaFile<S>>⟧.holds opened.old store.old value → skipped ≡ skipped_by edit.now value) }
    ensures skips { IfOk result (MaySkip edit.now) }
    ensures commits { CommitsOnce (λ worlds. S.commits worlds store.old store.new)
        (StandsEdited (edit_meant edit.now now)
        (HoldsAny S.tells (S.seen store.old).files opened.old) (StandsForAs (any_seen opened.old).format)
        ((S.seen store.new).files (any_seen opened.old).name)) (S.seen store.new).files }
{
    match *edit {
        FileEdit::Limits { id, limits } => unskipped(set_limits(opened, store, id, &limits, now)),
        FileEdit::Copy { from, to } => unskipped(copy_limits(opened, store, from, to, now)),
        FileEdit::Grace { grace } => unskipped(set_grace_periods(opened, store, grace)),
        FileEdit::Times { id, block, inode } => set_times(opened, store, id, block, inode, now),
    }
}

/// The answer of an edit that skips no time.
fn unskipped(done: Result<(), EditFault>) -> Result<Skipped, EditFault>
    ensures { result ≡ unskipped done }
{
    match done {
        Ok(()) => Ok(Skipped {
            block: false,
            inode: false,
        }),
        Err(fault) => Err(fault),
    }
}
