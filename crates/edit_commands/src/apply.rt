ghost use Rattle.std.specs.Prelude.{ℕ, List, Option, ◌≡◌, Bool, false, Err, IfErr, IsSome, IsTrue, Some, is_ok, None};
ghost use Rattle.std.specs.Prelude.{⊤};
ghost use Rattle.outside.specs.ManyCalls.{Syncs};
ghost use Rattle.outside.specs.Seen.{Datagram, LinkSeen, SinkSeen};
ghost use Rattle.outside.specs.World.{KeepsOthers};
ghost use Rattle.refusals.specs.declared.reason.Refusal.{Refusal};
ghost use Rattle.run_steps.specs.Committed.{CommitsSteps};
ghost use Rattle.run_steps.specs.Done.{seen_of, tells_of};
ghost use Rattle.refusals.specs.Outcome.{refusal_in};
ghost use Rattle.run_steps.specs.Carrying.{CarriesOut, EditsAlone};
ghost use Rattle.run_steps.specs.Steps.{Then};
ghost use Rattle.edit_commands.specs.Apply.{ApplyMayRefuse, ApplySteps, FormEditMayRefuse, FormSteps};
ghost use Rattle.edit_commands.specs.Apply.{NamedApplyMayRefuse, apply_uses};
ghost use Rattle.edit_commands.specs.EditsInPart.{IsLeftFor};
ghost use Rattle.edit_commands.specs.Print.{faulty_print};
ghost use Rattle.run_steps.specs.Numbers.{identifier_of};
ghost use Rattle.quota_map.specs.Asked.{asked_of};

use crate::edit::FileEdit;
use crate::edits::edit_file;
use crate::form_input::take_form;
use command_words::Common;
use id_names::Names;
use outside::{Sink, Source, Store};
use quota_types::{Format, Kind};
use refusals::{Refusal, Word};
use run_steps::{Invocation, read_identifier, read_names};
use std::alloc::Global;

/// Sets the limits of an identifier that its form asks for.
///
/// # Errors
///
/// The names are not read, the word for the identifier is faulty, the form is not read, the file is not opened, or the
/// edit is refused.
pub fn apply_by_word<S: Store, I: Source, E: Sink>(
    alloc: Global,
    common: Common,
    from: Option<Word>,
    word: Word,
    file: Word,
    store: &mut S,
    input: &mut I,
    err: &mut E,
    invocation: Invocation,
) -> Result<(), Refusal>
    ensures carries { (out : SinkSeen) (link : LinkSeen) (out_tells link_tells : Bool)
        → CarriesOut (ApplySteps common from word file invocation) (apply_uses from)
        (ApplyMayRefuse common from word file)
        (tells_of S.tells I.tells out_tells E.tells link_tells)
        (seen_of (S.seen store.old) (I.seen input.old) out (E.seen err.old) link)
        (seen_of (S.seen store.new) (I.seen input.new) out (E.seen err.new) link) result }
    // A faulty word is refused before anything is read, where its refusal rests on nothing but the words.
    ensures word { (refusal : Refusal) → faulty_print common word ≡ Some refusal → result ≡ Err refusal }
    ensures store { (refusal : Refusal) → faulty_print common word ≡ Some refusal → store.new ≡ store.old }
    // Where it was refused, the file is as it was, or as an edit that failed may leave it.
    ensures named { IfErr result (λ refusal. IsTrue S.tells
        → IsLeftFor refusal.cause ((S.seen store.old).files file) ((S.seen store.new).files file)) }
    // No file but this one has changed, with twelve calls of `write` at most, however it ended.
    ensures alone { EditsAlone file (S.seen store.old) (S.seen store.new) }
    // What was written has been synced where it was done, and where it was not too, unless a call on the store failed.
    ensures synced { IsTrue S.tells → Syncs (is_ok result) (S.seen store.old) (S.seen store.new) }
    // All that is committed are the files of one moment, to which its steps come, and which are those of the end where
    // it was done.
    ensures commits { (datagrams : List Datagram) → IsTrue S.tells → (from ≡ None → IsTrue I.tells)
        → CommitsSteps ⊤ (is_ok result) (ApplySteps common from word file invocation)
        (KeepsOthers file (S.seen store.old).files)
        (record { files = (S.seen store.old).files; input = (I.seen input.old).left; datagrams = datagrams })
        (S.seen store.new).files
        (λ worlds. S.commits worlds store.old store.new) }
    ensures untouched { IsSome from → input.new ≡ input.old }
    ensures keeps { I.keeps false input.old input.new }
    ensures quiet { err.new ≡ err.old }
{
    let Common {
        kind,
        format,
        names,
    } = common;
    match read_names(alloc, kind, names, store) {
        Ok(names) => apply_named(
            alloc, &names, kind, format, from, word, file, store, input, err, invocation,
        ),
        Err(refusal) => Err(refusal),
    }
}

/// Applies a form to the identifier that a word stands for, where these are the names.
fn apply_named<S: Store, I: Source, E: Sink>(
    alloc: Global,
    names: &Names,
    kind: Kind,
    format: Option<Format>,
    from: Option<Word>,
    word: Word,
    file: Word,
    store: &mut S,
    input: &mut I,
    err: &mut E,
    invocation: Invocation,
) -> Result<(), Refusal>
    ensures carries { (out : SinkSeen) (link : LinkSeen) (out_tells link_tells : Bool)
        → CarriesOut (Then (identifier_of names.now word)
        (λ (id : ℕ). FormSteps kind (asked_of format) names.now from id file invocation))
        (apply_uses from) (NamedApplyMayRefuse (asked_of format) from word file names.now)
        (tells_of S.tells I.tells out_tells E.tells link_tells)
        (seen_of (S.seen store.old) (I.seen input.old) out (E.seen err.old) link)
        (seen_of (S.seen store.new) (I.seen input.new) out (E.seen err.new) link) result }
    ensures word { (refusal : Refusal) → refusal_in (identifier_of names.now word) ≡ Some refusal
        → result ≡ Err refusal }
    ensures store { (refusal : Refusal) → refusal_in (identifier_of names.now word) ≡ Some refusal
        → store.new ≡ store.old }
    ensures named { IfErr result (λ refusal. IsTrue S.tells
        → IsLeftFor refusal.cause ((S.seen store.old).files file) ((S.seen store.new).files file)) }
    ensures alone { EditsAlone file (S.seen store.old) (S.seen store.new) }
    ensures synced { IsTrue S.tells → Syncs (is_ok result) (S.seen store.old) (S.seen store.new) }
    ensures commits { (datagrams : List Datagram) → IsTrue S.tells → (from ≡ None → IsTrue I.tells)
        → CommitsSteps ⊤ (is_ok result)
        (Then (identifier_of names.now word)
        (λ (id : ℕ). FormSteps kind (asked_of format) names.now from id file invocation))
        (KeepsOthers file (S.seen store.old).files)
        (record { files = (S.seen store.old).files; input = (I.seen input.old).left; datagrams = datagrams })
        (S.seen store.new).files
        (λ worlds. S.commits worlds store.old store.new) }
    ensures untouched { IsSome from → input.new ≡ input.old }
    ensures keeps { I.keeps false input.old input.new }
    ensures quiet { err.new ≡ err.old }
{
    match read_identifier(names, word) {
        Ok(id) => apply_form(
            alloc, names, kind, format, from, id, file, store, input, err, invocation,
        ),
        Err(refusal) => Err(refusal),
    }
}

/// Reads the form of an identifier, and sets the limits that it asks for.
fn apply_form<S: Store, I: Source, E: Sink>(
    alloc: Global,
    names: &Names,
    kind: Kind,
    format: Option<Format>,
    from: Option<Word>,
    id: u32,
    file: Word,
    store: &mut S,
    input: &mut I,
    err: &mut E,
    invocation: Invocation,
) -> Result<(), Refusal>
    ensures carries { (out : SinkSeen) (link : LinkSeen) (out_tells link_tells : Bool)
        → CarriesOut (FormSteps kind (asked_of format) names.now from id file invocation) (apply_uses from)
        (FormEditMayRefuse (asked_of format) from id file)
        (tells_of S.tells I.tells out_tells E.tells link_tells)
        (seen_of (S.seen store.old) (I.seen input.old) out (E.seen err.old) link)
        (seen_of (S.seen store.new) (I.seen input.new) out (E.seen err.new) link) result }
    ensures named { IfErr result (λ refusal. IsTrue S.tells
        → IsLeftFor refusal.cause ((S.seen store.old).files file) ((S.seen store.new).files file)) }
    ensures alone { EditsAlone file (S.seen store.old) (S.seen store.new) }
    ensures synced { IsTrue S.tells → Syncs (is_ok result) (S.seen store.old) (S.seen store.new) }
    ensures commits { (datagrams : List Datagram) → IsTrue S.tells → (from ≡ None → IsTrue I.tells)
        → CommitsSteps ⊤ (is_ok result) (FormSteps kind (asked_of format) names.now from id file invocation)
        (KeepsOthers file (S.seen store.old).files)
        (record { files = (S.seen store.old).files; input = (I.seen input.old).left; datagrams = datagrams })
        (S.seen store.new).files
        (λ worlds. S.commits worlds store.old store.new) }
    ensures untouched { IsSome from → input.new ≡ input.old }
    ensures keeps { I.keeps false input.old input.new }
    ensures quiet { err.new ≡ err.old }
{
    match take_form(alloc, names, kind, id, file.as_str(), from, store, input) {
        Ok(limits) => {
            let edit = FileEdit::Limits { id, limits };
            edit_file(alloc, kind, format, &edit, file, store, err, invocation)
        }
        Err(refusal) => Err(refusal),
    }
}
