ghost use Rattle.std.specs.Prelude.{[], ℕ, Option, ◌≡◌, ◌≤◌, ◌++◌, Bool, Err, IsTrue, OnErr, OnOk, Some, is_ok};
ghost use Rattle.id_names.specs.FirstMatch.{first_name};
ghost use Rattle.outside.specs.Count.{Rose};
ghost use Rattle.outside.specs.Text.{AppendsPrefix};
ghost use Rattle.report_text.specs.Report.{numbered, shown_name};
ghost use Rattle.set_edit.specs.Form.{form_of};
ghost use Rattle.set_edit.specs.Times.{found_or_zeros};
ghost use Rattle.outside.specs.Seen.{LinkSeen, SinkSeen, SourceSeen};
ghost use Rattle.outside.specs.ManyCalls.{Syncs};
ghost use Rattle.refusals.specs.declared.reason.Refusal.{Refusal};
ghost use Rattle.run_steps.specs.Done.{seen_of, tells_of};
ghost use Rattle.refusals.specs.Outcome.{refusal_in};
ghost use Rattle.run_steps.specs.Carrying.{CarriesOut};
ghost use Rattle.run_steps.specs.Steps.{Then};
ghost use Rattle.edit_commands.specs.Print.{NamedPrintMayRefuse, PrintMayRefuse, PrintSteps, faulty_print, form_on};
ghost use Rattle.run_steps.specs.Showing.{ShowingMayRefuse, ShowingSteps, showing_uses};
ghost use Rattle.run_steps.specs.Numbers.{identifier_of};
ghost use Rattle.quota_map.specs.Asked.{asked_of};

use arrayvec::ArrayVec;
use command_words::Common;
use id_names::Names;
use itoa::Buffer;
use opened_file::QuotaFile;
use outside::{Sink, SinkFault, Store};
use quota_map::open_file;
use quota_types::{Format, Kind, Rec};
use refusals::{Cause, Refusal, Word};
use run_steps::{file_cause, opening_cause, read_identifier, read_names};
use set_edit::print_form;
use std::alloc::Global;

/// Writes the form of an identifier's limits to the output.
///
/// # Errors
///
/// The names are not read, the word for the identifier is faulty, the file is not opened, the look-up in it is refused,
/// or the output fails.
pub fn print_by_word<S: Store, O: Sink>(
    alloc: Global,
    common: Common,
    word: Word,
    file: Word,
    store: &mut S,
    out: &mut O,
) -> Result<(), Refusal>
    ensures carries { (input : SourceSeen) (err : SinkSeen) (link : LinkSeen) (input_tells err_tells link_tells : Bool)
        (now : ℕ) (line : Option ℕ)
        → CarriesOut (PrintSteps common word file (record { now = now; line = line })) showing_uses
        (PrintMayRefuse common word file)
        (tells_of S.tells input_tells O.tells err_tells link_tells)
        (seen_of (S.seen store.old) input (O.seen out.old) err link)
        (seen_of (S.seen store.new) input (O.seen out.new) err link) result }
    // A faulty word is refused before anything is read, where its refusal rests on nothing but the words.
    ensures word { (refusal : Refusal) → faulty_print common word ≡ Some refusal → result ≡ Err refusal }
    ensures store { (refusal : Refusal) → faulty_print common word ≡ Some refusal → store.new ≡ store.old }
    ensures synced { Syncs (is_ok result) (S.seen store.old) (S.seen store.new) }
    // It only looks: nothing is committed.
    ensures commits { S.commits [] store.old store.new }
{
    let Common {
        kind,
        format,
        names,
    } = common;
    match read_names(alloc, kind, names, store) {
        Ok(names) => print_named(alloc, &names, kind, format, word, file, store, out),
        Err(refusal) => Err(refusal),
    }
}

/// Prints the form of the identifier that a word stands for, where these are the names.
fn print_named<S: Store, O: Sink>(
    alloc: Global,
    names: &Names,
    kind: Kind,
    format: Option<Format>,
    word: Word,
    file: Word,
    store: &mut S,
    out: &mut O,
) -> Result<(), Refusal>
    ensures carries { (input : SourceSeen) (err : SinkSeen) (link : LinkSeen) (input_tells err_tells link_tells : Bool)
        → CarriesOut (Then (identifier_of names.now word)
        (λ (id : ℕ). ShowingSteps kind (asked_of format) file (form_on kind names.now file id)))
        showing_uses (NamedPrintMayRefuse (asked_of format) word file names.now)
        (tells_of S.tells input_tells O.tells err_tells link_tells)
        (seen_of (S.seen store.old) input (O.seen out.old) err link)
        (seen_of (S.seen store.new) input (O.seen out.new) err link) result }
    ensures word { (refusal : Refusal) → refusal_in (identifier_of names.now word) ≡ Some refusal
        → result ≡ Err refusal }
    ensures store { (refusal : Refusal) → refusal_in (identifier_of names.now word) ≡ Some refusal
        → store.new ≡ store.old }
    ensures synced { Syncs (is_ok result) (S.seen store.old) (S.seen store.new) }
    ensures commits { S.commits [] store.old store.new }
{
    match read_identifier(names, word) {
        Ok(id) => print_opened(alloc, names, kind, format, id, file, store, out),
        Err(refusal) => Err(refusal),
    }
}

/// Opens a file, and writes the form of an identifier in it.
fn print_opened<S: Store, O: Sink>(
    alloc: Global,
    names: &Names,
    kind: Kind,
    format: Option<Format>,
    id: u32,
    file: Word,
    store: &mut S,
    out: &mut O,
) -> Result<(), Refusal>
    ensures carries { (input : SourceSeen) (err : SinkSeen) (link : LinkSeen) (input_tells err_tells link_tells : Bool)
        → CarriesOut (ShowingSteps kind (asked_of format) file (form_on kind names.now file id)) showing_uses
        (ShowingMayRefuse (asked_of format) file)
        (tells_of S.tells input_tells O.tells err_tells link_tells)
        (seen_of (S.seen store.old) input (O.seen out.old) err link)
        (seen_of (S.seen store.new) input (O.seen out.new) err link) result }
    ensures synced { Syncs (is_ok result) (S.seen store.old) (S.seen store.new) }
    ensures commits { S.commits [] store.old store.new }
{
    match open_file(alloc, store, file.as_str(), kind, format) {
        Ok(mut opened) => match opened.get(store, id) {
            Ok(found) => match write_form(out, names, kind, id, file.as_str(), found) {
                Ok(()) => Ok(()),
                Err(_) => Err(Refusal::of(Cause::SinkFault, file)),
            },
            Err(fault) => Err(Refusal::of(file_cause(fault), file)),
        },
        Err(fault) => Err(Refusal::of(opening_cause(fault), file)),
    }
}

/// Writes the form of an identifier with this record, or with one of zeros, under its name.
fn write_form<O: Sink>(
    out: &mut O,
    names: &Names,
    kind: Kind,
    id: u32,
    file: &str,
    found: Option<Rec>,
) -> Result<(), SinkFault>
    ensures ok { OnOk result (IsTrue O.tells → (O.seen out.new).written ≡ (O.seen out.old).written
        ++ form_of kind (shown_name (first_name names.now) id) id file.now (found_or_zeros found)) }
    ensures fault { OnErr result (IsTrue O.tells → AppendsPrefix (O.seen out.old).written (O.seen out.new).written
        (form_of kind (shown_name (first_name names.now) id) id file.now (found_or_zeros found))) }
    ensures cause { OnErr result (Rose (O.seen out.old).faults (O.seen out.new).faults) }
    ensures later { (O.seen out.old).faults ≤ (O.seen out.new).faults }
{
    let rec = found.unwrap_or_default();
    match names.name_of(id) {
        Some(name) => print_form(out, kind, name, id, file, &rec),
        None => print_form(out, kind, numbered(id).as_slice(), id, file, &rec),
    }
}

/// `#` and the identifier.
pub fn numbered(id: u32) -> ArrayVec<u8, 16>
    ensures { result.items ≡ numbered id }
{
    let mut text = ArrayVec::new();
    let mut digits = Buffer::new();
    text.try_extend_from_slice(b"#").unwrap();
    text.try_extend_from_slice(digits.format(id).as_bytes())
        .unwrap();
    text
}
