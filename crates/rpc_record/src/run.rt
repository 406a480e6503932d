ghost use Rattle.std.specs.Prelude.{◌≡◌, ◌≢◌, ◌≤◌, ◌+◌, ◌*◌, ◌⊎◌, ◌↔◌, [], Ok, false, is_ok, IsErr, IsTrue, IfErr};
ghost use Rattle.std.specs.Prelude.{OnOk};
ghost use Rattle.std.specs.List.{All};
ghost use Rattle.std.specs.Result.{result_err};
ghost use Rattle.option_words.specs.Given.{exports_given};
ghost use Rattle.option_words.specs.Items.{texts_of};
ghost use Rattle.outside.specs.Count.{Rose};
ghost use Rattle.outside.specs.ManyCalls.{Syncs};
ghost use Rattle.outside.specs.Unsynced.{AddsNone};
ghost use Rattle.refusals.specs.Refusals.{nowhere};
ghost use Rattle.refusals.specs.Status.{status_of};
ghost use Rattle.rpc_record.specs.Faults.{stream_cause};
ghost use Rattle.rpc_record.specs.Run.{AreServed, CarriesWords, Ends, EndsServing, Runs, seen_of, tells_of};
ghost use Rattle.rpc_record.specs.Serving.{connection_reads};
ghost use Rattle.rquota_serve.specs.ExportedValues.{ExportedValues};
ghost use Rattle.rquota_serve.specs.Exports.{Serves, exports_seen};
ghost use Rattle.run_steps.specs.Done.{IsUnwritten};
ghost use Rattle.serve_steps.specs.Exporting.{AnsweringMayRefuse, MayExport};
ghost use Rattle.serve_steps.specs.ServeCauses.{IsAsAsked};
ghost use Rattle.stream_words.specs.Words.{StreamAsked, asked_of, stream_asked};
ghost use Rattle.quota_map.specs.Asked.{asked_of as asks_of};

use crate::StreamFault;
use crate::serving::serve_stream;
use network::Conns;
use option_words::ExportOption;
use outside::{Sink, Store};
use quota_types::Format;
use refusals::{Cause, Refusal, Word, refuse};
use rquota_serve::Exports;
use run_steps::file_cause;
use serve_steps::{add_all, first_file};
use std::alloc::Global;
use stream_words::{StreamWords, copy_exports, read_words};

/// Answers rquota calls over streams out of quota files, as words ask for it, and answers the status with which the
/// program ends: 0 done, 1 a file is refused, 2 the words are outside the grammar, 3 a file is no quota file of the
/// kind and format, or damaged, 4 a fault of the store, or of listening and accepting, 5 not enough memory. With a
/// status other than 0 one error line goes to `err`.
///
/// `words` are the words of the command line without the program's own name: PORT CONNECTIONS FORMAT, and 1 to 16 times
/// PATH KIND FILE. The files are opened in their order; then it listens at the port, once; and then exactly so many
/// connections are accepted and served, one after another. FORMAT `any` asks for no format. No memory is taken once it
/// listens.
pub fn run_stream<S: Store, C: Conns, E: Sink>(
    alloc: Global,
    words: &[String],
    store: &mut S,
    conns: &mut C,
    err: &mut E,
) -> u8
    requires { C.is_open conns.old ≡ false }
    // What was opened and served, by which status the run ends, and what was said.
    ensures runs { Runs (asked_of (texts_of words.now)) (tells_of S.tells C.tells)
        (seen_of (S.seen store.old) (C.seen conns.old)) (seen_of (S.seen store.new) (C.seen conns.new))
        E.tells (E.seen err.old) (E.seen err.new) result }
    // Status 2 comes exactly where the words are outside the grammar, and no call on the store was made then.
    ensures usage { (result ≡ 2) ↔ IsErr (asked_of (texts_of words.now)) }
    ensures store { result ≡ 2 → store.new ≡ store.old }
    // Where all files are accepted and nothing failed, it is done, or there was not enough memory.
    ensures accepted { (asked : StreamAsked) (exported : ExportedValues) → asked_of (texts_of words.now) ≡ Ok asked
        → IsTrue S.tells
        → AreServed asked (S.seen store.old).files exported
        → ¬ (Rose (S.seen store.old).faults (S.seen store.new).faults)
        → ¬ (Rose (C.seen conns.old).listener_faults (C.seen conns.new).listener_faults) → (result ≡ 0) ⊎ (result ≡ 5) }
    // Refused words, a file that is refused and lack of memory leave the connections alone: it did not listen.
    ensures conns { (result ≡ 1) ⊎ ((result ≡ 2) ⊎ (result ≡ 5)) → conns.new ≡ conns.old }
    // Status 4 comes only where a call on the store failed, or one of `listen` and `accept`.
    ensures failed { result ≡ 4 → Rose (S.seen store.old).faults (S.seen store.new).faults
        ⊎ Rose (C.seen conns.old).listener_faults (C.seen conns.new).listener_faults }
    // A connection is open behind it only where a file failed.
    ensures shut { result ≢ 3 → result ≢ 4 → C.is_open conns.new ≡ false }
    ensures err { result ≡ 0 → err.new ≡ err.old }
    // Where it was done, or no call on the store failed, no name is unsynced that was not.
    ensures synced { (result ≡ 0) ⊎ (¬ (Rose (S.seen store.old).faults (S.seen store.new).faults))
        → AddsNone (S.seen store.old).unsynced (S.seen store.new).unsynced }
    // No file is changed, and no count of faults falls.
    ensures unwritten { IsUnwritten (S.seen store.old) (S.seen store.new) }
    ensures store_later { (S.seen store.old).faults ≤ (S.seen store.new).faults }
    ensures listener_later { (C.seen conns.old).listener_faults ≤ (C.seen conns.new).listener_faults }
    ensures connection_later { (C.seen conns.old).connection_faults ≤ (C.seen conns.new).connection_faults }
    ensures err_later { (E.seen err.old).faults ≤ (E.seen err.new).faults }
    // Nothing is committed.
    ensures commits { S.commits [] store.old store.new }
{
    match carry_words(alloc, words, store, conns) {
        Ok(()) => 0,
        Err(refusal) => refuse(err, &refusal),
    }
}

/// Does what words ask for, but for the error line.
fn carry_words<S: Store, C: Conns>(
    alloc: Global,
    words: &[String],
    store: &mut S,
    conns: &mut C,
) -> Result<(), Refusal>
    requires { C.is_open conns.old ≡ false }
    ensures carried { CarriesWords (asked_of (texts_of words.now)) (tells_of S.tells C.tells)
        (seen_of (S.seen store.old) (C.seen conns.old)) (seen_of (S.seen store.new) (C.seen conns.new))
        (result_err result) }
    ensures placed { IfErr result (λ refusal. refusal.place ≡ nowhere) }
    ensures worded { IfErr result (λ refusal. status_of refusal.cause ≡ 2 → IsErr (asked_of (texts_of words.now))) }
    ensures store { IfErr result (λ refusal. status_of refusal.cause ≡ 2 → store.new ≡ store.old) }
    ensures conns { IfErr result
        (λ refusal. (status_of refusal.cause ≡ 3) ⊎ (status_of refusal.cause ≡ 4) ⊎ (conns.new ≡ conns.old)) }
    ensures shut { OnOk result (C.is_open conns.new ≡ false) }
    ensures unwritten { IsUnwritten (S.seen store.old) (S.seen store.new) }
    ensures store_later { (S.seen store.old).faults ≤ (S.seen store.new).faults }
    ensures synced { Syncs (is_ok result) (S.seen store.old) (S.seen store.new) }
    ensures listener_later { (C.seen conns.old).listener_faults ≤ (C.seen conns.new).listener_faults }
    ensures connection_later { (C.seen conns.old).connection_faults ≤ (C.seen conns.new).connection_faults }
    ensures commits { S.commits [] store.old store.new }
{
    match read_words(words) {
        Ok(read) => carry_out(alloc, &read, store, conns),
        Err(fault) => {
            let cause = Cause::Usage {
                kind: fault.kind,
                word: fault.word,
            };
            Err(Refusal::of(cause, Word::empty(alloc)))
        }
    }
}

/// Opens the files that were read of words, listens, and serves connections.
fn carry_out<S: Store, C: Conns>(
    alloc: Global,
    read: &StreamWords<'_>,
    store: &mut S,
    conns: &mut C,
) -> Result<(), Refusal>
    requires shut { C.is_open conns.old ≡ false }
    requires apart { MayExport [] (exports_given read.now.exports.items) }
    ensures carried { Ends (stream_asked read.now) (tells_of S.tells C.tells)
        (seen_of (S.seen store.old) (C.seen conns.old)) (seen_of (S.seen store.new) (C.seen conns.new))
        (result_err result) }
    ensures placed { IfErr result (λ refusal. refusal.place ≡ nowhere) }
    ensures worded { IfErr result (λ refusal. status_of refusal.cause ≢ 2) }
    ensures conns { IfErr result
        (λ refusal. (status_of refusal.cause ≡ 3) ⊎ (status_of refusal.cause ≡ 4) ⊎ (conns.new ≡ conns.old)) }
    ensures shut { OnOk result (C.is_open conns.new ≡ false) }
    ensures unwritten { IsUnwritten (S.seen store.old) (S.seen store.new) }
    ensures store_later { (S.seen store.old).faults ≤ (S.seen store.new).faults }
    ensures synced { Syncs (is_ok result) (S.seen store.old) (S.seen store.new) }
    ensures listener_later { (C.seen conns.old).listener_faults ≤ (C.seen conns.new).listener_faults }
    ensures connection_later { (C.seen conns.old).connection_faults ≤ (C.seen conns.new).connection_faults }
    ensures commits { S.commits [] store.old store.new }
{
    match copy_exports(alloc, read.exports.as_slice()) {
        Ok(exports) => serve_files(
            alloc,
            read.port,
            read.connections,
            read.format,
            exports.as_slice(),
            store,
            conns,
        ),
        Err(_) => Err(Refusal::of(Cause::Memory, Word::empty(alloc))),
    }
}

/// Opens files, listens at a port, and serves so many connections.
fn serve_files<S: Store, C: Conns>(
    alloc: Global,
    port: u16,
    connections: u32,
    format: Option<Format>,
    exports: &[ExportOption],
    store: &mut S,
    conns: &mut C,
) -> Result<(), Refusal>
    requires shut { C.is_open conns.old ≡ false }
    requires apart { MayExport [] exports.now }
    ensures carried { Ends (record { port = port; connections = connections; format = format; exports = exports.now })
        (tells_of S.tells C.tells)
        (seen_of (S.seen store.old) (C.seen conns.old)) (seen_of (S.seen store.new) (C.seen conns.new))
        (result_err result) }
    ensures placed { IfErr result (λ refusal. refusal.place ≡ nowhere) }
    ensures worded { IfErr result (λ refusal. status_of refusal.cause ≢ 2) }
    ensures conns { IfErr result
        (λ refusal. (status_of refusal.cause ≡ 3) ⊎ (status_of refusal.cause ≡ 4) ⊎ (conns.new ≡ conns.old)) }
    ensures shut { OnOk result (C.is_open conns.new ≡ false) }
    ensures unwritten { IsUnwritten (S.seen store.old) (S.seen store.new) }
    ensures store_later { (S.seen store.old).faults ≤ (S.seen store.new).faults }
    ensures synced { Syncs (is_ok result) (S.seen store.old) (S.seen store.new) }
    ensures listener_later { (C.seen conns.old).listener_faults ≤ (C.seen conns.new).listener_faults }
    ensures connection_later { (C.seen conns.old).connection_faults ≤ (C.seen conns.new).connection_faults }
    ensures commits { S.commits [] store.old store.new }
{
    let mut opened = Exports::new(alloc);
    match add_all(alloc, format, exports, &mut opened, store) {
        Ok(()) => match first_file(alloc, exports) {
            Ok(file) => serve_opened(&mut opened, format, port, connections, file, store, conns),
            Err(refusal) => Err(refusal),
        },
        Err(refusal) => Err(refusal),
    }
}

/// Listens at a port, and serves so many connections out of exported files. It takes no memory. Where a file is found
/// damaged, the refusal gives this name.
fn serve_opened<S: Store, C: Conns>(
    opened: &mut Exports,
    format: Option<Format>,
    port: u16,
    connections: u32,
    file: Word,
    store: &mut S,
    conns: &mut C,
) -> Result<(), Refusal>
    requires shut { C.is_open conns.old ≡ false }
    requires asked { All (IsAsAsked (asks_of format)) (exports_seen opened.old) }
    ensures ends { EndsServing (Serves S.tells (S.seen store.old).files opened.old) port connections C.tells
        (seen_of (S.seen store.old) (C.seen conns.old)) (seen_of (S.seen store.new) (C.seen conns.new))
        (result_err result) }
    ensures may { IfErr result (λ refusal. AnsweringMayRefuse (asks_of format) file refusal.cause refusal.name) }
    ensures placed { IfErr result (λ refusal. refusal.place ≡ nowhere) }
    ensures late { IfErr result (λ refusal. (status_of refusal.cause ≡ 3) ⊎ (status_of refusal.cause ≡ 4)) }
    ensures reads { (S.seen store.new).reads ≤ (S.seen store.old).reads + connection_reads * connections }
    ensures shut { OnOk result (C.is_open conns.new ≡ false) }
    ensures unwritten { IsUnwritten (S.seen store.old) (S.seen store.new) }
    ensures store_later { (S.seen store.old).faults ≤ (S.seen store.new).faults }
    ensures synced { Syncs (is_ok result) (S.seen store.old) (S.seen store.new) }
    ensures listener_later { (C.seen conns.old).listener_faults ≤ (C.seen conns.new).listener_faults }
    ensures connection_later { (C.seen conns.old).connection_faults ≤ (C.seen conns.new).connection_faults }
    ensures commits { S.commits [] store.old store.new }
{
    match conns.listen(port) {
        Ok(()) => match serve_stream(opened, store, conns, connections) {
            Ok(()) => Ok(()),
            Err(fault) => Err(Refusal::of(stream_cause(fault), file)),
        },
        Err(_) => Err(Refusal::of(Cause::LinkFault, file)),
    }
}

/// What is said where serving streams ended before its time.
fn stream_cause(fault: StreamFault) -> Cause
    ensures { result ≡ stream_cause fault }
{
    match fault {
        StreamFault::Conn => Cause::LinkFault,
        StreamFault::File(fault) => file_cause(fault),
    }
}
