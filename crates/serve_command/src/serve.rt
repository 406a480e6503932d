ghost use Rattle.std.specs.Prelude.{◌≡◌, ◌<◌, ◌≤◌, ◌+◌, ◌*◌, [], Bool, IsTrue, IfErr, OnOk, OnErr, is_ok};
ghost use Rattle.std.specs.List.{All};
ghost use Rattle.outside.specs.Seen.{SinkSeen, SourceSeen};
ghost use Rattle.outside.specs.ManyCalls.{Syncs};
ghost use Rattle.refusals.specs.Status.{status_of};
ghost use Rattle.refusals.specs.declared.cause.Cause.TheVariants.{LinkFault};
ghost use Rattle.run_steps.specs.Done.{seen_of, tells_of};
ghost use Rattle.run_steps.specs.Received.{AreReceived};
ghost use Rattle.run_steps.specs.Carrying.{CarriesOut};
ghost use Rattle.run_steps.specs.Steps.{Starting};
ghost use Rattle.run_steps.specs.declared.invocation.Invocation.{Invocation};
ghost use Rattle.rquota_serve.specs.ExportedValues.{ExportedValues, nothing_exported};
ghost use Rattle.rquota_serve.specs.Exports.{Serves, exports_seen};
ghost use Rattle.rquota_serve.specs.Serving.{Stopped};
ghost use Rattle.serve_command.specs.Serve.{AnsweringSteps, ServeMayRefuse, ServeSteps, serving_reads};
ghost use Rattle.serve_steps.specs.Exporting.{AnsweringMayRefuse, AreExported, MayExport, serve_uses};
ghost use Rattle.serve_steps.specs.ServeCauses.{IsAsAsked};
ghost use Rattle.quota_map.specs.Asked.{asked_of};

use option_words::ExportOptions;
use outside::{Link, Store};
use quota_types::Format;
use refusals::{Cause, Refusal, Word};
use rquota_serve::{Exports, serve};
use serve_steps::{add_all, first_file, serve_cause};
use std::alloc::Global;

/// Exports quota files under paths, starts the link at a port, once, takes exactly `calls` datagrams that are sent to
/// it, those without a reply counted too, and sends the reply to each. Port 0 stands for one that the system chooses.
///
/// # Errors
///
/// A file is not opened, the store or the link fails, or there is not enough memory.
pub fn serve_files<S: Store, L: Link>(
    alloc: Global,
    format: Option<Format>,
    calls: u32,
    port: u16,
    exports: ExportOptions,
    store: &mut S,
    link: &mut L,
) -> Result<(), Refusal>
    requires some { 0 < calls }
    requires apart { MayExport [] exports }
    ensures carries { (input : SourceSeen) (out err : SinkSeen) (input_tells out_tells err_tells : Bool)
        (invocation : Invocation)
        → CarriesOut (ServeSteps (asked_of format) calls port exports invocation) serve_uses
        (ServeMayRefuse (asked_of format) exports)
        (tells_of S.tells input_tells out_tells err_tells L.tells)
        (seen_of (S.seen store.old) input out err (L.seen link.old))
        (seen_of (S.seen store.new) input out err (L.seen link.new)) result }
    // Whatever the store tells, `calls` datagrams were taken, the first ones.
    ensures taken { OnOk result (IsTrue L.tells → AreReceived calls (L.seen link.old).left (L.seen link.new).left) }
    // Where there was not enough memory, no call on the link was made.
    ensures untaken { IfErr result (λ refusal. status_of refusal.cause ≡ 5 → link.new ≡ link.old) }
    // The link is said to have failed only where not all was done: fewer datagrams were taken, or the last reply was
    // not sent.
    ensures stopped { IfErr result (λ refusal. refusal.cause ≡ LinkFault → IsTrue L.tells
        → Stopped (λ exported.
        IsTrue S.tells × AreExported (asked_of format) (S.seen store.old).files exports nothing_exported exported) calls
        (L.seen link.old) (L.seen link.new)) }
    // Where it was done, no more was read than the opening of each file takes, and five blocks for each datagram.
    ensures reads { OnOk result (IsTrue S.tells → (S.seen store.new).reads
        ≤ (S.seen store.old).reads + serving_reads (asked_of format) calls exports (S.seen store.old).files) }
    ensures synced { Syncs (is_ok result) (S.seen store.old) (S.seen store.new) }
    // Nothing is committed.
    ensures commits { S.commits [] store.old store.new }
{
    let mut opened = Exports::new(alloc);
    match add_all(alloc, format, exports.as_slice(), &mut opened, store) {
        Ok(()) => match first_file(alloc, exports.as_slice()) {
            Ok(file) => answer_calls(&mut opened, format, calls, port, file, store, link),
            Err(refusal) => Err(refusal),
        },
        Err(refusal) => Err(refusal),
    }
}

/// Starts the link at a port, takes this many datagrams that are sent to it, and answers them. It takes no memory.
/// Where a file is found damaged, the refusal gives this name.
fn answer_calls<S: Store, L: Link>(
    opened: &mut Exports,
    format: Option<Format>,
    calls: u32,
    port: u16,
    file: Word,
    store: &mut S,
    link: &mut L,
) -> Result<(), Refusal>
    requires some { 0 < calls }
    requires asked { All (IsAsAsked (asked_of format)) (exports_seen opened.old) }
    ensures carries { (exported : ExportedValues) (input : SourceSeen) (out err : SinkSeen)
        (input_tells out_tells err_tells : Bool)
        → (IsTrue S.tells → Serves S.tells (S.seen store.old).files opened.old exported)
        → CarriesOut (Starting port (AnsweringSteps exported calls)) serve_uses
        (AnsweringMayRefuse (asked_of format) file)
        (tells_of S.tells input_tells out_tells err_tells L.tells)
        (seen_of (S.seen store.old) input out err (L.seen link.old))
        (seen_of (S.seen store.new) input out err (L.seen link.new)) result }
    ensures taken { OnOk result (IsTrue L.tells → AreReceived calls (L.seen link.old).left (L.seen link.new).left) }
    ensures unwanting { IfErr result (λ refusal. ¬ (status_of refusal.cause ≡ 5)) }
    ensures stopped { OnErr result (IsTrue L.tells → Stopped (Serves S.tells (S.seen store.old).files opened.old) calls
        (L.seen link.old) (L.seen link.new)) }
    ensures reads { OnOk result ((S.seen store.new).reads ≤ (S.seen store.old).reads + 5 * calls) }
    ensures synced { Syncs (is_ok result) (S.seen store.old) (S.seen store.new) }
    ensures commits { S.commits [] store.old store.new }
{
    if link.start(port).is_err() {
        return Err(Refusal::of(Cause::LinkFault, file));
    }
    match serve(opened, store, link, calls) {
        Ok(()) => Ok(()),
        Err(fault) => Err(Refusal::of(serve_cause(fault), file)),
    }
}
