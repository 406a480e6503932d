ghost use Rattle.std.specs.Prelude.{ℕ, Option, [], ◌≡◌, Bool, is_ok};
ghost use Rattle.outside.specs.Seen.{LinkSeen, SinkSeen, SourceSeen};
ghost use Rattle.outside.specs.ManyCalls.{Syncs};
ghost use Rattle.run_steps.specs.Done.{seen_of, tells_of};
ghost use Rattle.run_steps.specs.Carrying.{CarriesOut};
ghost use Rattle.file_commands.specs.Report.{ReportMayRefuse, ReportSteps, report_cause, report_on};
ghost use Rattle.run_steps.specs.Showing.{ShowingMayRefuse, ShowingSteps, showing_uses};
ghost use Rattle.quota_map.specs.Asked.{asked_of};

use command_words::Common;
use id_names::Names;
use outside::{Sink, Store};
use quota_map::open_file;
use quota_types::{Format, Kind};
use refusals::{Cause, Refusal, Word};
use report_options::Options;
use report_text::{ReportFault, report};
use run_steps::{file_cause, opening_cause, read_names};
use std::alloc::Global;

/// Writes the report of a quota file to the output.
///
/// # Errors
///
/// The names are not read, the file is not opened, a lookup in it is refused, or the output fails.
pub fn report_file<S: Store, O: Sink>(
    alloc: Global,
    common: Common,
    options: &Options,
    file: Word,
    store: &mut S,
    out: &mut O,
    now: u64,
) -> Result<(), Refusal>
    ensures carries { (input : SourceSeen) (err : SinkSeen) (link : LinkSeen) (input_tells err_tells link_tells : Bool)
        (line : Option ℕ)
        → CarriesOut (ReportSteps common options.now file (record { now = now; line = line })) showing_uses
        (ReportMayRefuse common file)
        (tells_of S.tells input_tells O.tells err_tells link_tells)
        (seen_of (S.seen store.old) input (O.seen out.old) err link)
        (seen_of (S.seen store.new) input (O.seen out.new) err link) result }
    ensures synced { Syncs (is_ok result) (S.seen store.old) (S.seen store.new) }
    // It only looks at the files.
    ensures commits { S.commits [] store.old store.new }
{
    let Common {
        kind,
        format,
        names,
    } = common;
    match read_names(alloc, kind, names, store) {
        Ok(names) => report_opened(alloc, &names, kind, format, options, file, store, out, now),
        Err(refusal) => Err(refusal),
    }
}

/// Opens a quota file, and writes its report with these names.
pub(crate) fn report_opened<S: Store, O: Sink>(
    alloc: Global,
    names: &Names,
    kind: Kind,
    format: Option<Format>,
    options: &Options,
    file: Word,
    store: &mut S,
    out: &mut O,
    now: u64,
) -> Result<(), Refusal>
    ensures carries { (input : SourceSeen) (err : SinkSeen) (link : LinkSeen) (input_tells err_tells link_tells : Bool)
        → CarriesOut (ShowingSteps kind (asked_of format) file (report_on names.now file now options.now)) showing_uses
        (ShowingMayRefuse (asked_of format) file)
        (tells_of S.tells input_tells O.tells err_tells link_tells)
        (seen_of (S.seen store.old) input (O.seen out.old) err link)
        (seen_of (S.seen store.new) input (O.seen out.new) err link) result }
    ensures synced { Syncs (is_ok result) (S.seen store.old) (S.seen store.new) }
    ensures commits { S.commits [] store.old store.new }
{
    match open_file(alloc, store, file.as_str(), kind, format) {
        Ok(mut opened) => {
            match report(
                &mut opened,
                store,
                names,
                kind,
                file.as_str(),
                now,
                options,
                out,
            ) {
                Ok(()) => Ok(()),
                Err(fault) => Err(Refusal::of(report_cause(fault), file)),
            }
        }
        Err(fault) => Err(Refusal::of(opening_cause(fault), file)),
    }
}

/// What is said where a report was not written whole.
fn report_cause(fault: ReportFault) -> Cause
    ensures { result ≡ report_cause fault }
{
    match fault {
        ReportFault::Sink => Cause::SinkFault,
        ReportFault::File(fault) => file_cause(fault),
    }
}
