ghost use Rattle.std.specs.Prelude.{ℕ, Option, [], ◌≡◌, ◌≤◌, ◌+◌, ◌⊎◌, Bool, List, Result, IsTrue, OnOk, OnErr, length};
ghost use Rattle.std.specs.Prelude.{is_ok};
ghost use Rattle.std.specs.List.{All};
ghost use Rattle.outside.specs.Seen.{LinkSeen, SinkSeen, SourceSeen};
ghost use Rattle.outside.specs.ManyCalls.{Syncs};
ghost use Rattle.refusals.specs.Refusals.{refusal_of};
ghost use Rattle.refusals.specs.declared.cause.Cause.TheVariants.{Memory};
ghost use Rattle.refusals.specs.declared.reason.Refusal.{Refusal};
ghost use Rattle.run_steps.specs.Done.{IsUnwritten, RunSeen, seen_of, tells_of};
ghost use Rattle.run_steps.specs.Carrying.{CarriesOut};
ghost use Rattle.run_steps.specs.Steps.{Steps};
ghost use Rattle.rquota_serve.specs.Adding.{reads_of};
ghost use Rattle.rquota_serve.specs.Added.{news_seen};
ghost use Rattle.rquota_serve.specs.ExportedValues.{ExportedValues};
ghost use Rattle.rquota_serve.specs.Exports.{Serves, exports_seen};
ghost use Rattle.serve_steps.specs.Exporting.{AnsweringMayRefuse, AreExported, ExportingMayRefuse, MayExport};
ghost use Rattle.serve_steps.specs.Exporting.{OpeningAll, news_of, serve_uses};
ghost use Rattle.serve_steps.specs.ServeCauses.{IsAsAsked};
ghost use Rattle.quota_map.specs.Asked.{asked_of};

use arrayvec::ArrayVec;
use option_words::ExportOption;
use outside::Store;
use quota_types::Format;
use refusals::{Cause, Refusal, Word};
use rquota_serve::{Exports, MOST_EXPORTS, NewExport};
use run_steps::opening_cause;
use std::alloc::Global;

/// Exports quota files in their order, behind those that are exported already.
///
/// # Errors
///
/// A file is not opened, and the ones behind it were not tried.
pub fn add_all<S: Store>(
    alloc: Global,
    format: Option<Format>,
    list: &[ExportOption],
    exports: &mut Exports,
    store: &mut S,
) -> Result<(), Refusal>
    requires may { MayExport (exports_seen exports.old) list.now }
    requires asked { All (IsAsAsked (asked_of format)) (exports_seen exports.old) }
    // What is exported then is what the files are seen as, and whatever is carried out of it is carried out of them.
    ensures opened { OnOk result
        ((before : ExportedValues) → (IsTrue S.tells → Serves S.tells (S.seen store.old).files exports.old before)
        → (exported : ExportedValues)
        × (IsTrue S.tells → AreExported (asked_of format) (S.seen store.old).files list.now before exported)
        × (IsTrue S.tells → Serves S.tells (S.seen store.new).files exports.new exported)
        × ((next : ExportedValues → Steps) (file : List ℕ) (input : SourceSeen) (out err : SinkSeen) (link : LinkSeen)
        (input_tells out_tells err_tells link_tells : Bool) (new : RunSeen) (ended : Result (Unit {0}) Refusal)
        → CarriesOut (next exported) serve_uses (AnsweringMayRefuse (asked_of format) file)
        (tells_of S.tells input_tells out_tells err_tells link_tells)
        (seen_of (S.seen store.new) input out err link) new ended
        → CarriesOut (OpeningAll (asked_of format) list.now before next) serve_uses
        (AnsweringMayRefuse (asked_of format) file) (tells_of S.tells input_tells out_tells err_tells link_tells)
        (seen_of (S.seen store.old) input out err link) new ended)) }
    ensures unopened { OnErr result
        ((before : ExportedValues) (next : ExportedValues → Steps) (input : SourceSeen) (out err : SinkSeen)
        (link : LinkSeen)
        (input_tells out_tells err_tells link_tells : Bool)
        → (IsTrue S.tells → Serves S.tells (S.seen store.old).files exports.old before)
        → CarriesOut (OpeningAll (asked_of format) list.now before next) serve_uses
        (ExportingMayRefuse (asked_of format) list.now)
        (tells_of S.tells input_tells out_tells err_tells link_tells)
        (seen_of (S.seen store.old) input out err link) (seen_of (S.seen store.new) input out err link) result) }
    ensures as_asked { OnOk result (All (IsAsAsked (asked_of format)) (exports_seen exports.new)) }
    ensures reads { OnOk result (IsTrue S.tells → (S.seen store.new).reads
        ≤ (S.seen store.old).reads + reads_of (asked_of format) (S.seen store.old).files (news_of list.now)) }
    ensures unwritten { IsUnwritten (S.seen store.old) (S.seen store.new) }
    ensures later { (S.seen store.old).faults ≤ (S.seen store.new).faults }
    ensures synced { Syncs (is_ok result) (S.seen store.old) (S.seen store.new) }
    // Nothing is committed.
    ensures commits { S.commits [] store.old store.new }
{
    let news = news_of(list);
    match exports.add_all(alloc, store, news.as_slice(), format) {
        Ok(()) => Ok(()),
        Err(met) => {
            let export = &list[met.place];
            Err(refused(alloc, opening_cause(met.fault), &export.file))
        }
    }
}

/// The files that words name, as `Exports` takes them.
fn news_of(list: &[ExportOption]) -> ArrayVec<NewExport<'_>, MOST_EXPORTS>
    requires { length list.now ≤ 16 }
    ensures { news_seen result.items ≡ news_of list.now }
{
    let mut news = ArrayVec::new();
    for export in list {
        news.push(NewExport {
            path: export.path.as_str(),
            kind: export.kind,
            file: export.file.as_str(),
        });
    }
    news
}

/// The refusal for a cause about the file of this name; or for lack of memory, where the name can't be copied.
fn refused(alloc: Global, cause: Cause, name: &Word) -> Refusal
    ensures { (result ≡ refusal_of cause name.now) ⊎ (result ≡ refusal_of Memory []) }
{
    match Word::copy_of(alloc, name.as_str()) {
        Ok(name) => Refusal::of(cause, name),
        Err(_) => Refusal::of(Cause::Memory, Word::empty(alloc)),
    }
}
