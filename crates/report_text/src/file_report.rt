ghost use Rattle.std.specs.Prelude.{◌≡◌, ◌+◌, ◌*◌, ◌^◌, ◌≤◌, ◌++◌, length, IsTrue, OnOk, OnErr, IfErr, []};
ghost use Rattle.std.specs.FinMap.{entries};
ghost use Rattle.id_names.specs.FirstMatch.{first_name};
ghost use Rattle.opened_file.specs.Changes.{file_at, laws_of};
ghost use Rattle.outside.specs.Count.{Rose};
ghost use Rattle.opened_file.specs.LooksUp.{LooksUp};
ghost use Rattle.opened_file.specs.Passing.{reads_over};
ghost use Rattle.quota_value.specs.QuotaValue.{QuotaValue};
ghost use Rattle.outside.specs.Text.{AppendsPrefix};
ghost use Rattle.outside.specs.Gathering.{Gathers, WritesPrefix};
ghost use Rattle.report_text.specs.Fault.{OnSink, file_fault};
ghost use Rattle.report_text.specs.Report.{report_of, lines_of};

use crate::ReportFault;
use crate::entries::put_entry;
use crate::head::put_head;
use crate::page::Page;
use id_names::Names;
use opened_file::QuotaFile;
use outside::{Sink, Store};
use quota_types::Kind;
use report_options::Options;

/// Writes the report of an opened quota file: a head with `title`, which is usually the file's name, and a line for
/// each identifier that is shown, ascending. A name is that of the first of `names` with the identifier; where there is
/// none, and with `numeric`, it is `#` and the identifier. `now` is in seconds since 1970. It takes no memory of the
/// heap.
///
/// # Errors
///
/// After a refusal the sink has a prefix of the report. Each fault of a lookup in the file is answered as it is, and
/// raises the file's count of refusals. There is one look-up for each record and one that finds no more.
pub fn report<S: Store, F: QuotaFile<S>, O: Sink>(
    file: &mut F,
    store: &mut S,
    names: &Names,
    kind: Kind,
    title: &str,
    now: u64,
    options: &Options,
    sink: &mut O,
) -> Result<(), ReportFault>
    requires { IsTrue (F.seen file.old).usable }
    ensures ok { OnOk result (IsTrue O.tells
        → (value : QuotaValue) → F.holds file.old store.old value → value.kind ≡ kind
        → (O.seen sink.new).written
        ≡ (O.seen sink.old).written ++ report_of value (first_name names.now) title.now now options.now) }
    ensures fault { OnErr result (IsTrue O.tells
        → (value : QuotaValue) → F.holds file.old store.old value → value.kind ≡ kind
        → AppendsPrefix (O.seen sink.old).written (O.seen sink.new).written
        (report_of value (first_name names.now) title.now now options.now)) }
    ensures looks { LooksUp file_fault (laws_of S.tells F.stands_for F.makes F.may_leave F.lacks_room F.may_refuse
        F.change_reads F.change_writes F.done_writes)
        (file_at (F.holds file.old store.old) (F.seen file.old) (S.seen store.old))
        (file_at (F.holds file.new store.new) (F.seen file.new) (S.seen store.new))
        (F.next_reads (F.seen file.old) ((S.seen store.old).files (F.seen file.old).name) * (2 ^ 32 + 1)) result }
    ensures few { (value : QuotaValue) → F.holds file.old store.old value
        → (S.seen store.new).reads ≤ (S.seen store.old).reads
        + reads_over (F.passing_reads (F.seen file.old) ((S.seen store.old).files (F.seen file.old).name))
        (length (entries value.records)) }
    // Nothing is committed.
    ensures commits { S.commits [] store.old store.new }
    ensures unsent { IfErr result (λ fault. OnSink fault (Rose (O.seen sink.old).faults (O.seen sink.new).faults)) }
    ensures sink_later { (O.seen sink.old).faults ≤ (O.seen sink.new).faults }
{
    let mut text = Page::new();
    put_head(kind, title, file.grace(), &mut text, sink)?;
    put_entries(file, store, names, now, options, &mut text, sink)?;
    text.flush(sink)?;
    Ok(())
}

/// Puts the lines of the identifiers that are shown, ascending.
fn put_entries<S: Store, F: QuotaFile<S>, O: Sink>(
    file: &mut F,
    store: &mut S,
    names: &Names,
    now: u64,
    options: &Options,
    text: &mut Page,
    sink: &mut O,
) -> Result<(), ReportFault>
    requires { IsTrue (F.seen file.old).usable }
    ensures ok { OnOk result ((value : QuotaValue) → F.holds file.old store.old value
        → Gathers O.tells (O.seen sink.old).written text.old (O.seen sink.new).written text.new
        (lines_of (first_name names.now) now options.now (entries value.records))) }
    ensures fault { OnErr result ((value : QuotaValue) → F.holds file.old store.old value
        → WritesPrefix O.tells (O.seen sink.old).written text.old (O.seen sink.new).written
        (lines_of (first_name names.now) now options.now (entries value.records))) }
    ensures looks { LooksUp file_fault (laws_of S.tells F.stands_for F.makes F.may_leave F.lacks_room F.may_refuse
        F.change_reads F.change_writes F.done_writes)
        (file_at (F.holds file.old store.old) (F.seen file.old) (S.seen store.old))
        (file_at (F.holds file.new store.new) (F.seen file.new) (S.seen store.new))
        (F.next_reads (F.seen file.old) ((S.seen store.old).files (F.seen file.old).name) * (2 ^ 32 + 1)) result }
    ensures few { (value : QuotaValue) → F.holds file.old store.old value
        → (S.seen store.new).reads ≤ (S.seen store.old).reads
        + reads_over (F.passing_reads (F.seen file.old) ((S.seen store.old).files (F.seen file.old).name))
        (length (entries value.records)) }
    ensures commits { S.commits [] store.old store.new }
    ensures unsent { IfErr result (λ fault. OnSink fault (Rose (O.seen sink.old).faults (O.seen sink.new).faults)) }
    ensures sink_later { (O.seen sink.old).faults ≤ (O.seen sink.new).faults }
{
    let mut after = None;
    while let Some(entry) = file.next_after(store, after)? {
        put_entry(&entry, names, now, options, text, sink)?;
        after = Some(entry.id);
    }
    Ok(())
}
