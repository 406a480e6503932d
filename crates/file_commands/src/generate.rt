ghost use Rattle.std.specs.Prelude.{◌≡◌, ◌+◌, ◌≤◌, ◌++◌, [], ℕ, List, None, Ok, Bool, IfErr, IfOk, IsTrue, decimal};
ghost use Rattle.std.specs.Prelude.{length, sum_by, is_ok, ⊤};
ghost use Rattle.std.specs.List.Sorted.{IsStrictlyIncreasing};
ghost use Rattle.quota_types.specs.Rec.{kib_of};
ghost use Rattle.quota_types.specs.declared.file_kind.Format.TheVariants.{V2R1};
ghost use Rattle.quota_types.specs.declared.file_kind.Kind.TheVariants.{User};
ghost use Rattle.outside.specs.Count.{Rose};
ghost use Rattle.outside.specs.ManyCalls.{Syncs};
ghost use Rattle.quota_value.specs.Listed.{ids_of, records_of};
ghost use Rattle.quota_value.specs.QuotaValue.{QuotaValue};
ghost use Rattle.outside.specs.Replacement.{ReplacesOnly};
ghost use Rattle.outside.specs.Seen.{Datagram, LinkSeen, SinkSeen, SourceSeen};
ghost use Rattle.quota_map.specs.Asked.{AnyTree};
ghost use Rattle.quota_map.specs.View.{IsView, most_blocks};
ghost use Rattle.refusals.specs.Refusals.{nowhere};
ghost use Rattle.run_steps.specs.Act.{ToOut};
ghost use Rattle.run_steps.specs.Committed.{CommitsSteps};
ghost use Rattle.quota_map.specs.Size.{blocks_of};
ghost use Rattle.run_steps.specs.Done.{IsUnwritten, seen_of, tells_of};
ghost use Rattle.run_steps.specs.Carrying.{CarriesOut};
ghost use Rattle.run_steps.specs.Showing.{ShowingMayRefuse, showing_uses};
ghost use Rattle.run_steps.specs.Steps.{Doing, Finish};
ghost use Rattle.file_commands.specs.FileValue.{IsWritable, value_in};
ghost use Rattle.file_commands.specs.Generate.{GenerateMayRefuse, GenerateSteps, generate_uses, no_options};
ghost use Rattle.file_commands.specs.Generate.{plain_report, summary, summary_line, summary_text};
ghost use Rattle.file_commands.specs.Causes.{IsUnreported, WrittenSteps, gathered_cause};

use crate::check::apply_cause;
use crate::file_value::{FileValue, replace_cause};
use crate::gathered::Gathered;
use crate::listing_input::scan_cause;
use crate::report::report_opened;
use arrayvec::ArrayVec;
use id_names::Names;
use inode_scan::{Generated, apply, scan};
use itoa::Buffer;
use outside::{Sink, Store};
use quota_map::{MOST_BLOCKS, replace_file};
use quota_types::{Entry, Format, Kind};
use refusals::{Cause, Refusal, Word};
use report_options::Options;
use std::alloc::Global;

/// How many bytes the line has at most.
const LINE: usize = 256;

/// Makes a quota file for users, in vfsv1, with the usage of a listing that is made of a seed and has this many lines.
/// Then it writes a line on both to the output: how many lines there were, the sums of the inodes and of the KiB of all
/// records, how many records there are, and how many bytes a report on the file has. The moment is in seconds
/// since 1970.
///
/// # Errors
///
/// The store failed, or there is not enough memory. Where the report on the file that was made, or the line, is not
/// written, the file stays: the file is not read again, or the output failed.
pub fn generate_file<S: Store, O: Sink>(
    alloc: Global,
    seed: u64,
    count: u32,
    file: Word,
    store: &mut S,
    out: &mut O,
    now: u64,
) -> Result<(), Refusal>
    ensures carries { (input : SourceSeen) (err : SinkSeen) (link : LinkSeen) (input_tells err_tells link_tells : Bool)
        → CarriesOut (GenerateSteps seed count file now) generate_uses (GenerateMayRefuse file)
        (tells_of S.tells input_tells O.tells err_tells link_tells)
        (seen_of (S.seen store.old) input (O.seen out.old) err link)
        (seen_of (S.seen store.new) input (O.seen out.new) err link) result }
    // However it ended, no other file has changed but the one under whose name the new one is written first.
    ensures others { ReplacesOnly file (S.seen store.old).files (S.seen store.new).files }
    // What was written has been synced where it was done, and where it was not too, unless a call on the store failed.
    ensures synced { IsTrue S.tells → Syncs (is_ok result) (S.seen store.old) (S.seen store.new) }
    // What is committed are the files at one moment, to which its steps come: behind the replacement, where it was
    // made.
    ensures commits { (input : List ℕ) (datagrams : List Datagram) → IsTrue S.tells
        → CommitsSteps ⊤ (is_ok result) (GenerateSteps seed count file now) (ReplacesOnly file (S.seen store.old).files)
        (record { files = (S.seen store.old).files; input = input; datagrams = datagrams }) (S.seen store.new).files
        (λ worlds. S.commits worlds store.old store.new) }
{
    match generated_value(alloc, seed, count, now) {
        Ok(value) => write_made(alloc, &value, count, file, store, out, now),
        Err(cause) => Err(Refusal::of(cause, file)),
    }
}

/// The value of a new file with the usage of a listing that is made.
fn generated_value(alloc: Global, seed: u64, count: u32, now: u64) -> Result<FileValue, Cause>
    ensures steps { IfOk result (λ value. (file : List ℕ)
        → GenerateSteps seed count file now ≡ WrittenSteps count file now (value_in value)) }
    ensures few { IfOk result (λ value. blocks_of (value_in value) ≤ most_blocks) }
    ensures writable { IfOk result IsWritable }
    ensures kind { IfOk result (λ value. value.kind ≡ User) }
    ensures format { IfOk result (λ value. value.format ≡ V2R1) }
    ensures refused { IfErr result (λ cause. cause ≡ Cause.Memory) }
{
    let mut value = FileValue::new(alloc, Kind::User, Some(Format::V2R1));
    match scan(alloc, &mut Generated::new(seed, count), Kind::User, None) {
        Ok(usage) => match apply(
            alloc,
            value.entries.as_slice(),
            &usage,
            value.format,
            value.grace,
            now,
        ) {
            Ok(entries) => {
                value.entries = entries;
                Ok(value)
            }
            Err(fault) => Err(apply_cause(fault)),
        },
        Err(fault) => Err(scan_cause(Cause::SourceFault, fault)),
    }
}

/// Makes the file of a value, and then writes the line on it.
fn write_made<S: Store, O: Sink>(
    alloc: Global,
    value: &FileValue,
    count: u32,
    file: Word,
    store: &mut S,
    out: &mut O,
    now: u64,
) -> Result<(), Refusal>
    requires writable { IsWritable value.now }
    requires kind { value.now.kind ≡ User }
    requires format { value.now.format ≡ V2R1 }
    requires few { blocks_of (value_in value.now) ≤ most_blocks }
    ensures carries { (input : SourceSeen) (err : SinkSeen) (link : LinkSeen) (input_tells err_tells link_tells : Bool)
        → CarriesOut (WrittenSteps count file now (value_in value.now)) generate_uses (GenerateMayRefuse file)
        (tells_of S.tells input_tells O.tells err_tells link_tells)
        (seen_of (S.seen store.old) input (O.seen out.old) err link)
        (seen_of (S.seen store.new) input (O.seen out.new) err link) result }
    ensures others { ReplacesOnly file (S.seen store.old).files (S.seen store.new).files }
    ensures synced { IsTrue S.tells → Syncs (is_ok result) (S.seen store.old) (S.seen store.new) }
    ensures commits { (input : List ℕ) (datagrams : List Datagram) → IsTrue S.tells
        → CommitsSteps ⊤ (is_ok result) (WrittenSteps count file now (value_in value.now))
        (ReplacesOnly file (S.seen store.old).files)
        (record { files = (S.seen store.old).files; input = input; datagrams = datagrams }) (S.seen store.new).files
        (λ worlds. S.commits worlds store.old store.new) }
{
    match replace_file(
        alloc,
        store,
        file.as_str(),
        value.format,
        value.kind,
        value.grace,
        value.flags,
        value.entries.as_slice(),
        MOST_BLOCKS,
    ) {
        Ok(()) => tell_made(alloc, value, count, file, store, out, now),
        Err(fault) => Err(Refusal::of(replace_cause(fault), file)),
    }
}

/// Writes the line on a file of a value that was made.
fn tell_made<S: Store, O: Sink>(
    alloc: Global,
    value: &FileValue,
    count: u32,
    file: Word,
    store: &mut S,
    out: &mut O,
    now: u64,
) -> Result<(), Refusal>
    requires { IsWritable value.now }
    ensures carries { (input : SourceSeen) (err : SinkSeen) (link : LinkSeen) (input_tells err_tells link_tells : Bool)
        → (IsTrue S.tells → IsView ((S.seen store.old).files file) User AnyTree (Ok (value_in value.now)))
        → CarriesOut (Doing (ToOut (summary count file now (value_in value.now))) Finish) showing_uses
        (ShowingMayRefuse AnyTree file)
        (tells_of S.tells input_tells O.tells err_tells link_tells)
        (seen_of (S.seen store.old) input (O.seen out.old) err link)
        (seen_of (S.seen store.new) input (O.seen out.new) err link) result }
    ensures unwritten { IsUnwritten (S.seen store.old) (S.seen store.new) }
    ensures synced { Syncs (is_ok result) (S.seen store.old) (S.seen store.new) }
    ensures commits { S.commits [] store.old store.new }
{
    let Ok(name) = Word::copy_of(alloc, file.as_str()) else {
        return Err(Refusal::of(Cause::Memory, file));
    };
    match report_length(alloc, name, store, now) {
        Ok(bytes) => {
            let line = summary_line(count, value.entries.as_slice(), bytes);
            match out.write(line.as_slice()) {
                Ok(()) => Ok(()),
                Err(_) => Err(Refusal::of(Cause::SinkFault, file)),
            }
        }
        Err(refusal) => Err(refusal),
    }
}

/// How many bytes a report on a file has, without names and options. It is gathered in memory.
fn report_length<S: Store>(
    alloc: Global,
    file: Word,
    store: &mut S,
    now: u64,
) -> Result<usize, Refusal>
    ensures bytes { IfOk result (λ bytes. IsTrue S.tells → (value : QuotaValue)
        → IsView ((S.seen store.old).files file) User AnyTree (Ok value)
        → bytes ≡ length (plain_report file now value)) }
    ensures refused { IfErr result (λ refusal. IsUnreported (Rose (S.seen store.old).faults (S.seen store.new).faults)
        (IsTrue S.tells → (value : QuotaValue) → ¬ IsView ((S.seen store.old).files file) User AnyTree (Ok value))
        refusal.cause) }
    ensures may { IfErr result (λ refusal. ShowingMayRefuse AnyTree file refusal.cause refusal.name) }
    ensures placed { IfErr result (λ refusal. refusal.place ≡ nowhere) }
    ensures unwritten { IsUnwritten (S.seen store.old) (S.seen store.new) }
    ensures later { (S.seen store.old).faults ≤ (S.seen store.new).faults }
    ensures synced { Syncs (is_ok result) (S.seen store.old) (S.seen store.new) }
    ensures commits { S.commits [] store.old store.new }
{
    let mut gathered = Gathered::new(alloc);
    let names = Names::none(alloc);
    match report_opened(
        alloc,
        &names,
        Kind::User,
        None,
        &no_options(),
        file,
        store,
        &mut gathered,
        now,
    ) {
        Ok(()) => Ok(gathered.text().len()),
        Err(refusal) => Err(Refusal::of(gathered_cause(refusal.cause), refusal.name)),
    }
}

/// A report without options.
fn no_options() -> Options
    ensures { result ≡ no_options }
{
    Options {
        verbose: false,
        numeric: false,
        raw: false,
    }
}

/// What is said where a report in memory was not written whole.
fn gathered_cause(cause: Cause) -> Cause
    ensures { result ≡ gathered_cause cause }
{
    match cause {
        Cause::SinkFault => Cause::Memory,
        other => other,
    }
}

/// The line on a file with these records, which was made of this many lines, and on which a report has this many bytes.
fn summary_line(lines: u32, entries: &[Entry], bytes: usize) -> ArrayVec<u8, LINE>
    requires { IsStrictlyIncreasing (ids_of entries.now) }
    ensures { result.items ≡ summary_line lines (records_of entries.now) bytes }
{
    summary_text(
        u128::from(lines),
        all_inodes(entries),
        entries.len() as u128,
        all_kib(entries),
        bytes as u128,
    )
}

/// The line of these numbers.
#[tactic(auto, unfolding(crate::specs::Generate::summary_text))]
fn summary_text(
    lines: u128,
    inodes: u128,
    identifiers: u128,
    kib: u128,
    bytes: u128,
) -> ArrayVec<u8, LINE>
    ensures { result.items ≡ summary_text lines inodes identifiers kib bytes }
{
    let mut text = ArrayVec::new();
    push_number(&mut text, b"lines ", lines);
    push_number(&mut text, b", inodes ", inodes);
    push_number(&mut text, b", identifiers ", identifiers);
    push_number(&mut text, b", KiB ", kib);
    push_number(&mut text, b", report ", bytes);
    text.try_extend_from_slice(b" bytes\n").unwrap();
    text
}

/// Appends what stands in front of a number, and the number.
fn push_number(text: &mut ArrayVec<u8, LINE>, front: &[u8], number: u128)
    requires { length text.old.items + length front.now + 40 ≤ LINE }
    ensures text { text.new.items ≡ text.old.items ++ front.now ++ decimal number }
    ensures room { length text.new.items ≤ length text.old.items + length front.now + 40 }
{
    let mut digits = Buffer::new();
    text.try_extend_from_slice(front).unwrap();
    text.try_extend_from_slice(digits.format(number).as_bytes())
        .unwrap();
}

/// The sum of the inodes of records.
fn all_inodes(entries: &[Entry]) -> u128
    ensures { result ≡ sum_by (λ entry. entry.rec.inodes) entries.now }
{
    entries
        .iter()
        .map(|entry| u128::from(entry.rec.inodes))
        .sum()
}

/// The sum of the KiB of records.
fn all_kib(entries: &[Entry]) -> u128
    ensures { result ≡ sum_by (λ entry. kib_of entry.rec.space) entries.now }
{
    entries
        .iter()
        .map(|entry| u128::from(entry.rec.kib()))
        .sum()
}
