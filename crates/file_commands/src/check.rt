ghost use Rattle.std.specs.Prelude.{ℕ, List, Option, ◌≡◌, ◌⊎◌, Bool, IsSome, IsTrue, OnErr, OnOk, false, is_ok, None};
ghost use Rattle.std.specs.Prelude.{⊤};
ghost use Rattle.outside.specs.ManyCalls.{Syncs};
ghost use Rattle.outside.specs.Replacement.{ReplacesOnly};
ghost use Rattle.outside.specs.Seen.{Datagram, LinkSeen, SinkSeen, SourceSeen};
ghost use Rattle.quota_map.specs.Asked.{asked_of};
ghost use Rattle.quota_map.specs.View.{IsOpenedAs};
ghost use Rattle.run_steps.specs.Done.{seen_of, tells_of};
ghost use Rattle.run_steps.specs.Carrying.{CarriesOut};
ghost use Rattle.run_steps.specs.Steps.{Opening};
ghost use Rattle.file_commands.specs.Check.{CheckMayRefuse, CheckSteps, OpenedMayRefuse, ReplaceSteps, UnfitMayRefuse};
ghost use Rattle.file_commands.specs.Check.{UsageMayRefuse, UsageSteps, check_uses, checked};
ghost use Rattle.file_commands.specs.Causes.{IsFormatOf, apply_cause};
ghost use Rattle.run_steps.specs.Changing.{edit_uses};
ghost use Rattle.run_steps.specs.Committed.{CommitsSteps};
ghost use Rattle.file_commands.specs.FileValue.{IsInOrder, IsMadeAnew, value_in};
ghost use Rattle.file_commands.specs.WritingRefused.{WritingMayRefuse};

use crate::file_value::{FileValue, read_value, write_value};
use crate::listing_input::take_usage;
use command_words::Common;
use inode_scan::{ApplyFault, Usage, apply};
use outside::{Source, Store};
use quota_map::open_file;
use quota_types::{Format, Kind};
use refusals::{Cause, Refusal, Word};
use run_steps::{file_cause, opening_cause};
use std::alloc::Global;

/// Sets the usage in a quota file, or in a new one, to what a listing of inodes tells. The moment is in seconds
/// since 1970.
///
/// # Errors
///
/// The file is not opened or not read, the listing is not read, the format has no room for a value, or the file is not
/// replaced.
pub fn check_file<S: Store, I: Source>(
    alloc: Global,
    common: Common,
    fresh: bool,
    device: Option<u64>,
    from: Option<Word>,
    file: Word,
    store: &mut S,
    input: &mut I,
    now: u64,
) -> Result<(), Refusal>
    ensures carries { (out err : SinkSeen) (link : LinkSeen) (out_tells err_tells link_tells : Bool) (line : Option ℕ)
        → CarriesOut (CheckSteps common fresh device from file (record { now = now; line = line })) (check_uses from)
        (CheckMayRefuse common fresh from file)
        (tells_of S.tells I.tells out_tells err_tells link_tells)
        (seen_of (S.seen store.old) (I.seen input.old) out err link)
        (seen_of (S.seen store.new) (I.seen input.new) out err link) result }
    // The file is always made anew, even where nothing changes.
    ensures anew { OnOk result (IsTrue S.tells → IsMadeAnew common.kind (IsFormatOf fresh common.format) file
        (S.seen store.old).files (S.seen store.new).files) }
    // Where it was refused, for whichever cause, the file is as it was.
    ensures named { OnErr result ((S.seen store.new).files file ≡ (S.seen store.old).files file) }
    // However it ended, no other file has changed but the one under whose name the new one is written first.
    ensures others { ReplacesOnly file (S.seen store.old).files (S.seen store.new).files }
    // What was written has been synced where it was done, and where it was not too, unless a call on the store failed.
    ensures synced { IsTrue S.tells → Syncs (is_ok result) (S.seen store.old) (S.seen store.new) }
    // What is committed are the files at one moment, to which its steps come: with the new one, where it was made.
    ensures commits { (datagrams : List Datagram) (line : Option ℕ) → IsTrue S.tells → (from ≡ None → IsTrue I.tells)
        → CommitsSteps ⊤ (is_ok result) (CheckSteps common fresh device from file (record { now = now; line = line }))
        (ReplacesOnly file (S.seen store.old).files)
        (record { files = (S.seen store.old).files; input = (I.seen input.old).left; datagrams = datagrams })
        (S.seen store.new).files (λ worlds. S.commits worlds store.old store.new) }
    ensures untouched { IsSome from → input.new ≡ input.old }
    ensures keeps { I.keeps false input.old input.new }
{
    let Common { kind, format, .. } = common;
    if fresh {
        let value = FileValue::new(alloc, kind, format);
        check_value(alloc, value, device, from, file, store, input, now)
    } else {
        check_opened(alloc, kind, format, device, from, file, store, input, now)
    }
}

/// Opens a quota file, and sets the usage in it to what a listing of inodes tells.
fn check_opened<S: Store, I: Source>(
    alloc: Global,
    kind: Kind,
    format: Option<Format>,
    device: Option<u64>,
    from: Option<Word>,
    file: Word,
    store: &mut S,
    input: &mut I,
    now: u64,
) -> Result<(), Refusal>
    ensures carries { (out err : SinkSeen) (link : LinkSeen) (out_tells err_tells link_tells : Bool)
        → CarriesOut (Opening kind (asked_of format) file (UsageSteps kind device from file now)) (check_uses from)
        (OpenedMayRefuse (asked_of format) from file)
        (tells_of S.tells I.tells out_tells err_tells link_tells)
        (seen_of (S.seen store.old) (I.seen input.old) out err link)
        (seen_of (S.seen store.new) (I.seen input.new) out err link) result }
    ensures anew { OnOk result (IsTrue S.tells → IsMadeAnew kind (IsOpenedAs (asked_of format)) file
        (S.seen store.old).files (S.seen store.new).files) }
    ensures named { OnErr result ((S.seen store.new).files file ≡ (S.seen store.old).files file) }
    ensures others { ReplacesOnly file (S.seen store.old).files (S.seen store.new).files }
    ensures synced { IsTrue S.tells → Syncs (is_ok result) (S.seen store.old) (S.seen store.new) }
    ensures commits { (datagrams : List Datagram) → IsTrue S.tells → (from ≡ None → IsTrue I.tells)
        → CommitsSteps ⊤ (is_ok result) (Opening kind (asked_of format) file (UsageSteps kind device from file now))
        (ReplacesOnly file (S.seen store.old).files)
        (record { files = (S.seen store.old).files; input = (I.seen input.old).left; datagrams = datagrams })
        (S.seen store.new).files (λ worlds. S.commits worlds store.old store.new) }
    ensures untouched { IsSome from → input.new ≡ input.old }
    ensures keeps { I.keeps false input.old input.new }
{
    match open_file(alloc, store, file.as_str(), kind, format) {
        Ok(opened) => match read_value(alloc, kind, opened, store) {
            Ok(value) => check_value(alloc, value, device, from, file, store, input, now),
            Err(fault) => Err(Refusal::of(file_cause(fault), file)),
        },
        Err(fault) => Err(Refusal::of(opening_cause(fault), file)),
    }
}

/// Reads a listing, and puts a file of the value with the usage of the listing in the place of the one of this name.
fn check_value<S: Store, I: Source>(
    alloc: Global,
    value: FileValue,
    device: Option<u64>,
    from: Option<Word>,
    file: Word,
    store: &mut S,
    input: &mut I,
    now: u64,
) -> Result<(), Refusal>
    requires { IsInOrder value }
    ensures carries { (out err : SinkSeen) (link : LinkSeen) (out_tells err_tells link_tells : Bool)
        → CarriesOut (UsageSteps value.kind device from file now (value_in value)) (check_uses from)
        (UsageMayRefuse (value_in value) from file)
        (tells_of S.tells I.tells out_tells err_tells link_tells)
        (seen_of (S.seen store.old) (I.seen input.old) out err link)
        (seen_of (S.seen store.new) (I.seen input.new) out err link) result }
    ensures anew { OnOk result (IsTrue S.tells → IsMadeAnew value.kind (λ format. format ≡ value.format) file
        (S.seen store.old).files (S.seen store.new).files) }
    ensures named { OnErr result ((S.seen store.new).files file ≡ (S.seen store.old).files file) }
    ensures others { ReplacesOnly file (S.seen store.old).files (S.seen store.new).files }
    ensures synced { IsTrue S.tells → Syncs (is_ok result) (S.seen store.old) (S.seen store.new) }
    ensures commits { (datagrams : List Datagram) → IsTrue S.tells → (from ≡ None → IsTrue I.tells)
        → CommitsSteps ⊤ (is_ok result) (UsageSteps value.kind device from file now (value_in value))
        (ReplacesOnly file (S.seen store.old).files)
        (record { files = (S.seen store.old).files; input = (I.seen input.old).left; datagrams = datagrams })
        (S.seen store.new).files (λ worlds. S.commits worlds store.old store.new) }
    ensures untouched { IsSome from → input.new ≡ input.old }
    ensures keeps { I.keeps false input.old input.new }
{
    match take_usage(alloc, value.kind, device, from, store, input) {
        Ok(usage) => replace_usage(alloc, value, usage, file, store, now),
        Err(refusal) => Err(refusal),
    }
}

/// Puts a file of the value with this usage in the place of the one of this name.
fn replace_usage<S: Store>(
    alloc: Global,
    mut value: FileValue,
    usage: Usage,
    file: Word,
    store: &mut S,
    now: u64,
) -> Result<(), Refusal>
    requires { IsInOrder value }
    ensures carries { (input : SourceSeen) (out err : SinkSeen) (link : LinkSeen)
        (input_tells out_tells err_tells link_tells : Bool)
        → CarriesOut (ReplaceSteps file (checked (value_in value) usage now)) (edit_uses false)
        (λ cause name. UnfitMayRefuse (value_in value) file cause name ⊎ WritingMayRefuse value.format file cause name)
        (tells_of S.tells input_tells out_tells err_tells link_tells)
        (seen_of (S.seen store.old) input out err link)
        (seen_of (S.seen store.new) input out err link) result }
    ensures anew { OnOk result (IsTrue S.tells → IsMadeAnew value.kind (λ format. format ≡ value.format) file
        (S.seen store.old).files (S.seen store.new).files) }
    ensures named { OnErr result ((S.seen store.new).files file ≡ (S.seen store.old).files file) }
    ensures others { ReplacesOnly file (S.seen store.old).files (S.seen store.new).files }
    ensures synced { IsTrue S.tells → Syncs (is_ok result) (S.seen store.old) (S.seen store.new) }
    ensures commits { (input : List ℕ) (datagrams : List Datagram) → IsTrue S.tells
        → CommitsSteps ⊤ (is_ok result) (ReplaceSteps file (checked (value_in value) usage now))
        (ReplacesOnly file (S.seen store.old).files)
        (record { files = (S.seen store.old).files; input = input; datagrams = datagrams }) (S.seen store.new).files
        (λ worlds. S.commits worlds store.old store.new) }
{
    match apply(
        alloc,
        value.entries.as_slice(),
        &usage,
        value.format,
        value.grace,
        now,
    ) {
        Ok(entries) => {
            // what is not needed any more is let go before the file is built
            drop(usage);
            value.entries = entries;
            write_value(alloc, &value, file, store)
        }
        Err(fault) => Err(Refusal::of(apply_cause(fault), file)),
    }
}

/// What is said where the records with the usage of a listing have no room, or there was not enough memory.
pub(crate) fn apply_cause(fault: ApplyFault) -> Cause
    ensures { result ≡ apply_cause fault }
{
    match fault {
        ApplyFault::NoRoom(out) => Cause::NoRoom(out),
        ApplyFault::Memory => Cause::Memory,
    }
}
