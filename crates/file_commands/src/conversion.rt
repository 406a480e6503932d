ghost use Rattle.std.specs.Prelude.{◌≡◌, ◌≢◌, ℕ, Bool, IsTrue, List, OnErr, OnOk, false, is_ok, ⊤};
ghost use Rattle.outside.specs.ManyCalls.{Syncs};
ghost use Rattle.outside.specs.Replacement.{ReplacesOnly, replacement_name};
ghost use Rattle.outside.specs.Seen.{Datagram, LinkSeen, SinkSeen, SourceSeen};
ghost use Rattle.run_steps.specs.Changing.{edit_uses};
ghost use Rattle.run_steps.specs.Committed.{CommitsSteps};
ghost use Rattle.run_steps.specs.Done.{seen_of, tells_of};
ghost use Rattle.run_steps.specs.Carrying.{CarriesOut};
ghost use Rattle.run_steps.specs.declared.invocation.Invocation.{Invocation};
ghost use Rattle.file_commands.specs.Conversion.{ConvertMayRefuse, ConvertSteps};
ghost use Rattle.file_commands.specs.ConversionCauses.{convert_refusal};
ghost use Rattle.file_commands.specs.FileValue.{IsMadeAnew};

use crate::file_value::replace_cause;
use convert::{ConvertFault, convert};
use outside::Store;
use quota_map::MOST_BLOCKS;
use quota_types::{Format, Kind};
use refusals::{Cause, Refusal, Word};
use run_steps::{file_cause, opening_cause};
use std::alloc::Global;

/// Makes a file of another format, or of the same one, from a quota file, which stays as it is.
///
/// # Errors
///
/// The names are the same, there is a file of the second one, the first file is not opened or not read, the new format
/// has no room for a value, or the new file is not made.
pub fn convert_file<S: Store>(
    alloc: Global,
    kind: Kind,
    old: Format,
    new: Format,
    source: Word,
    target: Word,
    store: &mut S,
) -> Result<(), Refusal>
    requires { source ≢ replacement_name target }
    ensures carries { (input : SourceSeen) (out err : SinkSeen) (link : LinkSeen)
        (input_tells out_tells err_tells link_tells : Bool) (invocation : Invocation)
        → CarriesOut (ConvertSteps kind old new source target invocation) (edit_uses false)
        (ConvertMayRefuse kind old new source target)
        (tells_of S.tells input_tells out_tells err_tells link_tells)
        (seen_of (S.seen store.old) input out err link)
        (seen_of (S.seen store.new) input out err link) result }
    // The new file has nothing beside what it stands for, and as few blocks as can be.
    ensures anew { OnOk result (IsTrue S.tells → IsMadeAnew kind (λ format. format ≡ new) target
        (S.seen store.old).files (S.seen store.new).files) }
    // Where it was refused, for whichever cause, there is no new file.
    ensures named { OnErr result ((S.seen store.new).files target ≡ (S.seen store.old).files target) }
    // The file that is converted is as it was in every case.
    ensures source { (S.seen store.new).files source ≡ (S.seen store.old).files source }
    // However it ended, no other file has changed but the one under whose name the new one is written first.
    ensures others { ReplacesOnly target (S.seen store.old).files (S.seen store.new).files }
    // What was written has been synced where it was done, and where it was not too, unless a call on the store failed.
    ensures synced { IsTrue S.tells → Syncs (is_ok result) (S.seen store.old) (S.seen store.new) }
    // What is committed are the files at one moment, to which its steps come: with the new one, where it was made.
    ensures commits { (input : List ℕ) (datagrams : List Datagram) (invocation : Invocation) → IsTrue S.tells
        → CommitsSteps ⊤ (is_ok result) (ConvertSteps kind old new source target invocation)
        (ReplacesOnly target (S.seen store.old).files)
        (record { files = (S.seen store.old).files; input = input; datagrams = datagrams }) (S.seen store.new).files
        (λ worlds. S.commits worlds store.old store.new) }
{
    match convert(
        alloc,
        store,
        source.as_str(),
        target.as_str(),
        old,
        new,
        kind,
        MOST_BLOCKS,
    ) {
        Ok(()) => Ok(()),
        Err(fault) => Err(convert_refusal(fault, source, target)),
    }
}

/// What is said where a file was not converted.
fn convert_refusal(fault: ConvertFault, source: Word, target: Word) -> Refusal
    ensures { result ≡ convert_refusal source target fault }
{
    match fault {
        ConvertFault::SameName => Refusal::of(Cause::SameName, source),
        ConvertFault::TargetExists => Refusal::of(Cause::TargetExists, target),
        ConvertFault::Open(fault) => Refusal::of(opening_cause(fault), source),
        ConvertFault::File(fault) => Refusal::of(file_cause(fault), source),
        ConvertFault::NoRoom(out) => Refusal::of(Cause::NoRoom(out), source),
        ConvertFault::Replace(fault) => Refusal::of(replace_cause(fault), target),
    }
}
