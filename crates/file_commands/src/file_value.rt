ghost use Rattle.std.specs.Prelude.{◌≡◌, ℕ, List, [], Bool, IfErr, IfOk, IfSome, IsTrue, Ok, OnErr, OnOk, false, is_ok};
ghost use Rattle.std.specs.Prelude.{⊤};
ghost use Rattle.outside.specs.Frame.{OnlyReads};
ghost use Rattle.outside.specs.ManyCalls.{Syncs};
ghost use Rattle.quota_value.specs.QuotaValue.{QuotaValue};
ghost use Rattle.outside.specs.Replacement.{ReplacesOnly};
ghost use Rattle.outside.specs.Seen.{Datagram, LinkSeen, SinkSeen, SourceSeen};
ghost use Rattle.opened_file.specs.QuotaFile.{IsLookupFault};
ghost use Rattle.quota_map.specs.Reading.{file_refusal};
ghost use Rattle.run_steps.specs.Done.{seen_of, tells_of};
ghost use Rattle.run_steps.specs.Carrying.{CarriesOut};
ghost use Rattle.file_commands.specs.Check.{HasKept, ReplaceSteps, new_format, new_value};
ghost use Rattle.run_steps.specs.Changing.{edit_uses};
ghost use Rattle.run_steps.specs.Committed.{CommitsSteps};
ghost use Rattle.file_commands.specs.FileValue.{IsInOrder, IsMadeAnew, IsWritable, replace_cause, value_in};
ghost use Rattle.file_commands.specs.WritingRefused.{WritingMayRefuse};

use opened_file::{FileFault, QuotaFile, ReplaceFault};
use outside::Store;
use quota_map::{AnyFile, MOST_BLOCKS, read_all, replace_file};
use quota_types::{Entry, Format, Grace, Kind};
use refusals::{Cause, Refusal, Word};
use std::alloc::Global;

/// The grace period of blocks, and that of inodes, of a new file: 7 days, in seconds.
const WEEK: u64 = 604_800;

/// What a quota file stands for, with its records in a list.
#[derive(Debug, Drop)]
pub struct FileValue {
    /// Whose usage it limits.
    pub kind: Kind,
    /// The format.
    pub format: Format,
    /// The grace periods, in seconds.
    pub grace: Grace,
    /// The flags of the header; a flat file has none.
    pub flags: u32,
    /// The records, by ascending identifiers.
    pub entries: Vec<Entry>,
}

impl FileValue {
    /// The value of a new file without records, in the format that is asked for, or else in vfsv1.
    pub fn new(alloc: Global, kind: Kind, format: Option<Format>) -> FileValue
        ensures value { value_in result ≡ new_value kind format }
        ensures in_order { IsInOrder result }
        ensures kind { result.kind ≡ kind }
        ensures format { result.format ≡ new_format format }
    {
        FileValue {
            kind,
            format: format.unwrap_or(Format::V2R1),
            grace: Grace {
                block: WEEK,
                inode: WEEK,
            },
            flags: 0,
            entries: Vec::new(alloc),
        }
    }
}

/// Reads the value of an opened file of the kind.
///
/// # Errors
///
/// The store failed, the file is damaged, or there is not enough memory.
pub fn read_value<S: Store>(
    alloc: Global,
    kind: Kind,
    mut opened: AnyFile,
    store: &mut S,
) -> Result<FileValue, FileFault>
    requires { IsTrue (⟦<AnyFile as QuotaFile<S>>⟧.seen opened).usable }
    ensures value { IfOk result (λ read. (value : QuotaValue) → ⟦<AnyFile as QuotaFile<S>>⟧.holds opened store.old value
        → value.kind ≡ kind → value_in read ≡ value) }
    ensures in_order { IfOk result IsInOrder }
    ensures kept { IfOk result (λ read. HasKept (value_in read)) }
    ensures kind { IfOk result (λ read. read.kind ≡ kind) }
    ensures format { IfOk result (λ read. read.format ≡ (⟦<AnyFile as QuotaFile<S>>⟧.seen opened).format) }
    ensures refused { IfErr result (λ fault. IfSome (file_refusal fault) (IsLookupFault (S.seen store.old).faults
        (S.seen store.new).faults (⟦<AnyFile as QuotaFile<S>>⟧.holds opened store.old))) }
    ensures may { IfErr result (λ fault. IfSome (file_refusal fault)
        (⟦<AnyFile as QuotaFile<S>>⟧.may_refuse (⟦<AnyFile as QuotaFile<S>>⟧.seen opened).format)) }
    ensures leaves { OnlyReads (is_ok result) (⟦<AnyFile as QuotaFile<S>>⟧.seen opened).name (S.seen store.old)
        (S.seen store.new) }
    ensures commits { S.commits [] store.old store.new }
{
    let format = QuotaFile::<S>::format(&opened);
    let grace = QuotaFile::<S>::grace(&opened);
    let flags = opened.flags();
    let entries = read_all(alloc, &mut opened, store)?;
    Ok(FileValue {
        kind,
        format,
        grace,
        flags,
        entries,
    })
}

/// Puts a file of a value in the place of the one of this name, or makes it.
///
/// # Errors
///
/// The file would need more blocks than it may have, the store failed, or there is not enough memory.
pub fn write_value<S: Store>(
    alloc: Global,
    value: &FileValue,
    file: Word,
    store: &mut S,
) -> Result<(), Refusal>
    requires { IsWritable value.now }
    ensures carries { (input : SourceSeen) (out err : SinkSeen) (link : LinkSeen)
        (input_tells out_tells err_tells link_tells : Bool)
        → CarriesOut (ReplaceSteps file (Ok (value_in value.now))) (edit_uses false)
        (WritingMayRefuse value.now.format file)
        (tells_of S.tells input_tells out_tells err_tells link_tells)
        (seen_of (S.seen store.old) input out err link)
        (seen_of (S.seen store.new) input out err link) result }
    // It is built anew, even where the file stood for the value before.
    ensures anew { OnOk result (IsTrue S.tells → IsMadeAnew value.now.kind (λ format. format ≡ value.now.format) file
        (S.seen store.old).files (S.seen store.new).files) }
    ensures named { OnErr result ((S.seen store.new).files file ≡ (S.seen store.old).files file) }
    // No other file has changed but the one under whose name the new one is written first.
    ensures others { ReplacesOnly file (S.seen store.old).files (S.seen store.new).files }
    ensures synced { IsTrue S.tells → Syncs (is_ok result) (S.seen store.old) (S.seen store.new) }
    // What is committed are the files at one moment, to which its steps come: with the new one, where it was made.
    ensures commits { (input : List ℕ) (datagrams : List Datagram) → IsTrue S.tells
        → CommitsSteps ⊤ (is_ok result) (ReplaceSteps file (Ok (value_in value.now)))
        (ReplacesOnly file (S.seen store.old).files)
        (record { files = (S.seen store.old).files; input = input; datagrams = datagrams }) (S.seen store.new).files
        (λ worlds. S.commits worlds store.old store.new) }
{
    match replace_file(
        alloc,
        store,
        file.as_str(),
        value.format,
        value.kind,
        value.grace,
        value.flags,
        value.entries.as_slice(),
        MOST_BLOCKS,
    ) {
        Ok(()) => Ok(()),
        Err(fault) => Err(Refusal::of(replace_cause(fault), file)),
    }
}

/// What is said where a file was not replaced.
pub fn replace_cause(fault: ReplaceFault) -> Cause
    ensures { result ≡ replace_cause fault }
{
    match fault {
        ReplaceFault::Store => Cause::StoreFault,
        ReplaceFault::Full { blocks, limit } => Cause::Full { blocks, limit },
        ReplaceFault::Memory => Cause::Memory,
    }
}
