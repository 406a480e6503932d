ghost use Rattle.std.specs.Prelude.{ℕ, [], IfErr, IfOk, is_ok};
ghost use Rattle.std.specs.List.Sorted.{IsStrictlyIncreasing};
ghost use Rattle.outside.specs.Frame.{OnlyReads};
ghost use Rattle.quota_value.specs.Listed.{ids_of, value_of};
ghost use Rattle.convert.specs.Source.{HasRead, IsSourceFault};

use crate::ConvertFault;
use opened_file::QuotaFile;
use outside::Store;
use quota_map::{open_file, read_all};
use quota_types::{Entry, Format, Grace, Kind};
use std::alloc::Global;

/// What is carried over from a quota file.
#[derive(Debug, Drop)]
pub(crate) struct Carried {
    /// The grace periods, in seconds.
    pub grace: Grace,
    /// The records, by ascending identifiers.
    pub entries: Vec<Entry>,
}

/// Opens a file and reads it whole. The opened file is let go.
///
/// # Errors
///
/// It is refused as `open_file` and `read_all` refuse it.
pub(crate) fn read_source<S: Store>(
    alloc: Global,
    store: &mut S,
    name: &str,
    kind: Kind,
    format: Format,
) -> Result<Carried, ConvertFault>
    ensures read { IfOk result (λ carried. (flags : ℕ) × HasRead S.tells ((S.seen store.old).files name.now) kind format
        (value_of kind format carried.grace flags carried.entries.items)) }
    ensures ascends { IfOk result (λ carried. IsStrictlyIncreasing (ids_of carried.entries.items)) }
    ensures refused { IfErr result (IsSourceFault (S.seen store.old).faults (S.seen store.new).faults S.tells
        ((S.seen store.old).files name.now) kind format) }
    ensures leaves { OnlyReads (is_ok result) name.now (S.seen store.old) (S.seen store.new) }
    ensures commits { S.commits [] store.old store.new }
{
    let mut opened = match open_file(alloc, store, name, kind, Some(format)) {
        Ok(opened) => opened,
        Err(fault) => return Err(ConvertFault::Open(fault)),
    };
    let grace = QuotaFile::<S>::grace(&opened);
    match read_all(alloc, &mut opened, store) {
        Ok(entries) => Ok(Carried { grace, entries }),
        Err(fault) => Err(ConvertFault::File(fault)),
    }
}
