ghost use Rattle.std.specs.Prelude.{◌≡◌, ◌+◌, ◌≤◌, None, Some, true, false, Ok, IfSome, IsTrue, IfOk, IfErr, OnOk};
ghost use Rattle.std.specs.Prelude.{is_ok, []};
ghost use Rattle.outside.specs.Frame.{OnlyReads};
ghost use Rattle.quota_value.specs.QuotaValue.{QuotaValue};
ghost use Rattle.file_blocks.specs.Block.{file_of};
ghost use Rattle.quota_types.specs.Format.{is_flat};
ghost use Rattle.quota_map.specs.Asked.{asked_of};
ghost use Rattle.quota_map.specs.View.{IsOpenFault, IsOpenedAs, IsView, asks_flat, fresh_seen, opening_reads};

use crate::AnyFile;
use opened_file::{OpenFault, QuotaFile};
use outside::Store;
use quota_types::{Format, Kind};
use quota_v1::open_v1;
use std::alloc::Global;
use tree_file::open_tree;

/// How many blocks a tree file may have, of 1,024 bytes each.
pub const MOST_BLOCKS: u32 = 4_194_304;

/// Opens a quota file of the kind: as a flat file, which has no mark of its kind, exactly where a flat format is asked
/// for, and otherwise as a tree file of the format that is asked for, where one is. Of a flat file its length and the
/// times of record 0 are kept; of a tree file its header, once each block was read and the whole found sound.
///
/// # Errors
///
/// It is refused where it cannot be opened as one of its format: by `open_v1`, or by `open_tree` with at most 4,194,304
/// blocks.
pub fn open_file<S: Store>(
    alloc: Global,
    store: &mut S,
    name: &str,
    kind: Kind,
    format: Option<Format>,
) -> Result<AnyFile, OpenFault>
    ensures seen { OnOk result (IsTrue S.tells → (value : QuotaValue)
        × IsView ((S.seen store.old).files name.now) kind (asked_of format) (Ok value)) }
    ensures held { IfOk result (λ file. IsTrue S.tells → (value : QuotaValue)
        → IsView ((S.seen store.old).files name.now) kind (asked_of format) (Ok value)
        → ⟦<AnyFile as QuotaFile<S>>⟧.holds file store.new value) }
    ensures fresh { IfOk result (λ file. ⟦<AnyFile as QuotaFile<S>>⟧.seen file
        ≡ fresh_seen name.now (⟦<AnyFile as QuotaFile<S>>⟧.seen file).format) }
    ensures as_asked { IfOk result (λ file.
        IsOpenedAs (asked_of format) (⟦<AnyFile as QuotaFile<S>>⟧.seen file).format) }
    ensures refused { IfErr result (IsOpenFault (S.seen store.old).faults (S.seen store.new).faults S.tells
        ((S.seen store.old).files name.now) kind (asked_of format)) }
    ensures leaves { OnlyReads (is_ok result) name.now (S.seen store.old) (S.seen store.new) }
    ensures reads { IsTrue S.tells → (S.seen store.new).reads ≤ (S.seen store.old).reads
        + opening_reads (asked_of format) (file_of (S.seen store.old).files name.now) }
    ensures commits { S.commits [] store.old store.new }
{
    if let Some(flat) = flat_asked(format) {
        return Ok(AnyFile::V1(open_v1(alloc, store, name, flat)?));
    }
    Ok(AnyFile::Tree(open_tree(alloc, store, name, kind, format, MOST_BLOCKS)?))
}

/// The format that is asked for, where it is a flat one.
fn flat_asked(format: Option<Format>) -> Option<Format>
    ensures flat { IfSome result (λ flat. (format ≡ Some flat) × (is_flat flat ≡ true)) }
    ensures other { result ≡ None → asks_flat (asked_of format) ≡ false }
{
    match format {
        Some(format) if format.is_flat() => Some(format),
        _ => None,
    }
}
