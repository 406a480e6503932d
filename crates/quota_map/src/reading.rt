ghost use Rattle.std.specs.Prelude.{◌≡◌, ◌+◌, ◌*◌, ◌^◌, ◌<◌, ◌≤◌, IsTrue, All, IfOk, length, []};
ghost use Rattle.std.specs.FinMap.{entries};
ghost use Rattle.std.specs.List.Sorted.{IsStrictlyIncreasing};
ghost use Rattle.quota_types.specs.Kept.{IsKept};
ghost use Rattle.quota_value.specs.Listed.{ids_of, records_of};
ghost use Rattle.quota_value.specs.QuotaValue.{QuotaValue};
ghost use Rattle.opened_file.specs.LooksUp.{LooksUp};
ghost use Rattle.opened_file.specs.Passing.{reads_over};
ghost use Rattle.quota_map.specs.AnyFile.{HoldsAny, any_at, any_laws, any_next_reads, any_passing_reads, any_seen};
ghost use Rattle.quota_map.specs.Reading.{file_refusal};

use crate::AnyFile;
use opened_file::{FileFault, QuotaFile};
use outside::Store;
use quota_types::Entry;
use std::alloc::Global;

/// Reads all records of an opened quota file, ascending, with its null records. Whatever the store tells, the
/// identifiers ascend strictly and are below 2^32, and the format has room for each record, and keeps it as it is.
///
/// # Errors
///
/// The store failed, the file is damaged, or there is not enough memory. Each refusal of the file is answered as it is.
pub fn read_all<S: Store>(
    alloc: Global,
    file: &mut AnyFile,
    store: &mut S,
) -> Result<Vec<Entry>, FileFault>
    requires { IsTrue (⟦<AnyFile as QuotaFile<S>>⟧.seen file.old).usable }
    ensures records { IfOk result
        (λ list. (value : QuotaValue) → ⟦<AnyFile as QuotaFile<S>>⟧.holds file.old store.old value
        → records_of list.items ≡ value.records) }
    ensures ascends { IfOk result (λ list. IsStrictlyIncreasing (ids_of list.items)) }
    ensures narrow { IfOk result (λ list. All (λ entry. entry.id < 2 ^ 32) list.items) }
    ensures kept { IfOk result
        (λ list.
        All (λ entry. IsKept (⟦<AnyFile as QuotaFile<S>>⟧.seen file.old).format entry.id entry.rec) list.items) }
    ensures looks { LooksUp file_refusal (any_laws S.tells) (any_at S.tells (S.seen store.old) file.old)
        (any_at S.tells (S.seen store.new) file.new)
        (any_next_reads (any_seen file.old) ((S.seen store.old).files (any_seen file.old).name) * (2 ^ 32 + 1)) result }
    // There is one look-up for each record, and one that finds no more.
    ensures reads { IfOk result (λ list. (S.seen store.new).reads ≤ (S.seen store.old).reads
        + any_next_reads (any_seen file.old) ((S.seen store.old).files (any_seen file.old).name)
        * (length list.items + 1)) }
    ensures few { (value : QuotaValue) → HoldsAny S.tells (S.seen store.old).files file.old value
        → (S.seen store.new).reads ≤ (S.seen store.old).reads
        + reads_over (any_passing_reads (any_seen file.old) ((S.seen store.old).files (any_seen file.old).name))
        (length (entries value.records)) }
    ensures commits { S.commits [] store.old store.new }
{
    let mut list = Vec::new(alloc);
    let mut after = None;
    while let Some(entry) = file.next_after(store, after)? {
        if list.push(entry).is_err() {
            return Err(FileFault::Memory);
        }
        after = Some(entry.id);
    }
    Ok(list)
}
