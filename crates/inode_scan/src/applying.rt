ghost use Rattle.std.specs.Prelude.{◌≡◌, ◌++◌, false, All, Ok, IfErr, IfOk, OnOk};
ghost use Rattle.std.specs.List.Sorted.{IsStrictlyIncreasing};
ghost use Rattle.std.specs.Option.{option_to_list};
ghost use Rattle.quota_types.specs.Kept.{IsKept};
ghost use Rattle.quota_types.specs.Rec.{is_null_of};
ghost use Rattle.quota_value.specs.Listed.{ids_of, records_of};
ghost use Rattle.inode_scan.specs.Apply.{IsApplyFault, applied};
ghost use Rattle.inode_scan.specs.Merge.{first_id, least_id, record_at, records_behind};

use crate::wanted::wanted_entry;
use crate::{ApplyFault, Usage};
use quota_types::{Entry, Format, Grace, Rec};
use std::alloc::{AllocFailed, Global};

/// The records of a quota file of the format once the usage is that of a listing: of each identifier of the list or of
/// the listing, ascending, its limits, or zeros where it is not in the list; the usage of the listing, or zeros where
/// it is not there; and the timers that go with both at the moment `now`, in seconds since 1970. What is null then is
/// left out.
///
/// The list ascends strictly by its identifiers. The grace periods are in seconds.
///
/// # Errors
///
/// The first value for which the format has no room, in the order of `Field`, of the least identifier that has one. Or
/// there is not enough memory.
pub fn apply(
    alloc: Global,
    list: &[Entry],
    usage: &Usage,
    format: Format,
    grace: Grace,
    now: u64,
) -> Result<Vec<Entry>, ApplyFault>
    requires { IsStrictlyIncreasing (ids_of list.now) }
    ensures applied { IfOk result (λ entries. applied format grace now (records_of list.now) usage.now
        ≡ Ok (records_of entries.items)) }
    ensures ascends { IfOk result (λ entries. IsStrictlyIncreasing (ids_of entries.items)) }
    ensures kept { IfOk result (λ entries. All (λ entry. IsKept format entry.id entry.rec) entries.items) }
    ensures lasting { IfOk result (λ entries. All (λ entry. is_null_of entry.rec ≡ false) entries.items) }
    ensures refused { IfErr result (IsApplyFault (applied format grace now (records_of list.now) usage.now)) }
{
    let mut entries = Vec::new(alloc);
    let mut rest = list;
    let mut after = None;
    'ids: while let Some(id) = next_id(rest, usage.next_after(after)) {
        let (rec, behind) = take_record(rest, id);
        let entry = wanted_entry(format, id, rec, usage.of(id), grace, now)?;
        push_some(&mut entries, entry)?;
        rest = behind;
        after = Some(id);
    }
    Ok(entries)
}

/// The lesser of the first identifier of a list and another one, where there are any.
fn next_id(rest: &[Entry], used: Option<u32>) -> Option<u32>
    ensures { result ≡ least_id (first_id rest.now) used }
{
    let Some(entry) = rest.first() else {
        return used;
    };
    match used {
        Some(id) => Some(id.min(entry.id)),
        None => Some(entry.id),
    }
}

/// The record of an identifier at the front of a list, if it stands there, and the list behind it.
fn take_record(rest: &[Entry], id: u32) -> (Option<Rec>, &[Entry])
    ensures rec { result.0 ≡ record_at id rest.now }
    ensures behind { result.1.now ≡ records_behind id rest.now }
{
    match rest.split_first() {
        Some((entry, behind)) if entry.id == id => (Some(entry.rec), behind),
        _ => (None, rest),
    }
}

/// Puts an entry, where there is one, at the end.
fn push_some(entries: &mut Vec<Entry>, entry: Option<Entry>) -> Result<(), AllocFailed<Entry>>
    ensures { OnOk result (entries.new.items ≡ entries.old.items ++ option_to_list entry) }
{
    if let Some(entry) = entry {
        entries.push(entry)?;
    }
    Ok(())
}
