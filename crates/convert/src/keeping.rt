ghost use Rattle.std.specs.Prelude.{◌≡◌, ◌++◌, [], false, All, None, Some, IfErr, OnOk, map, slice_get};
ghost use Rattle.std.specs.List.{filter_map};
ghost use Rattle.std.specs.Option.{option_to_list};
ghost use Rattle.quota_types.specs.Kept.{IsKept};
ghost use Rattle.quota_types.specs.Rec.{is_null_of};
ghost use Rattle.convert.specs.Conversion.{grace_no_room};
ghost use Rattle.convert.specs.Listing.{entry_no_room, kept_entry, kept_list, lasting_entries, list_without_room};

use quota_types::{Entry, Format, Grace, NoRoom, check_grace, check_record, kept};

/// Makes of a list of records what the format keeps of it, without those that limit and count nothing. It takes no
/// memory.
///
/// # Errors
///
/// The first value for which the format has no room: of the grace periods, then of the first record that limits or
/// counts something and has one. The list may then be kept in part.
pub(crate) fn keep_entries(
    format: Format,
    grace: &Grace,
    entries: &mut Vec<Entry>,
) -> Result<(), NoRoom>
    ensures kept { OnOk result (entries.new.items ≡ kept_list format entries.old.items) }
    ensures fits { OnOk result
        (option_to_list (grace_no_room format grace.now) ++ list_without_room format entries.old.items ≡ []) }
    ensures again { OnOk result (All (λ entry. IsKept format entry.id entry.rec) entries.new.items) }
    ensures lasting { OnOk result (All (λ entry. is_null_of entry.rec ≡ false) entries.new.items) }
    ensures refused { IfErr result (λ out.
        slice_get (option_to_list (grace_no_room format grace.now) ++ list_without_room format entries.old.items) 0
        ≡ Some out) }
{
    check_grace(format, grace)?;
    drop_null(entries);
    keep_all(format, entries.as_mut_slice())
}

/// Leaves out the records that limit and count nothing.
fn drop_null(entries: &mut Vec<Entry>)
    ensures { entries.new.items ≡ lasting_entries entries.old.items }
{
    entries.retain(|entry| !entry.rec.is_null());
}

/// Makes of each record what the format keeps of it.
fn keep_all(format: Format, entries: &mut [Entry]) -> Result<(), NoRoom>
    requires { All (λ entry. is_null_of entry.rec ≡ false) entries.old }
    ensures kept { OnOk result (entries.new ≡ map (kept_entry format) entries.old) }
    ensures fits { OnOk result (filter_map (entry_no_room format) entries.old ≡ []) }
    ensures again { OnOk result (All (λ entry. IsKept format entry.id entry.rec) entries.new) }
    ensures lasting { OnOk result (All (λ entry. is_null_of entry.rec ≡ false) entries.new) }
    ensures refused { IfErr result (λ out. slice_get (filter_map (entry_no_room format) entries.old) 0 ≡ Some out) }
{
    for entry in entries.iter_mut() {
        keep_one(format, entry)?;
    }
    Ok(())
}

/// Makes of a record what the format keeps of it.
fn keep_one(format: Format, entry: &mut Entry) -> Result<(), NoRoom>
    ensures kept { OnOk result (entry.new ≡ kept_entry format entry.old) }
    ensures fits { OnOk result (entry_no_room format entry.old ≡ None) }
    ensures again { OnOk result (IsKept format entry.new.id entry.new.rec) }
    ensures null { OnOk result (is_null_of entry.new.rec ≡ is_null_of entry.old.rec) }
    ensures refused { IfErr result (λ out. entry_no_room format entry.old ≡ Some out) }
{
    check_record(format, entry.id, &entry.rec)?;
    entry.rec = kept(format, entry.id, entry.rec);
    Ok(())
}
