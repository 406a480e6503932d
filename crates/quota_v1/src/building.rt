ghost use Rattle.std.specs.Prelude.{◌≡◌, ◌^◌, ◌≤◌, false, true, None, All, vec_len, IfOk};
ghost use Rattle.std.specs.List.Sorted.{IsStrictlyIncreasing};
ghost use Rattle.quota_types.specs.Bytes.{number_at};
ghost use Rattle.quota_types.specs.Format.{is_flat};
ghost use Rattle.quota_types.specs.Kept.{kept_of};
ghost use Rattle.quota_types.specs.Range.{grace_unfit, unfit};
ghost use Rattle.quota_types.specs.Rec.{is_zeros};
ghost use Rattle.quota_types.specs.declared.file_kind.Kind.{Kind};
ghost use Rattle.quota_value.specs.Listed.{ids_of, value_of};
ghost use Rattle.quota_v1.specs.Build.{IsZeroElsewhere, records_needed};
ghost use Rattle.quota_v1.specs.FlatFile.{FlatStandsFor};
ghost use Rattle.quota_v1.specs.Place.{block_time_start, flat_limit, inode_time_start, record_start, time_width};

use crate::flat_change::{write_record, write_times};
use crate::flat_record::record_start;
use quota_types::{Entry, Format, Grace};
use std::alloc::{AllocError, Global};

/// Builds the bytes of a whole flat file of a format from its grace periods, in seconds, and its entries.
///
/// The file stands for the map of the list, whichever kind it is read as. It has a record, of 40 bytes or of 32, for
/// each identifier from 0 up to the greatest one, and at least one, in which record 0 has the grace periods. Every byte
/// of an identifier that is not listed is 0. Time and memory grow with the greatest identifier; no clause says so.
///
/// # Errors
///
/// There was not enough memory.
pub fn build_v1(
    alloc: Global,
    format: Format,
    grace: Grace,
    list: &[Entry],
) -> Result<Vec<u8>, AllocError>
    requires flat { is_flat format ≡ true }
    requires grace { grace_unfit format grace ≡ None }
    requires ascending { IsStrictlyIncreasing (ids_of list.now) }
    requires fits { All (λ entry. unfit format entry.id entry.rec ≡ None) list.now }
    requires kept { All (λ entry. kept_of format entry.id entry.rec ≡ entry.rec) list.now }
    requires not_zeros { All (λ entry. is_zeros entry.rec ≡ false) list.now }
    ensures stands { IfOk result
        (λ file. (kind : Kind) → FlatStandsFor format file.items (value_of kind format grace 0 list.now)) }
    ensures size { IfOk result (λ file. vec_len file ≡ record_start format (records_needed (ids_of list.now))) }
    ensures limited { IfOk result (λ file. vec_len file ≤ flat_limit format) }
    ensures block_time { IfOk result
        (λ file. number_at (time_width format) file.items (block_time_start format 0) ≡ grace.block) }
    ensures inode_time { IfOk result
        (λ file. number_at (time_width format) file.items (inode_time_start format 0) ≡ grace.inode) }
    ensures elsewhere { IfOk result (λ file. IsZeroElsewhere format (ids_of list.now) file.items) }
{
    let mut file = vec![in alloc; 0; record_start(format, records_needed(list))]?;
    write_times(format, &mut file, 0, grace.block, grace.inode);
    for entry in list {
        write_record(format, &mut file, entry.id, &entry.rec);
    }
    Ok(file)
}

/// How many records a flat file of these entries has.
fn records_needed(list: &[Entry]) -> usize
    requires { IsStrictlyIncreasing (ids_of list.now) }
    ensures value { result ≡ records_needed (ids_of list.now) }
    ensures few { result ≤ 2 ^ 32 }
{
    match list.last() {
        Some(entry) => entry.id as usize + 1,
        None => 1,
    }
}
