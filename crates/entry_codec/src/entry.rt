ghost use Rattle.std.specs.Prelude.{◌≡◌, ◌≢◌, ◌≤◌, ℕ, true, false, None, Some, IfNone, IfSome, length};
ghost use Rattle.entry_codec.specs.Entry.{is_unused, stored_id, stored_id_in, stored_v2r0, stored_v2r0_in};
ghost use Rattle.entry_codec.specs.Entry.{stored_v2r1, stored_v2r1_in};
ghost use Rattle.entry_codec.specs.Spelling.{IsEntry, IsEntryIn, padding_of};
ghost use Rattle.quota_types.specs.Bytes.{number_at};
ghost use Rattle.quota_types.specs.Format.{IsTreeFormat, record_size};
ghost use Rattle.quota_types.specs.Kept.{kept_of, without_marker};
ghost use Rattle.quota_types.specs.Range.{unfit};

use byte_order::{Order, u32_at, u64_at};
use quota_types::{Format, Rec, kept, le32_at, set_le32s_at, set_le64s_at};

/// The record of an entry of vfsv0, as it is stored. It fits, whatever the identifier.
fn stored_v2r0(bytes: &[u8], order: Order) -> Rec
    requires { length bytes.now ≡ 48 }
    ensures value { result ≡ stored_v2r0_in order bytes.now }
    ensures fits { unfit Format.V2R0 0 result ≡ None }
{
    Rec {
        ihard: u64::from(u32_at(bytes, 4, order)),
        isoft: u64::from(u32_at(bytes, 8, order)),
        inodes: u64::from(u32_at(bytes, 12, order)),
        bhard: u64::from(u32_at(bytes, 16, order)),
        bsoft: u64::from(u32_at(bytes, 20, order)),
        space: u64_at(bytes, 24, order),
        btime: u64_at(bytes, 32, order),
        itime: u64_at(bytes, 40, order),
    }
}

/// The record of an entry of vfsv1, as it is stored. It fits, whatever the identifier.
fn stored_v2r1(bytes: &[u8], order: Order) -> Rec
    requires { length bytes.now ≡ 72 }
    ensures value { result ≡ stored_v2r1_in order bytes.now }
    ensures fits { unfit Format.V2R1 0 result ≡ None }
{
    Rec {
        ihard: u64_at(bytes, 8, order),
        isoft: u64_at(bytes, 16, order),
        inodes: u64_at(bytes, 24, order),
        bhard: u64_at(bytes, 32, order),
        bsoft: u64_at(bytes, 40, order),
        space: u64_at(bytes, 48, order),
        btime: u64_at(bytes, 56, order),
        itime: u64_at(bytes, 64, order),
    }
}

/// Whether all bytes are 0.
fn is_unused(bytes: &[u8]) -> bool
    ensures { result ≡ is_unused bytes.now }
{
    bytes.iter().all(|byte| *byte == 0)
}

/// The record of an entry in use.
#[inline(always)]
fn used_record(format: Format, id: u32, bytes: &[u8], order: Order) -> Rec
    requires tree { IsTreeFormat format }
    requires size { length bytes.now ≡ record_size format }
    requires used { is_unused bytes.now ≡ false }
    requires id { id ≡ stored_id_in order bytes.now }
    ensures entry { IsEntryIn order format bytes.now id result }
    ensures fits { unfit format id result ≡ None }
    ensures kept { kept_of format id result ≡ result }
{
    match format {
        Format::V1 | Format::V1R32 => unreachable!(),
        Format::V2R0 => kept(Format::V2R0, id, stored_v2r0(bytes, order)),
        Format::V2R1 => kept(Format::V2R1, id, stored_v2r1(bytes, order)),
    }
}

/// The identifier of a little-endian entry, or none where it is unused.
pub fn read_id(bytes: &[u8]) -> Option<u32>
    requires { 4 ≤ length bytes.now }
    ensures id { IfSome result (λ id. id ≡ stored_id bytes.now) }
    ensures used { IfSome result (λ _. is_unused bytes.now ≡ false) }
    ensures unused { IfNone result (is_unused bytes.now ≡ true) }
{
    if is_unused(bytes) {
        return None;
    }
    Some(le32_at(bytes, 0))
}

/// The identifier and the record of an entry of a file that is read in an order, or none where it is unused.
#[inline(always)]
pub fn read_entry(format: Format, bytes: &[u8], order: Order) -> Option<(u32, Rec)>
    requires tree { IsTreeFormat format }
    requires size { length bytes.now ≡ record_size format }
    ensures used { IfSome result (λ entry. IsEntryIn order format bytes.now entry.0 entry.1) }
    ensures found { (id : ℕ) (rec : Rec) → IsEntryIn order format bytes.now id rec → result ≡ Some (id, rec) }
    ensures unused { IfNone result (is_unused bytes.now ≡ true) }
    ensures none { is_unused bytes.now ≡ true → result ≡ None }
    ensures fits { IfSome result (λ entry. unfit format entry.0 entry.1 ≡ None) }
    ensures kept { IfSome result (λ entry. kept_of format entry.0 entry.1 ≡ entry.1) }
{
    if is_unused(bytes) {
        return None;
    }
    let id = u32_at(bytes, 0, order);
    Some((id, used_record(format, id, bytes, order)))
}

/// The record as it is stored: the record of zeros of identifier 0 has the marker in its place.
fn marked(id: u32, rec: &Rec) -> Rec
    requires { without_marker id rec.now ≡ rec.now }
    ensures read { without_marker id result ≡ rec.now }
    ensures used { id ≡ 0 → result ≢ record {
      ihard = 0;
      isoft = 0;
      inodes = 0;
      bhard = 0;
      bsoft = 0;
      space = 0;
      btime = 0;
      itime = 0;
    } }
{
    let rec = *rec;
    if id == 0 && rec == Rec::default() {
        Rec { itime: 1, ..rec }
    } else {
        rec
    }
}

fn write_v2r0(id: u32, stored: &Rec, bytes: &mut [u8])
    requires size { length bytes.old ≡ 48 }
    requires fits { unfit Format.V2R0 id stored.now ≡ None }
    ensures id { stored_id bytes.new ≡ id }
    ensures stored { stored_v2r0 bytes.new ≡ stored.now }
{
    let numbers = [
        id,
        stored.ihard as u32,
        stored.isoft as u32,
        stored.inodes as u32,
        stored.bhard as u32,
        stored.bsoft as u32,
    ];
    set_le32s_at(bytes, 0, &numbers);
    set_le64s_at(bytes, 24, &[stored.space, stored.btime, stored.itime]);
}

fn write_v2r1(id: u32, stored: &Rec, bytes: &mut [u8])
    requires { length bytes.old ≡ 72 }
    ensures id { stored_id bytes.new ≡ id }
    ensures padding { number_at 4 bytes.new 4 ≡ 0 }
    ensures stored { stored_v2r1 bytes.new ≡ stored.now }
{
    let numbers = [
        stored.ihard,
        stored.isoft,
        stored.inodes,
        stored.bhard,
        stored.bsoft,
        stored.space,
        stored.btime,
        stored.itime,
    ];
    set_le32s_at(bytes, 0, &[id, 0]);
    set_le64s_at(bytes, 8, &numbers);
}

/// Writes the entry of an identifier and its record over all bytes of `bytes`; padding becomes 0.
pub fn write_entry(format: Format, id: u32, rec: &Rec, bytes: &mut [u8])
    requires tree { IsTreeFormat format }
    requires size { length bytes.old ≡ record_size format }
    requires fits { unfit format id rec.now ≡ None }
    requires kept { kept_of format id rec.now ≡ rec.now }
    ensures entry { IsEntry format bytes.new id rec.now }
    ensures padding { padding_of format bytes.new ≡ 0 }
{
    let stored = marked(id, rec);
    match format {
        Format::V1 | Format::V1R32 => unreachable!(),
        Format::V2R0 => write_v2r0(id, &stored, bytes),
        Format::V2R1 => write_v2r1(id, &stored, bytes),
    }
}
