ghost use Rattle.std.specs.Prelude.{◌≡◌, ℕ, ◌+◌, ◌*◌, ◌<◌, ◌≤◌, length, slice_index};
ghost use Rattle.quota_types.specs.Bytes.{number_at};
ghost use Rattle.quota_types.specs.KeptBytes.{KeepsOutside};

use byteorder::{ByteOrder, LittleEndian};

/// The number of two bytes at a place, the lowest first, as every number of a quota file is stored (`__le16` of the
/// kernel's `include/uapi/linux/types.h`).
pub fn le16_at(bytes: &[u8], at: usize) -> u16
    requires { at + 2 ≤ length bytes.now }
    ensures { result ≡ number_at 2 bytes.now at }
{
    LittleEndian::read_u16(&bytes[at..])
}

/// The number of four bytes at a place, the lowest first.
pub fn le32_at(bytes: &[u8], at: usize) -> u32
    requires { at + 4 ≤ length bytes.now }
    ensures { result ≡ number_at 4 bytes.now at }
{
    LittleEndian::read_u32(&bytes[at..])
}

/// The number of eight bytes at a place, the lowest first.
pub fn le64_at(bytes: &[u8], at: usize) -> u64
    requires { at + 8 ≤ length bytes.now }
    ensures { result ≡ number_at 8 bytes.now at }
{
    LittleEndian::read_u64(&bytes[at..])
}

/// Writes a number of two bytes at a place, the lowest first. All other bytes stay.
pub fn set_le16_at(bytes: &mut [u8], at: usize, value: u16)
    requires { at + 2 ≤ length bytes.old }
    ensures written { number_at 2 bytes.new at ≡ value }
    ensures others { KeepsOutside at (at + 2) bytes.old bytes.new }
{
    LittleEndian::write_u16(&mut bytes[at..], value);
}

/// Writes a number of four bytes at a place, the lowest first. All other bytes stay.
pub fn set_le32_at(bytes: &mut [u8], at: usize, value: u32)
    requires { at + 4 ≤ length bytes.old }
    ensures written { number_at 4 bytes.new at ≡ value }
    ensures others { KeepsOutside at (at + 4) bytes.old bytes.new }
{
    LittleEndian::write_u32(&mut bytes[at..], value);
}

/// Writes a number of eight bytes at a place, the lowest first. All other bytes stay.
pub fn set_le64_at(bytes: &mut [u8], at: usize, value: u64)
    requires { at + 8 ≤ length bytes.old }
    ensures written { number_at 8 bytes.new at ≡ value }
    ensures others { KeepsOutside at (at + 8) bytes.old bytes.new }
{
    LittleEndian::write_u64(&mut bytes[at..], value);
}

/// Writes numbers of four bytes one after the other, from a place on. All other bytes stay.
pub fn set_le32s_at(bytes: &mut [u8], at: usize, values: &[u32])
    requires { at + 4 * length values.now ≤ length bytes.old }
    ensures written { (k : ℕ) → k < length values.now → number_at 4 bytes.new (at + 4 * k) ≡ slice_index values.now k }
    ensures others { KeepsOutside at (at + 4 * length values.now) bytes.old bytes.new }
{
    LittleEndian::write_u32_into(values, &mut bytes[at..at + 4 * values.len()]);
}

/// Writes numbers of eight bytes one after the other, from a place on. All other bytes stay.
pub fn set_le64s_at(bytes: &mut [u8], at: usize, values: &[u64])
    requires { at + 8 * length values.now ≤ length bytes.old }
    ensures written { (k : ℕ) → k < length values.now → number_at 8 bytes.new (at + 8 * k) ≡ slice_index values.now k }
    ensures others { KeepsOutside at (at + 8 * length values.now) bytes.old bytes.new }
{
    LittleEndian::write_u64_into(values, &mut bytes[at..at + 8 * values.len()]);
}
