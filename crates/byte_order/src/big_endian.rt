ghost use Rattle.std.specs.Prelude.{◌≡◌, ◌+◌, ◌≤◌, length};
ghost use Rattle.byte_order.specs.Number.{big_at};

use byteorder::{BigEndian, ByteOrder};

/// The number of two bytes at a place, the highest first.
pub(crate) fn be16_at(bytes: &[u8], at: usize) -> u16
    requires { at + 2 ≤ length bytes.now }
    ensures { result ≡ big_at 2 bytes.now at }
{
    BigEndian::read_u16(&bytes[at..])
}

/// The number of four bytes at a place, the highest first.
pub(crate) fn be32_at(bytes: &[u8], at: usize) -> u32
    requires { at + 4 ≤ length bytes.now }
    ensures { result ≡ big_at 4 bytes.now at }
{
    BigEndian::read_u32(&bytes[at..])
}

/// The number of eight bytes at a place, the highest first.
pub(crate) fn be64_at(bytes: &[u8], at: usize) -> u64
    requires { at + 8 ≤ length bytes.now }
    ensures { result ≡ big_at 8 bytes.now at }
{
    BigEndian::read_u64(&bytes[at..])
}
