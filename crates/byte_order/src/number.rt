ghost use Rattle.std.specs.Prelude.{◌≡◌, ◌+◌, ◌≤◌, length};
ghost use Rattle.byte_order.specs.Number.{number_in};

use crate::Order;
use crate::big_endian::{be16_at, be32_at, be64_at};
use quota_types::{le16_at, le32_at, le64_at};

/// The number of two bytes at a place, in an order.
pub fn u16_at(bytes: &[u8], at: usize, order: Order) -> u16
    requires { at + 2 ≤ length bytes.now }
    ensures { result ≡ number_in order 2 bytes.now at }
{
    match order {
        Order::Little => le16_at(bytes, at),
        Order::Big => be16_at(bytes, at),
    }
}

/// The number of four bytes at a place, in an order.
pub fn u32_at(bytes: &[u8], at: usize, order: Order) -> u32
    requires { at + 4 ≤ length bytes.now }
    ensures { result ≡ number_in order 4 bytes.now at }
{
    match order {
        Order::Little => le32_at(bytes, at),
        Order::Big => be32_at(bytes, at),
    }
}

/// The number of eight bytes at a place, in an order.
pub fn u64_at(bytes: &[u8], at: usize, order: Order) -> u64
    requires { at + 8 ≤ length bytes.now }
    ensures { result ≡ number_in order 8 bytes.now at }
{
    match order {
        Order::Little => le64_at(bytes, at),
        Order::Big => be64_at(bytes, at),
    }
}

/// The number of two bytes at byte `at` of a block, in an order.
pub fn half_at(block: &[u8; 1024], at: usize, order: Order) -> u16
    requires { at + 2 ≤ 1024 }
    ensures { result ≡ number_in order 2 block.now at }
{
    u16_at(block, at, order)
}

/// The number of four bytes at byte `at` of a block, in an order.
pub fn word_at(block: &[u8; 1024], at: usize, order: Order) -> u32
    requires { at + 4 ≤ 1024 }
    ensures { result ≡ number_in order 4 block.now at }
{
    u32_at(block, at, order)
}
