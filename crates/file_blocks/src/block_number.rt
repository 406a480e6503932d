ghost use Rattle.std.specs.Prelude.{◌≡◌, ◌+◌, ◌≤◌};
ghost use Rattle.quota_types.specs.Bytes.{number_at};
ghost use Rattle.quota_types.specs.KeptBytes.{KeepsOutside};

use quota_types::{le16_at, le32_at, le64_at, set_le16_at, set_le32_at, set_le64_at};

/// The number of two bytes at byte `at` of a block, the lowest first, as every number of a quota file is stored
/// (`__le16` of the kernel's `include/uapi/linux/types.h`).
pub fn le16(block: &[u8; 1024], at: usize) -> u16
    requires { at + 2 ≤ 1024 }
    ensures { result ≡ number_at 2 block.now at }
{
    le16_at(block, at)
}

/// The number of four bytes at byte `at` of a block, the lowest first, as every number of a quota file is stored
/// (`__le32` of the kernel's `include/uapi/linux/types.h`).
pub fn le32(block: &[u8; 1024], at: usize) -> u32
    requires { at + 4 ≤ 1024 }
    ensures { result ≡ number_at 4 block.now at }
{
    le32_at(block, at)
}

/// The number of eight bytes at byte `at` of a block, the lowest first, as every number of a quota file is stored
/// (`__le64` of the kernel's `include/uapi/linux/types.h`).
pub fn le64(block: &[u8; 1024], at: usize) -> u64
    requires { at + 8 ≤ 1024 }
    ensures { result ≡ number_at 8 block.now at }
{
    le64_at(block, at)
}

/// Writes a number of two bytes at byte `at` of a block, the lowest first. All other bytes stay.
pub fn set_le16(block: &mut [u8; 1024], at: usize, value: u16)
    requires { at + 2 ≤ 1024 }
    ensures written { number_at 2 block.new at ≡ value }
    ensures others { KeepsOutside at (at + 2) block.old block.new }
{
    set_le16_at(block, at, value);
}

/// Writes a number of four bytes at byte `at` of a block, the lowest first. All other bytes stay.
pub fn set_le32(block: &mut [u8; 1024], at: usize, value: u32)
    requires { at + 4 ≤ 1024 }
    ensures written { number_at 4 block.new at ≡ value }
    ensures others { KeepsOutside at (at + 4) block.old block.new }
{
    set_le32_at(block, at, value);
}

/// Writes a number of eight bytes at byte `at` of a block, the lowest first. All other bytes stay.
pub fn set_le64(block: &mut [u8; 1024], at: usize, value: u64)
    requires { at + 8 ≤ 1024 }
    ensures written { number_at 8 block.new at ≡ value }
    ensures others { KeepsOutside at (at + 8) block.old block.new }
{
    set_le64_at(block, at, value);
}
