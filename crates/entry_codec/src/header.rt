ghost use Rattle.std.specs.Prelude.{◌≡◌, ◌^◌, ◌<◌, ◌≤◌, None, Some, IfErr, IfOk, OnOk, drop, length};
ghost use Rattle.entry_codec.specs.Header.{format_of, header_fault, header_of, is_magic, magic_of};
ghost use Rattle.entry_codec.specs.Spelling.{AreOf};
ghost use Rattle.byte_order.specs.Words.{in_order};
ghost use Rattle.quota_types.specs.Format.{IsTreeFormat};
ghost use Rattle.quota_types.specs.Range.{grace_unfit};

use byte_order::{Order, put_in_order};
use quota_types::{Format, Grace, Kind, le32_at, set_le32s_at};

/// The header of a tree file.
#[derive(Clone, Copy, Debug, PartialEq, Eq)]
pub struct Header {
    /// Whose usage the file limits.
    pub kind: Kind,
    /// The file's format.
    pub format: Format,
    /// The grace periods, in seconds.
    pub grace: Grace,
    /// Flags, which may have any value.
    pub flags: u32,
    /// The number of blocks of the file, header and root counted.
    pub blocks: u32,
    /// The first free block, or 0.
    pub free: u32,
    /// The first data block with an unused entry, or 0.
    pub first: u32,
}

/// Why bytes are no header of a file of the wanted kind.
#[derive(Clone, Copy, Debug, PartialEq, Eq)]
pub enum HeaderFault {
    /// The magic number is that of no quota file.
    NotQuota,
    /// The magic number is that of another kind.
    WrongKind,
    /// The version is neither 0 nor 1.
    UnknownVersion,
    /// The number of blocks is less than 2.
    BadBlockCount,
}

/// The number of blocks of an empty file: the header and the root.
const LEAST_BLOCKS: u32 = 2;

fn magic_of(kind: Kind) -> u32
    ensures { result ≡ magic_of kind }
{
    match kind {
        Kind::User => 0xd9c0_1f11,
        Kind::Group => 0xd9c0_1927,
        Kind::Project => 0xd9c0_3f14,
    }
}

fn is_magic(magic: u32) -> bool
    ensures { result ≡ is_magic magic }
{
    magic == magic_of(Kind::User)
        || magic == magic_of(Kind::Group)
        || magic == magic_of(Kind::Project)
}

fn format_of(version: u32) -> Option<Format>
    ensures { result ≡ format_of version }
{
    match version {
        0 => Some(Format::V2R0),
        1 => Some(Format::V2R1),
        _ => None,
    }
}

fn version_of(format: Format) -> u32
    requires { IsTreeFormat format }
    ensures { format_of result ≡ Some format }
{
    match format {
        Format::V1 | Format::V1R32 => unreachable!(),
        Format::V2R0 => 0,
        Format::V2R1 => 1,
    }
}

/// The format, where nothing of the header is at fault.
fn check_header(block: &[u8], kind: Kind) -> Result<Format, HeaderFault>
    requires { 32 ≤ length block.now }
    ensures accepted { OnOk result (header_fault kind (header_of block.now) ≡ None) }
    ensures refused { IfErr result (λ fault. header_fault kind (header_of block.now) ≡ Some fault) }
    ensures version { IfOk result (λ format. format_of (header_of block.now).version ≡ Some format) }
{
    let magic = le32_at(block, 0);
    if !is_magic(magic) {
        return Err(HeaderFault::NotQuota);
    }
    if magic != magic_of(kind) {
        return Err(HeaderFault::WrongKind);
    }
    let format = format_of(le32_at(block, 4)).ok_or(HeaderFault::UnknownVersion)?;
    if le32_at(block, 20) < LEAST_BLOCKS {
        return Err(HeaderFault::BadBlockCount);
    }
    Ok(format)
}

fn read_from(block: &[u8], kind: Kind) -> Result<Header, HeaderFault>
    requires { 32 ≤ length block.now }
    ensures accepted { OnOk result (header_fault kind (header_of block.now) ≡ None) }
    ensures refused { IfErr result (λ fault. header_fault kind (header_of block.now) ≡ Some fault) }
    ensures kind { IfOk result (λ header. header.kind ≡ kind) }
    ensures numbers { IfOk result (λ header. AreOf header (header_of block.now)) }
    ensures grace { IfOk result (λ header. grace_unfit header.format header.grace ≡ None) }
    ensures blocks { IfOk result (λ header. 2 ≤ header.blocks) }
    ensures tree { IfOk result (λ header. IsTreeFormat header.format) }
{
    let format = check_header(block, kind)?;
    Ok(Header {
        kind,
        format,
        grace: Grace {
            block: u64::from(le32_at(block, 8)),
            inode: u64::from(le32_at(block, 12)),
        },
        flags: le32_at(block, 16),
        blocks: le32_at(block, 20),
        free: le32_at(block, 24),
        first: le32_at(block, 28),
    })
}

/// The header of a file of this kind that is read in an order, from the file's first block. Each refusal comes exactly
/// where its cause holds and none that stands before it in `HeaderFault`.
pub fn read_header(block: &[u8; 1024], kind: Kind, order: Order) -> Result<Header, HeaderFault>
    ensures accepted { OnOk result (header_fault kind (header_of (in_order order block.now)) ≡ None) }
    ensures refused { IfErr result (λ fault. header_fault kind (header_of (in_order order block.now)) ≡ Some fault) }
    ensures kind { IfOk result (λ header. header.kind ≡ kind) }
    ensures numbers { IfOk result (λ header. AreOf header (header_of (in_order order block.now))) }
    ensures grace { IfOk result (λ header. grace_unfit header.format header.grace ≡ None) }
    ensures blocks { IfOk result (λ header. 2 ≤ header.blocks) }
    ensures tree { IfOk result (λ header. IsTreeFormat header.format) }
{
    let mut words = *block;
    put_in_order(&mut words, order);
    read_from(&words[..], kind)
}

fn write_to(header: &Header, block: &mut [u8])
    requires tree { IsTreeFormat header.now.format }
    requires block_grace { header.now.grace.block < 2 ^ 32 }
    requires inode_grace { header.now.grace.inode < 2 ^ 32 }
    requires size { 32 ≤ length block.old }
    ensures numbers { AreOf header.now (header_of block.new) }
    ensures rest { drop 32 block.new ≡ drop 32 block.old }
{
    let numbers = [
        magic_of(header.kind),
        version_of(header.format),
        header.grace.block as u32,
        header.grace.inode as u32,
        header.flags,
        header.blocks,
        header.free,
        header.first,
    ];
    set_le32s_at(block, 0, &numbers);
}

/// Writes the header into the first 32 bytes of the file's first block, and leaves the others.
pub fn write_header(header: &Header, block: &mut [u8; 1024])
    requires tree { IsTreeFormat header.now.format }
    requires blocks { 2 ≤ header.now.blocks }
    requires block_grace { header.now.grace.block < 2 ^ 32 }
    requires inode_grace { header.now.grace.inode < 2 ^ 32 }
    ensures numbers { AreOf header.now (header_of block.new) }
    ensures accepted { header_fault header.now.kind (header_of block.new) ≡ None }
    ensures rest { drop 32 block.new ≡ drop 32 block.old }
{
    write_to(header, &mut block[..]);
}
