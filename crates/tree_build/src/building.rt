ghost use Rattle.std.specs.Prelude.{◌≡◌, ◌*◌, ◌+◌, ◌/◌, ◌%◌, ◌<◌, ◌≤◌, ◌^◌, ◌==◌, if◌then◌else◌, None, All, length};
ghost use Rattle.std.specs.Prelude.{vec_len, IfOk, IfErr, OnOk};
ghost use Rattle.std.specs.List.Sorted.{IsStrictlyIncreasing};
ghost use Rattle.quota_types.specs.Format.{IsTreeFormat};
ghost use Rattle.quota_types.specs.Kept.{kept_of};
ghost use Rattle.quota_types.specs.Range.{grace_unfit, unfit};
ghost use Rattle.entry_codec.specs.Entry.{entries_per_block};
ghost use Rattle.entry_codec.specs.Header.{header_of};
ghost use Rattle.quota_value.specs.Listed.{ids_of, value_of};
ghost use Rattle.tree_build.specs.Build.{HasNoPadding, HasOneRoom, IsBuildFault};
ghost use Rattle.tree_build.specs.Size.{blocks_needed};
ghost use Rattle.tree_meaning.specs.TreeFile.{TreeStandsFor};

use crate::BuildFault;
use crate::needed::{blocks_needed, first_with_room};
use crate::new_data::add_data;
use crate::new_file::NewFile;
use crate::new_tree::{add_level, tree_block};
use entry_codec::Header;
use quota_types::{Entry, Format, Grace, Kind};
use std::alloc::{AllocError, Global};

/// Builds the bytes of a whole tree file from its header's values and its entries.
///
/// The file stands for the map of the list. It has as few blocks as can be: no free ones, and at most one data block
/// that is not full. Every byte that no field names is 0. Its tree and data blocks are laid out as the kernel's
/// `fs/quota/quota_tree.c` reads them. Time and memory grow with the list; no clause says so.
///
/// # Errors
///
/// `Full` exactly where the file needs more blocks than `limit`, and `Memory` where there was not enough memory.
pub fn build(
    alloc: Global,
    format: Format,
    kind: Kind,
    grace: Grace,
    flags: u32,
    list: &[Entry],
    limit: u32,
) -> Result<Vec<u8>, BuildFault>
    requires tree { IsTreeFormat format }
    requires grace { grace_unfit format grace ≡ None }
    requires ascending { IsStrictlyIncreasing (ids_of list.now) }
    requires fits { All (λ entry. unfit format entry.id entry.rec ≡ None) list.now }
    requires kept { All (λ entry. kept_of format entry.id entry.rec ≡ entry.rec) list.now }
    ensures stands { IfOk result (λ file. TreeStandsFor file.items (value_of kind format grace flags list.now)) }
    ensures size { IfOk result (λ file. vec_len file ≡ 1024 * blocks_needed format (ids_of list.now)) }
    ensures blocks { IfOk result (λ file. (header_of file.items).blocks ≡ blocks_needed format (ids_of list.now)) }
    ensures one_room { IfOk result (λ file. HasOneRoom format file.items (blocks_needed format (ids_of list.now))) }
    ensures no_padding { IfOk result (λ file. HasNoPadding format file.items (blocks_needed format (ids_of list.now))) }
    ensures few { OnOk result (blocks_needed format (ids_of list.now) ≤ limit) }
    ensures refused { IfErr result (IsBuildFault (blocks_needed format (ids_of list.now)) limit) }
{
    let blocks = blocks_needed(format, list);
    if blocks > u64::from(limit) {
        return Err(BuildFault::Full {
            blocks,
            limit: u64::from(limit),
        });
    }
    let header = Header {
        kind,
        format,
        grace,
        flags,
        blocks: blocks as u32,
        free: 0,
        first: first_with_room(format, list.len()),
    };
    Ok(write_file(alloc, &header, list)?)
}

/// The file of a header and its entries: header and root, the data blocks, and the tree blocks below the root, from the
/// lowest level up.
fn write_file(alloc: Global, header: &Header, list: &[Entry]) -> Result<Vec<u8>, AllocError>
    requires tree { IsTreeFormat header.now.format }
    requires grace { grace_unfit header.now.format header.now.grace ≡ None }
    requires ascending { IsStrictlyIncreasing (ids_of list.now) }
    requires fits { All (λ entry. unfit header.now.format entry.id entry.rec ≡ None) list.now }
    requires kept { All (λ entry. kept_of header.now.format entry.id entry.rec ≡ entry.rec) list.now }
    requires small { header.now.blocks < 2 ^ 32 }
    requires blocks { header.now.blocks ≡ blocks_needed header.now.format (ids_of list.now) }
    requires free { header.now.free ≡ 0 }
    requires first { header.now.first ≡ (if length list.now % entries_per_block header.now.format == 0 then 0
        else 2 + length list.now / entries_per_block header.now.format) }
    ensures stands { IfOk result (λ file. TreeStandsFor file.items
        (value_of header.now.kind header.now.format header.now.grace header.now.flags list.now)) }
    ensures size { IfOk result (λ file. vec_len file ≡ 1024 * blocks_needed header.now.format (ids_of list.now)) }
    ensures blocks { IfOk result (λ file. (header_of file.items).blocks
        ≡ blocks_needed header.now.format (ids_of list.now)) }
    ensures one_room { IfOk result (λ file. HasOneRoom header.now.format file.items
        (blocks_needed header.now.format (ids_of list.now))) }
    ensures no_padding { IfOk result (λ file. HasNoPadding header.now.format file.items
        (blocks_needed header.now.format (ids_of list.now))) }
{
    let mut file = NewFile::new(alloc, header)?;
    let leaves = add_data(alloc, &mut file, header.format, list)?;
    let third = add_level(alloc, &mut file, leaves.as_slice())?;
    let second = add_level(alloc, &mut file, third.as_slice())?;
    let first = add_level(alloc, &mut file, second.as_slice())?;
    file.set_root(&tree_block(first.as_slice()));
    Ok(file.bytes)
}
