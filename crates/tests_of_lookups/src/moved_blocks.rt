//! Files that say the same in another order: with blocks that stand elsewhere, and with entries in other data blocks.

ghost use Rattle.std.specs.Prelude.{◌≤◌};

use crate::built_files::{Built, entry_at};
use quota_types::Format;
use std::alloc::{AllocError, Global};

/// How many bytes a block has, and how many numbers.
const BLOCK: usize = 1024;

const NUMBERS: usize = 256;

/// The root, and the data block that stands behind it in a file that was built. The other data blocks follow, and then
/// the blocks of the tree.
const ROOT: usize = 1;

const FIRST_DATA: usize = 2;

/// Where the places for entries begin in a data block.
const ENTRIES_AT: usize = 16;

/// The place of each of `count` things: it is `stride` places behind that of the thing before it, around the end. Each
/// has a place of its own where the stride has no divisor with the count.
fn place_of(thing: usize, stride: usize, count: usize) -> usize {
    if count == 0 {
        0
    } else {
        thing.wrapping_mul(stride) % count
    }
}

/// How many bytes an entry has.
fn entry_size(format: Format) -> usize {
    if format == Format::V2R0 { 48 } else { 72 }
}

/// How many entries a data block has.
fn entries_per_block(format: Format) -> usize
    ensures { 1 ≤ result }
{
    if format == Format::V2R0 { 21 } else { 14 }
}

/// Where a number of a block stands.
fn number_place(block: usize, place: usize) -> usize {
    block
        .wrapping_mul(BLOCK)
        .wrapping_add(place.wrapping_mul(4))
}

/// Where an entry stands in a file that was built.
fn slot_place(format: Format, slot: usize) -> usize {
    let block = slot_block(format, slot);
    let behind = slot % entries_per_block(format);
    number_place(block, 0)
        .wrapping_add(ENTRIES_AT)
        .wrapping_add(behind.wrapping_mul(entry_size(format)))
}

/// The data block in which it stands.
fn slot_block(format: Format, slot: usize) -> usize {
    (slot / entries_per_block(format)).wrapping_add(FIRST_DATA)
}

fn byte_at(file: &[u8], at: usize) -> u8 {
    file.get(at).copied().unwrap_or(0)
}

fn number_at(file: &[u8], at: usize) -> usize {
    let number = u32::from_le_bytes([
        byte_at(file, at),
        byte_at(file, at.wrapping_add(1)),
        byte_at(file, at.wrapping_add(2)),
        byte_at(file, at.wrapping_add(3)),
    ]);
    number as usize
}

/// Writes bytes of one file over those at a place of another one.
fn copy(from: &[u8], at: usize, count: usize, to: &mut [u8], place: usize) {
    for behind in 0..count {
        let byte = byte_at(from, at.wrapping_add(behind));
        if let Some(there) = to.get_mut(place.wrapping_add(behind)) {
            *there = byte;
        }
    }
}

/// Writes the number of a block over the four bytes at a place, or the greatest one where it is none.
fn put(file: &mut [u8], at: usize, number: usize) {
    let bytes = u32::try_from(number).unwrap_or(u32::MAX).to_le_bytes();
    copy(&bytes, 0, 4, file, at);
}

/// Where the reference stands that leads to the data block of an identifier.
fn reference_place(file: &[u8], id: u32) -> usize {
    let [first, second, third, fourth] = id.to_be_bytes();
    let mut block = ROOT;
    for digit in [first, second, third] {
        block = number_at(file, number_place(block, usize::from(digit)));
    }
    number_place(block, usize::from(fourth))
}

/// The same file with its entries dealt among the places that they have: each stands `stride` places behind that of the
/// identifier before it.
pub(crate) fn with_dealt_entries(
    alloc: Global,
    built: &Built,
    file: &[u8],
    stride: usize,
) -> Result<Vec<u8>, AllocError> {
    let mut dealt = Vec::from_slice(alloc, file)?;
    for place in 0..built.count {
        let from = place as usize;
        let to = place_of(from, stride, built.count as usize);
        copy(
            file,
            slot_place(built.format, from),
            entry_size(built.format),
            &mut dealt,
            slot_place(built.format, to),
        );
        let id = entry_at(built, place).id;
        put(
            &mut dealt,
            reference_place(file, id),
            slot_block(built.format, to),
        );
    }
    Ok(dealt)
}

/// Where the blocks of a file stand once they were moved.
#[derive(Clone, Copy)]
struct Order {
    stride: usize,
    blocks: usize,
    /// The first block behind the data blocks.
    behind_data: usize,
}

impl Order {
    /// The new number of a block. The header and the root stay.
    fn new_number(&self, block: usize) -> usize {
        if block < FIRST_DATA {
            return block;
        }
        let others = self.blocks.saturating_sub(FIRST_DATA);
        place_of(block - FIRST_DATA, self.stride, others).wrapping_add(FIRST_DATA)
    }

    /// The places of the numbers of a block that name blocks: in the header the heads of both lists, in a data block
    /// the next and the previous one, and in a block of the tree all.
    fn naming(&self, block: usize) -> (usize, usize) {
        if block == 0 {
            (6, 8)
        } else if block >= FIRST_DATA && block < self.behind_data {
            (0, 2)
        } else {
            (0, NUMBERS)
        }
    }

    /// Copies a block to its new place, with the new numbers of the blocks that it names.
    fn move_block(&self, file: &[u8], moved: &mut [u8], block: usize) {
        let to = self.new_number(block);
        copy(
            file,
            number_place(block, 0),
            BLOCK,
            moved,
            number_place(to, 0),
        );
        let (first, end) = self.naming(block);
        for place in first..end {
            let named = number_at(file, number_place(block, place));
            put(moved, number_place(to, place), self.new_number(named));
        }
    }
}

/// The same file with its blocks behind the root in another order: each stands `stride` places behind the one before
/// it.
pub(crate) fn with_moved_blocks(
    alloc: Global,
    built: &Built,
    file: &[u8],
    stride: usize,
) -> Result<Vec<u8>, AllocError> {
    let last = (built.count as usize).saturating_sub(1);
    let order = Order {
        stride,
        blocks: file.len() / BLOCK,
        behind_data: slot_block(built.format, last).wrapping_add(1),
    };
    let mut moved = vec![in alloc; 0u8; file.len()]?;
    for block in 0..order.blocks {
        order.move_block(file, &mut moved, block);
    }
    Ok(moved)
}
