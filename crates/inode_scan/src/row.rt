ghost use Rattle.std.specs.Prelude.{◌≡◌, ◌^◌};
ghost use Rattle.input_text.specs.Numeral.{number_of};
ghost use Rattle.inode_scan.specs.Line.{number_below, row_from, row_in};

use crate::narrow::in_32_bits;
use input_text::{has_no_word, next_word, number_in};

/// What a line of a listing says.
#[derive(Clone, Copy)]
pub(crate) struct Row {
    /// The identifier of the owner.
    pub(crate) owner: u32,
    /// The identifier of the group, or of the project in a listing of projects.
    pub(crate) group: u32,
    /// The device that the inode is on.
    pub(crate) device: u64,
    /// The inode's number on its device.
    pub(crate) inode: u64,
    /// How many blocks of 512 bytes the inode uses.
    pub(crate) blocks: u64,
}

/// What a line says, or `None` where it is not five numbers in their ranges.
#[tactic(auto, unfolding(crate::specs::Line::row_in), using(crate::proofs::RowLemmas::row_of_more))]
pub(crate) fn read_row(line: &[u8]) -> Option<Row>
    ensures { result ≡ row_in line.now }
{
    let (owner, rest) = next_word(line)?;
    let (group, rest) = next_word(rest)?;
    let (device, rest) = next_word(rest)?;
    let (inode, rest) = next_word(rest)?;
    let (size, rest) = next_word(rest)?;
    if !has_no_word(rest) {
        return None;
    }
    row_from(owner, group, device, inode, size)
}

/// What five words say, or `None` where they are not numbers in their ranges.
fn row_from(owner: &[u8], group: &[u8], device: &[u8], inode: &[u8], blocks: &[u8]) -> Option<Row>
    ensures { result ≡ row_from (number_below (2 ^ 32) owner.now) (number_below (2 ^ 32) group.now)
        (number_of device.now) (number_of inode.now) (number_of blocks.now) }
{
    Some(Row {
        owner: read_id(owner)?,
        group: read_id(group)?,
        device: number_in(device)?,
        inode: number_in(inode)?,
        blocks: number_in(blocks)?,
    })
}

/// The identifier that a word spells, which is a number of 32 bits.
fn read_id(word: &[u8]) -> Option<u32>
    ensures { result ≡ number_below (2 ^ 32) word.now }
{
    in_32_bits(number_in(word)?)
}
