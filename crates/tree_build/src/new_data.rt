ghost use Rattle.std.specs.Prelude.{◌≡◌, ◌+◌, ◌^◌, ◌<◌, ◌≤◌, ◌++◌, None, All, length, IfOk, OnOk};
ghost use Rattle.std.specs.List.{flat_map};
ghost use Rattle.quota_types.specs.Format.{IsTreeFormat};
ghost use Rattle.quota_types.specs.Kept.{kept_of};
ghost use Rattle.quota_types.specs.Range.{unfit};
ghost use Rattle.entry_codec.specs.Entry.{entries_per_block};
ghost use Rattle.tree_build.specs.NewFile.{AreBelow, AreDataBlocks, IsDataBlock, KeepsBlocks, leaves_in, parts_needed};
ghost use Rattle.tree_build.specs.NewFile.{parts_of};

use crate::new_file::NewFile;
use entry_codec::entries_per_block;
use file_blocks::set_le16;
use quota_radix::TreePath;
use quota_types::{Entry, Format};
use std::alloc::{AllocError, Global};
use tree_meaning::put_entry;

/// Appends the data blocks of a file's entries, each full but the last one, and answers the leaves.
pub(crate) fn add_data(
    alloc: Global,
    file: &mut NewFile,
    format: Format,
    list: &[Entry],
) -> Result<Vec<TreePath>, AllocError>
    requires tree { IsTreeFormat format }
    requires fits { All (λ entry. unfit format entry.id entry.rec ≡ None) list.now }
    requires kept { All (λ entry. kept_of format entry.id entry.rec ≡ entry.rec) list.now }
    requires room { file.old.blocks + parts_needed format list.now < 2 ^ 32 }
    ensures leaves { IfOk result (λ leaves. leaves.items
        ≡ flat_map leaves_in (parts_of format list.now file.old.blocks (parts_needed format list.now))) }
    ensures below { IfOk result (λ leaves. AreBelow (2 ^ 32) leaves.items) }
    ensures data { OnOk result (AreDataBlocks format file.new.bytes.items
        (parts_of format list.now file.old.blocks (parts_needed format list.now))) }
    ensures kept_blocks { OnOk result (KeepsBlocks file.old.blocks file.old.bytes.items file.new.bytes.items) }
    ensures blocks { OnOk result (file.new.blocks ≡ file.old.blocks + parts_needed format list.now) }
{
    let per_block = entries_per_block(format);
    let mut leaves = Vec::new(alloc);
    let mut rest = list;
    while !rest.is_empty() {
        let (entries, later) = rest.split_at(rest.len().min(per_block));
        let block = file.append(&data_block(format, entries))?;
        add_leaves(&mut leaves, block, entries)?;
        rest = later;
    }
    Ok(leaves)
}

/// Appends the leaves of entries that stand in a block.
fn add_leaves(leaves: &mut Vec<TreePath>, block: u32, entries: &[Entry]) -> Result<(), AllocError>
    ensures leaves { OnOk result (leaves.new.items
        ≡ leaves.old.items ++ leaves_in (record { block = block; entries = entries.now })) }
    ensures below { OnOk result (AreBelow (2 ^ 32) leaves.old.items → AreBelow (2 ^ 32) leaves.new.items) }
{
    for entry in entries {
        leaves.push(leaf(entry.id, block))?;
    }
    Ok(())
}

/// The leaf of an identifier.
fn leaf(id: u32, block: u32) -> TreePath
    ensures value { result ≡ record { number = id; block = block } }
    ensures below { result.number < 2 ^ 32 }
{
    TreePath { number: id, block }
}

/// A data block that has these entries, in no list.
fn data_block(format: Format, entries: &[Entry]) -> [u8; 1024]
    requires tree { IsTreeFormat format }
    requires few { length entries.now ≤ entries_per_block format }
    requires fits { All (λ entry. unfit format entry.id entry.rec ≡ None) entries.now }
    requires kept { All (λ entry. kept_of format entry.id entry.rec ≡ entry.rec) entries.now }
    ensures { IsDataBlock format result entries.now }
{
    let mut block = [0; 1024];
    set_le16(&mut block, 8, entries.len() as u16);
    for (place, entry) in entries.iter().enumerate() {
        put_entry(format, &mut block, place, entry.id, &entry.rec);
    }
    block
}
