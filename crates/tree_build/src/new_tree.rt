ghost use Rattle.std.specs.Prelude.{◌≡◌, ◌≢◌, ℕ, ◌+◌, ◌*◌, ◌/◌, ◌^◌, ◌<◌, ◌≤◌, All, List, length, take, IfOk, OnOk};
ghost use Rattle.std.specs.List.{range_with_len, slice_index_or};
ghost use Rattle.std.specs.List.Sorted.{IsStrictlyIncreasing};
ghost use Rattle.quota_types.specs.Bytes.{number_at};
ghost use Rattle.quota_radix.specs.declared.tree_path.TreePath.{TreePath};
ghost use Rattle.file_blocks.specs.Block.{block_of};
ghost use Rattle.quota_radix.specs.Tree.{blocks_of, numbers_of, steps};
ghost use Rattle.tree_build.specs.NewFile.{AllLead, AreSiblings, IsLevel, KeepsBlocks, parents_of};

use crate::new_file::NewFile;
use file_blocks::set_le32;
use quota_radix::TreePath;
use std::alloc::{AllocError, Global};

/// Appends the tree blocks from which some paths go on by their last digit, and answers the paths that lead to them.
pub(crate) fn add_level(
    alloc: Global,
    file: &mut NewFile,
    children: &[TreePath],
) -> Result<Vec<TreePath>, AllocError>
    requires ascending { IsStrictlyIncreasing (numbers_of children.now) }
    requires room { file.old.blocks + length (parents_of (numbers_of children.now)) < 2 ^ 32 }
    ensures numbers { IfOk result (λ parents. numbers_of parents.items ≡ parents_of (numbers_of children.now)) }
    ensures new_blocks { IfOk result (λ parents. blocks_of parents.items
        ≡ range_with_len file.old.blocks (length (parents_of (numbers_of children.now)))) }
    ensures level { IfOk result (λ parents. (blocks : ℕ) → AllLead blocks children.now
        → IsLevel file.new.bytes.items blocks parents.items children.now) }
    ensures kept_blocks { OnOk result (KeepsBlocks file.old.blocks file.old.bytes.items file.new.bytes.items) }
    ensures blocks { OnOk result (file.new.blocks ≡ file.old.blocks + length (parents_of (numbers_of children.now))) }
{
    let mut parents = Vec::new(alloc);
    let mut rest = children;
    while let Some(first) = rest.first() {
        let number = first.number / 256;
        let (siblings, later) = rest.split_at(count_siblings(rest, number));
        let block = file.append(&tree_block(siblings))?;
        parents.push(TreePath { number, block })?;
        rest = later;
    }
    Ok(parents)
}

/// How many paths at the front have this number before their last digit.
fn count_siblings(paths: &[TreePath], number: u32) -> usize
    ensures within { result ≤ length paths.now }
    ensures same { All (λ path. path.number / 256 ≡ number) (take result paths.now) }
    ensures other { (absent : TreePath) → result < length paths.now
        → (slice_index_or paths.now result absent).number / 256 ≢ number }
{
    for (count, path) in paths.iter().enumerate() {
        if path.number / 256 != number {
            return count;
        }
    }
    paths.len()
}

/// A tree block from which these paths go on by their last digit.
pub(crate) fn tree_block(paths: &[TreePath]) -> [u8; 1024]
    ensures onward { (file : List ℕ) (blocks : ℕ) (path : TreePath) → block_of file path.block ≡ result
        → IsStrictlyIncreasing (numbers_of paths.now)
        → AreSiblings path.number paths.now → AllLead blocks paths.now → steps file blocks path ≡ paths.now }
    ensures inside { (blocks digit : ℕ) → 1 ≤ blocks → AllLead blocks paths.now
        → number_at 4 result (4 * digit) < blocks }
{
    let mut block = [0; 1024];
    for path in paths {
        set_le32(&mut block, 4 * (path.number % 256) as usize, path.block);
    }
    block
}
