ghost use Rattle.std.specs.Prelude.{◌≡◌, ◌<◌, ◌≤◌, ◌++◌, ◌∷◌, [], ℕ, List, IfOk, MatchBool};
ghost use Rattle.file_blocks.specs.BlockSet.{AreFlagsOf};
ghost use Rattle.quota_types.specs.Times.{times};

use std::alloc::{AllocError, Global};

/// A set of a file's blocks.
#[derive(Drop)]
pub struct BlockSet {
    /// For each block whether the set has it.
    pub flags: Vec<bool>,
}

impl BlockSet {
    /// The set without a block, of a file of `blocks` blocks.
    pub fn new(alloc: Global, blocks: u32) -> Result<BlockSet, AllocError>
        ensures { IfOk result (λ set. AreFlagsOf blocks set.flags.items []) }
    {
        Ok(BlockSet {
            flags: vec![in alloc; false; blocks as usize]?,
        })
    }

    /// Adds a block, and answers whether it is new.
    pub fn insert(&mut self, block: u32) -> bool
        ensures added { (blocks : ℕ) → (numbers : List ℕ) → AreFlagsOf blocks self.old.flags.items numbers
            → block < blocks
            → MatchBool result (AreFlagsOf blocks self.new.flags.items (numbers ++ block ∷ [])
            × (times numbers block ≡ 0))
            (1 ≤ times numbers block) }
    {
        let Some(flag) = self.flags.get_mut(block as usize) else {
            return false;
        };
        let is_new = !*flag;
        *flag = true;
        is_new
    }

    /// Whether the set has a block.
    pub fn contains(&self, block: u32) -> bool
        ensures found { (blocks : ℕ) → (numbers : List ℕ) → AreFlagsOf blocks self.now.flags.items numbers
            → block < blocks
            → MatchBool result (1 ≤ times numbers block) (times numbers block ≡ 0) }
    {
        self.flags.get(block as usize) == Some(&true)
    }
}
