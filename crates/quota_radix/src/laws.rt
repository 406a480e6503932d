//! Laws of leaves that are added to the tree and taken away from it.

ghost use Rattle.std.specs.Prelude.{◌≡◌, ◌≢◌, ◌+◌, ◌-◌, ◌<◌, ◌≤◌, ◌^◌, ℕ, List, None, length, reverse, slice_index};
ghost use Rattle.std.specs.Prelude.{take};
ghost use Rattle.quota_types.specs.Times.{StandsIn};
ghost use Rattle.file_blocks.specs.Block.{word_at};
ghost use Rattle.quota_radix.specs.Descent.{leaf_block};
ghost use Rattle.quota_radix.specs.Link.{GainsBlocks, HasWay, IsLinkable, whole_way};
ghost use Rattle.quota_radix.specs.Tree.{lower_blocks, paths, tree_blocks};
ghost use Rattle.quota_radix.specs.TreeDefect.{IsEmpty};
ghost use Rattle.quota_radix.specs.Undone.{ClearsWay, SetsWay};
ghost use Rattle.quota_radix.specs.Unlink.{IsUnlinkable, LosesLeaf};
ghost use Rattle.quota_radix.specs.Way.{IsInsideOnWay};
ghost use Rattle.quota_radix.specs.OnWay.{blocks_on_way};

/// A leaf that was linked can be unlinked: the whole way of its identifier is that by which it was linked.
pub fn a_linked_leaf_can_be_unlinked()
    ensures { (old new found fresh : List ℕ) (blocks id leaf_block : ℕ)
        → 1 ≤ length found → length found + length fresh ≡ 4 → id < 2 ^ 32
        → IsLinkable old blocks found fresh id leaf_block
        → HasWay (whole_way found fresh leaf_block) (length found) id blocks old new
        → GainsBlocks (whole_way found fresh leaf_block) fresh (length found) blocks old new
        → IsUnlinkable new blocks (whole_way found fresh leaf_block) id }
{}

/// Unlinking a leaf that was linked, in a tree of which no block below the root was empty and no reference on the way
/// led past the last block, answers the blocks by which it was linked, and each reference is what it was before.
pub fn unlinking_undoes_linking()
    ensures answered { (old between new found fresh emptied : List ℕ) (blocks id leaf_block : ℕ)
        → 1 ≤ length found → length found + length fresh ≡ 4 → id < 2 ^ 32
        → IsLinkable old blocks found fresh id leaf_block → IsInsideOnWay old blocks id
        → ((block : ℕ) → StandsIn (lower_blocks old blocks) block → ¬ IsEmpty old block)
        → SetsWay found fresh id leaf_block old between
        → ClearsWay (whole_way found fresh leaf_block) emptied id between new
        → reverse emptied ≡ fresh }
    ensures words { (old between new found fresh emptied : List ℕ) (blocks id leaf_block : ℕ)
        → 1 ≤ length found → length found + length fresh ≡ 4 → id < 2 ^ 32
        → IsLinkable old blocks found fresh id leaf_block → IsInsideOnWay old blocks id
        → ((block : ℕ) → StandsIn (lower_blocks old blocks) block → ¬ IsEmpty old block)
        → SetsWay found fresh id leaf_block old between
        → ClearsWay (whole_way found fresh leaf_block) emptied id between new
        → (block digit : ℕ) → word_at new block digit ≡ word_at old block digit }
{}

/// Linking a leaf again by the blocks that were emptied makes each reference of each block what it was before.
pub fn linking_undoes_unlinking()
    ensures { (old between new way emptied : List ℕ) (blocks id : ℕ)
        → length way ≡ 5
        → ClearsWay way emptied id old between
        → LosesLeaf way emptied id blocks old between
        → SetsWay (take (4 - length emptied) way) (reverse emptied) id (slice_index way 4) between new
        → (block digit : ℕ) → word_at new block digit ≡ word_at old block digit }
{}

/// An identifier whose leaf was unlinked leads to no data block, and each other one to the one that it led to.
pub fn an_unlinked_leaf_is_gone()
    ensures gone { (old new way emptied : List ℕ) (blocks id : ℕ)
        → LosesLeaf way emptied id blocks old new → leaf_block new blocks id ≡ None }
    ensures others { (old new way emptied : List ℕ) (blocks id other : ℕ)
        → LosesLeaf way emptied id blocks old new → other < 2 ^ 32 → other ≢ id
        → leaf_block new blocks other ≡ leaf_block old blocks other }
{}

/// A tree without a reference past the last block has the same paths and ways where its blocks keep them, also among
/// more.
pub fn a_tree_stays_where_its_references_do()
    ensures paths { (old new : List ℕ) (blocks more digits : ℕ) → blocks ≤ more
        → ((block : ℕ) → StandsIn (tree_blocks old blocks) block → (digit : ℕ) → digit < 256
        → word_at old block digit < blocks)
        → ((block : ℕ) → StandsIn (tree_blocks old blocks) block → (digit : ℕ) → digit < 256
        → word_at new block digit ≡ word_at old block digit)
        → digits ≤ 4 → paths new more digits ≡ paths old blocks digits }
    ensures way { (old new : List ℕ) (blocks more id : ℕ) → blocks ≤ more
        → ((block : ℕ) → StandsIn (tree_blocks old blocks) block → (digit : ℕ) → digit < 256
        → word_at old block digit < blocks)
        → ((block : ℕ) → StandsIn (tree_blocks old blocks) block → (digit : ℕ) → digit < 256
        → word_at new block digit ≡ word_at old block digit)
        → id < 2 ^ 32 → blocks_on_way new more id ≡ blocks_on_way old blocks id }
{}
