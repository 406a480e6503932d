//! Laws of what stays while blocks change that are held or data, and of what is there while a leaf is awaited.

ghost use Rattle.std.specs.Prelude.{◌≡◌, ℕ, ◌^◌, ◌<◌, false, List, ◌++◌, Option, Some};
ghost use Rattle.quota_types.specs.Times.{StandsIn, times};
ghost use Rattle.quota_types.specs.declared.file_kind.Format.{Format};
ghost use Rattle.file_blocks.specs.Block.{block_of};
ghost use Rattle.quota_value.specs.QuotaValue.{Records};
ghost use Rattle.quota_pages.specs.KeptBlocks.{KeepsBlocksBut};
ghost use Rattle.quota_radix.specs.declared.tree_path.TreePath.{TreePath};
ghost use Rattle.quota_radix.specs.OnWay.{blocks_on_way};
ghost use Rattle.free_chains.specs.Chain.{IsChain};
ghost use Rattle.free_chains.specs.declared.heads.Heads.{Heads};
ghost use Rattle.tree_meaning.specs.Entries.{has_unused, used_ids};
ghost use Rattle.tree_meaning.specs.IsTree.{IsTree};
ghost use Rattle.tree_meaning.specs.Loose.{Loose, loose_of};
ghost use Rattle.tree_meaning.specs.Roles.{data_with, has_room};

/// Where no block changed but such as are held or data, each identifier has the way that it had, and the same blocks
/// are free. Where it is a tree still, whatever block the entry list begins with, the blocks that are held or data are
/// those that were.
pub fn blocks_that_are_held_or_data_are_on_no_way()
    ensures ways { (loose : Loose) (format : Format) (old new numbers : List ℕ) (len : ℕ) (heads : Heads)
        (records : Records)
        (id : ℕ)
        → IsTree loose format old len heads records
        → ((block : ℕ) → StandsIn numbers block → StandsIn (loose.held ++ data_with loose old heads.blocks) block)
        → KeepsBlocksBut numbers old new → id < 2 ^ 32
        → blocks_on_way new heads.blocks id ≡ blocks_on_way old heads.blocks id }
    ensures free { (loose : Loose) (format : Format) (old new numbers free : List ℕ) (len : ℕ) (heads : Heads)
        (records : Records)
        → IsTree loose format old len heads records
        → ((block : ℕ) → StandsIn numbers block → StandsIn (loose.held ++ data_with loose old heads.blocks) block)
        → KeepsBlocksBut numbers old new
        → IsChain old heads.blocks heads.free free 0 → IsChain new heads.blocks heads.free free 0 }
    ensures held_or_data { (was now : Loose) (format : Format) (old new numbers : List ℕ) (len now_len first : ℕ)
        (heads : Heads) (records now_records : Records) (number : ℕ)
        → IsTree was format old len heads records
        → IsTree now format new now_len (record heads { first = first }) now_records
        → ((block : ℕ) → StandsIn numbers block → StandsIn (was.held ++ data_with was old heads.blocks) block)
        → KeepsBlocksBut numbers old new
        → times (now.held ++ data_with now new heads.blocks) number
        ≡ times (was.held ++ data_with was old heads.blocks) number }
{}

/// The block of an awaited leaf is data, and has one entry of the leaf's identifier. It has no room where it is full.
pub fn an_awaited_leaf_has_its_entry()
    ensures data_block { (held : List ℕ) (misplaced : Option ℕ) (format : Format) (file : List ℕ)
        (len : ℕ) (heads : Heads)
        (records : Records) (leaf : TreePath)
        → IsTree (loose_of held (Some leaf) misplaced) format file len heads records
        → StandsIn (data_with (loose_of held (Some leaf) misplaced) file heads.blocks) leaf.block }
    ensures entry { (held : List ℕ) (misplaced : Option ℕ) (format : Format) (file : List ℕ) (len : ℕ) (heads : Heads)
        (records : Records) (leaf : TreePath)
        → IsTree (loose_of held (Some leaf) misplaced) format file len heads records
        → times (used_ids format (block_of file leaf.block)) leaf.number ≡ 1 }
    ensures full { (loose : Loose) (format : Format) (file : List ℕ) (blocks block : ℕ)
        → has_unused format (block_of file block) ≡ false → has_room loose format file blocks block ≡ false }
{}
