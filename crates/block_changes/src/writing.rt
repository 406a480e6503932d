//! Laws of entries that are written or overwritten in a data block of the tree.

ghost use Rattle.std.specs.Prelude.{◌≡◌, ℕ, ◌^◌, ◌<◌, ◌≤◌, true, false, List, find, ◌==◌, None, Some};
ghost use Rattle.std.specs.FinMap.{get, insert};
ghost use Rattle.quota_types.specs.Times.{StandsIn};
ghost use Rattle.quota_types.specs.declared.file_kind.Format.{Format};
ghost use Rattle.quota_types.specs.declared.record.Rec.{Rec};
ghost use Rattle.file_blocks.specs.Block.{block_of};
ghost use Rattle.quota_value.specs.QuotaValue.{Records};
ghost use Rattle.quota_radix.specs.declared.tree_path.TreePath.{TreePath};
ghost use Rattle.quota_radix.specs.Tree.{leaves};
ghost use Rattle.free_chains.specs.declared.heads.Heads.{Heads};
ghost use Rattle.tree_meaning.specs.Entries.{has_unused};
ghost use Rattle.tree_meaning.specs.IsTree.{IsTree};
ghost use Rattle.tree_meaning.specs.Loose.{loose_of};
ghost use Rattle.tree_meaning.specs.Roles.{data_with};
ghost use Rattle.block_changes.specs.EntryChanges.{RewritesEntry, WritesEntry};

/// An entry that is written at an unused place of a data block, for an identifier without a record, has its leaf
/// awaited. The block is misplaced then where it was the last unused place, since it stands in the entry list still.
pub fn an_entry_is_written_before_its_leaf()
    ensures with_room { (held : List ℕ) (format : Format) (old new : List ℕ) (len now_len : ℕ) (heads : Heads)
        (records : Records)
        (block place id : ℕ) (rec : Rec)
        → IsTree (loose_of held None None) format old len heads records
        → StandsIn (data_with (loose_of held None None) old heads.blocks) block
        → id < 2 ^ 32 → get records id ≡ None
        → WritesEntry format block place (record { id = id; rec = rec }) old new
        → has_unused format (block_of new block) ≡ true → len ≤ now_len
        → IsTree (loose_of held (Some (record { number = id; block = block })) None) format new now_len heads
        (insert records id rec) }
    ensures full { (held : List ℕ) (format : Format) (old new : List ℕ) (len now_len : ℕ) (heads : Heads)
        (records : Records)
        (block place id : ℕ) (rec : Rec)
        → IsTree (loose_of held None None) format old len heads records
        → StandsIn (data_with (loose_of held None None) old heads.blocks) block
        → id < 2 ^ 32 → get records id ≡ None
        → WritesEntry format block place (record { id = id; rec = rec }) old new
        → has_unused format (block_of new block) ≡ false → len ≤ now_len
        → IsTree (loose_of held (Some (record { number = id; block = block })) (Some block)) format new now_len heads
        (insert records id rec) }
{}

/// An entry that is overwritten where the leaf of its identifier leads is the record of that identifier, and all else
/// is as it was.
pub fn an_overwritten_entry_is_the_record()
    ensures { (held : List ℕ) (format : Format) (old new : List ℕ) (len now_len : ℕ) (heads : Heads) (records : Records)
        (block place id : ℕ) (rec : Rec)
        → IsTree (loose_of held None None) format old len heads records
        → find (λ (leaf : TreePath). leaf.number == id) (leaves old heads.blocks)
        ≡ Some (record { number = id; block = block })
        → RewritesEntry format block place (record { id = id; rec = rec }) old new → len ≤ now_len
        → IsTree (loose_of held None None) format new now_len heads (insert records id rec) }
{}
