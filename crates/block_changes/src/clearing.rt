//! Laws of entries that are cleared once their leaf is unlinked.

ghost use Rattle.std.specs.Prelude.{◌≡◌, ℕ, ◌≤◌, ◌≢◌, true, false, List, [], ◌∷◌, None, Some};
ghost use Rattle.std.specs.FinMap.{remove};
ghost use Rattle.quota_types.specs.declared.file_kind.Format.{Format};
ghost use Rattle.file_blocks.specs.Block.{block_of};
ghost use Rattle.quota_value.specs.QuotaValue.{Records};
ghost use Rattle.free_chains.specs.declared.heads.Heads.{Heads};
ghost use Rattle.tree_meaning.specs.Entries.{has_unused, used_ids};
ghost use Rattle.tree_meaning.specs.IsTree.{IsTree};
ghost use Rattle.tree_meaning.specs.Loose.{loose_of};
ghost use Rattle.tree_meaning.specs.Roles.{has_room};
ghost use Rattle.block_changes.specs.EntryChanges.{LosesEntry};

/// Where the entry of an awaited leaf is cleared and its block has others, no leaf is awaited, and its identifier has
/// no record. The block is misplaced then where it was full, since it does not stand in the entry list yet.
pub fn a_cleared_entry_is_awaited_no_longer()
    ensures with_room { (held : List ℕ) (format : Format) (old new : List ℕ) (len now_len : ℕ) (heads : Heads)
        (records : Records)
        (block place id : ℕ)
        → IsTree (loose_of held (Some (record { number = id; block = block })) None) format old len heads records
        → LosesEntry format block place id old new
        → used_ids format (block_of new block) ≢ []
        → has_unused format (block_of old block) ≡ true → len ≤ now_len
        → IsTree (loose_of held None None) format new now_len heads (remove records id) }
    ensures was_full { (held : List ℕ) (format : Format) (old new : List ℕ) (len now_len : ℕ) (heads : Heads)
        (records : Records)
        (block place id : ℕ)
        → IsTree (loose_of held (Some (record { number = id; block = block })) None) format old len heads records
        → LosesEntry format block place id old new
        → used_ids format (block_of new block) ≢ []
        → has_unused format (block_of old block) ≡ false → len ≤ now_len
        → IsTree (loose_of held None (Some block)) format new now_len heads (remove records id) }
    ensures room { (held : List ℕ) (format : Format) (old new : List ℕ) (len : ℕ) (heads : Heads) (records : Records)
        (block place id : ℕ)
        → IsTree (loose_of held (Some (record { number = id; block = block })) None) format old len heads records
        → LosesEntry format block place id old new
        → used_ids format (block_of new block) ≢ []
        → has_room (loose_of held None (Some block)) format new heads.blocks block ≡ true }
{}

/// Where the entry of an awaited leaf is cleared and was the last of its block, the block is held, and is misplaced: it
/// stands in the entry list still, though it is no data block.
pub fn a_block_without_entries_is_held()
    ensures tree { (held : List ℕ) (format : Format) (old new : List ℕ) (len now_len : ℕ) (heads : Heads)
        (records : Records)
        (block place id : ℕ)
        → IsTree (loose_of held (Some (record { number = id; block = block })) None) format old len heads records
        → LosesEntry format block place id old new
        → used_ids format (block_of new block) ≡ [] → len ≤ now_len
        → IsTree (loose_of (block ∷ held) None (Some block)) format new now_len heads (remove records id) }
    ensures no_room { (held : List ℕ) (format : Format) (old new : List ℕ) (len : ℕ) (heads : Heads) (records : Records)
        (block place id : ℕ)
        → IsTree (loose_of held (Some (record { number = id; block = block })) None) format old len heads records
        → LosesEntry format block place id old new
        → used_ids format (block_of new block) ≡ []
        → has_room (loose_of (block ∷ held) None (Some block)) format new heads.blocks block ≡ false }
{}
