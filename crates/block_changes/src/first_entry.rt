//! Laws of the first entry of a fresh block.

ghost use Rattle.std.specs.Prelude.{◌≡◌, ℕ, ◌^◌, ◌<◌, ◌≤◌, true, List, ◌∷◌, replicate, None, Some};
ghost use Rattle.std.specs.FinMap.{get, insert};
ghost use Rattle.quota_types.specs.declared.file_kind.Format.{Format};
ghost use Rattle.quota_types.specs.declared.record.Rec.{Rec};
ghost use Rattle.file_blocks.specs.Block.{block_of};
ghost use Rattle.quota_value.specs.QuotaValue.{Records};
ghost use Rattle.free_chains.specs.declared.heads.Heads.{Heads};
ghost use Rattle.tree_meaning.specs.IsTree.{IsTree};
ghost use Rattle.tree_meaning.specs.Loose.{loose_of};
ghost use Rattle.tree_meaning.specs.Roles.{has_room};
ghost use Rattle.block_changes.specs.EntryChanges.{WritesEntry};

/// The first entry of a block that is held and blank, for an identifier without a record, makes a data block of it, has
/// its leaf awaited, and the block misplaced: it has room, and does not stand in the entry list yet.
pub fn a_fresh_block_gets_its_first_entry()
    ensures tree { (held : List ℕ) (format : Format) (old new : List ℕ) (len now_len : ℕ) (heads : Heads)
        (records : Records)
        (block place id : ℕ) (rec : Rec)
        → IsTree (loose_of (block ∷ held) None None) format old len heads records
        → block_of old block ≡ replicate 1024 0
        → id < 2 ^ 32 → get records id ≡ None
        → WritesEntry format block place (record { id = id; rec = rec }) old new → len ≤ now_len
        → IsTree (loose_of held (Some (record { number = id; block = block })) (Some block)) format new now_len heads
        (insert records id rec) }
    ensures room { (held : List ℕ) (format : Format) (old new : List ℕ) (len now_len : ℕ) (heads : Heads)
        (records : Records)
        (block place id : ℕ) (rec : Rec)
        → IsTree (loose_of (block ∷ held) None None) format old len heads records
        → block_of old block ≡ replicate 1024 0
        → WritesEntry format block place (record { id = id; rec = rec }) old new
        → has_room (loose_of held (Some (record { number = id; block = block })) (Some block)) format new
        heads.blocks block
        ≡ true }
{}
