//! Laws of a leaf that is unlinked.

ghost use Rattle.std.specs.Prelude.{◌≡◌, ℕ, ◌-◌, ◌^◌, ◌<◌, ◌≤◌, List, [], ◌∷◌, ◌++◌, length, slice_index, None, Some};
ghost use Rattle.quota_types.specs.declared.file_kind.Format.{Format};
ghost use Rattle.quota_value.specs.QuotaValue.{Records};
ghost use Rattle.quota_pages.specs.KeptBlocks.{KeepsBlocksBut};
ghost use Rattle.quota_radix.specs.Unlink.{ClearsAlong, IsUnlinkable, LosesLeaf};
ghost use Rattle.quota_radix.specs.OnWay.{blocks_on_way};
ghost use Rattle.free_chains.specs.declared.heads.Heads.{Heads};
ghost use Rattle.tree_meaning.specs.IsTree.{IsTree};
ghost use Rattle.tree_meaning.specs.Loose.{loose_of};

/// The leaf of an identifier whose whole way is there can be unlinked.
pub fn a_leaf_can_be_unlinked()
    ensures { (held way : List ℕ) (format : Format) (old : List ℕ) (len : ℕ) (heads : Heads)
        (records : Records) (id : ℕ)
        → IsTree (loose_of held None None) format old len heads records
        → way ≡ blocks_on_way old heads.blocks id
        → IsUnlinkable old heads.blocks way id }
{}

/// A leaf that was unlinked is awaited, the tree blocks that were emptied are held, and all else is as it was.
pub fn an_unlinked_leaf_is_awaited()
    ensures { (held way emptied : List ℕ) (format : Format) (old new : List ℕ) (len now_len : ℕ) (heads : Heads)
        (records : Records) (id : ℕ)
        → IsTree (loose_of held None None) format old len heads records
        → id < 2 ^ 32 → length way ≡ 5 → length emptied ≤ 3
        → IsUnlinkable old heads.blocks way id
        → ClearsAlong way (3 - length emptied) id old new
        → KeepsBlocksBut (emptied ++ slice_index way (3 - length emptied) ∷ []) old new
        → LosesLeaf way emptied id heads.blocks old new → len ≤ now_len
        → IsTree (loose_of (emptied ++ held) (Some (record { number = id; block = slice_index way 4 })) None)
        format new now_len
        heads records }
{}
