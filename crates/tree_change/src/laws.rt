//! Laws of the steps of a change.

ghost use Rattle.std.specs.Prelude.{◌≡◌, ◌<◌, ◌≤◌, ◌^◌, ℕ, List, [], length, slice_index, Option, None, Some, IsSome};
ghost use Rattle.std.specs.FinMap.{get};
ghost use Rattle.quota_types.specs.declared.file_kind.Format.{Format};
ghost use Rattle.quota_value.specs.QuotaValue.{Records};
ghost use Rattle.quota_radix.specs.OnWay.{blocks_on_way};
ghost use Rattle.quota_radix.specs.declared.tree_path.TreePath.{TreePath};
ghost use Rattle.free_chains.specs.declared.heads.Heads.{Heads};
ghost use Rattle.tree_meaning.specs.Loose.{loose_of};
ghost use Rattle.tree_change.specs.Shows.{IsWholeTree};
ghost use Rattle.tree_change.specs.Unlinked.{HasAwaited, UnlinksLeaf};

/// Where a leaf is awaited its block is a data block that has one used entry of its identifier, and no path leads to
/// it. So it is once a leaf was unlinked, of which the entry is still to be cleared.
pub fn an_awaited_leaf_has_its_entry()
    ensures awaited { (held : List ℕ) (misplaced : Option ℕ) (format : Format) (file : List ℕ) (heads : Heads)
        (records : Records) (leaf : TreePath)
        → IsWholeTree (loose_of held (Some leaf) misplaced) format file heads records
        → HasAwaited (loose_of held (Some leaf) misplaced) format file heads records leaf }
    ensures unlinked { (way : List ℕ) (format : Format) (old new : List ℕ) (heads now : Heads)
        (records : Records) (id : ℕ)
        → UnlinksLeaf way id old new heads now → way ≡ blocks_on_way old heads.blocks id
        → IsWholeTree (loose_of [] None None) format old heads records
        → HasAwaited (loose_of [] (Some (record { number = id; block = slice_index way 4 })) None)
        format new now records
        (record { number = id; block = slice_index way 4 }) }
{}

/// An identifier has no record in a tree exactly where its way has fewer than five blocks.
pub fn an_absent_identifier_has_a_short_way()
    ensures absent { (held : List ℕ) (format : Format) (file : List ℕ) (heads : Heads) (records : Records) (id : ℕ)
        → id < 2 ^ 32 → IsWholeTree (loose_of held None None) format file heads records
        → length (blocks_on_way file heads.blocks id) < 5 → get records id ≡ None }
    ensures there { (held : List ℕ) (format : Format) (file : List ℕ) (heads : Heads) (records : Records) (id : ℕ)
        → id < 2 ^ 32 → IsWholeTree (loose_of held None None) format file heads records
        → 5 ≤ length (blocks_on_way file heads.blocks id) → IsSome (get records id) }
{}
