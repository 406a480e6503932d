//! Laws of the steps of a change: what each makes of a tree with what is loose of it.

ghost use Rattle.std.specs.Prelude.{◌≡◌, ℕ, ◌+◌, ◌-◌, ◌*◌, ◌≤◌, true, false, List, [], ◌∷◌, ◌++◌, length, replicate};
ghost use Rattle.std.specs.Prelude.{Option, Some, None};
ghost use Rattle.quota_types.specs.Times.{StandsIn, times};
ghost use Rattle.quota_types.specs.declared.file_kind.Format.{Format};
ghost use Rattle.file_blocks.specs.Block.{block_of, next_of, previous_of};
ghost use Rattle.quota_value.specs.QuotaValue.{Records};
ghost use Rattle.quota_types.specs.KeptBytes.{KeepsOutside};
ghost use Rattle.quota_pages.specs.KeptBlocks.{KeepsBlocksBut};
ghost use Rattle.quota_radix.specs.Link.{GainsBlocks, IsLinkable, LeadsAlong, changed_blocks, whole_way, with_path};
ghost use Rattle.quota_radix.specs.Tree.{leaves, tree_blocks};
ghost use Rattle.quota_radix.specs.OnWay.{blocks_on_way};
ghost use Rattle.quota_radix.specs.declared.tree_path.TreePath.{TreePath};
ghost use Rattle.free_chains.specs.Chain.{IsChain};
ghost use Rattle.free_chains.specs.EntryList.{EntersList, LeavesList, NamesPrevious};
ghost use Rattle.free_chains.specs.FreeList.{GivesBlock, TakesBlock, TakesHead};
ghost use Rattle.free_chains.specs.Links.{led_to};
ghost use Rattle.free_chains.specs.declared.heads.Heads.{Heads};
ghost use Rattle.tree_meaning.specs.IsTree.{IsTree};
ghost use Rattle.tree_meaning.specs.KeepsEntries.{IsNamed, KeepsEntries};
ghost use Rattle.tree_meaning.specs.Loose.{Loose, loose_of};
ghost use Rattle.tree_meaning.specs.Roles.{Filled, counted_leaves, data_with, has_room};
ghost use Rattle.tree_meaning.specs.TreeFile.{record_by_leaves};

/// Where the blocks of a tree keep their references and its data blocks their entries, the tree, the leaves, the data
/// blocks, those with room, and the records are the same, also among more blocks.
pub fn a_tree_stays_where_its_entries_do()
    ensures tree { (loose : Loose) (format : Format) (old new : List ℕ) (len more : ℕ) (heads : Heads)
        (records : Records)
        → IsTree loose format old len heads records → KeepsEntries loose format heads.blocks more old new
        → tree_blocks new more ≡ tree_blocks old heads.blocks }
    ensures leaves { (loose : Loose) (format : Format) (old new : List ℕ) (len more : ℕ) (heads : Heads)
        (records : Records)
        → IsTree loose format old len heads records → KeepsEntries loose format heads.blocks more old new
        → counted_leaves loose new more ≡ counted_leaves loose old heads.blocks }
    ensures data_blocks { (loose : Loose) (format : Format) (old new : List ℕ) (len more : ℕ) (heads : Heads)
        (records : Records)
        → IsTree loose format old len heads records → KeepsEntries loose format heads.blocks more old new
        → data_with loose new more ≡ data_with loose old heads.blocks }
    ensures room { (loose : Loose) (format : Format) (old new : List ℕ) (len more : ℕ) (heads : Heads)
        (records : Records)
        (block : ℕ)
        → IsTree loose format old len heads records → KeepsEntries loose format heads.blocks more old new
        → has_room loose format new more block ≡ has_room loose format old heads.blocks block }
    ensures filled { (loose : Loose) (format : Format) (old new : List ℕ) (len more : ℕ) (heads : Heads)
        (records : Records)
        → IsTree loose format old len heads records → KeepsEntries loose format heads.blocks more old new
        → Filled loose format new more }
    ensures each_record { (loose : Loose) (format : Format) (old new : List ℕ) (len more : ℕ) (heads : Heads)
        (records : Records) (id : ℕ)
        → IsTree loose format old len heads records → KeepsEntries loose format heads.blocks more old new
        → record_by_leaves format new (counted_leaves loose new more) id
        ≡ record_by_leaves format old (counted_leaves loose old heads.blocks) id }
{}

/// Where no block of the tree changed, and of the data blocks none but in its links, the tree keeps its references and
/// the data blocks keep their entries.
pub fn links_are_no_entries()
    ensures { (loose : Loose) (format : Format) (blocks more : ℕ) (old new numbers : List ℕ)
        → blocks ≤ more → KeepsBlocksBut numbers old new
        → ((block : ℕ) → StandsIn numbers block → times (tree_blocks old blocks) block ≡ 0)
        → ((block : ℕ) → StandsIn numbers block → IsNamed loose old blocks block
        → KeepsOutside 0 8 (block_of old block) (block_of new block))
        → KeepsEntries loose format blocks more old new }
{}

/// A block that was taken is held, and all else is as it was: the records, and what was loose of the tree.
pub fn a_taken_block_is_held()
    ensures { (held : List ℕ) (awaited : Option TreePath) (format : Format) (old new : List ℕ) (len now_len : ℕ)
        (heads now : Heads) (records : Records) (block : ℕ)
        → IsTree (loose_of held awaited None) format old len heads records
        → KeepsBlocksBut (block ∷ []) old new → TakesBlock old new heads now block → TakesHead heads now block
        → len ≤ now_len → 1024 * block + 1024 ≤ now_len
        → IsTree (loose_of (block ∷ held) awaited None) format new now_len now records }
{}

/// A block that was held and was given is free, and all else is as it was.
pub fn a_given_block_is_free()
    ensures { (held : List ℕ) (awaited : Option TreePath) (format : Format) (old new : List ℕ) (len now_len : ℕ)
        (heads : Heads) (records : Records) (block : ℕ)
        → IsTree (loose_of (block ∷ held) awaited None) format old len heads records
        → KeepsBlocksBut (block ∷ []) old new → GivesBlock old new heads block → len ≤ now_len
        → IsTree (loose_of held awaited None) format new now_len (record heads { free = block }) records }
{}

/// A misplaced block that has room and was put before the entry list is misplaced no longer, and all else is as it was.
pub fn a_block_with_room_enters_the_list()
    ensures { (held : List ℕ) (awaited : Option TreePath) (format : Format) (old new : List ℕ) (len now_len : ℕ)
        (heads : Heads) (records : Records) (block : ℕ)
        → IsTree (loose_of held awaited (Some block)) format old len heads records
        → has_room (loose_of held awaited (Some block)) format old heads.blocks block ≡ true
        → KeepsBlocksBut (block ∷ led_to heads.first) old new → EntersList old new heads block → len ≤ now_len
        → IsTree (loose_of held awaited None) format new now_len (record heads { first = block }) records }
{}

/// A misplaced block that has no room, whether it is data or held, and was taken out of the entry list is misplaced no
/// longer, and all else is as it was.
pub fn a_block_without_room_leaves_the_list()
    ensures { (held : List ℕ) (awaited : Option TreePath) (format : Format) (old new : List ℕ) (len now_len : ℕ)
        (heads : Heads) (records : Records) (first block : ℕ)
        → IsTree (loose_of held awaited (Some block)) format old len heads records
        → StandsIn (held ++ data_with (loose_of held awaited (Some block)) old heads.blocks) block
        → has_room (loose_of held awaited (Some block)) format old heads.blocks block ≡ false
        → KeepsBlocksBut (block ∷ led_to (previous_of old block) ++ led_to (next_of old block)) old new
        → ((front back : List ℕ) → IsChain old heads.blocks heads.first (front ++ block ∷ back) 0
        → NamesPrevious old (front ++ block ∷ back)
        → LeavesList old new heads (record heads { first = first }) block front back)
        → len ≤ now_len
        → IsTree (loose_of held awaited None) format new now_len (record heads { first = first }) records }
{}

/// An awaited leaf can be linked by the blocks that are on its way, and by fresh ones that are held and whose bytes
/// are 0.
pub fn an_awaited_leaf_can_be_linked()
    ensures { (held : List ℕ) (misplaced : Option ℕ) (format : Format) (old found fresh : List ℕ)
        (len : ℕ) (heads : Heads)
        (records : Records) (leaf : TreePath)
        → IsTree (loose_of (fresh ++ held) (Some leaf) misplaced) format old len heads records
        → found ≡ blocks_on_way old heads.blocks leaf.number
        → ((block : ℕ) → StandsIn fresh block → block_of old block ≡ replicate 1024 0)
        → IsLinkable old heads.blocks found fresh leaf.number leaf.block }
{}

/// An awaited leaf that was linked is one of the tree, the fresh blocks that were held for it are blocks of the tree,
/// and all else is as it was.
pub fn a_linked_leaf_is_one_of_the_tree()
    ensures { (held : List ℕ) (format : Format) (old new found fresh : List ℕ) (len now_len : ℕ) (heads : Heads)
        (records : Records) (id leaf_block : ℕ)
        → IsTree (loose_of (fresh ++ held) (Some (record { number = id; block = leaf_block })) None)
        format old len heads
        records
        → 1 ≤ length found → length found + length fresh ≡ 4 → IsLinkable old heads.blocks found fresh id leaf_block
        → KeepsBlocksBut (changed_blocks found fresh) old new
        → LeadsAlong (whole_way found fresh leaf_block) (length found - 1) id old new
        → leaves new heads.blocks ≡ with_path (leaves old heads.blocks) (record { number = id; block = leaf_block })
        → GainsBlocks (whole_way found fresh leaf_block) fresh (length found) heads.blocks old new
        → len ≤ now_len → IsTree (loose_of held None None) format new now_len heads records }
{}

/// Blocks are held in no order: where the same ones are, all is as it was.
pub fn held_blocks_have_no_order()
    ensures { (these those : List ℕ) (awaited : Option TreePath) (misplaced : Option ℕ)
        (format : Format) (file : List ℕ)
        (len : ℕ) (heads : Heads) (records : Records)
        → ((number : ℕ) → times those number ≡ times these number)
        → IsTree (loose_of these awaited misplaced) format file len heads records
        → IsTree (loose_of those awaited misplaced) format file len heads records }
{}

/// Where block 0 alone changed, which has the header, all is as it was.
pub fn a_header_is_none_of_the_tree()
    ensures { (held : List ℕ) (awaited : Option TreePath) (format : Format) (old new : List ℕ) (len now_len : ℕ)
        (heads : Heads) (records : Records)
        → IsTree (loose_of held awaited None) format old len heads records
        → KeepsBlocksBut (0 ∷ []) old new → len ≤ now_len
        → IsTree (loose_of held awaited None) format new now_len heads records }
{}
