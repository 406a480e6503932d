//! Laws of the lists of blocks.

ghost use Rattle.std.specs.Prelude.{◌≡◌, ◌⊎◌, ℕ, ◌≤◌, IsTrue, List, length};
ghost use Rattle.quota_types.specs.Times.{StandsIn, times};
ghost use Rattle.file_blocks.specs.Block.{leads, next_of};
ghost use Rattle.quota_pages.specs.KeptBlocks.{KeepsBlocksBut};
ghost use Rattle.free_chains.specs.Chain.{IsChain, chain_from};
ghost use Rattle.free_chains.specs.EntryList.{NamesPrevious};

/// A list of which no block changed is a list of the new bytes too, and its blocks name the same ones before them.
pub fn a_list_stays_where_its_blocks_do()
    ensures chain { (numbers old new : List ℕ) (blocks head : ℕ) (chain : List ℕ) (end : ℕ)
        → KeepsBlocksBut numbers old new → ((number : ℕ) → StandsIn chain number → times numbers number ≡ 0)
        → IsChain old blocks head chain end → IsChain new blocks head chain end }
    ensures previous { (numbers old new chain : List ℕ) → KeepsBlocksBut numbers old new
        → ((number : ℕ) → StandsIn chain number → times numbers number ≡ 0)
        → NamesPrevious old chain → NamesPrevious new chain }
{}

/// A head has one list, which ends in one way.
pub fn a_head_has_one_list()
    ensures some { (file : List ℕ) (blocks head : ℕ)
        → (chain : List ℕ) × (end : ℕ) × IsChain file blocks head chain end }
    ensures chain { (file : List ℕ) (blocks head : ℕ) (chain : List ℕ) (end : ℕ) (chain' : List ℕ) (end' : ℕ)
        → IsChain file blocks head chain end → IsChain file blocks head chain' end' → chain ≡ chain' }
    ensures end { (file : List ℕ) (blocks head : ℕ) (chain : List ℕ) (end : ℕ) (chain' : List ℕ) (end' : ℕ)
        → IsChain file blocks head chain end → IsChain file blocks head chain' end' → end ≡ end' }
{}

/// A list that ends at 0 leads to blocks alone, and it is the same list where there are more blocks.
pub fn a_list_that_ends_leads_to_blocks()
    ensures head { (file : List ℕ) (blocks head : ℕ) (chain : List ℕ) → IsChain file blocks head chain 0
        → (head ≡ 0) ⊎ IsTrue (leads blocks head) }
    ensures links { (file : List ℕ) (blocks head : ℕ) (chain : List ℕ) (number : ℕ) → IsChain file blocks head chain 0
        → StandsIn chain number → (next_of file number ≡ 0) ⊎ IsTrue (leads blocks (next_of file number)) }
    ensures more { (file : List ℕ) (blocks more head : ℕ) (chain : List ℕ) → blocks ≤ more
        → IsChain file blocks head chain 0 → IsChain file more head chain 0 }
{}

/// A list that ends at 0 is a function of the file: the blocks that are met from its head on, of which no more are
/// looked for than the file has, or than the list has.
pub fn a_list_that_ends_is_met_from_its_head()
    ensures all { (file : List ℕ) (blocks head : ℕ) (chain : List ℕ) → IsChain file blocks head chain 0
        → chain_from file blocks head blocks ≡ chain }
    ensures some { (file : List ℕ) (blocks head most : ℕ) (chain : List ℕ) → IsChain file blocks head chain 0
        → length chain ≤ most → chain_from file blocks head most ≡ chain }
    ensures few { (file : List ℕ) (blocks head : ℕ) (chain : List ℕ) (end : ℕ) → IsChain file blocks head chain end
        → length chain ≤ blocks }
{}
