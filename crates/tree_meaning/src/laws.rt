//! Laws of tree files: what they mean, and when they mean something.

ghost use Rattle.std.specs.Prelude.{◌≡◌, ◌↔◌, ℕ, List, length, Some, None};
ghost use Rattle.entry_codec.specs.Spelling.{AreOf, IsEntryIn};
ghost use Rattle.entry_codec.specs.Header.{format_of, header_fault, header_of};
ghost use Rattle.free_chains.specs.declared.heads.Heads.{Heads};
ghost use Rattle.file_blocks.specs.Block.{block_of};
ghost use Rattle.quota_value.specs.QuotaValue.{QuotaValue};
ghost use Rattle.quota_types.specs.Format.{IsTreeFormat};
ghost use Rattle.quota_types.specs.declared.damage.Damage.{Damage};
ghost use Rattle.quota_types.specs.declared.file_kind.Format.{Format};
ghost use Rattle.quota_types.specs.declared.file_kind.Kind.{Kind};
ghost use Rattle.quota_types.specs.declared.record.Rec.{Rec};
ghost use Rattle.byte_order.specs.declared.order.Order.{Order};
ghost use Rattle.byte_order.specs.Words.{in_order};
ghost use Rattle.tree_meaning.specs.Defect.{IsTreeDefectIn};
ghost use Rattle.tree_meaning.specs.Entries.{entry_in};
ghost use Rattle.tree_meaning.specs.IsTree.{IsTree, header_with};
ghost use Rattle.tree_meaning.specs.TreeHeads.{heads_of};
ghost use Rattle.tree_meaning.specs.Loose.{nothing_loose};
ghost use Rattle.tree_meaning.specs.TreeFile.{TreeStandsFor, TreeStandsForIn};

/// A tree file that is read in an order stands for one value at most.
pub fn a_file_has_one_meaning()
    ensures { (order : Order) (file : List ℕ) (value other : QuotaValue) → TreeStandsForIn order file value
        → TreeStandsForIn order file other → value ≡ other }
{}

/// A file that is read in an order, whose header is one of the kind, stands for a value of the kind exactly where
/// nothing is wrong with it, however many blocks it has.
pub fn a_file_has_a_meaning_where_nothing_is_wrong()
    ensures { (order : Order) (file : List ℕ) (kind : Kind) (format : Format)
        → header_fault kind (header_of (in_order order file)) ≡ None
        → format_of (header_of (in_order order file)).version ≡ Some format
        → ((value : QuotaValue) × (value.kind ≡ kind) × TreeStandsForIn order file value)
        ↔ ((damage : Damage) → ¬ IsTreeDefectIn order format file (header_of (in_order order file)) damage) }
{}

/// A file that stands for a value is a tree of which nothing is loose, in the value's format, with the heads of its
/// header and the records of the value.
pub fn a_file_of_a_value_is_a_tree()
    ensures { (file : List ℕ) (value : QuotaValue) → TreeStandsFor file value
        → IsTree nothing_loose value.format file (length file) (heads_of (header_of file)) value.records }
{}

/// A tree of which nothing is loose stands for a value, in the value's format and with its records, where block 0 has
/// the header of the value with the heads of the tree.
pub fn a_tree_with_a_header_has_a_meaning()
    ensures { (file : List ℕ) (value : QuotaValue) (heads : Heads)
        → AreOf (header_with value heads) (header_of (block_of file 0))
        → IsTree nothing_loose value.format file (length file) heads value.records → TreeStandsFor file value }
{}

/// The entry of some bytes that are read in an order is the one that they spell.
pub fn an_entry_is_what_its_bytes_spell()
    ensures { (order : Order) (format : Format) (bytes : List ℕ) (id : ℕ) (rec : Rec) → IsTreeFormat format
        → (IsEntryIn order format bytes id rec ↔ (entry_in order format bytes ≡ Some (record { id = id; rec = rec }))) }
{}
