//! Laws of the entries of a data block: what a change of one of them leaves.

ghost use Rattle.std.specs.Prelude.{◌≡◌, ◌↔◌, ◌≢◌, ℕ, suc, ◌<◌, ◌≤◌, true, false, nat_lt, List, [], ◌∷◌, length, map};
ghost use Rattle.std.specs.Prelude.{replicate, None, Some};
ghost use Rattle.entry_codec.specs.Entry.{entries_per_block, is_unused};
ghost use Rattle.quota_types.specs.KeptBytes.{KeepsOutside};
ghost use Rattle.quota_types.specs.Times.{times};
ghost use Rattle.quota_types.specs.declared.file_kind.Format.{Format};
ghost use Rattle.quota_types.specs.declared.record.Entry.{Entry};
ghost use Rattle.quota_types.specs.declared.record.Rec.{Rec};
ghost use Rattle.tree_meaning.specs.Entries.{entry_bytes, has_unused, used_entries, used_ids};
ghost use Rattle.tree_meaning.specs.EntryPlaces.{ClearsEntry, HasOneMore, HasSameEntries, KeepsOutsideEntry};
ghost use Rattle.tree_meaning.specs.EntryPlaces.{OverwritesEntry, PutsEntry};
ghost use Rattle.tree_meaning.specs.TreeFile.{record_in};

/// The used identifiers of a block are those of its used entries. An identifier that is none of them has no record
/// there.
pub fn the_used_ids_are_those_of_the_used_entries()
    ensures ids { (format : Format) (block : List ℕ)
        → used_ids format block ≡ map (λ (entry : Entry). entry.id) (used_entries format block) }
    ensures none { (format : Format) (block : List ℕ) (id : ℕ) → times (used_ids format block) id ≡ 0
        → record_in format block id ≡ None }
{}

/// A block has an unused entry exactly where it has fewer used ones than places, and it has no more of them than
/// places.
pub fn a_block_has_room_where_fewer_entries_are_used()
    ensures room { (format : Format) (block : List ℕ)
        → has_unused format block ≡ nat_lt (length (used_ids format block)) (entries_per_block format) }
    ensures few { (format : Format) (block : List ℕ) → length (used_ids format block) ≤ entries_per_block format }
{}

/// In a block of zeros each entry is unused.
pub fn a_blank_block_uses_no_entry()
    ensures unused { (format : Format) (place : ℕ) → is_unused (entry_bytes format (replicate 1024 0) place) ≡ true }
    ensures ids { (format : Format) → used_ids format (replicate 1024 0) ≡ [] }
{}

/// A change of the bytes of one entry leaves all others, and one before the entries leaves each.
pub fn other_bytes_are_other_entries()
    ensures entry { (format : Format) (place at : ℕ) (old new : List ℕ) → length new ≡ length old
        → KeepsOutsideEntry format place old new → at ≢ place
        → entry_bytes format new at ≡ entry_bytes format old at }
    ensures before { (format : Format) (from to : ℕ) (old new : List ℕ) → to ≤ 16 → length new ≡ length old
        → KeepsOutside from to old new → HasSameEntries format old new }
{}

/// A block whose entries are as before has the same used entries, identifiers, room and records.
pub fn the_same_entries_are_used_alike()
    ensures entries { (format : Format) (old new : List ℕ) → HasSameEntries format old new
        → used_entries format new ≡ used_entries format old }
    ensures ids { (format : Format) (old new : List ℕ) → HasSameEntries format old new
        → used_ids format new ≡ used_ids format old }
    ensures room { (format : Format) (old new : List ℕ) → HasSameEntries format old new
        → has_unused format new ≡ has_unused format old }
    ensures rec { (format : Format) (old new : List ℕ) → HasSameEntries format old new
        → (id : ℕ) → record_in format new id ≡ record_in format old id }
{}

/// An entry that is put at an unused place is one more, in its place among the others. It is the record of its
/// identifier where that used none, and the block is full then exactly where it was the last unused place.
pub fn a_put_entry_is_one_more()
    ensures entries { (format : Format) (place : ℕ) (entry : Entry) (old new : List ℕ)
        → PutsEntry format place entry old new
        → HasOneMore entry (used_entries format old) (used_entries format new) }
    ensures ids { (format : Format) (place : ℕ) (entry : Entry) (old new : List ℕ)
        → PutsEntry format place entry old new
        → (id : ℕ) → times (used_ids format new) id ≡ times (entry.id ∷ used_ids format old) id }
    ensures count { (format : Format) (place : ℕ) (entry : Entry) (old new : List ℕ)
        → PutsEntry format place entry old new
        → length (used_ids format new) ≡ suc (length (used_ids format old)) }
    ensures others { (format : Format) (place : ℕ) (entry : Entry) (old new : List ℕ)
        → PutsEntry format place entry old new
        → (id : ℕ) → id ≢ entry.id → record_in format new id ≡ record_in format old id }
    ensures own { (format : Format) (place : ℕ) (entry : Entry) (old new : List ℕ)
        → PutsEntry format place entry old new
        → times (used_ids format old) entry.id ≡ 0 → record_in format new entry.id ≡ Some entry.rec }
    ensures full { (format : Format) (place : ℕ) (entry : Entry) (old new : List ℕ)
        → PutsEntry format place entry old new
        → ((has_unused format new ≡ false) ↔ ((at : ℕ) → at < entries_per_block format → at ≢ place
        → is_unused (entry_bytes format old at) ≡ false)) }
{}

/// An entry that is cleared is one less. Its identifier has no record then where it used one entry, and the block has
/// room.
pub fn a_cleared_entry_is_one_less()
    ensures entries { (format : Format) (place id : ℕ) (old new : List ℕ) → ClearsEntry format place id old new
        → (rec : Rec) × HasOneMore (record { id = id; rec = rec }) (used_entries format new) (used_entries format old) }
    ensures ids { (format : Format) (place id : ℕ) (old new : List ℕ) → ClearsEntry format place id old new
        → (other : ℕ) → times (used_ids format old) other ≡ times (id ∷ used_ids format new) other }
    ensures count { (format : Format) (place id : ℕ) (old new : List ℕ) → ClearsEntry format place id old new
        → length (used_ids format old) ≡ suc (length (used_ids format new)) }
    ensures others { (format : Format) (place id : ℕ) (old new : List ℕ) → ClearsEntry format place id old new
        → (other : ℕ) → other ≢ id → record_in format new other ≡ record_in format old other }
    ensures own { (format : Format) (place id : ℕ) (old new : List ℕ) → ClearsEntry format place id old new
        → times (used_ids format old) id ≡ 1 → record_in format new id ≡ None }
    ensures room { (format : Format) (place id : ℕ) (old new : List ℕ) → ClearsEntry format place id old new
        → has_unused format new ≡ true }
{}

/// An entry that is overwritten by one of its identifier keeps the identifiers and the room, and is the record of its
/// identifier where that uses one entry.
pub fn an_overwritten_entry_keeps_its_id()
    ensures ids { (format : Format) (place : ℕ) (entry : Entry) (old new : List ℕ)
        → OverwritesEntry format place entry old new → used_ids format new ≡ used_ids format old }
    ensures others { (format : Format) (place : ℕ) (entry : Entry) (old new : List ℕ)
        → OverwritesEntry format place entry old new
        → (id : ℕ) → id ≢ entry.id → record_in format new id ≡ record_in format old id }
    ensures own { (format : Format) (place : ℕ) (entry : Entry) (old new : List ℕ)
        → OverwritesEntry format place entry old new
        → times (used_ids format old) entry.id ≡ 1 → record_in format new entry.id ≡ Some entry.rec }
    ensures room { (format : Format) (place : ℕ) (entry : Entry) (old new : List ℕ)
        → OverwritesEntry format place entry old new → has_unused format new ≡ has_unused format old }
{}
