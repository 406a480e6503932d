//! Laws of opened tree files, and of what tree files mean.

ghost use Rattle.std.specs.Prelude.{◌≡◌, ◌*◌, ◌≤◌, ℕ, Bool, List, Option, length, max};
ghost use Rattle.quota_types.specs.KeptBytes.{KeepsOutside};
ghost use Rattle.quota_types.specs.declared.record.Grace.{Grace};
ghost use Rattle.entry_codec.specs.Header.{header_of};
ghost use Rattle.entry_codec.specs.declared.header.Header.{Header};
ghost use Rattle.opened_file.specs.FileSeen.{FileSeen};
ghost use Rattle.quota_value.specs.QuotaValue.{QuotaValue};
ghost use Rattle.tree_change.specs.Behind.{KeepsBehind};
ghost use Rattle.tree_file.specs.Opened.{HoldsTree, LacksRoom};
ghost use Rattle.tree_file.specs.TreeChange.{IsGraced, IsTorn, PutsInPlace, RemovesInPlace};
ghost use Rattle.tree_file.specs.declared.coming.Coming.{Coming};

/// A file that holds a value never lacks room for that value.
pub fn a_file_has_room_for_its_value()
    ensures { (tells : Bool) (named : Option (List ℕ)) (header : Header) (coming : Coming) (limit : ℕ) (seen : FileSeen)
        (value : QuotaValue) (blocks most : ℕ) → seen.limit ≡ limit → HoldsTree tells named header coming limit value
        → ¬ (LacksRoom seen named value blocks most) }
{}

/// A change that failed leaves what lies behind the last block of the file that it would have made, and of that no more
/// than its length. Where a record was to be taken out the file is as long as before.
pub fn a_failed_change_leaves_what_lies_behind()
    ensures put { (id : ℕ) (before made left : List ℕ) → PutsInPlace id before made → IsTorn before made left
        → KeepsBehind (header_of before).blocks (header_of made).blocks before left }
    ensures removed { (id : ℕ) (before made left : List ℕ) → RemovesInPlace id before made → IsTorn before made left
        → KeepsOutside 0 (1024 * (header_of before).blocks) before left × (length left ≡ length before) }
    ensures graced { (grace : Grace) (before made left : List ℕ) → IsGraced grace before made → IsTorn before made left
        → KeepsOutside 8 16 before left × (length before ≤ length left) × (length left ≤ max 1024 (length before)) }
{}
