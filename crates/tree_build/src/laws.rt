//! Laws of what is built of a tree file.

ghost use Rattle.std.specs.Prelude.{◌≡◌, true, [], ◌∷◌};
ghost use Rattle.std.specs.List.{range_with_len};
ghost use Rattle.quota_types.specs.Format.{is_flat};
ghost use Rattle.quota_types.specs.declared.file_kind.Format.{Format as FormatOf};
ghost use Rattle.quota_types.specs.declared.file_kind.Format.TheVariants.{V2R0, V2R1};
ghost use Rattle.tree_build.specs.Size.{blocks_needed};

/// A file of no identifier has the header and the root. Identifier 1000 needs a block of the tree for each of its other
/// beginnings, and a data block. A data block has 14 entries in vfsv1 and 21 in vfsv0.
pub fn some_sizes()
    ensures none { blocks_needed V2R1 [] ≡ 2 }
    ensures one { blocks_needed V2R1 (1000 ∷ []) ≡ 6 }
    ensures far { blocks_needed V2R1 (0 ∷ 4294967295 ∷ []) ≡ 9 }
    ensures two_data_blocks { blocks_needed V2R1 (range_with_len 0 15) ≡ 7 }
    ensures full_data_block { blocks_needed V2R0 (range_with_len 0 21) ≡ 6 }
    ensures one_more { blocks_needed V2R0 (range_with_len 0 22) ≡ 7 }
    ensures flat { (format : FormatOf) → is_flat format ≡ true → blocks_needed format (1000 ∷ []) ≡ 0 }
{}
