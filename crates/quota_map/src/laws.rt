//! Laws of quota files of all formats.

ghost use Rattle.std.specs.Prelude.{◌≡◌, ◌≤◌, true, ℕ, List};
ghost use Rattle.quota_types.specs.Format.{is_flat};
ghost use Rattle.quota_types.specs.declared.file_kind.Format.{Format};
ghost use Rattle.quota_value.specs.QuotaValue.{QuotaValue};
ghost use Rattle.quota_map.specs.AnyFile.{reads_of_get};
ghost use Rattle.quota_map.specs.StandsFor.{StandsFor};

/// A file stands for one value of a kind and format at most.
pub fn a_file_has_one_meaning_of_a_kind_and_format()
    ensures { (file : List ℕ) (value other : QuotaValue) → StandsFor file value → StandsFor file other
        → value.kind ≡ other.kind → value.format ≡ other.format → value ≡ other }
{
    tree_meaning::laws::a_file_has_one_meaning();
    quota_v1::laws::a_file_has_one_meaning_of_a_kind();
}

/// A look-up makes one call of `read` at most in a flat file, and five in a file of any format.
pub fn a_look_up_reads_five_times_at_most()
    ensures flat { (format : Format) → is_flat format ≡ true → reads_of_get format ≡ 1 }
    ensures all { (format : Format) → reads_of_get format ≤ 5 }
{}
