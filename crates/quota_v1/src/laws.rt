//! Laws of flat files: what they mean, and where their records stand.

ghost use Rattle.std.specs.Prelude.{◌≡◌, ◌+◌, ◌<◌, ◌≤◌, true, ℕ, List};
ghost use Rattle.quota_value.specs.QuotaValue.{QuotaValue};
ghost use Rattle.quota_v1.specs.FlatFile.{FlatStandsFor};
ghost use Rattle.quota_types.specs.Format.{is_flat, record_size};
ghost use Rattle.quota_types.specs.declared.file_kind.Format.{Format};
ghost use Rattle.quota_types.specs.declared.file_kind.Format.TheVariants.{V1, V1R32};
ghost use Rattle.quota_v1.specs.Place.{block_time_start, flat_limit, inode_time_start, record_start, time_width};

/// A flat file stands for one value of a kind at most.
pub fn a_file_has_one_meaning_of_a_kind()
    ensures { (format : Format) (file : List ℕ) (value other : QuotaValue) → FlatStandsFor format file value
        → FlatStandsFor format file other
        → value.kind ≡ other.kind → value ≡ other }
{}

/// Records stand one after another from the first byte on, with nothing between, and don't overlap; those of vfsold
/// have 40 bytes, and those of vfsold32 have 32. A file has room for those of the identifiers below 1,048,576.
pub fn records_stand_one_behind_another()
    ensures first { (format : Format) → record_start format 0 ≡ 0 }
    ensures next { (format : Format) (id : ℕ)
        → record_start format (id + 1) ≡ record_start format id + record_size format }
    ensures apart { (format : Format) (id other : ℕ) → id < other
        → record_start format id + record_size format ≤ record_start format other }
    ensures all { (format : Format) → record_start format 1048576 ≡ flat_limit format }
    ensures size { record_size V1 ≡ 40 }
    ensures size_of_32_bits { record_size V1R32 ≡ 32 }
{}

/// The times of a record are its last bytes: first the one of blocks, and then the one of inodes. Those of vfsold
/// have eight each, and those of vfsold32 have four.
pub fn a_record_ends_with_its_times()
    ensures block { (format : Format) (id : ℕ) → block_time_start format id ≡ record_start format id + 24 }
    ensures inode { (format : Format) (id : ℕ)
        → inode_time_start format id ≡ block_time_start format id + time_width format }
    ensures end { (format : Format) → is_flat format ≡ true → (id : ℕ)
        → inode_time_start format id + time_width format ≡ record_start format (id + 1) }
    ensures width { time_width V1 ≡ 8 }
    ensures width_of_32_bits { time_width V1R32 ≡ 4 }
{}
