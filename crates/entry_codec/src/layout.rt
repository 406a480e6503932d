ghost use Rattle.std.specs.Prelude.{◌≡◌};
ghost use Rattle.entry_codec.specs.Entry.{entries_per_block};
ghost use Rattle.quota_types.specs.Format.{IsTreeFormat, record_size};

use quota_types::Format;

/// How many bytes an entry of a tree file has: as many as a record of its format.
pub fn entry_size(format: Format) -> usize
    requires { IsTreeFormat format }
    ensures { result ≡ record_size format }
{
    format.record_size()
}

/// The entries of a data block of a tree file.
pub fn entries_per_block(format: Format) -> usize
    requires { IsTreeFormat format }
    ensures { result ≡ entries_per_block format }
{
    match format {
        Format::V1 | Format::V1R32 => unreachable!(),
        Format::V2R0 => 21,
        Format::V2R1 => 14,
    }
}
