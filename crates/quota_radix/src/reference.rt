ghost use Rattle.std.specs.Prelude.{◌≡◌, ◌*◌};
ghost use Rattle.quota_types.specs.Bytes.{number_at};

use file_blocks::le32;

/// The reference at a digit's place in a block of the tree; 0 means none.
pub fn level_ref(block: &[u8; 1024], digit: u8) -> u32
    ensures { result ≡ number_at 4 block.now (4 * digit) }
{
    le32(block, 4 * usize::from(digit))
}
