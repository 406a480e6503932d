ghost use Rattle.std.specs.Prelude.{◌≡◌, ◌∷◌, [], Some};
ghost use Rattle.input_text.specs.Numeral.{number_of};
ghost use Rattle.set_edit.specs.Number.{factor_of, limit_of, product_of};

use input_text::number_in;

/// Reads a limit: a number, and behind it nothing or one suffix, with a product below 2^64.
///
/// For blocks `K`, `M`, `G` and `T` stand for 1, 1,024, 1,024^2 and 1,024^3 KiB. For inodes `k`, `m`, `g` and `t` stand
/// for 10^3, 10^6, 10^9 and 10^12.
pub fn read_limit(word: &str, blocks: bool) -> Option<u64>
    ensures { result ≡ limit_of blocks word.now }
{
    limit_from(word.as_bytes(), blocks)
}

/// The limit that bytes spell.
pub(crate) fn limit_from(word: &[u8], blocks: bool) -> Option<u64>
    ensures { result ≡ limit_of blocks word.now }
{
    let (digits, factor) = split_suffix(word, blocks);
    number_in(digits)?.checked_mul(factor)
}

/// What stands before the suffix of a limit, and the suffix's factor: all of the word and 1 where there is none.
#[tactic(auto, unfolding(crate::specs::Number::limit_of, input_text::specs::Numeral::number_of))]
fn split_suffix(word: &[u8], blocks: bool) -> (&[u8], u64)
    ensures { limit_of blocks word.now ≡ product_of (number_of result.0.now) (Some result.1) }
{
    let Some((suffix, digits)) = word.split_last() else {
        return (word, 1);
    };
    match suffix_factor(*suffix, blocks) {
        Some(factor) => (digits, factor),
        None => (word, 1),
    }
}

/// How many KiB or inodes a suffix stands for, where it is one.
fn suffix_factor(suffix: u8, blocks: bool) -> Option<u64>
    ensures { result ≡ factor_of blocks (suffix ∷ []) }
{
    match (blocks, suffix) {
        (true, b'K') => Some(1),
        (true, b'M') => Some(1 << 10),
        (true, b'G') => Some(1 << 20),
        (true, b'T') => Some(1 << 30),
        (false, b'k') => Some(1_000),
        (false, b'm') => Some(1_000_000),
        (false, b'g') => Some(1_000_000_000),
        (false, b't') => Some(1_000_000_000_000),
        _ => None,
    }
}
