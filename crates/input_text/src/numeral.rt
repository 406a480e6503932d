ghost use Rattle.std.specs.Prelude.{◌≡◌};
ghost use Rattle.input_text.specs.Numeral.{number_of};

/// How many digits a number has at most.
const MAX_DIGITS: usize = 20;

/// Reads a number of 1 to 20 decimal digits with a value below 2^64. Leading zeros are allowed.
#[tactic(auto, unfolding(crate::specs::Numeral::number_of))]
pub fn number_in(word: &[u8]) -> Option<u64>
    ensures { result ≡ number_of word.now }
{
    if word.is_empty() || word.len() > MAX_DIGITS {
        return None;
    }
    let mut number: u64 = 0;
    for digit in word {
        if !digit.is_ascii_digit() {
            return None;
        }
        let unit = u64::from(*digit - b'0');
        number = number.checked_mul(10)?.checked_add(unit)?;
    }
    Some(number)
}

/// Reads a word as a number of 1 to 20 decimal digits with a value below 2^64. Leading zeros are allowed.
pub fn read_number(word: &str) -> Option<u64>
    ensures { result ≡ number_of word.now }
{
    number_in(word.as_bytes())
}
