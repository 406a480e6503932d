ghost use Rattle.std.specs.Prelude.{◌≡◌, ◌<◌, ◌==◌, position, None, Some, MatchOption};
ghost use Rattle.option_words.specs.Parts.{parted};

/// What stands before and behind the first of these bytes, where there is one.
pub fn parted(text: &str, at: u8) -> Option<(&str, &str)>
    requires { at < 128 }
    ensures { MatchOption result (parted at text.now ≡ None) (λ parts. parted at text.now ≡ Some (
      parts.0.now,
      parts.1.now,
    )) }
{
    match place_of(text.as_bytes(), at) {
        Some(place) => Some((&text[..place], &text[place + 1..])),
        None => None,
    }
}

/// Where the first of these bytes is, where there is one.
fn place_of(bytes: &[u8], at: u8) -> Option<usize>
    ensures { result ≡ position (λ byte. byte == at) bytes.now }
{
    bytes.iter().position(|byte| *byte == at)
}
