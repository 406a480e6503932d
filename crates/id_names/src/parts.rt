ghost use Rattle.std.specs.Prelude.{◌≡◌, ◌∷◌, [], ◌<◌, ◌==◌, IfNone, IfSome, count_by, length, position};
ghost use Rattle.id_names.specs.NamesFile.{parts_of};

/// What stands before the first separator, and what stands behind it; none where there is no separator.
pub(crate) fn split_once(bytes: &[u8], separator: u8) -> Option<(&[u8], &[u8])>
    ensures parts { IfSome result (λ cut. parts_of separator bytes.now ≡ cut.0.now ∷ parts_of separator cut.1.now) }
    ensures shorter { IfSome result (λ cut. length cut.1.now < length bytes.now) }
    ensures whole { IfNone result (parts_of separator bytes.now ≡ bytes.now ∷ []) }
{
    let at = place_of(bytes, separator)?;
    Some((&bytes[..at], &bytes[at + 1..]))
}

/// Where the first separator stands.
fn place_of(bytes: &[u8], separator: u8) -> Option<usize>
    ensures { result ≡ position (λ byte. byte == separator) bytes.now }
{
    bytes.iter().position(|byte| *byte == separator)
}

/// How many separators there are.
pub(crate) fn count(bytes: &[u8], separator: u8) -> usize
    ensures { result ≡ count_by (λ byte. byte == separator) bytes.now }
{
    bytes.iter().filter(|byte| **byte == separator).count()
}
