ghost use Rattle.std.specs.Prelude.{◌≡◌, ◌++◌, IfSome};

/// What stands behind a front of a text, where it begins with that.
pub fn behind<'a>(text: &'a [u8], front: &[u8]) -> Option<&'a [u8]>
    ensures { IfSome result (λ rest. text.now ≡ front.now ++ rest.now) }
{
    if text.len() < front.len() {
        return None;
    }
    let (begin, rest) = text.split_at(front.len());
    if begin == front { Some(rest) } else { None }
}

/// What stands before and behind the first middle in a text, where that is there.
pub fn parted<'a>(text: &'a [u8], middle: &[u8]) -> Option<(&'a [u8], &'a [u8])>
    ensures { IfSome result (λ parts. text.now ≡ parts.0.now ++ (middle.now ++ parts.1.now)) }
{
    for at in 0..text.len() {
        let (front, rest) = text.split_at(at);
        if let Some(end) = behind(rest, middle) {
            return Some((front, end));
        }
    }
    None
}
