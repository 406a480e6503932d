ghost use Rattle.std.specs.Prelude.{◌≡◌, ◌≢◌, ◌≤◌, [], IfSome, IfNone, length};
ghost use Rattle.id_names.specs.NamesFile.{fields_in, fields_of, id_of_field, id_place, is_name, is_name_byte};
ghost use Rattle.id_names.specs.NamesFile.{is_passed_over, line_of};
ghost use Rattle.std.specs.List.{list_all, slice_index_or};
ghost use Rattle.std.specs.Option.{option_map};

use crate::parts::{count, split_once};
use quota_types::Kind;

/// A line of names: a name, and the identifier that it stands for.
#[derive(Clone, Copy)]
pub(crate) struct Line<'a> {
    /// The name's bytes.
    pub(crate) name: &'a [u8],
    /// The identifier.
    pub(crate) id: u32,
}

/// How many bytes a name has at most.
const MAX_NAME: usize = 255;

/// The first character behind the control characters and the space.
const FIRST_PRINTED: u8 = b'!';

/// The delete character, which stands in no name.
const DELETE: u8 = 127;

/// Whether a line says nothing: it is empty, a comment, or of the compatibility mode of nsswitch.conf(5).
pub(crate) fn is_passed_over(line: &[u8]) -> bool
    ensures { result ≡ is_passed_over line.now }
{
    match line.first() {
        None => true,
        Some(first) => *first == b'#' || *first == b'+' || *first == b'-',
    }
}

/// Whether each byte may stand in a name.
fn are_name_bytes(bytes: &[u8]) -> bool
    ensures { result ≡ list_all is_name_byte bytes.now }
{
    bytes
        .iter()
        .all(|byte| *byte >= FIRST_PRINTED && *byte != DELETE)
}

/// Whether bytes may be a name.
fn is_name(bytes: &[u8]) -> bool
    ensures { result ≡ is_name bytes.now }
{
    !bytes.is_empty() && bytes.len() <= MAX_NAME && are_name_bytes(bytes)
}

/// The identifier that a field spells in decimal, where it is one.
fn read_id(field: &[u8]) -> Option<u32>
    ensures { result ≡ id_of_field field.now }
{
    if field.is_empty() {
        return None;
    }
    let mut id: u32 = 0;
    for digit in field {
        if !digit.is_ascii_digit() {
            return None;
        }
        let unit = u32::from(*digit - b'0');
        id = id.checked_mul(10)?.checked_add(unit)?;
    }
    Some(id)
}

/// How many fields a line has.
fn fields_in(kind: Kind) -> usize
    ensures { result ≡ fields_in kind }
{
    match kind {
        Kind::User => 7,
        Kind::Group => 4,
        Kind::Project => 2,
    }
}

/// The fields of the name and of the identifier of a line, where it has as many as the kind needs.
fn name_and_id(line: &[u8], kind: Kind) -> Option<(&[u8], &[u8])>
    ensures name { IfSome result (λ fields. fields.0.now ≡ slice_index_or (fields_of line.now) 0 []) }
    ensures id { IfSome result (λ fields. fields.1.now ≡ slice_index_or (fields_of line.now) (id_place kind) []) }
    ensures as_many { IfSome result (λ _. length (fields_of line.now) ≡ fields_in kind) }
    ensures other { IfNone result (length (fields_of line.now) ≢ fields_in kind) }
{
    match kind {
        Kind::User | Kind::Group => account_fields(line, kind),
        Kind::Project => project_fields(line),
    }
}

/// The two fields of a line of projects: the name, and behind it the identifier.
fn project_fields(line: &[u8]) -> Option<(&[u8], &[u8])>
    ensures name { IfSome result (λ fields. fields.0.now ≡ slice_index_or (fields_of line.now) 0 []) }
    ensures id { IfSome result (λ fields. fields.1.now ≡ slice_index_or (fields_of line.now) 1 []) }
    ensures as_many { IfSome result (λ _. length (fields_of line.now) ≡ 2) }
    ensures other { IfNone result (length (fields_of line.now) ≢ 2) }
{
    let (name, id) = split_once(line, b':')?;
    match split_once(id, b':') {
        None => Some((name, id)),
        Some(_) => None,
    }
}

/// The first and the third field of a line of users or groups, where it has as many as the kind needs.
fn account_fields(line: &[u8], kind: Kind) -> Option<(&[u8], &[u8])>
    requires { 4 ≤ fields_in kind }
    ensures name { IfSome result (λ fields. fields.0.now ≡ slice_index_or (fields_of line.now) 0 []) }
    ensures id { IfSome result (λ fields. fields.1.now ≡ slice_index_or (fields_of line.now) 2 []) }
    ensures as_many { IfSome result (λ _. length (fields_of line.now) ≡ fields_in kind) }
    ensures other { IfNone result (length (fields_of line.now) ≢ fields_in kind) }
{
    let (name, behind) = split_once(line, b':')?;
    let (_password, behind) = split_once(behind, b':')?;
    let (id, behind) = split_once(behind, b':')?;
    // Three fields are cut off, and there is one more than there are colons behind them.
    if count(behind, b':') + 4 == fields_in(kind) {
        Some((name, id))
    } else {
        None
    }
}

/// The name and the identifier of a line, where it keeps the rules of its kind of file.
pub(crate) fn read_line(line: &[u8], kind: Kind) -> Option<Line<'_>>
    ensures { option_map (λ l. record { name = l.name.now; id = l.id }) result ≡ line_of kind line.now }
{
    let (name, id) = name_and_id(line, kind)?;
    if !is_name(name) {
        return None;
    }
    let id = read_id(id)?;
    Some(Line { name, id })
}
