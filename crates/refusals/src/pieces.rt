ghost use Rattle.std.specs.Prelude.{◌≡◌, ◌∷◌, [], codes, decimal};
ghost use Rattle.std.specs.List.{concat};
ghost use Rattle.refusals.specs.Line.{identifier_text, input_called, place_text, text_of};
ghost use Rattle.refusals.specs.Piece.{joined};
ghost use Rattle.refusals.specs.declared.cause.Cause.TheVariants.{Damaged, NoRoom as Unfit};

use crate::Cause;
use crate::Piece::{self, Number, Text};
use quota_types::{Damage, DamageKind, NoRoom};

/// The pieces of what an error line says of a cause; those that it doesn't need are empty.
type Pieces<'a> = [Piece<'a>; 7];

/// An empty piece.
const EMPTY: Piece<'static> = Text(b"");

/// What an error line says of a cause, and of the file or the word that it is about, by its bytes.
pub(crate) fn pieces_of<'a>(cause: Cause, name: &'a [u8]) -> Pieces<'a>
    ensures { joined result ≡ concat (text_of cause name.now) }
{
    match cause {
        Cause::StoreFault => text(b"store fault"),
        Cause::NoFile => said_of(name, b": no such file"),
        Cause::TooLarge => said_of(input_called(name), b": too large"),
        Cause::SourceFault => text(b"input fault"),
        Cause::SinkFault => text(b"output fault"),
        Cause::LinkFault => text(b"link fault"),
        Cause::Memory => text(b"want of memory"),
        Cause::NotQuota => said_of(name, b": not a quota file"),
        Cause::WrongKind => said_of(name, b": wrong kind"),
        Cause::UnknownVersion => said_of(name, b": unknown version"),
        Cause::BadBlockCount => said_of(name, b": bad block count"),
        Cause::OtherFormat => said_of(name, b": other format"),
        Cause::UnknownName => word_said(b"unknown name ", name),
        Cause::BadNumber => word_said(b"bad number ", name),
        Cause::TargetExists => said_of(name, b": exists already"),
        Cause::SameName => said_of(name, b": same name"),
        Cause::BadForm(line) => number_said(b"bad form at line ", line),
        Cause::BadLine(line) => numbered(input_called(name), b": bad line ", line),
        Cause::LongLine(line) => numbered(input_called(name), b": long line ", line),
        Cause::Conflict { line, first } => {
            let name = input_called(name);
            two_numbered(name, b": line ", line, b" conflicts with line ", first)
        }
        Cause::Damaged(damage) => damage_pieces(name, damage),
        Cause::NoRoom(out) => no_room_pieces(name, out),
        Cause::Full { blocks, limit } => {
            two_numbered(name, b": full: ", blocks, b" blocks of ", limit)
        }
        Cause::Usage { kind, word } => usage_pieces(kind.name().as_bytes(), word),
    }
}

/// A text alone.
fn text<'a>(said: &'static [u8]) -> Pieces<'a>
    ensures { joined result ≡ concat (said.now ∷ []) }
{
    [Text(said), EMPTY, EMPTY, EMPTY, EMPTY, EMPTY, EMPTY]
}

/// A text behind a name.
fn said_of<'a>(name: &'a [u8], said: &'static [u8]) -> Pieces<'a>
    ensures { joined result ≡ concat (name.now ∷ said.now ∷ []) }
{
    [Text(name), Text(said), EMPTY, EMPTY, EMPTY, EMPTY, EMPTY]
}

/// A word behind a text.
fn word_said<'a>(said: &'static [u8], word: &'a [u8]) -> Pieces<'a>
    ensures { joined result ≡ concat (said.now ∷ word.now ∷ []) }
{
    [Text(said), Text(word), EMPTY, EMPTY, EMPTY, EMPTY, EMPTY]
}

/// A number behind a text.
fn number_said<'a>(said: &'static [u8], number: u64) -> Pieces<'a>
    ensures { joined result ≡ concat (said.now ∷ decimal number ∷ []) }
{
    let number = Number(u128::from(number));
    [Text(said), number, EMPTY, EMPTY, EMPTY, EMPTY, EMPTY]
}

/// A number behind a name and a text.
fn numbered<'a>(name: &'a [u8], said: &'static [u8], number: u64) -> Pieces<'a>
    ensures { joined result ≡ concat (name.now ∷ said.now ∷ decimal number ∷ []) }
{
    let number = Number(u128::from(number));
    [Text(name), Text(said), number, EMPTY, EMPTY, EMPTY, EMPTY]
}

/// Two numbers, each behind a text, and a name in front.
fn two_numbered<'a>(
    name: &'a [u8],
    said: &'static [u8],
    number: u64,
    then: &'static [u8],
    other: u64,
) -> Pieces<'a>
    ensures { joined result
        ≡ concat (name.now ∷ said.now ∷ decimal number ∷ then.now ∷ decimal other ∷ []) }
{
    let number = Number(u128::from(number));
    let other = Number(u128::from(other));
    [
        Text(name),
        Text(said),
        number,
        Text(then),
        other,
        EMPTY,
        EMPTY,
    ]
}

/// What is said of words that can't be carried out, by the name of what is wrong.
fn usage_pieces<'a>(called: &'static [u8], word: u64) -> Pieces<'a>
    ensures { joined result ≡ concat (codes "usage: " ∷ called.now ∷ codes " at word " ∷ decimal word ∷ []) }
{
    let word = Number(u128::from(word));
    [
        Text(b"usage: "),
        Text(called),
        Text(b" at word "),
        word,
        EMPTY,
        EMPTY,
        EMPTY,
    ]
}

/// What is said of a damage, which is in a record or in a block, and may be in an entry of an identifier.
fn damage_pieces<'a>(name: &'a [u8], damage: Damage) -> Pieces<'a>
    ensures { joined result ≡ concat (text_of (Damaged damage) name.now) }
{
    let (of, id) = identifier_pieces(damage.kind.names_identifier(), damage.id);
    [
        Text(name),
        Text(b": damaged: "),
        Text(damage.kind.name().as_bytes()),
        Text(place_text(damage.kind)),
        Number(u128::from(damage.block)),
        of,
        id,
    ]
}

/// What a damage is in.
fn place_text(kind: DamageKind) -> &'static [u8]
    ensures { result.now ≡ place_text kind }
{
    match kind {
        DamageKind::PartialRecord => b" at record ",
        _ => b" at block ",
    }
}

/// What is said of a value for which the format has no room.
fn no_room_pieces<'a>(name: &'a [u8], out: NoRoom) -> Pieces<'a>
    ensures { joined result ≡ concat (text_of (Unfit out) name.now) }
{
    let (of, id) = identifier_pieces(out.field.is_of_identifier(), out.id);
    [
        Text(name),
        Text(b": no room for "),
        Text(out.field.name().as_bytes()),
        Text(b" "),
        Number(out.value),
        of,
        id,
    ]
}

/// The pieces for the identifier at the end of a line, which are empty where none is named.
fn identifier_pieces(named: bool, id: u32) -> (Piece<'static>, Piece<'static>)
    ensures { joined (result.0 ∷ result.1 ∷ []) ≡ concat (identifier_text named id) }
{
    if named {
        (Text(b" of "), Number(u128::from(id)))
    } else {
        (EMPTY, EMPTY)
    }
}

/// What an input of this name is called; the standard input has none.
fn input_called(name: &[u8]) -> &[u8]
    ensures { result.now ≡ input_called name.now }
{
    if name.is_empty() { b"input" } else { name }
}
