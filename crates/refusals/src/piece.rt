ghost use Rattle.std.specs.Prelude.{◌≡◌, ◌≤◌, ◌++◌, [], List, ℕ, codes, IsTrue, OnOk, OnErr};
ghost use Rattle.std.specs.List.{concat};
ghost use Rattle.outside.specs.Count.{Rose};
ghost use Rattle.outside.specs.Text.{AppendsPrefix};
ghost use Rattle.outside.specs.Gathering.{IsGathered};
ghost use Rattle.refusals.specs.Line.{front_of, line_text};
ghost use Rattle.refusals.specs.Piece.{joined, piece_bytes};

use crate::Place;
use input_text::TextBuffer;
use itoa::Buffer;
use outside::{Sink, SinkFault};

/// A piece of a line: a text, or a number in decimal.
#[derive(Clone, Copy)]
pub enum Piece<'a> {
    /// The text.
    Text(&'a [u8]),
    /// The number.
    Number(u128),
}

/// Writes a line of pieces. In front stand the program's name and, in a script, the number of the script's line.
///
/// # Errors
///
/// The sink failed. It then has a prefix of the line.
pub fn write_line<'a, O: Sink>(
    sink: &mut O,
    place: Place,
    pieces: &[Piece<'a>],
) -> Result<(), SinkFault>
    ensures ok { OnOk result (IsTrue O.tells → (O.seen sink.new).written ≡ (O.seen sink.old).written
        ++ (codes "quota: " ++ front_of place ++ joined pieces.now ++ codes "\n")) }
    ensures fault { OnErr result (IsTrue O.tells → AppendsPrefix (O.seen sink.old).written (O.seen sink.new).written
        (codes "quota: " ++ front_of place ++ joined pieces.now ++ codes "\n")) }
    ensures cause { OnErr result (Rose (O.seen sink.old).faults (O.seen sink.new).faults) }
    ensures later { (O.seen sink.old).faults ≤ (O.seen sink.new).faults }
{
    let mut text = TextBuffer::new();
    text.put(sink, b"quota: ")?;
    put_place(&mut text, sink, place)?;
    put_pieces(&mut text, sink, pieces)?;
    text.put(sink, b"\n")?;
    text.flush(sink)
}

/// Puts the numbers of the lines that something stands in.
fn put_place<O: Sink>(text: &mut TextBuffer, sink: &mut O, place: Place) -> Result<(), SinkFault>
    ensures ok { OnOk result (IsTrue O.tells → (start before : List ℕ)
        → IsGathered start before (O.seen sink.old).written text.old
        → IsGathered start (before ++ front_of place) (O.seen sink.new).written text.new) }
    ensures fault { OnErr result (IsTrue O.tells → (start before : List ℕ)
        → IsGathered start before (O.seen sink.old).written text.old
        → AppendsPrefix start (O.seen sink.new).written (before ++ front_of place)) }
    ensures cause { OnErr result (Rose (O.seen sink.old).faults (O.seen sink.new).faults) }
    ensures later { (O.seen sink.old).faults ≤ (O.seen sink.new).faults }
{
    put_line(text, sink, b"line ", place.line)?;
    put_line(text, sink, b"input line ", place.input_line)
}

/// Puts the number of a line behind what stands in front of it, where there is one.
fn put_line<O: Sink>(
    text: &mut TextBuffer,
    sink: &mut O,
    front: &[u8],
    line: Option<u64>,
) -> Result<(), SinkFault>
    ensures ok { OnOk result (IsTrue O.tells → (start before : List ℕ)
        → IsGathered start before (O.seen sink.old).written text.old
        → IsGathered start (before ++ concat (line_text front.now line)) (O.seen sink.new).written text.new) }
    ensures fault { OnErr result (IsTrue O.tells → (start before : List ℕ)
        → IsGathered start before (O.seen sink.old).written text.old
        → AppendsPrefix start (O.seen sink.new).written (before ++ concat (line_text front.now line))) }
    ensures cause { OnErr result (Rose (O.seen sink.old).faults (O.seen sink.new).faults) }
    ensures later { (O.seen sink.old).faults ≤ (O.seen sink.new).faults }
{
    match line {
        Some(line) => put_pieces(
            text,
            sink,
            &[
                Piece::Text(front),
                Piece::Number(u128::from(line)),
                Piece::Text(b": "),
            ],
        ),
        None => Ok(()),
    }
}

/// Puts pieces behind what is gathered, one after another.
///
/// # Errors
///
/// The sink failed. It then has a prefix of what was gathered and of the pieces.
pub fn put_pieces<'a, O: Sink>(
    text: &mut TextBuffer,
    sink: &mut O,
    pieces: &[Piece<'a>],
) -> Result<(), SinkFault>
    ensures ok { OnOk result (IsTrue O.tells → (start before : List ℕ)
        → IsGathered start before (O.seen sink.old).written text.old
        → IsGathered start (before ++ joined pieces.now) (O.seen sink.new).written text.new) }
    ensures fault { OnErr result (IsTrue O.tells → (start before : List ℕ)
        → IsGathered start before (O.seen sink.old).written text.old
        → AppendsPrefix start (O.seen sink.new).written (before ++ joined pieces.now)) }
    ensures cause { OnErr result (Rose (O.seen sink.old).faults (O.seen sink.new).faults) }
    ensures later { (O.seen sink.old).faults ≤ (O.seen sink.new).faults }
{
    for piece in pieces {
        put_piece(text, sink, piece)?;
    }
    Ok(())
}

/// Puts a piece.
fn put_piece<'a, O: Sink>(
    text: &mut TextBuffer,
    sink: &mut O,
    piece: &Piece<'a>,
) -> Result<(), SinkFault>
    ensures ok { OnOk result (IsTrue O.tells → (start before : List ℕ)
        → IsGathered start before (O.seen sink.old).written text.old
        → IsGathered start (before ++ piece_bytes piece.now) (O.seen sink.new).written text.new) }
    ensures fault { OnErr result (IsTrue O.tells → (start before : List ℕ)
        → IsGathered start before (O.seen sink.old).written text.old
        → AppendsPrefix start (O.seen sink.new).written (before ++ piece_bytes piece.now)) }
    ensures cause { OnErr result (Rose (O.seen sink.old).faults (O.seen sink.new).faults) }
    ensures later { (O.seen sink.old).faults ≤ (O.seen sink.new).faults }
{
    match piece {
        Piece::Text(bytes) => text.put(sink, bytes),
        Piece::Number(number) => {
            let mut digits = Buffer::new();
            text.put(sink, digits.format(*number).as_bytes())
        }
    }
}
