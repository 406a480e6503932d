ghost use Rattle.std.specs.Prelude.{◌≡◌, ◌<◌, ◌≤◌, ◌+◌, ◌-◌, ◌^◌, ◌++◌, ℕ, List, [], true, false, nat_lt, length, take};
ghost use Rattle.std.specs.Prelude.{drop, position, is_ok, IsTrue, IfOk, IfErr, OnOk, OnErr, if◌then◌else◌};
ghost use Rattle.std.specs.List.{list_any, position_or_len};
ghost use Rattle.outside.specs.Count.{Rose};
ghost use Rattle.input_text.specs.Lines.{Line, is_newline, next_line_of};
ghost use Rattle.input_text.specs.LineReading.{IsLineFault, IsOver, NamesLine, RefusesLine, line_given};
ghost use Rattle.input_text.specs.declared.line_reader.LineFault.TheVariants.{Source as SourceFailed};

use arrayvec::ArrayVec;
use outside::{Source, SourceFault};
use std::marker::Model;

/// The byte that ends a line.
const NEWLINE: u8 = b'\n';

/// How many bytes are taken from a source at a time, at most.
const PIECE: usize = 4096;

/// Why there is no next line.
#[derive(Clone, Copy, Debug, PartialEq, Eq)]
pub enum LineFault {
    /// The source failed.
    Source,
    /// The line of this number, from 1 on, is too long.
    Long(u64),
    /// The line does not end within the bytes that may be read.
    TooLarge,
}

/// A reader of the lines of a source. It takes the bytes in pieces, and no memory of the heap. After a fault it is not
/// used again.
#[derive(Debug, Drop)]
pub struct LineReader {
    piece: [u8; PIECE],
    /// Where the held bytes begin in the piece, and where they end.
    start: usize,
    end: usize,
    /// How many lines were given.
    lines: u64,
    /// How many bytes they have, newlines and all.
    given: u64,
}

impl Model for LineReader {
    ghost use Rattle.std.specs.Prelude.{◌+◌, ◌≤◌};
    ghost use Rattle.std.specs.List.{slice_range};
    ghost use Rattle.input_text.specs.LineReading.{LinesSeen};

    ghost Value = { LinesSeen };

    ghost view = { λ r. record { held = slice_range r.piece r.start r.end; number = r.lines + 1; given = r.given } };

    ghost invariant = { λ r. record { ordered : r.start ≤ r.end; within : r.end ≤ 4096; counted : r.lines ≤ r.given } };
}

impl LineReader {
    /// Nothing is taken yet, and line 1 is at hand.
    pub fn new() -> Self
        ensures { result ≡ record { held = []; number = 1; given = 0 } }
    {
        LineReader {
            piece: [0; PIECE],
            start: 0,
            end: 0,
            lines: 0,
            given: 0,
        }
    }

    /// How many lines were given, which is the number of the last one.
    pub fn lines(&self) -> u64
        ensures { self.now.number ≡ result + 1 }
    {
        self.lines
    }

    /// Puts the next line, without its newline, in place of what stands in `line`, and answers `true`, or `false` with
    /// no line where the input is at its end. A last line without a newline is a line.
    ///
    /// `most` is how many bytes a line may have, and `total` how many bytes of the input may be read, from its
    /// beginning on.
    ///
    /// # Errors
    ///
    /// The source failed. Or more than `most` bytes of the line stand among the first `total` bytes of the input. Or
    /// they do not, no newline of the line stands there either, and the input has more bytes than those.
    pub fn next_line<I: Source>(
        &mut self,
        source: &mut I,
        line: &mut ArrayVec<u8, 4096>,
        most: usize,
        total: u64,
    ) -> Result<bool, LineFault>
        requires { most ≤ 4096 }
        ensures next { IfOk result (λ more. IsTrue I.tells
            → next_line_of most (total - self.old.given) (self.old.held ++ (I.seen source.old).left)
            ≡ line_given more line.new.items (self.new.held ++ (I.seen source.new).left)) }
        ensures at_end { IfOk result (λ more. more ≡ false → IsTrue I.tells
            → self.new.held ++ (I.seen source.new).left ≡ []) }
        ensures no_line { IfOk result (λ more. more ≡ false → line.new.items ≡ []) }
        ensures within { OnOk result (length line.new.items ≤ most) }
        ensures number { IfOk result (λ more. self.new.number ≡ self.old.number + (if more then 1 else 0)) }
        ensures given { OnOk result (IsTrue I.tells
            → self.new.given + length (self.new.held ++ (I.seen source.new).left)
            ≡ self.old.given + length (self.old.held ++ (I.seen source.old).left)) }
        ensures nearer { IfOk result (λ more. more ≡ true → total - self.new.given < total - self.old.given) }
        ensures cause { IfErr result (IsLineFault (I.seen source.old).faults (I.seen source.new).faults I.tells
            (next_line_of most (total - self.old.given) (self.old.held ++ (I.seen source.old).left))) }
        ensures named { IfErr result (NamesLine self.old.number) }
        ensures later { (I.seen source.old).faults ≤ (I.seen source.new).faults }
        ensures keeps { I.keeps (is_ok result) source.old source.new }
    {
        line.clear();
        'pieces: loop {
            if !self.fill(source)? {
                return Ok(self.finish(line.len(), total));
            }
            if self.take_held(line, most, total)? {
                return Ok(true);
            }
        }
    }

    /// Takes a piece of the source where no bytes are held, and answers whether there are any then. There are none at
    /// the end of the input.
    fn fill<I: Source>(&mut self, source: &mut I) -> Result<bool, SourceFault>
        ensures some { IfOk result (λ more. more ≡ true → 0 < length self.new.held) }
        ensures none { IfOk result (λ more. more ≡ false → self.new.held ≡ []) }
        ensures at_end { IfOk result (λ more. more ≡ false → IsTrue I.tells
            → self.new.held ++ (I.seen source.new).left ≡ []) }
        ensures same { OnOk result (IsTrue I.tells → self.new.held ++ (I.seen source.new).left
            ≡ self.old.held ++ (I.seen source.old).left) }
        ensures number { self.new.number ≡ self.old.number }
        ensures given { self.new.given ≡ self.old.given }
        ensures cause { OnErr result (Rose (I.seen source.old).faults (I.seen source.new).faults) }
        ensures later { (I.seen source.old).faults ≤ (I.seen source.new).faults }
        ensures keeps { I.keeps (is_ok result) source.old source.new }
    {
        if self.start < self.end {
            return Ok(true);
        }
        let count = source.read(&mut self.piece)?;
        self.start = 0;
        self.end = count;
        Ok(count > 0)
    }

    /// Counts the line that ends with the input and has `len` bytes, and answers whether there is one.
    fn finish(&mut self, len: usize, total: u64) -> bool
        requires { len ≤ total - self.old.given }
        ensures some { result ≡ nat_lt 0 len }
        ensures held { self.new.held ≡ self.old.held }
        ensures number { self.new.number ≡ self.old.number + (if result then 1 else 0) }
        ensures given { self.new.given ≡ self.old.given + len }
    {
        if len == 0 {
            return false;
        }
        self.lines += 1;
        self.given += len as u64;
        true
    }

    /// Takes the held bytes up to their first newline, or all where there is none, to the end of the line at hand, and
    /// the newline with them. Answers whether it ended the line.
    ///
    /// # Errors
    ///
    /// The line is too long, or does not end within the bytes that may be read.
    fn take_held(
        &mut self,
        line: &mut ArrayVec<u8, 4096>,
        most: usize,
        total: u64,
    ) -> Result<bool, LineFault>
        requires few { most ≤ 4096 }
        requires open { list_any is_newline line.old.items ≡ false }
        ensures ended { IfOk result (λ ended. ended ≡ true → (left : List ℕ)
            → next_line_of most (total - self.old.given) (line.old.items ++ (self.old.held ++ left))
            ≡ Line line.new.items (self.new.held ++ left)) }
        ensures taken { IfOk result (λ ended. ended ≡ true → length line.new.items + 1 + length self.new.held
            ≡ length line.old.items + length self.old.held) }
        ensures more { IfOk result (λ ended. ended ≡ false → line.new.items ≡ line.old.items ++ self.old.held) }
        ensures all { IfOk result (λ ended. ended ≡ false → self.new.held ≡ []) }
        ensures open { IfOk result (λ ended. ended ≡ false → list_any is_newline line.new.items ≡ false) }
        ensures within { OnOk result (length line.new.items ≤ most) }
        ensures fits { OnOk result (length line.new.items ≤ total - self.old.given) }
        ensures room { IfOk result (λ ended. ended ≡ true → length line.new.items < total - self.old.given) }
        ensures number { IfOk result (λ ended. self.new.number ≡ self.old.number + (if ended then 1 else 0)) }
        ensures given { IfOk result (λ ended. self.new.given
            ≡ self.old.given + (if ended then length line.new.items + 1 else 0)) }
        ensures refused { IfErr result (λ fault. (left : List ℕ) → RefusesLine
            (next_line_of most (total - self.old.given) (line.old.items ++ (self.old.held ++ left))) fault) }
        ensures named { IfErr result (NamesLine self.old.number) }
    {
        let (front, ended) = self.front();
        self.admit(line.len() + front, ended, most, total)?;
        self.append(line, front);
        if ended {
            self.end_line(line.len(), total);
        }
        Ok(ended)
    }

    /// How many held bytes stand in front of their first newline, and whether there is one.
    #[tactic(auto, using(crate::proofs::LinesLemmas::newline_within))]
    fn front(&self) -> (usize, bool)
        ensures len { result.0 ≡ position_or_len is_newline self.now.held }
        ensures ended { result.1 ≡ nat_lt result.0 (length self.now.held) }
        ensures inside { result.0 ≤ length self.now.held }
        ensures within { length self.now.held ≤ 4096 }
    {
        let held = &self.piece[self.start..self.end];
        let len = line_len(held);
        (len, len < held.len())
    }

    /// Appends `len` held bytes to the line.
    fn append(&mut self, line: &mut ArrayVec<u8, 4096>, len: usize)
        requires there { len ≤ length self.old.held }
        requires room { length line.old.items + len ≤ 4096 }
        ensures line { line.new.items ≡ line.old.items ++ take len self.old.held }
        ensures held { self.new.held ≡ drop len self.old.held }
        ensures number { self.new.number ≡ self.old.number }
        ensures given { self.new.given ≡ self.old.given }
    {
        line.try_extend_from_slice(&self.piece[self.start..self.start + len])
            .unwrap();
        self.start += len;
    }

    /// Takes the newline that stands first among the held bytes, and counts the line that it ends, which has `len`
    /// bytes.
    fn end_line(&mut self, len: usize, total: u64)
        requires newline { 0 < length self.old.held }
        requires fits { len + 1 ≤ total - self.old.given }
        ensures held { self.new.held ≡ drop 1 self.old.held }
        ensures number { self.new.number ≡ self.old.number + 1 }
        ensures given { self.new.given ≡ self.old.given + (len + 1) }
    {
        self.start += 1;
        self.lines += 1;
        self.given += len as u64 + 1;
    }

    /// Refuses a line that has at least `len` bytes, and no more where it has ended, if it is too long or takes more
    /// bytes than may be read.
    fn admit(&self, len: usize, ended: bool, most: usize, total: u64) -> Result<(), LineFault>
        requires { len < 2 ^ 63 }
        ensures within { OnOk result (len ≤ most) }
        ensures fits { OnOk result (len + (if ended then 1 else 0) ≤ total - self.now.given) }
        ensures refused { IfErr result (IsOver len ended most (total - self.now.given)) }
        ensures named { IfErr result (NamesLine self.now.number) }
    {
        let room = total.saturating_sub(self.given);
        if room.min(len as u64) > most as u64 {
            return Err(LineFault::Long(self.lines + 1));
        }
        if len as u64 + u64::from(ended) > room {
            return Err(LineFault::TooLarge);
        }
        Ok(())
    }
}

/// How many bytes stand in front of the first newline, or all where there is none.
#[tactic(auto, using(crate::proofs::LinesLemmas::position_none))]
fn line_len(bytes: &[u8]) -> usize
    ensures { result ≡ position_or_len is_newline bytes.now }
{
    match first_newline(bytes) {
        Some(at) => at,
        None => bytes.len(),
    }
}

/// Where the first newline stands, if there is one.
fn first_newline(bytes: &[u8]) -> Option<usize>
    ensures { result ≡ position is_newline bytes.now }
{
    bytes.iter().position(|byte| *byte == NEWLINE)
}

impl From<SourceFault> for LineFault {
    ghost from_gives = { λ _ fault. fault ≡ SourceFailed };

    fn from(_: SourceFault) -> Self {
        LineFault::Source
    }
}
