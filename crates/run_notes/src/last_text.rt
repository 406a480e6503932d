ghost use Rattle.std.specs.Prelude.{◌<◌, length, IfSome};

use arrayvec::ArrayVec;

/// The byte that ends a line.
const NEWLINE: u8 = b'\n';

/// How many bytes are kept at least, where so many were taken: those of the longest line.
const LEAST: usize = 4096;

/// How many bytes are kept at most.
const MOST: usize = 8192;

/// The bytes of a text that were taken last, with the number of the line in which they begin. A line of at most 4,096
/// bytes which ends in the last 4,096 bytes is kept whole.
#[derive(Debug, Drop)]
pub struct LastText {
    kept: ArrayVec<u8, MOST>,
    /// How many bytes were taken.
    taken: u64,
    /// How many lines ended before the bytes that are kept.
    ended: u64,
}

impl LastText {
    /// Nothing was taken yet.
    pub fn new() -> Self {
        LastText {
            kept: ArrayVec::new(),
            taken: 0,
            ended: 0,
        }
    }

    /// How many bytes were taken.
    pub fn taken(&self) -> u64 {
        self.taken
    }

    /// Takes the bytes that come next.
    pub fn push(&mut self, bytes: &[u8]) {
        for piece in bytes.chunks(LEAST) {
            if self.kept.try_extend_from_slice(piece).is_err() {
                self.forget();
                let _ = self.kept.try_extend_from_slice(piece);
            }
            self.taken = self.taken.saturating_add(piece.len() as u64);
        }
    }

    /// Keeps no more of the bytes than the least that is kept, and counts the lines that ended before.
    fn forget(&mut self) {
        let gone = self.kept.len().saturating_sub(LEAST);
        let mut ended: u64 = 0;
        for byte in &self.kept.as_slice()[..gone] {
            if *byte == NEWLINE {
                ended = ended.saturating_add(1);
            }
        }
        self.ended = self.ended.saturating_add(ended);
        let mut left: ArrayVec<u8, MOST> = ArrayVec::new();
        let _ = left.try_extend_from_slice(&self.kept.as_slice()[gone..]);
        self.kept = left;
    }

    /// Whether bytes were taken that are no longer kept.
    fn has_forgotten(&self) -> bool {
        self.taken > self.kept.len() as u64
    }

    /// The line of this number, counted from 1, without its newline and as far as it was taken; none where it was not,
    /// or is not kept from its beginning on.
    pub fn line(&self, number: u64) -> Option<&[u8]> {
        let before = number.checked_sub(1)?.checked_sub(self.ended)?;
        if before == 0 && self.has_forgotten() {
            return None;
        }
        let mut rest = self.kept.as_slice();
        for _ in 0..before {
            rest = behind_line(rest)?;
        }
        if rest.is_empty() {
            return None;
        }
        Some(first_line(rest))
    }

    /// The last line that was taken, as far as it is kept.
    pub fn last_line(&self) -> &[u8] {
        let kept = self.kept.as_slice();
        let text = match kept.split_last() {
            Some((last, front)) if *last == NEWLINE => front,
            _ => kept,
        };
        match text.iter().rposition(|byte| *byte == NEWLINE) {
            Some(at) => &text[at + 1..],
            None => text,
        }
    }
}

/// Where the first newline stands, if there is one.
fn newline_in(text: &[u8]) -> Option<usize>
    ensures { IfSome result (λ at. at < length text.now) }
{
    text.iter().position(|byte| *byte == NEWLINE)
}

/// What stands behind the first line of a text, where that has ended.
fn behind_line(text: &[u8]) -> Option<&[u8]> {
    let at = newline_in(text)?;
    Some(&text[at + 1..])
}

/// The first line of a text, without its newline.
fn first_line(text: &[u8]) -> &[u8] {
    match newline_in(text) {
        Some(at) => &text[..at],
        None => text,
    }
}
