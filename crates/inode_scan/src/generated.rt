ghost use Rattle.std.specs.Prelude.{◌≡◌, ◌+◌, ◌-◌, ◌≤◌, ◌++◌, ◌∷◌, ◌⊎◌, [], codes, decimal, take, length};
ghost use Rattle.inode_scan.specs.Generated.{first_alike, generated, next_number, number_behind, row_made, row_text};
ghost use Rattle.inode_scan.specs.GeneratedLeft.{generated_left, generated_seen};

use crate::row::Row;
use arrayvec::ArrayVec;
use itoa::Buffer;
use outside::{Source, SourceFault};

/// How many bytes a line has at most: five numbers, and a byte behind each.
const LINE: usize = 5 * 21;

/// A listing of inodes that is made while it is read, the same for the same seed, as a source. It keeps a line at a
/// time, takes no memory of the heap, and never fails.
///
/// A number begins as the seed. Every tenth line repeats the one before. Any other line takes the next number x of
/// Knuth's generator of 64 bits, and tells the owner 1000 + floor(x / 2^33) mod 5000, the group 100, the device 2049,
/// the inode 1000 and the line's number, from 1 on, and 8 (floor(x / 2^20) mod 64) blocks.
#[derive(Debug, Drop)]
pub struct Generated {
    /// The number that the last line was made of, or the seed.
    x: u64,
    /// How many lines were made.
    line: u32,
    /// How many lines there are.
    count: u32,
    /// The last line.
    text: ArrayVec<u8, LINE>,
    /// How many of its bytes were taken.
    at: usize,
}

impl Generated {
    /// The listing of a seed with this many lines.
    pub fn new(seed: u64, count: u32) -> Self
        ensures { ⟦<Generated as Source>⟧.seen result ≡ record { left = generated seed count; faults = 0 } }
    {
        Generated {
            x: seed,
            line: 0,
            count,
            text: ArrayVec::new(),
            at: 0,
        }
    }

    /// Makes the next line, where there is one, once the one at hand was taken.
    fn make_line(&mut self)
        requires { length self.old.text.items ≤ self.old.at }
        ensures same { generated_left self.new ≡ generated_left self.old }
        ensures some { length self.new.text.items ≤ self.new.at → generated_left self.new ≡ [] }
    {
        if self.line < self.count {
            self.line += 1;
            self.x = number_behind(self.x, self.line);
            self.text = row_text(&row_made(self.x, first_alike(self.line)));
            self.at = 0;
        }
    }

    /// Takes bytes of the line at hand.
    fn take(&mut self, buf: &mut [u8]) -> usize
        ensures fits { result ≤ length buf.new }
        ensures taken { generated_left self.old ≡ take result buf.new ++ generated_left self.new }
        ensures end { result ≡ 0 → (length buf.old ≡ 0) ⊎ (length self.old.text.items ≤ self.old.at) }
    {
        let start = self.at.min(self.text.len());
        let count = buf.len().min(self.text.len() - start);
        buf[..count].copy_from_slice(&self.text.as_slice()[start..start + count]);
        self.at = start + count;
        count
    }
}

impl Source for Generated {
    ghost use Rattle.std.specs.Prelude.{true};
    ghost use Rattle.outside.specs.Behind.{IsBehind, behind_nothing, behind_on};

    ghost tells = { true };

    ghost seen = { generated_seen };

    ghost keeps = { λ _ old new. IsBehind (generated_seen old).left (generated_seen new).left };

    ghost keeps_itself = { λ source. behind_nothing (generated_seen source).left };

    ghost keeps_on = { λ _ _ first between last. behind_on (generated_seen first).left (generated_seen between).left
        (generated_seen last).left };

    ghost keeps_any = { λ _ _ behind. behind };

    ghost keeps_behind = { λ _ _ _ behind _. behind };

    fn read(&mut self, buf: &mut [u8]) -> Result<usize, SourceFault> {
        if self.text.len() <= self.at {
            self.make_line();
        }
        Ok(self.take(buf))
    }
}

/// The number that a line is made of, where the line before was made of this one.
fn number_behind(x: u64, line: u32) -> u64
    ensures { result ≡ number_behind x line }
{
    if line % 10 == 0 { x } else { next_number(x) }
}

/// The number behind another one.
#[tactic(auto, unfolding(crate::specs::Generated::next_number))]
fn next_number(x: u64) -> u64
    ensures { result ≡ next_number x }
{
    x.wrapping_mul(6_364_136_223_846_793_005)
        .wrapping_add(1_442_695_040_888_963_407)
}

/// The first of the lines that say the same as this one.
fn first_alike(line: u32) -> u32
    ensures { result ≡ first_alike line }
{
    if line % 10 == 0 {
        line.saturating_sub(1)
    } else {
        line
    }
}

/// What a line says that repeats none and is made of this number.
fn row_made(x: u64, line: u32) -> Row
    ensures { result ≡ row_made x line }
{
    Row {
        owner: 1000 + (x / 8_589_934_592 % 5000) as u32,
        group: 100,
        device: 2049,
        inode: 1000 + u64::from(line),
        blocks: 8 * (x / 1_048_576 % 64),
    }
}

/// A row as a line, with its newline.
#[tactic(auto, unfolding(crate::specs::Generated::row_text))]
fn row_text(row: &Row) -> ArrayVec<u8, LINE>
    ensures { result.items ≡ row_text row.now ++ codes "\n" }
{
    let mut text = ArrayVec::new();
    push_number(&mut text, u64::from(row.owner), b' ');
    push_number(&mut text, u64::from(row.group), b' ');
    push_number(&mut text, row.device, b' ');
    push_number(&mut text, row.inode, b' ');
    push_number(&mut text, row.blocks, b'\n');
    text
}

/// Appends a number and a byte behind it.
fn push_number(text: &mut ArrayVec<u8, LINE>, number: u64, end: u8)
    requires { length text.old.items + 21 ≤ LINE }
    ensures text { text.new.items ≡ text.old.items ++ decimal number ++ end ∷ [] }
    ensures room { length text.new.items ≤ length text.old.items + 21 }
{
    let mut digits = Buffer::new();
    text.try_extend_from_slice(digits.format(number).as_bytes())
        .unwrap();
    text.push(end);
}
