ghost use Rattle.std.specs.Prelude.{◌≡◌, ℕ, ◌+◌, ◌<◌, ◌≤◌, ◌++◌, [], length, max, take, drop, replicate, decimal};
ghost use Rattle.std.specs.Prelude.{IsTrue, OnOk, OnErr};
ghost use Rattle.outside.specs.Count.{Rose};
ghost use Rattle.outside.specs.Text.{AppendsPrefix};
ghost use Rattle.outside.specs.Gathering.{Gathers, WritesPrefix};
ghost use Rattle.report_text.specs.Report.{left_in, column};

use itoa::{Buffer, write_digits};
use outside::{Sink, SinkFault};
use std::marker::Model;

/// How many bytes are gathered at most.
pub(crate) const CAPACITY: usize = 16_384;

/// The text of a report, which is made where it is gathered, and written when there is no room for more of it. It takes
/// no memory of the heap. After a fault it is not used again.
///
/// A place is one byte, and a text that is longer than its places widens the column. Behind what is gathered the bytes
/// are spaces, so that a space is appended by counting it.
#[derive(Debug, Drop)]
pub(crate) struct Page {
    bytes: [u8; CAPACITY],
    len: usize,
}

impl Model for Page {
    ghost use Rattle.std.specs.Prelude.{◌≡◌, ◌-◌, ◌≤◌, ℕ, List, take, drop, replicate};
    ghost use Rattle.report_text.specs.declared.page.TheConstants.{CAPACITY};

    ghost Value = { List ℕ };

    ghost view = { λ p. take p.len p.bytes };

    ghost invariant = { λ p. (p.len ≤ CAPACITY) × (drop p.len p.bytes ≡ replicate (CAPACITY - p.len) 32) };
}

impl Page {
    /// Nothing is gathered.
    pub fn new() -> Self
        ensures { result ≡ [] }
    {
        Page {
            bytes: [b' '; CAPACITY],
            len: 0,
        }
    }

    /// Makes room for `count` bytes: the sink gets what was gathered before where there is none.
    ///
    /// # Errors
    ///
    /// The sink failed.
    pub fn make_room<O: Sink>(&mut self, sink: &mut O, count: usize) -> Result<(), SinkFault>
        requires { count ≤ CAPACITY }
        ensures ok { OnOk result (Gathers O.tells (O.seen sink.old).written self.old (O.seen sink.new).written self.new
            []) }
        ensures room { OnOk result (length self.new + count ≤ CAPACITY) }
        ensures fault { OnErr result (WritesPrefix O.tells (O.seen sink.old).written self.old (O.seen sink.new).written
            []) }
        ensures cause { OnErr result (Rose (O.seen sink.old).faults (O.seen sink.new).faults) }
        ensures later { (O.seen sink.old).faults ≤ (O.seen sink.new).faults }
    {
        if count > CAPACITY - self.len {
            self.flush(sink)?;
        }
        Ok(())
    }

    /// Gathers more text. The sink gets what was gathered before where there is no room for it.
    ///
    /// # Errors
    ///
    /// The sink failed.
    pub fn put<O: Sink>(&mut self, sink: &mut O, text: &[u8]) -> Result<(), SinkFault>
        ensures ok { OnOk result (Gathers O.tells (O.seen sink.old).written self.old (O.seen sink.new).written self.new
            text.now) }
        ensures fault { OnErr result (WritesPrefix O.tells (O.seen sink.old).written self.old (O.seen sink.new).written
            text.now) }
        ensures cause { OnErr result (Rose (O.seen sink.old).faults (O.seen sink.new).faults) }
        ensures later { (O.seen sink.old).faults ≤ (O.seen sink.new).faults }
    {
        if text.len() > CAPACITY {
            self.flush(sink)?;
            return sink.write(text);
        }
        self.make_room(sink, text.len())?;
        self.push_text(text);
        Ok(())
    }

    /// Writes what is gathered.
    ///
    /// # Errors
    ///
    /// The sink failed.
    pub fn flush<O: Sink>(&mut self, sink: &mut O) -> Result<(), SinkFault>
        ensures ok { OnOk result (IsTrue O.tells → (O.seen sink.new).written ≡ (O.seen sink.old).written ++ self.old) }
        ensures fault { OnErr result (IsTrue O.tells
            → AppendsPrefix (O.seen sink.old).written (O.seen sink.new).written self.old) }
        ensures empty { OnOk result (self.new ≡ []) }
        ensures cause { OnErr result (Rose (O.seen sink.old).faults (O.seen sink.new).faults) }
        ensures later { (O.seen sink.old).faults ≤ (O.seen sink.new).faults }
    {
        if self.len > 0 {
            sink.write(&self.bytes[..self.len])?;
            self.clear();
        }
        Ok(())
    }

    /// Lets go of what is gathered.
    fn clear(&mut self)
        ensures { self.new ≡ [] }
    {
        self.bytes[..self.len].fill(b' ');
        self.len = 0;
    }

    /// Appends a text.
    pub fn push_text(&mut self, text: &[u8])
        requires { length self.old + length text.now ≤ CAPACITY }
        ensures { self.new ≡ self.old ++ text.now }
    {
        write_at(&mut self.bytes, self.len, text);
        self.len += text.len();
    }

    /// Appends `count` spaces.
    pub fn push_spaces(&mut self, count: usize)
        requires { length self.old + count ≤ CAPACITY }
        ensures { self.new ≡ self.old ++ replicate count 32 }
    {
        self.len += count;
    }

    /// Appends a byte `count` times.
    pub fn push_repeated(&mut self, count: usize, byte: u8)
        requires { length self.old + count ≤ CAPACITY }
        ensures { self.new ≡ self.old ++ replicate count byte }
    {
        for _i in 0..count {
            self.push_text(&[byte]);
        }
    }

    /// Appends a text at the left of `width` places.
    pub fn push_left(&mut self, width: usize, text: &[u8])
        requires { length self.old + max width (length text.now) ≤ CAPACITY }
        ensures text { self.new ≡ self.old ++ left_in width text.now }
        ensures long { length self.new ≡ length self.old + max width (length text.now) }
    {
        self.push_text(text);
        self.push_spaces(width.saturating_sub(text.len()));
    }

    /// Appends a space and a text at the right of `width` places.
    pub fn push_column(&mut self, width: usize, text: &[u8])
        requires { length self.old + 1 + max width (length text.now) ≤ CAPACITY }
        ensures text { self.new ≡ self.old ++ column width text.now }
        ensures long { length self.new ≡ length self.old + 1 + max width (length text.now) }
    {
        self.push_spaces(1);
        self.push_spaces(width.saturating_sub(text.len()));
        self.push_text(text);
    }

    /// Appends a number at the left of `width` places.
    pub fn push_left_number(&mut self, width: usize, number: u32)
        requires { length self.old + max width 10 ≤ CAPACITY }
        ensures text { self.new ≡ self.old ++ left_in width (decimal number) }
        ensures long { length self.new ≤ length self.old + max width 10 }
    {
        let count = count_digits(number);
        write_digits(u64::from(number), &mut self.bytes, self.len + count);
        self.len += count.max(width);
    }

    /// Appends a space and a number at the right of `width` places.
    pub fn push_number(&mut self, width: usize, number: u64)
        requires { length self.old + 1 + max width 20 ≤ CAPACITY }
        ensures text { self.new ≡ self.old ++ column width (decimal number) }
        ensures long { length self.new ≤ length self.old + 1 + max width 20 }
    {
        if number < first_wider(width) {
            self.push_narrow(width, number);
        } else {
            let mut digits = Buffer::new();
            self.push_column(width, digits.format(number).as_bytes());
        }
    }

    /// Appends a space and a number that has no more digits than there are places.
    fn push_narrow(&mut self, width: usize, number: u64)
        requires narrow { length (decimal number) ≤ width }
        requires room { length self.old + 1 + width ≤ CAPACITY }
        ensures text { self.new ≡ self.old ++ column width (decimal number) }
        ensures long { length self.new ≡ length self.old + 1 + width }
    {
        let end = self.len + 1 + width;
        write_digits(number, &mut self.bytes, end);
        self.len = end;
    }
}

/// Writes a text over the bytes from a place on.
fn write_at(bytes: &mut [u8], at: usize, text: &[u8])
    requires { at + length text.now ≤ length bytes.old }
    ensures text { take (at + length text.now) bytes.new ≡ take at bytes.old ++ text.now }
    ensures rest { drop (at + length text.now) bytes.new ≡ drop (at + length text.now) bytes.old }
{
    bytes[at..at + text.len()].copy_from_slice(text);
}

/// How many digits a number has.
fn count_digits(number: u32) -> usize
    ensures digits { result ≡ length (decimal number) }
    ensures few { result ≤ 10 }
{
    match number {
        0..=9 => 1,
        10..=99 => 2,
        _ => 2 + count_digits(number / 100),
    }
}

/// The first number that has more digits than there are places in a column of numbers, or one before it.
fn first_wider(width: usize) -> u64
    ensures { (number : ℕ) → number < result → length (decimal number) ≤ width }
{
    match width {
        8 => 100_000_000,
        10 => 10_000_000_000,
        _ => 0,
    }
}
