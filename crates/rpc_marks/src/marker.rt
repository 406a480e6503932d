ghost use Rattle.std.specs.Prelude.{◌≡◌, ◌≤◌, ◌+◌, length};
ghost use Rattle.rpc_marks.specs.Records.{body_len, front_of, head_of, is_last};

use crate::Step;
use arrayvec::ArrayVec;

/// The most bytes of a record.
const MOST_BODY: usize = 4096;

/// The bytes of the head of a fragment.
const HEAD: usize = 4;

/// The bit of a head that marks the last fragment of a record.
const LAST: u32 = 0x8000_0000;

/// What was taken of the record at hand: the bodies of its fragments, and the head of the one at hand.
#[derive(Drop)]
pub struct Marker {
    body: ArrayVec<u8, 4096>,
    /// The head of the fragment at hand, as far as it was taken.
    head: ArrayVec<u8, 4>,
    /// How many bytes of the body of this fragment are to come, once its head was taken: none behind the end of a
    /// record.
    left: usize,
    ghost room: { length body.items + left ≤ 4096 },
}

impl Marker {
    ghost use Rattle.std.specs.Prelude.{◌<◌, ◌∷◌, [], List, ℕ, take};
    ghost use Rattle.rpc_marks.specs.Marker.{IsFed, Leads, Takes, body_of, front_at, front_in_body};
    ghost use Rattle.rpc_marks.specs.declared.step.Step.TheVariants.{More, Whole};

    /// A marker at the start of a stream.
    pub fn new() -> Self
        ensures { (bytes : List ℕ) → front_at result bytes ≡ front_of bytes }
    {
        Marker {
            body: ArrayVec::new(),
            head: ArrayVec::new(),
            left: 0,
        }
    }

    /// Takes bytes of a piece up to the end of the first record, and answers how many, and how the marker stands then.
    /// The next bytes that it is fed are those behind them, in whatever pieces. It isn't used again once a record is
    /// too long.
    pub fn feed(&mut self, piece: &[u8]) -> (usize, Step)
        // The answer and the record are those of what stands at the front.
        ensures fed { IsFed (front_at self.old piece.now) piece.now result.0 (body_of self.new) result.1 }
        // What was taken stands for the same in front of whatever comes behind it.
        ensures takes { Takes (take result.0 piece.now) self.old self.new result.1 }
        // Behind a record begins another one.
        ensures anew { result.1 ≡ Whole → (bytes : List ℕ) → front_at self.new bytes ≡ front_of bytes }
        ensures within { result.0 ≤ length piece.now }
        ensures some { 0 < length piece.now → 0 < result.0 }
    {
        for (place, byte) in piece.iter().enumerate() {
            match self.take(*byte) {
                Step::More => {}
                step => return (place + 1, step),
            }
        }
        (piece.len(), Step::More)
    }

    /// The record that ended, behind a step that is `Whole`.
    pub fn body(&self) -> &[u8]
        ensures { result.now ≡ body_of self.now }
    {
        self.body.as_slice()
    }

    /// Takes a byte.
    fn take(&mut self, byte: u8) -> Step
        ensures takes { Takes (byte ∷ []) self.old self.new result }
        ensures anew { result ≡ Whole → (bytes : List ℕ) → front_at self.new bytes ≡ front_of bytes }
    {
        self.begin();
        if self.head.len() < HEAD {
            self.take_of_head(byte)
        } else {
            self.take_of_body(byte)
        }
    }

    /// Begins a record, where one has ended.
    fn begin(&mut self)
        ensures same { (bytes : List ℕ) → front_at self.new bytes ≡ front_at self.old bytes }
        ensures ready { 4 ≤ length self.new.head.items → 0 < self.new.left }
    {
        if self.head.len() >= HEAD && self.left == 0 {
            self.body.clear();
            self.head.clear();
        }
    }

    /// Takes a byte of the head of a fragment.
    fn take_of_head(&mut self, byte: u8) -> Step
        requires { length self.old.head.items < 4 }
        ensures takes { Takes (byte ∷ []) self.old self.new result }
        ensures anew { result ≡ Whole → (bytes : List ℕ) → front_at self.new bytes ≡ front_of bytes }
    {
        self.head.push(byte);
        if self.head.len() < HEAD {
            return Step::More;
        }
        let len = body_len(self.head.as_slice());
        if len > MOST_BODY - self.body.len() {
            return Step::TooLong;
        }
        self.left = len;
        self.end_fragment()
    }

    /// Takes a byte of the body of a fragment.
    fn take_of_body(&mut self, byte: u8) -> Step
        requires head { 4 ≤ length self.old.head.items }
        requires some { 0 < self.old.left }
        ensures takes { Takes (byte ∷ []) self.old self.new result }
        ensures anew { result ≡ Whole → (bytes : List ℕ) → front_at self.new bytes ≡ front_of bytes }
    {
        self.body.push(byte);
        self.left -= 1;
        self.end_fragment()
    }

    /// Ends the fragment at hand, where no byte of it is to come, and with the last one the record.
    fn end_fragment(&mut self) -> Step
        requires { 4 ≤ length self.old.head.items }
        ensures leads { Leads (front_in_body (body_of self.old) (is_last self.old.head.items) self.old.left)
            self.new result }
        ensures anew { result ≡ Whole → (bytes : List ℕ) → front_at self.new bytes ≡ front_of bytes }
    {
        if self.left > 0 {
            return Step::More;
        }
        if is_last(self.head.as_slice()) {
            return Step::Whole;
        }
        self.head.clear();
        Step::More
    }
}

/// The number of the head at the front of a fragment.
fn number_of(fragment: &[u8]) -> u32
    requires { 4 ≤ length fragment.now }
    ensures { result ≡ head_of fragment.now }
{
    u32::from_be_bytes([fragment[0], fragment[1], fragment[2], fragment[3]])
}

/// How many bytes the body of a fragment has.
fn body_len(fragment: &[u8]) -> usize
    requires { 4 ≤ length fragment.now }
    ensures { result ≡ body_len fragment.now }
{
    (number_of(fragment) % LAST) as usize
}

/// Whether a fragment is the last one of its record.
fn is_last(fragment: &[u8]) -> bool
    requires { 4 ≤ length fragment.now }
    ensures { result ≡ is_last fragment.now }
{
    number_of(fragment) >= LAST
}
