ghost use Rattle.std.specs.Prelude.{◌==◌, position, ◌≡◌, ◌<◌, ◌≤◌, [], ◌∷◌, ◌++◌, length, true, false, MatchOption};
ghost use Rattle.std.specs.Prelude.{slice_index_or};
ghost use Rattle.std.specs.Borrow.{sem};
ghost use Rattle.arrayvec.specs.ArrayVec.{array_vec_len, with_item};

use arrayvec::ArrayVec;

/// How many blocks can be held.
pub(crate) const ROOM: usize = 12;

/// Which block of its file a held block is, and whether it was lent for writing.
#[derive(Clone, Copy, Default)]
pub(crate) struct PageHead {
    pub number: u32,
    pub lent: bool,
}

/// Blocks beside their heads.
#[derive(Drop)]
pub(crate) struct Held {
    heads: ArrayVec<PageHead, ROOM>,
    blocks: ArrayVec<[u8; 1024], ROOM>,
}

impl Held {
    ghost use Rattle.quota_pages.specs.Held.{LendsBlock, lent_head, pages_in};
    ghost use Rattle.quota_pages.specs.Page.{is_buffered};

    pub(crate) fn new() -> Self
        ensures heads { result.heads.items ≡ [] }
        ensures blocks { result.blocks.items ≡ [] }
    {
        Held {
            heads: ArrayVec::new(),
            blocks: ArrayVec::new(),
        }
    }

    /// How many blocks are held.
    pub(crate) fn count(&self) -> usize
        ensures value { result ≡ array_vec_len self.now.heads }
        ensures fits { result ≤ 12 }
    {
        self.heads.len()
    }

    /// The head at a place.
    pub(crate) fn head(&self, place: usize) -> PageHead
        requires { place < array_vec_len self.now.heads }
        ensures { result ≡ slice_index_or self.now.heads.items place result }
    {
        self.heads.as_slice()[place]
    }

    /// The block at a place.
    pub(crate) fn block(&self, place: usize) -> &[u8; 1024]
        requires { place < array_vec_len self.now.blocks }
        ensures value { result.now ≡ slice_index_or self.now.blocks.items place result.now }
        ensures whole { length result.now ≡ 1024 }
    {
        whole(&self.blocks.as_slice()[place])
    }

    /// The place of the block of this number.
    pub(crate) fn place_of(&self, number: u32) -> Option<usize>
        requires { array_vec_len self.now.heads ≡ array_vec_len self.now.blocks }
        ensures { MatchOption result
            (is_buffered (pages_in self.now.heads.items self.now.blocks.items) number ≡ false)
            (λ place. (place < array_vec_len self.now.heads)
            × ((slice_index_or self.now.heads.items place (record { number = 0; lent = false })).number ≡ number)) }
    {
        place_in(self.heads.as_slice(), number)
    }

    /// Holds one more block, which has not been lent for writing.
    pub(crate) fn push(&mut self, number: u32, block: [u8; 1024])
        requires heads { array_vec_len self.old.heads < 12 }
        requires blocks { array_vec_len self.old.blocks < 12 }
        ensures heads { self.new.heads.items ≡ self.old.heads.items ++ record { number = number; lent = false } ∷ [] }
        ensures blocks { self.new.blocks.items ≡ self.old.blocks.items ++ block ∷ [] }
    {
        self.heads.push(PageHead {
            number,
            lent: false,
        });
        self.blocks.push(block);
    }

    /// Lends the block at a place for writing.
    pub(crate) fn lend(&mut self, place: usize) -> &mut [u8; 1024]
        requires heads { place < array_vec_len self.old.heads }
        requires blocks { place < array_vec_len self.old.blocks }
        ensures* lends { sem 𝓛 (LendsBlock self.entry place result) }
        ensures value { result.now ≡ slice_index_or self.old.blocks.items place result.now }
        ensures whole { length result.now ≡ 1024 }
    {
        // That an element of a vector is a whole block is known where it is lent for reading.
        let len = self.block(place).len();
        prove_eq!(len, 1024);
        self.mark(place);
        match self.blocks.get_mut(place) {
            Some(block) => block,
            None => unreachable!(),
        }
    }

    /// Marks the block at a place as lent for writing.
    fn mark(&mut self, place: usize)
        requires { place < array_vec_len self.old.heads }
        ensures heads { self.new.heads ≡ with_item self.old.heads place
            (lent_head (slice_index_or self.old.heads.items place (record { number = 0; lent = true }))) }
        ensures blocks { self.new.blocks ≡ self.old.blocks }
    {
        if let Some(head) = self.heads.get_mut(place) {
            head.lent = true;
        }
    }

    /// Holds no block any more.
    pub(crate) fn clear(&mut self)
        ensures heads { self.new.heads.items ≡ [] }
        ensures blocks { self.new.blocks.items ≡ [] }
    {
        self.heads.clear();
        self.blocks.clear();
    }
}

/// The place of the first head of this number.
fn place_in(heads: &[PageHead], number: u32) -> Option<usize>
    ensures { result ≡ position (λ head. head.number == number) heads.now }
{
    heads.iter().position(|head| head.number == number)
}

/// The block itself, of which its length is known.
fn whole(block: &[u8; 1024]) -> &[u8; 1024]
    ensures value { result.now ≡ block.now }
    ensures whole { length result.now ≡ 1024 }
{
    block
}
