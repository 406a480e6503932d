ghost use Rattle.std.specs.Prelude.{◌≡◌, ◌≤◌, IsTrue, length, is_ok, []};
ghost use Rattle.quota_pages.specs.Held.{pages_in};
ghost use Rattle.quota_pages.specs.Page.{are_distinct};

use crate::held_blocks::{Held, ROOM};
use crate::page_write::write_pages;
use file_blocks::{le32, read_block, set_le32};
use outside::{Store, StoreFault};

/// A buffer of up to twelve blocks of one file, of 1,024 bytes each. Bytes past the end of the file are 0.
#[derive(Drop)]
pub struct Pages {
    name: String,
    held: Held,
    // Each head has its block, no block is held twice, and twelve are at most.
    ghost beside: { length held.heads.items ≡ length held.blocks.items },
    ghost distinct: { IsTrue (are_distinct (pages_in held.heads.items held.blocks.items)) },
    ghost few: { length held.heads.items ≤ 12 },
}

#[tactic(auto, unfolding(crate::specs::Pages::name_of, crate::specs::Pages::pages_of))]
impl Pages {
    ghost use Rattle.std.specs.Prelude.{ℕ, ◌+◌, ◌<◌, Bool, List, [], true, false, is_some, IfSome, IsOk, IfOk, OnOk};
    ghost use Rattle.std.specs.Prelude.{OnErr, if◌then◌else◌, ◌∷◌, replicate};
    ghost use Rattle.std.specs.Borrow.{sem};
    ghost use Rattle.std.specs.String.{string_bytes};
    ghost use Rattle.outside.specs.Count.{Rose, counted};
    ghost use Rattle.outside.specs.Frame.{ChangesOne, OnlyReads};
    ghost use Rattle.outside.specs.Seen.{StoreSeen};
    ghost use Rattle.file_blocks.specs.Block.{block_of};
    ghost use Rattle.quota_pages.specs.Flushed.{IsPartlyFlushed, counted_by, flushed_files, flushed_names};
    ghost use Rattle.quota_pages.specs.Page.{HasRoomFor, IsClean, is_buffered, is_lent, is_some_lent, lent_count};
    ghost use Rattle.quota_pages.specs.Page.{shown};
    ghost use Rattle.quota_types.specs.Bytes.{number_at};
    ghost use Rattle.quota_pages.specs.Used.{HasWord, IsKnown, LendsSome, LooksAtSome, file_under, missing, shown_over};
    ghost use Rattle.quota_pages.specs.Pages.{EndsLent, EndsLookedAt, HasAt, HoldsAsBuffered, LooksAt, StaysAsItWas};
    ghost use Rattle.quota_pages.specs.Pages.{name_of, pages_of};

    /// An empty buffer over the file of this name.
    pub fn new(name: String) -> Self
        ensures name { name_of result ≡ string_bytes name }
        ensures empty { pages_of result ≡ [] }
    {
        Pages {
            name,
            held: Held::new(),
        }
    }

    /// The name of the file.
    pub fn name(&self) -> &str
        ensures { result.now ≡ name_of self.now }
    {
        self.name.as_str()
    }

    /// How many more blocks fit.
    pub fn spare(&self) -> usize
        ensures { result + length (pages_of self.now) ≡ 12 }
    {
        ROOM - self.held.count()
    }

    /// Lends block `n` for reading where it is buffered, and reads nothing.
    pub fn buffered(&self, n: u32) -> Option<&[u8; 1024]>
        ensures there { is_some result ≡ is_buffered (pages_of self.now) n }
        ensures block { IfSome result (λ block. (tells : Bool) (seen : StoreSeen) → IsKnown tells seen self.now
            → block.now ≡ block_of (shown_over seen self.now) n) }
    {
        let place = self.held.place_of(n)?;
        Some(self.held.block(place))
    }

    /// Lends block `n` for reading: the one that is buffered, or else the file's, which is buffered then.
    ///
    /// # Errors
    ///
    /// The store failed. The buffer is as before.
    pub fn peek<S: Store>(&mut self, store: &mut S, n: u32) -> Result<&[u8; 1024], StoreFault>
        requires { HasRoomFor (pages_of self.old) n }
        ensures* looked { sem 𝓛 (EndsLookedAt S.tells (file_under (S.seen store.old) self.old) n self.entry result) }
        ensures block { IfOk result (λ block. IsTrue S.tells
            → IsClean (pages_of self.old) (file_under (S.seen store.old) self.old)
            → block.now ≡ block_of (shown_over (S.seen store.old) self.old) n) }
        ensures lent { IfOk result (λ block. is_lent (pages_of self.old) n ≡ true
            → (file : List ℕ) → block.now ≡ block_of (shown (pages_of self.old) file) n) }
        ensures buffered { is_buffered (pages_of self.old) n ≡ true → (IsOk result) × (store.new ≡ store.old) }
        ensures reads { (S.seen store.new).reads ≡ (if is_buffered (pages_of self.old) n
            then (S.seen store.old).reads else counted (S.seen store.old).reads) }
        ensures cause { OnErr result (Rose (S.seen store.old).faults (S.seen store.new).faults) }
        ensures leaves { OnlyReads (is_ok result) (name_of self.old) (S.seen store.old) (S.seen store.new) }
        ensures commits { S.commits [] store.old store.new }
    {
        let place = self.bring(store, n)?;
        Ok(self.held.block(place))
    }

    /// Lends block `n` for writing: the one that is buffered, or else the file's, which is buffered then. `flush`
    /// writes what the caller leaves in it.
    ///
    /// # Errors
    ///
    /// The store failed. The buffer is as before.
    pub fn page<S: Store>(&mut self, store: &mut S, n: u32) -> Result<&mut [u8; 1024], StoreFault>
        requires { HasRoomFor (pages_of self.old) n }
        ensures* lends { sem 𝓛 (EndsLent S.tells (file_under (S.seen store.old) self.old) n self.entry result) }
        ensures block { IfOk result (λ block. IsTrue S.tells
            → IsClean (pages_of self.old) (file_under (S.seen store.old) self.old)
            → block.now ≡ block_of (shown_over (S.seen store.old) self.old) n) }
        ensures lent { IfOk result (λ block. is_lent (pages_of self.old) n ≡ true
            → (file : List ℕ) → block.now ≡ block_of (shown (pages_of self.old) file) n) }
        ensures buffered { is_buffered (pages_of self.old) n ≡ true → (IsOk result) × (store.new ≡ store.old) }
        ensures reads { (S.seen store.new).reads ≡ (if is_buffered (pages_of self.old) n
            then (S.seen store.old).reads else counted (S.seen store.old).reads) }
        ensures cause { OnErr result (Rose (S.seen store.old).faults (S.seen store.new).faults) }
        ensures leaves { OnlyReads (is_ok result) (name_of self.old) (S.seen store.old) (S.seen store.new) }
        ensures commits { S.commits [] store.old store.new }
    {
        let place = self.bring(store, n)?;
        Ok(self.held.lend(place))
    }

    /// The number of four bytes at byte `at` of block `n`, which is buffered then.
    ///
    /// # Errors
    ///
    /// The store failed. The buffer shows what it showed.
    pub fn word<S: Store>(&mut self, store: &mut S, n: u32, at: usize) -> Result<u32, StoreFault>
        requires word { at + 4 ≤ 1024 }
        requires room { HasRoomFor (pages_of self.old) n }
        ensures value { IfOk result (λ value. IsKnown S.tells (S.seen store.old) self.old
            → value ≡ number_at 4 (block_of (shown_over (S.seen store.old) self.old) n) at) }
        ensures held { IfOk result (λ value. HoldsAsBuffered self.new
            (λ shown. value ≡ number_at 4 (block_of shown n) at)) }
        ensures looked { LooksAtSome S.tells (is_ok result) (missing (pages_of self.old) n)
            (S.seen store.old) (S.seen store.new) self.old self.new }
        ensures brought { OnOk result (is_buffered (pages_of self.new) n ≡ true) }
        ensures buffered { is_buffered (pages_of self.old) n ≡ true → (IsOk result) × (store.new ≡ store.old) }
        ensures cause { OnErr result (Rose (S.seen store.old).faults (S.seen store.new).faults) }
        ensures commits { S.commits [] store.old store.new }
    {
        let block = self.peek(store, n)?;
        Ok(le32(block, at))
    }

    /// Writes a number of four bytes at byte `at` of block `n`. All its other bytes stay.
    ///
    /// # Errors
    ///
    /// The store failed. The buffer shows what it showed.
    pub fn set_word<S: Store>(
        &mut self,
        store: &mut S,
        n: u32,
        at: usize,
        value: u32,
    ) -> Result<(), StoreFault>
        requires word { at + 4 ≤ 1024 }
        requires room { HasRoomFor (pages_of self.old) n }
        ensures set { OnOk result (IsKnown S.tells (S.seen store.old) self.old
            → HasWord n at value (shown_over (S.seen store.old) self.old) (shown_over (S.seen store.new) self.new)) }
        ensures lends { OnOk result (LendsSome S.tells true (missing (pages_of self.old) n) (n ∷ [])
            (S.seen store.old) (S.seen store.new) self.old self.new) }
        ensures kept { OnErr result (LooksAtSome S.tells false (missing (pages_of self.old) n)
            (S.seen store.old) (S.seen store.new) self.old self.new) }
        ensures marked { OnOk result (is_lent (pages_of self.new) n ≡ true) }
        ensures brought { OnOk result (is_buffered (pages_of self.new) n ≡ true) }
        ensures buffered { is_buffered (pages_of self.old) n ≡ true → (IsOk result) × (store.new ≡ store.old) }
        ensures cause { OnErr result (Rose (S.seen store.old).faults (S.seen store.new).faults) }
        ensures commits { S.commits [] store.old store.new }
    {
        let block = self.page(store, n)?;
        set_le32(block, at, value);
        Ok(())
    }

    /// Makes each byte of block `n` 0.
    ///
    /// # Errors
    ///
    /// The store failed. The buffer shows what it showed.
    pub fn blank<S: Store>(&mut self, store: &mut S, n: u32) -> Result<(), StoreFault>
        requires { HasRoomFor (pages_of self.old) n }
        ensures blank { OnOk result (IsKnown S.tells (S.seen store.old) self.old
            → block_of (shown_over (S.seen store.new) self.new) n ≡ replicate 1024 0) }
        ensures lends { OnOk result (LendsSome S.tells true (missing (pages_of self.old) n) (n ∷ [])
            (S.seen store.old) (S.seen store.new) self.old self.new) }
        ensures kept { OnErr result (LooksAtSome S.tells false (missing (pages_of self.old) n)
            (S.seen store.old) (S.seen store.new) self.old self.new) }
        ensures marked { OnOk result (is_lent (pages_of self.new) n ≡ true) }
        ensures brought { OnOk result (is_buffered (pages_of self.new) n ≡ true) }
        ensures buffered { is_buffered (pages_of self.old) n ≡ true → (IsOk result) × (store.new ≡ store.old) }
        ensures cause { OnErr result (Rose (S.seen store.old).faults (S.seen store.new).faults) }
        ensures commits { S.commits [] store.old store.new }
    {
        self.page(store, n)?.fill(0);
        Ok(())
    }

    /// Writes each block that was lent for writing, and empties the buffer.
    ///
    /// # Errors
    ///
    /// The store failed. The buffer is as before, and each block that was lent is the old or the new one in the file.
    pub fn flush<S: Store>(&mut self, store: &mut S) -> Result<(), StoreFault>
        ensures flushed { OnOk result (IsTrue S.tells → (S.seen store.new).files
            ≡ flushed_files (S.seen store.old).files (name_of self.old) (pages_of self.old)) }
        ensures fault { OnErr result (IsTrue S.tells
            → IsPartlyFlushed (name_of self.old) (pages_of self.old) (S.seen store.old).files
            (S.seen store.new).files) }
        ensures cause { OnErr result (Rose (S.seen store.old).faults (S.seen store.new).faults) }
        ensures writes { OnOk result ((S.seen store.new).writes
            ≡ counted_by (S.seen store.old).writes (lent_count (pages_of self.old))) }
        ensures rose { OnErr result (Rose (S.seen store.old).writes (S.seen store.new).writes) }
        ensures tried { OnErr result ((S.seen store.new).writes
            ≤ (S.seen store.old).writes + lent_count (pages_of self.old)) }
        ensures unsynced { OnOk result (IsTrue S.tells → (S.seen store.new).unsynced
            ≡ flushed_names (S.seen store.old).unsynced (name_of self.old) (pages_of self.old)) }
        ensures idle { is_some_lent (pages_of self.old) ≡ false → (IsOk result) × (store.new ≡ store.old) }
        ensures leaves { ChangesOne (name_of self.old) (S.seen store.old) (S.seen store.new) }
        ensures name { name_of self.new ≡ name_of self.old }
        ensures empty { OnOk result (pages_of self.new ≡ []) }
        ensures kept { OnErr result (pages_of self.new ≡ pages_of self.old) }
        ensures commits { S.commits [] store.old store.new }
    {
        write_pages(store, self.name.as_str(), &self.held)?;
        self.clear();
        Ok(())
    }

    /// Empties the buffer, and writes nothing.
    pub fn clear(&mut self)
        ensures name { name_of self.new ≡ name_of self.old }
        ensures empty { pages_of self.new ≡ [] }
    {
        self.held.clear();
    }

    /// The place of block `number`, which is read from the file where it is not buffered.
    fn bring<S: Store>(&mut self, store: &mut S, number: u32) -> Result<usize, StoreFault>
        requires { HasRoomFor (pages_of self.old) number }
        ensures place { IfOk result (λ place. HasAt place number self.new) }
        ensures looked { OnOk result
            (LooksAt S.tells (file_under (S.seen store.old) self.old) number self.old self.new) }
        ensures kept { OnErr result (StaysAsItWas self.old self.new) }
        ensures buffered { is_buffered (pages_of self.old) number ≡ true → (IsOk result) × (store.new ≡ store.old) }
        ensures reads { (S.seen store.new).reads ≡ (if is_buffered (pages_of self.old) number
            then (S.seen store.old).reads else counted (S.seen store.old).reads) }
        ensures cause { OnErr result (Rose (S.seen store.old).faults (S.seen store.new).faults) }
        ensures leaves { OnlyReads (is_ok result) (name_of self.old) (S.seen store.old) (S.seen store.new) }
        ensures commits { S.commits [] store.old store.new }
    {
        match self.held.place_of(number) {
            Some(place) => Ok(place),
            None => self.read_in(store, number),
        }
    }

    /// Reads block `number` from the file, and answers its place.
    fn read_in<S: Store>(&mut self, store: &mut S, number: u32) -> Result<usize, StoreFault>
        requires room { length (pages_of self.old) < 12 }
        requires absent { is_buffered (pages_of self.old) number ≡ false }
        ensures place { IfOk result (λ place. HasAt place number self.new) }
        ensures looked { OnOk result
            (LooksAt S.tells (file_under (S.seen store.old) self.old) number self.old self.new) }
        ensures kept { OnErr result (StaysAsItWas self.old self.new) }
        ensures reads { (S.seen store.new).reads ≡ counted (S.seen store.old).reads }
        ensures cause { OnErr result (Rose (S.seen store.old).faults (S.seen store.new).faults) }
        ensures leaves { OnlyReads (is_ok result) (name_of self.old) (S.seen store.old) (S.seen store.new) }
        ensures commits { S.commits [] store.old store.new }
    {
        let mut block = [0; 1024];
        read_block(store, self.name.as_str(), number, &mut block)?;
        let place = self.held.count();
        self.held.push(number, block);
        Ok(place)
    }
}
