ghost use Rattle.std.specs.Prelude.{◌≡◌, ◌/◌, ◌%◌, ◌*◌, ◌^◌, ◌<◌, ℕ, Bool, suc, List, [], ◌∷◌, None, Some, IfNone};
ghost use Rattle.std.specs.Prelude.{IfSome};
ghost use Rattle.quota_types.specs.Bytes.{number_at};
ghost use Rattle.quota_types.specs.Format.{IsTreeFormat};
ghost use Rattle.quota_types.specs.Kept.{IsKept};
ghost use Rattle.quota_types.specs.declared.file_kind.Format.{Format};
ghost use Rattle.file_blocks.specs.Block.{block_of};
ghost use Rattle.quota_types.specs.Ids.{IsAfter};
ghost use Rattle.quota_value.specs.QuotaValue.{QuotaValue, Records};
ghost use Rattle.quota_value.specs.NextRecord.{IsNextAfter};
ghost use Rattle.outside.specs.Seen.{StoreSeen};
ghost use Rattle.entry_codec.specs.Header.{header_of};
ghost use Rattle.entry_codec.specs.Spelling.{AreOf};
ghost use Rattle.entry_codec.specs.declared.header.Header.{Header};
ghost use Rattle.quota_pages.specs.Used.{IsKnown, shown_over};
ghost use Rattle.quota_radix.specs.Descent.{leaf_block};
ghost use Rattle.quota_radix.specs.OnWay.{led_by};
ghost use Rattle.tree_meaning.specs.TreeFile.{TreeStandsFor};
ghost use Rattle.tree_file.specs.Coming.{FitsComing, HoldsComing, LeadsTo, StandsBy, left_of};

use arrayvec::ArrayVec;
use quota_pages::Pages;
use quota_radix::{TreePath, digits, level_ref};
use quota_types::{Entry, Format, Rec};
use tree_meaning::find_near;

/// How many entries are kept at most: as many as fit in a data block.
const MOST: usize = 21;

/// The block at which each way down the tree begins.
const ROOT: u32 = 1;

/// The entries that come after the one that was answered last, as far as they were found beside it.
#[derive(Drop)]
pub(crate) struct Coming {
    /// The identifier that was answered last.
    after: u32,
    /// The identifiers that were found behind it, ascending, each with its record.
    found: ArrayVec<(u32, Rec), MOST>,
    /// How many of them were taken.
    taken: usize,
}

impl Coming {
    /// None are known.
    pub(crate) fn none() -> Coming
        ensures nothing { left_of result ≡ [] }
        ensures holds { (records : Records) → HoldsComing records result }
        ensures fits { (format : Format) → FitsComing format result }
    {
        Coming {
            after: 0,
            found: ArrayVec::new(),
            taken: 0,
        }
    }

    /// The entry that comes after an identifier, where it is known: it is taken.
    pub(crate) fn next(&mut self, after: u32) -> Option<Entry>
        ensures taken { IfSome result (λ entry. (self.old.after ≡ after)
            × (left_of self.old ≡ (entry.id, entry.rec) ∷ left_of self.new) × (self.new.after ≡ entry.id)) }
        ensures same { IfNone result (self.new ≡ self.old) }
        ensures unknown { IfNone result (self.old.after ≡ after → left_of self.old ≡ []) }
        ensures holds { IfSome result (λ entry. (records : Records) → HoldsComing records self.old
            → IsNextAfter (Some after) records (Some entry) × HoldsComing records self.new) }
        ensures fits { IfSome result (λ entry. (format : Format) → FitsComing format self.old
            → (after < entry.id) × (entry.id < 2 ^ 32) × IsKept format entry.id entry.rec
            × FitsComing format self.new) }
    {
        if after != self.after {
            return None;
        }
        let (id, rec) = *self.found.as_slice().get(self.taken)?;
        self.taken += 1;
        self.after = id;
        Some(Entry { id, rec })
    }

    /// The same, of the first of all where there is no `after`: that is not known.
    pub(crate) fn next_after(&mut self, after: Option<u32>) -> Option<Entry>
        ensures same { IfNone result (self.new ≡ self.old) }
        ensures holds { IfSome result (λ entry. (records : Records) → HoldsComing records self.old
            → IsNextAfter after records (Some entry) × HoldsComing records self.new) }
        ensures fits { IfSome result (λ entry. (format : Format) → FitsComing format self.old
            → IsAfter after entry.id × (entry.id < 2 ^ 32) × IsKept format entry.id entry.rec
            × FitsComing format self.new) }
    {
        self.next(after?)
    }

    /// The entries that follow the leaf of an identifier, which was just found, as far as the blocks that are buffered
    /// have them: those whose references stand in the same block of the tree, and name the same data block. Nothing is
    /// read. None between two of them is left out, but fewer may be found than are there.
    pub(crate) fn beside(pages: &Pages, format: Format, blocks: u32, leaf: TreePath) -> Coming
        requires { IsTreeFormat format }
        ensures fits { FitsComing format result }
        ensures next { (tells : Bool) (seen : StoreSeen) (header : Header) (value : QuotaValue)
            → IsKnown tells seen pages.now → AreOf header (header_of (shown_over seen pages.now))
            → header.format ≡ format → header.blocks ≡ blocks → TreeStandsFor (shown_over seen pages.now) value
            → leaf_block (shown_over seen pages.now) blocks leaf.number ≡ Some leaf.block
            → HoldsComing value.records result }
    {
        let Some(lowest) = lowest_block(pages, blocks, leaf.number) else {
            return Coming::none();
        };
        let Some(data_block) = pages.buffered(leaf.block) else {
            return Coming::none();
        };
        gathered(format, lowest, data_block, leaf)
    }
}

/// The block of the lowest level of the tree on the way of an identifier, where that and those above it are buffered.
fn lowest_block(pages: &Pages, blocks: u32, id: u32) -> Option<&[u8; 1024]>
    ensures { IfSome result (λ lowest. (tells : Bool) (seen : StoreSeen) → IsKnown tells seen pages.now
        → LeadsTo (shown_over seen pages.now) blocks 3 (id / 256) lowest.now) }
{
    let [first, second, third, _] = digits(id);
    let root = pages.buffered(ROOT)?;
    let block = block_below(pages, blocks, root, first)?;
    let block = block_below(pages, blocks, block, second)?;
    block_below(pages, blocks, block, third)
}

/// The block to which a digit leads from a block of the tree, where it is buffered.
fn block_below<'a>(
    pages: &'a Pages,
    blocks: u32,
    block: &[u8; 1024],
    digit: u8,
) -> Option<&'a [u8; 1024]>
    ensures { IfSome result
        (λ below. (tells : Bool) (seen : StoreSeen) (digits number : ℕ) → IsKnown tells seen pages.now
        → number % 256 ≡ digit → LeadsTo (shown_over seen pages.now) blocks digits (number / 256) block.now
        → LeadsTo (shown_over seen pages.now) blocks (suc digits) number below.now) }
{
    pages.buffered(led_from(block, blocks, digit)?)
}

/// The block to which a digit leads from a block of the tree, or None where it leads nowhere in a file of this many
/// blocks.
fn led_from(block: &[u8; 1024], blocks: u32, digit: u8) -> Option<u32>
    ensures { (file : List ℕ) (number : ℕ) → block.now ≡ block_of file number
        → result ≡ led_by file blocks digit number }
{
    let led = level_ref(block, digit);
    if led == 0 || led >= blocks {
        None
    } else {
        Some(led)
    }
}

/// The entries that follow a leaf, found in the block of the lowest level that has its reference, and in its data
/// block.
fn gathered(format: Format, lowest: &[u8; 1024], data_block: &[u8; 1024], leaf: TreePath) -> Coming
    requires { IsTreeFormat format }
    ensures fits { FitsComing format result }
    ensures next { (value : QuotaValue)
        → StandsBy format lowest.now data_block.now (leaf.number / 256) leaf.block value
        → HoldsComing value.records result }
{
    let mut found = ArrayVec::new();
    let mut last = leaf.number;
    let mut near = 0;
    'gather: while found.len() < MOST {
        let Some(entry) = entry_behind(format, lowest, data_block, leaf.block, last, &mut near)
        else {
            break;
        };
        found.push((entry.id, entry.rec));
        last = entry.id;
    }
    Coming {
        after: leaf.number,
        found,
        taken: 0,
    }
}

/// The entry that follows an identifier, where the reference that follows in the block of the lowest level names this
/// data block, in which it is looked for at a place first.
fn entry_behind(
    format: Format,
    lowest: &[u8; 1024],
    data_block: &[u8; 1024],
    block: u32,
    after: u32,
    near: &mut usize,
) -> Option<Entry>
    requires { IsTreeFormat format }
    ensures comes_after { IfSome result (λ entry. after < entry.id) }
    ensures beside { IfSome result (λ entry. entry.id / 256 ≡ after / 256) }
    ensures narrow { IfSome result (λ entry. entry.id < 2 ^ 32) }
    ensures kept { IfSome result (λ entry. IsKept format entry.id entry.rec) }
    ensures next { IfSome result (λ entry. (value : QuotaValue)
        → StandsBy format lowest.now data_block.now (after / 256) block value
        → IsNextAfter (Some after) value.records (Some entry)) }
{
    let leaf = leaf_behind(lowest, after)?;
    if leaf.block != block {
        return None;
    }
    let rec = find_near(format, data_block, leaf.number, near)?;
    Some(Entry {
        id: leaf.number,
        rec,
    })
}

/// The first leaf behind that of an identifier, by the references that follow in the same block of the lowest level.
fn leaf_behind(lowest: &[u8; 1024], id: u32) -> Option<TreePath>
    ensures comes_after { IfSome result (λ leaf. id < leaf.number) }
    ensures beside { IfSome result (λ leaf. leaf.number / 256 ≡ id / 256) }
    ensures reference { IfSome result (λ leaf. leaf.block ≡ number_at 4 lowest.now (4 * (leaf.number % 256))) }
    ensures between { IfSome result (λ leaf. (other : ℕ) → id < other → other < leaf.number
        → number_at 4 lowest.now (4 * (other % 256)) ≡ 0) }
{
    for digit in id % 256 + 1..256 {
        let block = level_ref(lowest, digit as u8);
        if block != 0 {
            let number = 256 * (id / 256) + digit;
            return Some(TreePath { number, block });
        }
    }
    None
}
