ghost use Rattle.std.specs.Prelude.{◌≡◌, ◌+◌, ◌/◌, ◌%◌, ◌<◌, ◌≤◌, ◌^◌, ◌==◌, ◌++◌, ◌∷◌, [], List, ℕ, None, Some};
ghost use Rattle.std.specs.Prelude.{if◌then◌else◌};
ghost use Rattle.std.specs.List.Sorted.{IsStrictlyIncreasing};
ghost use Rattle.entry_codec.specs.Entry.{entries_per_block};
ghost use Rattle.quota_value.specs.Listed.{ids_of};
ghost use Rattle.quota_types.specs.Ids.{IsAfter};
ghost use Rattle.tree_build.specs.Beginnings.{new_beginnings, room_up_to};
ghost use Rattle.tree_build.specs.Size.{blocks_needed};
ghost use Rattle.quota_types.specs.Format.{IsTreeFormat};

use entry_codec::entries_per_block;
use quota_types::{Entry, Format};

/// What a tree file needs for the identifiers that were met, which ascend: how many entries, and how many tree blocks
/// of each level below the root, which are as many as the beginnings of one, two or three bytes that the identifiers
/// have.
#[derive(Clone, Copy, Debug)]
pub struct Needed {
    /// How many identifiers were met.
    entries: u64,
    /// How many beginnings of one byte they have.
    firsts: u64,
    /// How many beginnings of two bytes.
    seconds: u64,
    /// How many beginnings of three bytes.
    thirds: u64,
    /// The last identifier that was met.
    pub last: Option<u32>,
    ghost few: { entries ≤ room_up_to last },
    ghost few_firsts: { firsts ≤ entries },
    ghost few_seconds: { seconds ≤ entries },
    ghost few_thirds: { thirds ≤ entries },
}

impl Needed {
    ghost use Rattle.tree_build.specs.Needed.{HasMet};

    /// No identifier was met.
    pub fn none() -> Needed
        ensures met { HasMet [] result }
        ensures last { result.last ≡ None }
    {
        Needed {
            entries: 0,
            firsts: 0,
            seconds: 0,
            thirds: 0,
            last: None,
        }
    }

    /// Meets one more identifier.
    pub fn add(&mut self, id: u32)
        requires { IsAfter self.old.last id }
        ensures met { (ids : List ℕ) → HasMet ids self.old → HasMet (ids ++ id ∷ []) self.new }
        ensures last { self.new.last ≡ Some id }
    {
        self.firsts += new_beginnings(self.last, id, 1 << 24);
        self.seconds += new_beginnings(self.last, id, 1 << 16);
        self.thirds += new_beginnings(self.last, id, 1 << 8);
        self.entries += 1;
        self.last = Some(id);
    }

    /// How many blocks a file of the format needs: the header, the root, the tree blocks below it, and the data blocks.
    pub fn blocks(&self, format: Format) -> u64
        requires tree { IsTreeFormat format }
        ensures { (ids : List ℕ) → HasMet ids self.now → result ≡ blocks_needed format ids }
    {
        let tree = 2 + self.firsts + self.seconds + self.thirds;
        tree + self.entries.div_ceil(entries_per_block(format) as u64)
    }
}

/// How many more beginnings there are once an identifier comes after the last one: none where both begin alike, and
/// otherwise one. An identifier's beginning is its quotient by `divisor`.
fn new_beginnings(last: Option<u32>, id: u32, divisor: u32) -> u64
    requires { 0 < divisor }
    ensures { result ≡ new_beginnings divisor last id }
{
    match last {
        Some(last) if last / divisor == id / divisor => 0,
        _ => 1,
    }
}

/// How many blocks a tree file of these entries needs.
pub(crate) fn blocks_needed(format: Format, list: &[Entry]) -> u64
    requires tree { IsTreeFormat format }
    requires ascending { IsStrictlyIncreasing (ids_of list.now) }
    ensures { result ≡ blocks_needed format (ids_of list.now) }
{
    let mut needed = Needed::none();
    for entry in list {
        needed.add(entry.id);
    }
    needed.blocks(format)
}

/// The first data block that has room, of a file whose data blocks begin with block 2 and have `entries` entries: the
/// last one, where it is not full.
pub(crate) fn first_with_room(format: Format, entries: usize) -> u32
    requires tree { IsTreeFormat format }
    requires small { 2 + entries / entries_per_block format < 2 ^ 32 }
    ensures { result ≡ (if entries % entries_per_block format == 0 then 0 else 2 + entries / entries_per_block format) }
{
    let per_block = entries_per_block(format);
    if entries.is_multiple_of(per_block) {
        0
    } else {
        (2 + entries / per_block) as u32
    }
}
