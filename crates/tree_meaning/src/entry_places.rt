ghost use Rattle.std.specs.Prelude.{◌≡◌, ℕ, ◌<◌, ◌≤◌, true, false, is_some, None, Some, IfSome, length, replicate};
ghost use Rattle.entry_codec.specs.Entry.{entries_per_block, is_unused};
ghost use Rattle.entry_codec.specs.Spelling.{padding_of};
ghost use Rattle.quota_types.specs.Format.{IsTreeFormat, record_size};
ghost use Rattle.quota_types.specs.Kept.{kept_of};
ghost use Rattle.quota_types.specs.Range.{unfit};
ghost use Rattle.tree_meaning.specs.Entries.{entry_bytes, entry_of, has_unused, id_in, used_ids};
ghost use Rattle.tree_meaning.specs.EntryPlaces.{KeepsOutsideEntry};

use crate::entries::entry_bytes;
use entry_codec::{entries_per_block, read_id, write_entry};
use quota_types::{Format, Rec};

/// The first place among the entries of a block that is unused, or none where all are used.
pub fn unused_place(format: Format, block: &[u8; 1024]) -> Option<usize>
    requires tree { IsTreeFormat format }
    ensures low { IfSome result (λ place. place < entries_per_block format) }
    ensures unused { IfSome result (λ place. is_unused (entry_bytes format block.now place) ≡ true) }
    ensures first { IfSome result (λ place. (before : ℕ) → before < place
        → is_unused (entry_bytes format block.now before) ≡ false) }
    ensures room { is_some result ≡ has_unused format block.now }
{
    for place in 0..entries_per_block(format) {
        if read_id(entry_bytes(format, block, place)).is_none() {
            return Some(place);
        }
    }
    None
}

/// How many entries of a block are used, which is the number that the block is to state.
pub fn used_count(format: Format, block: &[u8; 1024]) -> usize
    requires { IsTreeFormat format }
    ensures count { result ≡ length (used_ids format block.now) }
    ensures few { result ≤ entries_per_block format }
{
    let mut count = 0;
    for place in 0..entries_per_block(format) {
        count += uses_at(format, block, place);
    }
    count
}

/// 1 where the entry at a place among the entries of a block is used, and otherwise 0.
fn uses_at(format: Format, block: &[u8; 1024], place: usize) -> usize
    requires tree { IsTreeFormat format }
    requires place { place < entries_per_block format }
    ensures count { result ≡ length (id_in format (entry_bytes format block.now place)) }
    ensures one { result ≤ 1 }
{
    match read_id(entry_bytes(format, block, place)) {
        Some(_) => 1,
        None => 0,
    }
}

/// Puts an entry at a place among the entries of a block, whatever stood there. All other bytes of the block stay, the
/// stated number too.
pub fn put_entry(format: Format, block: &mut [u8; 1024], place: usize, id: u32, rec: &Rec)
    requires tree { IsTreeFormat format }
    requires place { place < entries_per_block format }
    requires fits { unfit format id rec.now ≡ None }
    requires kept { kept_of format id rec.now ≡ rec.now }
    ensures entry { entry_of format (entry_bytes format block.new place) ≡ Some (record { id = id; rec = rec.now }) }
    ensures padding { padding_of format (entry_bytes format block.new place) ≡ 0 }
    ensures others { KeepsOutsideEntry format place block.old block.new }
{
    let size = format.record_size();
    let start = 16 + size * place;
    write_entry(format, id, rec, &mut block[start..start + size]);
}

/// Clears the entry at a place among the entries of a block, so that it is unused. All other bytes of the block stay,
/// the stated number too.
pub fn clear_entry(format: Format, block: &mut [u8; 1024], place: usize)
    requires tree { IsTreeFormat format }
    requires place { place < entries_per_block format }
    ensures zeros { entry_bytes format block.new place ≡ replicate (record_size format) 0 }
    ensures unused { is_unused (entry_bytes format block.new place) ≡ true }
    ensures others { KeepsOutsideEntry format place block.old block.new }
{
    let size = format.record_size();
    let start = 16 + size * place;
    block[start..start + size].fill(0);
}
