ghost use Rattle.std.specs.Prelude.{◌≡◌, ◌+◌, ◌*◌, ◌<◌, ◌≤◌, ◌^◌, true, false, length, IfSome, IsTrue, None, Some};
ghost use Rattle.opened_file.specs.Replace.{pieces_of};
ghost use Rattle.quota_map.specs.Asked.{InFormat, asked_of};
ghost use Rattle.quota_map.specs.View.{asks_tree};
ghost use Rattle.batch_commands.specs.AtOnce.{IsPaid};
ghost use Rattle.batch_commands.specs.Batch.{LeaveRoom, record_end};
ghost use Rattle.batch_commands.specs.Together.{IsFlatReach};

use crate::batch_line::LineEdit;
use quota_map::MOST_BLOCKS;
use quota_types::Format;

/// How many bytes one call of `Store::write` takes.
const PIECE: u64 = 1024;

/// How many calls of `Store::write` the edit of one line makes at most.
pub const MOST_WRITES: u64 = 12;

/// By how many bytes a tree file grows at most where a record is put into it that was not there.
const MOST_GROWTH: u64 = 4096;

/// How many bytes a tree file of no records has: those of its header and its root, of which a file may lack the end.
const EMPTY_TREE: u64 = 2048;

/// How many bytes a file may have that is replaced.
pub const MOST_BYTES: u64 = 1 << 42;

/// How many bytes a tree file of the most blocks has.
const FULL_TREE: u64 = 1024 * MOST_BLOCKS as u64;

/// How many bytes the file, which now has this many, may come to have by the edits of these lines. It is `None` where a
/// replacement by so many takes more calls of `write` than the edits may make, or cannot be made, and where the lines
/// may fill the file.
pub fn most_bytes(format: Option<Format>, lines: &[LineEdit], size: u64) -> Option<u64>
    ensures few { IfSome result (λ most. pieces_of most ≤ 12 * length lines.now) }
    ensures within { IfSome result (λ most. most ≤ 2 ^ 42) }
    ensures reaches { IfSome result (λ most. size ≤ most) }
    ensures grows { IfSome result (λ most. IsTrue (asks_tree (asked_of format))
        → most ≤ size + 2048 + 4096 * length lines.now) }
    ensures enough { IfSome result (λ most. IsTrue (asks_tree (asked_of format))
        → size + 4096 * length lines.now ≤ most) }
    ensures empty { IfSome result (λ most. IsTrue (asks_tree (asked_of format))
        → 2048 + 4096 * length lines.now ≤ most) }
    ensures left { IfSome result (λ most. LeaveRoom (asked_of format) (length lines.now) size) }
    ensures paid { result ≡ None → IsPaid (asked_of format) lines.now size → ⊥ }
    // Of a flat file it has room for the record of each line, and for no more.
    ensures room { IfSome result (λ most. asks_tree (asked_of format) ≡ false
        → IsFlatReach (asked_of format) size lines.now most) }
{
    if !leave_room(format, lines, size) {
        return None;
    }
    let most = reach(format, lines, size);
    if most <= MOST_BYTES && pieces(most) <= (lines.len() as u64).saturating_mul(MOST_WRITES) {
        Some(most)
    } else {
        None
    }
}

/// Whether lines leave room in a file of this length: with as many bytes as they may add to a tree file, and with those
/// of two more, it is no full one.
fn leave_room(format: Option<Format>, lines: &[LineEdit], size: u64) -> bool
    ensures room { result ≡ true → LeaveRoom (asked_of format) (length lines.now) size }
    ensures none { result ≡ false → LeaveRoom (asked_of format) (length lines.now) size → ⊥ }
{
    match format {
        Some(flat) if flat.is_flat() => true,
        _ => {
            let added = (lines.len() as u64)
                .saturating_add(2)
                .saturating_mul(MOST_GROWTH);
            size.saturating_add(added) < FULL_TREE
        }
    }
}

/// How many bytes the file may have once these lines are edited.
pub fn reach(format: Option<Format>, lines: &[LineEdit], size: u64) -> u64
    ensures reaches { size ≤ result }
    ensures grows { IsTrue (asks_tree (asked_of format)) → result ≤ size + 2048 + 4096 * length lines.now }
    ensures enough { IsTrue (asks_tree (asked_of format)) → result ≤ 2 ^ 42 → size + 4096 * length lines.now ≤ result }
    ensures empty { IsTrue (asks_tree (asked_of format)) → result ≤ 2 ^ 42 → 2048 + 4096 * length lines.now ≤ result }
    ensures room { asks_tree (asked_of format) ≡ false → IsFlatReach (asked_of format) size lines.now result }
{
    match format {
        Some(flat) if flat.is_flat() => flat_reach(flat, lines, size),
        _ => size
            .max(EMPTY_TREE)
            .saturating_add((lines.len() as u64).saturating_mul(MOST_GROWTH)),
    }
}

/// How many bytes a flat file of this many may have once these lines are edited: those up to the end of its last
/// record.
fn flat_reach(format: Format, lines: &[LineEdit], size: u64) -> u64
    ensures { IsFlatReach (InFormat format) size lines.now result }
{
    let mut most = size;
    for line in lines {
        most = most.max(record_end(format, line.id));
    }
    most
}

/// Where the record of an identifier ends in a flat file of the format.
#[tactic(auto, using(crate::proofs::CountLemmas::record_end_small), unfolding(crate::specs::Batch::record_end))]
fn record_end(format: Format, id: u32) -> u64
    ensures { result ≡ record_end format id }
{
    format.record_size() as u64 * (u64::from(id) + 1)
}

/// How many calls of `write` this many bytes take.
pub fn pieces(bytes: u64) -> u64
    ensures { result ≡ pieces_of bytes }
{
    bytes.div_ceil(PIECE)
}
