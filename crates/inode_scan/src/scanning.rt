ghost use Rattle.std.specs.Prelude.{◌≡◌, ◌+◌, ◌-◌, ◌<◌, ◌≤◌, [], true, false, is_ok, IsTrue, IfOk, IfErr, OnOk, Ok};
ghost use Rattle.std.specs.Prelude.{if◌then◌else◌};
ghost use Rattle.input_text.specs.LineReading.{line_then};
ghost use Rattle.inode_scan.specs.Scan.{scanned};
ghost use Rattle.inode_scan.specs.ListingFaults.{IsEndFault, IsScanFault, listing_left};

use crate::tally::Tally;
use crate::{ScanFault, Usage};
use arrayvec::ArrayVec;
use input_text::{LineFault, LineReader};
use outside::Source;
use quota_types::Kind;
use std::alloc::Global;

/// How many bytes a line of a listing has at most.
const MAX_LINE: usize = 256;

/// How many bytes a listing has at most.
const MAX_LISTING: u64 = 1_099_511_627_776;

/// Reads a listing of inodes to the end of the source, and adds up what each user, group or project uses: 512 bytes a
/// block, and one inode.
///
/// A line has five words between spaces and tabs: owner, group, or the project in its place where projects are counted,
/// device, inode, and blocks of 512 bytes. Each has 1 to 20 decimal digits; the first two are below 2^32, the others
/// below 2^64. A line with no word says nothing. Where a device is given, lines of other devices need to have this
/// form, and count for nothing else. Of each inode of a device the first line counts, and later ones have to say the
/// same.
///
/// # Errors
///
/// The first line that is bad, is too long, or conflicts with the first line of its inode, by its number. Or the source
/// failed; or the listing has more than 1,099,511,627,776 bytes; or there is not enough memory.
pub fn scan<I: Source>(
    alloc: Global,
    source: &mut I,
    kind: Kind,
    device: Option<u64>,
) -> Result<Usage, ScanFault>
    ensures usage { IfOk result (λ usage. IsTrue I.tells → scanned kind device (I.seen source.old).left ≡ Ok usage) }
    ensures ended { OnOk result (IsTrue I.tells → (I.seen source.new).left ≡ []) }
    ensures refused { IfErr result (IsScanFault (I.seen source.old).faults (I.seen source.new).faults I.tells
        (scanned kind device (I.seen source.old).left)) }
    ensures later { (I.seen source.old).faults ≤ (I.seen source.new).faults }
    ensures keeps { I.keeps (is_ok result) source.old source.new }
{
    let mut tally = Tally::new(alloc, kind, device);
    let mut reader = LineReader::new();
    let mut line = ArrayVec::new();
    'lines: while next_line(&mut reader, source, &mut line)? {
        tally.take_line(line.as_slice(), reader.lines())?;
    }
    Ok(tally.into_usage(alloc)?)
}

/// Puts the next line, where there is one, in place of what stands in `line`.
fn next_line<I: Source>(
    reader: &mut LineReader,
    source: &mut I,
    line: &mut ArrayVec<u8, 4096>,
) -> Result<bool, LineFault>
    ensures next { IfOk result (λ more. IsTrue I.tells → listing_left reader.old (I.seen source.old).left
        ≡ line_then more line.new.items (listing_left reader.new (I.seen source.new).left)) }
    ensures ended { IfOk result (λ more. more ≡ false → IsTrue I.tells → (I.seen source.new).left ≡ []) }
    ensures number { IfOk result (λ more. reader.new.number ≡ reader.old.number + (if more then 1 else 0)) }
    ensures nearer { IfOk result (λ more. more ≡ true
        → MAX_LISTING - reader.new.given < MAX_LISTING - reader.old.given) }
    ensures refused { IfErr result (IsEndFault (I.seen source.old).faults (I.seen source.new).faults I.tells
        reader.old.number (listing_left reader.old (I.seen source.old).left)) }
    ensures later { (I.seen source.old).faults ≤ (I.seen source.new).faults }
    ensures keeps { I.keeps (is_ok result) source.old source.new }
{
    reader.next_line(source, line, MAX_LINE, MAX_LISTING)
}
