use arrayvec::ArrayVec;
use input_text::{LineFault, LineReader, StoreInput, StoreSource};
use memory_objects::{MemSource, MemStore};
use outside::{Source, SourceFault, Store};
use std::alloc::{AllocError, Global};
use std::process::Abort;

/// A source that gives at most this many bytes in a call.
#[derive(Drop)]
struct Pieces {
    source: MemSource,
    size: usize,
}

impl Source for Pieces {
    ghost use Rattle.std.specs.Prelude.{false, ⊤};
    ghost use Rattle.std.proofs.lemmas.Bool.{false≢true};
    ghost use Rattle.memory_objects.specs.InMemory.{mem_source_seen};

    ghost tells = { false };

    ghost seen = { λ p. mem_source_seen p.source };

    ghost keeps = { λ _ _ _. ⊤ };

    ghost keeps_itself = { λ _. tt };

    ghost keeps_on = { λ _ _ _ _ _ _ _. tt };

    ghost keeps_any = { λ _ _ _. tt };

    ghost keeps_behind = { λ _ _ _ _ told. absurd (false≢true told) };

    fn read(&mut self, buf: &mut [u8]) -> Result<usize, SourceFault> {
        let size = self.size.min(buf.len());
        self.source.read(&mut buf[..size])
    }
}

/// The lines of a source, a `|` behind each, and what came after the last one.
type Lines = (Vec<u8>, Result<bool, LineFault>);

fn lines_of<I: Source>(
    alloc: Global,
    source: &mut I,
    most: usize,
    total: u64,
) -> Result<Lines, AllocError> {
    let mut reader = LineReader::new();
    let mut line = ArrayVec::new();
    let mut text = Vec::new(alloc);
    for _ in 0..9 {
        match reader.next_line(source, &mut line, most.min(4096), total) {
            Ok(true) => {
                text.extend_from_slice(line.as_slice())?;
                text.push(b'|')?;
            }
            end => return Ok((text, end)),
        }
    }
    Ok((text, Ok(true)))
}

/// The lines of these bytes, of which a call gives at most this many.
fn lines_by(
    alloc: Global,
    input: &[u8],
    size: usize,
    failing: &[u64],
    limits: (usize, u64),
) -> Result<Lines, AllocError> {
    let bytes = Vec::from_slice(alloc, input)?;
    let source = MemSource::new(bytes, Vec::from_slice(alloc, failing)?);
    let mut pieces = Pieces { source, size };
    lines_of(alloc, &mut pieces, limits.0, limits.1)
}

/// Whether these are the lines.
fn are_lines(found: Result<Lines, AllocError>, text: &[u8], end: Result<bool, LineFault>) -> bool {
    match found {
        Ok(lines) => lines.0.as_slice() == text && lines.1 == end,
        Err(_) => false,
    }
}

/// An input, how many bytes a line may have and how many may be read, the lines, and what comes after the last one.
type LineRow = (
    &'static str,
    usize,
    u64,
    &'static str,
    Result<bool, LineFault>,
);

const LINES: &[LineRow] = &[
    ("a\nb\n", 9, 9, "a|b|", Ok(false)),
    ("a\nb", 9, 9, "a|b|", Ok(false)),
    ("a\r\nb\n", 9, 9, "a\r|b|", Ok(false)),
    ("", 9, 9, "", Ok(false)),
    ("\n", 9, 9, "|", Ok(false)),
    ("\n\nab", 9, 9, "||ab|", Ok(false)),
    ("a\0b\n\0", 9, 9, "a\0b|\0|", Ok(false)),
    ("abc\nabc", 3, 9, "abc|abc|", Ok(false)),
    ("abcd\n", 3, 9, "", Err(LineFault::Long(1))),
    ("abc\nabcd", 3, 9, "abc|", Err(LineFault::Long(2))),
    ("\n\n", 0, 9, "||", Ok(false)),
    ("\n\na", 0, 9, "||", Err(LineFault::Long(3))),
    ("ab\ncd\n", 9, 6, "ab|cd|", Ok(false)),
    ("ab\ncd\n", 9, 5, "ab|", Err(LineFault::TooLarge)),
    ("ab\ncd", 9, 5, "ab|cd|", Ok(false)),
    ("ab\ncd", 9, 4, "ab|", Err(LineFault::TooLarge)),
    ("ab\ncd\ne", 9, 6, "ab|cd|", Err(LineFault::TooLarge)),
    ("abcdef\n", 3, 4, "", Err(LineFault::Long(1))),
    ("abcdef\n", 4, 4, "", Err(LineFault::TooLarge)),
    ("abcdef\n", 3, 3, "", Err(LineFault::TooLarge)),
    ("a\nabcdef", 3, 6, "a|", Err(LineFault::Long(2))),
    ("a\nabcdef", 3, 5, "a|", Err(LineFault::TooLarge)),
    ("", 9, 0, "", Ok(false)),
    ("\n", 9, 0, "", Err(LineFault::TooLarge)),
];

/// How many bytes a call gives at most.
const SIZES: &[usize] = &[1, 2, 3, 4096];

/// Whether the lines are those of the row, whatever the pieces are.
fn has_lines(alloc: Global, row: &LineRow) -> bool {
    for size in SIZES {
        let found = lines_by(alloc, row.0.as_bytes(), *size, &[], (row.1, row.2));
        if !are_lines(found, row.3.as_bytes(), row.4) {
            return false;
        }
    }
    true
}

fn expect_lines(rt: &impl Abort, alloc: Global, rows: &[LineRow]) {
    for row in rows {
        assert!(rt;
            has_lines(alloc, row),
            "{:?} by {} of {}",
            row.0,
            row.1,
            row.2
        );
    }
}

#[test]
fn lines_come_in_order_whatever_the_pieces_are(rt: HostRuntime) {
    expect_lines(&rt, rt.alloc(), LINES);
}

/// The call of a source of `ab` and `cd`, by two bytes, that fails, the lines, and what comes after the last one.
type FaultRow = (u64, &'static str, Result<bool, LineFault>);

const FAULTS: &[FaultRow] = &[
    (1, "", Err(LineFault::Source)),
    (2, "", Err(LineFault::Source)),
    (3, "ab|", Err(LineFault::Source)),
    (4, "ab|cd|", Err(LineFault::Source)),
    (5, "ab|cd|", Ok(false)),
];

fn expect_faults(rt: &impl Abort, alloc: Global, rows: &[FaultRow]) {
    for row in rows {
        let found = lines_by(alloc, b"ab\ncd\n", 2, &[row.0], (9, 9));
        assert!(rt;
            are_lines(found, row.1.as_bytes(), row.2),
            "at call {}",
            row.0
        );
    }
}

#[test]
fn a_fault_of_the_source_is_handed_on(rt: HostRuntime) {
    expect_faults(&rt, rt.alloc(), FAULTS);
}

/// The lengths of a first line of `x`, behind which a line `yz` comes.
const LENGTHS: &[usize] = &[4094, 4095, 4096];

/// The bytes of such an input, with this in place of each newline.
fn long_text(alloc: Global, len: usize, newline: u8) -> Result<Vec<u8>, AllocError> {
    let mut bytes = vec![in alloc; b'x'; len]?;
    bytes.extend_from_slice(&[newline, b'y', b'z', newline])?;
    Ok(bytes)
}

/// Whether a long line and the one behind it come whole.
fn long_line_comes(alloc: Global, len: usize) -> Result<bool, AllocError> {
    let input = long_text(alloc, len.min(5000), b'\n')?;
    let want = long_text(alloc, len.min(5000), b'|')?;
    let mut source = MemSource::new(input, Vec::new(alloc));
    let lines = lines_of(alloc, &mut source, 4096, u64::MAX)?;
    Ok(lines.0.as_slice() == want.as_slice() && lines.1 == Ok(false))
}

fn expect_long_lines(rt: &impl Abort, alloc: Global, lens: &[usize]) {
    for len in lens {
        assert!(rt; long_line_comes(alloc, *len) == Ok(true), "{len} bytes");
    }
}

fn expect_too_long(rt: &impl Abort, alloc: Global, input: &[u8]) {
    let found = lines_by(alloc, input, 4096, &[], (4096, u64::MAX));
    assert!(rt;
        are_lines(found, b"", Err(LineFault::Long(1))),
        "{} bytes",
        input.len()
    );
}

#[test]
fn no_byte_is_lost_at_the_edge_of_a_piece(rt: HostRuntime) {
    expect_long_lines(&rt, rt.alloc(), LENGTHS);
    expect_too_long(&rt, rt.alloc(), &[b'x'; 4097]);
}

/// A call of a source over a file of a store, or a look at it.
enum Step {
    /// From a place on.
    Write(u64, &'static [u8]),
    /// How many bytes come into four, and which.
    Read(&'static [u8]),
    ReadFails,
    /// How many bytes come into 2,000 by way of the input, and the last ones.
    Input(usize, &'static [u8]),
    /// The lines of the input, after which it is at its end.
    Lines(&'static [u8]),
    Go(u64),
    At(u64),
    Reads(u64),
}

/// Whether the source gives `count` bytes, the last of which are these.
fn gives<I: Source>(source: &mut I, count: usize, last: &[u8]) -> bool {
    let mut buf = [b'-'; 2000];
    match source.read(&mut buf) {
        Ok(found) => found == count && buf[..found.min(2000)].ends_with(last),
        Err(_) => false,
    }
}

/// Whether the source gives these bytes into four.
fn reads(source: &mut StoreSource, store: &mut MemStore, want: &[u8]) -> bool {
    let mut buf = [b'-'; 4];
    match source.read(store, &mut buf) {
        Ok(found) => &buf[..found.min(4)] == want,
        Err(_) => false,
    }
}

/// Whether the source fails.
fn fails(source: &mut StoreSource, store: &mut MemStore) -> bool {
    let mut buf = [b'-'; 4];
    source.read(store, &mut buf).is_err()
}

/// Whether the step of the source or of its input is as told.
fn is_read(alloc: Global, source: &mut StoreSource, store: &mut MemStore, step: &Step) -> bool {
    match *step {
        Step::Read(want) => reads(source, store, want),
        Step::ReadFails => fails(source, store),
        Step::Input(count, last) => gives(&mut StoreInput { source, store }, count, last),
        Step::Lines(text) => {
            let found = lines_of(alloc, &mut StoreInput { source, store }, 9, 9);
            are_lines(found, text, Ok(false))
        }
        _ => false,
    }
}

/// Whether the step is as told.
fn does(alloc: Global, source: &mut StoreSource, store: &mut MemStore, step: &Step) -> bool {
    match *step {
        Step::Write(at, bytes) => {
            at < 4096 && bytes.len() < 1024 && store.write("q", at, bytes).is_ok()
        }
        Step::Go(at) => {
            source.at = at;
            true
        }
        Step::At(want) => source.at == want,
        Step::Reads(want) => store.reads() == want,
        _ => is_read(alloc, source, store, step),
    }
}

/// The steps of a source over a file of a store whose third call fails.
const READ_ON: &[Step] = &[
    Step::Write(0, b"ab\ncd\nef"),
    Step::Go(1),
    Step::Read(b"b\ncd"),
    Step::ReadFails,
    Step::At(5),
    Step::Lines(b"|ef|"),
    Step::At(8),
    Step::Reads(5),
    Step::Go(u64::MAX),
    Step::Read(b""),
];

/// The steps of one whose store fails at no call.
const IN_BLOCKS: &[Step] = &[
    Step::Write(1500, b"end"),
    Step::Input(1024, b"\0\0"),
    Step::Input(479, b"\0end"),
    Step::Input(0, b""),
    Step::At(1503),
    Step::Reads(3),
];

/// The place of the first step, from 1 on, that isn't as told, or 0.
fn first_otherwise(alloc: Global, failing: &[u64], steps: &[Step]) -> Result<usize, AllocError> {
    let name = String::from_str(alloc, "q")?;
    let mut source = StoreSource { name, at: 0 };
    let mut store = MemStore::new(Vec::new(alloc), Vec::from_slice(alloc, failing)?);
    for (at, step) in steps.iter().enumerate() {
        if !does(alloc, &mut source, &mut store, step) {
            return Ok(at.saturating_add(1));
        }
    }
    Ok(0)
}

fn expect_steps(rt: &impl Abort, alloc: Global, failing: &[u64], steps: &[Step]) {
    let found = first_otherwise(alloc, failing, steps);
    assert!(rt; found == Ok(0), "step {found:?}");
}

#[test]
fn a_file_of_a_store_is_read_on_from_where_it_stands(rt: HostRuntime) {
    expect_steps(&rt, rt.alloc(), &[3], READ_ON);
}

#[test]
fn a_source_over_a_store_asks_for_1024_bytes_at_most(rt: HostRuntime) {
    expect_steps(&rt, rt.alloc(), &[], IN_BLOCKS);
}
