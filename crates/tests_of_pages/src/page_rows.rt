use memory_objects::MemStore;
use outside::{Store, StoreFault};
use quota_pages::Pages;
use std::alloc::{AllocError, Global};
use std::process::Abort;

/// A call of a buffer of pages over the file "q", or a look at it.
#[derive(Clone, Copy)]
enum Step {
    /// This many of these bytes are written from a place of the file on, past the buffer.
    Write(u64, usize, u8),
    /// The byte at a place of a block that is looked at.
    Peek(u32, usize, u8),
    /// A byte is set at a place of a block that is lent for writing.
    Set(u32, usize, u8),
    /// The number of four bytes at a place of a block.
    Word(u32, usize, u32),
    /// A number of four bytes is set at a place of a block.
    SetWord(u32, usize, u32),
    /// Each byte of a block is made 0.
    Blank(u32),
    Flush,
    Clear,
    Spare(usize),
    Reads(u64),
    Writes(u64),
    /// The byte at a place of the file, where it has one.
    Byte(usize, Option<u8>),
}

/// A step that is as told, or that fails.
type Told = (bool, Step);

const OK: bool = true;

const FAULT: bool = false;

/// What is done with an empty store, one of whose calls may fail, by its number from 1 on.
struct Story {
    title: &'static str,
    failing: u64,
    steps: &'static [Told],
}

/// Whether a block is looked at, or a byte of it set, as told.
fn lends(store: &mut MemStore, pages: &mut Pages, step: Step) -> Result<bool, StoreFault> {
    if pages.spare() == 0 {
        return Ok(false);
    }
    match step {
        Step::Peek(number, at, want) => {
            let block = pages.peek(store, number)?;
            Ok(at < 1024 && block[at] == want)
        }
        Step::Set(number, at, byte) => {
            if at >= 1024 {
                return Ok(false);
            }
            let block = pages.page(store, number)?;
            block[at] = byte;
            Ok(true)
        }
        _ => Ok(false),
    }
}

/// Whether a number of a block is as told, or is set, or a block is made 0.
fn words(store: &mut MemStore, pages: &mut Pages, step: Step) -> Result<bool, StoreFault> {
    if pages.spare() == 0 {
        return Ok(false);
    }
    match step {
        Step::Word(number, at, want) => Ok(at <= 1020 && pages.word(store, number, at)? == want),
        Step::SetWord(number, at, value) => {
            if at > 1020 {
                return Ok(false);
            }
            pages.set_word(store, number, at, value)?;
            Ok(true)
        }
        Step::Blank(number) => {
            pages.blank(store, number)?;
            Ok(true)
        }
        _ => Ok(false),
    }
}

/// Whether this many bytes are written.
fn writes(store: &mut MemStore, at: u64, len: usize, byte: u8) -> Result<bool, StoreFault> {
    let bytes = [byte; 1024];
    if len == 0 || len > 1024 || at > 4096 {
        return Ok(false);
    }
    store.write("q", at, &bytes[..len])?;
    Ok(true)
}

/// Whether the store and the buffer are as told.
fn is_as_told(store: &MemStore, pages: &Pages, step: Step) -> bool {
    match step {
        Step::Spare(want) => pages.spare() == want,
        Step::Reads(want) => store.reads() == want,
        Step::Writes(want) => store.writes() == want,
        Step::Byte(at, want) => match store.file("q") {
            Some(bytes) => bytes.get(at).copied() == want,
            None => false,
        },
        _ => false,
    }
}

/// Whether the step is as told, or that the store failed.
fn step_of(store: &mut MemStore, pages: &mut Pages, step: Step) -> Result<bool, StoreFault> {
    match step {
        Step::Write(at, len, byte) => writes(store, at, len, byte),
        Step::Peek(..) | Step::Set(..) => lends(store, pages, step),
        Step::Word(..) | Step::SetWord(..) | Step::Blank(..) => words(store, pages, step),
        Step::Flush => {
            pages.flush(store)?;
            Ok(true)
        }
        Step::Clear => {
            pages.clear();
            Ok(true)
        }
        _ => Ok(is_as_told(store, pages, step)),
    }
}

/// The place of the first step, from 1 on, that isn't as told, or 0.
fn first_otherwise(alloc: Global, story: &Story) -> Result<usize, AllocError> {
    let failing = Vec::from_slice(alloc, &[story.failing])?;
    let mut store = MemStore::new(Vec::new(alloc), failing);
    let mut pages = Pages::new(String::from_str(alloc, "q")?);
    for (at, told) in story.steps.iter().enumerate() {
        let want = if told.0 { Ok(true) } else { Err(StoreFault) };
        if step_of(&mut store, &mut pages, told.1) != want {
            return Ok(at.saturating_add(1));
        }
    }
    Ok(0)
}

fn expect_stories(rt: &impl Abort, alloc: Global, stories: &[Story]) {
    for story in stories {
        let found = first_otherwise(alloc, story).unwrap_or(usize::MAX);
        assert!(rt; found == 0, "{}: step {found}", story.title);
    }
}

const CALLS: &[Told] = &[
    (OK, Step::Write(0, 1024, b'a')),
    (OK, Step::Write(1024, 476, b'b')),
    (OK, Step::Peek(1, 475, b'b')),
    (OK, Step::Peek(1, 476, 0)),
    (OK, Step::Peek(2, 0, 0)),
    (OK, Step::Reads(2)),
    (OK, Step::Set(1, 476, b'c')),
    (OK, Step::Peek(1, 476, b'c')),
    (OK, Step::Peek(1, 475, b'b')),
    (OK, Step::Reads(2)),
    (OK, Step::Set(3, 7, b'd')),
    (OK, Step::Peek(0, 0, b'a')),
    (OK, Step::Spare(8)),
    (OK, Step::Reads(4)),
    (OK, Step::Byte(1500, None)),
    (OK, Step::Flush),
    (OK, Step::Spare(12)),
    (OK, Step::Writes(4)),
    (OK, Step::Byte(1023, Some(b'a'))),
    (OK, Step::Byte(1499, Some(b'b'))),
    (OK, Step::Byte(1500, Some(b'c'))),
    (OK, Step::Byte(1501, Some(0))),
    (OK, Step::Byte(3079, Some(b'd'))),
    (OK, Step::Byte(4095, Some(0))),
    (OK, Step::Byte(4096, None)),
    (OK, Step::Set(0, 0, b'x')),
    (OK, Step::Clear),
    (OK, Step::Peek(0, 0, b'a')),
    (OK, Step::Flush),
    (OK, Step::Writes(4)),
];

const UNREAD: &[Told] = &[
    (OK, Step::Write(0, 1024, b'a')),
    (FAULT, Step::Peek(0, 0, 0)),
    (OK, Step::Spare(12)),
    (OK, Step::Peek(0, 0, b'a')),
    (OK, Step::Reads(2)),
];

const UNLENT: &[Told] = &[
    (OK, Step::Write(0, 1024, b'a')),
    (FAULT, Step::Set(0, 0, b'x')),
    (OK, Step::Peek(0, 0, b'a')),
    (OK, Step::Flush),
    (OK, Step::Writes(1)),
];

const NOTHING_FLUSHED: &[Told] = &[
    (OK, Step::Write(0, 1024, b'a')),
    (OK, Step::Set(0, 1, b'x')),
    (OK, Step::Set(2, 1, b'y')),
    (FAULT, Step::Flush),
    (OK, Step::Byte(1, Some(b'a'))),
    (OK, Step::Byte(1024, None)),
    (OK, Step::Flush),
    (OK, Step::Byte(1, Some(b'x'))),
    (OK, Step::Byte(2049, Some(b'y'))),
];

const ONE_FLUSHED: &[Told] = &[
    (OK, Step::Write(0, 1024, b'a')),
    (OK, Step::Set(0, 1, b'x')),
    (OK, Step::Set(2, 1, b'y')),
    (FAULT, Step::Flush),
    (OK, Step::Byte(1, Some(b'x'))),
    (OK, Step::Byte(1024, None)),
    (OK, Step::Flush),
    (OK, Step::Byte(1, Some(b'x'))),
    (OK, Step::Byte(2049, Some(b'y'))),
];

const FULL: &[Told] = &[
    (OK, Step::Set(0, 0, b'a')),
    (OK, Step::Set(1, 1, b'b')),
    (OK, Step::Set(2, 2, b'c')),
    (OK, Step::Set(3, 3, b'd')),
    (OK, Step::Set(4, 4, b'e')),
    (OK, Step::Set(5, 5, b'f')),
    (OK, Step::Set(6, 6, b'g')),
    (OK, Step::Set(7, 7, b'h')),
    (OK, Step::Set(8, 8, b'i')),
    (OK, Step::Set(9, 9, b'j')),
    (OK, Step::Set(10, 10, b'k')),
    (OK, Step::Spare(1)),
    (OK, Step::Set(11, 1023, b'l')),
    (OK, Step::Spare(0)),
    (OK, Step::Reads(12)),
    (OK, Step::Writes(0)),
    (OK, Step::Flush),
    (OK, Step::Spare(12)),
    (OK, Step::Writes(12)),
    (OK, Step::Byte(0, Some(b'a'))),
    (OK, Step::Byte(1, Some(0))),
    (OK, Step::Byte(1025, Some(b'b'))),
    (OK, Step::Byte(10250, Some(b'k'))),
    (OK, Step::Byte(12286, Some(0))),
    (OK, Step::Byte(12287, Some(b'l'))),
    (OK, Step::Byte(12288, None)),
];

const WORDS: &[Told] = &[
    (OK, Step::Write(0, 1024, 1)),
    (OK, Step::Word(0, 1020, 0x0101_0101)),
    (OK, Step::SetWord(0, 4, 0x0403_0201)),
    (OK, Step::Word(0, 4, 0x0403_0201)),
    (OK, Step::Word(0, 2, 0x0201_0101)),
    (OK, Step::Word(0, 6, 0x0101_0403)),
    (OK, Step::Word(1, 0, 0)),
    (OK, Step::Reads(2)),
    (OK, Step::Flush),
    (OK, Step::Writes(2)),
    (OK, Step::Byte(3, Some(1))),
    (OK, Step::Byte(7, Some(4))),
    (OK, Step::Byte(1024, None)),
    (OK, Step::Blank(0)),
    (OK, Step::Word(0, 4, 0)),
    (OK, Step::Peek(0, 0, 0)),
    (OK, Step::Peek(0, 1023, 0)),
    (OK, Step::Flush),
    (OK, Step::Writes(3)),
    (OK, Step::Byte(1023, Some(0))),
    (OK, Step::Byte(1024, None)),
];

const STORIES: &[Story] = &[
    Story {
        title: "blocks are read once and written once",
        failing: 0,
        steps: CALLS,
    },
    Story {
        title: "a block that is looked at is not read",
        failing: 2,
        steps: UNREAD,
    },
    Story {
        title: "a block that is lent is not read",
        failing: 2,
        steps: UNLENT,
    },
    Story {
        title: "the first write of a flush fails",
        failing: 4,
        steps: NOTHING_FLUSHED,
    },
    Story {
        title: "the second write of a flush fails",
        failing: 5,
        steps: ONE_FLUSHED,
    },
    Story {
        title: "twelve blocks are lent and written",
        failing: 0,
        steps: FULL,
    },
    Story {
        title: "numbers of a block are read and set, and a block is made 0",
        failing: 0,
        steps: WORDS,
    },
];

#[test]
fn pages_show_what_is_left_in_them_and_a_flush_writes_it(rt: HostRuntime) {
    expect_stories(&rt, rt.alloc(), STORIES);
}
