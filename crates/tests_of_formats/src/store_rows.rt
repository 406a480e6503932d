use memory_objects::MemStore;
use opened_file::{LoadFault, ReplaceFault, load, replace};
use outside::{Store, StoreFault};
use std::alloc::Global;
use std::process::Abort;

/// A call of a store in memory, or a look at it.
enum Step {
    Write(&'static str, u64, &'static [u8]),
    Create(&'static str),
    Sync(&'static str),
    Rename(&'static str, &'static str),
    /// The file's bytes in place of the old one's.
    Replace(&'static str, &'static [u8]),
    /// From a place on into four bytes of 9: how many are read, and the four bytes then.
    Read(&'static str, u64, usize, [u8; 4]),
    Size(&'static str, Option<u64>),
    /// At most this many bytes: how many are loaded, and the last ones.
    Load(&'static str, u64, usize, &'static [u8]),
    /// At most this many bytes, and why they aren't loaded.
    LoadFails(&'static str, u64, LoadFault),
    File(&'static str, Option<&'static [u8]>),
    Unsynced(&'static str, bool),
    Reads(u64),
    Writes(u64),
}

/// A step that is as told, or that fails.
type Told = (bool, Step);

const OK: bool = true;

const FAULT: bool = false;

/// What is done with an empty store, some of whose calls fail, by their numbers from 1 on.
struct Story {
    title: &'static str,
    failing: &'static [u64],
    steps: &'static [Told],
}

/// Whether a call that changes something answers Ok.
fn changes(alloc: Global, store: &mut MemStore, step: &Step) -> Result<bool, StoreFault> {
    match *step {
        Step::Write(name, at, bytes) => {
            if bytes.is_empty() || bytes.len() > 1024 || at > 0x400_0000_0000 {
                return Ok(false);
            }
            store.write(name, at, bytes)?;
        }
        Step::Create(name) => store.create(name)?,
        Step::Sync(name) => store.sync(name)?,
        Step::Rename(from, to) => {
            if from == to {
                return Ok(false);
            }
            store.rename(from, to)?;
        }
        Step::Replace(name, bytes) => {
            if bytes.len() > 4096 {
                return Ok(false);
            }
            return replaces(alloc, store, name, bytes);
        }
        _ => return Ok(false),
    }
    Ok(true)
}

/// Whether the file is replaced.
fn replaces(
    alloc: Global,
    store: &mut MemStore,
    name: &str,
    bytes: &[u8],
) -> Result<bool, StoreFault> {
    if bytes.len() > 4096 {
        return Ok(false);
    }
    match replace(alloc, store, name, bytes) {
        Ok(()) => Ok(true),
        Err(ReplaceFault::Store) => Err(StoreFault),
        Err(_) => Ok(false),
    }
}

/// Whether this many bytes are read from a place on into four bytes of 9, which are these then.
fn reads(
    store: &mut MemStore,
    name: &str,
    at: u64,
    count: usize,
    want: [u8; 4],
) -> Result<bool, StoreFault> {
    let mut buf = [9; 4];
    let found = store.read(name, at, &mut buf)?;
    Ok(found == count && buf == want)
}

/// Whether a call that reads gives what is told.
fn gives(store: &mut MemStore, step: &Step) -> Result<bool, StoreFault> {
    match *step {
        Step::Read(name, at, count, want) => reads(store, name, at, count, want),
        Step::Size(name, want) => Ok(store.size(name)? == want),
        _ => Ok(false),
    }
}

/// Whether a file is loaded, or isn't, as told.
fn loads(alloc: Global, store: &mut MemStore, step: &Step) -> bool {
    match *step {
        Step::Load(name, most, len, last) => match load(alloc, store, name, most) {
            Ok(bytes) => bytes.len() == len && bytes.ends_with(last),
            Err(_) => false,
        },
        Step::LoadFails(name, most, want) => load(alloc, store, name, most).err() == Some(want),
        _ => false,
    }
}

/// Whether the store is as told.
fn is_as_told(store: &MemStore, step: &Step) -> bool {
    match *step {
        Step::File(name, want) => store.file(name) == want,
        Step::Unsynced(name, want) => store.is_unsynced(name) == want,
        Step::Reads(want) => store.reads() == want,
        Step::Writes(want) => store.writes() == want,
        _ => false,
    }
}

/// Whether the step is as told, or that the store failed.
fn step_of(alloc: Global, store: &mut MemStore, step: &Step) -> Result<bool, StoreFault> {
    match *step {
        Step::Read(..) | Step::Size(..) => gives(store, step),
        Step::Load(..) | Step::LoadFails(..) => Ok(loads(alloc, store, step)),
        Step::File(..) | Step::Unsynced(..) | Step::Reads(_) | Step::Writes(_) => {
            Ok(is_as_told(store, step))
        }
        _ => changes(alloc, store, step),
    }
}

/// The place of the first step, from 1 on, that isn't as told, or 0.
fn first_otherwise(alloc: Global, story: &Story) -> usize {
    let Ok(failing) = Vec::from_slice(alloc, story.failing) else {
        return usize::MAX;
    };
    let mut store = MemStore::new(Vec::new(alloc), failing);
    for (at, told) in story.steps.iter().enumerate() {
        let want = if told.0 { Ok(true) } else { Err(StoreFault) };
        if step_of(alloc, &mut store, &told.1) != want {
            return at.saturating_add(1);
        }
    }
    0
}

fn expect_stories(rt: &impl Abort, alloc: Global, stories: &[Story]) {
    for story in stories {
        let found = first_otherwise(alloc, story);
        assert!(rt; found == 0, "{}: step {found}", story.title);
    }
}

const CALLS: &[Told] = &[
    (OK, Step::Write("q", 0, b"abc")),
    (OK, Step::File("q", Some(b"abc"))),
    (OK, Step::Write("q", 5, b"z")),
    (OK, Step::File("q", Some(b"abc\0\0z"))),
    (OK, Step::Write("q", 1, b"XY")),
    (OK, Step::File("q", Some(b"aXY\0\0z"))),
    (OK, Step::Write("q", 4, b"1234")),
    (OK, Step::File("q", Some(b"aXY\x001234"))),
    (OK, Step::Sync("q")),
    (OK, Step::Size("q", Some(8))),
    (OK, Step::Write("r", 2, b"r")),
    (OK, Step::File("r", Some(b"\0\0r"))),
    (OK, Step::Rename("absent", "r")),
    (OK, Step::File("r", Some(b"\0\0r"))),
    (OK, Step::Rename("q", "r")),
    (OK, Step::File("r", Some(b"aXY\x001234"))),
    (OK, Step::File("q", None)),
    (OK, Step::Rename("r", "s")),
    (OK, Step::Size("r", None)),
    (OK, Step::Size("s", Some(8))),
    (OK, Step::Create("s")),
    (OK, Step::Create("t")),
    (OK, Step::Size("s", Some(0))),
    (OK, Step::Size("t", Some(0))),
    (OK, Step::Writes(5)),
    (OK, Step::Reads(0)),
];

const FAILING_CALLS: &[Told] = &[
    (OK, Step::Write("q", 0, b"abc")),
    (FAULT, Step::Write("q", 0, b"X")),
    (FAULT, Step::Create("q")),
    (OK, Step::Sync("q")),
    (FAULT, Step::Rename("q", "r")),
    (OK, Step::Read("q", 1, 2, [b'b', b'c', 9, 9])),
    (FAULT, Step::Read("q", 1, 0, [9; 4])),
    (OK, Step::File("q", Some(b"abc"))),
    (OK, Step::Reads(2)),
    (OK, Step::Writes(2)),
];

const UNSYNCED: &[Told] = &[
    (OK, Step::Unsynced("q", false)),
    (OK, Step::Create("q")),
    (OK, Step::Unsynced("q", true)),
    (OK, Step::Rename("absent", "r")),
    (OK, Step::Unsynced("r", false)),
    (OK, Step::Rename("q", "r")),
    (OK, Step::Unsynced("q", false)),
    (OK, Step::Unsynced("r", true)),
    (OK, Step::Sync("r")),
    (OK, Step::Unsynced("r", false)),
    (OK, Step::Write("r", 0, b"x")),
    (OK, Step::Write("s", 0, b"y")),
    (OK, Step::Sync("s")),
    (OK, Step::Unsynced("r", true)),
    (OK, Step::Unsynced("s", false)),
    (OK, Step::Rename("s", "r")),
    (OK, Step::Unsynced("r", false)),
    (OK, Step::Replace("t", b"new")),
    (OK, Step::Unsynced("t", false)),
    (OK, Step::Unsynced("t.new", false)),
];

#[rattlefmt::skip]
const STORES: &[Story] = &[
    Story { title: "files", failing: &[], steps: CALLS },
    Story { title: "calls that were named fail", failing: &[2, 3, 5, 7], steps: FAILING_CALLS },
    Story { title: "a name is unsynced from its change to its sync", failing: &[], steps: UNSYNCED },
];

#[test]
fn a_store_holds_what_each_call_leaves(rt: HostRuntime) {
    expect_stories(&rt, rt.alloc(), STORES);
}

/// The bytes of a new file, in three pieces.
const NEW: &[u8] = &[7; 2500];

const REPLACED: &[Told] = &[
    (OK, Step::Write("q", 0, b"old")),
    (OK, Step::Write("q.new", 0, b"left over")),
    (OK, Step::Replace("q", NEW)),
    (OK, Step::File("q", Some(NEW))),
    (OK, Step::File("q.new", None)),
    (OK, Step::Writes(5)),
];

const NOT_REPLACED: &[Told] = &[
    (OK, Step::Write("q", 0, b"old")),
    (OK, Step::Write("q.new", 0, b"left over")),
    (FAULT, Step::Replace("q", NEW)),
    (OK, Step::File("q", Some(b"old"))),
];

const LOADED: &[Told] = &[
    (OK, Step::Write("q", 1024, b"end")),
    (OK, Step::Load("q", 1027, 1027, b"\0end")),
    (OK, Step::LoadFails("q", 1026, LoadFault::TooLarge)),
    (OK, Step::LoadFails("r", 1026, LoadFault::NoFile)),
    (OK, Step::Reads(2)),
];

#[rattlefmt::skip]
const WHOLE_FILES: &[Story] = &[
    Story { title: "loaded", failing: &[], steps: LOADED },
    Story { title: "replaced, call 9 fails", failing: &[9], steps: REPLACED },
    Story { title: "making the new file fails", failing: &[3], steps: NOT_REPLACED },
    Story { title: "the first write fails", failing: &[4], steps: NOT_REPLACED },
    Story { title: "the second write fails", failing: &[5], steps: NOT_REPLACED },
    Story { title: "the last write fails", failing: &[6], steps: NOT_REPLACED },
    Story { title: "the sync fails", failing: &[7], steps: NOT_REPLACED },
    Story { title: "the rename fails", failing: &[8], steps: NOT_REPLACED },
];

#[test]
fn a_file_is_replaced_or_left_and_loaded_whole(rt: HostRuntime) {
    expect_stories(&rt, rt.alloc(), WHOLE_FILES);
}
