ghost use Rattle.std.specs.Prelude.{IfSome};
ghost use Rattle.std.specs.Bool.{OnTrue};
ghost use Rattle.quota_types.specs.Format.{IsTreeFormat};

use crate::tree_files::*;
use memory_objects::MemStore;
use opened_file::{OpenFault, QuotaFile};
use quota_types::{Damage, DamageKind, Entry, Format, Grace, Kind, Rec};
use std::alloc::Global;
use std::process::Abort;
use tests_row_files::{get, next_after, store_of};
use tree_file::{TreeFile, open_tree};

/// What the header of an opened file says: its format, its grace periods and its flags.
type Said = (Format, Grace, u32);

/// A file that is opened. It has the name `q` in the store.
struct OpenRow {
    title: &'static str,
    file: SixBlocks,
    name: &'static str,
    kind: Kind,
    format: Option<Format>,
    limit: u32,
    answer: Result<Said, OpenFault>,
}

/// Expects each opening to answer what its row says.
fn expect_openings(rt: &impl Abort, alloc: Global, rows: &[OpenRow]) {
    for row in rows {
        let got = answer_of(alloc, row);
        assert!(rt; got == Some(row.answer), "{}: {got:?}", row.title);
    }
}

/// What the call answers; None where there is not enough memory, or where it may not be asked for.
fn answer_of(alloc: Global, row: &OpenRow) -> Option<Result<Said, OpenFault>> {
    let (len, changes) = row.file;
    let file = made(alloc, len, changes).ok()?;
    let mut store = store_of(alloc, file.as_slice(), &[]).ok()?;
    if !may_be_asked_for(row.format) {
        return None;
    }
    match open_tree(alloc, &mut store, row.name, row.kind, row.format, row.limit) {
        Ok(file) => Some(Ok(said_by(&file))),
        Err(fault) => Some(Err(fault)),
    }
}

/// Whether a tree file may be asked for in this format.
fn may_be_asked_for(format: Option<Format>) -> bool
    ensures { OnTrue result (IfSome format IsTreeFormat) }
{
    match format {
        Some(format) => !format.is_flat(),
        None => true,
    }
}

fn said_by(file: &TreeFile) -> Said {
    let format = QuotaFile::<MemStore>::format(file);
    let grace = QuotaFile::<MemStore>::grace(file);
    (format, grace, file.flags())
}

/// Openings. In each of the first eight refused ones another refusal would hold too, if the one didn't come first.
const OPENED: &[OpenRow] = &[
    OpenRow {
        title: "six blocks",
        file: (6144, &[]),
        name: "q",
        kind: Kind::User,
        format: Some(Format::V2R1),
        limit: 6,
        answer: Ok((
            Format::V2R1,
            Grace {
                block: 604_800,
                inode: 604_800,
            },
            0,
        )),
    },
    OpenRow {
        title: "no quota file",
        file: (6144, &[&[(MAGIC, 7), (VERSION, 7)]]),
        name: "q",
        kind: Kind::Group,
        format: None,
        limit: 6,
        answer: Err(OpenFault::NotQuota),
    },
    OpenRow {
        title: "a file of another kind",
        file: (6144, &[&[(VERSION, 7)]]),
        name: "q",
        kind: Kind::Group,
        format: None,
        limit: 6,
        answer: Err(OpenFault::WrongKind),
    },
    OpenRow {
        title: "a file of users is none of projects",
        file: (6144, &[&[(VERSION, 7)]]),
        name: "q",
        kind: Kind::Project,
        format: None,
        limit: 6,
        answer: Err(OpenFault::WrongKind),
    },
    OpenRow {
        title: "a file of projects",
        file: (6144, &[&[(MAGIC, 0xd9c0_3f14)]]),
        name: "q",
        kind: Kind::Project,
        format: None,
        limit: 6,
        answer: Ok((
            Format::V2R1,
            Grace {
                block: 604_800,
                inode: 604_800,
            },
            0,
        )),
    },
    OpenRow {
        title: "a file of projects is none of groups",
        file: (6144, &[&[(MAGIC, 0xd9c0_3f14), (VERSION, 7)]]),
        name: "q",
        kind: Kind::Group,
        format: None,
        limit: 6,
        answer: Err(OpenFault::WrongKind),
    },
    OpenRow {
        title: "a version that isn't known",
        file: (6144, &[&[(VERSION, 7), (BLOCKS, 1)]]),
        name: "q",
        kind: Kind::User,
        format: None,
        limit: 6,
        answer: Err(OpenFault::UnknownVersion),
    },
    OpenRow {
        title: "one block",
        file: (6144, &[&[(BLOCKS, 1)]]),
        name: "q",
        kind: Kind::User,
        format: Some(Format::V2R0),
        limit: 0,
        answer: Err(OpenFault::BadBlockCount),
    },
    OpenRow {
        title: "another format than is asked for",
        file: (6144, &[]),
        name: "q",
        kind: Kind::User,
        format: Some(Format::V2R0),
        limit: 5,
        answer: Err(OpenFault::FormatMismatch {
            found: Format::V2R1,
        }),
    },
    OpenRow {
        title: "more blocks than the limit",
        file: (6143, &[]),
        name: "q",
        kind: Kind::User,
        format: Some(Format::V2R1),
        limit: 5,
        answer: Err(OpenFault::TooLarge {
            number: 6,
            limit: 5,
        }),
    },
    OpenRow {
        title: "a damaged file",
        file: (6143, &[]),
        name: "q",
        kind: Kind::User,
        format: None,
        limit: 6,
        answer: Err(OpenFault::Damage(Damage {
            kind: DamageKind::Short,
            block: 5,
            id: 0,
        })),
    },
    OpenRow {
        title: "no file of the name",
        file: (0, &[]),
        name: "r",
        kind: Kind::User,
        format: None,
        limit: 6,
        answer: Err(OpenFault::NoFile),
    },
];

#[test]
fn a_file_is_opened_or_its_first_refusal_is_named(rt: HostRuntime) {
    expect_openings(&rt, rt.alloc(), OPENED);
}

/// A file of users in vfsv1 in which identifiers are looked up.
struct LookupRow {
    title: &'static str,
    file: SixBlocks,
    /// Identifiers, each with its record.
    records: &'static [(u32, Option<Rec>)],
    /// What an identifier is looked for after, each with the next entry.
    next: &'static [(Option<u32>, Option<Entry>)],
}

/// Expects each look-up to answer what its row says.
fn expect_lookups(rt: &impl Abort, alloc: Global, rows: &[LookupRow]) {
    for row in rows {
        let wrong = wrong_in(alloc, row);
        assert!(rt; wrong == Some((None, None)), "{}: {wrong:?}", row.title);
    }
}

/// The first identifier with another record than its row says, and the first look-up of a next one that is another;
/// None where the file is not opened.
fn wrong_in(alloc: Global, row: &LookupRow) -> Option<(Option<u32>, Option<Option<u32>>)> {
    let (len, changes) = row.file;
    let file = made(alloc, len, changes).ok()?;
    let mut store = store_of(alloc, file.as_slice(), &[]).ok()?;
    let mut opened = open_tree(alloc, &mut store, "q", Kind::User, None, 6).ok()?;
    let record = first_wrong_record(&mut opened, &mut store, row.records);
    let next = first_wrong_next(&mut opened, &mut store, row.next);
    Some((record, next))
}

fn first_wrong_record(
    file: &mut TreeFile,
    store: &mut MemStore,
    records: &[(u32, Option<Rec>)],
) -> Option<u32> {
    for (id, rec) in records {
        if get(file, store, *id) != Some(Ok(*rec)) {
            return Some(*id);
        }
    }
    None
}

fn first_wrong_next(
    file: &mut TreeFile,
    store: &mut MemStore,
    next: &[(Option<u32>, Option<Entry>)],
) -> Option<Option<u32>> {
    for (after, entry) in next {
        if next_after(file, store, *after) != Some(Ok(*entry)) {
            return Some(*after);
        }
    }
    None
}

/// The record of identifier 1000 in the six-block file.
const REC: Rec = Rec {
    ihard: 0,
    isoft: 0,
    inodes: 1,
    bhard: 0,
    bsoft: 0,
    space: 4096,
    btime: 0,
    itime: 0,
};

/// The entry of identifier 1000 in the six-block file.
const ENTRY_1000: Option<Entry> = Some(Entry { id: 1000, rec: REC });

const LOOKED_UP: &[LookupRow] = &[
    LookupRow {
        title: "six blocks have one record",
        file: (6144, &[]),
        records: &[
            (0, None),
            (999, None),
            (1000, Some(REC)),
            (1001, None),
            (1000 + 256, None),
            (u32::MAX, None),
        ],
        next: &[
            (None, ENTRY_1000),
            (Some(0), ENTRY_1000),
            (Some(999), ENTRY_1000),
            (Some(1000), None),
            (Some(0x1000_0000), None),
            (Some(u32::MAX), None),
        ],
    },
    LookupRow {
        title: "the header alone has nothing to look up",
        file: (32, &[EMPTY]),
        records: &[(0, None), (1000, None), (u32::MAX, None)],
        next: &[
            (None, None),
            (Some(0), None),
            (Some(1000), None),
            (Some(u32::MAX), None),
        ],
    },
];

#[test]
fn identifiers_are_looked_up(rt: HostRuntime) {
    expect_lookups(&rt, rt.alloc(), LOOKED_UP);
}
