use crate::tree_files::*;
use quota_types::{Entry, Format, Grace, Kind, Rec};
use std::alloc::{AllocError, Global};
use std::process::Abort;
use tests_row_files::{holds_entries, ordered, store_of};
use tree_build::{BuildFault, build};
use tree_file::open_tree;

/// A week, as the quota tools set it.
pub(crate) const WEEK: Grace = Grace {
    block: 604_800,
    inode: 604_800,
};

/// The record of one inode.
const ONE_INODE: Rec = Rec {
    ihard: 0,
    isoft: 0,
    inodes: 1,
    bhard: 0,
    bsoft: 0,
    space: 0,
    btime: 0,
    itime: 0,
};

/// The entries of a file that is built.
#[derive(Drop)]
enum Entries {
    /// This many identifiers from 0 on, each this far above the one before it, that use one inode each.
    Spaced(u32, u32),
    Listed(&'static [Entry]),
}

use Entries::*;

/// A file that is built.
#[derive(Drop)]
struct BuildRow {
    title: &'static str,
    format: Format,
    entries: Entries,
    limit: u32,
    /// How many blocks it has, and which data block has room, if any; or why it is refused.
    answer: Result<(u32, u32), BuildFault>,
}

/// Expects each file to be built as its row says.
fn expect_builds(rt: &impl Abort, alloc: Global, rows: &[BuildRow]) {
    for row in rows {
        let got = answer_of(alloc, row);
        assert!(rt;
            got == Ok(Some(row.answer)),
            "{}, {:?}: {got:?}, wanted {:?}",
            row.title,
            row.format,
            row.answer
        );
    }
}

/// What the call answers: of the file that is built the blocks, and the data block with room. None where the list can't
/// be built, or where the file isn't one of its entries.
fn answer_of(
    alloc: Global,
    row: &BuildRow,
) -> Result<Option<Result<(u32, u32), BuildFault>>, AllocError> {
    let list = entries_of(alloc, &row.entries)?;
    let built = match built(alloc, row.format, list.as_slice(), row.limit)? {
        Some(Ok(file)) => file,
        Some(Err(fault)) => return Ok(Some(Err(fault))),
        None => return Ok(None),
    };
    if !is_of(alloc, built.as_slice(), row.format, list.as_slice())? {
        return Ok(None);
    }
    let Ok(header) = header_of(built.as_slice()) else {
        return Ok(None);
    };
    if header.free != 0 || built.len() != 1024 * header.blocks as usize {
        return Ok(None);
    }
    Ok(Some(Ok((header.blocks, header.first))))
}

fn entries_of(alloc: Global, entries: &Entries) -> Result<Vec<Entry>, AllocError> {
    match entries {
        Spaced(count, step) => spaced(alloc, *count, *step),
        Listed(list) => Vec::from_slice(alloc, list),
    }
}

pub(crate) fn spaced(alloc: Global, count: u32, step: u32) -> Result<Vec<Entry>, AllocError> {
    let mut list = Vec::new(alloc);
    for place in 0..count {
        list.push(Entry {
            id: place.wrapping_mul(step),
            rec: ONE_INODE,
        })?;
    }
    Ok(list)
}

/// What `build` answers on a list; None where it may not be asked for.
pub(crate) fn built(
    alloc: Global,
    format: Format,
    list: &[Entry],
    limit: u32,
) -> Result<Option<Result<Vec<u8>, BuildFault>>, AllocError> {
    let entries = ordered(alloc, format, list)?;
    if format.is_flat() || entries.len() != list.len() {
        return Ok(None);
    }
    let file = build(
        alloc,
        format,
        Kind::User,
        WEEK,
        0,
        entries.as_slice(),
        limit,
    );
    Ok(Some(file))
}

/// Whether a file has nothing wrong, no free block, and these entries.
fn is_of(alloc: Global, file: &[u8], format: Format, list: &[Entry]) -> Result<bool, AllocError> {
    let (answer, _) = checked(alloc, file)?;
    if answer != found(list.len() as u64, 0) || format.is_flat() {
        return Ok(false);
    }
    let mut store = store_of(alloc, file, &[])?;
    let opened = open_tree(alloc, &mut store, "q", Kind::User, Some(format), u32::MAX);
    match opened {
        Ok(mut opened) => Ok(holds_entries(&mut opened, &mut store, list)),
        Err(_) => Ok(false),
    }
}

/// How many identifiers there are and how far apart, and how many blocks they need; and which data block has room,
/// or 0.
type NeededRow = (Format, u32, u32, u32, u32);

/// Expects each file to have the blocks that its row says.
fn expect_needed(rt: &impl Abort, alloc: Global, rows: &[NeededRow]) {
    for (format, count, step, blocks, first) in rows {
        let row = BuildRow {
            title: "a file has as many blocks as it needs",
            format: *format,
            entries: Spaced(*count, *step),
            limit: u32::MAX,
            answer: Ok((*blocks, *first)),
        };
        expect_builds(rt, alloc, &[row]);
    }
}

const FAR: u32 = 1 << 24;

/// How many blocks files need: in both formats, where the identifiers are 1 apart and where they are 2^24 apart.
const NEEDED: &[NeededRow] = &[
    (Format::V2R0, 0, 1, 2, 0),
    (Format::V2R0, 1, 1, 6, 2),
    (Format::V2R0, 14, 1, 6, 2),
    (Format::V2R0, 15, 1, 6, 2),
    (Format::V2R0, 21, 1, 6, 0),
    (Format::V2R0, 22, 1, 7, 3),
    (Format::V2R1, 0, 1, 2, 0),
    (Format::V2R1, 1, 1, 6, 2),
    (Format::V2R1, 14, 1, 6, 0),
    (Format::V2R1, 15, 1, 7, 3),
    (Format::V2R1, 21, 1, 7, 3),
    (Format::V2R1, 22, 1, 7, 3),
    (Format::V2R0, 0, FAR, 2, 0),
    (Format::V2R0, 1, FAR, 6, 2),
    (Format::V2R0, 14, FAR, 45, 2),
    (Format::V2R0, 15, FAR, 48, 2),
    (Format::V2R0, 21, FAR, 66, 0),
    (Format::V2R0, 22, FAR, 70, 3),
    (Format::V2R1, 0, FAR, 2, 0),
    (Format::V2R1, 1, FAR, 6, 2),
    (Format::V2R1, 14, FAR, 45, 0),
    (Format::V2R1, 15, FAR, 49, 3),
    (Format::V2R1, 21, FAR, 67, 3),
    (Format::V2R1, 22, FAR, 70, 3),
    (Format::V2R0, 52, 1, 8, 4),
    (Format::V2R1, 52, 1, 9, 5),
    (Format::V2R0, 52, 0x0505_0505, 161, 4),
    (Format::V2R1, 52, 0x0505_0505, 162, 5),
];

#[test]
fn a_file_has_as_many_blocks_as_it_needs(rt: HostRuntime) {
    expect_needed(&rt, rt.alloc(), NEEDED);
}

/// Files at their limit, and past it.
const LIMITED: &[BuildRow] = &[
    BuildRow {
        title: "identifiers far apart need tree blocks of their own",
        format: Format::V2R1,
        entries: Spaced(2, u32::MAX),
        limit: 9,
        answer: Ok((9, 2)),
    },
    BuildRow {
        title: "one block too many",
        format: Format::V2R1,
        entries: Spaced(2, u32::MAX),
        limit: 8,
        answer: Err(BuildFault::Full {
            blocks: 9,
            limit: 8,
        }),
    },
    BuildRow {
        title: "a full data block is in no list, and one with room is",
        format: Format::V2R1,
        entries: Spaced(15, 1),
        limit: 7,
        answer: Ok((7, 3)),
    },
    BuildRow {
        title: "a full data block alone",
        format: Format::V2R0,
        entries: Spaced(21, 1),
        limit: 6,
        answer: Ok((6, 0)),
    },
];

#[test]
fn a_file_is_built_up_to_its_limit(rt: HostRuntime) {
    expect_builds(&rt, rt.alloc(), LIMITED);
}

/// Lists whose records differ, or are null.
const LISTED: &[BuildRow] = &[
    BuildRow {
        title: "null records are kept",
        format: Format::V2R1,
        entries: Listed(&[
            Entry { id: 0, rec: ZEROS },
            Entry {
                id: 7,
                rec: Rec { itime: 5, ..ZEROS },
            },
        ]),
        limit: 6,
        answer: Ok((6, 2)),
    },
    // identifiers that share a data block, the first and the last one among them
    BuildRow {
        title: "each identifier of a data block has its own record",
        format: Format::V2R1,
        entries: Listed(&[
            Entry { id: 0, rec: ZEROS },
            Entry {
                id: 300,
                rec: Rec { inodes: 3, ..USED },
            },
            Entry {
                id: u32::MAX,
                rec: Rec { inodes: 4, ..USED },
            },
        ]),
        limit: 99,
        answer: Ok((10, 2)),
    },
];

const ZEROS: Rec = Rec {
    inodes: 0,
    ..ONE_INODE
};

const USED: Rec = Rec {
    space: 4096,
    ..ONE_INODE
};

#[test]
fn each_record_of_a_list_is_in_the_file(rt: HostRuntime) {
    expect_builds(&rt, rt.alloc(), LISTED);
}
