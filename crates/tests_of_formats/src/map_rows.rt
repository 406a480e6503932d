use crate::made_files::{DOUBLED, LAST, LIMITS, LIST, Made, NULLS, PERIODS, USED, make};
use crate::opened_steps::{Step, Story, expect_stories};
use memory_objects::MemStore;
use opened_file::{FileFault, OpenFault, QuotaFile, ReplaceFault};
use quota_map::open_file;
use quota_types::{Damage, DamageKind, Format, Kind};
use std::alloc::Global;
use std::process::Abort;

/// What is written.
const WRITTEN: &[Step] = &[Step::Grace(PERIODS), Step::All(&LIST)];

/// What is done then.
const CHANGES: &[Step] = &[
    Step::Remove(0),
    Step::Get(0, None),
    Step::Get(1000, Some(USED)),
    Step::SetGrace(DOUBLED),
];

/// What is there then.
const CHANGED: &[Step] = &[
    Step::Grace(DOUBLED),
    Step::Next(None, Some(LAST)),
    Step::Next(Some(1000), None),
];

/// Which format a file has, and which flags.
const FLAT: &[Step] = &[Step::Is(Format::V1), Step::Flags(0)];

const FLAT_OF_32: &[Step] = &[Step::Is(Format::V1R32), Step::Flags(0)];

const NARROW: &[Step] = &[Step::Is(Format::V2R0), Step::Flags(5)];

const WIDE: &[Step] = &[Step::Is(Format::V2R1), Step::Flags(5)];

#[rattlefmt::skip]
const STORIES: &[Story] = &[
    Story { title: "vfsold", made: Made::Flat, failing: &[], kind: Kind::User, format: Some(Format::V1), limit: None,
        openings: &[FLAT, WRITTEN, CHANGES, CHANGED, FLAT] },
    Story { title: "vfsold32", made: Made::Flat32, failing: &[], kind: Kind::User, format: Some(Format::V1R32),
        limit: None, openings: &[FLAT_OF_32, WRITTEN, CHANGES, CHANGED, FLAT_OF_32] },
    Story { title: "vfsv0", made: Made::Narrow, failing: &[], kind: Kind::User, format: Some(Format::V2R0),
        limit: None, openings: &[NARROW, WRITTEN, CHANGES, CHANGED, NARROW] },
    Story { title: "vfsv1", made: Made::Wide, failing: &[], kind: Kind::User, format: Some(Format::V2R1), limit: None,
        openings: &[WIDE, WRITTEN, CHANGES, CHANGED, WIDE] },
    Story { title: "vfsv1 of projects", made: Made::OfProjects, failing: &[], kind: Kind::Project, format: None,
        limit: None, openings: &[WIDE, WRITTEN, CHANGES, CHANGED, WIDE] },
    Story { title: "null records of a tree file are read", made: Made::Nulls, failing: &[], kind: Kind::Group,
        format: None, limit: None, openings: &[&[Step::All(&NULLS)]] },
];

#[test]
fn a_file_of_each_format_is_read_and_changed_as_it_was_written(rt: HostRuntime) {
    expect_stories(&rt, rt.alloc(), STORIES);
}

/// The steps of a file in vfsv1 with at most 7 blocks, all of which it has. Identifier 70,000 would need two tree
/// blocks more: those of the beginnings 0.1 and 0.1.17.
const FULL: &[Step] = &[
    Step::PutFails(
        70_000,
        LIMITS,
        FileFault::Full {
            blocks: 9,
            limit: 7,
        },
    ),
    Step::Get(70_000, None),
    Step::Put(1001, LIMITS),
    Step::Get(1001, Some(LIMITS)),
];

const FULL_FILES: &[Story] = &[Story {
    title: "seven blocks of seven",
    made: Made::Wide,
    failing: &[],
    kind: Kind::User,
    format: None,
    limit: Some(7),
    openings: &[FULL],
}];

#[test]
fn a_change_of_a_full_file_tells_how_many_blocks_it_would_need(rt: HostRuntime) {
    expect_stories(&rt, rt.alloc(), FULL_FILES);
}

/// What is made as `q`, which file is opened, as what, and its format or why it isn't opened.
type OpenRow = (
    Made,
    &'static str,
    Kind,
    Option<Format>,
    Result<Format, OpenFault>,
);

/// A file of users in vfsv1 ends inside its record 179 where it is taken for one of vfsold, and has whole records where
/// it is taken for one of vfsold32; each of both flat files ends inside a record where it is taken for the other one.
const PARTIAL: OpenFault = OpenFault::Damage(Damage {
    kind: DamageKind::PartialRecord,
    block: 179,
    id: 0,
});

const PARTIAL_1251: OpenFault = OpenFault::Damage(Damage {
    kind: DamageKind::PartialRecord,
    block: 1251,
    id: 0,
});

const PARTIAL_800: OpenFault = OpenFault::Damage(Damage {
    kind: DamageKind::PartialRecord,
    block: 800,
    id: 0,
});

const OTHER_FORMAT: OpenFault = OpenFault::FormatMismatch {
    found: Format::V2R1,
};

#[rattlefmt::skip]
const OPENED: &[OpenRow] = &[
    (Made::Wide, "q", Kind::Group, None, Err(OpenFault::WrongKind)),
    (Made::Wide, "q", Kind::Group, Some(Format::V2R0), Err(OpenFault::WrongKind)),
    (Made::Wide, "q", Kind::Project, None, Err(OpenFault::WrongKind)),
    (Made::OfProjects, "q", Kind::Project, None, Ok(Format::V2R1)),
    (Made::OfProjects, "q", Kind::Project, Some(Format::V2R1), Ok(Format::V2R1)),
    (Made::OfProjects, "q", Kind::Project, Some(Format::V2R0), Err(OTHER_FORMAT)),
    (Made::OfProjects, "q", Kind::Group, None, Err(OpenFault::WrongKind)),
    (Made::OfProjects, "q", Kind::User, Some(Format::V2R1), Err(OpenFault::WrongKind)),
    (Made::Nulls, "q", Kind::Project, None, Err(OpenFault::WrongKind)),
    (Made::Wide, "q", Kind::User, Some(Format::V2R0), Err(OTHER_FORMAT)),
    (Made::Wide, "q", Kind::User, Some(Format::V1), Err(PARTIAL)),
    (Made::Wide, "q", Kind::User, None, Ok(Format::V2R1)),
    (Made::Wide, "r", Kind::User, None, Err(OpenFault::NoFile)),
    (Made::Wide, "r", Kind::User, Some(Format::V1), Err(OpenFault::NoFile)),
    (Made::Wide, "r", Kind::User, Some(Format::V2R0), Err(OpenFault::NoFile)),
    (Made::Flat, "q", Kind::User, None, Err(OpenFault::NotQuota)),
    (Made::Flat, "q", Kind::Group, Some(Format::V1), Ok(Format::V1)),
    (Made::Flat, "q", Kind::Project, Some(Format::V1), Ok(Format::V1)),
    (Made::Flat, "q", Kind::Project, None, Err(OpenFault::NotQuota)),
    (Made::Wide, "q", Kind::User, Some(Format::V1R32), Ok(Format::V1R32)),
    (Made::Wide, "r", Kind::User, Some(Format::V1R32), Err(OpenFault::NoFile)),
    (Made::Flat, "q", Kind::User, Some(Format::V1R32), Err(PARTIAL_1251)),
    (Made::Flat32, "q", Kind::User, Some(Format::V1), Err(PARTIAL_800)),
    (Made::Flat32, "q", Kind::User, Some(Format::V2R1), Err(OpenFault::NotQuota)),
    (Made::Flat32, "q", Kind::User, None, Err(OpenFault::NotQuota)),
    (Made::Flat32, "q", Kind::Group, Some(Format::V1R32), Ok(Format::V1R32)),
    (Made::Flat32, "q", Kind::Project, Some(Format::V1R32), Ok(Format::V1R32)),
];

fn is_opened(alloc: Global, row: &OpenRow) -> bool {
    let mut store = MemStore::new(Vec::new(alloc), Vec::new(alloc));
    if make(alloc, &mut store, row.0) != Ok(()) {
        return false;
    }
    match open_file(alloc, &mut store, row.1, row.2, row.3) {
        Ok(file) => row.4 == Ok(QuotaFile::<MemStore>::format(&file)),
        Err(fault) => row.4 == Err(fault),
    }
}

fn expect_opened(rt: &impl Abort, alloc: Global, rows: &[OpenRow]) {
    for row in rows {
        assert!(rt;
            is_opened(alloc, row),
            "{:?} {} {:?} {:?}",
            row.0,
            row.1,
            row.2,
            row.3
        );
    }
}

#[test]
fn a_file_is_opened_as_what_is_asked_for(rt: HostRuntime) {
    expect_opened(&rt, rt.alloc(), OPENED);
}

/// Whether a flat file stays, and nothing stands beside it, where a tree file in its place would have 7 blocks and may
/// have 6.
fn stays_flat(alloc: Global) -> bool {
    let mut store = MemStore::new(Vec::new(alloc), Vec::new(alloc));
    if make(alloc, &mut store, Made::Flat) != Ok(()) {
        return false;
    }
    let full = ReplaceFault::Full {
        blocks: 7,
        limit: 6,
    };
    if make(alloc, &mut store, Made::WideInSix) != Err(full) {
        return false;
    }
    // a flat file has a record for each identifier up to the last one
    store.file("q").is_some_and(|bytes| bytes.len() == 40_040) && store.file("q.new").is_none()
}

#[test]
fn a_file_that_is_too_large_is_found_before_anything_is_written(rt: HostRuntime) {
    assert!(rt; stays_flat(rt.alloc()), "the flat file");
}
