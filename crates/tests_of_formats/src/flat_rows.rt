use crate::made_files::{LIMITS, Made};
use crate::opened_steps::{Part, Step, Story, are_parts, expect_stories};
use opened_file::FileFault;
use quota_types::{Damage, DamageKind, Entry, Format, Grace, Kind, Rec};
use quota_v1::build_v1;
use std::alloc::{AllocError, Global};
use std::process::Abort;

/// `LIMITS` on disk, without its times.
const LIMITS_BYTES: &[u8] = b"\xc8\0\0\0\x64\0\0\0\0\0\0\0\x14\0\0\0\x0a\0\0\0\0\0\0\0";

/// Times of 7 and 9 seconds on disk.
const TIMES_BYTES: &[u8] = b"\x07\0\0\0\0\0\0\0\x09\0\0\0\0\0\0\0";

/// The same in a file of vfsold32.
const TIMES_BYTES_32: &[u8] = b"\x07\0\0\0\x09\0\0\0";

/// The periods of both.
const TIMES: Grace = Grace { block: 7, inode: 9 };

const STORIES: &[Story] = &[
    Story {
        title: "put lengthens a file up to the record",
        made: Made::Written(&[]),
        failing: &[],
        kind: Kind::User,
        format: Some(Format::V1),
        limit: None,
        openings: &[&[
            Step::Put(1000, LIMITS),
            Step::Get(1000, Some(LIMITS)),
            Step::File(40_040, &[(40_000, LIMITS_BYTES)]),
        ]],
    },
    Story {
        title: "put lengthens a file far",
        made: Made::Written(&[]),
        failing: &[],
        kind: Kind::User,
        format: Some(Format::V1),
        limit: None,
        openings: &[&[
            Step::Put(65_535, LIMITS),
            Step::Get(65_535, Some(LIMITS)),
            Step::File(2_621_440, &[(2_621_400, LIMITS_BYTES)]),
        ]],
    },
    Story {
        title: "a record of identifier 0 leaves the grace periods",
        made: Made::Written(&[(24, TIMES_BYTES), (40, b"\x01"), (79, b"\0")]),
        failing: &[],
        kind: Kind::User,
        format: Some(Format::V1),
        limit: None,
        openings: &[&[
            Step::Put(0, LIMITS),
            Step::File(80, &[(0, LIMITS_BYTES), (24, TIMES_BYTES), (40, b"\x01")]),
            Step::Remove(0),
            Step::Remove(1),
            Step::File(80, &[(24, TIMES_BYTES)]),
        ]],
    },
    Story {
        title: "grace periods make one record of an empty file",
        made: Made::Written(&[]),
        failing: &[],
        kind: Kind::User,
        format: Some(Format::V1),
        limit: None,
        openings: &[&[Step::SetGrace(TIMES), Step::File(40, &[(24, TIMES_BYTES)])]],
    },
    Story {
        title: "a change that fails leaves the file and ends its use",
        made: Made::Written(&[(24, TIMES_BYTES)]),
        failing: &[4],
        kind: Kind::User,
        format: Some(Format::V1),
        limit: None,
        openings: &[&[
            Step::PutFails(3, LIMITS, FileFault::Store),
            Step::Usable(false),
            Step::File(40, &[(24, TIMES_BYTES)]),
        ]],
    },
];

#[test]
fn a_change_of_a_flat_file_leaves_its_other_bytes(rt: HostRuntime) {
    expect_stories(&rt, rt.alloc(), STORIES);
}

/// Limits and the latest timers of a file of vfsold32, and these timers on disk.
const LATEST: Rec = Rec {
    btime: 4_294_967_295,
    itime: 2_147_483_648,
    ..LIMITS
};

const LATEST_BYTES: &[u8] = b"\xff\xff\xff\xff\0\0\0\x80";

#[rattlefmt::skip]
const STORIES_OF_32: &[Story] = &[
    Story { title: "put lengthens a file up to the record", made: Made::Written(&[]), failing: &[], kind: Kind::User,
        format: Some(Format::V1R32), limit: None,
        openings: &[&[Step::Put(1000, LATEST), Step::Get(1000, Some(LATEST)), Step::Get(999, None),
            Step::File(32_032, &[(32_000, LIMITS_BYTES), (32_024, LATEST_BYTES)])],
            &[Step::Get(1000, Some(LATEST)), Step::Next(None, Some(Entry { id: 1000, rec: LATEST }))]] },
    Story { title: "put lengthens a file far", made: Made::Written(&[]), failing: &[], kind: Kind::User,
        format: Some(Format::V1R32), limit: None,
        openings: &[&[Step::Put(65_535, LIMITS), Step::Get(65_535, Some(LIMITS)), Step::Get(1_048_576, None),
            Step::Get(u32::MAX, None), Step::Next(Some(65_535), None), Step::File(2_097_152,
                &[(2_097_120, LIMITS_BYTES)])]] },
    Story { title: "a record of identifier 0 leaves the grace periods",
        made: Made::Written(&[(24, TIMES_BYTES_32), (32, b"\x01"), (63, b"\0")]), failing: &[], kind: Kind::User,
        format: Some(Format::V1R32), limit: None,
        openings: &[&[Step::Grace(TIMES), Step::Put(0, LIMITS),
            Step::File(64, &[(0, LIMITS_BYTES), (24, TIMES_BYTES_32), (32, b"\x01")]), Step::Remove(0), Step::Remove(1),
            Step::File(64, &[(24, TIMES_BYTES_32)])]] },
    Story { title: "a stored period of 0 stays", made: Made::Written(&[(24, b"\x07"), (31, b"\0")]), failing: &[],
        kind: Kind::User, format: Some(Format::V1R32), limit: None,
        openings: &[&[Step::Grace(Grace { block: 7, inode: 604_800 }), Step::Put(0, LIMITS),
            Step::File(32, &[(0, LIMITS_BYTES), (24, b"\x07")])]] },
    Story { title: "grace periods make one record of an empty file", made: Made::Written(&[]), failing: &[],
        kind: Kind::User, format: Some(Format::V1R32), limit: None,
        openings: &[&[Step::SetGrace(TIMES), Step::File(32, &[(24, TIMES_BYTES_32)])]] },
    Story { title: "a record that is cut off is a damage until it is put",
        made: Made::Written(&[(24, TIMES_BYTES_32), (32, LIMITS_BYTES), (64, LIMITS_BYTES), (95, b"\0")]), failing: &[],
        kind: Kind::User, format: Some(Format::V1R32), limit: None,
        openings: &[&[Step::Cut(80), Step::GetFails(2, WITHIN_TWO), Step::Usable(true), Step::Get(1, Some(LIMITS)),
            Step::Put(2, LIMITS), Step::Get(2, Some(LIMITS)),
            Step::File(96, &[(24, TIMES_BYTES_32), (32, LIMITS_BYTES), (64, LIMITS_BYTES)])]] },
];

#[test]
fn a_change_of_a_file_of_vfsold32_leaves_its_other_bytes(rt: HostRuntime) {
    expect_stories(&rt, rt.alloc(), STORIES_OF_32);
}

/// Record 0 with its times, and records of the identifiers 1 and 2.
const THREE: Made = Made::Written(&[
    (24, TIMES_BYTES),
    (40, LIMITS_BYTES),
    (80, LIMITS_BYTES),
    (119, b"\0"),
]);

/// Two records of `THREE`, and three.
const FIRST_TWO: &[Part] = &[(24, TIMES_BYTES), (40, LIMITS_BYTES)];

const ALL_THREE: &[Part] = &[(24, TIMES_BYTES), (40, LIMITS_BYTES), (80, LIMITS_BYTES)];

/// The entry of identifier 1 in `THREE`.
const ONE: Entry = Entry { id: 1, rec: LIMITS };

/// The file ends within record 2.
const WITHIN_TWO: FileFault = FileFault::Damage(Damage {
    kind: DamageKind::PartialRecord,
    block: 2,
    id: 0,
});

#[rattlefmt::skip]
const CUT: &[Story] = &[
    Story { title: "behind the new end there are no records, and a put lengthens the file again", made: THREE, failing: &[],
        kind: Kind::User, format: Some(Format::V1), limit: None,
        openings: &[&[Step::Get(2, Some(LIMITS)), Step::Cut(80), Step::Get(2, None), Step::Get(1, Some(LIMITS)),
            Step::Next(Some(0), Some(ONE)), Step::Next(Some(1), None), Step::File(80, FIRST_TWO),
            Step::Put(2, LIMITS), Step::Get(2, Some(LIMITS)), Step::File(120, ALL_THREE)]] },
    Story { title: "a put further on leaves zeros between", made: THREE, failing: &[], kind: Kind::User,
        format: Some(Format::V1), limit: None,
        openings: &[&[Step::Cut(40), Step::Put(2, LIMITS), Step::Next(Some(0), Some(Entry { id: 2, rec: LIMITS })),
            Step::File(120, &[(24, TIMES_BYTES), (80, LIMITS_BYTES)])]] },
    Story { title: "a record that is cut off is a damage until it is put", made: THREE, failing: &[], kind: Kind::User,
        format: Some(Format::V1), limit: None,
        openings: &[&[Step::Cut(100), Step::GetFails(2, WITHIN_TWO), Step::Usable(true), Step::Get(1, Some(LIMITS)),
            Step::Put(2, LIMITS), Step::Get(2, Some(LIMITS)), Step::File(120, ALL_THREE)]] },
    Story { title: "none is removed behind the new end", made: THREE, failing: &[], kind: Kind::User,
        format: Some(Format::V1), limit: None,
        openings: &[&[Step::Cut(80), Step::Remove(2), Step::File(80, FIRST_TWO), Step::Remove(1),
            Step::File(80, &[(24, TIMES_BYTES)])]] },
    Story { title: "grace periods are set where all is cut off", made: THREE, failing: &[], kind: Kind::User,
        format: Some(Format::V1), limit: None,
        openings: &[&[Step::Cut(0), Step::Get(1, None), Step::Next(None, None), Step::SetGrace(TIMES),
            Step::File(40, &[(24, TIMES_BYTES)])]] },
];

#[test]
fn a_flat_file_that_is_cut_behind_its_opening_loses_nothing_more(rt: HostRuntime) {
    expect_stories(&rt, rt.alloc(), CUT);
}

/// A built file has to have this many bytes, and zeros but for these parts.
fn expect_built(
    rt: &impl Abort,
    alloc: Global,
    built: Result<Vec<u8>, AllocError>,
    len: usize,
    parts: &[Part],
) {
    let as_wanted = match &built {
        Ok(bytes) => are_parts(alloc, bytes.as_slice(), len, parts),
        Err(_) => false,
    };
    assert!(rt; as_wanted, "{built:?}");
}

/// A file with no record.
fn build_none(alloc: Global) -> Result<Vec<u8>, AllocError> {
    build_v1(alloc, Format::V1, TIMES, &[])
}

/// A file with records of the identifiers 0 and 2, the second of which has the times of the grace periods.
fn build_two(alloc: Global) -> Result<Vec<u8>, AllocError> {
    let timed = Rec {
        btime: 7,
        itime: 9,
        ..LIMITS
    };
    let of_zero = Entry { id: 0, rec: LIMITS };
    let of_two = Entry { id: 2, rec: timed };
    build_v1(alloc, Format::V1, TIMES, &[of_zero, of_two])
}

/// Both in vfsold32.
fn build_none_of_32(alloc: Global) -> Result<Vec<u8>, AllocError> {
    build_v1(alloc, Format::V1R32, TIMES, &[])
}

fn build_two_of_32(alloc: Global) -> Result<Vec<u8>, AllocError> {
    let timed = Rec {
        btime: 7,
        itime: 9,
        ..LIMITS
    };
    let of_zero = Entry { id: 0, rec: LIMITS };
    let of_two = Entry { id: 2, rec: timed };
    build_v1(alloc, Format::V1R32, TIMES, &[of_zero, of_two])
}

const NO_RECORDS: &[Part] = &[(24, TIMES_BYTES)];

const TWO_RECORDS: &[Part] = &[
    (0, LIMITS_BYTES),
    (24, TIMES_BYTES),
    (80, LIMITS_BYTES),
    (104, TIMES_BYTES),
];

#[test]
fn a_built_file_has_the_periods_and_the_records_of_its_list(rt: HostRuntime) {
    expect_built(&rt, rt.alloc(), build_none(rt.alloc()), 40, NO_RECORDS);
    expect_built(&rt, rt.alloc(), build_two(rt.alloc()), 120, TWO_RECORDS);
}

const NO_RECORDS_OF_32: &[Part] = &[(24, TIMES_BYTES_32)];

const TWO_RECORDS_OF_32: &[Part] = &[
    (0, LIMITS_BYTES),
    (24, TIMES_BYTES_32),
    (64, LIMITS_BYTES),
    (88, TIMES_BYTES_32),
];

#[test]
fn a_built_file_of_vfsold32_has_times_of_32_bits(rt: HostRuntime) {
    let none = build_none_of_32(rt.alloc());
    expect_built(&rt, rt.alloc(), none, 32, NO_RECORDS_OF_32);
    let two = build_two_of_32(rt.alloc());
    expect_built(&rt, rt.alloc(), two, 96, TWO_RECORDS_OF_32);
}
