use quota_types::{
    Field, Format, Grace, NoRoom, Rec, check_record, fits, grace_fits, kept, next_kept, next_timers,
};
use std::process::Abort;

const WEEK: Grace = Grace {
    block: 604_800,
    inode: 604_800,
};

const ZEROS: Rec = Rec {
    ihard: 0,
    isoft: 0,
    inodes: 0,
    bhard: 0,
    bsoft: 0,
    space: 0,
    btime: 0,
    itime: 0,
};

/// A record with 4 KiB and one inode in use, over its soft limit of blocks.
const OVER: Rec = Rec {
    bsoft: 2,
    bhard: 8,
    space: 4096,
    inodes: 1,
    ..ZEROS
};

/// `OVER`, with a timer of blocks that started at 1,700,000,000.
const STARTED: Rec = Rec {
    btime: 1_700_604_800,
    ..OVER
};

/// Two limits that 32 bits do not hold.
const NUMBERS: Rec = Rec {
    isoft: 4_294_967_296,
    bhard: 4_294_967_296,
    ..ZEROS
};

/// The latest timers that 32 bits hold.
const LATEST: Rec = Rec {
    btime: 4_294_967_295,
    itime: 4_294_967_295,
    ..ZEROS
};

/// A record of an identifier, and the first field for which the format has no room, with its value.
struct RangeRow {
    format: Format,
    id: u32,
    rec: Rec,
    want: Option<(Field, u128)>,
}

#[rattlefmt::skip]
const RANGES: &[RangeRow] = &[
    RangeRow { format: Format::V1, id: 1_048_575, rec: Rec { space: 4_398_046_510_080, ..ZEROS }, want: None },
    RangeRow { format: Format::V1, id: 1_048_576, rec: Rec { space: 4_398_046_510_080, ..ZEROS },
        want: Some((Field::Id, 1_048_576)) },
    RangeRow { format: Format::V1, id: 7, rec: Rec { space: 4_398_046_510_081, ..ZEROS },
        want: Some((Field::Space, 4_398_046_510_081)) },
    RangeRow { format: Format::V1, id: 7, rec: Rec { btime: u64::MAX, itime: u64::MAX, ..ZEROS }, want: None },
    RangeRow { format: Format::V1R32, id: 1_048_575, rec: Rec { space: 4_398_046_510_080, ..LATEST }, want: None },
    RangeRow { format: Format::V1R32, id: 1_048_576, rec: NUMBERS, want: Some((Field::Id, 1_048_576)) },
    RangeRow { format: Format::V1R32, id: 7, rec: Rec { btime: u64::MAX, ..NUMBERS },
        want: Some((Field::Isoft, 4_294_967_296)) },
    RangeRow { format: Format::V1R32, id: 7, rec: Rec { space: 4_398_046_510_081, btime: 4_294_967_296, ..ZEROS },
        want: Some((Field::Space, 4_398_046_510_081)) },
    RangeRow { format: Format::V1R32, id: 7, rec: Rec { btime: 4_294_967_296, itime: 4_294_967_297, ..ZEROS },
        want: Some((Field::Btime, 4_294_967_296)) },
    RangeRow { format: Format::V1R32, id: 7, rec: Rec { itime: 4_294_967_296, ..LATEST },
        want: Some((Field::Itime, 4_294_967_296)) },
    RangeRow { format: Format::V1R32, id: 0, rec: Rec { btime: 4_294_967_296, ..LATEST },
        want: Some((Field::Btime, 4_294_967_296)) },
    RangeRow { format: Format::V2R0, id: 7, rec: NUMBERS, want: Some((Field::Isoft, 4_294_967_296)) },
    RangeRow { format: Format::V2R1, id: u32::MAX, rec: NUMBERS, want: None },
];

fn expect_ranges(rt: &impl Abort, rows: &[RangeRow]) {
    for row in rows {
        let refusal = row.want.map(|(field, value)| NoRoom {
            id: row.id,
            field,
            value,
        });
        let found = check_record(row.format, row.id, &row.rec).err();
        let first = fits(row.format, row.id, &row.rec);
        let as_wanted = found == refusal && first == row.want.map(|(field, _)| field);
        assert!(rt;
            as_wanted,
            "{:?} {}: {found:?}, {first:?}",
            row.format, row.id
        );
    }
}

#[test]
fn names_the_first_field_without_room(rt: HostRuntime) {
    expect_ranges(&rt, RANGES);
}

/// Grace periods, in seconds, and the first of them for which the format has no room.
struct GraceRow {
    format: Format,
    grace: Grace,
    want: Option<Field>,
}

#[rattlefmt::skip]
const GRACE_RANGES: &[GraceRow] = &[
    GraceRow { format: Format::V1, grace: Grace { block: 0, inode: 1 }, want: Some(Field::BlockGrace) },
    GraceRow { format: Format::V1, grace: Grace { block: u64::MAX, inode: u64::MAX }, want: None },
    GraceRow { format: Format::V1R32, grace: Grace { block: 0, inode: 4_294_967_296 }, want: Some(Field::BlockGrace) },
    GraceRow { format: Format::V1R32, grace: Grace { block: 1, inode: 0 }, want: Some(Field::InodeGrace) },
    GraceRow { format: Format::V1R32, grace: Grace { block: 1, inode: 4_294_967_295 }, want: None },
    GraceRow { format: Format::V1R32, grace: Grace { block: 4_294_967_296, inode: 0 }, want: Some(Field::BlockGrace) },
    GraceRow { format: Format::V1R32, grace: Grace { block: 4_294_967_295, inode: 4_294_967_296 },
        want: Some(Field::InodeGrace) },
    GraceRow { format: Format::V2R0, grace: Grace { block: 0, inode: 4_294_967_295 }, want: None },
    GraceRow { format: Format::V2R1, grace: Grace { block: 1, inode: 4_294_967_296 }, want: Some(Field::InodeGrace) },
];

fn expect_grace_ranges(rt: &impl Abort, rows: &[GraceRow]) {
    for row in rows {
        let found = grace_fits(row.format, &row.grace);
        assert!(rt;
            found == row.want,
            "{:?} {:?}: {found:?}",
            row.format,
            row.grace
        );
    }
}

#[test]
fn names_the_first_grace_period_without_room(rt: HostRuntime) {
    expect_grace_ranges(&rt, GRACE_RANGES);
}

/// A record at a moment, with grace periods of a week, and the record with its next timers.
struct TimerRow {
    title: &'static str,
    rec: Rec,
    now: u64,
    want: Result<Rec, Field>,
}

#[rattlefmt::skip]
const TIMERS: &[TimerRow] = &[
    TimerRow { title: "starts", rec: OVER, now: 1_700_000_000, want: Ok(STARTED) },
    TimerRow { title: "runs on", rec: STARTED, now: 1_700_000_010, want: Ok(STARTED) },
    TimerRow { title: "stops", rec: Rec { bsoft: 4, ..STARTED }, now: 1_700_000_010,
        want: Ok(Rec { bsoft: 4, ..OVER }) },
    TimerRow { title: "ends past 64 bits", rec: OVER, now: u64::MAX, want: Err(Field::Btime) },
];

fn expect_timers(rt: &impl Abort, rows: &[TimerRow]) {
    for row in rows {
        let found = next_timers(row.rec, WEEK, row.now);
        assert!(rt; found == row.want, "{}: {found:?}", row.title);
    }
}

#[test]
fn a_timer_starts_runs_on_and_stops(rt: HostRuntime) {
    expect_timers(&rt, TIMERS);
}

/// An identifier's record at a moment, with grace periods of the file, and what a format keeps of it with its next
/// timers, or the first field for which it has no room.
struct NextRow {
    format: Format,
    id: u32,
    rec: Rec,
    grace: Grace,
    now: u64,
    want: Result<Rec, (Field, u128)>,
}

/// A record that is over both soft limits.
const OVER_BOTH: Rec = Rec {
    isoft: 1,
    inodes: 2,
    ..OVER
};

/// A second for blocks, and the longest period of 32 bits for inodes.
const SHORT_AND_LONG: Grace = Grace {
    block: 1,
    inode: 4_294_967_295,
};

#[rattlefmt::skip]
const NEXT: &[NextRow] = &[
    NextRow { format: Format::V1, id: 1000, rec: OVER, grace: WEEK, now: u64::MAX,
        want: Err((Field::Btime, 18_446_744_073_710_156_415)) },
    NextRow { format: Format::V1, id: 1000, rec: OVER_BOTH, grace: SHORT_AND_LONG, now: 18_446_744_069_414_584_321,
        want: Err((Field::Itime, 18_446_744_073_709_551_616)) },
    NextRow { format: Format::V1R32, id: 1000, rec: OVER_BOTH, grace: SHORT_AND_LONG, now: 18_446_744_069_414_584_321,
        want: Err((Field::Btime, 18_446_744_069_414_584_322)) },
    NextRow { format: Format::V1R32, id: 1000, rec: OVER, grace: WEEK, now: 4_294_362_495,
        want: Ok(Rec { btime: 4_294_967_295, ..OVER }) },
    NextRow { format: Format::V1R32, id: 1000, rec: OVER, grace: WEEK, now: 4_294_362_496,
        want: Err((Field::Btime, 4_294_967_296)) },
    NextRow { format: Format::V1R32, id: 0, rec: OVER, grace: WEEK, now: 4_294_362_495, want: Ok(OVER) },
    NextRow { format: Format::V1R32, id: 0, rec: OVER, grace: WEEK, now: 4_294_362_496,
        want: Err((Field::Btime, 4_294_967_296)) },
    NextRow { format: Format::V1R32, id: 7, rec: Rec { btime: 4_294_967_296, ..OVER }, grace: WEEK, now: 0,
        want: Err((Field::Btime, 4_294_967_296)) },
    NextRow { format: Format::V1R32, id: 7, rec: Rec { itime: 4_294_967_296, ..OVER }, grace: WEEK, now: 0,
        want: Ok(Rec { btime: 604_800, ..OVER }) },
];

fn expect_next(rt: &impl Abort, rows: &[NextRow]) {
    for row in rows {
        let found = next_kept(row.format, row.id, row.rec, row.grace, row.now);
        let want = row.want.map_err(|(field, value)| NoRoom {
            id: row.id,
            field,
            value,
        });
        assert!(rt; found == want, "{:?} {}: {found:?}", row.format, row.id);
    }
}

#[test]
fn timers_that_are_wanted_are_kept_or_told_as_they_are(rt: HostRuntime) {
    expect_next(&rt, NEXT);
}

/// A record, and what the format keeps of it.
struct KeptRow {
    format: Format,
    id: u32,
    rec: Rec,
    want: Rec,
}

/// A record whose space is no whole number of KiB, with timers.
const TIMED: Rec = Rec {
    space: 513,
    btime: 5,
    itime: 1,
    ..ZEROS
};

#[rattlefmt::skip]
const KEPT: &[KeptRow] = &[
    KeptRow { format: Format::V1, id: 7, rec: TIMED, want: Rec { space: 1024, ..TIMED } },
    KeptRow { format: Format::V1, id: 0, rec: TIMED, want: Rec { space: 1024, ..ZEROS } },
    KeptRow { format: Format::V1R32, id: 7, rec: TIMED, want: Rec { space: 1024, ..TIMED } },
    KeptRow { format: Format::V1R32, id: 0, rec: TIMED, want: Rec { space: 1024, ..ZEROS } },
    KeptRow { format: Format::V2R1, id: 0, rec: TIMED, want: TIMED },
    KeptRow { format: Format::V2R1, id: 0, rec: Rec { itime: 1, ..ZEROS }, want: ZEROS },
];

fn kept_if_fits(format: Format, id: u32, rec: Rec) -> Option<Rec> {
    match check_record(format, id, &rec) {
        Ok(()) => Some(kept(format, id, rec)),
        Err(_) => None,
    }
}

fn expect_kept(rt: &impl Abort, rows: &[KeptRow]) {
    for row in rows {
        let found = kept_if_fits(row.format, row.id, row.rec);
        assert!(rt;
            found == Some(row.want),
            "{:?} {}: {found:?}",
            row.format,
            row.id
        );
    }
}

#[test]
fn a_flat_file_keeps_whole_kib_and_a_tree_file_all_but_its_mark(rt: HostRuntime) {
    expect_kept(&rt, KEPT);
}
