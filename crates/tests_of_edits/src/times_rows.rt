use crate::edits::Answer::*;
use crate::edits::Edit::*;
use crate::edits::{Edit, EditRow, expect_edits};
use quota_types::{Field, Format, NoRoom, Rec};
use set_edit::TimeWord;

const HOUR: TimeWord = TimeWord::Seconds(3600);

/// 4 KiB and two inodes in use, as many as the soft limits are.
const WITHIN: Rec = Rec {
    ihard: 0,
    isoft: 2,
    inodes: 2,
    bhard: 8,
    bsoft: 4,
    space: 4096,
    btime: 0,
    itime: 0,
};

/// Of blocks alone more than the soft limit are in use.
const MORE_BLOCKS: Rec = Rec {
    bsoft: 3,
    btime: 1_700_604_800,
    ..WITHIN
};

/// Of both more than the soft limits are in use.
const MORE: Rec = Rec {
    inodes: 3,
    ..MORE_BLOCKS
};

/// More is in use, with no soft limit of blocks, with none at all, and with no timer.
const NO_SOFT: Rec = Rec { bsoft: 0, ..MORE };

const UNLIMITED: Rec = Rec {
    isoft: 0,
    ..NO_SOFT
};

const STOPPED: Rec = Rec { btime: 0, ..MORE };

/// Times of identifier 1000.
const TIMES_SET: &[EditRow] = &[
    EditRow {
        title: "a time of blocks",
        format: Format::V1,
        before: &[(1000, MORE_BLOCKS)],
        edit: SetTimes(1000, HOUR, TimeWord::Unset, 1_700_000_000),
        answer: DoneBut(false, true),
        after: &[(
            1000,
            Rec {
                btime: 1_700_003_600,
                itime: 0,
                ..MORE_BLOCKS
            },
        )],
    },
    EditRow {
        title: "a time of blocks is unset",
        format: Format::V1,
        before: &[(1000, MORE_BLOCKS)],
        edit: SetTimes(1000, TimeWord::Unset, HOUR, 1_700_000_000),
        answer: DoneBut(false, true),
        after: &[(
            1000,
            Rec {
                btime: 0,
                itime: 0,
                ..MORE_BLOCKS
            },
        )],
    },
    EditRow {
        title: "both times",
        format: Format::V1,
        before: &[(1000, MORE)],
        edit: SetTimes(1000, HOUR, TimeWord::Seconds(60), 1_700_000_000),
        answer: Done,
        after: &[(
            1000,
            Rec {
                btime: 1_700_003_600,
                itime: 1_700_000_060,
                ..MORE
            },
        )],
    },
    EditRow {
        title: "a time that ends now",
        format: Format::V1,
        before: &[(1000, MORE)],
        edit: SetTimes(1000, TimeWord::Seconds(0), TimeWord::Unset, 1_700_000_000),
        answer: Done,
        after: &[(
            1000,
            Rec {
                btime: 1_700_000_000,
                itime: 0,
                ..MORE
            },
        )],
    },
    EditRow {
        title: "a timer without a soft limit stays",
        format: Format::V1,
        before: &[(1000, NO_SOFT)],
        edit: SetTimes(1000, HOUR, HOUR, 1_700_000_000),
        answer: DoneBut(true, false),
        after: &[(
            1000,
            Rec {
                btime: 1_700_604_800,
                itime: 1_700_003_600,
                ..NO_SOFT
            },
        )],
    },
    EditRow {
        title: "no record",
        format: Format::V1,
        before: &[],
        edit: SetTimes(1000, HOUR, HOUR, u64::MAX),
        answer: Skips,
        after: &[],
    },
    EditRow {
        title: "soft limits that are reached",
        format: Format::V1,
        before: &[(1000, WITHIN)],
        edit: SetTimes(1000, HOUR, HOUR, u64::MAX),
        answer: Skips,
        after: &[(1000, WITHIN)],
    },
    EditRow {
        title: "no soft limits",
        format: Format::V1,
        before: &[(1000, UNLIMITED)],
        edit: SetTimes(1000, HOUR, HOUR, u64::MAX),
        answer: Skips,
        after: &[(1000, UNLIMITED)],
    },
    EditRow {
        title: "the latest times of 32 bits",
        format: Format::V1R32,
        before: &[(1000, MORE)],
        edit: SetTimes(
            1000,
            TimeWord::Seconds(2_594_967_295),
            TimeWord::Seconds(2_594_967_295),
            1_700_000_000,
        ),
        answer: Done,
        after: &[(
            1000,
            Rec {
                btime: 4_294_967_295,
                itime: 4_294_967_295,
                ..MORE
            },
        )],
    },
];

#[test]
fn a_time_is_set_where_its_limit_is_exceeded(rt: HostRuntime) {
    expect_edits(&rt, rt.alloc(), TIMES_SET);
}

const PAST: &[EditRow] = &[
    EditRow {
        title: "a time of blocks past 64 bits",
        format: Format::V1,
        before: &[(1000, MORE)],
        edit: SetTimes(1000, HOUR, HOUR, u64::MAX),
        answer: Lacks(NoRoom {
            id: 1000,
            field: Field::Btime,
            value: 18_446_744_073_709_555_215,
        }),
        after: &[(1000, MORE)],
    },
    EditRow {
        title: "a time of inodes past 64 bits",
        format: Format::V1,
        before: &[(1000, MORE)],
        edit: SetTimes(1000, TimeWord::Unset, TimeWord::Seconds(1), u64::MAX),
        answer: Lacks(NoRoom {
            id: 1000,
            field: Field::Itime,
            value: 18_446_744_073_709_551_616,
        }),
        after: &[(1000, MORE)],
    },
    EditRow {
        title: "the latest time of blocks",
        format: Format::V1,
        before: &[(1000, MORE)],
        edit: SetTimes(1000, TimeWord::Seconds(u64::MAX), HOUR, u64::MAX),
        answer: Lacks(NoRoom {
            id: 1000,
            field: Field::Btime,
            value: 36_893_488_147_419_103_230,
        }),
        after: &[(1000, MORE)],
    },
];

/// A timer of blocks past 32 bits alone, and one of inodes past 64 bits.
const NARROW_AND_WIDE: Edit = SetTimes(
    1000,
    TimeWord::Seconds(1),
    TimeWord::Seconds(4_294_967_295),
    18_446_744_069_414_584_321,
);

const PAST_32_BITS: &[EditRow] = &[
    EditRow {
        title: "a time of blocks",
        format: Format::V1R32,
        before: &[(1000, MORE)],
        edit: SetTimes(1000, TimeWord::Seconds(2_594_967_296), HOUR, 1_700_000_000),
        answer: Lacks(NoRoom {
            id: 1000,
            field: Field::Btime,
            value: 4_294_967_296,
        }),
        after: &[(1000, MORE)],
    },
    EditRow {
        title: "a time of inodes",
        format: Format::V1R32,
        before: &[(1000, MORE)],
        edit: SetTimes(1000, HOUR, TimeWord::Seconds(2_594_967_296), 1_700_000_000),
        answer: Lacks(NoRoom {
            id: 1000,
            field: Field::Itime,
            value: 4_294_967_296,
        }),
        after: &[(1000, MORE)],
    },
    EditRow {
        title: "a time of blocks before one of inodes that is past 64 bits",
        format: Format::V1R32,
        before: &[(1000, MORE)],
        edit: NARROW_AND_WIDE,
        answer: Lacks(NoRoom {
            id: 1000,
            field: Field::Btime,
            value: 18_446_744_069_414_584_322,
        }),
        after: &[(1000, MORE)],
    },
    EditRow {
        title: "of both, in vfsold, that of inodes",
        format: Format::V1,
        before: &[(1000, MORE)],
        edit: NARROW_AND_WIDE,
        answer: Lacks(NoRoom {
            id: 1000,
            field: Field::Itime,
            value: 18_446_744_073_709_551_616,
        }),
        after: &[(1000, MORE)],
    },
    EditRow {
        title: "a time of identifier 0, which is not kept",
        format: Format::V1R32,
        before: &[(0, STOPPED)],
        edit: SetTimes(0, HOUR, TimeWord::Seconds(2_594_967_296), 1_700_000_000),
        answer: Lacks(NoRoom {
            id: 0,
            field: Field::Itime,
            value: 4_294_967_296,
        }),
        after: &[(0, STOPPED)],
    },
];

#[test]
fn a_time_past_32_bits_is_told_and_changes_nothing(rt: HostRuntime) {
    expect_edits(&rt, rt.alloc(), PAST_32_BITS);
}

#[test]
fn a_time_past_64_bits_is_told_and_changes_nothing(rt: HostRuntime) {
    expect_edits(&rt, rt.alloc(), PAST);
}

/// Times of an identifier without a record.
const ABSENT: &[EditRow] = &[
    EditRow {
        title: "past the identifiers of a flat file",
        format: Format::V1,
        before: &[(1000, MORE)],
        edit: SetTimes(1_048_576, HOUR, HOUR, 1_700_000_000),
        answer: Lacks(NoRoom {
            id: 1_048_576,
            field: Field::Id,
            value: 1_048_576,
        }),
        after: &[(1000, MORE)],
    },
    EditRow {
        title: "the last identifier of a flat file",
        format: Format::V1,
        before: &[(1000, MORE)],
        edit: SetTimes(1_048_575, HOUR, HOUR, 1_700_000_000),
        answer: Skips,
        after: &[(1000, MORE)],
    },
    EditRow {
        title: "the next one in vfsv0",
        format: Format::V2R0,
        before: &[(1000, MORE)],
        edit: SetTimes(1_048_576, HOUR, HOUR, 1_700_000_000),
        answer: Skips,
        after: &[(1000, MORE)],
    },
    EditRow {
        title: "the last one in vfsv1",
        format: Format::V2R1,
        before: &[(1000, MORE)],
        edit: SetTimes(u32::MAX, HOUR, HOUR, 1_700_000_000),
        answer: Skips,
        after: &[(1000, MORE)],
    },
];

#[test]
fn an_identifier_that_does_not_fit_is_told_though_both_times_are_skipped(rt: HostRuntime) {
    expect_edits(&rt, rt.alloc(), ABSENT);
}

/// Times of identifier 0.
const OF_ZERO: &[EditRow] = &[
    EditRow {
        title: "a flat file",
        format: Format::V1,
        before: &[(0, STOPPED)],
        edit: SetTimes(0, HOUR, TimeWord::Seconds(60), 1_700_000_000),
        answer: Done,
        after: &[(0, STOPPED)],
    },
    EditRow {
        title: "a file of vfsold32",
        format: Format::V1R32,
        before: &[(0, STOPPED)],
        edit: SetTimes(0, HOUR, TimeWord::Seconds(60), 1_700_000_000),
        answer: Done,
        after: &[(0, STOPPED)],
    },
    EditRow {
        title: "a tree file",
        format: Format::V2R1,
        before: &[(0, STOPPED)],
        edit: SetTimes(0, HOUR, TimeWord::Seconds(60), 1_700_000_000),
        answer: Done,
        after: &[(
            0,
            Rec {
                btime: 1_700_003_600,
                itime: 1_700_000_060,
                ..STOPPED
            },
        )],
    },
];

#[test]
fn identifier_0_of_a_flat_file_keeps_no_times(rt: HostRuntime) {
    expect_edits(&rt, rt.alloc(), OF_ZERO);
}
