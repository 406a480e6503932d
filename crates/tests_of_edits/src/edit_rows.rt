use crate::edits::Answer::*;
use crate::edits::Edit::*;
use crate::edits::{EditRow, expect_edits};
use quota_types::{Field, Format, NoRoom, Rec};
use set_edit::Limits;

/// 4 KiB and one inode in use, and no limits.
const USED: Rec = Rec {
    ihard: 0,
    isoft: 0,
    inodes: 1,
    bhard: 0,
    bsoft: 0,
    space: 4096,
    btime: 0,
    itime: 0,
};

const LIMITS: Limits = Limits {
    bsoft: 2,
    bhard: 8,
    isoft: 0,
    ihard: 0,
};

const NO_LIMITS: Limits = Limits {
    bsoft: 0,
    bhard: 0,
    ..LIMITS
};

/// Two limits that 32 bits do not hold.
const WIDE: Limits = Limits {
    bhard: 4_294_967_296,
    isoft: 8_589_934_592,
    ..LIMITS
};

/// The record once it has the limits, and a timer that runs.
const STARTED: Rec = Rec {
    bsoft: 2,
    bhard: 8,
    btime: 1_700_604_800,
    ..USED
};

/// The limits alone.
const LIMITED: Rec = Rec {
    inodes: 0,
    space: 0,
    btime: 0,
    ..STARTED
};

const LIMITS_SET: &[EditRow] = &[
    EditRow {
        title: "an exceeded limit starts a timer",
        format: Format::V1,
        before: &[(1000, USED)],
        edit: SetLimits(1000, LIMITS, 1_700_000_000),
        answer: Done,
        after: &[(1000, STARTED)],
    },
    EditRow {
        title: "a timer that runs is not started again",
        format: Format::V1,
        before: &[(1000, STARTED)],
        edit: SetLimits(1000, LIMITS, 1_700_000_001),
        answer: Done,
        after: &[(1000, STARTED)],
    },
    EditRow {
        title: "a timer stops where there is no limit",
        format: Format::V1,
        before: &[(1000, STARTED)],
        edit: SetLimits(1000, NO_LIMITS, 1_700_000_001),
        answer: Done,
        after: &[(1000, USED)],
    },
    EditRow {
        title: "an absent identifier gets a record of its limits",
        format: Format::V1,
        before: &[],
        edit: SetLimits(1000, LIMITS, 1_700_000_000),
        answer: Done,
        after: &[(1000, LIMITED)],
    },
    EditRow {
        title: "a record that becomes null is removed",
        format: Format::V1,
        before: &[(1000, LIMITED)],
        edit: SetLimits(1000, NO_LIMITS, 1_700_000_000),
        answer: Done,
        after: &[],
    },
    EditRow {
        title: "a timer past 64 bits",
        format: Format::V1,
        before: &[(1000, USED)],
        edit: SetLimits(1000, LIMITS, u64::MAX),
        answer: Lacks(NoRoom {
            id: 1000,
            field: Field::Btime,
            value: 18_446_744_073_710_156_415,
        }),
        after: &[(1000, USED)],
    },
    EditRow {
        title: "the first limit past 32 bits",
        format: Format::V1,
        before: &[],
        edit: SetLimits(1000, WIDE, 0),
        answer: Lacks(NoRoom {
            id: 1000,
            field: Field::Isoft,
            value: 8_589_934_592,
        }),
        after: &[],
    },
    EditRow {
        title: "the latest timer of 32 bits",
        format: Format::V1R32,
        before: &[(1000, USED)],
        edit: SetLimits(1000, LIMITS, 4_294_362_495),
        answer: Done,
        after: &[(
            1000,
            Rec {
                btime: 4_294_967_295,
                ..STARTED
            },
        )],
    },
    EditRow {
        title: "a timer past 32 bits",
        format: Format::V1R32,
        before: &[(1000, USED)],
        edit: SetLimits(1000, LIMITS, 4_294_362_496),
        answer: Lacks(NoRoom {
            id: 1000,
            field: Field::Btime,
            value: 4_294_967_296,
        }),
        after: &[(1000, USED)],
    },
    EditRow {
        title: "a timer past 32 bits, which is not kept",
        format: Format::V1R32,
        before: &[(0, USED)],
        edit: SetLimits(0, LIMITS, 4_294_362_496),
        answer: Lacks(NoRoom {
            id: 0,
            field: Field::Btime,
            value: 4_294_967_296,
        }),
        after: &[(0, USED)],
    },
];

#[test]
fn limits_are_set_where_they_fit(rt: HostRuntime) {
    expect_edits(&rt, rt.alloc(), LIMITS_SET);
}

const COPIED: &[EditRow] = &[
    EditRow {
        title: "a copy takes the limits alone",
        format: Format::V1,
        before: &[(1000, STARTED)],
        edit: Copy(1000, 7, 1_700_000_000),
        answer: Done,
        after: &[(7, LIMITED), (1000, STARTED)],
    },
    EditRow {
        title: "a copy of an absent record clears the limits",
        format: Format::V1,
        before: &[(7, STARTED)],
        edit: Copy(1000, 7, 1_700_000_000),
        answer: Done,
        after: &[(7, USED)],
    },
    EditRow {
        title: "a copy starts a timer past 32 bits",
        format: Format::V1R32,
        before: &[(7, USED), (1000, LIMITED)],
        edit: Copy(1000, 7, 4_294_362_496),
        answer: Lacks(NoRoom {
            id: 7,
            field: Field::Btime,
            value: 4_294_967_296,
        }),
        after: &[(7, USED), (1000, LIMITED)],
    },
];

#[test]
fn limits_are_copied_alone(rt: HostRuntime) {
    expect_edits(&rt, rt.alloc(), COPIED);
}

const GRACE_SET: &[EditRow] = &[
    EditRow {
        title: "grace periods that fit",
        format: Format::V2R1,
        before: &[(1000, USED)],
        edit: SetGrace(86_400, 3600),
        answer: Done,
        after: &[(1000, USED)],
    },
    EditRow {
        title: "grace periods that fit",
        format: Format::V2R0,
        before: &[(1000, USED)],
        edit: SetGrace(0, 4_294_967_295),
        answer: Done,
        after: &[(1000, USED)],
    },
    EditRow {
        title: "grace periods that fit",
        format: Format::V1,
        before: &[(1000, USED)],
        edit: SetGrace(1, 4_294_967_296),
        answer: Done,
        after: &[(1000, USED)],
    },
    EditRow {
        title: "grace periods that don't fit",
        format: Format::V2R1,
        before: &[(1000, USED)],
        edit: SetGrace(4_294_967_296, 4_294_967_297),
        answer: Lacks(NoRoom {
            id: 0,
            field: Field::BlockGrace,
            value: 4_294_967_296,
        }),
        after: &[(1000, USED)],
    },
    EditRow {
        title: "grace periods that don't fit",
        format: Format::V2R0,
        before: &[(1000, USED)],
        edit: SetGrace(0, 4_294_967_296),
        answer: Lacks(NoRoom {
            id: 0,
            field: Field::InodeGrace,
            value: 4_294_967_296,
        }),
        after: &[(1000, USED)],
    },
    EditRow {
        title: "grace periods that don't fit",
        format: Format::V1,
        before: &[(1000, USED)],
        edit: SetGrace(0, 0),
        answer: Lacks(NoRoom {
            id: 0,
            field: Field::BlockGrace,
            value: 0,
        }),
        after: &[(1000, USED)],
    },
    EditRow {
        title: "grace periods that don't fit",
        format: Format::V1,
        before: &[(1000, USED)],
        edit: SetGrace(1, 0),
        answer: Lacks(NoRoom {
            id: 0,
            field: Field::InodeGrace,
            value: 0,
        }),
        after: &[(1000, USED)],
    },
    EditRow {
        title: "grace periods that fit",
        format: Format::V1R32,
        before: &[(1000, USED)],
        edit: SetGrace(1, 4_294_967_295),
        answer: Done,
        after: &[(1000, USED)],
    },
    EditRow {
        title: "grace periods that don't fit",
        format: Format::V1R32,
        before: &[(1000, USED)],
        edit: SetGrace(4_294_967_296, 0),
        answer: Lacks(NoRoom {
            id: 0,
            field: Field::BlockGrace,
            value: 4_294_967_296,
        }),
        after: &[(1000, USED)],
    },
    EditRow {
        title: "grace periods that don't fit",
        format: Format::V1R32,
        before: &[(1000, USED)],
        edit: SetGrace(4_294_967_295, 4_294_967_296),
        answer: Lacks(NoRoom {
            id: 0,
            field: Field::InodeGrace,
            value: 4_294_967_296,
        }),
        after: &[(1000, USED)],
    },
    EditRow {
        title: "grace periods that don't fit",
        format: Format::V1R32,
        before: &[(1000, USED)],
        edit: SetGrace(0, 1),
        answer: Lacks(NoRoom {
            id: 0,
            field: Field::BlockGrace,
            value: 0,
        }),
        after: &[(1000, USED)],
    },
];

#[test]
fn grace_periods_are_set_where_they_fit(rt: HostRuntime) {
    expect_edits(&rt, rt.alloc(), GRACE_SET);
}
