use crate::reports::*;
use quota_types::{Entry, Kind, Rec};
use report_options::Options;
use std::alloc::Global;
use std::process::Abort;

/// The record of identifier 1000, a user without a name; the moment and the options of the report, and its line.
type Row = (Rec, u64, Options, &'static str);

/// Expects each report to have the line of its row.
fn expect_lines(rt: &impl Abort, alloc: Global, rows: &[Row]) {
    for (rec, now, options, line) in rows {
        let wanted = Report {
            kind: Kind::User,
            names: b"",
            longer: 0,
            entry: Entry {
                id: 1000,
                rec: *rec,
            },
            now: *now,
            options: *options,
            line,
        };
        expect_report(rt, alloc, &wanted);
    }
}

/// Limits of an identifier that uses nothing.
const LIMITED: Rec = Rec {
    bsoft: 100,
    bhard: 200,
    isoft: 10,
    ihard: 20,
    ..NONE
};

/// A soft limit of blocks that is exceeded.
const EXCEEDED: Rec = Rec {
    space: 4096,
    inodes: 1,
    bsoft: 2,
    bhard: 8,
    btime: 1_700_604_800,
    ..NONE
};

const OF_1000: &[Row] = &[
    (
        LIMITED,
        1_700_000_000,
        VERBOSE,
        "#1000        --          0        100        200      -        0       10       20      -\n",
    ),
    (
        EXCEEDED,
        1_700_000_000,
        PLAIN,
        "#1000        +-          4          2          8  7days        1        0        0      -\n",
    ),
    (
        EXCEEDED,
        1_700_432_001,
        PLAIN,
        "#1000        +-          4          2          8  2days        1        0        0      -\n",
    ),
    (
        EXCEEDED,
        1_700_432_031,
        PLAIN,
        "#1000        +-          4          2          8  47:59        1        0        0      -\n",
    ),
    (
        EXCEEDED,
        1_700_604_800,
        PLAIN,
        "#1000        +-          4          2          8   none        1        0        0      -\n",
    ),
    (
        EXCEEDED,
        1_700_604_800,
        RAW,
        "#1000        +-          4          2          8 1700604800        1        0        0      0\n",
    ),
];

#[test]
fn limits_and_timers_are_shown(rt: HostRuntime) {
    expect_lines(&rt, rt.alloc(), OF_1000);
}

/// How much space the greatest identifier uses, a group; the options of the report, and its line.
type SpaceRow = (u64, Options, &'static str);

/// What else there is in its record.
const GREATEST: Rec = Rec {
    bsoft: 1,
    isoft: 5,
    ihard: 6,
    inodes: 6,
    btime: 1_700_000_090,
    itime: 1_699_999_999,
    ..NONE
};

/// Expects each report to have the line of its row.
fn expect_space(rt: &impl Abort, alloc: Global, rows: &[SpaceRow]) {
    for (space, options, line) in rows {
        let rec = Rec {
            space: *space,
            ..GREATEST
        };
        let wanted = Report {
            kind: Kind::Group,
            names: b"wheel:x:4294967295:",
            longer: 0,
            entry: Entry { id: u32::MAX, rec },
            now: 1_700_000_000,
            options: *options,
            line,
        };
        expect_report(rt, alloc, &wanted);
    }
}

const OF_GREATEST: &[SpaceRow] = &[
    (
        1,
        PLAIN,
        "wheel        -+          1          1          0      -        6        5        6   none\n",
    ),
    (
        1,
        Options {
            verbose: true,
            numeric: true,
            raw: true,
        },
        "#4294967295  -+          1          1          0      0        6        5        6 1699999999\n",
    ),
    (
        u64::MAX,
        NUMERIC,
        "#4294967295  ++ 18014398509481984          1          0  00:02        6        5        6   none\n",
    ),
    (
        u64::MAX,
        RAW,
        "wheel        ++ 18014398509481984          1          0 1700000090        6        5        6 1699999999\n",
    ),
];

#[test]
fn the_least_and_the_greatest_space_are_shown(rt: HostRuntime) {
    expect_space(&rt, rt.alloc(), OF_GREATEST);
}

/// Users, with an identifier on two lines, and a name that is longer than its places.
const USERS: &[u8] = b"root:x:0:0:root:/root:/bin/sh\n\
    alice:x:1000:1000:Alice:/home/alice:/bin/sh\n\
    bob:x:1001:100:Bob:/home/bob:/bin/sh\n\
    toor:x:0:0:::\n\
    quota-operators:x:7:7:::\n";

/// A user that uses this much space and this many inodes; the options of the report, and its line.
type NameRow = (u32, u64, u64, Options, &'static str);

/// Expects each report to have the line of its row.
fn expect_names(rt: &impl Abort, alloc: Global, rows: &[NameRow]) {
    for (id, space, inodes, options, line) in rows {
        let rec = Rec {
            space: *space,
            inodes: *inodes,
            ..NONE
        };
        let wanted = Report {
            kind: Kind::User,
            names: USERS,
            longer: 0,
            entry: Entry { id: *id, rec },
            now: 0,
            options: *options,
            line,
        };
        expect_report(rt, alloc, &wanted);
    }
}

const NAMED: &[NameRow] = &[
    (
        0,
        24_576,
        3,
        PLAIN,
        "root         --         24          0          0      -        3        0        0      -\n",
    ),
    (
        1000,
        1_155_072,
        13,
        PLAIN,
        "alice        --       1128          0          0      -       13        0        0      -\n",
    ),
    (
        1001,
        593_920,
        10,
        PLAIN,
        "bob          --        580          0          0      -       10        0        0      -\n",
    ),
    (
        65534,
        8192,
        2,
        PLAIN,
        "#65534       --          8          0          0      -        2        0        0      -\n",
    ),
    (
        7,
        1024,
        1,
        PLAIN,
        "quota-operators --          1          0          0      -        1        0        0      -\n",
    ),
    (
        0,
        24_576,
        3,
        NUMERIC,
        "#0           --         24          0          0      -        3        0        0      -\n",
    ),
    (
        7,
        1024,
        1,
        NUMERIC,
        "#7           --          1          0          0      -        1        0        0      -\n",
    ),
];

#[test]
fn the_first_name_of_an_identifier_is_shown_else_its_number(rt: HostRuntime) {
    expect_names(&rt, rt.alloc(), NAMED);
}

/// The record whose columns are the widest with `-p`.
const WIDEST: Rec = Rec {
    ihard: u64::MAX,
    isoft: u64::MAX - 1,
    inodes: u64::MAX,
    bhard: u64::MAX,
    bsoft: 18_014_398_509_481_983,
    space: u64::MAX,
    btime: u64::MAX,
    itime: u64::MAX,
};

/// A kind, and the line of names whose name is the longest, behind that name.
type LongestRow = (Kind, &'static [u8]);

/// Expects each report to have a line of 421 bytes.
fn expect_longest(rt: &impl Abort, alloc: Global, rows: &[LongestRow]) {
    for (kind, names) in rows {
        let wanted = Report {
            kind: *kind,
            names,
            longer: 255,
            entry: Entry { id: 7, rec: WIDEST },
            now: 1_700_000_000,
            options: RAW,
            line: " ++ 18014398509481984 18014398509481983 18446744073709551615 18446744073709551615 18446744073709551615 18446744073709551614 18446744073709551615 18446744073709551615\n",
        };
        expect_report(rt, alloc, &wanted);
    }
}

const LONGEST: &[LongestRow] = &[(Kind::Group, b":x:7:"), (Kind::Project, b":7")];

#[test]
fn the_longest_line_is_made_whole(rt: HostRuntime) {
    expect_longest(&rt, rt.alloc(), LONGEST);
}
