use quota_types::Rec;
use rquota_serve::quota_of;
use rquota_xdr::Quota;
use std::process::Abort;

const NOW: u64 = 1_700_000_000;

const NONE: Rec = Rec {
    ihard: 0,
    isoft: 0,
    inodes: 0,
    bhard: 0,
    bsoft: 0,
    space: 0,
    btime: 0,
    itime: 0,
};

const ZEROS: Quota = Quota {
    bsize: 1024,
    active: 1,
    bhard: 0,
    bsoft: 0,
    curblocks: 0,
    fhard: 0,
    fsoft: 0,
    curfiles: 0,
    btimeleft: 0,
    ftimeleft: 0,
};

/// What is shown, a record, and its quota.
type Row = (&'static str, Rec, Quota);

const ROWS: &[Row] = &[
    ("a record of zeros", NONE, ZEROS),
    (
        "each number in its place",
        Rec {
            ihard: 20,
            isoft: 10,
            inodes: 1,
            bhard: 200,
            bsoft: 100,
            space: 4096,
            btime: 1_700_000_007,
            itime: 1_700_000_009,
        },
        Quota {
            bhard: 200,
            bsoft: 100,
            curblocks: 4,
            fhard: 20,
            fsoft: 10,
            curfiles: 1,
            btimeleft: 7,
            ftimeleft: 9,
            ..ZEROS
        },
    ),
    (
        "a hard limit of 8 TiB and usage rounded up",
        Rec {
            bhard: 8_589_934_592,
            space: 4097,
            ..NONE
        },
        Quota {
            bsize: 4096,
            bhard: 2_147_483_648,
            curblocks: 2,
            ..ZEROS
        },
    ),
    (
        "no size serves",
        Rec {
            bhard: 18_446_744_073_709_551_615,
            space: 4097,
            ..NONE
        },
        Quota {
            bsize: 1_073_741_824,
            bhard: 4_294_967_295,
            curblocks: 1,
            ..ZEROS
        },
    ),
    (
        "the greatest hard limit that fits blocks of 1,024 bytes",
        Rec {
            bhard: 4_294_967_295,
            ..NONE
        },
        Quota {
            bhard: 4_294_967_295,
            ..ZEROS
        },
    ),
    (
        "the least that does not",
        Rec {
            bhard: 4_294_967_296,
            bsoft: 3,
            ..NONE
        },
        Quota {
            bsize: 2048,
            bhard: 2_147_483_648,
            bsoft: 2,
            ..ZEROS
        },
    ),
    (
        "a soft limit chooses the size too",
        Rec {
            bsoft: 4_294_967_296,
            bhard: 1,
            ..NONE
        },
        Quota {
            bsize: 2048,
            bsoft: 2_147_483_648,
            bhard: 1,
            ..ZEROS
        },
    ),
    (
        "the most space that fits blocks of 1,024 bytes",
        Rec {
            space: 4_398_046_510_080,
            ..NONE
        },
        Quota {
            curblocks: 4_294_967_295,
            ..ZEROS
        },
    ),
    (
        "a byte more",
        Rec {
            space: 4_398_046_510_081,
            ..NONE
        },
        Quota {
            bsize: 2048,
            curblocks: 2_147_483_648,
            ..ZEROS
        },
    ),
    (
        "the greatest hard limit that some size serves",
        Rec {
            bhard: 4_503_599_626_321_920,
            ..NONE
        },
        Quota {
            bsize: 1_073_741_824,
            bhard: 4_294_967_295,
            ..ZEROS
        },
    ),
    (
        "the most space",
        Rec {
            space: 18_446_744_073_709_551_615,
            ..NONE
        },
        Quota {
            bsize: 1_073_741_824,
            curblocks: 4_294_967_295,
            ..ZEROS
        },
    ),
    (
        "inodes that do not fit",
        Rec {
            ihard: 4_294_967_296,
            isoft: 4_294_967_295,
            inodes: 18_446_744_073_709_551_615,
            ..NONE
        },
        Quota {
            fhard: 4_294_967_295,
            fsoft: 4_294_967_295,
            curfiles: 4_294_967_295,
            ..ZEROS
        },
    ),
    (
        "timers that have passed",
        Rec {
            btime: 1_699_999_999,
            itime: 1_700_000_000,
            ..NONE
        },
        ZEROS,
    ),
    (
        "a timer tells the time left whether or not a limit is exceeded",
        Rec {
            bsoft: 100,
            btime: 1_700_000_001,
            itime: 1_700_000_002,
            ..NONE
        },
        Quota {
            bsoft: 100,
            btimeleft: 1,
            ftimeleft: 2,
            ..ZEROS
        },
    ),
    (
        "a time left that does not fit",
        Rec {
            btime: 18_446_744_073_709_551_615,
            itime: 5_994_967_295,
            ..NONE
        },
        Quota {
            btimeleft: 4_294_967_295,
            ftimeleft: 4_294_967_295,
            ..ZEROS
        },
    ),
];

fn expect_all(rt: &impl Abort, rows: &[Row]) {
    for row in rows {
        assert_eq!(rt; quota_of(&row.1, NOW), row.2, "{}", row.0);
    }
}

#[test]
fn records_have_their_quotas(rt: HostRuntime) {
    expect_all(&rt, ROWS);
}
