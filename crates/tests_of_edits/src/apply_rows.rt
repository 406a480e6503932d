use inode_scan::{ApplyFault, apply, scan};
use memory_objects::MemSource;
use quota_types::{Entry, Field, Format, Grace, Kind, NoRoom, Rec};
use std::alloc::{AllocError, Global};
use std::process::Abort;
use tests_row_files::ordered;

/// A grace period of a week for both.
const WEEK: Grace = Grace {
    block: 604_800,
    inode: 604_800,
};

/// What the call answers on entries, with the usage of users in a listing; None where it may not be asked for, or the
/// listing is refused.
fn applied(
    alloc: Global,
    list: &[Entry],
    listing: &[u8],
    format: Format,
    now: u64,
) -> Result<Option<Result<Vec<Entry>, ApplyFault>>, AllocError> {
    // every record fits vfsv1, whatever the format is that it is then wanted in
    let entries = ordered(alloc, Format::V2R1, list)?;
    let bytes = Vec::from_slice(alloc, listing)?;
    let mut source = MemSource::new(bytes, Vec::new(alloc));
    let Ok(usage) = scan(alloc, &mut source, Kind::User, None) else {
        return Ok(None);
    };
    if entries.len() != list.len() {
        return Ok(None);
    }
    Ok(Some(apply(alloc, entries.as_slice(), &usage, format, WEEK, now)))
}

/// A record of identifier 7, a listing, and the record that it has then; None where it goes.
struct OneRow {
    title: &'static str,
    rec: Rec,
    listing: &'static [u8],
    after: Option<Rec>,
}

/// Expects each record to become the one that its row says.
fn expect_one(rt: &impl Abort, alloc: Global, rows: &[OneRow]) {
    for row in rows {
        let list = [Entry {
            id: 7,
            rec: row.rec,
        }];
        let got = applied(alloc, &list, row.listing, Format::V2R1, 1_700_000_000);
        let is_so = matches!(&got, Ok(Some(Ok(entries))) if is_one(entries.as_slice(), row.after));
        assert!(rt; is_so, "{}: {got:?}", row.title);
    }
}

/// Whether entries are the one of identifier 7 with this record, or none.
fn is_one(entries: &[Entry], rec: Option<Rec>) -> bool {
    match rec {
        Some(rec) => entries == [Entry { id: 7, rec }].as_slice(),
        None => entries.is_empty(),
    }
}

/// 4 KiB and one inode of identifier 7.
const FOUR_KIB: &[u8] = b"7 1 1 5 8";

const NONE: Rec = Rec {
    ihard: 0,
    isoft: 0,
    inodes: 0,
    bhard: 0,
    bsoft: 0,
    space: 0,
    btime: 0,
    itime: 0,
};

/// 4 KiB and one inode in use.
const USED: Rec = Rec {
    inodes: 1,
    space: 4096,
    ..NONE
};

/// Hard limits alone.
const HARD: Rec = Rec {
    bhard: 9,
    ihard: 7,
    ..NONE
};

const ONE: &[OneRow] = &[
    OneRow {
        title: "a null record goes",
        rec: NONE,
        listing: b"",
        after: None,
    },
    OneRow {
        title: "a record without limits that is not used goes",
        rec: USED,
        listing: b"",
        after: None,
    },
    OneRow {
        title: "a null record is used",
        rec: NONE,
        listing: FOUR_KIB,
        after: Some(USED),
    },
    OneRow {
        title: "limits stay where nothing is used",
        rec: Rec {
            space: 1024,
            inodes: 5,
            ..HARD
        },
        listing: b"",
        after: Some(HARD),
    },
    OneRow {
        title: "limits stay where something is used",
        rec: Rec {
            space: 1024,
            inodes: 5,
            ..HARD
        },
        listing: FOUR_KIB,
        after: Some(Rec {
            bhard: 9,
            ihard: 7,
            ..USED
        }),
    },
    OneRow {
        title: "a timer starts",
        rec: Rec { bsoft: 2, ..USED },
        listing: FOUR_KIB,
        after: Some(Rec {
            bsoft: 2,
            btime: 1_700_604_800,
            ..USED
        }),
    },
    OneRow {
        title: "a timer stays, and one without a limit stops",
        rec: Rec {
            bsoft: 2,
            btime: 5,
            itime: 5,
            ..USED
        },
        listing: FOUR_KIB,
        after: Some(Rec {
            bsoft: 2,
            btime: 5,
            ..USED
        }),
    },
    OneRow {
        title: "timers stop where the limits are not exceeded",
        rec: Rec {
            bsoft: 4,
            isoft: 1,
            btime: 5,
            itime: 5,
            ..USED
        },
        listing: FOUR_KIB,
        after: Some(Rec {
            bsoft: 4,
            isoft: 1,
            ..USED
        }),
    },
    OneRow {
        title: "timers stop where nothing is used",
        rec: Rec {
            bsoft: 2,
            isoft: 1,
            btime: 5,
            itime: 5,
            ..USED
        },
        listing: b"",
        after: Some(Rec {
            bsoft: 2,
            isoft: 1,
            ..NONE
        }),
    },
];

#[test]
fn usage_is_set_and_limits_are_kept(rt: HostRuntime) {
    expect_one(&rt, rt.alloc(), ONE);
}

/// An identifier, its hard limit of inodes, and how many inodes of 4 KiB it uses.
type LimitedId = (u32, u64, u64);

/// Identifiers with limits that are listed, and those after the usage of identifiers 0, 7, 9 and the last one.
const LIMITED: &[LimitedId] = &[(5, 3, 0), (7, 3, 0), (11, 3, 0)];

const LIMITED_OR_USED: &[LimitedId] = &[
    (0, 0, 1),
    (5, 3, 0),
    (7, 3, 1),
    (9, 0, 1),
    (11, 3, 0),
    (4_294_967_295, 0, 1),
];

const FOUR: &[u8] = b"9 1 1 5 8\n0 1 1 6 8\n7 1 1 7 8\n4294967295 1 1 8 8\n";

fn entries_of(alloc: Global, limited: &[LimitedId]) -> Result<Vec<Entry>, AllocError> {
    let mut entries = Vec::new(alloc);
    for (id, ihard, inodes) in limited {
        let rec = Rec {
            ihard: *ihard,
            inodes: *inodes,
            space: inodes.saturating_mul(4096),
            ..NONE
        };
        entries.push(Entry { id: *id, rec })?;
    }
    Ok(entries)
}

/// Expects the first identifiers with the usage of a listing to be the last ones.
fn expect_limited(
    rt: &impl Abort,
    alloc: Global,
    before: &[LimitedId],
    listing: &[u8],
    after: &[LimitedId],
) {
    let got = entries_of(alloc, before).and_then(|list| applied(
        alloc,
        list.as_slice(),
        listing,
        Format::V2R0,
        0,
    ));
    let want = entries_of(alloc, after);
    let is_so =
        matches!((&got, &want), (Ok(Some(Ok(got))), Ok(want)) if got.as_slice() == want.as_slice());
    assert!(rt; is_so, "{got:?}");
}

#[test]
fn identifiers_of_both_come_in_order(rt: HostRuntime) {
    expect_limited(&rt, rt.alloc(), LIMITED, FOUR, LIMITED_OR_USED);
}

/// Entries that are refused with the usage of a listing.
struct RefusedRow {
    title: &'static str,
    list: &'static [Entry],
    listing: &'static [u8],
    format: Format,
    now: u64,
    out: NoRoom,
}

/// Expects each call to be refused as its row says.
fn expect_refused(rt: &impl Abort, alloc: Global, rows: &[RefusedRow]) {
    for row in rows {
        let got = applied(alloc, row.list, row.listing, row.format, row.now);
        let is_so = matches!(&got, Ok(Some(Err(ApplyFault::NoRoom(out)))) if *out == row.out);
        assert!(rt; is_so, "{}: {got:?}", row.title);
    }
}

/// Limits of two identifiers, of which the format has no room for the second one's.
const TWO: &[Entry] = &[
    Entry {
        id: 6,
        rec: Rec { bsoft: 1, ..NONE },
    },
    Entry {
        id: 7,
        rec: Rec {
            bhard: 4_294_967_296,
            ..NONE
        },
    },
];

/// A soft limit of identifier 0.
const SOFT_OF_ZERO: &[Entry] = &[Entry {
    id: 0,
    rec: Rec { bsoft: 1, ..NONE },
}];

/// Timers past 32 bits, of one who uses nothing, which stops, and of one whose inodes are over the soft limit, which
/// runs on.
const TIMED: &[Entry] = &[
    Entry {
        id: 6,
        rec: Rec {
            isoft: 1,
            itime: 4_294_967_296,
            ..NONE
        },
    },
    Entry {
        id: 7,
        rec: Rec {
            isoft: 1,
            itime: 4_294_967_297,
            ..NONE
        },
    },
];

const REFUSED: &[RefusedRow] = &[
    RefusedRow {
        title: "the least identifier past those of a flat file",
        list: &[],
        listing: b"1048577 1 1 5 8\n1048576 1 1 6 8\n9 1 1 7 8\n",
        format: Format::V1,
        now: 0,
        out: NoRoom {
            id: 1_048_576,
            field: Field::Id,
            value: 1_048_576,
        },
    },
    RefusedRow {
        title: "the least space past that of a flat file",
        list: &[],
        listing: b"9 1 1 5 8589934592\n8 1 1 6 8589934590\n",
        format: Format::V1,
        now: 0,
        out: NoRoom {
            id: 9,
            field: Field::Space,
            value: 4_398_046_511_104,
        },
    },
    RefusedRow {
        title: "a timer past 32 bits of the least identifier",
        list: TWO,
        listing: b"6 1 1 5 8\n",
        format: Format::V1R32,
        now: 4_294_362_496,
        out: NoRoom {
            id: 6,
            field: Field::Btime,
            value: 4_294_967_296,
        },
    },
    RefusedRow {
        title: "one of identifier 0, which is not kept",
        list: SOFT_OF_ZERO,
        listing: b"0 1 1 5 8\n",
        format: Format::V1R32,
        now: 4_294_362_496,
        out: NoRoom {
            id: 0,
            field: Field::Btime,
            value: 4_294_967_296,
        },
    },
    RefusedRow {
        title: "a timer that runs past 32 bits",
        list: TIMED,
        listing: b"7 1 1 5 8\n7 1 1 6 0\n",
        format: Format::V1R32,
        now: 0,
        out: NoRoom {
            id: 7,
            field: Field::Itime,
            value: 4_294_967_297,
        },
    },
    RefusedRow {
        title: "a space past that of a flat file before a timer",
        list: TIMED,
        listing: b"7 1 1 5 8589934592\n7 1 1 6 0\n",
        format: Format::V1R32,
        now: 0,
        out: NoRoom {
            id: 7,
            field: Field::Space,
            value: 4_398_046_511_104,
        },
    },
    RefusedRow {
        title: "space past 64 bits",
        list: &[],
        listing: b"9 1 1 5 36028797018963968\n",
        format: Format::V2R1,
        now: 0,
        out: NoRoom {
            id: 9,
            field: Field::Space,
            value: 18_446_744_073_709_551_616,
        },
    },
    RefusedRow {
        title: "a limit comes before the space",
        list: TWO,
        listing: b"7 1 1 5 36028797018963968\n",
        format: Format::V2R0,
        now: u64::MAX,
        out: NoRoom {
            id: 7,
            field: Field::Bhard,
            value: 4_294_967_296,
        },
    },
    RefusedRow {
        title: "a timer past 64 bits of the least identifier",
        list: TWO,
        listing: b"6 1 1 5 8\n",
        format: Format::V2R0,
        now: u64::MAX,
        out: NoRoom {
            id: 6,
            field: Field::Btime,
            value: 18_446_744_073_710_156_415,
        },
    },
];

#[test]
fn the_first_value_without_room_of_the_least_identifier_is_named(rt: HostRuntime) {
    expect_refused(&rt, rt.alloc(), REFUSED);
}
