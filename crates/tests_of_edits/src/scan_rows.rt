use inode_scan::{ScanFault, Usage, Used, scan};
use memory_objects::MemSource;
use outside::Source;
use quota_types::Kind;
use std::alloc::{AllocError, Global};
use std::process::Abort;

/// Thirty lines. Lines 9 and 21 are second names of an inode, and the last four are on another device.
const LISTING: &[u8] = b"0 0 2049 2 8
0 0 2049 11 32
1000 1000 2049 131073 8
1000 1000 2049 131074 8
1000 1000 2049 131075 16
1000 1000 2049 131076 0
1000 1000 2049 131077 24
1000 100 2049 131078 2048
1000 100 2049 131078 2048
1000 1000 2049 131079 8
1000 1000 2049 131080 40
1000 1000 2049 131081 8
1000 1000 2049 131082 16
1000 1000 2049 131083 8
1001 100 2049 262145 8
1001 100 2049 262146 8
1001 100 2049 262147 1024
1001 100 2049 262148 16
1001 100 2049 262149 8
1001 100 2049 262150 0
1001 100 2049 262147 1024
1001 100 2049 262151 72
1001 100 2049 262152 8
1001 100 2049 262153 8
65534 65534 2049 393217 8
65534 65534 2049 393218 8
1000 1000 2050 131073 8
1000 1000 2050 131074 64
1001 1001 2050 131075 8
0 0 2050 2 8
";

/// What a listing tells of identifiers, ascending: of each the space in bytes, and the inodes.
type Told = &'static [(u32, u128, u64)];

/// Whether a scan of a listing, behind which are this many blanks and a newline where there are some, tells this after
/// the whole listing was taken, or is refused so.
fn is_answer(
    alloc: Global,
    (bytes, blanks): (&[u8], usize),
    kind: Kind,
    device: Option<u64>,
    answer: Result<Told, ScanFault>,
) -> Result<bool, AllocError> {
    let mut bytes = Vec::from_slice(alloc, bytes)?;
    if blanks > 0 {
        bytes.extend_from_slice(vec![in alloc; b' '; blanks]?.as_slice())?;
        bytes.push(b'\n')?;
    }
    let mut source = MemSource::new(bytes, Vec::new(alloc));
    let got = scan(alloc, &mut source, kind, device);
    Ok(match (&got, answer) {
        (Ok(usage), Ok(told)) => source.left().is_empty() && tells(usage, told),
        (Err(fault), Err(wanted)) => *fault == wanted,
        _ => false,
    })
}

/// Whether the usage has these identifiers with these numbers, and no others.
fn tells(usage: &Usage, told: Told) -> bool {
    let mut after = None;
    for (id, space, inodes) in told {
        let used = Used {
            space: *space,
            inodes: *inodes,
        };
        if usage.next_after(after) != Some(*id) || usage.of(*id) != Some(used) {
            return false;
        }
        after = Some(*id);
    }
    usage.next_after(after).is_none()
}

/// A kind and a device, and what the listing tells of them.
type SumRow = (Kind, Option<u64>, Told);

/// Expects the listing to tell what each row says.
fn expect_sums(rt: &impl Abort, alloc: Global, rows: &[SumRow]) {
    for (kind, device, told) in rows {
        let is_so = is_answer(alloc, (LISTING, 0), *kind, *device, Ok(told));
        assert!(rt; is_so == Ok(true), "{kind:?} on {device:?}");
    }
}

const TWO_DEVICES: &[SumRow] = &[
    (
        Kind::User,
        None,
        &[
            (0, 24 * 1024, 3),
            (1000, 1128 * 1024, 13),
            (1001, 580 * 1024, 10),
            (65534, 8 * 1024, 2),
        ],
    ),
    (
        Kind::User,
        Some(2049),
        &[
            (0, 20 * 1024, 2),
            (1000, 1092 * 1024, 11),
            (1001, 576 * 1024, 9),
            (65534, 8 * 1024, 2),
        ],
    ),
    (
        Kind::Group,
        None,
        &[
            (0, 24 * 1024, 3),
            (100, 1600 * 1024, 10),
            (1000, 104 * 1024, 12),
            (1001, 4 * 1024, 1),
            (65534, 8 * 1024, 2),
        ],
    ),
    (
        Kind::Project,
        None,
        &[
            (0, 24 * 1024, 3),
            (100, 1600 * 1024, 10),
            (1000, 104 * 1024, 12),
            (1001, 4 * 1024, 1),
            (65534, 8 * 1024, 2),
        ],
    ),
    (
        Kind::Project,
        Some(2050),
        &[(0, 4 * 1024, 1), (1000, 36 * 1024, 2), (1001, 4 * 1024, 1)],
    ),
    (Kind::User, Some(2051), &[]),
];

#[test]
fn a_listing_of_two_devices_is_added_up(rt: HostRuntime) {
    expect_sums(&rt, rt.alloc(), TWO_DEVICES);
}

/// A listing, and what it tells of users.
type LineRow = (&'static [u8], Told);

/// Expects each listing to tell what its row says.
fn expect_told(rt: &impl Abort, alloc: Global, rows: &[LineRow]) {
    for (bytes, told) in rows {
        let is_so = is_answer(alloc, (bytes, 0), Kind::User, None, Ok(told));
        assert!(rt; is_so == Ok(true), "{bytes:?}");
    }
}

const NUMBERS: &[LineRow] = &[
    (b"", &[]),
    (b"\n \t\n\t", &[]),
    (b"1001 1000 2049 12 8\n", &[(1001, 4096, 1)]),
    (b"1000 100 2049 12 8\n", &[(1000, 4096, 1)]),
    (b"1000 100 2049 12 8", &[(1000, 4096, 1)]),
    (
        b"1000 100 2049 12 8\n1000 100 2049 12 8\n",
        &[(1000, 4096, 1)],
    ),
    (b"\n\t1000\t 100 \t2049 12\t\t8 \t\n\n", &[(1000, 4096, 1)]),
    (
        b"00000000000000001000 00100 02049 012 00000000000000000008",
        &[(1000, 4096, 1)],
    ),
    (b"1000 1 1 5 8\n1000 1 2 5 8\n", &[(1000, 8192, 2)]),
    (
        b"1000 4294967295 18446744073709551615 18446744073709551615 0",
        &[(1000, 0, 1)],
    ),
    (
        b"1000 1 1 5 18446744073709551615\n1000 1 1 6 18446744073709551615\n",
        &[(1000, 18_889_465_931_478_580_853_760, 2)],
    ),
];

#[test]
fn a_line_is_five_numbers_between_blanks(rt: HostRuntime) {
    expect_told(&rt, rt.alloc(), NUMBERS);
}

/// A listing, the device that is counted, and why it is refused.
type RefusedRow = (&'static [u8], Option<u64>, ScanFault);

/// Expects each listing to be refused as its row says.
fn expect_refused(rt: &impl Abort, alloc: Global, rows: &[RefusedRow]) {
    for (bytes, device, fault) in rows {
        let is_so = is_refused(alloc, bytes, *device, *fault);
        assert!(rt; is_so == Ok(true), "{bytes:?}, wanted {fault:?}");
    }
}

fn is_refused(
    alloc: Global,
    bytes: &[u8],
    device: Option<u64>,
    wanted: ScanFault,
) -> Result<bool, AllocError> {
    let mut source = MemSource::new(Vec::from_slice(alloc, bytes)?, Vec::new(alloc));
    let fault = scan(alloc, &mut source, Kind::User, device).err();
    Ok(fault == Some(wanted))
}

const REFUSED: &[RefusedRow] = &[
    (b"1000 100 2049 13", None, ScanFault::BadLine(1)),
    (b"1000 100 2049 13 8 8", None, ScanFault::BadLine(1)),
    (b"1000 100 2049 13 x", None, ScanFault::BadLine(1)),
    (b"1000 100 2049 13 +8", None, ScanFault::BadLine(1)),
    (b"\n1000 100 2049 13 8\r\n", None, ScanFault::BadLine(2)),
    (b"4294967296 100 2049 13 8", None, ScanFault::BadLine(1)),
    (b"1000 4294967296 2049 13 8", None, ScanFault::BadLine(1)),
    (
        b"1000 100 18446744073709551616 13 8",
        None,
        ScanFault::BadLine(1),
    ),
    (
        b"1000 100 2049 18446744073709551616 8",
        None,
        ScanFault::BadLine(1),
    ),
    (
        b"1000 100 2049 13 000000000000000000008",
        None,
        ScanFault::BadLine(1),
    ),
    (b"1 1 2050 13 x", Some(2049), ScanFault::BadLine(1)),
    (
        b"1000 100 2049 12 8\n1000 100 2049 13 8\n1001 100 2049 12 8\nx\n",
        None,
        ScanFault::Conflict { line: 3, first: 1 },
    ),
    (
        b"\n1000 100 2049 12 8\n1000 101 2049 12 8\n",
        None,
        ScanFault::Conflict { line: 3, first: 2 },
    ),
    (
        b"1000 100 2049 12 8\n1000 100 2049 12 8\n1000 100 2049 12 9\n",
        None,
        ScanFault::Conflict { line: 3, first: 1 },
    ),
    (
        b"1 1 2049 12 8\n2 1 2050 12 8\n1 1 2050 12 8\n1 1 2049 12 7\n",
        Some(2049),
        ScanFault::Conflict { line: 4, first: 1 },
    ),
    (
        b"x\n1000 100 2049 12 8\n1000 100 2049 12 9\n",
        None,
        ScanFault::BadLine(1),
    ),
];

#[test]
fn the_first_faulty_line_is_named(rt: HostRuntime) {
    expect_refused(&rt, rt.alloc(), REFUSED);
}

/// How many blanks are behind a line whose words have 18 bytes, and what it tells, or why it is refused.
type LongRow = (usize, Result<Told, ScanFault>);

const LONG: &[LongRow] = &[
    (238, Ok(&[(1000, 4096, 1)])),
    (239, Err(ScanFault::LongLine(2))),
];

/// Expects each line to be read or refused as its row says.
fn expect_long(rt: &impl Abort, alloc: Global, rows: &[LongRow]) {
    for (blanks, answer) in rows {
        let listing = (b"\n1000 100 2049 12 8".as_slice(), *blanks);
        let is_so = is_answer(alloc, listing, Kind::User, None, *answer);
        assert!(rt; is_so == Ok(true), "{blanks} blanks");
    }
}

#[test]
fn a_line_has_at_most_256_bytes(rt: HostRuntime) {
    expect_long(&rt, rt.alloc(), LONG);
}

/// The calls that a scan of one line makes.
const CALLS: &[u64] = &[1, 2];

/// Expects a scan of one line to name the source where one of these calls fails.
fn expect_source_named(rt: &impl Abort, alloc: Global, calls: &[u64]) {
    for call in calls {
        let fault = fault_at(alloc, *call);
        assert!(rt;
            fault == Ok(Some(ScanFault::Source)),
            "call {call}: {fault:?}"
        );
    }
}

fn fault_at(alloc: Global, call: u64) -> Result<Option<ScanFault>, AllocError> {
    let bytes = Vec::from_slice(alloc, b"1000 100 2049 12 8\n")?;
    let mut source = MemSource::new(bytes, Vec::from_slice(alloc, &[call])?);
    Ok(scan(alloc, &mut source, Kind::User, None).err())
}

#[test]
fn a_source_that_fails_is_named(rt: HostRuntime) {
    expect_source_named(&rt, rt.alloc(), CALLS);
}
