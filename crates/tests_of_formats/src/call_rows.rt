use crate::helpers_low::put;
use rquota_xdr::{Call, read_call};
use std::process::Abort;

/// What a call with xid 1 asks. A `Get` has the numbers of its caller, where its path begins and how long it is, the
/// type and the identifier.
#[derive(Clone, Copy, PartialEq, Eq)]
enum Asks<'a> {
    Silent,
    OldRpc,
    NoProgram,
    NoVersion,
    NoProcedure,
    Auth(u32),
    Garbage,
    Null,
    Get(u32, u32, &'a [u32], usize, usize, u32, u32),
    Set,
}

/// The xid of a call, or 1 where it has none, and what it asks.
fn asked(call: &Call) -> (u32, Asks<'_>) {
    match call {
        Call::Silent => (1, Asks::Silent),
        Call::OldRpc { xid } => (*xid, Asks::OldRpc),
        Call::NoProgram { xid } => (*xid, Asks::NoProgram),
        Call::NoVersion { xid } => (*xid, Asks::NoVersion),
        Call::NoProcedure { xid } => (*xid, Asks::NoProcedure),
        Call::Auth { xid, stat } => (*xid, Asks::Auth(*stat)),
        Call::Garbage { xid } => (*xid, Asks::Garbage),
        Call::Null { xid } => (*xid, Asks::Null),
        Call::Set { xid } => (*xid, Asks::Set),
        Call::Get {
            xid,
            caller,
            path,
            kind,
            id,
        } => {
            let gids = caller.gids.as_slice();
            let asks = Asks::Get(
                caller.uid, caller.gid, gids, path.start, path.len, *kind, *id,
            );
            (*xid, asks)
        }
    }
}

/// Whether the bytes are a call with xid 1 that asks this, or are none where that is wanted.
fn is_asked(bytes: &[u8], want: Asks<'_>) -> bool {
    let call = read_call(bytes);
    let found = asked(&call);
    found.0 == 1 && found.1 == want
}

/// A GETQUOTA call of version 1 by uid 1000 for `/home` and identifier 1000.
const CALL: [u8; 80] = [
    0, 0, 0, 1, 0, 0, 0, 0, 0, 0, 0, 2, 0, 1, 0x86, 0xab, 0, 0, 0, 1, 0, 0, 0, 1, // head
    0, 0, 0, 1, 0, 0, 0, 24, // credential
    0, 0, 0, 0, 0, 0, 0, 1, b'h', 0, 0, 0, 0, 0, 3, 0xe8, 0, 0, 3, 0xe8, 0, 0, 0, 0, // its body
    0, 0, 0, 0, 0, 0, 0, 0, // verifier
    0, 0, 0, 5, b'/', b'h', b'o', b'm', b'e', 0, 0, 0, 0, 0, 3, 0xe8, // arguments
];

/// What `CALL` asks.
const GET: Asks<'static> = Asks::Get(1000, 1000, &[], 68, 5, 0, 1000);

/// A place of `CALL` with the unit that is put there, and what it asks then.
type ChangedRow = (usize, u32, Asks<'static>);

const CHANGED: &[ChangedRow] = &[
    (44, 1000, GET),
    (44, 1001, Asks::Get(1001, 1000, &[], 68, 5, 0, 1000)),
    (32, 7, GET),
    (40, 0x6863_6363, GET),
    (72, 0x6501_0203, GET),
    (20, 2, GET),
    (76, u32::MAX, Asks::Get(1000, 1000, &[], 68, 5, 0, u32::MAX)),
    (4, 1, Asks::Silent),
    (8, 3, Asks::OldRpc),
    (12, 1, Asks::NoProgram),
    (16, 0, Asks::NoVersion),
    (16, 3, Asks::NoVersion),
    (20, 0, Asks::Null),
    (20, 3, Asks::Garbage),
    (20, 5, Asks::NoProcedure),
    (24, 0, Asks::Auth(5)),
    (24, 6, Asks::Auth(2)),
    (28, 23, Asks::Auth(1)),
    (28, u32::MAX, Asks::Auth(1)),
    (36, u32::MAX, Asks::Auth(1)),
    (52, 1, Asks::Auth(1)),
    (52, u32::MAX, Asks::Auth(1)),
    (60, u32::MAX, Asks::Auth(3)),
    (64, u32::MAX, Asks::Garbage),
];

/// The call with another unit at a place.
fn changed(at: usize, unit: u32) -> [u8; 80] {
    let mut bytes = CALL;
    let at = at.min(76);
    bytes[at..at + 4].copy_from_slice(&unit.to_be_bytes());
    bytes
}

fn expect_changed(rt: &impl Abort, rows: &[ChangedRow]) {
    for row in rows {
        let bytes = changed(row.0, row.1);
        assert!(rt;
            is_asked(&bytes, row.2),
            "{} at {}: {:?}",
            row.1,
            row.0,
            read_call(&bytes)
        );
    }
}

#[test]
fn answers_the_first_field_that_is_refused_or_reads_all(rt: HostRuntime) {
    expect_changed(&rt, CHANGED);
}

/// From how many and below how many of the first bytes of `CALL` it asks this.
type CutRow = (usize, usize, Asks<'static>);

const CUT: &[CutRow] = &[
    (0, 24, Asks::Silent),
    (24, 56, Asks::Auth(1)),
    (56, 64, Asks::Auth(3)),
    (64, 80, Asks::Garbage),
];

fn expect_cut(rt: &impl Abort, rows: &[CutRow]) {
    for row in rows {
        for len in row.0..row.1 {
            assert!(rt; is_asked(&CALL[..len.min(80)], row.2), "{len} bytes");
        }
    }
}

#[test]
fn answers_a_call_that_is_cut(rt: HostRuntime) {
    expect_cut(&rt, CUT);
}

/// Units that stand from a place on.
type Part = (usize, &'static [u32]);

/// A title, the parts of a datagram of zeros, its length, and what it asks.
type BuiltRow = (&'static str, &'static [Part], usize, Asks<'static>);

/// The heads of calls, by version and procedure.
const GET_1: Part = (0, &[1, 0, 2, 100_011, 1, 1]);

const ACTIVE_1: Part = (0, &[1, 0, 2, 100_011, 1, 2]);

const SET_1: Part = (0, &[1, 0, 2, 100_011, 1, 3]);

const SET_ACTIVE_1: Part = (0, &[1, 0, 2, 100_011, 1, 4]);

const GET_2: Part = (0, &[1, 0, 2, 100_011, 2, 1]);

const ACTIVE_2: Part = (0, &[1, 0, 2, 100_011, 2, 2]);

const SET_2: Part = (0, &[1, 0, 2, 100_011, 2, 3]);

const SET_ACTIVE_2: Part = (0, &[1, 0, 2, 100_011, 2, 4]);

/// The credential of uid 1000, behind which the verifier is empty.
const BY_1000: Part = (24, &[1, 20, 0, 0, 1000, 100, 0]);

/// The arguments of a question for `/home`: version 1 ends in front of the last number, which is identifier 1 there,
/// and the type in version 2.
const QUESTION: Part = (60, &[5, 0x2f68_6f6d, 0x6500_0000, 1, 1000]);

/// The first arguments of a change: a program's number or the type, and `/home`.
const CHANGE: Part = (60, &[2, 5, 0x2f68_6f6d, 0x6500_0000, 1000]);

/// What the question asks in version 1, and in version 2.
const ASKED_1: Asks<'static> = Asks::Get(1000, 100, &[], 64, 5, 0, 1);

const ASKED_2: Asks<'static> = Asks::Get(1000, 100, &[], 64, 5, 1, 1000);

#[rattlefmt::skip]
const PROCEDURES: &[BuiltRow] = &[
    ("1.1", &[GET_1, BY_1000, QUESTION], 76, ASKED_1),
    ("1.1 cut", &[GET_1, BY_1000, QUESTION], 75, Asks::Garbage),
    ("1.2", &[ACTIVE_1, BY_1000, QUESTION], 76, ASKED_1),
    ("1.2 cut", &[ACTIVE_1, BY_1000, QUESTION], 75, Asks::Garbage),
    ("2.1", &[GET_2, BY_1000, QUESTION], 80, ASKED_2),
    ("2.1 cut", &[GET_2, BY_1000, QUESTION], 79, Asks::Garbage),
    ("2.2", &[ACTIVE_2, BY_1000, QUESTION], 80, ASKED_2),
    ("2.2 cut", &[ACTIVE_2, BY_1000, QUESTION], 79, Asks::Garbage),
    ("1.3", &[SET_1, BY_1000, CHANGE], 112, Asks::Set),
    ("1.3 cut", &[SET_1, BY_1000, CHANGE], 111, Asks::Garbage),
    ("1.4", &[SET_ACTIVE_1, BY_1000, CHANGE], 112, Asks::Set),
    ("1.4 cut", &[SET_ACTIVE_1, BY_1000, CHANGE], 111, Asks::Garbage),
    ("2.3", &[SET_2, BY_1000, CHANGE], 116, Asks::Set),
    ("2.3 cut", &[SET_2, BY_1000, CHANGE], 115, Asks::Garbage),
    ("2.4", &[SET_ACTIVE_2, BY_1000, CHANGE], 116, Asks::Set),
    ("2.4 cut", &[SET_ACTIVE_2, BY_1000, CHANGE], 115, Asks::Garbage),
    ("1.0", &[(0, &[1, 0, 2, 100_011, 1, 0])], 24, Asks::Null),
    ("2.0", &[(0, &[1, 0, 2, 100_011, 2, 0])], 24, Asks::Null),
];

/// Whether the datagram of these parts and this length asks this.
fn built_asks(parts: &[Part], len: usize, want: Asks<'_>) -> bool {
    let mut bytes = [0; 2048];
    for part in parts {
        if !put(&mut bytes, part.0, part.1) {
            return false;
        }
    }
    len <= 2048 && is_asked(&bytes[..len], want)
}

fn expect_built(rt: &impl Abort, rows: &[BuiltRow]) {
    for row in rows {
        assert!(rt; built_asks(row.1, row.2, row.3), "{}", row.0);
    }
}

#[test]
fn reads_both_versions_of_each_procedure(rt: HostRuntime) {
    expect_built(&rt, PROCEDURES);
}

/// The identifier of a question whose path is empty, which stands at a place.
const AT_132: Part = (132, &[7]);

const AT_844: Part = (844, &[7]);

const AT_1088: Part = (1088, &[7]);

/// The numbers of 17 further groups, behind the credential's head.
const GROUPS: &[u32] = &[
    31, 32, 33, 34, 35, 36, 37, 38, 39, 40, 41, 42, 43, 44, 45, 46, 47,
];

const THREE: &[u32] = &[31, 32, 33];

const SIXTEEN: &[u32] = &[
    31, 32, 33, 34, 35, 36, 37, 38, 39, 40, 41, 42, 43, 44, 45, 46,
];

#[rattlefmt::skip]
const LENGTHS: &[BuiltRow] = &[
    ("a name of 255 bytes", &[GET_1, (24, &[1, 276, 0, 255]), (296, &[1000, 100, 0]), (320, &[7])], 2048,
        Asks::Get(1000, 100, &[], 320, 0, 0, 7)),
    ("a name of 256 bytes", &[GET_1, (24, &[1, 276, 0, 256]), (296, &[1000, 100, 0]), (320, &[7])], 2048,
        Asks::Auth(1)),
    ("3 groups", &[GET_1, (24, &[1, 88, 0, 0, 1000, 100, 3]), (52, GROUPS), AT_132], 2048,
        Asks::Get(1000, 100, THREE, 132, 0, 0, 7)),
    ("16 groups", &[GET_1, (24, &[1, 88, 0, 0, 1000, 100, 16]), (52, GROUPS), AT_132], 2048,
        Asks::Get(1000, 100, SIXTEEN, 132, 0, 0, 7)),
    ("17 groups", &[GET_1, (24, &[1, 88, 0, 0, 1000, 100, 17]), (52, GROUPS), AT_132], 2048, Asks::Auth(1)),
    ("bodies of 400 bytes", &[GET_1, (24, &[1, 400, 0, 0, 1000, 100, 0]), (432, &[9, 400]), AT_844], 2048,
        Asks::Get(1000, 100, &[], 844, 0, 0, 7)),
    ("a credential of 401 bytes", &[GET_1, (24, &[1, 401, 0, 0, 1000, 100, 0]), (432, &[9, 400]), AT_844], 2048,
        Asks::Auth(1)),
    ("a verifier of 401 bytes", &[GET_1, (24, &[1, 400, 0, 0, 1000, 100, 0]), (432, &[9, 401]), AT_844], 2048,
        Asks::Auth(3)),
    ("a path of 1,024 bytes", &[GET_1, BY_1000, (60, &[1024]), AT_1088], 2048,
        Asks::Get(1000, 100, &[], 64, 1024, 0, 7)),
    ("a path of 1,025 bytes", &[GET_1, BY_1000, (60, &[1025]), AT_1088], 2048, Asks::Garbage),
    ("nobody", &[GET_1, (32, &[0, 0, 5, 0x2f68_6f6d, 0x6500_0000, 1000])], 56, Asks::Auth(5)),
    ("nobody with a verifier of 401 bytes", &[GET_1, (32, &[0, 401, 5, 0x2f68_6f6d, 0x6500_0000, 1000])], 56,
        Asks::Auth(3)),
    ("nobody with the longest verifier", &[GET_1, (32, &[0, u32::MAX, 5, 0x2f68_6f6d, 0x6500_0000, 1000])], 56,
        Asks::Auth(3)),
];

#[test]
fn takes_lengths_up_to_the_greatest(rt: HostRuntime) {
    expect_built(&rt, LENGTHS);
}
