use crate::calls::{
    ANSWER, BACK, CALL, FRONT, GRACE, MIDDLE, ONE_ANSWER, ONE_CALL, TWO_ANSWERS, TWO_CALLS, Times,
    USERS, came_as, have_written,
};
use memory_objects::MemStore;
use quota_types::{Format, Kind};
use rpc_record::{StreamFault, serve_stream};
use rquota_serve::Exports;
use std::alloc::{AllocError, Global};
use std::process::Abort;
use tests_row_files::listed;

/// A call of the second user, and what is written of the reply to it while the timer has 10 seconds left and 50.
const TIMED_CALL: &[&str] = &[
    "80000050 00000001 00000000 00000002 000186ab 00000001 00000001",
    "00000001 00000018 00000000 00000001 68000000 000003e9 000003e9 00000000 00000000 00000000",
    "00000005 2f686f6d 65000000 000003e9",
];

const TEN_LEFT: &[&str] = &[
    "80000044 00000001 00000001 00000000 00000000 00000000 00000000 00000001",
    "00000400 00000001 00000000 00000001 00000002 00000000 00000000 00000001 0000000a 00000000",
];

const FIFTY_LEFT: &[&str] = &[
    "80000044 00000001 00000001 00000000 00000000 00000000 00000000 00000001",
    "00000400 00000001 00000000 00000001 00000002 00000000 00000000 00000001 00000032 00000000",
];

/// The connections that come, by their moments and what they bring, the calls that fail, how many connections are asked
/// for, how serving ends, and what was written on each connection.
struct Row {
    title: &'static str,
    came: &'static [(u64, &'static [Times])],
    failing: &'static [u64],
    connections: u32,
    ends: Result<(), StreamFault>,
    written: &'static [&'static [Times]],
}

/// The users under the path `/home`, or None where they can't be exported.
fn exports_of(alloc: Global, store: &mut MemStore) -> Option<Exports> {
    let mut exports = Exports::new(alloc);
    if !exports.may_add("/home", Kind::User) {
        return None;
    }
    let format = Some(Format::V2R1);
    match exports.add(alloc, store, "/home", Kind::User, "q", format) {
        Ok(()) => Some(exports),
        Err(_) => None,
    }
}

/// Whether a row holds where reads take at most so many bytes.
fn holds(alloc: Global, row: &Row, most: usize) -> Result<bool, AllocError> {
    let Some(mut store) = listed(alloc, Kind::User, Format::V2R1, GRACE, USERS) else {
        return Ok(false);
    };
    let Some(mut exports) = exports_of(alloc, &mut store) else {
        return Ok(false);
    };
    let mut short = came_as(alloc, row.came, row.failing, most, 0)?;
    let ends = serve_stream(&mut exports, &mut store, &mut short, row.connections);
    let is_written = have_written(alloc, &short.conns, row.written)?;
    Ok(ends == row.ends && is_written)
}

fn expect_all(rt: &impl Abort, alloc: Global, rows: &[Row], sizes: &[usize]) {
    for row in rows {
        for most in sizes {
            assert!(rt;
                holds(alloc, row, *most) == Ok(true),
                "{}, by {}",
                row.title,
                *most
            );
        }
    }
}

/// Rows in which no call fails, however many reads are made.
const ROWS: &[Row] = &[
    Row {
        title: "a call is answered",
        came: &[(1_700_000_000, ONE_CALL)],
        failing: &[],
        connections: 1,
        ends: Ok(()),
        written: &[ONE_ANSWER],
    },
    Row {
        title: "a call in two fragments is answered by one",
        came: &[(
            1_700_000_000,
            &[(1, &["00000018", FRONT, "80000038", MIDDLE, BACK])],
        )],
        failing: &[],
        connections: 1,
        ends: Ok(()),
        written: &[ONE_ANSWER],
    },
    Row {
        title: "calls that pass over the ends of reads are answered",
        came: &[(1_700_000_000, &[(120, CALL)])],
        failing: &[],
        connections: 1,
        ends: Ok(()),
        written: &[&[(120, ANSWER)]],
    },
    Row {
        title: "a record without a reply is passed over",
        came: &[(
            1_700_000_000,
            &[(1, CALL), (1, &["80000003 'abc"]), (1, CALL)],
        )],
        failing: &[],
        connections: 1,
        ends: Ok(()),
        written: &[TWO_ANSWERS],
    },
    Row {
        title: "a call that is cut off is not answered",
        came: &[(
            1_700_000_000,
            &[(1, CALL), (1, &["80000050", FRONT, MIDDLE])],
        )],
        failing: &[],
        connections: 1,
        ends: Ok(()),
        written: &[ONE_ANSWER],
    },
    Row {
        title: "nothing is answered behind a record that is too long",
        came: &[
            (
                1_700_000_000,
                &[(1, CALL), (1, &["80001001 *4097"]), (1, CALL)],
            ),
            (1_700_000_000, TWO_CALLS),
        ],
        failing: &[],
        connections: 2,
        ends: Ok(()),
        written: &[ONE_ANSWER, TWO_ANSWERS],
    },
    Row {
        title: "each connection has its own moment",
        came: &[
            (1_700_000_050, &[(1, TIMED_CALL)]),
            (1_700_000_010, &[(1, TIMED_CALL)]),
        ],
        failing: &[],
        connections: 2,
        ends: Ok(()),
        written: &[&[(1, TEN_LEFT)], &[(1, FIFTY_LEFT)]],
    },
    Row {
        title: "no more are accepted than are asked for",
        came: &[(1_700_000_000, ONE_CALL), (1_700_000_000, ONE_CALL)],
        failing: &[],
        connections: 1,
        ends: Ok(()),
        written: &[ONE_ANSWER, &[]],
    },
    Row {
        title: "none is accepted",
        came: &[(1_700_000_000, ONE_CALL)],
        failing: &[1],
        connections: 0,
        ends: Ok(()),
        written: &[&[]],
    },
    Row {
        title: "one too many is asked for",
        came: &[(1_700_000_000, ONE_CALL)],
        failing: &[],
        connections: 2,
        ends: Err(StreamFault::Conn),
        written: &[ONE_ANSWER],
    },
];

/// The most bytes that a read takes, in each row of those.
const SIZES: &[usize] = &[1, 3, 84, 4095, 5000];

/// A connection with two calls, and one with one call.
const THREE_CALLS: &[(u64, &[Times])] = &[(1_700_000_000, TWO_CALLS), (1_700_000_000, ONE_CALL)];

/// Rows in which a call fails, where each read takes what the server asks for. Behind the first row each call fails in
/// turn.
const FAILING_ROWS: &[Row] = &[
    Row {
        title: "a record that is too long, a read that fails, and two calls",
        came: &[
            (1_700_000_000, &[(1, &["80001001 *4097"])]),
            (1_700_000_000, ONE_CALL),
            (1_700_000_000, TWO_CALLS),
        ],
        failing: &[4],
        connections: 3,
        ends: Ok(()),
        written: &[&[], &[], TWO_ANSWERS],
    },
    Row {
        title: "the first connection is not accepted",
        came: THREE_CALLS,
        failing: &[1],
        connections: 2,
        ends: Err(StreamFault::Conn),
        written: &[&[], &[]],
    },
    Row {
        title: "the first read of the first connection fails",
        came: THREE_CALLS,
        failing: &[2],
        connections: 2,
        ends: Ok(()),
        written: &[&[], ONE_ANSWER],
    },
    Row {
        title: "the first answer on the first connection is not written",
        came: THREE_CALLS,
        failing: &[3],
        connections: 2,
        ends: Ok(()),
        written: &[&[], ONE_ANSWER],
    },
    Row {
        title: "the second answer on the first connection is not written",
        came: THREE_CALLS,
        failing: &[4],
        connections: 2,
        ends: Ok(()),
        written: &[ONE_ANSWER, ONE_ANSWER],
    },
    Row {
        title: "the last read of the first connection fails",
        came: THREE_CALLS,
        failing: &[5],
        connections: 2,
        ends: Ok(()),
        written: &[TWO_ANSWERS, ONE_ANSWER],
    },
    Row {
        title: "the second connection is not accepted",
        came: THREE_CALLS,
        failing: &[6],
        connections: 2,
        ends: Err(StreamFault::Conn),
        written: &[TWO_ANSWERS, &[]],
    },
    Row {
        title: "the first read of the second connection fails",
        came: THREE_CALLS,
        failing: &[7],
        connections: 2,
        ends: Ok(()),
        written: &[TWO_ANSWERS, &[]],
    },
    Row {
        title: "the answer on the second connection is not written",
        came: THREE_CALLS,
        failing: &[8],
        connections: 2,
        ends: Ok(()),
        written: &[TWO_ANSWERS, &[]],
    },
    Row {
        title: "the last read of the second connection fails",
        came: THREE_CALLS,
        failing: &[9],
        connections: 2,
        ends: Ok(()),
        written: &[TWO_ANSWERS, ONE_ANSWER],
    },
    Row {
        title: "no tenth call is made",
        came: THREE_CALLS,
        failing: &[10],
        connections: 2,
        ends: Ok(()),
        written: &[TWO_ANSWERS, ONE_ANSWER],
    },
];

#[test]
fn streams_are_answered_however_they_are_read(rt: HostRuntime) {
    expect_all(&rt, rt.alloc(), ROWS, SIZES);
}

#[test]
fn a_connection_that_fails_does_not_end_the_others(rt: HostRuntime) {
    expect_all(&rt, rt.alloc(), FAILING_ROWS, &[usize::MAX]);
}
