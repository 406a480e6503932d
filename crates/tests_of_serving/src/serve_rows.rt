use crate::exported::{Told, exports_of, store_with};
use crate::parts::{ASKED, TOLD, bytes_of};
use memory_objects::MemLink;
use quota_types::{Format, Kind};
use rquota_serve::{ServeFault, serve};
use std::alloc::{AllocError, Global};
use std::process::Abort;

const USERS: &[Told] = &[("/home", Kind::User, "q")];

/// Datagrams, the calls of the link that fail, how many datagrams are asked for, how serving ends, and the answers.
struct Row {
    title: &'static str,
    datagrams: &'static [(&'static str, u64)],
    failing: &'static [u64],
    calls: u32,
    ends: Result<(), ServeFault>,
    answers: &'static [&'static str],
}

/// A link to which datagrams come.
fn link_of(
    alloc: Global,
    datagrams: &[(&str, u64)],
    failing: &[u64],
) -> Result<MemLink, AllocError> {
    let mut list = Vec::new(alloc);
    for datagram in datagrams {
        list.push((bytes_of(alloc, datagram.0)?, datagram.1))?;
    }
    Ok(MemLink::new(list, Vec::from_slice(alloc, failing)?))
}

/// Whether these are the answers.
fn has_sent(alloc: Global, link: &MemLink, want: &[&str]) -> bool {
    let sent = link.answers();
    if sent.len() != want.len() {
        return false;
    }
    for (answer, parts) in sent.iter().zip(want) {
        match bytes_of(alloc, *parts) {
            Ok(bytes) if bytes == *answer => {}
            _ => return false,
        }
    }
    true
}

/// Whether the row holds.
fn holds(alloc: Global, row: &Row) -> bool {
    let Some(mut store) = store_with(alloc, Format::V2R1, &[]) else {
        return false;
    };
    let Some(mut exports) = exports_of(alloc, &mut store, USERS, Format::V2R1) else {
        return false;
    };
    let Ok(mut link) = link_of(alloc, row.datagrams, row.failing) else {
        return false;
    };
    let ends = serve(&mut exports, &mut store, &mut link, row.calls);
    ends == row.ends && has_sent(alloc, &link, row.answers)
}

fn expect_all(rt: &impl Abort, alloc: Global, rows: &[Row]) {
    for row in rows {
        assert!(rt; holds(alloc, row), "{}", row.title);
    }
}

/// No call of RPC.
const NOISE: &str = "*3";

/// A call for a group, whose path is not exported, and the reply to it.
const OTHER: &str = "1 0 2 100011 2 1 1 24 0 'h 1000 1000 0 0 0 '/home 1 1000";

const NO_QUOTA: &str = "1 1 0 0 0 0 2";

/// A call with 5,000 bytes behind it.
const LONG: &str = "1 0 2 100011 1 1 1 24 0 'h 1000 1000 0 0 0 '/home 1000 *5000";

const THREE: &[(&str, u64)] = &[(ASKED, 1), (NOISE, 2), (OTHER, 3)];

const ROWS: &[Row] = &[
    Row {
        title: "a datagram without a reply counts",
        datagrams: &[(NOISE, 1), (ASKED, 2)],
        failing: &[],
        calls: 2,
        ends: Ok(()),
        answers: &[TOLD],
    },
    Row {
        title: "no more are taken than are asked for",
        datagrams: THREE,
        failing: &[],
        calls: 1,
        ends: Ok(()),
        answers: &[TOLD],
    },
    Row {
        title: "answers go out in the order of their datagrams",
        datagrams: THREE,
        failing: &[],
        calls: 3,
        ends: Ok(()),
        answers: &[TOLD, NO_QUOTA],
    },
    Row {
        title: "none is taken",
        datagrams: THREE,
        failing: &[1],
        calls: 0,
        ends: Ok(()),
        answers: &[],
    },
    Row {
        title: "one too many is asked for",
        datagrams: THREE,
        failing: &[],
        calls: 4,
        ends: Err(ServeFault::Link),
        answers: &[TOLD, NO_QUOTA],
    },
    Row {
        title: "the first datagram is not taken",
        datagrams: THREE,
        failing: &[1],
        calls: 3,
        ends: Err(ServeFault::Link),
        answers: &[],
    },
    Row {
        title: "the first answer is not sent",
        datagrams: THREE,
        failing: &[2],
        calls: 3,
        ends: Err(ServeFault::Link),
        answers: &[],
    },
    Row {
        title: "the second datagram is not taken",
        datagrams: THREE,
        failing: &[3],
        calls: 3,
        ends: Err(ServeFault::Link),
        answers: &[TOLD],
    },
    Row {
        title: "the third datagram is not taken",
        datagrams: THREE,
        failing: &[4],
        calls: 3,
        ends: Err(ServeFault::Link),
        answers: &[TOLD],
    },
    Row {
        title: "the third answer is not sent",
        datagrams: THREE,
        failing: &[5],
        calls: 3,
        ends: Err(ServeFault::Link),
        answers: &[TOLD],
    },
    Row {
        title: "no sixth call is made",
        datagrams: THREE,
        failing: &[6],
        calls: 3,
        ends: Ok(()),
        answers: &[TOLD, NO_QUOTA],
    },
    Row {
        title: "a long datagram is read by its first 4,096 bytes",
        datagrams: &[(LONG, 1), (ASKED, 2)],
        failing: &[],
        calls: 2,
        ends: Ok(()),
        answers: &[TOLD, TOLD],
    },
];

#[test]
fn datagrams_are_served(rt: HostRuntime) {
    expect_all(&rt, rt.alloc(), ROWS);
}
