use crate::calls::{BACK, FRONT, MIDDLE, ONE_ANSWER, ONE_CALL, TWO_ANSWERS, TWO_CALLS, Times};
use crate::running::{ONE, PLAIN, Run, TWO, Way, end_of, holds, reads_of};
use std::alloc::Global;
use std::process::Abort;

/// The first row that does not hold, by its title.
fn wrong_run(alloc: Global, rows: &[Run<'_>]) -> Option<&'static str> {
    for row in rows {
        if !holds(alloc, row, PLAIN) {
            return Some(row.title);
        }
    }
    None
}

/// The first cut at which a row does not hold, below a number of bytes.
fn wrong_cut(alloc: Global, row: &Run<'_>, count: usize) -> Option<usize> {
    for cut in 0..count {
        if !holds(alloc, row, Way { cut, ..PLAIN }) {
            return Some(cut);
        }
    }
    None
}

/// Whether a row holds byte by byte, and with a cut at each place of its first bytes.
fn is_cut_anywhere(alloc: Global, row: &Run<'_>, count: usize) -> bool {
    holds(alloc, row, Way { most: 1, ..PLAIN }) && wrong_cut(alloc, row, count).is_none()
}

/// Whether a run whose call of the store of this number fails ends by that.
fn is_stopped(alloc: Global, row: &Run<'_>, number: u64) -> bool {
    let store = &[number];
    match end_of(alloc, row, Way { store, ..PLAIN }) {
        Ok(end) => end.status == 4 && end.said.as_slice() == "quota: store fault\n".as_bytes(),
        Err(_) => false,
    }
}

/// How many calls of the store a run makes, below a number: each of them ends the run where it fails.
fn calls_of(alloc: Global, row: &Run<'_>, most: u64) -> u64 {
    for number in 1..most {
        if !is_stopped(alloc, row, number) {
            return number - 1;
        }
    }
    most
}

/// Whether each call of the store that a run makes ends it where it fails, all its calls of `read` among them, and a
/// call that is not made does not.
fn is_ended_by_each(alloc: Global, row: &Run<'_>) -> bool {
    let count = calls_of(alloc, row, 100);
    let store: &[u64] = &[count.saturating_add(1)];
    let Ok(reads) = reads_of(alloc, row) else {
        return false;
    };
    reads > 0 && count >= reads && holds(alloc, row, Way { store, ..PLAIN })
}

/// A call in one fragment, which is 84 bytes long.
const WHOLE: Run<'static> = Run {
    title: "a call in one fragment",
    words: "875 1 vfsv1 /home user q",
    came: ONE,
    failing: &[],
    status: 0,
    line: "",
    port: Some(875),
    written: &[ONE_ANSWER],
};

/// The same call in two fragments, which is 88 bytes long.
const HALVES: Run<'static> = Run {
    title: "a call in two fragments",
    words: "875 1 vfsv1 /home user q",
    came: &[(
        1_700_000_000,
        &[(1, &["00000018", FRONT, "80000038", MIDDLE, BACK])],
    )],
    failing: &[],
    status: 0,
    line: "",
    port: Some(875),
    written: &[ONE_ANSWER],
};

/// A file of another kind.
const OTHER_KIND: Run<'static> = Run {
    title: "the file is of another kind",
    words: "0 1 any /home group q",
    came: ONE,
    failing: &[],
    status: 3,
    line: "quota: q: wrong kind\n",
    port: None,
    written: &[&[]],
};

/// Runs by what they meet.
const RUNS: &[Run<'static>] = &[
    WHOLE,
    HALVES,
    OTHER_KIND,
    Run {
        title: "a record that is too long, a read that fails, and two calls",
        words: "875 3 any /home user q",
        came: &[
            (1_700_000_000, &[(1, &["80001001 *4097"])]),
            (1_700_000_000, ONE_CALL),
            (1_700_000_000, TWO_CALLS),
        ],
        failing: &[5],
        status: 0,
        line: "",
        port: Some(875),
        written: &[&[], &[], TWO_ANSWERS],
    },
    Run {
        title: "no more are accepted than are asked for",
        words: "0 1 any /home user q",
        came: TWO,
        failing: &[],
        status: 0,
        line: "",
        port: Some(0),
        written: &[TWO_ANSWERS, &[]],
    },
    Run {
        title: "one more is asked for than comes",
        words: "0 3 any /home user q",
        came: TWO,
        failing: &[],
        status: 4,
        line: "quota: link fault\n",
        port: Some(0),
        written: &[TWO_ANSWERS, ONE_ANSWER],
    },
    Run {
        title: "two paths have one file",
        words: "0 1 vfsv1 /srv user q /home user q",
        came: ONE,
        failing: &[],
        status: 0,
        line: "",
        port: Some(0),
        written: &[ONE_ANSWER],
    },
    Run {
        title: "there is no second file",
        words: "0 1 any /home user q /srv user r",
        came: ONE,
        failing: &[],
        status: 1,
        line: "quota: r: no such file\n",
        port: None,
        written: &[&[]],
    },
    Run {
        title: "the first of two files is told that are both refused",
        words: "0 1 any /home group q /srv user r",
        came: ONE,
        failing: &[],
        status: 3,
        line: "quota: q: wrong kind\n",
        port: None,
        written: &[&[]],
    },
    Run {
        title: "the file has another format",
        words: "0 1 vfsv0 /home user q",
        came: ONE,
        failing: &[],
        status: 3,
        line: "quota: q: other format\n",
        port: None,
        written: &[&[]],
    },
];

/// The calls on connections of a run over one with two calls and one with one call, each of which fails in turn; and
/// the status then, the port at which it listened, and what was written on each connection.
const FAILING: &[(u64, u8, Option<u16>, &[&[Times]])] = &[
    (1, 4, None, &[&[], &[]]),
    (2, 4, Some(875), &[&[], &[]]),
    (3, 0, Some(875), &[&[], ONE_ANSWER]),
    (4, 0, Some(875), &[&[], ONE_ANSWER]),
    (5, 0, Some(875), &[ONE_ANSWER, ONE_ANSWER]),
    (6, 0, Some(875), &[TWO_ANSWERS, ONE_ANSWER]),
    (7, 4, Some(875), &[TWO_ANSWERS, &[]]),
    (8, 0, Some(875), &[TWO_ANSWERS, &[]]),
    (9, 0, Some(875), &[TWO_ANSWERS, &[]]),
    (10, 0, Some(875), &[TWO_ANSWERS, ONE_ANSWER]),
    (11, 0, Some(875), &[TWO_ANSWERS, ONE_ANSWER]),
];

/// The number of the first of those calls that ends a run otherwise.
fn wrong_fault(alloc: Global) -> Option<u64> {
    for (call, status, port, written) in FAILING {
        let row = Run {
            title: "a call fails",
            words: "875 2 any /home user q",
            came: TWO,
            failing: &[*call],
            status: *status,
            line: if *status == 4 {
                "quota: link fault\n"
            } else {
                ""
            },
            port: *port,
            written: *written,
        };
        if !holds(alloc, &row, PLAIN) {
            return Some(*call);
        }
    }
    None
}

fn expect_no_run(rt: &impl Abort, wrong: Option<&'static str>) {
    assert_eq!(rt; wrong, None);
}

fn expect_no_fault(rt: &impl Abort, wrong: Option<u64>) {
    assert_eq!(rt; wrong, None);
}

fn expect(rt: &impl Abort, holds: bool) {
    assert!(rt; holds);
}

#[test]
fn runs_answer_what_comes_and_say_what_is_refused(rt: HostRuntime) {
    expect_no_run(&rt, wrong_run(rt.alloc(), RUNS));
}

#[test]
fn a_run_ends_with_what_can_not_be_accepted_alone(rt: HostRuntime) {
    expect_no_fault(&rt, wrong_fault(rt.alloc()));
}

#[test]
fn a_call_is_answered_wherever_it_is_cut(rt: HostRuntime) {
    expect(&rt, is_cut_anywhere(rt.alloc(), &WHOLE, 84));
    expect(&rt, is_cut_anywhere(rt.alloc(), &HALVES, 88));
}

#[test]
fn a_call_of_the_store_that_fails_ends_a_run(rt: HostRuntime) {
    expect(&rt, is_ended_by_each(rt.alloc(), &WHOLE));
}

#[test]
fn the_status_stays_where_the_error_output_fails(rt: HostRuntime) {
    let row = Run {
        line: "",
        ..OTHER_KIND
    };
    expect(&rt, holds(rt.alloc(), &row, Way { err: &[1], ..PLAIN }));
}
