use crate::calls::Times;
use crate::running::{ONE, PLAIN, Run, Way, holds};
use std::alloc::Global;
use std::process::Abort;

/// Words that are refused, and the line by which they are.
const WORDS: &[(&str, &str)] = &[
    ("0 1", "quota: usage: WrongOperands at word 2\n"),
    (
        "0 1 any /home user",
        "quota: usage: WrongOperands at word 5\n",
    ),
    (
        "65536 1 any /home user q",
        "quota: usage: BadValue at word 0\n",
    ),
    ("0 0 any /home user q", "quota: usage: BadValue at word 1\n"),
    ("0 1 all /home user q", "quota: usage: BadValue at word 2\n"),
    ("0 1 any  user q", "quota: usage: BadValue at word 3\n"),
    (
        "0 1 any /home users q",
        "quota: usage: BadValue at word 4\n",
    ),
    (
        "0 1 any /home user ",
        "quota: usage: BadFileName at word 5\n",
    ),
    (
        "0 1 any /home user q /srv user q /home user r",
        "quota: usage: Repeated at word 9\n",
    ),
    (
        "0 1 vfsold /home user q /home project q",
        "quota: usage: Excludes at word 9\n",
    ),
    (
        "0 1 vfsold32 /home project q",
        "quota: usage: Excludes at word 6\n",
    ),
    ("70000 0 all  users ", "quota: usage: BadValue at word 0\n"),
];

/// Nothing was written on the one connection that came.
const NOTHING: &[&[Times]] = &[&[]];

/// Whether words are refused by this line, and nothing is done.
fn is_usage(alloc: Global, words: &'static str, line: &'static str) -> bool {
    let row = Run {
        title: words,
        words,
        came: ONE,
        failing: &[1],
        status: 2,
        line,
        port: None,
        written: NOTHING,
    };
    holds(
        alloc,
        &row,
        Way {
            store: &[1],
            ..PLAIN
        },
    )
}

/// The first words that are not refused by their line.
fn wrong_words(alloc: Global) -> Option<&'static str> {
    for (words, line) in WORDS {
        if !is_usage(alloc, *words, *line) {
            return Some(*words);
        }
    }
    None
}

fn expect_each_line(rt: &impl Abort, wrong: Option<&'static str>) {
    assert_eq!(rt; wrong, None);
}

#[test]
fn words_are_refused_by_the_first_fault(rt: HostRuntime) {
    expect_each_line(&rt, wrong_words(rt.alloc()));
}
