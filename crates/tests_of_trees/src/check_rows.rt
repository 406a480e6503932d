use crate::tree_files::*;
use file_blocks::CheckFault;
use memory_objects::MemStore;
use opened_file::{FileFault, OpenFault};
use quota_types::DamageKind::{self, *};
use quota_types::{Damage, Kind};
use std::alloc::Global;
use std::process::Abort;
use tests_row_files::{get, next_after, store_of};
use tree_check::Checked;
use tree_file::{TreeFile, open_tree};

/// A file that is checked.
struct CheckRow {
    title: &'static str,
    file: SixBlocks,
    /// The check answers one of these.
    answers: &'static [Answer],
}

/// What a check answers.
enum Answer {
    /// This many records and free blocks.
    Found(u64, u32),
    /// A damage: its kind, its block and its identifier.
    Named(DamageKind, u32, u32),
}

use Answer::*;

fn as_result(answer: &Answer) -> Result<Checked, CheckFault> {
    match *answer {
        Found(used, free) => found(used, free),
        Named(kind, block, id) => named(kind, block, id),
    }
}

/// Expects each check to answer what its row says.
fn expect_checks(rt: &impl Abort, alloc: Global, rows: &[CheckRow]) {
    for row in rows {
        let got = answer_of(alloc, row);
        let is_one = row
            .answers
            .iter()
            .any(|answer| got == Some(as_result(answer)));
        assert!(rt; is_one, "{}: {got:?}", row.title);
    }
}

/// What a check answers on the row's file; None where there is not enough memory.
fn answer_of(alloc: Global, row: &CheckRow) -> Option<Result<Checked, CheckFault>> {
    let (len, changes) = row.file;
    let file = made(alloc, len, changes).ok()?;
    let (answer, _) = checked(alloc, file.as_slice()).ok()?;
    Some(answer)
}

/// Files with nothing wrong.
const SOUND: &[CheckRow] = &[
    CheckRow {
        title: "six blocks have one record",
        file: (6144, &[]),
        answers: &[Found(1, 0)],
    },
    CheckRow {
        title: "the header alone is an empty file",
        file: (32, &[EMPTY]),
        answers: &[Found(0, 0)],
    },
    CheckRow {
        title: "a full block is in no list",
        file: (6144, &[FULL]),
        answers: &[Found(14, 0)],
    },
    CheckRow {
        title: "the second data block is listed behind the first",
        file: (7168, &[SECOND, &[(NEXT, 6), (6148, 5)]]),
        answers: &[Found(2, 0)],
    },
    CheckRow {
        title: "the second data block is listed before the first",
        file: (7168, &[SECOND, &[(FIRST, 6), (6144, 5), (PREVIOUS, 6)]]),
        answers: &[Found(2, 0)],
    },
    CheckRow {
        title: "free blocks have any bytes",
        file: (
            8192,
            &[&[
                (BLOCKS, 8),
                (FREE, 7),
                (7168, 6),
                (7172, u32::MAX),
                (6148, 9),
                (7000, 7),
            ]],
        ),
        answers: &[Found(1, 2)],
    },
    CheckRow {
        title: "padding doesn't matter",
        file: (
            6144,
            &[&[
                (STATED, 0xffff_0001),
                (STATED + 4, u32::MAX),
                (ENTRY + 4, u32::MAX),
                (ENTRY + 1008, u32::MAX),
            ]],
        ),
        answers: &[Found(1, 0)],
    },
    CheckRow {
        title: "the place of an entry doesn't matter",
        file: (
            6144,
            &[WITHOUT_ENTRY, &[(ENTRY + 936, 1000), (ENTRY + 960, 1)]],
        ),
        answers: &[Found(1, 0)],
    },
    CheckRow {
        title: "entries of vfsv0 have 48 bytes",
        file: (
            6144,
            &[
                WITHOUT_ENTRY,
                &[(VERSION, 0), (ENTRY + 960, 1000), (ENTRY + 972, 1)],
            ],
        ),
        answers: &[Found(1, 0)],
    },
    CheckRow {
        title: "full blocks of vfsv0 have 21 entries",
        file: (7168, &[TWO_FULL_OF_VFSV0]),
        answers: &[Found(42, 0)],
    },
    CheckRow {
        title: "a block of vfsv0 with 20 entries is listed",
        file: (
            7168,
            &[
                TWO_FULL_OF_VFSV0,
                &[(FIRST, 6), (4176, 0), (6152, 20), (7120, 0)],
            ],
        ),
        answers: &[Found(41, 0)],
    },
];

/// Identifier 1001 in a second data block, 6.
const SECOND: &[Change] = &[(BLOCKS, 7), (5028, 6), (6152, 1), (6160, 1001)];

/// Makes the entry of identifier 1000 an unused one.
const WITHOUT_ENTRY: &[Change] = &[(ENTRY, 0), (ENTRY + 24, 0), (ENTRY + 48, 0)];

#[test]
fn a_file_with_nothing_wrong_is_accepted(rt: HostRuntime) {
    expect_checks(&rt, rt.alloc(), SOUND);
}

/// Damaged files, each with the damages of which a check may name any.
#[rattlefmt::skip]
const DAMAGED: &[CheckRow] = &[
    CheckRow { title: "a file without its last byte", file: (6143, &[]), answers: &[Named(Short, 5, 0)] },
    CheckRow { title: "more blocks than the file has",
        file: (6144, &[&[(BLOCKS, u32::MAX)]]), answers: &[Named(Short, 6, 0)] },
    CheckRow { title: "a block that nothing leads to",
        file: (7168, &[&[(BLOCKS, 7)]]), answers: &[Named(NoRole, 6, 0)] },
    CheckRow { title: "a reference past the last block",
        file: (6144, &[&[(2044, 6)]]), answers: &[Named(RefOut, 1, 0)] },
    CheckRow { title: "the root at the head of the free list", file: (6144, &[&[(FREE, 1)]]),
        answers: &[Named(TwoRoles, 1, 0), Named(TwoRoles, 2, 0), Named(TwoRoles, 3, 0)] },
    CheckRow { title: "no leaf", file: (6144, &[&[(5024, 0)]]),
        answers: &[Named(EmptyTree, 4, 0), Named(NoRole, 5, 0), Named(ForeignInChain, 5, 0)] },
    CheckRow { title: "the head of the entry list past the last block", file: (6144, &[&[(FIRST, 6)]]),
        answers: &[Named(ChainOut, 6, 0), Named(MissingInChain, 5, 0)] },
    CheckRow { title: "a listed block that is behind itself",
        file: (6144, &[&[(NEXT, 5)]]), answers: &[Named(ChainLoop, 5, 0)] },
    CheckRow { title: "the root behind a listed block", file: (6144, &[&[(NEXT, 1)]]),
        answers: &[Named(ForeignInChain, 1, 0), Named(ForeignInChain, 2, 0), Named(ForeignInChain, 3, 0),
            Named(BadPrev, 1, 0), Named(BadPrev, 2, 0), Named(BadPrev, 3, 0)] },
    CheckRow { title: "a block with room that is not listed",
        file: (6144, &[&[(FIRST, 0)]]), answers: &[Named(MissingInChain, 5, 0)] },
    CheckRow { title: "a full block that is listed",
        file: (6144, &[FULL, &[(FIRST, 5)]]), answers: &[Named(ForeignInChain, 5, 0)] },
    CheckRow { title: "a block before the first one",
        file: (6144, &[&[(PREVIOUS, 1)]]), answers: &[Named(BadPrev, 5, 0)] },
    CheckRow { title: "a count that is too great", file: (6144, &[&[(STATED, 2)]]), answers: &[Named(BadCount, 5, 0)] },
    CheckRow { title: "the entry of another identifier", file: (6144, &[&[(ENTRY, 1001)]]),
        answers: &[Named(MissingEntry, 5, 1000), Named(StrayEntry, 5, 1001)] },
    CheckRow { title: "a second entry, to which nothing leads", file: (6144,
        &[&[(ENTRY + 72, 5), (ENTRY + 96, 1), (STATED, 2)]]),
        answers: &[Named(StrayEntry, 5, 5)] },
    CheckRow { title: "two entries of one identifier", file: (6144,
        &[&[(ENTRY + 72, 1000), (ENTRY + 96, 1), (STATED, 2)]]),
        answers: &[Named(DoubleEntry, 5, 1000)] },
];

#[test]
fn each_damage_is_named(rt: HostRuntime) {
    expect_checks(&rt, rt.alloc(), DAMAGED);
}

/// Whether a damage is one of the answers of a row.
fn is_permitted(row: &CheckRow, damage: Damage) -> bool {
    let answer = Err(CheckFault::Damage(damage));
    row.answers
        .iter()
        .any(|permitted| as_result(permitted) == answer)
}

/// What opening a row's file is refused with; None where it is not refused, or there is not enough memory.
fn refusal_of(alloc: Global, row: &CheckRow) -> Option<OpenFault> {
    let (len, changes) = row.file;
    let file = made(alloc, len, changes).ok()?;
    let mut store = store_of(alloc, file.as_slice(), &[]).ok()?;
    open_tree(alloc, &mut store, "q", Kind::User, None, u32::MAX).err()
}

/// Expects each file to be refused when it is opened, by a damage of its row.
fn expect_refusals(rt: &impl Abort, alloc: Global, rows: &[CheckRow]) {
    for row in rows {
        let got = refusal_of(alloc, row);
        let is_one = matches!(got, Some(OpenFault::Damage(damage)) if is_permitted(row, damage));
        assert!(rt; is_one, "{}: {got:?}", row.title);
    }
}

#[test]
fn each_damage_is_named_where_the_file_is_opened(rt: HostRuntime) {
    expect_refusals(&rt, rt.alloc(), DAMAGED);
}

/// Identifiers that are looked up: those of the rows, and the first and the last one.
const IDS: &[u32] = &[0, 5, 1000, 1001, u32::MAX];

/// The six-block file, opened with nothing wrong, and the store that it is read from behind that, in which it has a
/// row's changes; None where there is not enough memory.
fn opened_before(alloc: Global, row: &CheckRow) -> Option<(TreeFile, MemStore)> {
    let sound = made(alloc, 6144, &[]).ok()?;
    let mut store = store_of(alloc, sound.as_slice(), &[]).ok()?;
    let opened = open_tree(alloc, &mut store, "q", Kind::User, None, 6).ok()?;
    let (len, changes) = row.file;
    let file = made(alloc, len, changes).ok()?;
    Some((opened, store_of(alloc, file.as_slice(), &[]).ok()?))
}

/// Whether a look-up answers, or names a damage of a row.
fn is_told<T: Drop>(row: &CheckRow, answer: Option<Result<T, FileFault>>) -> bool {
    match answer {
        Some(Ok(_)) => true,
        Some(Err(FileFault::Damage(damage))) => is_permitted(row, damage),
        _ => false,
    }
}

/// The first identifier whose look-ups do neither.
fn first_wrong(row: &CheckRow, file: &mut TreeFile, store: &mut MemStore) -> Option<u32> {
    for id in IDS {
        let record = get(file, store, *id);
        let next = next_after(file, store, Some(*id));
        if !is_told(row, record) || !is_told(row, next) {
            return Some(*id);
        }
    }
    None
}

/// Expects look-ups in a file that was changed once it was opened to answer, or to name a damage of its row.
fn expect_look_ups(rt: &impl Abort, alloc: Global, rows: &[CheckRow]) {
    for row in rows {
        match opened_before(alloc, row) {
            Some((mut file, mut store)) => {
                assert_eq!(rt;
                    first_wrong(row, &mut file, &mut store),
                    None,
                    "{}",
                    row.title
                );
            }
            None => assert!(rt; false, "{}: it is not opened", row.title),
        }
    }
}

#[test]
fn a_damage_behind_the_opening_is_named_or_not_met(rt: HostRuntime) {
    expect_look_ups(&rt, rt.alloc(), DAMAGED);
}

/// Files with nothing wrong, each with a number that the reads of a check don't pass: two for each block of the tree,
/// the header or the data.
const READ: &[(&str, SixBlocks, u64)] = &[
    ("no block is free", (7168, &[&[(BLOCKS, 6), (FREE, 0)]]), 12),
    ("block 6 is free", (7168, &[&[(BLOCKS, 7), (FREE, 6)]]), 12),
];

/// Expects each file to be accepted with this few reads.
fn expect_reads(rt: &impl Abort, alloc: Global, rows: &[(&str, SixBlocks, u64)]) {
    for (title, (len, changes), most) in rows {
        let got = made(alloc, *len, changes).and_then(|file| checked(alloc, file.as_slice()));
        let is_few = matches!(got, Ok((Ok(_), reads)) if reads <= *most);
        assert!(rt; is_few, "{title}: {got:?}");
    }
}

#[test]
fn a_check_makes_at_most_two_reads_for_each_block_that_is_not_free(rt: HostRuntime) {
    expect_reads(&rt, rt.alloc(), READ);
}

/// The calls that a check of the six-block file makes.
const CALLS: &[u64] = &[1, 2, 3, 4, 5, 6, 7];

/// Expects a check of the six-block file to name the store where one of these calls fails.
fn expect_store_named(rt: &impl Abort, alloc: Global, calls: &[u64]) {
    for call in calls {
        let got = made(alloc, 6144, &[]).and_then(|file| checked_failing(
            alloc,
            file.as_slice(),
            &[*call],
        ));
        let is_named = matches!(got, Ok((Err(CheckFault::Store), _)));
        assert!(rt; is_named, "call {call}: {got:?}");
    }
}

#[test]
fn a_store_that_fails_is_named(rt: HostRuntime) {
    expect_store_named(&rt, rt.alloc(), CALLS);
}
