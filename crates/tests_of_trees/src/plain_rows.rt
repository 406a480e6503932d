use crate::plain::Plain;
use crate::tree_files::*;
use file_blocks::CheckFault;
use quota_types::Damage;
use std::alloc::{AllocError, Global};
use std::process::Abort;
use tree_check::Checked;

/// What is found wrong with a file by the plain program, what it counts there, and what a check answers.
#[derive(Debug, Drop)]
struct Compared {
    defects: Vec<Damage>,
    used: u64,
    free: usize,
    answer: Result<Checked, CheckFault>,
}

impl Compared {
    /// Whether both agree: the check succeeds where there is no defect, with the same numbers, and otherwise names one
    /// of the defects.
    fn agrees(&self) -> bool {
        match self.answer {
            Ok(found) => {
                self.defects.is_empty()
                    && found.used == self.used
                    && found.free as usize == self.free
            }
            Err(CheckFault::Damage(damage)) => self.defects.contains(&damage),
            Err(_) => false,
        }
    }
}

/// Runs both on a file of users; None where it has no header.
fn compare(alloc: Global, file: &[u8]) -> Result<Option<Compared>, AllocError> {
    let Ok(header) = header_of(file) else {
        return Ok(None);
    };
    let plain = Plain {
        file,
        header,
        alloc,
    };
    let defects = plain.defects()?;
    let (answer, _) = checked(alloc, file)?;
    Ok(Some(Compared {
        defects,
        used: plain.used()? as u64,
        free: plain.free()?,
        answer,
    }))
}

/// Files of seven blocks, or with a seventh one behind them, and one number at a time that is written over their own.
struct PlainRow {
    title: &'static str,
    changes: &'static [&'static [Change]],
    places: &'static [usize],
    numbers: &'static [u32],
}

/// Expects the plain program and a check to agree on all files of these rows.
fn expect_agreement(rt: &impl Abort, alloc: Global, rows: &[PlainRow]) {
    for row in rows {
        expect_agreement_on(rt, alloc, row);
    }
}

fn expect_agreement_on(rt: &impl Abort, alloc: Global, row: &PlainRow) {
    for place in row.places {
        expect_agreement_at(rt, alloc, row, *place);
    }
}

fn expect_agreement_at(rt: &impl Abort, alloc: Global, row: &PlainRow, place: usize) {
    for number in row.numbers {
        let got = compare_with(alloc, row.changes, (place, *number));
        let agrees = matches!(&got, Ok(Some(both)) if both.agrees());
        assert!(rt; agrees, "{}, {number} at {place}: {got:?}", row.title);
    }
}

/// Runs both on one file of a row.
fn compare_with(
    alloc: Global,
    changes: &[&[Change]],
    change: Change,
) -> Result<Option<Compared>, AllocError> {
    let [first, second] = [changes.first(), changes.get(1)];
    let file = made(
        alloc,
        7168,
        &[
            first.copied().unwrap_or(&[]),
            second.copied().unwrap_or(&[]),
            &[change],
        ],
    )?;
    compare(alloc, file.as_slice())
}

/// Places of the six-block file where numbers stand that a check reads.
const PLACES: &[usize] = &[
    FREE, FIRST, 1024, 1028, 2044, 2048, 2052, 2056, 3072, 3080, 3084, 4092, 4096, 4100, 5020,
    5024, 5028, NEXT, PREVIOUS, STATED, ENTRY, 5208, 6144, 6148,
];

/// Numbers that are written there.
const NUMBERS: &[u32] = &[0, 1, 2, 4, 5, 6, 7, 1000, 1001];

const SIX_OR_SEVEN: &[PlainRow] = &[
    PlainRow {
        title: "six blocks",
        changes: &[],
        places: PLACES,
        numbers: NUMBERS,
    },
    PlainRow {
        title: "a seventh block without a role",
        changes: &[&[(BLOCKS, 7)]],
        places: PLACES,
        numbers: NUMBERS,
    },
    PlainRow {
        title: "a seventh block that is free",
        changes: &[&[(BLOCKS, 7), (FREE, 6)]],
        places: PLACES,
        numbers: NUMBERS,
    },
    PlainRow {
        title: "a second data block",
        changes: &[&[(BLOCKS, 7), (5028, 6)]],
        places: PLACES,
        numbers: NUMBERS,
    },
    PlainRow {
        title: "a seventh block in the entry list",
        changes: &[&[(BLOCKS, 7), (NEXT, 6)]],
        places: PLACES,
        numbers: NUMBERS,
    },
    PlainRow {
        title: "six blocks of vfsv0 with one entry",
        changes: &[&[(VERSION, 0), (ENTRY + 48, 0)]],
        places: PLACES,
        numbers: NUMBERS,
    },
];

#[test]
fn a_plain_program_finds_what_check_names(rt: HostRuntime) {
    expect_agreement(&rt, rt.alloc(), SIX_OR_SEVEN);
}

/// Places of the seven-block file of vfsv0 where numbers stand that a check reads: of the header, of the tree, and of
/// the first, the second and the last entry of both data blocks.
const PLACES_OF_VFSV0: &[usize] = &[
    FREE, FIRST, 1024, 2048, 3084, 4096, 4100, 4176, 4180, 5024, 5104, 5108, NEXT, PREVIOUS,
    STATED, ENTRY, 5184, 6096, 6144, 6152, 6160, 7120,
];

/// Numbers that are written there.
const NUMBERS_OF_VFSV0: &[u32] = &[0, 5, 6, 20, 788, 1001];

const SEVEN_OF_VFSV0: &[PlainRow] = &[
    PlainRow {
        title: "two full blocks of vfsv0",
        changes: &[TWO_FULL_OF_VFSV0],
        places: PLACES_OF_VFSV0,
        numbers: NUMBERS_OF_VFSV0,
    },
    PlainRow {
        title: "two blocks of vfsv0, of which one has room",
        changes: &[
            TWO_FULL_OF_VFSV0,
            &[(FIRST, 6), (4176, 0), (6152, 20), (7120, 0)],
        ],
        places: PLACES_OF_VFSV0,
        numbers: NUMBERS_OF_VFSV0,
    },
];

#[test]
fn a_plain_program_finds_what_check_names_in_vfsv0(rt: HostRuntime) {
    expect_agreement(&rt, rt.alloc(), SEVEN_OF_VFSV0);
}
