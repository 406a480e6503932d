use convert::{ConvertFault, convert};
use opened_file::{FileFault, OpenFault, ReplaceFault};
use quota_types::{Format, Kind};
use std::alloc::Global;
use std::process::Abort;
use tests_row_files::store_of;

/// A flat file in which identifier 0 has one inode.
const USED: [u8; 40] = [
    0, 0, 0, 0, 0, 0, 0, 0, 0, 0, 0, 0, 0, 0, 0, 0, 0, 0, 0, 0, 1, 0, 0, 0, 0, 0, 0, 0, 0, 0, 0, 0,
    0, 0, 0, 0, 0, 0, 0, 0,
];

/// A conversion of that file into a format, with at most this many blocks, over a store whose calls fail that `failing`
/// names.
struct Row {
    title: &'static str,
    new: Format,
    limit: u32,
    failing: &'static [u64],
    answer: Result<(), ConvertFault>,
}

/// Conversions in order of their answers. A whole one asks for the size of the new file and that of the old one, reads
/// its record 0 and then its records, and makes the new one.
const ROWS: &[Row] = &[
    Row {
        title: "as many blocks as there may be",
        new: Format::V2R1,
        limit: 6,
        failing: &[],
        answer: Ok(()),
    },
    Row {
        title: "one block too many",
        new: Format::V2R0,
        limit: 5,
        failing: &[],
        answer: Err(ConvertFault::Replace(ReplaceFault::Full {
            blocks: 6,
            limit: 5,
        })),
    },
    Row {
        title: "a flat file has no blocks",
        new: Format::V1,
        limit: 0,
        failing: &[],
        answer: Ok(()),
    },
    Row {
        title: "one of vfsold32 has none either",
        new: Format::V1R32,
        limit: 0,
        failing: &[],
        answer: Ok(()),
    },
    Row {
        title: "the new name is not looked at",
        new: Format::V2R1,
        limit: 6,
        failing: &[1],
        answer: Err(ConvertFault::Open(OpenFault::Store)),
    },
    Row {
        title: "the file is not read",
        new: Format::V2R1,
        limit: 6,
        failing: &[3],
        answer: Err(ConvertFault::Open(OpenFault::Store)),
    },
    Row {
        title: "its records are not read",
        new: Format::V2R1,
        limit: 6,
        failing: &[4],
        answer: Err(ConvertFault::File(FileFault::Store)),
    },
    Row {
        title: "the new file is not begun",
        new: Format::V2R1,
        limit: 6,
        failing: &[5],
        answer: Err(ConvertFault::Replace(ReplaceFault::Store)),
    },
];

/// Whether a conversion answers what is told, makes a new file only where it was done, and leaves the old one.
fn converts(alloc: Global, row: &Row) -> bool {
    let Ok(mut store) = store_of(alloc, &USED, row.failing) else {
        return false;
    };
    let user = Kind::User;
    let old = Format::V1;
    let answer = convert(alloc, &mut store, "q", "r", old, row.new, user, row.limit);
    answer == row.answer
        && store.file("r").is_some() == answer.is_ok()
        && (answer.is_ok() || store.writes() == 0)
        && store.file("q") == Some(&USED[..])
}

fn expect_rows(rt: &impl Abort, alloc: Global, rows: &[Row]) {
    for row in rows {
        assert!(rt; converts(alloc, row), "{}", row.title);
    }
}

#[test]
fn conversions_answer_why_they_are_refused(rt: HostRuntime) {
    expect_rows(&rt, rt.alloc(), ROWS);
}
