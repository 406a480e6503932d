use crate::build_rows::{WEEK, built, spaced};
use big_endian_files::read_big;
use opened_file::OpenFault;
use quota_types::{Damage, DamageKind, Format, Kind};
use std::alloc::{AllocError, Global};
use std::process::Abort;
use tests_row_files::store_of;

/// A file as a big-endian machine writes it: that of so many identifiers, each this far above the one before it.
#[derive(Drop)]
struct BigRow {
    title: &'static str,
    format: Format,
    count: u32,
    step: u32,
    /// How many of its data blocks are written as on that machine, where not all.
    data: usize,
    /// Bytes in which one bit is another one.
    other: &'static [usize],
    /// How many bytes the file has at most.
    len: usize,
    /// Why it is refused, where it is.
    refused: Option<OpenFault>,
}

/// A file that is read as it was.
const READ: BigRow = BigRow {
    title: "",
    format: Format::V2R0,
    count: 0,
    step: 1,
    data: usize::MAX,
    other: &[],
    len: usize::MAX,
    refused: None,
};

const BIG: &[BigRow] = &[
    BigRow {
        title: "no record",
        ..READ
    },
    BigRow {
        title: "a full data block",
        count: 21,
        ..READ
    },
    BigRow {
        title: "many leaves",
        count: 1000,
        step: 70_001,
        ..READ
    },
    BigRow {
        title: "the greatest identifier",
        count: 2,
        step: u32::MAX,
        ..READ
    },
    BigRow {
        title: "vfsv1",
        format: Format::V2R1,
        count: 3,
        refused: Some(OpenFault::FormatMismatch {
            found: Format::V2R1,
        }),
        ..READ
    },
    BigRow {
        title: "a stated number too many",
        count: 3,
        other: &[2 * 1024 + 9],
        refused: Some(OpenFault::Damage(Damage {
            kind: DamageKind::BadCount,
            block: 2,
            id: 0,
        })),
        ..READ
    },
    BigRow {
        title: "an entry of another identifier",
        count: 1,
        other: &[2 * 1024 + 16],
        refused: Some(OpenFault::Damage(Damage {
            kind: DamageKind::MissingEntry,
            block: 2,
            id: 0,
        })),
        ..READ
    },
    BigRow {
        title: "a data block that is little-endian",
        count: 2,
        data: 0,
        refused: Some(OpenFault::Damage(Damage {
            kind: DamageKind::BadCount,
            block: 2,
            id: 0,
        })),
        ..READ
    },
    BigRow {
        title: "cut",
        count: 1,
        len: 6 * 1024 - 1,
        refused: Some(OpenFault::Damage(Damage {
            kind: DamageKind::Short,
            block: 5,
            id: 0,
        })),
        ..READ
    },
];

/// Turns a number of so many bytes round.
fn turn(file: &mut [u8], at: usize, width: usize) {
    if let Some(number) = file.get_mut(at..at.saturating_add(width)) {
        number.reverse();
    }
}

/// Turns numbers that follow one another round.
fn turn_all(file: &mut [u8], at: usize, width: usize, count: usize) {
    for place in 0..count {
        turn(file, at.saturating_add(width.saturating_mul(place)), width);
    }
}

/// Turns each number of a data block round, by the table of its format.
fn turn_data(file: &mut [u8], at: usize, format: Format) {
    turn_all(file, at, 4, 2);
    turn(file, at.saturating_add(8), 2);
    let (entries, size, words, doubles) = if format == Format::V2R0 {
        (21, 48, 6, 3)
    } else {
        (14, 72, 2, 8)
    };
    for place in 0..entries {
        let entry = at.saturating_add(16 + size * place);
        turn_all(file, entry, 4, words);
        turn_all(file, entry.saturating_add(4 * words), 8, doubles);
    }
}

/// Turns each number of a file round, of which so many blocks behind the root have data.
fn turn_file(file: &mut [u8], format: Format, data: usize) {
    for block in 0..file.len() / 1024 {
        let at = 1024usize.saturating_mul(block);
        if block < 2 || block - 2 >= data {
            turn_all(file, at, 4, 256);
        } else {
            turn_data(file, at, format);
        }
    }
}

/// How many data blocks a file of so many entries has.
fn data_blocks(format: Format, entries: usize) -> usize {
    if format == Format::V2R0 {
        entries.div_ceil(21)
    } else {
        entries.div_ceil(14)
    }
}

/// Whether a file is read or refused as its row says.
fn is_so(alloc: Global, row: &BigRow) -> Result<bool, AllocError> {
    let list = spaced(alloc, row.count, row.step)?;
    let Some(Ok(mut file)) = built(alloc, row.format, list.as_slice(), u32::MAX)? else {
        return Ok(false);
    };
    let data = data_blocks(row.format, list.len());
    turn_file(&mut file, row.format, data.min(row.data));
    for at in row.other {
        if let Some(byte) = file.get_mut(*at) {
            *byte ^= 1;
        }
    }
    file.truncate(row.len);
    let mut store = store_of(alloc, file.as_slice(), &[])?;
    Ok(
        match read_big(alloc, &mut store, "q", Kind::User, 1 << 22) {
            Ok((grace, entries)) => {
                row.refused.is_none() && grace == WEEK && entries.as_slice() == list.as_slice()
            }
            Err(fault) => row.refused == Some(fault),
        },
    )
}

fn expect_read(rt: &impl Abort, alloc: Global, rows: &[BigRow]) {
    for row in rows {
        assert!(rt; is_so(alloc, row) == Ok(true), "{}", row.title);
    }
}

#[test]
fn a_file_of_a_big_endian_machine_is_read_as_it_was(rt: HostRuntime) {
    expect_read(&rt, rt.alloc(), BIG);
}
