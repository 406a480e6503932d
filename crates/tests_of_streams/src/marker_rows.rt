use crate::parts::bytes_of;
use rpc_marks::{Marker, Step};
use std::alloc::{AllocError, Global};
use std::process::Abort;

/// The words of a stream, and what is told of its records: each by its bytes or, where they are more than eight, by
/// their number, with a comma behind it; and `long` where one is too long.
const ROWS: &[(&str, &str)] = &[
    ("80000003 'abc", "abc,"),
    ("80000000", ","),
    ("00000002 'ab 80000001 'c", "abc,"),
    (
        "00000000 00000000 80000001 'a 80000000 80000002 'bc",
        "a,,bc,",
    ),
    ("80000001 'a 80000002 'bc", "a,bc,"),
    ("00000003 'abc 80000000 80000001 'd", "abc,d,"),
    ("80000003 'abc 80000003 'ab", "abc,"),
    ("80000003 'abc 'xx", "abc,"),
    ("00000003 'abc", ""),
    ("'xxx", ""),
    ("80001000 *4096", "4096,"),
    ("80001000 *4096 80000001 'a", "4096,a,"),
    ("+4095 80000001 'x 80000001 'a", "4096,a,"),
    ("+4096 80000000 80000001 'a", "4096,a,"),
    ("80001001", "long"),
    ("80001001 *4097 80000001 'a", "long"),
    ("00001001 *4097 80000001 'a", "long"),
    ("+4096 80000001 'x 80000001 'a", "long"),
    ("80000002 'ab 00001000 *4096 80000001 'a", "ab,long"),
    ("ffffffff", "long"),
    ("7fffffff", "long"),
    ("80000001 'a 7fffffff *9", "a,long"),
];

/// The most bytes of the pieces by which each row is fed.
const SIZES: &[usize] = &[1, 2, 3, 4, 5, 7, 11, 4095, 4096, 4100, 40_000];

/// Tells a record.
fn tell(told: &mut Vec<u8>, alloc: Global, record: &[u8]) -> Result<(), AllocError> {
    if record.len() > 8 {
        let len = record.len();
        told.extend_from_slice(format!(in alloc; "{len}")?.as_bytes())?;
    } else {
        told.extend_from_slice(record)?;
    }
    told.push(b',')?;
    Ok(())
}

/// Feeds a marker a piece, and tells what it gives. Answers whether it may be fed more.
fn feed(
    marker: &mut Marker,
    told: &mut Vec<u8>,
    alloc: Global,
    piece: &[u8],
) -> Result<bool, AllocError> {
    let mut rest = piece;
    for _ in 0..piece.len() {
        let (count, step) = marker.feed(rest);
        rest = rest.get(count..).unwrap_or(&[]);
        match step {
            Step::More => return Ok(true),
            Step::Whole => tell(told, alloc, marker.body())?,
            Step::TooLong => {
                told.extend_from_slice(b"long")?;
                return Ok(false);
            }
        }
    }
    Ok(true)
}

/// What is told of the records of a stream that is fed in pieces of at most so many bytes.
fn told_of(alloc: Global, stream: &[u8], size: usize) -> Result<Vec<u8>, AllocError> {
    let mut marker = Marker::new();
    let mut told = Vec::new(alloc);
    let mut rest = stream;
    for _ in 0..stream.len() {
        let (piece, behind) = rest.split_at(size.min(rest.len()));
        if !feed(&mut marker, &mut told, alloc, piece)? {
            return Ok(told);
        }
        rest = behind;
    }
    Ok(told)
}

/// Whether a row is told, in pieces of at most so many bytes.
fn is_told(alloc: Global, words: &str, want: &str, size: usize) -> bool {
    match bytes_of(alloc, words) {
        Ok(stream) => match told_of(alloc, &stream, size) {
            Ok(told) => told.as_slice() == want.as_bytes(),
            Err(_) => false,
        },
        Err(_) => false,
    }
}

/// The first row that is not told, by its words and the size of its pieces.
fn wrong_row(alloc: Global) -> Option<(&'static str, usize)> {
    for (words, want) in ROWS {
        for size in SIZES {
            if !is_told(alloc, words, want, *size) {
                return Some((*words, *size));
            }
        }
    }
    None
}

fn expect_each_row(rt: &impl Abort, alloc: Global) {
    assert_eq!(rt; wrong_row(alloc), None);
}

#[test]
fn a_stream_has_its_records_whatever_its_pieces(rt: HostRuntime) {
    expect_each_row(&rt, rt.alloc());
}
