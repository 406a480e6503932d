use file_blocks::{le16, le32, le64, set_le16, set_le32, set_le64};
use std::process::Abort;

/// Bytes that stand from a place of a block on.
type Part = (usize, &'static [u8]);

/// A block of one byte in which these parts stand, or none where they don't fit.
fn block_of(fill: u8, parts: &[Part]) -> Option<[u8; 1024]> {
    let mut block = [fill; 1024];
    for part in parts {
        if part.0 > 1024 || part.1.len() > 1024 - part.0 {
            return None;
        }
        block[part.0..part.0 + part.1.len()].copy_from_slice(part.1);
    }
    Some(block)
}

/// Parts of a block of zeros, and the number of this many bytes at a place.
type NumberRow = (&'static [Part], usize, usize, u64);

const BLOCK: &[Part] = &[(3, &[1, 2, 3, 4]), (1022, &[5, 255])];

const LAST: &[Part] = &[(1016, &[255, 255, 255, 255, 255, 255, 0, 0])];

const NUMBERS: &[NumberRow] = &[
    (BLOCK, 2, 0, 0),
    (BLOCK, 2, 2, 256),
    (BLOCK, 2, 3, 513),
    (BLOCK, 2, 6, 4),
    (BLOCK, 2, 1022, 65_285),
    (BLOCK, 4, 0, 0x0100_0000),
    (BLOCK, 4, 3, 0x0403_0201),
    (BLOCK, 4, 6, 4),
    (BLOCK, 4, 1020, 0xff05_0000),
    (BLOCK, 8, 0, 0x0004_0302_0100_0000),
    (BLOCK, 8, 3, 0x0403_0201),
    (BLOCK, 8, 1016, 0xff05_0000_0000_0000),
    (LAST, 8, 1016, 0x0000_ffff_ffff_ffff),
];

/// The number of this many bytes at a place, where there is one.
fn number(block: &[u8; 1024], width: usize, at: usize) -> Option<u64> {
    match width {
        2 if at <= 1022 => Some(u64::from(le16(block, at))),
        4 if at <= 1020 => Some(u64::from(le32(block, at))),
        8 if at <= 1016 => Some(le64(block, at)),
        _ => None,
    }
}

fn expect_numbers(rt: &impl Abort, rows: &[NumberRow]) {
    for row in rows {
        let found = block_of(0, row.0).and_then(|block| number(&block, row.1, row.2));
        assert!(rt;
            found == Some(row.3),
            "{} bytes at {}: {found:?}",
            row.1,
            row.2
        );
    }
}

#[test]
fn numbers_of_a_block_are_read_the_lowest_byte_first(rt: HostRuntime) {
    expect_numbers(&rt, NUMBERS);
}

/// Numbers of given widths at their places, which are written into a block of 9 in this order, and the parts that are
/// there then.
type SetRow = (&'static [(usize, usize, u64)], &'static [Part]);

#[rattlefmt::skip]
const SET: &[SetRow] = &[
    (&[(2, 0, 0x0201), (4, 3, 0x0403_0201), (8, 1016, 0x0807_0605_0403_0201)],
        &[(0, &[1, 2]), (3, &[1, 2, 3, 4]), (1016, &[1, 2, 3, 4, 5, 6, 7, 8])]),
    (&[(8, 1016, 0x0807_0605_0403_0201), (8, 1016, u64::MAX)], &[(1016, &[255; 8])]),
    (&[(8, 1016, u64::MAX), (2, 1022, 0)], &[(1016, &[255, 255, 255, 255, 255, 255, 0, 0])]),
];

/// Writes a number of two bytes at a place, and answers whether there is room for it.
fn set_two(block: &mut [u8; 1024], at: usize, value: u64) -> bool {
    if at > 1022 || value > 0xffff {
        return false;
    }
    set_le16(block, at, value as u16);
    true
}

/// The same of a number of four bytes.
fn set_four(block: &mut [u8; 1024], at: usize, value: u64) -> bool {
    if at > 1020 || value > 0xffff_ffff {
        return false;
    }
    set_le32(block, at, value as u32);
    true
}

/// The same of a number of eight bytes.
fn set_eight(block: &mut [u8; 1024], at: usize, value: u64) -> bool {
    if at > 1016 {
        return false;
    }
    set_le64(block, at, value);
    true
}

/// Writes a number of this many bytes at a place, and answers whether there is room for it.
fn set(block: &mut [u8; 1024], width: usize, at: usize, value: u64) -> bool {
    match width {
        2 => set_two(block, at, value),
        4 => set_four(block, at, value),
        8 => set_eight(block, at, value),
        _ => false,
    }
}

/// Whether a block of 9 is the wanted one after these numbers were written.
fn is_set(numbers: &[(usize, usize, u64)], want: &[Part]) -> bool {
    let mut block = [9; 1024];
    for number in numbers {
        if !set(&mut block, number.0, number.1, number.2) {
            return false;
        }
    }
    block_of(9, want) == Some(block)
}

fn expect_set(rt: &impl Abort, rows: &[SetRow]) {
    for row in rows {
        assert!(rt; is_set(row.0, row.1), "{:?}", row.0);
    }
}

#[test]
fn a_number_is_written_at_its_place_alone(rt: HostRuntime) {
    expect_set(&rt, SET);
}
