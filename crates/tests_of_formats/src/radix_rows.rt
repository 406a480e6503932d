use quota_radix::{digits, level_ref};
use std::process::Abort;

/// An identifier and its digits.
type DigitsRow = (u32, [u8; 4]);

const DIGITS: &[DigitsRow] = &[
    (0, [0, 0, 0, 0]),
    (1000, [0, 0, 3, 232]),
    (0x0102_0304, [1, 2, 3, 4]),
    (u32::MAX, [255, 255, 255, 255]),
];

fn expect_digits(rt: &impl Abort, rows: &[DigitsRow]) {
    for row in rows {
        let found = digits(row.0);
        assert!(rt; found == row.1, "{}: {found:?}", row.0);
    }
}

#[test]
fn digits_are_the_bytes_from_the_highest_on(rt: HostRuntime) {
    expect_digits(&rt, DIGITS);
}

/// A digit, and the reference at its place.
type ReferenceRow = (u8, u32);

const REFERENCES: &[ReferenceRow] = &[(0, 0), (3, 4), (4, 0), (255, 0x0403_0201)];

/// A block of the tree in which reference 3 is 4, and the last one has four bytes that differ.
fn block() -> [u8; 1024] {
    let mut block = [0; 1024];
    block[12] = 4;
    block[1020..].copy_from_slice(&[1, 2, 3, 4]);
    block
}

fn expect_references(rt: &impl Abort, rows: &[ReferenceRow]) {
    for row in rows {
        let found = level_ref(&block(), row.0);
        assert!(rt; found == row.1, "{}: {found}", row.0);
    }
}

#[test]
fn a_reference_is_the_number_at_its_digit(rt: HostRuntime) {
    expect_references(&rt, REFERENCES);
}
