use input_text::read_number;
use set_edit::read_limit;
use std::process::Abort;

/// A word, with the number that it is.
type WordRow = (&'static str, Option<u64>);

/// Expects each word to be read as its number.
fn expect_numbers(rt: &impl Abort, rows: &[WordRow]) {
    for (word, number) in rows {
        assert_eq!(rt; read_number(word), *number, "{word:?}");
    }
}

/// Expects each word to be read as its limit, of blocks or of inodes.
fn expect_limits(rt: &impl Abort, of_blocks: bool, rows: &[WordRow]) {
    for (word, limit) in rows {
        assert_eq!(rt; read_limit(word, of_blocks), *limit, "{word:?}");
    }
}

const NUMBERS: &[WordRow] = &[
    ("0", Some(0)),
    ("1000", Some(1000)),
    ("00000000000000000007", Some(7)),
    ("000000000000000000007", None),
    ("18446744073709551615", Some(18_446_744_073_709_551_615)),
    ("018446744073709551615", None),
    ("18446744073709551616", None),
    ("99999999999999999999", None),
    ("", None),
    ("+1", None),
    ("-1", None),
    (" 1", None),
    ("1 ", None),
    ("1K", None),
    ("1_000", None),
    ("0x10", None),
    ("\u{663}", None),
];

#[test]
fn a_number_has_1_to_20_digits_and_64_bits(rt: HostRuntime) {
    expect_numbers(&rt, NUMBERS);
}

const OF_BLOCKS: &[WordRow] = &[
    ("7", Some(7)),
    ("7K", Some(7)),
    ("1M", Some(1024)),
    ("3G", Some(3_145_728)),
    ("8T", Some(8_589_934_592)),
    ("16777216T", Some(18_014_398_509_481_984)),
    ("17179869183T", Some(18_446_744_072_635_809_792)),
    ("17179869184T", None),
    ("17592186044415G", Some(18_446_744_073_708_503_040)),
    ("17592186044416G", None),
    ("18014398509481983M", Some(18_446_744_073_709_550_592)),
    ("18014398509481984M", None),
    ("18446744073709551615K", Some(18_446_744_073_709_551_615)),
    ("18446744073709551616K", None),
    ("00000000000000000007M", Some(7168)),
    ("000000000000000000007M", None),
    ("1k", None),
    ("1m", None),
    ("1g", None),
    ("1t", None),
    ("", None),
    ("K", None),
    ("1KK", None),
    ("1MK", None),
    ("1K ", None),
    ("1KB", None),
    ("K1", None),
    ("10x", None),
];

#[test]
fn a_limit_of_blocks_is_told_in_kib(rt: HostRuntime) {
    expect_limits(&rt, true, OF_BLOCKS);
}

const OF_INODES: &[WordRow] = &[
    ("7", Some(7)),
    ("7k", Some(7000)),
    ("1m", Some(1_000_000)),
    ("3g", Some(3_000_000_000)),
    ("2t", Some(2_000_000_000_000)),
    ("18446744073709551615", Some(18_446_744_073_709_551_615)),
    ("18446744073709551616", None),
    ("18446744073709551k", Some(18_446_744_073_709_551_000)),
    ("18446744073709552k", None),
    ("18446744073709m", Some(18_446_744_073_709_000_000)),
    ("18446744073710m", None),
    ("18446744073g", Some(18_446_744_073_000_000_000)),
    ("18446744074g", None),
    ("18446744t", Some(18_446_744_000_000_000_000)),
    ("18446745t", None),
    ("1K", None),
    ("1M", None),
    ("1G", None),
    ("1T", None),
    ("k", None),
    ("", None),
    ("1kk", None),
];

#[test]
fn a_limit_of_inodes_is_told_in_inodes(rt: HostRuntime) {
    expect_limits(&rt, false, OF_INODES);
}
