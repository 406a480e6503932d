use arrayvec::ArrayVec;
use report_text::period_text;
use std::process::Abort;

/// Periods in seconds, each with its text.
const PERIODS: &[(u64, &str)] = &[
    (0, "00:00"),
    (29, "00:00"),
    (30, "00:01"),
    (3600, "01:00"),
    (86400, "24:00"),
    (172_769, "47:59"),
    (172_770, "2days"),
    (172_800, "2days"),
    (604_800, "7days"),
    (u64::MAX, "213503982334601days"),
];

/// Expects each period to have its text.
fn expect_periods(rt: &impl Abort, rows: &[(u64, &str)]) {
    let mut text = ArrayVec::new();
    for (seconds, wanted) in rows {
        period_text(*seconds, &mut text);
        assert_eq!(rt; text.as_slice(), wanted.as_bytes(), "{seconds}");
    }
}

#[test]
fn a_period_is_told_in_minutes_or_in_days(rt: HostRuntime) {
    expect_periods(&rt, PERIODS);
}
