use input_text::LineFault;
use memory_objects::{MemSink, MemSource};
use quota_types::{Kind, Rec};
use set_edit::FormFault::{self, BadForm};
use set_edit::{Limits, print_form, read_form};
use std::alloc::{AllocError, Global};
use std::process::Abort;

const REC: Rec = Rec {
    ihard: 20,
    isoft: 10,
    inodes: 1,
    bhard: 200,
    bsoft: 100,
    space: 4096,
    btime: 0,
    itime: 0,
};

const LIMITS: Limits = Limits {
    bsoft: 100,
    bhard: 200,
    isoft: 10,
    ihard: 20,
};

/// The first two lines of the form of user alice, of group 7, and of the project build.
const HEAD: &str =
    "Disk quotas for user alice (uid 1000):\n  Filesystem blocks soft hard inodes soft hard\n";

const HEAD_OF_GROUP: &str =
    "Disk quotas for group #7 (gid 7):\n  Filesystem blocks soft hard inodes soft hard\n";

const HEAD_OF_PROJECT: &str =
    "Disk quotas for project build (pid 7):\n  Filesystem blocks soft hard inodes soft hard\n";

/// A form that is printed: for whom and of which record, and its text in two parts.
struct PrintRow {
    kind: Kind,
    name: &'static str,
    id: u32,
    rec: Rec,
    text: [&'static str; 2],
}

/// Expects each form to be printed as its row says.
fn expect_printed(rt: &impl Abort, alloc: Global, rows: &[PrintRow]) {
    for row in rows {
        let mut sink = MemSink::new(Vec::new(alloc), Vec::new(alloc));
        let done = print_form(
            &mut sink,
            row.kind,
            row.name.as_bytes(),
            row.id,
            "q",
            &row.rec,
        );
        let text = sink.bytes();
        assert!(rt;
            done.is_ok() && is_joined(text, row.text),
            "{:?}: {text:?}",
            row.text
        );
    }
}

/// Whether a text is these two in a row.
fn is_joined(text: &[u8], [front, back]: [&str; 2]) -> bool {
    text.len() == front.len().saturating_add(back.len())
        && text.starts_with(front.as_bytes())
        && text.ends_with(back.as_bytes())
}

const PRINTED: &[PrintRow] = &[
    PrintRow {
        kind: Kind::User,
        name: "alice",
        id: 1000,
        rec: REC,
        text: [HEAD, "  q 4 100 200 1 10 20\n"],
    },
    PrintRow {
        kind: Kind::Group,
        name: "#7",
        id: 7,
        rec: Rec { space: 4097, ..REC },
        text: [HEAD_OF_GROUP, "  q 5 100 200 1 10 20\n"],
    },
    PrintRow {
        kind: Kind::Group,
        name: "#7",
        id: 7,
        rec: Rec {
            ihard: u64::MAX,
            isoft: u64::MAX,
            inodes: u64::MAX,
            bhard: u64::MAX,
            bsoft: u64::MAX,
            space: u64::MAX,
            btime: 0,
            itime: 0,
        },
        text: [
            HEAD_OF_GROUP,
            "  q 18014398509481984 18446744073709551615 18446744073709551615 18446744073709551615 18446744073709551615 18446744073709551615\n",
        ],
    },
    PrintRow {
        kind: Kind::Project,
        name: "build",
        id: 7,
        rec: REC,
        text: [HEAD_OF_PROJECT, "  q 4 100 200 1 10 20\n"],
    },
];

#[test]
fn a_form_has_a_title_a_heading_and_the_limits(rt: HostRuntime) {
    expect_printed(&rt, rt.alloc(), PRINTED);
}

/// What is read of a form of user alice whose text is in two parts, with this many spaces behind it, where the calls of
/// the source with these numbers fail.
fn read_of(
    alloc: Global,
    failing: &[u64],
    front: &str,
    back: &[u8],
    spaces: usize,
) -> Result<Result<Limits, FormFault>, AllocError> {
    let mut text = Vec::from_slice(alloc, front.as_bytes())?;
    text.extend_from_slice(back)?;
    text.extend_from_slice(vec![in alloc; b' '; spaces]?.as_slice())?;
    let mut source = MemSource::new(text, Vec::from_slice(alloc, failing)?);
    Ok(read_form(&mut source, Kind::User, b"alice", 1000, "q"))
}

/// A form, and what is read of it.
type WholeRow = (&'static str, Result<Limits, FormFault>);

/// Expects each form to be read as its row says, where these calls fail.
fn expect_read(rt: &impl Abort, alloc: Global, failing: &[u64], rows: &[WholeRow]) {
    for (text, answer) in rows {
        let got = read_of(alloc, failing, text, b"", 0);
        assert!(rt; got == Ok(*answer), "{text:?}: {got:?}");
    }
}

/// What is behind the first two lines of a form, and what is read of it.
type ThirdRow = (&'static [u8], Result<Limits, FormFault>);

/// Expects each form to be read as its row says.
fn expect_third(rt: &impl Abort, alloc: Global, rows: &[ThirdRow]) {
    for (line, answer) in rows {
        let got = read_of(alloc, &[], HEAD, line, 0);
        assert!(rt; got == Ok(*answer), "{line:?}: {got:?}");
    }
}

/// How many spaces are behind a form, and what is read of it.
type LongRow = (usize, Result<Limits, FormFault>);

/// Expects each form to be read as its row says.
fn expect_long(rt: &impl Abort, alloc: Global, rows: &[LongRow]) {
    for (spaces, answer) in rows {
        let got = read_of(alloc, &[], USER, b"", *spaces);
        assert!(rt; got == Ok(*answer), "{spaces} spaces: {got:?}");
    }
}

/// The form as it is printed.
const USER: &str =
    "Disk quotas for user alice (uid 1000):\n  Filesystem blocks soft hard inodes soft hard\n  q 4 100 200 1 10 20\n";

const WHOLE: &[WholeRow] = &[
    ("", Err(BadForm(1))),
    ("\n", Err(BadForm(1))),
    ("Disk quotas for user alice (uid 1000):", Err(BadForm(2))),
    (
        "Disk quotas for user alice (uid 1000):\n\n",
        Err(BadForm(2)),
    ),
    (
        "Disk quotas for user alice (uid 1000): x\n",
        Err(BadForm(1)),
    ),
    ("Disk quotas for user alice (uid\n", Err(BadForm(1))),
    ("Disk quotas for user bob (uid 1000):\n", Err(BadForm(1))),
    ("Disk quotas for user alice (uid 100):\n", Err(BadForm(1))),
    ("Disk quotas for group alice (gid 1000):\n", Err(BadForm(1))),
    (
        "Disk quotas for project alice (pid 1000):\n",
        Err(BadForm(1)),
    ),
    ("Disk quotas for user alice (pid 1000):\n", Err(BadForm(1))),
    (
        "Disk quotas for user alice (uid 1000):\r\n",
        Err(BadForm(1)),
    ),
    (HEAD, Err(BadForm(3))),
    (USER, Ok(LIMITS)),
    (
        "\tDisk  quotas for user\talice (uid 1000):  \nFilesystem blocks soft hard inodes soft hard\nq 4 100 200 1 10 20",
        Ok(LIMITS),
    ),
    (
        "Disk quotas for user alice (uid 1000):\nFilesystem blocks soft hard inodes hard soft\nq 4 100 200 1 10 20",
        Err(BadForm(2)),
    ),
];

#[test]
fn the_first_line_that_is_wrong_is_named(rt: HostRuntime) {
    expect_read(&rt, rt.alloc(), &[], WHOLE);
}

const SUFFIXED: Limits = Limits {
    bsoft: 1024,
    bhard: 2_097_152,
    isoft: 7000,
    ihard: 0,
};

const THIRD: &[ThirdRow] = &[
    (b"q 0 100 200 18446744073709551615 10 20", Ok(LIMITS)),
    (b"q 4 1M 2G 1 7k 0\n", Ok(SUFFIXED)),
    (b"q 4 100 200 1 10 20\n \t\n\n", Ok(LIMITS)),
    (b"q 4 100 200 1 10 20\n\n x\n", Err(BadForm(5))),
    (b"q 4 100 200 1 10 20\r\n", Err(BadForm(3))),
    (b"q 4 100 200 1 10 20\n\r\n", Err(BadForm(4))),
    (b"q 4 100 200 1 10\n", Err(BadForm(3))),
    (b"q 4 100 200 1 10 20 0\n", Err(BadForm(3))),
    (b"p 4 100 200 1 10 20\n", Err(BadForm(3))),
    (b"q 4K 100 200 1 10 20\n", Err(BadForm(3))),
    (b"q 4 100 200 - 10 20\n", Err(BadForm(3))),
    (b"q 4 1k 200 1 10 20\n", Err(BadForm(3))),
    (b"q 4 100 20x 1 10 20\n", Err(BadForm(3))),
    (b"q 4 100 200 1 1K 20\n", Err(BadForm(3))),
    (b"q 4 100 200 1 10 \xff\n", Err(BadForm(3))),
    (b"q 4 100 200 18446744073709551616 10 20\n", Err(BadForm(3))),
    (b"q 4 18446744073709551616 200 1 10 20\n", Err(BadForm(3))),
    (b"\n", Err(BadForm(3))),
];

#[test]
fn the_limits_are_in_the_third_line(rt: HostRuntime) {
    expect_third(&rt, rt.alloc(), THIRD);
}

const LONG: &[LongRow] = &[
    (1024, Ok(LIMITS)),
    (1025, Err(FormFault::Lines(LineFault::Long(4)))),
];

#[test]
fn a_line_of_a_form_has_at_most_1024_bytes(rt: HostRuntime) {
    expect_long(&rt, rt.alloc(), LONG);
}

const UNREAD: &[WholeRow] = &[(USER, Err(FormFault::Lines(LineFault::Source)))];

#[test]
fn a_form_whose_source_fails_is_not_read(rt: HostRuntime) {
    expect_read(&rt, rt.alloc(), &[1], UNREAD);
}
