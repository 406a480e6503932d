use crate::rows::{ReadText, words_in};
use command_reasons::{note_of, refused_file_reason, reply_reason};
use std::alloc::{AllocError, Global};

/// An error line behind `quota: `, words separated by single spaces, the text that was read, a file that the system
/// refused, its words for that, and the reason; empty where there is none.
type Refused = (
    &'static str,
    &'static str,
    &'static str,
    &'static str,
    &'static str,
    &'static str,
);

/// Files that the system refused.
#[rattlefmt::skip]
const REFUSED: &[Refused] = &[
    ("store fault",
        "quotacheck --input /dev/null q", "", "/dev/null", "Not a regular file",
        "/dev/null: Not a regular file; leave --input away, and the standard input is read"),
    ("store fault", "setquota -b --input /dev/null q", "", "q", "Not a regular file", ""),
    ("store fault", "setquota -b --input p q", "", "p", "Permission denied", ""),
    ("store fault",
        "repquota --names /dev/fd/63 q", "", "/dev/fd/63", "Not a regular file",
        "/dev/fd/63: Not a regular file; write the names into a regular file"),
    ("line 2: store fault",
        "script", "# \nsetquota -b --input p q\n", "p", "Not a regular file",
        "p: Not a regular file; write the lines into a regular file"),
    ("line 9: store fault", "script", "", "p", "Not a regular file", ""),
];

/// Words separated by single spaces, the text that was read, and what is noted of it; empty where nothing is.
#[rattlefmt::skip]
const NOTED: &[(&str, &str, &str)] = &[
    ("quotacheck q", "", "input: no line of an inode was read, so all use was set to 0"),
    ("quotacheck -c -u --input /root/listing q",
        "", "/root/listing: no line of an inode was read, so all use was set to 0"),
    ("quotacheck q", "1 1 1 1 1\n", ""),
    ("quotacheck q", "\n", "input: no line of an inode was read, so all use was set to 0"),
    ("setquota -b q", "", ""),
    ("script", "", ""),
    ("", "", ""),
];

/// The last line that the client printed, and its reason; empty where there is none.
#[rattlefmt::skip]
const REPLIES: &[(&str, &str)] = &[
    ("/home: no reply",
        "UDP port 875: look whether rquotad serves at that --port, or has answered its --calls, and whether a \
         firewall keeps datagrams out"),
    ("/home: denied", ""),
    ("/home: refused", ""),
    ("", ""),
];

/// A reason, or an empty text where there is none.
fn or_empty(alloc: Global, reason: Option<String>) -> String {
    reason.unwrap_or(String::new(alloc))
}

/// The reason of a file that the system refused.
fn refused(alloc: Global, row: &Refused) -> Result<String, AllocError> {
    let (said, words, read, file, why, _) = *row;
    let line = format!(in alloc; "quota: {said}")?;
    let words = words_in(alloc, words)?;
    let lines = ReadText::of(read);
    let reason = refused_file_reason(alloc, line.as_bytes(), words.as_slice(), &lines, file, why)?;
    Ok(or_empty(alloc, reason))
}

/// What is noted of words that were carried out.
fn noted(alloc: Global, words: &str, read: &str) -> Result<String, AllocError> {
    let words = words_in(alloc, words)?;
    let note = note_of(alloc, words.as_slice(), &ReadText::of(read))?;
    Ok(or_empty(alloc, note))
}

/// The reason of a line that the client printed.
fn replied(alloc: Global, printed: &str) -> Result<String, AllocError> {
    let words = words_in(alloc, "quota 875 1 2 /home")?;
    let reason = reply_reason(alloc, printed.as_bytes(), words.as_slice())?;
    Ok(or_empty(alloc, reason))
}

#[test]
fn a_refused_file_has_its_reason(rt: HostRuntime) {
    for row in REFUSED {
        let is = refused(rt.alloc(), row);
        let is_so = matches!(&is, Ok(is) if is.as_str() == row.5);
        assert!(&rt; is_so, "{}: {is:?}", row.1);
    }
}

#[test]
fn a_listing_without_a_line_is_noted(rt: HostRuntime) {
    for (words, read, wanted) in NOTED {
        let is = noted(rt.alloc(), words, read);
        let is_so = matches!(&is, Ok(is) if is.as_str() == *wanted);
        assert!(&rt; is_so, "{words}: {is:?}");
    }
}

#[test]
fn a_port_without_a_reply_has_its_reason(rt: HostRuntime) {
    for (printed, wanted) in REPLIES {
        let is = replied(rt.alloc(), printed);
        let is_so = matches!(&is, Ok(is) if is.as_str() == *wanted);
        assert!(&rt; is_so, "{printed}: {is:?}");
    }
}
