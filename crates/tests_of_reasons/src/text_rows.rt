use error_lines::shown;
use run_notes::LastText;
use std::alloc::{AllocError, Global};

/// A text, how much of it is shown at most, and what is shown.
const SHOWN: &[(&[u8], usize, &str)] = &[
    (b"", 4, ""),
    (b"a b~", 4, "a b~"),
    (b"a b~c", 4, "a b~..."),
    (b"\t\r\n\\", 4, "\\t\\r\\n\\\\"),
    (b"\x00\x1b\x7f\xff", 4, "\\x00\\x1b\\x7f\\xff"),
];

/// Whether each text is shown so.
fn are_shown(alloc: Global) -> Result<bool, AllocError> {
    for (text, most, wanted) in SHOWN {
        if shown(alloc, text, *most)?.as_str() != *wanted {
            return Ok(false);
        }
    }
    Ok(true)
}

#[test]
fn control_bytes_are_escaped(rt: HostRuntime) {
    assert!(&rt; are_shown(rt.alloc()).expect(&rt, "memory for a text"));
}

/// The line of this number in a text of lines that begin with the letters from `a` on, each of 1,000 bytes.
fn kept_line(number: u64) -> Option<u8> {
    let mut text = LastText::new();
    for letter in b'a'..=b'z' {
        text.push(&[letter; 999]);
        text.push(b"\n");
    }
    let line = text.line(number)?;
    if line.len() == 999 {
        Some(line[0])
    } else {
        None
    }
}

#[test]
fn the_last_lines_are_kept(rt: HostRuntime) {
    assert!(&rt; kept_line(26) == Some(b'z'));
    assert!(&rt; kept_line(23) == Some(b'w'));
    assert!(&rt; kept_line(1) == None);
    let mut text = LastText::new();
    text.push(b"one\ntwo");
    assert!(&rt; text.line(1) == Some(b"one".as_slice()));
    assert!(&rt; text.line(2) == Some(b"two".as_slice()));
    assert!(&rt; text.line(3) == None);
    assert!(&rt; text.last_line() == b"two".as_slice());
    text.push(b"\n");
    assert!(&rt; text.last_line() == b"two".as_slice());
}
