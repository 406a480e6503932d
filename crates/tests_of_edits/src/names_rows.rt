use id_names::{Names, NamesFault};
use quota_types::Kind;
use std::alloc::{AllocError, Global};
use std::process::Abort;

/// Users, with a name on two lines, an identifier on two lines, and lines that say nothing.
const USERS: &[u8] = b"root:x:0:0:root:/root:/bin/sh\n\
    # people\n\
    \n\
    alice:x:1000:1000:Alice:/home/alice:/bin/sh\n\
    bob:x:01001:100:Bob \xff\xfe:/home/bob:/bin/sh\n\
    +@staff::::::\n\
    alice:x:1002:1000::/home/alice:/bin/sh\n\
    rooty:x:0:0::/root:/bin/sh\n\
    max:x:4294967295:1:::";

/// Names, each with its identifier.
const IDS: &[(&[u8], Option<u32>)] = &[
    (b"root", Some(0)),
    (b"alice", Some(1000)),
    (b"bob", Some(1001)),
    (b"rooty", Some(0)),
    (b"max", Some(4_294_967_295)),
    (b"carol", None),
    (b"alic", None),
    (b"", None),
];

/// Identifiers, each with its name.
const NAMES: &[(u32, Option<&[u8]>)] = &[
    (0, Some(b"root")),
    (1000, Some(b"alice")),
    (1001, Some(b"bob")),
    (1002, Some(b"alice")),
    (4_294_967_295, Some(b"max")),
    (1003, None),
];

/// What is looked up in no lines.
const NO_IDS: &[(&[u8], Option<u32>)] = &[(b"root", None)];

const NO_NAMES: &[(u32, Option<&[u8]>)] = &[(0, None)];

/// Expects look-ups to answer what these rows say.
fn expect_lookups(
    rt: &impl Abort,
    names: &Names,
    ids: &[(&[u8], Option<u32>)],
    found: &[(u32, Option<&[u8]>)],
) {
    for (name, id) in ids {
        assert_eq!(rt; names.id_of(name), *id, "{name:?}");
    }
    for (id, name) in found {
        assert_eq!(rt; names.name_of(*id), *name, "{id}");
    }
}

#[test]
fn the_first_line_that_matches_is_found(rt: HostRuntime) -> Result<(), NamesFault> {
    let names = Names::read(rt.alloc(), USERS, Kind::User)?;
    expect_lookups(&rt, &names, IDS, NAMES);
    Ok(())
}

#[test]
fn no_lines_match_nothing(rt: HostRuntime) {
    expect_lookups(&rt, &Names::none(rt.alloc()), NO_IDS, NO_NAMES);
}

/// A file of names, and the number of its first bad line.
type NamesRow = (&'static [u8], Option<u64>);

/// Expects the first bad line of each file to be named.
fn expect_bad_lines(rt: &impl Abort, alloc: Global, kind: Kind, rows: &[NamesRow]) {
    for (bytes, line) in rows {
        let fault = Names::read(alloc, bytes, kind).err();
        assert_eq!(rt; fault, line.map(NamesFault::BadLine), "{bytes:?}");
    }
}

/// Files of users.
const LINES_OF_USERS: &[NamesRow] = &[
    (b"", None),
    (b"\n\n", None),
    (b"#a\n+a\n-a\n", None),
    (b"a:x:7:7:::\n", None),
    (b"a:x:7:7:::", None),
    (b"a:x:7\nb:x:8\n", Some(1)),
    (b"a:x:7:7:::\n\n#\nb:x:8\n", Some(4)),
    (b"a:x:7:7:::\nb", Some(2)),
    (b"a:x:7:7::", Some(1)),
    (b"a:x:7:7::::", Some(1)),
    (b"a::0007:::", Some(1)),
    (b"a::0007::::\n", None),
    (b"a:x:4294967295:7:::", None),
    (b"a:x:4294967296:7:::", Some(1)),
    (b"a:x:00000000000000000000000000000007:7:::", None),
    (b"a:x:18446744073709551623:7:::", Some(1)),
    (b"a:x::7:::", Some(1)),
    (b"a:x:+7:7:::", Some(1)),
    (b"a:x: 7:7:::", Some(1)),
    (b"a:x:0x7:7:::", Some(1)),
    (b":x:7:7:::", Some(1)),
    (b"a b:x:7:7:::", Some(1)),
    (b"a\x7f:x:7:7:::", Some(1)),
    (b"a\t:x:7:7:::", Some(1)),
    (b"!~:x:7:7:::", None),
    (b"\x80\xff:x:7:7:::", None),
    (b"a:x:7:7:\xff\0:/:/bin/sh\r\n", None),
    (b" a:x:7:7:::\n#", Some(1)),
];

#[test]
fn the_first_bad_line_of_users_is_named(rt: HostRuntime) {
    expect_bad_lines(&rt, rt.alloc(), Kind::User, LINES_OF_USERS);
}

/// Files of groups.
const LINES_OF_GROUPS: &[NamesRow] = &[
    (b"", None),
    (b"\n#a\n+a\n-a\n\nwheel:x:10:\n", None),
    (b"wheel:x:10:root,alice", None),
    (b"wheel:x:10", Some(1)),
    (b"wheel:x:10::", Some(1)),
    (b"wheel:x:10:root:0:/:", Some(1)),
    (b"-\nwheel:x:10:\nusers::\n", Some(3)),
    (b"wheel:x:4294967296:", Some(1)),
    (b"wheel:x:0000000004294967295:", None),
    (b"wheel:x::", Some(1)),
    (b":x:10:", Some(1)),
    (b"wh\x7fel:x:10:", Some(1)),
    (b"wh el:x:10:", Some(1)),
];

#[test]
fn the_first_bad_line_of_groups_is_named(rt: HostRuntime) {
    expect_bad_lines(&rt, rt.alloc(), Kind::Group, LINES_OF_GROUPS);
}

/// Files of projects.
const LINES_OF_PROJECTS: &[NamesRow] = &[
    (b"", None),
    (b"a:7", None),
    (b"a:7\n", None),
    (b"\n#a:x\n+a:7\n-a\n\nbuild:007\n", None),
    (b"a:x:7", Some(1)),
    (b"a:7:", Some(1)),
    (b"a:7:7:", Some(1)),
    (b"a:x:7:7:::", Some(1)),
    (b"a:", Some(1)),
    (b":7", Some(1)),
    (b":", Some(1)),
    (b"a", Some(1)),
    (b"7:a", Some(1)),
    (b"a:0\n#\nb:8\na:+7\n", Some(4)),
    (b"a:4294967295", None),
    (b"a:4294967296", Some(1)),
    (b"a:00000000000000000000000000000007", None),
    (b"a: 7", Some(1)),
    (b"a:7 ", Some(1)),
    (b"a:7\r\n", Some(1)),
    (b"a b:7", Some(1)),
    (b"a\x7f:7", Some(1)),
    (b"!~\xff:7", None),
];

#[test]
fn the_first_bad_line_of_projects_is_named(rt: HostRuntime) {
    expect_bad_lines(&rt, rt.alloc(), Kind::Project, LINES_OF_PROJECTS);
}

/// A line whose name has this many bytes: what is behind the name, and how many bytes the name of identifier 7 has
/// then, or why the line is refused.
type LongRow = (usize, &'static [u8], Kind, Result<usize, NamesFault>);

const LONG_NAMES: &[LongRow] = &[
    (255, b":x:7:7:::", Kind::User, Ok(255)),
    (255, b":x:7:", Kind::Group, Ok(255)),
    (255, b":7", Kind::Project, Ok(255)),
    (256, b":x:7:7:::", Kind::User, Err(NamesFault::BadLine(1))),
    (256, b":x:7:", Kind::Group, Err(NamesFault::BadLine(1))),
    (256, b":7", Kind::Project, Err(NamesFault::BadLine(1))),
];

/// Expects each line to be read or refused as its row says.
fn expect_long_names(rt: &impl Abort, alloc: Global, rows: &[LongRow]) {
    for (len, behind, kind, answer) in rows {
        let got = length_of_name(alloc, *len, behind, *kind);
        assert!(rt; got == Ok(*answer), "{len} bytes, {kind:?}: {got:?}");
    }
}

fn length_of_name(
    alloc: Global,
    len: usize,
    behind: &[u8],
    kind: Kind,
) -> Result<Result<usize, NamesFault>, AllocError> {
    let mut line = vec![in alloc; b'n'; len]?;
    line.extend_from_slice(behind)?;
    match Names::read(alloc, line.as_slice(), kind) {
        Ok(names) => Ok(Ok(names.name_of(7).map_or(0, |name| name.len()))),
        Err(fault) => Ok(Err(fault)),
    }
}

#[test]
fn a_name_has_at_most_255_bytes(rt: HostRuntime) {
    expect_long_names(&rt, rt.alloc(), LONG_NAMES);
}
