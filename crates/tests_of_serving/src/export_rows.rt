use crate::answer_rows::is_wanted;
use crate::exported::{Told, add, store_with};
use crate::parts::{ASKED, TOLD, bytes_of};
use memory_objects::MemStore;
use opened_file::OpenFault;
use quota_types::{Format, Kind};
use rquota_serve::{Exports, MOST_EXPORTS, answer};
use std::alloc::Global;
use std::process::Abort;

/// A step on exports of vfsv1 files.
#[derive(Clone, Copy, Debug)]
enum Step {
    /// A file is exported.
    Add(Told),
    /// A file is refused, for this cause.
    Refused(Told, Option<Format>, OpenFault),
    /// No file may be exported under this path, for this kind.
    MayNot(&'static str, Kind),
    /// A datagram gets this reply.
    Reply(&'static str, &'static str),
}

/// Whether the step is as told.
fn does(alloc: Global, exports: &mut Exports, store: &mut MemStore, step: Step) -> bool {
    match step {
        Step::Add(told) => add(alloc, exports, store, told, Format::V2R1),
        Step::Refused(told, format, fault) => {
            if !exports.may_add(told.0, told.1) {
                return false;
            }
            exports.add(alloc, store, told.0, told.1, told.2, format) == Err(fault)
        }
        Step::MayNot(path, kind) => !exports.may_add(path, kind),
        Step::Reply(asked, want) => match (bytes_of(alloc, asked), bytes_of(alloc, want)) {
            (Ok(bytes), Ok(reply)) => is_wanted(answer(exports, store, &bytes, 1), Some(&reply)),
            _ => false,
        },
    }
}

/// Whether all steps are as told.
fn do_all(alloc: Global, exports: &mut Exports, store: &mut MemStore, steps: &[Step]) -> bool {
    for step in steps {
        if !does(alloc, exports, store, *step) {
            return false;
        }
    }
    true
}

/// Whether all steps are as told, of no exports at first.
fn holds(alloc: Global, steps: &[Step]) -> bool {
    let Some(mut store) = store_with(alloc, Format::V2R1, &[]) else {
        return false;
    };
    let mut exports = Exports::new(alloc);
    do_all(alloc, &mut exports, &mut store, steps)
}

fn expect_all(rt: &impl Abort, alloc: Global, rows: &[(&str, &[Step])]) {
    assert_eq!(rt; MOST_EXPORTS, 16);
    for row in rows {
        assert!(rt; holds(alloc, row.1), "{}", row.0);
    }
}

/// The superuser asks for the user 1000 of the path `8`, and uid 1001 does.
const ASKED_8: &str = "1 0 2 100011 1 1 1 24 0 'h 0 0 0 0 0 '8 1000";

const OTHER_8: &str = "1 0 2 100011 1 1 1 24 0 'h 1001 1000 0 0 0 '8 1000";

const NO_QUOTA: &str = "1 1 0 0 0 0 2";

const DENIED: &str = "1 1 0 0 0 0 3";

const USER: Kind = Kind::User;

const ROWS: &[(&str, &[Step])] = &[
    (
        "nothing is exported at first",
        &[Step::Reply(ASKED, NO_QUOTA)],
    ),
    (
        "a file is exported",
        &[Step::Add(("/home", USER, "q")), Step::Reply(ASKED, TOLD)],
    ),
    (
        "a path is exported once for each kind",
        &[
            Step::Add(("/home", USER, "q")),
            Step::MayNot("/home", USER),
            Step::Add(("/home", Kind::Group, "g")),
            Step::MayNot("/home", Kind::Group),
            Step::Add(("/home", Kind::Project, "p")),
            Step::MayNot("/home", Kind::Project),
            Step::Reply(ASKED, TOLD),
        ],
    ),
    (
        "a refused file changes nothing",
        &[
            Step::Refused(("/home", USER, "r"), None, OpenFault::NoFile),
            Step::Reply(ASKED, NO_QUOTA),
            Step::Refused(("/home", USER, "g"), None, OpenFault::WrongKind),
            Step::Refused(("/home", USER, "p"), None, OpenFault::WrongKind),
            Step::Refused(("/home", Kind::Group, "p"), None, OpenFault::WrongKind),
            Step::Refused(("/home", Kind::Project, "g"), None, OpenFault::WrongKind),
            Step::Refused(("/home", Kind::Project, "q"), None, OpenFault::WrongKind),
            Step::Refused(
                ("/home", USER, "q"),
                Some(Format::V2R0),
                OpenFault::FormatMismatch {
                    found: Format::V2R1,
                },
            ),
            Step::Add(("/home", USER, "q")),
            Step::Refused(("/srv", USER, "r"), None, OpenFault::NoFile),
            Step::Reply(ASKED, TOLD),
        ],
    ),
    (
        "16 files are exported and no more",
        &[
            Step::Add(("1", USER, "q")),
            Step::Add(("2", USER, "q")),
            Step::Add(("3", USER, "q")),
            Step::Add(("4", USER, "q")),
            Step::Add(("5", USER, "q")),
            Step::Add(("6", USER, "q")),
            Step::Add(("7", USER, "q")),
            Step::Add(("8", USER, "q")),
            Step::Add(("1", Kind::Group, "g")),
            Step::Add(("2", Kind::Group, "g")),
            Step::Add(("3", Kind::Group, "g")),
            Step::Add(("4", Kind::Group, "g")),
            Step::Add(("5", Kind::Group, "g")),
            Step::Add(("6", Kind::Group, "g")),
            Step::Add(("7", Kind::Group, "g")),
            Step::Add(("8", Kind::Group, "g")),
            Step::MayNot("9", USER),
            Step::Reply(ASKED_8, TOLD),
            Step::Reply(ASKED, NO_QUOTA),
            Step::Reply(OTHER_8, DENIED),
        ],
    ),
];

#[test]
fn exports_are_added(rt: HostRuntime) {
    expect_all(&rt, rt.alloc(), ROWS);
}
