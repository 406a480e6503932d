use crate::exported::{Told, exports_of, store_with};
use crate::parts::bytes_of;
use opened_file::FileFault;
use quota_types::{Format, Kind};
use rquota_serve::answer;
use rquota_xdr::{Reply, write_reply};
use std::alloc::{AllocError, Global};
use std::process::Abort;

/// The moment of each datagram.
const NOW: u64 = 1_700_000_000;

const FORMATS: [Format; 4] = [Format::V1, Format::V1R32, Format::V2R0, Format::V2R1];

/// What is exported where a row says `users`, where it says `both`, `projects` or `all`.
const USERS: &[Told] = &[("/home", Kind::User, "q")];

const BOTH: &[Told] = &[
    ("/srv", Kind::User, "q"),
    ("/home", Kind::Group, "g"),
    ("/home", Kind::User, "q"),
];

const PROJECTS: &[Told] = &[("/home", Kind::Project, "p")];

const ALL: &[Told] = &[
    ("/home", Kind::Project, "p"),
    ("/home", Kind::Group, "g"),
    ("/home", Kind::User, "q"),
];

/// Whether this is the reply that is wanted: these bytes, or none.
pub(crate) fn is_wanted(found: Result<Option<Reply>, FileFault>, want: Option<&[u8]>) -> bool {
    match (found, want) {
        (Ok(None), None) => true,
        (Ok(Some(reply)), Some(bytes)) => {
            let mut out = [0; 68];
            let len = write_reply(&reply, &mut out);
            bytes == &out[..len]
        }
        _ => false,
    }
}

/// How often the store is read at most for a reply. Where there is none it is not read.
const READS: u64 = 5;

/// Whether a datagram of these bytes gets the reply that is wanted, from files of a format, with few reads and no
/// writes.
pub(crate) fn is_answered(
    alloc: Global,
    format: Format,
    told: &[Told],
    bytes: &[u8],
    want: Option<&[u8]>,
) -> bool {
    let Some(mut store) = store_with(alloc, format, &[]) else {
        return false;
    };
    let Some(mut exports) = exports_of(alloc, &mut store, told, format) else {
        return false;
    };
    let reads = store.reads();
    let found = answer(&mut exports, &mut store, bytes, NOW);
    let made = store.reads().saturating_sub(reads);
    let most = if want.is_some() { READS } else { 0 };
    is_wanted(found, want) && made <= most && store.writes() == 0
}

/// The same, from files of each format in turn.
fn is_answered_in_all(alloc: Global, told: &[Told], bytes: &[u8], want: Option<&[u8]>) -> bool {
    for format in FORMATS {
        if !is_answered(alloc, format, told, bytes, want) {
            return false;
        }
    }
    true
}

/// Where the player stands: what is exported, and the datagram.
#[derive(Drop)]
struct Stage {
    told: &'static [Told],
    datagram: Vec<u8>,
}

/// Carries a line out, and answers whether it is as told.
fn does(alloc: Global, stage: &mut Stage, line: &str) -> Result<bool, AllocError> {
    let (verb, rest) = line.split_once(' ').unwrap_or((line, ""));
    match verb {
        "users" => stage.told = USERS,
        "both" => stage.told = BOTH,
        "projects" => stage.told = PROJECTS,
        "all" => stage.told = ALL,
        "call" => stage.datagram = bytes_of(alloc, rest)?,
        "silent" => return Ok(is_answered_in_all(alloc, stage.told, &stage.datagram, None)),
        "reply" => {
            let want = bytes_of(alloc, rest)?;
            return Ok(is_answered_in_all(alloc, stage.told, &stage.datagram, Some(&want)));
        }
        _ => return Ok(verb == "=" || verb == ""),
    }
    Ok(true)
}

/// The first line that is not as told, or an empty one.
fn first_wrong(alloc: Global, story: &str) -> Result<String, AllocError> {
    let mut stage = Stage {
        told: USERS,
        datagram: Vec::new(alloc),
    };
    for line in story.lines() {
        if !does(alloc, &mut stage, line)? {
            return String::from_str(alloc, line);
        }
    }
    Ok(String::new(alloc))
}

fn play(rt: &impl Abort, alloc: Global, story: &str) {
    match first_wrong(alloc, story) {
        Ok(wrong) => assert_eq!(rt; wrong.as_str(), ""),
        Err(_) => assert!(rt; false, "no memory"),
    }
}

const CALLS: &str = "
= a user is told his own
call 1 0 2 100011 1 1 1 24 0 'h 1000 1000 0 0 0 '/home 1000
reply 1 1 0 0 0 0 1 1024 1 200 100 4 20 10 1 0 0
= the active quota is told alike
call 1 0 2 100011 1 2 1 24 0 'h 1000 1000 0 0 0 '/home 1000
reply 1 1 0 0 0 0 1 1024 1 200 100 4 20 10 1 0 0
= a user is denied another one
call 1 0 2 100011 1 1 1 24 0 'h 1001 1000 0 0 0 '/home 1000
reply 1 1 0 0 0 0 3
= the superuser is told of an absent identifier
call 1 0 2 100011 1 1 1 24 0 'h 0 0 0 0 0 '/home 5
reply 1 1 0 0 0 0 1 1024 1 0 0 0 0 0 0 0 0
= version 3 is not served
call 1 0 2 100011 3 1 1 24 0 'h 1000 1000 0 0 0 '/home 1000
reply 1 1 0 0 0 2 1 2
= nobody is too weak
call 1 0 2 100011 1 1 0 0 0 0 '/home 1000
reply 1 1 1 1 5
= a call without its identifier is garbage
call 1 0 2 100011 1 1 1 24 0 'h 1000 1000 0 0 0 '/home
reply 1 1 0 0 0 4
= a call for nothing is answered
call 9 0 2 100011 1 0
reply 9 1 0 0 0 0
= a call that sets limits is denied
call 1 0 2 100011 1 3 1 24 0 'h 0 0 0 0 0 0 '/home 1000 0 0 0 0 0 0 0 0
reply 1 1 0 0 0 0 3
= another program is not served
call 1 0 2 100012 1 1 1 24 0 'h 1000 1000 0 0 0 '/home 1000
reply 1 1 0 0 0 1
= procedure 5 is not served
call 1 0 2 100011 1 5
reply 1 1 0 0 0 3
= version 3 of RPC is not served
call 1 0 3 100011 1 1
reply 1 1 1 0 2 2
= a reply gets no reply
call 1 1 0 0 0 0
silent
= the xid is that of the call
call 4294967294 0 2 100011 1 1 1 24 0 'h 0 0 0 0 0 ' 1000
reply 4294967294 1 0 0 0 0 2
= bytes behind the call are not read
call 1 0 2 100011 1 1 1 24 0 'h 1000 1000 0 0 0 '/home 1000 *5
reply 1 1 0 0 0 0 1 1024 1 200 100 4 20 10 1 0 0
";

const OWNERS: &str = "
users
= a path of users is none of groups
call 1 0 2 100011 2 1 1 24 0 'h 1000 1000 0 0 0 '/home 1 1000
reply 1 1 0 0 0 0 2
= a path that is not exported
call 1 0 2 100011 1 1 1 24 0 'h 1000 1000 0 0 0 '/homf 1000
reply 1 1 0 0 0 0 2
= who may not ask does not learn that a path is not exported
call 1 0 2 100011 1 1 1 24 0 'h 1000 1000 0 0 0 '/homf 5
reply 1 1 0 0 0 0 3
= who may not ask does not learn that a kind is not exported
call 1 0 2 100011 2 1 1 24 0 'h 1000 1000 0 0 0 '/home 1 5
reply 1 1 0 0 0 0 3
both
= a type above 2 is not exported
call 1 0 2 100011 2 1 1 24 0 'h 1000 1000 0 0 0 '/home 3 1000
reply 1 1 0 0 0 0 2
= a type above 2 is not exported, whoever asks
call 1 0 2 100011 2 1 1 24 0 'h 1000 1000 0 0 0 '/home 3 5
reply 1 1 0 0 0 0 2
= a path and kind among several
call 1 0 2 100011 2 1 1 24 0 'h 1000 1000 0 0 0 '/home 0 1000
reply 1 1 0 0 0 0 1 1024 1 200 100 4 20 10 1 0 0
= a further group is told of
call 1 0 2 100011 2 1 1 32 0 'h 1001 1000 2 7 100 0 0 '/home 1 100
reply 1 1 0 0 0 0 1 1024 1 0 1 2 0 1 2 60 0
= the first group is told of
call 1 0 2 100011 2 1 1 24 0 'h 5 100 0 0 0 '/home 1 100
reply 1 1 0 0 0 0 1 1024 1 0 1 2 0 1 2 60 0
= the superuser is told of a group
call 1 0 2 100011 2 1 1 24 0 'h 0 0 0 0 0 '/home 1 100
reply 1 1 0 0 0 0 1 1024 1 0 1 2 0 1 2 60 0
= a user is no group
call 1 0 2 100011 2 1 1 24 0 'h 100 200 0 0 0 '/home 1 100
reply 1 1 0 0 0 0 3
= a group is no user
call 1 0 2 100011 2 1 1 28 0 'h 7 1000 1 1000 0 0 '/home 0 1000
reply 1 1 0 0 0 0 3
";

const OF_PROJECTS: &str = "
all
= the superuser is told of a project
call 1 0 2 100011 2 1 1 24 0 'h 0 0 0 0 0 '/home 2 7
reply 1 1 0 0 0 0 1 1024 1 80 40 9 6 5 3 0 0
= the active quota of a project is told alike
call 1 0 2 100011 2 2 1 24 0 'h 0 0 0 0 0 '/home 2 7
reply 1 1 0 0 0 0 1 1024 1 80 40 9 6 5 3 0 0
= the superuser is told of an absent project, though a user has its number
call 1 0 2 100011 2 1 1 24 0 'h 0 0 0 0 0 '/home 2 1000
reply 1 1 0 0 0 0 1 1024 1 0 0 0 0 0 0 0 0
= a uid is no project
call 1 0 2 100011 2 1 1 24 0 'h 7 1000 0 0 0 '/home 2 7
reply 1 1 0 0 0 0 3
= a first group is no project
call 1 0 2 100011 2 1 1 24 0 'h 1000 7 0 0 0 '/home 2 7
reply 1 1 0 0 0 0 3
= a further group is no project
call 1 0 2 100011 2 1 1 32 0 'h 1000 1000 2 8 7 0 0 '/home 2 7
reply 1 1 0 0 0 0 3
= who has none of its numbers is denied
call 1 0 2 100011 2 1 1 24 0 'h 1000 1000 0 0 0 '/home 2 7
reply 1 1 0 0 0 0 3
= a member of group 0 is no superuser
call 1 0 2 100011 2 1 1 28 0 'h 1000 0 1 0 0 0 '/home 2 7
reply 1 1 0 0 0 0 3
= the group of that number is another one
call 1 0 2 100011 2 1 1 24 0 'h 7 7 0 0 0 '/home 1 7
reply 1 1 0 0 0 0 1 1024 1 0 0 0 0 0 0 0 0
= and so is the user
call 1 0 2 100011 2 1 1 24 0 'h 7 7 0 0 0 '/home 0 7
reply 1 1 0 0 0 0 1 1024 1 0 0 0 0 0 0 0 0
= the user beside the project is told
call 1 0 2 100011 2 1 1 24 0 'h 1000 1000 0 0 0 '/home 0 1000
reply 1 1 0 0 0 0 1 1024 1 200 100 4 20 10 1 0 0
= version 1 asks for users alone
call 1 0 2 100011 1 1 1 24 0 'h 0 0 0 0 0 '/home 7
reply 1 1 0 0 0 0 1 1024 1 0 0 0 0 0 0 0 0
= type 3 is not exported
call 1 0 2 100011 2 1 1 24 0 'h 0 0 0 0 0 '/home 3 7
reply 1 1 0 0 0 0 2
= the greatest type is not exported
call 1 0 2 100011 2 1 1 24 0 'h 0 0 0 0 0 '/home 4294967295 7
reply 1 1 0 0 0 0 2
= limits of a project are set by no call
call 1 0 2 100011 2 3 1 24 0 'h 0 0 0 0 0 0 '/home 7 2 0 0 0 0 0 0 0 0
reply 1 1 0 0 0 0 3
both
= projects that are not exported are none
call 1 0 2 100011 2 1 1 24 0 'h 0 0 0 0 0 '/home 2 7
reply 1 1 0 0 0 0 2
= who may not ask does not learn that no projects are exported
call 1 0 2 100011 2 1 1 24 0 'h 7 7 0 0 0 '/home 2 7
reply 1 1 0 0 0 0 3
projects
= a path of projects is told of
call 1 0 2 100011 2 1 1 24 0 'h 0 0 0 0 0 '/home 2 7
reply 1 1 0 0 0 0 1 1024 1 80 40 9 6 5 3 0 0
= a path of projects is none of users
call 1 0 2 100011 2 1 1 24 0 'h 0 0 0 0 0 '/home 0 7
reply 1 1 0 0 0 0 2
= a path of projects is none of groups
call 1 0 2 100011 2 1 1 24 0 'h 0 0 0 0 0 '/home 1 7
reply 1 1 0 0 0 0 2
= and none to version 1
call 1 0 2 100011 1 1 1 24 0 'h 0 0 0 0 0 '/home 7
reply 1 1 0 0 0 0 2
= another path is not exported
call 1 0 2 100011 2 1 1 24 0 'h 0 0 0 0 0 '/homf 2 7
reply 1 1 0 0 0 0 2
= who may not ask does not learn that a path is not exported for projects
call 1 0 2 100011 2 1 1 24 0 'h 7 7 0 0 0 '/homf 2 7
reply 1 1 0 0 0 0 3
";

const LIMITS: &str = "
users
= a machine's name of 256 bytes
call 1 0 2 100011 1 1 1 276 0 256 *256 1000 1000 0 0 0 '/home 1000
reply 1 1 1 1 1
= a machine's name of 255 bytes
call 1 0 2 100011 1 1 1 276 0 255 *256 1000 1000 0 0 0 '/home 1000
reply 1 1 0 0 0 0 1 1024 1 200 100 4 20 10 1 0 0
= 17 further groups
call 1 0 2 100011 1 1 1 92 0 'h 1000 1000 17 *68 0 0 '/home 1000
reply 1 1 1 1 1
= 16 further groups
call 1 0 2 100011 1 1 1 88 0 'h 1000 1000 16 *64 0 0 '/home 1000
reply 1 1 0 0 0 0 1 1024 1 200 100 4 20 10 1 0 0
= a credential of 401 bytes
call 1 0 2 100011 1 1 1 401 0 'h 1000 1000 0 *380 0 0 '/home 1000
reply 1 1 1 1 1
= a credential of 400 bytes
call 1 0 2 100011 1 1 1 400 0 'h 1000 1000 0 *376 0 0 '/home 1000
reply 1 1 0 0 0 0 1 1024 1 200 100 4 20 10 1 0 0
= a credential of flavor 6
call 1 0 2 100011 1 1 6 24 0 'h 1000 1000 0 0 0 '/home 1000
reply 1 1 1 1 2
= a path of 1,025 bytes
call 1 0 2 100011 1 1 1 24 0 'h 1000 1000 0 0 0 1025 *1028 1000
reply 1 1 0 0 0 4
= a path of 1,024 bytes
call 1 0 2 100011 1 1 1 24 0 'h 1000 1000 0 0 0 1024 *1024 1000
reply 1 1 0 0 0 0 2
";

#[test]
fn calls_get_their_replies(rt: HostRuntime) {
    play(&rt, rt.alloc(), CALLS);
}

#[test]
fn owners_are_told_and_others_denied(rt: HostRuntime) {
    play(&rt, rt.alloc(), OWNERS);
}

#[test]
fn the_superuser_alone_is_told_of_projects(rt: HostRuntime) {
    play(&rt, rt.alloc(), OF_PROJECTS);
}

#[test]
fn calls_keep_to_their_limits(rt: HostRuntime) {
    play(&rt, rt.alloc(), LIMITS);
}
