use crate::answer_rows::is_answered;
use crate::exported::Told;
use crate::parts::{ASKED, TOLD, bytes_of};
use quota_types::{Format, Kind};
use std::alloc::Global;
use std::process::Abort;

const USERS: &[Told] = &[("/home", Kind::User, "q")];

/// The lengths up to which a call is cut, each with the reply to it then.
const CUTS: &[(usize, Option<&str>)] = &[
    (23, None),
    (55, Some("1 1 1 1 1")),
    (63, Some("1 1 1 1 3")),
    (79, Some("1 1 0 0 0 4")),
    (80, Some(TOLD)),
];

/// The reply to the call where it is cut to a length.
fn reply_at(len: usize) -> Option<&'static str> {
    for (most, reply) in CUTS {
        if len <= *most {
            return *reply;
        }
    }
    None
}

/// Whether bytes get the reply that these words say, or none.
fn is_told(alloc: Global, bytes: &[u8], want: Option<&str>) -> bool {
    match want {
        None => is_answered(alloc, Format::V2R1, USERS, bytes, None),
        Some(words) => match bytes_of(alloc, words) {
            Ok(reply) => is_answered(alloc, Format::V2R1, USERS, bytes, Some(&reply)),
            Err(_) => false,
        },
    }
}

/// The first length to which the call can be cut without the reply that is wanted.
fn wrong_cut(alloc: Global) -> Option<usize> {
    let Ok(bytes) = bytes_of(alloc, ASKED) else {
        return Some(0);
    };
    for len in 0..81 {
        let Some(cut) = bytes.get(..len) else {
            return Some(len);
        };
        if !is_told(alloc, cut, reply_at(len)) {
            return Some(len);
        }
    }
    None
}

fn expect_each_cut(rt: &impl Abort, alloc: Global) {
    assert_eq!(rt; wrong_cut(alloc), None);
}

#[test]
fn a_call_cut_to_each_length_gets_its_reply(rt: HostRuntime) {
    expect_each_cut(&rt, rt.alloc());
}
