use crate::parts::bytes_of;
use quota_client::write_call;
use rquota_xdr::{Call, read_call};
use std::alloc::{AllocError, Global};
use std::process::Abort;

/// The fields of a call, and its bytes.
struct Row {
    xid: u32,
    uid: u32,
    gid: u32,
    path: &'static str,
    id: u32,
    bytes: &'static str,
}

const ROWS: &[Row] = &[
    Row {
        xid: 1,
        uid: 1000,
        gid: 1000,
        path: "/home",
        id: 1000,
        bytes: "1 0 2 100011 1 1 1 20 0 0 1000 1000 0 0 0 '/home 1000",
    },
    Row {
        xid: 4_294_967_295,
        uid: 0,
        gid: 5,
        path: "/srv",
        id: 7,
        bytes: "4294967295 0 2 100011 1 1 1 20 0 0 0 5 0 0 0 '/srv 7",
    },
    Row {
        xid: 0,
        uid: 4_294_967_295,
        gid: 0,
        path: "!",
        id: 4_294_967_295,
        bytes: "0 0 2 100011 1 1 1 20 0 0 4294967295 0 0 0 0 '! 4294967295",
    },
];

/// Whether a call is written as told, and the bytes behind it stay.
fn holds(alloc: Global, row: &Row) -> Result<bool, AllocError> {
    let want = bytes_of(alloc, row.bytes)?;
    let mut out = [7; 1092];
    let path = row.path.as_bytes();
    if path.is_empty() || path.len() > 1024 {
        return Ok(false);
    }
    let len = write_call(row.xid, row.uid, row.gid, path, row.id, &mut out);
    let behind = out.get(len..).unwrap_or(b"");
    Ok(out.get(..len) == Some(want.as_slice()) && behind.iter().all(|byte| *byte == 7))
}

fn expect_all(rt: &impl Abort, alloc: Global, rows: &[Row]) {
    for row in rows {
        match holds(alloc, row) {
            Ok(holds) => assert!(rt; holds, "{}", row.bytes),
            Err(_) => assert!(rt; false, "no memory"),
        }
    }
}

#[test]
fn a_call_is_written_as_told(rt: HostRuntime) {
    expect_all(&rt, rt.alloc(), ROWS);
}

/// How many bytes the longest call has, and how many its path has as it is read.
fn longest() -> (usize, usize) {
    let path = [b'p'; 1024];
    let mut out = [0; 1092];
    let len = write_call(1, 2, 3, &path, 4, &mut out);
    match read_call(&out[..len]) {
        Call::Get { path, .. } => (len, path.len),
        _ => (len, 0),
    }
}

#[test]
fn the_longest_path_fills_the_buffer(rt: HostRuntime) {
    assert_eq!(rt; longest(), (1092, 1024));
}
