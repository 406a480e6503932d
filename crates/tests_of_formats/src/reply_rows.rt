use crate::helpers_low::put;
use rquota_xdr::{Quota, Reply, read_reply, write_reply};
use std::process::Abort;

/// A quota whose fields differ.
const QUOTA: Quota = Quota {
    bsize: 1024,
    active: 1,
    bhard: 200,
    bsoft: 100,
    curblocks: 4,
    fhard: 20,
    fsoft: 10,
    curfiles: 2,
    btimeleft: 30,
    ftimeleft: 40,
};

/// A quota of an identifier that keeps to its limits, so that no grace period runs.
const PLAIN: Quota = Quota {
    bsize: 0x400,
    bhard: 0xc8,
    bsoft: 0x64,
    fhard: 0x14,
    fsoft: 0xa,
    curfiles: 1,
    btimeleft: 0,
    ftimeleft: 0,
    ..QUOTA
};

/// A reply and its units.
type ReplyRow = (Reply, &'static [u32]);

#[rattlefmt::skip]
const REPLIES: &[ReplyRow] = &[
    (Reply::Null { xid: 1 }, &[1, 1, 0, 0, 0, 0]),
    (Reply::NoProgram { xid: 1 }, &[1, 1, 0, 0, 0, 1]),
    (Reply::NoVersion { xid: 1 }, &[1, 1, 0, 0, 0, 2, 1, 2]),
    (Reply::NoProcedure { xid: 1 }, &[1, 1, 0, 0, 0, 3]),
    (Reply::Garbage { xid: 1 }, &[1, 1, 0, 0, 0, 4]),
    (Reply::OldRpc { xid: 1 }, &[1, 1, 1, 0, 2, 2]),
    (Reply::Auth { xid: 1, stat: 5 }, &[1, 1, 1, 1, 5]),
    (Reply::NoQuota { xid: 1 }, &[1, 1, 0, 0, 0, 0, 2]),
    (Reply::Denied { xid: 1 }, &[1, 1, 0, 0, 0, 0, 3]),
    (Reply::Quota { xid: 1, quota: QUOTA }, &[1, 1, 0, 0, 0, 0, 1, 1024, 1, 200, 100, 4, 20, 10, 2, 30, 40]),
    (Reply::Quota { xid: 1, quota: PLAIN }, &[1, 1, 0, 0, 0, 0, 1, 0x400, 1, 0xc8, 0x64, 4, 0x14, 0xa, 1, 0, 0]),
];

/// Whether the reply is written over bytes of 255 as these bytes and nothing behind them.
fn is_written(reply: &Reply, bytes: &[u8]) -> bool {
    let mut out = [0xff; 68];
    let len = write_reply(reply, &mut out);
    len == bytes.len() && &out[..len] == bytes && out[len..].iter().all(|byte| *byte == 0xff)
}

/// Whether the reply is read of this many of these bytes, and of no more and no fewer.
fn is_read(reply: &Reply, bytes: &[u8; 2048], len: usize) -> bool {
    if len == 0 || len > 68 {
        return false;
    }
    read_reply(&bytes[..len]) == Some(*reply)
        && read_reply(&bytes[..len - 1]).is_none()
        && read_reply(&bytes[..len + 1]).is_none()
        && read_reply(&bytes[..len + 4]).is_none()
}

/// Whether a reply is written as these units and read of them, whatever stands behind them.
fn has_units(reply: &Reply, units: &[u32]) -> bool {
    let mut zeros = [0; 2048];
    let mut ones = [0xff; 2048];
    if units.len() > 17 || !put(&mut zeros, 0, units) || !put(&mut ones, 0, units) {
        return false;
    }
    let len = 4 * units.len();
    is_written(reply, &zeros[..len]) && is_read(reply, &zeros, len) && is_read(reply, &ones, len)
}

fn expect_replies(rt: &impl Abort, rows: &[ReplyRow]) {
    for row in rows {
        assert!(rt; has_units(&row.0, row.1), "{:?}", row.0);
    }
}

#[test]
fn writes_each_reply_in_front_and_reads_it_again(rt: HostRuntime) {
    expect_replies(&rt, REPLIES);
}
