ghost use Rattle.std.specs.Prelude.{◌≡◌, false, IfOk};

use crate::parts::bytes_of;
use crate::short_reads::ShortReads;
use memory_network::MemConns;
use quota_types::{Entry, Grace, Rec};
use rpc_record::Conns;
use std::alloc::{AllocError, Global};

/// The grace periods of the file.
pub(crate) const GRACE: Grace = Grace {
    block: 604_800,
    inode: 604_800,
};

/// The users that are told of. The second one has a timer, which runs up to the second 1700000060.
pub(crate) const USERS: &[Entry] = &[
    Entry {
        id: 1000,
        rec: Rec {
            ihard: 20,
            isoft: 10,
            inodes: 1,
            bhard: 200,
            bsoft: 100,
            space: 4096,
            btime: 0,
            itime: 0,
        },
    },
    Entry {
        id: 1001,
        rec: Rec {
            ihard: 0,
            isoft: 0,
            inodes: 1,
            bhard: 0,
            bsoft: 1,
            space: 2048,
            btime: 1_700_000_060,
            itime: 0,
        },
    },
];

/// A call of the first user for what is told of him under `/home`, in its first 24 bytes and the 56 behind them.
pub(crate) const FRONT: &str = "00000001 00000000 00000002 000186ab 00000001 00000001";

pub(crate) const MIDDLE: &str =
    "00000001 00000018 00000000 00000001 68000000 000003e8 000003e8 00000000 00000000 00000000";

pub(crate) const BACK: &str = "00000005 2f686f6d 65000000 000003e8";

/// The call as a record of one fragment, and what is written of the reply to it.
pub(crate) const CALL: &[&str] = &["80000050", FRONT, MIDDLE, BACK];

pub(crate) const ANSWER: &[&str] = &[
    "80000044 00000001 00000001 00000000 00000000 00000000 00000000 00000001",
    "00000400 00000001 000000c8 00000064 00000004 00000014 0000000a 00000001 00000000 00000000",
];

/// Texts of words, so many times one after another.
pub(crate) type Times = (usize, &'static [&'static str]);

/// A connection that comes, by its moment and what it brings.
pub(crate) type Came = (u64, &'static [Times]);

/// The bytes that texts of words say.
pub(crate) fn all_bytes(alloc: Global, texts: &[Times]) -> Result<Vec<u8>, AllocError> {
    let mut bytes = Vec::new(alloc);
    for (times, words) in texts {
        for _ in 0..*times {
            for word in *words {
                bytes.extend_from_slice(&bytes_of(alloc, *word)?)?;
            }
        }
    }
    Ok(bytes)
}

/// Connections that come so, where calls of these numbers fail, whose reads take at most so many bytes, and none of
/// which takes bytes before a cut and behind it.
pub(crate) fn came_as(
    alloc: Global,
    came: &[Came],
    failing: &[u64],
    most: usize,
    cut: usize,
) -> Result<ShortReads, AllocError>
    ensures { IfOk result (λ short. ⟦<ShortReads as Conns>⟧.is_open short ≡ false) }
{
    let mut list = Vec::new(alloc);
    for (moment, texts) in came {
        list.push((*moment, all_bytes(alloc, *texts)?))?;
    }
    let failing = Vec::from_slice(alloc, failing)?;
    let conns = MemConns::new(alloc, list, failing)?;
    Ok(ShortReads {
        conns,
        most,
        cut,
        closed: 0,
    })
}

/// Whether these bytes were written on the connection at a place.
pub(crate) fn has_written(conns: &MemConns, place: usize, want: &[u8]) -> bool {
    place < conns.count() && conns.written(place) == want
}

/// Whether what is wanted was written on each connection.
pub(crate) fn have_written(
    alloc: Global,
    conns: &MemConns,
    want: &[&'static [Times]],
) -> Result<bool, AllocError> {
    for (place, texts) in want.iter().enumerate() {
        if !has_written(conns, place, &all_bytes(alloc, *texts)?) {
            return Ok(false);
        }
    }
    Ok(conns.count() == want.len())
}

pub(crate) const ONE_CALL: &[Times] = &[(1, CALL)];

pub(crate) const TWO_CALLS: &[Times] = &[(2, CALL)];

pub(crate) const ONE_ANSWER: &[Times] = &[(1, ANSWER)];

pub(crate) const TWO_ANSWERS: &[Times] = &[(2, ANSWER)];
