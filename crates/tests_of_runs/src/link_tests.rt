use crate::playing::QuotaCli;
use memory_objects::MemStore;
use outside::Store;
use std::alloc::{AllocError, Global};
use std::process::Abort;
use tests_story_stage::{Conditions, Object, Program, Streams, words_of};

/// With which status a run ends, how often it starts the link, and at which port the last time.
type Started = (u8, u64, Option<u16>);

/// A run over an empty flat file `q`: its words, the script, the datagrams that come, and the call of the link that
/// fails, where there are any; and how it starts the link.
type LinkRow = (&'static str, &'static str, u64, Option<u64>, Started);

#[rattlefmt::skip]
const LINKS: &[LinkRow] = &[
    ("rquotad --format vfsold --calls 2 --port 875 --export /home user q", "", 2, None, (0, 1, Some(875))),
    ("rquotad --format vfsold --calls 1 --port 875 --export /home user q", "", 1, Some(1), (4, 0, None)),
    ("script", "\
rquotad --format vfsold --calls 2 --port 875 --export /home user q
setquota -F vfsold 7 1 2 0 0 q
rquotad --format vfsold --calls 1 --port 876 --export /home user q
", 3, None, (0, 2, Some(876))),
];

/// What the run of a row meets besides its file.
fn setting_of(alloc: Global, row: &LinkRow) -> Result<Conditions, AllocError> {
    let mut setting = Conditions::none(alloc);
    if !row.1.is_empty() {
        setting.input = Some(Vec::from_slice(alloc, row.1.as_bytes())?);
    }
    for _ in 0..row.2 {
        let datagram = Vec::from_slice(alloc, b"no call")?;
        setting.datagrams.push((datagram, 1_700_000_000))?;
    }
    if let Some(call) = row.3 {
        setting.failing.push((Object::Link, call))?;
    }
    Ok(setting)
}

/// How the run of a row starts the link.
fn started_by(alloc: Global, row: &LinkRow) -> Result<Started, AllocError> {
    let setting = setting_of(alloc, row)?;
    let words = words_of(alloc, row.0)?;
    let mut store = MemStore::new(Vec::new(alloc), Vec::new(alloc));
    let _ = store.create("q");
    let mut streams = Streams::new(alloc, &setting)?;
    let status = QuotaCli.run(alloc, &words, &mut store, &mut streams, 1_700_000_000);
    Ok((status, streams.link.starts(), streams.link.port()))
}

fn expect_started(rt: &impl Abort, alloc: Global, rows: &[LinkRow]) {
    for row in rows {
        let started = started_by(alloc, row);
        assert!(rt;
            matches!(&started, Ok(started) if *started == row.4),
            "{}: {started:?}",
            row.0
        );
    }
}

#[test]
fn the_link_is_started_at_the_port_that_is_asked_for(rt: HostRuntime) {
    expect_started(&rt, rt.alloc(), LINKS);
}
