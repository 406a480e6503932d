use memory_network::MemPeer;
use memory_objects::MemSink;
use quota_client::run_client;
use std::alloc::{AllocError, Global};

/// What a run is given.
#[derive(Drop)]
pub(crate) struct RunInput {
    /// The words, separated by single spaces.
    pub(crate) words: String,
    /// The xid of the first path.
    pub(crate) xid: u32,
    /// The events.
    pub(crate) events: Vec<Option<Vec<u8>>>,
    /// The calls that fail, counted from 1; 0 is none.
    pub(crate) failing: Failing,
}

/// Which calls fail, counted from 1; 0 is none.
#[derive(Clone, Copy)]
pub(crate) struct Failing {
    pub(crate) peer: u64,
    pub(crate) out: u64,
    pub(crate) err: u64,
}

/// What a run did.
#[derive(Drop)]
pub(crate) struct Ran {
    pub(crate) status: u8,
    pub(crate) out: Vec<u8>,
    pub(crate) err: Vec<u8>,
    pub(crate) sent: Vec<Vec<u8>>,
    pub(crate) port: Option<u16>,
    pub(crate) starts: u64,
}

/// The setting at the start of a row.
pub(crate) fn new_setting(alloc: Global) -> RunInput {
    RunInput {
        words: String::new(alloc),
        xid: 1,
        events: Vec::new(alloc),
        failing: Failing {
            peer: 0,
            out: 0,
            err: 0,
        },
    }
}

/// A path of so many bytes.
fn long_path(alloc: Global, len: usize) -> Result<String, AllocError> {
    let mut path = String::new(alloc);
    for _ in 0..len {
        path.push('p')?;
    }
    Ok(path)
}

/// The word that stands in a row.
fn word_of(alloc: Global, word: &str) -> Result<String, AllocError> {
    match word.strip_prefix('@') {
        Some(len) => long_path(alloc, usize::from(len.parse::<u16>().unwrap_or(0))),
        None => with_blanks(alloc, word),
    }
}

/// A word in which `_` stands for a blank.
fn with_blanks(alloc: Global, word: &str) -> Result<String, AllocError> {
    let mut text = String::new(alloc);
    for letter in word.chars() {
        text.push(if letter == '_' { ' ' } else { letter })?;
    }
    Ok(text)
}

/// The words of a row.
fn words_of(alloc: Global, words: &str) -> Result<Vec<String>, AllocError> {
    let mut list = Vec::new(alloc);
    if words == "" {
        return Ok(list);
    }
    for word in words.split(' ') {
        list.push(word_of(alloc, word)?)?;
    }
    Ok(list)
}

/// A copy of events.
fn copied(alloc: Global, events: &[Option<Vec<u8>>]) -> Result<Vec<Option<Vec<u8>>>, AllocError> {
    let mut copies = Vec::new(alloc);
    for event in events {
        match event {
            Some(bytes) => copies.push(Some(Vec::from_slice(alloc, bytes)?))?,
            None => copies.push(None)?,
        }
    }
    Ok(copies)
}

/// The list of the calls that fail.
fn failing_at(alloc: Global, call: u64) -> Result<Vec<u64>, AllocError> {
    let mut list = Vec::new(alloc);
    if call > 0 {
        list.push(call)?;
    }
    Ok(list)
}

/// A copy of datagrams.
fn datagrams(alloc: Global, sent: &[Vec<u8>]) -> Result<Vec<Vec<u8>>, AllocError> {
    let mut copies = Vec::new(alloc);
    for datagram in sent {
        copies.push(Vec::from_slice(alloc, datagram)?)?;
    }
    Ok(copies)
}

/// Runs the client.
fn status_of(
    words: &[String],
    peer: &mut MemPeer,
    out: &mut MemSink,
    err: &mut MemSink,
    xid: u32,
) -> u8 {
    run_client(words, peer, out, err, xid)
}

/// Runs the client in a setting.
pub(crate) fn run(alloc: Global, setting: &RunInput) -> Result<Ran, AllocError> {
    let words = words_of(alloc, setting.words.as_str())?;
    let failing = setting.failing;
    let mut peer = MemPeer::new(
        copied(alloc, &setting.events)?,
        failing_at(alloc, failing.peer)?,
    );
    let mut out = MemSink::new(Vec::new(alloc), failing_at(alloc, failing.out)?);
    let mut err = MemSink::new(Vec::new(alloc), failing_at(alloc, failing.err)?);
    let status = status_of(&words, &mut peer, &mut out, &mut err, setting.xid);
    Ok(Ran {
        status,
        out: Vec::from_slice(alloc, out.bytes())?,
        err: Vec::from_slice(alloc, err.bytes())?,
        sent: datagrams(alloc, peer.sent())?,
        port: peer.port(),
        starts: peer.starts(),
    })
}
