use crate::calls::{Came, GRACE, ONE_CALL, TWO_CALLS, Times, USERS, came_as, have_written};
use memory_objects::{MemSink, MemStore};
use outside::Store;
use quota_types::{Format, Kind};
use rpc_record::run_stream;
use std::alloc::{AllocError, Global};
use tests_row_files::{listed, store_of};

/// One connection with a call.
pub(crate) const ONE: &[Came] = &[(1_700_000_000, ONE_CALL)];

/// Two, with two calls and with one.
pub(crate) const TWO: &[Came] = &[(1_700_000_000, TWO_CALLS), (1_700_000_000, ONE_CALL)];

/// Words, the connections that come, and the calls on them that fail, from 1 on; and the status, the error line, the
/// port at which it listened, and what was written on each connection.
#[derive(Clone, Copy)]
pub(crate) struct Run<'a> {
    pub(crate) title: &'static str,
    pub(crate) words: &'static str,
    pub(crate) came: &'static [Came],
    pub(crate) failing: &'a [u64],
    pub(crate) status: u8,
    pub(crate) line: &'static str,
    pub(crate) port: Option<u16>,
    pub(crate) written: &'static [&'static [Times]],
}

/// The calls that fail of the store and of the error output, from 1 on, the most bytes that a read of a connection
/// takes, and a cut over which no read goes.
#[derive(Clone, Copy)]
pub(crate) struct Way<'a> {
    pub(crate) store: &'a [u64],
    pub(crate) err: &'a [u64],
    pub(crate) most: usize,
    pub(crate) cut: usize,
}

/// No call fails, and reads take what they are asked for.
pub(crate) const PLAIN: Way<'static> = Way {
    store: &[],
    err: &[],
    most: usize::MAX,
    cut: 0,
};

/// How a run went: its status, what was said, how many connections were closed, and whether a row's port and writings
/// came of it.
#[derive(Drop)]
pub(crate) struct End {
    pub(crate) status: u8,
    pub(crate) said: Vec<u8>,
    pub(crate) closed: u64,
    pub(crate) is_listened: bool,
    pub(crate) is_written: bool,
}

/// The words of a text, with a space between two of them.
pub(crate) fn words_of(alloc: Global, text: &str) -> Result<Vec<String>, AllocError> {
    let mut words = Vec::new(alloc);
    for word in text.split(' ') {
        words.push(String::from_str(alloc, word)?)?;
    }
    Ok(words)
}

/// A store with the users in the file `q`, whose calls of these numbers fail.
pub(crate) fn store_with(alloc: Global, failing: &[u64]) -> Result<MemStore, AllocError> {
    let bytes = match listed(alloc, Kind::User, Format::V2R1, GRACE, USERS) {
        Some(store) => store.into_file("q"),
        None => None,
    };
    match bytes {
        Some(bytes) => store_of(alloc, &bytes, failing),
        None => store_of(alloc, &[], failing),
    }
}

/// How a row goes in a way over a store.
pub(crate) fn end_over<S: Store>(
    alloc: Global,
    row: &Run<'_>,
    way: Way<'_>,
    store: &mut S,
) -> Result<End, AllocError> {
    let words = words_of(alloc, row.words)?;
    let mut short = came_as(alloc, row.came, row.failing, way.most, way.cut)?;
    let mut err = MemSink::new(Vec::new(alloc), Vec::from_slice(alloc, way.err)?);
    let status = run_stream(alloc, &words, store, &mut short, &mut err);
    Ok(End {
        status,
        said: Vec::from_slice(alloc, err.bytes())?,
        closed: short.closed,
        is_listened: short.conns.port() == row.port,
        is_written: have_written(alloc, &short.conns, row.written)?,
    })
}

/// How a row goes in a way.
pub(crate) fn end_of(alloc: Global, row: &Run<'_>, way: Way<'_>) -> Result<End, AllocError> {
    let mut store = store_with(alloc, way.store)?;
    end_over(alloc, row, way, &mut store)
}

/// How often a row reads the store where no call fails.
pub(crate) fn reads_of(alloc: Global, row: &Run<'_>) -> Result<u64, AllocError> {
    let mut store = store_with(alloc, &[])?;
    let _ = end_over(alloc, row, PLAIN, &mut store)?;
    Ok(store.reads())
}

/// Whether a run went as a row says.
pub(crate) fn is_as_said(row: &Run<'_>, end: &End) -> bool {
    let is_said = end.said.as_slice() == row.line.as_bytes();
    end.status == row.status && is_said && end.is_listened && end.is_written
}

/// Whether a row holds in a way.
pub(crate) fn holds(alloc: Global, row: &Run<'_>, way: Way<'_>) -> bool {
    match end_of(alloc, row, way) {
        Ok(end) => is_as_said(row, &end),
        Err(_) => false,
    }
}
