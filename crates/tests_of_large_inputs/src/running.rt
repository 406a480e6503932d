use memory_objects::{MemLink, MemSink, MemSource, MemStore};
use outside::Store;
use quota_cli::run::run;
use std::alloc::{AllocError, Global};

/// The moment of each run, in seconds since 1970.
const NOW: u64 = 1_700_000_000;

/// What a run left: its status, the two outputs, and the file `q`.
#[derive(Drop)]
pub(crate) struct Left {
    pub status: u8,
    pub out: Vec<u8>,
    pub err: Vec<u8>,
    pub file: Vec<u8>,
}

/// Carries out a command over an empty file `q`, with this input.
pub(crate) fn left_by(alloc: Global, command: &str, input: Vec<u8>) -> Result<Left, AllocError> {
    let words = words_of(alloc, command)?;
    let mut store = MemStore::new(Vec::new(alloc), Vec::new(alloc));
    let _ = store.create("q");
    let mut input = MemSource::new(input, Vec::new(alloc));
    let mut out = MemSink::new(Vec::new(alloc), Vec::new(alloc));
    let mut err = MemSink::new(Vec::new(alloc), Vec::new(alloc));
    let mut link = MemLink::new(Vec::new(alloc), Vec::new(alloc));
    let words = words.as_slice();
    let status = run(
        alloc, words, &mut store, &mut input, &mut out, &mut err, &mut link, NOW,
    );
    Ok(Left {
        status,
        out: Vec::from_slice(alloc, out.bytes())?,
        err: Vec::from_slice(alloc, err.bytes())?,
        file: file_in(alloc, &store)?,
    })
}

/// The words of a command, separated by single spaces.
fn words_of(alloc: Global, command: &str) -> Result<Vec<String>, AllocError> {
    let mut words = Vec::new(alloc);
    for word in command.split(' ') {
        words.push(String::from_str(alloc, word)?)?;
    }
    Ok(words)
}

/// The bytes of the file `q`, or none where there is no such file.
fn file_in(alloc: Global, store: &MemStore) -> Result<Vec<u8>, AllocError> {
    match store.file("q") {
        Some(bytes) => Vec::from_slice(alloc, bytes),
        None => Ok(Vec::new(alloc)),
    }
}
