use crate::conditions::Conditions;
use crate::files::{NamedBytes, find, names_left};
use crate::objects::Streams;
use crate::program::Program;
use crate::ran::Ran;
use crate::stage::Stage;
use crate::watched::Watched;
use crate::wrong::{Wrong, holds_if};
use memory_objects::MemStore;
use std::alloc::{AllocError, Global};

/// The endings of names under which a run leaves files, besides those of the words.
pub const NEW: &[&str] = &["", ".new"];

/// The words of a line, separated by single spaces.
///
/// # Errors
///
/// There was not enough memory.
pub fn words_of(alloc: Global, line: &str) -> Result<Vec<String>, AllocError> {
    let mut words = Vec::new(alloc);
    if line.is_empty() {
        return Ok(words);
    }
    for word in line.split(' ') {
        words.push(String::from_str(alloc, word)?)?;
    }
    Ok(words)
}

/// Adds the words of an input to the words that it goes with, where it is a script.
fn add_words(
    alloc: Global,
    words: &mut Vec<String>,
    input: &Option<Vec<u8>>,
) -> Result<(), AllocError> {
    let Some(bytes) = input else {
        return Ok(());
    };
    if !matches!(words.first(), Some(word) if word.as_str() == "script") {
        return Ok(());
    }
    let text = String::from_utf8_lossy(alloc, bytes)?;
    for line in text.as_str().lines() {
        for word in line.split(' ') {
            words.push(String::from_str(alloc, word)?)?;
        }
    }
    Ok(())
}

/// The files that a store has under some names.
fn files_in(
    alloc: Global,
    store: &MemStore,
    names: &[String],
) -> Result<Vec<NamedBytes>, AllocError> {
    let mut files = Vec::new(alloc);
    for name in names {
        let name = name.as_str();
        if find(&files, name).is_some() {
            continue;
        }
        if let Some(bytes) = store.file(name) {
            files.push((
                String::from_str(alloc, name)?,
                Vec::from_slice(alloc, bytes)?,
            ))?;
        }
    }
    Ok(files)
}

/// Runs the words of a line over these files in a store in memory, and looks at what they left.
///
/// # Errors
///
/// They called what they were not given, or there was not enough memory.
pub fn run_over<P: Program>(
    program: &P,
    stage: &Stage,
    files: &[NamedBytes],
    setting: &Conditions,
    line: &str,
) -> Result<Ran, Wrong> {
    let alloc = stage.alloc;
    let mut words = words_of(alloc, line)?;
    let mut store = Watched::new(alloc, files, setting)?;
    let mut streams = Streams::new(alloc, setting)?;
    let status = program.run(alloc, &words, &mut store, &mut streams, stage.now);
    let called = streams.called();
    holds_if(alloc, called.is_empty(), called)?;
    add_words(alloc, &mut words, &setting.input)?;
    let names = names_left(alloc, files, &words, NEW)?;
    Ok(Ran {
        status,
        streams,
        files: files_in(alloc, &store.store, &names)?,
        words,
        diary: store.diary,
    })
}
