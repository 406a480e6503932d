//! Files, and other bytes that have names.

use crate::wrong::{Checked, Wrong, unmet};
use std::alloc::{AllocError, Global};

/// A file: its name and its bytes.
pub type NamedBytes = (String, Vec<u8>);

/// The bytes under a name.
pub fn find<'a>(files: &'a [NamedBytes], name: &str) -> Option<&'a [u8]> {
    for (known, bytes) in files {
        if known.as_str() == name {
            return Some(bytes.as_slice());
        }
    }
    None
}

/// Whether a name is among some.
pub fn has_name(names: &[String], wanted: &str) -> bool {
    let mut is_there = false;
    for name in names {
        is_there = is_there || name.as_str() == wanted;
    }
    is_there
}

/// The bytes under a name.
///
/// # Errors
///
/// There are none, or there was not enough memory to say so.
pub fn found<'a>(alloc: Global, files: &'a [NamedBytes], name: &str) -> Result<&'a [u8], Wrong> {
    match find(files, name) {
        Some(bytes) => Ok(bytes),
        None => unmet(alloc, "nothing has this name"),
    }
}

/// Puts bytes under a name, in the place of those that were there.
///
/// # Errors
///
/// There was not enough memory.
pub fn set(alloc: Global, files: &mut Vec<NamedBytes>, name: &str, bytes: Vec<u8>) -> Checked {
    files.retain(|file| file.0.as_str() != name);
    files
        .push((String::from_str(alloc, name)?, bytes))
        .map_err(|_| Wrong::Memory)
}

/// Adds a name with each of some endings.
fn add_names(
    alloc: Global,
    names: &mut Vec<String>,
    name: &str,
    endings: &[&str],
) -> Result<(), AllocError> {
    for ending in endings {
        names.push(format!(in alloc; "{name}{ending}")?)?;
    }
    Ok(())
}

/// The names under which a run may leave files: those of the files before it and its words, each with some endings.
///
/// # Errors
///
/// There was not enough memory.
pub fn names_left(
    alloc: Global,
    before: &[NamedBytes],
    words: &[String],
    endings: &[&str],
) -> Result<Vec<String>, AllocError> {
    let mut names = Vec::new(alloc);
    for (name, _) in before {
        add_names(alloc, &mut names, name.as_str(), endings)?;
    }
    for word in words {
        add_names(alloc, &mut names, word.as_str(), endings)?;
    }
    Ok(names)
}
