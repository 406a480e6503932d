use crate::conditions::{Conditions, Object};
use memory_objects::{MemLink, MemSink, MemSource};
use outside::{Link, Source};
use std::alloc::{AllocError, Global};

/// What is in an input that a run must not read.
const UNREAD: &[u8] = b"unread";

/// The objects in memory of a run but its store.
#[derive(Drop)]
pub struct Streams {
    /// The standard input.
    pub input: MemSource,
    /// The output.
    pub out: MemSink,
    /// The error output.
    pub err: MemSink,
    /// Where datagrams come from, and answers go to.
    pub link: MemLink,
    is_given_input: bool,
    is_given_datagrams: bool,
}

/// The input, of which the first call fails where there is none.
fn input_of(alloc: Global, setting: &Conditions) -> Result<MemSource, AllocError> {
    match &setting.input {
        Some(bytes) => Ok(MemSource::new(
            Vec::from_slice(alloc, bytes)?,
            setting.failing_of(alloc, Object::Input)?,
        )),
        None => Ok(MemSource::new(
            Vec::from_slice(alloc, UNREAD)?,
            Vec::from_slice(alloc, &[1])?,
        )),
    }
}

/// The link of these datagrams and failing calls. Where there is none of either, the first call fails.
fn link_of(
    alloc: Global,
    datagrams: &[(Vec<u8>, u64)],
    mut failing: Vec<u64>,
) -> Result<MemLink, AllocError> {
    let mut copies = Vec::new(alloc);
    for (bytes, moment) in datagrams {
        copies.push((Vec::from_slice(alloc, bytes)?, *moment))?;
    }
    if datagrams.is_empty() && failing.is_empty() {
        failing.push(1)?;
    }
    Ok(MemLink::new(copies, failing))
}

impl Streams {
    /// Objects that meet what is set.
    ///
    /// # Errors
    ///
    /// There was not enough memory.
    pub fn new(alloc: Global, setting: &Conditions) -> Result<Streams, AllocError> {
        let output = setting.failing_of(alloc, Object::Output)?;
        let error = setting.failing_of(alloc, Object::Error)?;
        let link = setting.failing_of(alloc, Object::Link)?;
        let is_given_datagrams = !setting.datagrams.is_empty() || !link.is_empty();
        Ok(Streams {
            input: input_of(alloc, setting)?,
            out: MemSink::new(Vec::new(alloc), output),
            err: MemSink::new(Vec::new(alloc), error),
            link: link_of(alloc, &setting.datagrams, link)?,
            is_given_input: setting.input.is_some(),
            is_given_datagrams,
        })
    }

    /// The bytes of the input that were not taken, where there is one.
    pub fn left(&self) -> &[u8] {
        if self.is_given_input {
            self.input.left()
        } else {
            b""
        }
    }

    /// What a run called that it was not given, or nothing.
    pub fn called(&mut self) -> &'static str {
        if !self.is_given_input
            && (self.input.left() != UNREAD || self.input.read(&mut []).is_ok())
        {
            return "the input was read, and there is none";
        }
        if !self.is_given_datagrams
            && (!self.link.answers().is_empty() || self.link.start(0).is_ok())
        {
            return "the link was called, and no datagram comes";
        }
        ""
    }
}
