use std::alloc::{AllocError, Global};

/// An object outside, of which calls can be made to fail.
#[derive(Clone, Copy, PartialEq, Eq)]
pub enum Object {
    Store,
    Input,
    Output,
    Error,
    Link,
}

/// Each object, by its word.
pub const OBJECTS: &[(&str, Object)] = &[
    ("store", Object::Store),
    ("input", Object::Input),
    ("output", Object::Output),
    ("error", Object::Error),
    ("link", Object::Link),
];

/// What the next run meets besides the files.
#[derive(Drop)]
pub struct Conditions {
    /// The standard input, where there is one.
    pub input: Option<Vec<u8>>,
    /// The datagrams, each with the moment at which it comes.
    pub datagrams: Vec<(Vec<u8>, u64)>,
    /// The calls that are to fail, each with its object and its number, from 1 on.
    pub failing: Vec<(Object, u64)>,
    /// After how many reads the store turns.
    pub good_reads: u64,
}

impl Conditions {
    /// Nothing is set.
    pub fn none(alloc: Global) -> Conditions {
        Conditions {
            input: None,
            datagrams: Vec::new(alloc),
            failing: Vec::new(alloc),
            good_reads: u64::MAX,
        }
    }

    /// Whether nothing is set.
    pub fn is_none(&self) -> bool {
        self.input.is_none()
            && self.datagrams.is_empty()
            && self.failing.is_empty()
            && self.good_reads == u64::MAX
    }

    /// The numbers of the calls of an object that are to fail.
    ///
    /// # Errors
    ///
    /// There was not enough memory.
    pub fn failing_of(&self, alloc: Global, object: Object) -> Result<Vec<u64>, AllocError> {
        let mut calls = Vec::new(alloc);
        for (failing, call) in &self.failing {
            if *failing == object {
                calls.push(*call)?;
            }
        }
        Ok(calls)
    }
}
