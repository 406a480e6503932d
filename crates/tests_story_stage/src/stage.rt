use crate::conditions::Conditions;
use crate::files::NamedBytes;
use crate::ran::Last;
use std::alloc::Global;

/// Where a story is.
#[derive(Drop)]
pub struct Stage {
    /// What memory is taken from.
    pub alloc: Global,
    /// The bytes that were gathered.
    pub gathered: Vec<u8>,
    /// What was kept, for all rows of a story.
    pub kept: Vec<NamedBytes>,
    /// The files that are there.
    pub files: Vec<NamedBytes>,
    /// What the next run meets.
    pub setting: Conditions,
    /// The moment of the runs, in seconds since 1970.
    pub now: u64,
    /// The files and the kept bytes that a sweep may leave besides.
    pub may: Vec<(String, String)>,
    /// The files that a sweep must leave as they were.
    pub stays: Vec<String>,
    /// What the last run left, where it was not told whole.
    pub last: Option<Last>,
    /// The title of the row.
    pub title: String,
    /// The number of the line in its story.
    pub number: u64,
}

impl Stage {
    /// A stage on which nothing is.
    pub fn new(alloc: Global) -> Stage {
        Stage {
            alloc,
            gathered: Vec::new(alloc),
            kept: Vec::new(alloc),
            files: Vec::new(alloc),
            setting: Conditions::none(alloc),
            now: 1_700_000_000,
            may: Vec::new(alloc),
            stays: Vec::new(alloc),
            last: None,
            title: String::new(alloc),
            number: 0,
        }
    }

    /// Begins a row, or a story, where the title and the number of the line are those of a new one.
    pub fn begin(&mut self, title: String, number: u64) {
        let kept = std::mem::replace(&mut self.kept, Vec::new(self.alloc));
        *self = Stage::new(self.alloc);
        self.kept = kept;
        self.title = title;
        self.number = number;
    }

    /// The gathered bytes, of which none are left then.
    pub fn take(&mut self) -> Vec<u8> {
        std::mem::replace(&mut self.gathered, Vec::new(self.alloc))
    }
}
