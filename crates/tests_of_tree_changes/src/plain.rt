use quota_types::{Entry, Rec};
use std::alloc::{AllocError, Global};

/// What a tree file has to hold after a row of changes, and how many blocks it has to have then, by lists that are
/// searched from the front.
#[derive(Drop)]
pub(crate) struct Plain {
    alloc: Global,
    /// How many entries a data block has.
    room: usize,
    /// The entries, in order.
    pub entries: Vec<Entry>,
    /// The data block of each identifier. They are numbered as they are begun.
    homes: Vec<(u32, u32)>,
    /// The data blocks that have an unused entry. The next entry is written into the last one.
    listed: Vec<u32>,
    begun: u32,
    /// How many blocks the file has: as many as were in use at a time.
    pub blocks: usize,
}

impl Plain {
    /// A file without records, of header and root.
    pub(crate) fn new(alloc: Global, room: usize) -> Self {
        Self {
            alloc,
            room,
            entries: Vec::new(alloc),
            homes: Vec::new(alloc),
            listed: Vec::new(alloc),
            begun: 0,
            blocks: 2,
        }
    }

    /// Gives an identifier this record, or none.
    pub(crate) fn set(&mut self, id: u32, rec: Option<Rec>) -> Result<(), AllocError> {
        self.entries = list_with(self.alloc, self.entries.as_slice(), id, rec)?;
        match rec {
            Some(_) => self.enter(id)?,
            None => self.leave(id)?,
        }
        self.blocks = self.blocks.max(self.used());
        Ok(())
    }

    fn enter(&mut self, id: u32) -> Result<(), AllocError> {
        if self.home_of(id).is_some() {
            return Ok(());
        }
        let home = self.home_with_room()?;
        self.homes.push((id, home))?;
        if self.count_in(home) == self.room {
            self.listed.retain(|other| *other != home);
        }
        Ok(())
    }

    fn leave(&mut self, id: u32) -> Result<(), AllocError> {
        let Some(home) = self.home_of(id) else {
            return Ok(());
        };
        if self.count_in(home) == self.room {
            self.listed.push(home)?;
        }
        self.homes.retain(|of| of.0 != id);
        if self.count_in(home) == 0 {
            self.listed.retain(|other| *other != home);
        }
        Ok(())
    }

    /// The data block into which the next entry is written: a new one where all are full.
    fn home_with_room(&mut self) -> Result<u32, AllocError> {
        if let Some(home) = self.listed.last() {
            return Ok(*home);
        }
        self.begun = self.begun.saturating_add(1);
        self.listed.push(self.begun)?;
        Ok(self.begun)
    }

    fn home_of(&self, id: u32) -> Option<u32> {
        self.homes.iter().find(|of| of.0 == id).map(|of| of.1)
    }

    fn count_in(&self, home: u32) -> usize {
        self.homes.iter().filter(|of| of.1 == home).count()
    }

    /// How many blocks are in use: the header, the root, a tree block for each beginning of an identifier of one, two
    /// or three bytes, and the data blocks.
    fn used(&self) -> usize {
        let mut used = self.data_blocks().saturating_add(2);
        for bits in [8, 16, 24] {
            used = used.saturating_add(beginnings(self.entries.as_slice(), bits));
        }
        used
    }

    /// How many data blocks there are: those with an unused entry, and one for each entry that is the first of a full
    /// one.
    fn data_blocks(&self) -> usize {
        let mut full = 0usize;
        for home in 1..=self.begun {
            if self.count_in(home) == self.room {
                full = full.saturating_add(1);
            }
        }
        full.saturating_add(self.listed.len())
    }
}

/// How many beginnings the identifiers of entries have, which are in order, without this many bits at their ends.
fn beginnings(entries: &[Entry], bits: u32) -> usize {
    let mut count = 0usize;
    let mut last = None;
    for entry in entries {
        let beginning = Some(entry.id.wrapping_shr(bits));
        if beginning != last {
            count = count.saturating_add(1);
        }
        last = beginning;
    }
    count
}

/// The entries with this record of an identifier, or without one, in order.
pub(crate) fn list_with(
    alloc: Global,
    list: &[Entry],
    id: u32,
    rec: Option<Rec>,
) -> Result<Vec<Entry>, AllocError> {
    let mut with = Vec::new(alloc);
    for entry in list.iter().filter(|entry| entry.id < id) {
        with.push(*entry)?;
    }
    if let Some(rec) = rec {
        with.push(Entry { id, rec })?;
    }
    for entry in list.iter().filter(|entry| entry.id > id) {
        with.push(*entry)?;
    }
    Ok(with)
}
