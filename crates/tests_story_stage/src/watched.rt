ghost use Rattle.memory_objects.specs.InMemory.{mem_store_seen};

use crate::conditions::{Conditions, Object};
use crate::files::NamedBytes;
use memory_objects::MemStore;
use outside::{Store, StoreFault};
use std::alloc::{AllocError, Global};

/// The calls of a store that were made.
#[derive(Drop)]
pub struct Diary {
    /// How many there were.
    pub calls: u64,
    /// How many of them read, and how many wrote.
    pub reads: u64,
    pub writes: u64,
    /// Each of them, and the files that it names. A call for which there is no memory is not written down.
    pub noted: String,
}

impl Diary {
    /// Counts a call and writes it down, in pieces.
    fn note(&mut self, pieces: &[&str]) {
        self.calls = self.calls.saturating_add(1);
        for piece in pieces {
            let _ = self.noted.push_str(piece);
        }
        let _ = self.noted.push_str("; ");
    }
}

/// A store in memory that counts its calls and writes them down, and whose files turn into bytes of 255 after a given
/// number of reads. It tells nothing.
#[derive(Drop)]
pub(crate) struct Watched {
    /// The store whose files it gives.
    pub store: MemStore,
    /// The calls that were made.
    pub diary: Diary,
    /// How many more reads give the files as they are.
    pub good_reads: u64,
}

impl Watched {
    /// A store with these files, all of them synced, of which calls fail as it is set.
    pub(crate) fn new(
        alloc: Global,
        files: &[NamedBytes],
        setting: &Conditions,
    ) -> Result<Watched, AllocError> {
        let made = making_calls(files);
        let failing = setting.failing_of(alloc, Object::Store)?;
        let mut plan = Vec::new(alloc);
        for call in &failing {
            plan.push(call.saturating_add(made))?;
        }
        let mut store = MemStore::new(Vec::new(alloc), plan);
        for (name, bytes) in files {
            make(&mut store, name.as_str(), bytes);
        }
        Ok(Watched {
            store,
            diary: Diary {
                calls: 0,
                reads: 0,
                writes: 0,
                noted: String::new(alloc),
            },
            good_reads: setting.good_reads,
        })
    }
}

/// How many calls make these files.
pub fn making_calls(files: &[NamedBytes]) -> u64 {
    let mut made = 0u64;
    for (_, bytes) in files {
        let blocks = (bytes.len() as u64).div_ceil(1024);
        made = made.saturating_add(blocks).saturating_add(2);
    }
    made
}

/// Makes a file, and syncs it.
fn make(store: &mut MemStore, name: &str, bytes: &[u8]) {
    let _ = store.create(name);
    let mut at = 0u64;
    for chunk in bytes.chunks(1024) {
        if chunk.len() <= 1024 && at <= 1 << 42 {
            let _ = store.write(name, at, chunk);
        }
        at = at.saturating_add(1024);
    }
    let _ = store.sync(name);
}

impl Store for Watched {
    ghost use Rattle.std.specs.Prelude.{false};

    ghost tells = { false };

    ghost seen = { λ s. mem_store_seen s.store };

    ghost commits = { λ _ _ _. Unit {0} };

    ghost commits_nothing = { λ _ _. tt };

    ghost commits_on = { λ _ _ _ _ _ _ _. tt };

    fn size(&mut self, name: &str) -> Result<Option<u64>, StoreFault> {
        self.diary.note(&["size ", name]);
        self.store.size(name)
    }

    fn read(&mut self, name: &str, at: u64, buf: &mut [u8]) -> Result<usize, StoreFault> {
        self.diary.note(&["read ", name]);
        self.diary.reads = self.diary.reads.saturating_add(1);
        let count = self.store.read(name, at, buf)?;
        if self.good_reads == 0 {
            buf.fill(255);
        }
        self.good_reads = self.good_reads.saturating_sub(1);
        Ok(count)
    }

    fn write(&mut self, name: &str, at: u64, bytes: &[u8]) -> Result<(), StoreFault> {
        self.diary.note(&["write ", name]);
        self.diary.writes = self.diary.writes.saturating_add(1);
        self.store.write(name, at, bytes)
    }

    fn create(&mut self, name: &str) -> Result<(), StoreFault> {
        self.diary.note(&["create ", name]);
        self.store.create(name)
    }

    fn sync(&mut self, name: &str) -> Result<(), StoreFault> {
        self.diary.note(&["sync ", name]);
        self.store.sync(name)
    }

    fn rename(&mut self, from: &str, to: &str) -> Result<(), StoreFault> {
        self.diary.note(&["rename ", from, " ", to]);
        self.store.rename(from, to)
    }
}
