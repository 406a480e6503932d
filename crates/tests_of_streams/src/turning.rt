use crate::running::store_with;
use memory_objects::MemStore;
use outside::{Store, StoreFault};
use std::alloc::{AllocError, Global};

/// A store in memory with the users in the files `p` and `q`, whose bytes turn into 255 behind so many reads. It tells
/// nothing.
#[derive(Drop)]
pub(crate) struct Turning {
    store: MemStore,
    /// How many more reads give the files as they are.
    good_reads: u64,
}

impl Turning {
    /// Such a store.
    pub(crate) fn new(alloc: Global, good_reads: u64) -> Result<Turning, AllocError> {
        let mut store = store_with(alloc, &[])?;
        let bytes = match store.file("q") {
            Some(bytes) => Vec::from_slice(alloc, bytes)?,
            None => Vec::new(alloc),
        };
        put(&mut store, "p", &bytes);
        Ok(Turning { store, good_reads })
    }

    /// How often it was read.
    pub(crate) fn reads(&self) -> u64 {
        self.store.reads()
    }
}

/// Puts a file into a store.
fn put(store: &mut MemStore, name: &str, bytes: &[u8]) {
    let mut at = 0u64;
    for chunk in bytes.chunks(1024) {
        if chunk.len() <= 1024 && at <= 1 << 42 {
            let _ = store.write(name, at, chunk);
        }
        at = at.saturating_add(1024);
    }
}

impl Store for Turning {
    ghost use Rattle.std.specs.Prelude.{false};
    ghost use Rattle.memory_objects.specs.InMemory.{mem_store_seen};

    ghost tells = { false };

    ghost seen = { λ turning. mem_store_seen turning.store };

    ghost commits = { λ _ _ _. Unit {0} };

    ghost commits_nothing = { λ _ _. tt };

    ghost commits_on = { λ _ _ _ _ _ _ _. tt };

    fn size(&mut self, name: &str) -> Result<Option<u64>, StoreFault> {
        self.store.size(name)
    }

    fn read(&mut self, name: &str, at: u64, buf: &mut [u8]) -> Result<usize, StoreFault> {
        let count = self.store.read(name, at, buf)?;
        if self.good_reads == 0 {
            buf.fill(255);
        }
        self.good_reads = self.good_reads.saturating_sub(1);
        Ok(count)
    }

    fn write(&mut self, name: &str, at: u64, bytes: &[u8]) -> Result<(), StoreFault> {
        self.store.write(name, at, bytes)
    }

    fn create(&mut self, name: &str) -> Result<(), StoreFault> {
        self.store.create(name)
    }

    fn sync(&mut self, name: &str) -> Result<(), StoreFault> {
        self.store.sync(name)
    }

    fn rename(&mut self, from: &str, to: &str) -> Result<(), StoreFault> {
        self.store.rename(from, to)
    }
}
