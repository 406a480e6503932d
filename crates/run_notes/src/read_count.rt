/// How many bytes are read before the clock is looked at.
const WORK: u64 = 1_048_576;

/// For how many further bytes a read counts.
const READ: u64 = 4_096;

/// How many bytes were read, and how much since the clock was looked at.
#[derive(Clone, Copy, Debug)]
pub struct ReadCount {
    bytes: u64,
    unlooked: u64,
}

impl ReadCount {
    /// Nothing was read yet.
    pub fn new() -> Self {
        ReadCount {
            bytes: 0,
            unlooked: 0,
        }
    }

    /// How many bytes were read.
    pub fn bytes(&self) -> u64 {
        self.bytes
    }

    /// Counts a read of so many bytes, and answers whether the clock is to be looked at: after 1 MiB, or 256 reads.
    pub fn add(&mut self, count: usize) -> bool {
        self.bytes = self.bytes.saturating_add(count as u64);
        self.unlooked = self
            .unlooked
            .saturating_add(count as u64)
            .saturating_add(READ);
        if self.unlooked < WORK {
            return false;
        }
        self.unlooked = 0;
        true
    }
}
