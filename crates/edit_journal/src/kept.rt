ghost use Rattle.std.specs.Prelude.{◌≡◌, ◌≤◌, ◌^◌, length};

use arrayvec::ArrayVec;

/// Bytes that are to be written into a file at a place.
#[derive(Drop)]
pub struct KeptRange {
    pub(crate) at: u64,
    pub(crate) bytes: ArrayVec<u8, 1024>,
    ghost low: { at ≤ 2 ^ 42 },
    ghost some: { 1 ≤ length bytes.items },
}

impl KeptRange {
    /// These bytes at this place.
    pub fn new(at: u64, bytes: &[u8]) -> Self
        requires low { at ≤ 2 ^ 42 }
        requires some { 1 ≤ length bytes.now }
        requires few { length bytes.now ≤ 1024 }
        ensures at { result.at ≡ at }
        ensures bytes { result.bytes.items ≡ bytes.now }
    {
        let mut kept = ArrayVec::new();
        for byte in bytes {
            kept.push(*byte);
        }
        KeptRange { at, bytes: kept }
    }

    /// The place of the first of the bytes.
    pub fn at(&self) -> u64
        ensures value { result ≡ self.now.at }
        ensures low { result ≤ 2 ^ 42 }
    {
        self.at
    }

    /// The bytes.
    pub fn bytes(&self) -> &[u8]
        ensures value { result.now ≡ self.now.bytes.items }
        ensures some { 1 ≤ length result.now }
        ensures few { length result.now ≤ 1024 }
    {
        self.bytes.as_slice()
    }
}

impl Default for KeptRange {
    /// One byte 0 at place 0.
    fn default() -> Self {
        KeptRange::new(0, &[0])
    }
}
