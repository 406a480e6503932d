ghost use Rattle.std.specs.Prelude.{◌≡◌, ◌+◌, ◌*◌, ◌^◌, ◌<◌, ◌≤◌, ◌++◌, ℕ, vec_len, take, drop, IfOk, OnOk};
ghost use Rattle.entry_codec.specs.Header.{header_of};
ghost use Rattle.entry_codec.specs.Spelling.{AreOf};
ghost use Rattle.quota_types.specs.Bytes.{byte_at};
ghost use Rattle.quota_types.specs.Format.{IsTreeFormat};

use entry_codec::{Header, write_header};
use std::alloc::{AllocError, Global};

/// A file that is written block by block.
#[derive(Drop)]
pub(crate) struct NewFile {
    /// Its bytes.
    pub bytes: Vec<u8>,
    /// How many blocks it has.
    pub blocks: u32,
    ghost whole: { vec_len bytes ≡ 1024 * blocks },
}

impl NewFile {
    /// The file that has a header and an empty root.
    pub(crate) fn new(alloc: Global, header: &Header) -> Result<NewFile, AllocError>
        requires tree { IsTreeFormat header.now.format }
        requires two { 2 ≤ header.now.blocks }
        requires block_grace { header.now.grace.block < 2 ^ 32 }
        requires inode_grace { header.now.grace.inode < 2 ^ 32 }
        ensures blocks { IfOk result (λ file. file.blocks ≡ 2) }
        ensures header { IfOk result (λ file. AreOf header.now (header_of (take 1024 file.bytes.items))) }
        ensures rest { IfOk result (λ file. (at : ℕ) → 32 ≤ at → at < 1024
            → byte_at (take 1024 file.bytes.items) at ≡ 0) }
    {
        let mut block = [0; 1024];
        write_header(header, &mut block);
        let mut bytes = Vec::from_slice(alloc, &block)?;
        bytes.extend_from_slice(&[0; 1024])?;
        Ok(NewFile { bytes, blocks: 2 })
    }

    /// Appends a block, and answers its number.
    pub(crate) fn append(&mut self, block: &[u8; 1024]) -> Result<u32, AllocError>
        requires { self.old.blocks + 1 < 2 ^ 32 }
        ensures number { IfOk result (λ number. number ≡ self.old.blocks) }
        ensures bytes { OnOk result (self.new.bytes.items ≡ self.old.bytes.items ++ block.now) }
        ensures blocks { OnOk result (self.new.blocks ≡ self.old.blocks + 1) }
    {
        self.bytes.extend_from_slice(block)?;
        let number = self.blocks;
        self.blocks += 1;
        Ok(number)
    }

    /// Writes the block of the root.
    pub(crate) fn set_root(&mut self, root: &[u8; 1024])
        requires { 2 ≤ self.old.blocks }
        ensures bytes { self.new.bytes.items ≡ take 1024 self.old.bytes.items
            ++ (root.now ++ drop 2048 self.old.bytes.items) }
        ensures blocks { self.new.blocks ≡ self.old.blocks }
    {
        self.bytes[1024..2048].copy_from_slice(root);
    }
}
