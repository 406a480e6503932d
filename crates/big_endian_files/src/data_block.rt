ghost use Rattle.std.specs.Prelude.{◌≡◌, ◌≤◌, ◌<◌, ◌+◌, [], ℕ, List, length, IsTrue, IfErr, OnErr, OnOk, is_ok};
ghost use Rattle.file_blocks.specs.Block.{file_of};
ghost use Rattle.file_blocks.specs.CheckFault.{IsCheckFault};
ghost use Rattle.outside.specs.Frame.{OnlyReads};
ghost use Rattle.quota_types.specs.Times.{times};
ghost use Rattle.big_endian_files.specs.ReadBig.{AreReadUpTo, HoldsBlock};

use file_blocks::{BLOCK, BlockSet, CheckFault, read_block};
use outside::Store;
use quota_types::{DamageKind, damage_at};

/// The data block that was read last.
#[derive(Drop)]
pub(crate) struct DataBlock {
    /// Its number, or 0 where none was read.
    pub number: u32,
    /// Its bytes.
    pub bytes: [u8; BLOCK],
}

impl DataBlock {
    /// None was read.
    pub(crate) fn none() -> DataBlock
        ensures { result.number ≡ 0 }
    {
        DataBlock {
            number: 0,
            bytes: [0; BLOCK],
        }
    }

    /// Reads a data block, unless it is the one that was read last.
    ///
    /// # Errors
    ///
    /// `Damage` where the block was met before, and `Store` where the store failed.
    pub(crate) fn go_to<S: Store>(
        &mut self,
        store: &mut S,
        name: &str,
        number: u32,
        met: &mut BlockSet,
    ) -> Result<(), CheckFault>
        ensures at { OnOk result (self.new.number ≡ number) }
        ensures holds { OnOk result (IsTrue S.tells → HoldsBlock (file_of (S.seen store.old).files name.now) self.old
            → HoldsBlock (file_of (S.seen store.old).files name.now) self.new) }
        ensures read { OnOk result ((blocks first : ℕ) → (numbers : List ℕ) → number < blocks
            → self.old.number ≤ number
            → AreReadUpTo blocks met.old.flags.items numbers self.old.number first (S.seen store.old).reads
            → AreReadUpTo blocks met.new.flags.items numbers number first (S.seen store.new).reads) }
        ensures refused { IfErr result (IsCheckFault (S.seen store.old).faults (S.seen store.new).faults
            (λ damage. (blocks first : ℕ) → (numbers : List ℕ) → number < blocks → self.old.number ≤ number
            → AreReadUpTo blocks met.old.flags.items numbers self.old.number first (S.seen store.old).reads
            → 1 ≤ times numbers number)) }
        ensures few { OnErr result ((blocks first : ℕ) → (numbers : List ℕ) → number < blocks
            → AreReadUpTo blocks met.old.flags.items numbers self.old.number first (S.seen store.old).reads
            → (S.seen store.new).reads + length numbers ≤ first + blocks) }
        ensures leaves { OnlyReads (is_ok result) name.now (S.seen store.old) (S.seen store.new) }
        ensures commits { S.commits [] store.old store.new }
    {
        if number == self.number {
            return Ok(());
        }
        if !met.insert(number) {
            return Err(CheckFault::Damage(damage_at(DamageKind::TwoRoles, number)));
        }
        read_block(store, name, number, &mut self.bytes)?;
        self.number = number;
        Ok(())
    }
}
