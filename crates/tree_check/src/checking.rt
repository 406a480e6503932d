ghost use Rattle.std.specs.Prelude.{◌≡◌, ◌+◌, ◌*◌, ◌<◌, ◌≤◌, [], length, IsTrue, IfOk, IfErr, OnOk, is_ok};
ghost use Rattle.entry_codec.specs.Header.{header_of};
ghost use Rattle.entry_codec.specs.Spelling.{AreOf};
ghost use Rattle.quota_types.specs.Format.{IsTreeFormat};
ghost use Rattle.quota_types.specs.declared.damage.Damage.{Damage};
ghost use Rattle.outside.specs.Frame.{OnlyReads};
ghost use Rattle.quota_value.specs.QuotaValue.{QuotaValue};
ghost use Rattle.file_blocks.specs.declared.check_fault.CheckFault.TheVariants.{Damage as Damaged};
ghost use Rattle.tree_check.specs.Check.{IsCheckedIn};
ghost use Rattle.file_blocks.specs.CheckFault.{IsCheckFault};
ghost use Rattle.byte_order.specs.Words.{words_of};
ghost use Rattle.file_blocks.specs.Block.{file_of};
ghost use Rattle.tree_meaning.specs.Defect.{IsTreeDefectIn};
ghost use Rattle.tree_check.specs.Found.{IsLengthDefect};
ghost use Rattle.tree_meaning.specs.TreeFile.{TreeStandsForIn};

use crate::checked::Checked;
use crate::lists::check_lists;
use crate::roles::check_roles;
use byte_order::Order;
use entry_codec::Header;
use file_blocks::CheckFault;
use outside::Store;
use quota_types::{DamageKind, damage_at};
use std::alloc::Global;

/// Checks a tree file that is read in a byte order, whose header is this one, and tells how many records it has and how
/// many blocks are free.
///
/// It succeeds exactly where the file stands for a map, and a damage that it answers is one of the file. It makes in
/// all at most twice as many reads as the header has blocks, whatever it answers and whether or not the store tells its
/// files. Time and memory grow with the blocks and the identifiers; where the data blocks do not ascend with the
/// identifiers, the leaves of the tree are sorted by block first. No clause says so.
///
/// # Errors
///
/// `Store` where the store failed, `Damage` where the file is damaged, and `Memory` where there was not enough memory.
pub fn check<S: Store>(
    alloc: Global,
    store: &mut S,
    name: &str,
    header: &Header,
    order: Order,
) -> Result<Checked, CheckFault>
    requires tree { IsTreeFormat header.now.format }
    requires two { 2 ≤ header.now.blocks }
    ensures checked { IfOk result (λ checked. IsTrue S.tells
        → AreOf header.now (header_of (words_of order (S.seen store.old).files name.now))
        → IsCheckedIn order (file_of (S.seen store.old).files name.now) checked) }
    ensures refused { IfErr result (IsCheckFault (S.seen store.old).faults (S.seen store.new).faults
        (λ damage. IsTrue S.tells
        → AreOf header.now (header_of (words_of order (S.seen store.old).files name.now))
        → IsTreeDefectIn order header.now.format (file_of (S.seen store.old).files name.now)
        (header_of (words_of order (S.seen store.old).files name.now)) damage)) }
    ensures only_damaged { IfErr result (λ fault. (damage : Damage) → fault ≡ Damaged damage → IsTrue S.tells
        → AreOf header.now (header_of (words_of order (S.seen store.old).files name.now))
        → (value : QuotaValue) → ¬ TreeStandsForIn order (file_of (S.seen store.old).files name.now) value) }
    ensures leaves { OnlyReads (is_ok result) name.now (S.seen store.old) (S.seen store.new) }
    ensures reads { (S.seen store.new).reads ≤ (S.seen store.old).reads + 2 * header.now.blocks }
    ensures commits { S.commits [] store.old store.new }
{
    check_length(store, name, header.blocks)?;
    let roles = check_roles(alloc, store, name, header.blocks, header.free, order)?;
    check_lists(alloc, store, name, header, roles.leaves.as_slice(), order)?;
    Ok(Checked {
        used: roles.used,
        free: roles.free,
    })
}

/// Checks that a file of more blocks than header and root is as long as they, by its length alone.
///
/// # Errors
///
/// `Damage` with the number of the blocks that it has whole, where it is shorter, and `Store` where the store failed.
pub fn check_length<S: Store>(store: &mut S, name: &str, blocks: u32) -> Result<(), CheckFault>
    ensures long { OnOk result (IsTrue S.tells → 2 < blocks
        → 1024 * blocks ≤ length (file_of (S.seen store.old).files name.now)) }
    ensures refused { IfErr result (IsCheckFault (S.seen store.old).faults (S.seen store.new).faults
        (λ damage. IsTrue S.tells
        → IsLengthDefect (file_of (S.seen store.old).files name.now) blocks damage)) }
    ensures leaves { OnlyReads (is_ok result) name.now (S.seen store.old) (S.seen store.new) }
    ensures reads { (S.seen store.new).reads ≡ (S.seen store.old).reads }
    ensures commits { S.commits [] store.old store.new }
{
    let size = store.size(name)?.unwrap_or(0);
    if blocks > 2 && size < 1024 * u64::from(blocks) {
        return Err(CheckFault::Damage(damage_at(DamageKind::Short, (size / 1024) as u32)));
    }
    Ok(())
}
