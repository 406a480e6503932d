//! Entries that are removed from their data block, with what follows of it for the lists.

ghost use Rattle.std.specs.Prelude.{◌≡◌, ◌+◌, ◌≤◌, [], length, true, is_ok, IfErr, OnErr, OnOk};
ghost use Rattle.quota_types.specs.Format.{IsTreeFormat};
ghost use Rattle.quota_types.specs.declared.file_kind.Format.{Format as QuotaFormat};
ghost use Rattle.quota_pages.specs.Page.{is_buffered};
ghost use Rattle.quota_pages.specs.Pages.{pages_of};
ghost use Rattle.quota_pages.specs.Used.{UsesPages};
ghost use Rattle.tree_change.specs.Beside.{LendsBeside};
ghost use Rattle.tree_change.specs.ChangeFault.{IsStepFault};
ghost use Rattle.tree_change.specs.Removes.{AwaitsInNoTree, EntersTree, GivesTree, IsNoTreeMisplacing, IsNoTreeOf};
ghost use Rattle.tree_change.specs.Removes.{LeavesTree, RemovesEntry};
ghost use Rattle.tree_change.specs.Shows.{OfChange, OfShown};

use crate::change_fault::ChangeFault;
use crate::clearing::{Cleared, clear_record};
use free_chains::{Heads, enter_entry_list, give_block, leave_entry_list};
use outside::Store;
use quota_pages::Pages;
use quota_types::Format;

/// Takes a block without room out of the entry list. It reads three blocks at most.
///
/// # Errors
///
/// `Store` where the store failed, and `Damage` where a link of the block leads past the last block. The heads are as
/// before.
fn leave_list<S: Store>(
    pages: &mut Pages,
    store: &mut S,
    heads: &mut Heads,
    block: u32,
) -> Result<(), ChangeFault>
    requires room { length (pages_of pages.old) + 3 ≤ 12 }
    ensures left { OnOk result (OfChange S.tells (S.seen store.old) (S.seen store.new) pages.old pages.new
        (λ before after. (format : QuotaFormat) → LeavesTree format block before after heads.old heads.new)) }
    ensures blocks { OnOk result (heads.new.blocks ≡ heads.old.blocks) }
    ensures free { OnOk result (heads.new.free ≡ heads.old.free) }
    ensures beside { OnOk result (LendsBeside [] block heads.old.first S.tells 3
        (S.seen store.old) (S.seen store.new) pages.old pages.new) }
    ensures uses { UsesPages S.tells (is_ok result) 3 (S.seen store.old) (S.seen store.new) pages.old pages.new }
    ensures stays { OnErr result (heads.new ≡ heads.old) }
    ensures refused { IfErr result (IsStepFault (S.seen store.old).faults (S.seen store.new).faults
        (OfShown S.tells (S.seen store.old) pages.old (λ file. (format : QuotaFormat)
        → IsNoTreeMisplacing format file heads.old block))) }
    ensures commits { S.commits [] store.old store.new }
{
    leave_entry_list(pages, store, heads, block)?;
    Ok(())
}

/// Puts a block with room before the entry list. It reads two blocks at most.
///
/// # Errors
///
/// `Store` where the store failed, and `Damage` where the head leads past the last block. The heads are as before.
fn enter_list<S: Store>(
    pages: &mut Pages,
    store: &mut S,
    heads: &mut Heads,
    block: u32,
) -> Result<(), ChangeFault>
    requires room { length (pages_of pages.old) + 2 ≤ 12 }
    ensures entered { OnOk result (OfChange S.tells (S.seen store.old) (S.seen store.new) pages.old pages.new
        (λ before after. (format : QuotaFormat) → EntersTree format block before after heads.old heads.new)) }
    ensures blocks { OnOk result (heads.new.blocks ≡ heads.old.blocks) }
    ensures beside { OnOk result (LendsBeside [] block heads.old.first S.tells 2
        (S.seen store.old) (S.seen store.new) pages.old pages.new) }
    ensures uses { UsesPages S.tells (is_ok result) 2 (S.seen store.old) (S.seen store.new) pages.old pages.new }
    ensures stays { OnErr result (heads.new ≡ heads.old) }
    ensures refused { IfErr result (IsStepFault (S.seen store.old).faults (S.seen store.new).faults
        (OfShown S.tells (S.seen store.old) pages.old (λ file. (format : QuotaFormat)
        → IsNoTreeOf format file heads.old))) }
    ensures commits { S.commits [] store.old store.new }
{
    enter_entry_list(pages, store, heads, block)?;
    Ok(())
}

/// Takes a block without entries, which is buffered, out of the entry list, and puts it before the list of free blocks.
/// It reads three blocks at most.
///
/// # Errors
///
/// `Store` where the store failed, and `Damage` where a link of the block leads past the last block. The heads are as
/// before.
fn give_up<S: Store>(
    pages: &mut Pages,
    store: &mut S,
    heads: &mut Heads,
    block: u32,
) -> Result<(), ChangeFault>
    requires there { is_buffered (pages_of pages.old) block ≡ true }
    requires room { length (pages_of pages.old) + 3 ≤ 12 }
    ensures given { OnOk result (OfChange S.tells (S.seen store.old) (S.seen store.new) pages.old pages.new
        (λ before after. (format : QuotaFormat) → GivesTree format block before after heads.old heads.new)) }
    ensures blocks { OnOk result (heads.new.blocks ≡ heads.old.blocks) }
    ensures beside { OnOk result (LendsBeside [] block heads.old.first S.tells 3
        (S.seen store.old) (S.seen store.new) pages.old pages.new) }
    ensures uses { UsesPages S.tells (is_ok result) 3 (S.seen store.old) (S.seen store.new) pages.old pages.new }
    ensures stays { OnErr result (heads.new ≡ heads.old) }
    ensures refused { IfErr result (IsStepFault (S.seen store.old).faults (S.seen store.new).faults
        (OfShown S.tells (S.seen store.old) pages.old (λ file. (format : QuotaFormat)
        → IsNoTreeMisplacing format file heads.old block))) }
    ensures commits { S.commits [] store.old store.new }
{
    let mut now = *heads;
    leave_list(pages, store, &mut now, block)?;
    give_block(pages, store, &mut now, block)?;
    *heads = now;
    Ok(())
}

/// Removes the entry of an identifier, whose leaf is unlinked, from its block. A block that was full enters the entry
/// list, and one that has no entry then leaves it and is free. It reads four blocks at most.
///
/// # Errors
///
/// `Store` where the store failed, and `Damage` where the identifier uses no entry of the block, or the list leads past
/// the last block. The heads are as before.
pub fn remove_entry<S: Store>(
    pages: &mut Pages,
    store: &mut S,
    heads: &mut Heads,
    format: Format,
    block: u32,
    id: u32,
) -> Result<(), ChangeFault>
    requires tree { IsTreeFormat format }
    requires room { length (pages_of pages.old) + 4 ≤ 12 }
    ensures removed { OnOk result (OfChange S.tells (S.seen store.old) (S.seen store.new) pages.old pages.new
        (λ before after. RemovesEntry format id block before after heads.old heads.new)) }
    ensures blocks { OnOk result (heads.new.blocks ≡ heads.old.blocks) }
    ensures beside { OnOk result (LendsBeside [] block heads.old.first S.tells 4
        (S.seen store.old) (S.seen store.new) pages.old pages.new) }
    ensures uses { UsesPages S.tells (is_ok result) 4 (S.seen store.old) (S.seen store.new) pages.old pages.new }
    ensures stays { OnErr result (heads.new ≡ heads.old) }
    ensures refused { IfErr result (IsStepFault (S.seen store.old).faults (S.seen store.new).faults
        (OfShown S.tells (S.seen store.old) pages.old (λ file. AwaitsInNoTree format file heads.old id block))) }
    ensures commits { S.commits [] store.old store.new }
{
    match clear_record(pages, store, format, block, id)? {
        Cleared::Last => give_up(pages, store, heads, block),
        Cleared::WasFull => enter_list(pages, store, heads, block),
        Cleared::HadRoom => Ok(()),
    }
}
