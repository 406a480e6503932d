ghost use Rattle.std.specs.Prelude.{◌≡◌, ◌≢◌, IfErr, IsTrue, OnErr, OnOk, false, is_ok};
ghost use Rattle.outside.specs.ManyCalls.{Syncs};
ghost use Rattle.outside.specs.Replacement.{replacement_name};
ghost use Rattle.outside.specs.World.{KeepsOthers};
ghost use Rattle.quota_map.specs.Replacing.{CommitsReplaced};
ghost use Rattle.convert.specs.Convert.{IsConvertFault, IsMade, IsMadeOf, UnlessMaking, asked_for};
ghost use Rattle.convert.specs.Leaves.{IsKeptSafe, LeavesOthers, OnlyLooks};

use crate::ConvertFault;
use crate::keeping::keep_entries;
use crate::source::{Carried, read_source};
use opened_file::OpenFault;
use outside::Store;
use quota_map::replace_file;
use quota_types::{Format, Kind};
use std::alloc::Global;

/// Makes a file of name `to` and format `new` from the file of name `from` and format `old`, in which a tree file may
/// have at most `limit` blocks. It has the same grace periods and what its format keeps of each record that limits or
/// counts something, and no flags. Nothing is written before all of it is known to fit, and no file is written over.
///
/// # Errors
///
/// The first cause that holds, in the order of `ConvertFault`: the names are the same, there is a target, the source is
/// not opened, the new format has no room for a value, or the target would need more blocks than `limit`. `NoRoom`
/// names the grace period for blocks, then the one for inodes, then the least identifier with such a value and its
/// first such field; records without limits and usage are not looked at. Or the store failed, or there is not enough
/// memory. The source is as before in every case, and there is no target that was not there.
pub fn convert<S: Store>(
    alloc: Global,
    store: &mut S,
    from: &str,
    to: &str,
    old: Format,
    new: Format,
    kind: Kind,
    limit: u32,
) -> Result<(), ConvertFault>
    requires { from.now ≢ replacement_name to.now }
    ensures made { OnOk result
        (IsMade S.tells (asked_for from.now to.now old new kind limit) (S.seen store.old) (S.seen store.new)) }
    ensures refused { IfErr result (IsConvertFault S.tells (asked_for from.now to.now old new kind limit)
        (S.seen store.old) (S.seen store.new)) }
    ensures unwritten { IfErr result (λ fault. UnlessMaking fault
        (OnlyLooks from.now to.now (S.seen store.old) (S.seen store.new))) }
    // Where it was refused there is no target that was not there, after a fault of the store too.
    ensures unchanged { OnErr result
        (KeepsOthers (replacement_name to.now) (S.seen store.old).files (S.seen store.new).files) }
    ensures source { (S.seen store.new).files from.now ≡ (S.seen store.old).files from.now }
    ensures leaves { LeavesOthers from.now to.now (S.seen store.old) (S.seen store.new) }
    ensures synced { OnOk result (IsTrue S.tells → IsKeptSafe to.now (S.seen store.old) (S.seen store.new)) }
    // Where it was refused what was written has been synced too, unless a call on the store failed.
    ensures left_synced { OnErr result (Syncs false (S.seen store.old) (S.seen store.new)) }
    // Nothing is committed, or once the files with the new one, whether or not it got its name then.
    ensures commits { IsTrue S.tells → CommitsReplaced (is_ok result) to.now
        (IsMadeOf S.tells (asked_for from.now to.now old new kind limit) (S.seen store.old).files)
        (S.seen store.old).files (S.seen store.new).files (λ worlds. S.commits worlds store.old store.new) }
{
    if from == to {
        return Err(ConvertFault::SameName);
    }
    match store.size(to) {
        Ok(None) => {}
        Ok(Some(_)) => return Err(ConvertFault::TargetExists),
        Err(_) => return Err(ConvertFault::Open(OpenFault::Store)),
    }
    let carried = match read_source(alloc, store, from, kind, old) {
        Ok(carried) => carried,
        Err(fault) => return Err(fault),
    };
    let Carried { grace, mut entries } = carried;
    match keep_entries(new, &grace, &mut entries) {
        Ok(()) => {}
        Err(out) => return Err(ConvertFault::NoRoom(out)),
    }
    match replace_file(
        alloc,
        store,
        to,
        new,
        kind,
        grace,
        0,
        entries.as_slice(),
        limit,
    ) {
        Ok(()) => Ok(()),
        Err(fault) => Err(ConvertFault::Replace(fault)),
    }
}
