ghost use Rattle.std.specs.Prelude.{◌≡◌, ◌+◌, ◌%◌, ◌≤◌, true, Ok, IsTrue, IfOk, IfErr, IsSomeAnd, length, is_ok, []};
ghost use Rattle.quota_types.specs.declared.file_kind.Kind.{Kind};
ghost use Rattle.outside.specs.Frame.{OnlyReads};
ghost use Rattle.quota_value.specs.QuotaValue.{QuotaValue};
ghost use Rattle.quota_types.specs.Format.{is_flat, record_size};
ghost use Rattle.quota_v1.specs.Place.{flat_limit};
ghost use Rattle.quota_v1.specs.View.{IsFlatView};
ghost use Rattle.quota_v1.specs.FlatFaults.{IsFlatFault};

use crate::V1File;
use crate::flat_record::{MOST_RECORD, TIMES, flat_limit, records_in, second_time, time_at};
use crate::slot_file::read_from;
use crate::window::Window;
use opened_file::{FileUse, OpenFault, QuotaFile};
use outside::Store;
use quota_types::{Damage, DamageKind, Format, Grace};
use std::alloc::Global;

/// Opens a flat file of a format, of which record 0 is read for its times, and nothing else. Nothing in a file tells
/// which flat format it has.
///
/// # Errors
///
/// It is refused where there is no such file, where it has more bytes than 1,048,576 records of the format (41,943,040
/// where it is vfsold, and 33,554,432 where it is vfsold32), and where it does not consist of whole records, in this
/// order; and where the store failed or there was not enough memory.
pub fn open_v1<S: Store>(
    alloc: Global,
    store: &mut S,
    name: &str,
    format: Format,
) -> Result<V1File, OpenFault>
    requires { is_flat format ≡ true }
    ensures seen { IfOk result (λ file. IsTrue S.tells → (kind : Kind) → (value : QuotaValue)
        × IsFlatView format ((S.seen store.old).files name.now) kind (Ok value)) }
    ensures held { IfOk result (λ file. IsTrue S.tells → (kind : Kind) → (value : QuotaValue)
        → IsFlatView format ((S.seen store.old).files name.now) kind (Ok value)
        → ⟦<V1File as QuotaFile<S>>⟧.holds file store.new value) }
    ensures fresh { IfOk result (λ file. ⟦<V1File as QuotaFile<S>>⟧.seen file
        ≡ record { name = name.now; format = format; usable = true; limit = 0; refusals = 0 }) }
    ensures refused { IfErr result (IsFlatFault format (S.seen store.old).faults (S.seen store.new).faults S.tells
        ((S.seen store.old).files name.now)) }
    ensures leaves { OnlyReads (is_ok result) name.now (S.seen store.old) (S.seen store.new) }
    ensures reads { (S.seen store.new).reads ≤ (S.seen store.old).reads + 1 }
    ensures commits { S.commits [] store.old store.new }
{
    let own_name = match String::from_str(alloc, name) {
        Ok(own_name) => own_name,
        Err(_) => return Err(OpenFault::Memory),
    };
    let len = accepted_len(store, name, format)?;
    let mut first = [0; MOST_RECORD];
    let Ok(_) = read_from(store, name, 0, &mut first) else {
        return Err(OpenFault::Store);
    };
    Ok(V1File {
        name: own_name,
        opened: FileUse::new(),
        format,
        len,
        times: Grace {
            block: time_at(format, &first, TIMES),
            inode: time_at(format, &first, second_time(format)),
        },
        window: Window::none(),
    })
}

/// How many bytes a file has, where it consists of whole records and has no more than it may have.
fn accepted_len<S: Store>(store: &mut S, name: &str, format: Format) -> Result<u64, OpenFault>
    requires { is_flat format ≡ true }
    ensures there { IfOk result (λ len. IsTrue S.tells
        → IsSomeAnd ((S.seen store.old).files name.now) (λ file. length file ≡ len)) }
    ensures whole { IfOk result (λ len. len % record_size format ≡ 0) }
    ensures limited { IfOk result (λ len. len ≤ flat_limit format) }
    ensures refused { IfErr result (IsFlatFault format (S.seen store.old).faults (S.seen store.new).faults S.tells
        ((S.seen store.old).files name.now)) }
    ensures leaves { OnlyReads (is_ok result) name.now (S.seen store.old) (S.seen store.new) }
    ensures reads { (S.seen store.new).reads ≡ (S.seen store.old).reads }
    ensures commits { S.commits [] store.old store.new }
{
    let len = match store.size(name) {
        Ok(Some(len)) => len,
        Ok(None) => return Err(OpenFault::NoFile),
        Err(_) => return Err(OpenFault::Store),
    };
    let limit = flat_limit(format);
    if len > limit {
        return Err(OpenFault::TooLarge { number: len, limit });
    }
    if len % format.record_size() as u64 != 0 {
        return Err(OpenFault::Damage(Damage {
            kind: DamageKind::PartialRecord,
            block: records_in(format, len),
            id: 0,
        }));
    }
    Ok(len)
}
