ghost use Rattle.std.specs.Prelude.{◌≡◌, false, None, Some, IsTrue, IfErr, IfOk, OnOk};
ghost use Rattle.std.specs.Option.{option_map};
ghost use Rattle.quota_types.specs.Range.{grace_unfit, is_grace, is_id, is_number, is_space, is_time, unfit};

use crate::{Field, Format, Grace, NoRoom, Rec};

/// The greatest identifier of a flat file.
const MAX_FLAT_ID: u32 = 1_048_575;

/// The least number that 32 bits do not hold.
const PAST_32_BITS: u64 = 1 << 32;

fn has_id(format: Format, id: u32) -> bool
    ensures { result ≡ is_id format id }
{
    match format {
        Format::V1 | Format::V1R32 => id <= MAX_FLAT_ID,
        Format::V2R0 | Format::V2R1 => true,
    }
}

fn has_number(format: Format, number: u64) -> bool
    ensures { result ≡ is_number format number }
{
    match format {
        Format::V1 | Format::V1R32 | Format::V2R0 => number < PAST_32_BITS,
        Format::V2R1 => true,
    }
}

fn has_space(format: Format, space: u64) -> bool
    ensures { result ≡ is_space format space }
{
    match format {
        Format::V1 | Format::V1R32 => space.div_ceil(1024) < PAST_32_BITS,
        Format::V2R0 | Format::V2R1 => true,
    }
}

fn has_grace(format: Format, seconds: u64) -> bool
    ensures { result ≡ is_grace format seconds }
{
    match format {
        Format::V1 => seconds > 0,
        Format::V1R32 => seconds > 0 && seconds < PAST_32_BITS,
        Format::V2R0 | Format::V2R1 => seconds < PAST_32_BITS,
    }
}

fn has_time(format: Format, seconds: u64) -> bool
    ensures { result ≡ is_time format seconds }
{
    match format {
        Format::V1R32 => seconds < PAST_32_BITS,
        Format::V1 | Format::V2R0 | Format::V2R1 => true,
    }
}

/// Refuses a value that does not fit.
fn check(fits: bool, id: u32, field: Field, value: u64) -> Result<(), NoRoom>
    ensures fits { OnOk result (IsTrue fits) }
    ensures refused { IfErr result (λ out. out ≡ record { id = id; field = field; value = value }) }
    ensures unfit { IfErr result (λ _. fits ≡ false) }
{
    if fits {
        Ok(())
    } else {
        Err(NoRoom {
            id,
            field,
            value: u128::from(value),
        })
    }
}

/// A timer, in seconds since 1970, that may be a sum beyond 64 bits: refused where the format has no room for it.
fn check_time(format: Format, id: u32, field: Field, seconds: u128) -> Result<u64, NoRoom>
    ensures timer { IfOk result (λ timer. timer ≡ seconds) }
    ensures fits { OnOk result (IsTrue (is_time format seconds)) }
    ensures refused { IfErr result (λ out. out ≡ record { id = id; field = field; value = seconds }) }
    ensures unfit { IfErr result (λ _. is_time format seconds ≡ false) }
{
    let no_room = NoRoom {
        id,
        field,
        value: seconds,
    };
    match u64::try_from(seconds) {
        Ok(timer) if has_time(format, timer) => Ok(timer),
        _ => Err(no_room),
    }
}

/// An identifier's record with these timers, in seconds since 1970, each of which may be a sum beyond 64 bits.
///
/// # Errors
///
/// The first field for which the format has no room, in the order of `Field`, with its value; that of the space is in
/// bytes.
pub(crate) fn with_timers(
    format: Format,
    id: u32,
    rec: Rec,
    btime: u128,
    itime: u128,
) -> Result<Rec, NoRoom>
    ensures timed { IfOk result (λ timed. timed ≡ record rec { btime = btime; itime = itime }) }
    ensures fits { OnOk result (unfit format id (record rec { btime = btime; itime = itime }) ≡ None) }
    ensures refused { IfErr result (λ out. unfit format id (record rec { btime = btime; itime = itime })
        ≡ Some (out.field, out.value)) }
    ensures id { IfErr result (λ out. out.id ≡ id) }
{
    check(has_id(format, id), id, Field::Id, u64::from(id))?;
    check(has_number(format, rec.ihard), id, Field::Ihard, rec.ihard)?;
    check(has_number(format, rec.isoft), id, Field::Isoft, rec.isoft)?;
    check(
        has_number(format, rec.inodes),
        id,
        Field::Inodes,
        rec.inodes,
    )?;
    check(has_number(format, rec.bhard), id, Field::Bhard, rec.bhard)?;
    check(has_number(format, rec.bsoft), id, Field::Bsoft, rec.bsoft)?;
    check(has_space(format, rec.space), id, Field::Space, rec.space)?;
    let btime = check_time(format, id, Field::Btime, btime)?;
    let itime = check_time(format, id, Field::Itime, itime)?;
    Ok(Rec {
        btime,
        itime,
        ..rec
    })
}

/// Refuses an identifier's record for which the format has no room.
///
/// # Errors
///
/// The first field for which the format has no room, in the order of `Field`, with its value; that of the space is in
/// bytes.
pub fn check_record(format: Format, id: u32, rec: &Rec) -> Result<(), NoRoom>
    ensures fits { OnOk result (unfit format id rec.now ≡ None) }
    ensures refused { IfErr result (λ out. unfit format id rec.now ≡ Some (out.field, out.value)) }
    ensures id { IfErr result (λ out. out.id ≡ id) }
{
    let (btime, itime) = (u128::from(rec.btime), u128::from(rec.itime));
    with_timers(format, id, *rec, btime, itime)?;
    Ok(())
}

/// Refuses grace periods for which the format has no room.
///
/// # Errors
///
/// The first period for which the format has no room, that for blocks before that for inodes, with its value.
pub fn check_grace(format: Format, grace: &Grace) -> Result<(), NoRoom>
    ensures fits { OnOk result (grace_unfit format grace.now ≡ None) }
    ensures refused { IfErr result (λ out. grace_unfit format grace.now ≡ Some (out.field, out.value)) }
    ensures id { IfErr result (λ out. out.id ≡ 0) }
{
    let grace = *grace;
    check(
        has_grace(format, grace.block),
        0,
        Field::BlockGrace,
        grace.block,
    )?;
    check(
        has_grace(format, grace.inode),
        0,
        Field::InodeGrace,
        grace.inode,
    )
}

/// The first field of an identifier's record for which the format has no room, in the order of `Field`.
pub fn fits(format: Format, id: u32, rec: &Rec) -> Option<Field>
    ensures { result ≡ option_map (λ out. out.0) (unfit format id rec.now) }
{
    check_record(format, id, rec)
        .err()
        .map(|no_room| no_room.field)
}

/// The first grace period for which the format has no room, that for blocks before that for inodes.
pub fn grace_fits(format: Format, grace: &Grace) -> Option<Field>
    ensures { result ≡ option_map (λ out. out.0) (grace_unfit format grace.now) }
{
    check_grace(format, grace)
        .err()
        .map(|no_room| no_room.field)
}
