//! The words of disk quotas: kinds and formats of quota files, records, grace periods, fields, and kinds of damage; and
//! numbers in bytes, the lowest first.
//!
//! Units are those of the quota files: block limits are in KiB, the space that is used is in bytes, timers are in
//! seconds since 1970, and grace periods are in seconds.
//!
//! The one promise: which formats are flat and how long their records are, the numbers of kinds, numbers in bytes, null
//! records, KiB, ranges, what a format keeps of a record, and timers are those of the definitions in `specs/`.
#![tactic(auto)]

mod damage;
mod field;
mod file_kind;
mod keeping;
mod little_endian;
mod ranges;
mod record;
mod timers;
mod wanted;

pub use damage::{Damage, DamageKind, damage_at};
pub use field::{Field, NoRoom};
pub use file_kind::{Format, Kind};
pub use keeping::kept;
pub use little_endian::{
    le16_at, le32_at, le64_at, set_le16_at, set_le32_at, set_le32s_at, set_le64_at, set_le64s_at,
};
pub use ranges::{check_grace, check_record, fits, grace_fits};
pub use record::{Entry, Grace, Rec};
pub use timers::{is_exceeded, next_timers};
pub use wanted::{kept_timed, next_kept};
