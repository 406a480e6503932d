ghost use Rattle.std.specs.Prelude.{◌≡◌, ◌+◌, ◌*◌, ◌≤◌, ◌++◌, length, drop, is_some, IfSome};
ghost use Rattle.rquota_xdr.specs.Units.{unit_at, units_from, opaque_end, is_opaque};
ghost use Rattle.rquota_xdr.specs.Reply.{bytes_of};

use crate::Span;
use arrayvec::ArrayVec;

/// The number of the unit at a place.
pub(crate) fn unit_at(bytes: &[u8], at: usize) -> u32
    requires { at + 4 ≤ length bytes.now }
    ensures { result ≡ unit_at bytes.now at }
{
    u32::from_be_bytes([bytes[at], bytes[at + 1], bytes[at + 2], bytes[at + 3]])
}

/// The numbers of this many units from a place on.
#[tactic(auto, using(crate::proofs::UnitLemmas::one_unit_more), unfolding(crate::specs::Units::units_from))]
pub(crate) fn units_from<const N: usize>(bytes: &[u8], at: usize, count: usize) -> ArrayVec<u32, N>
    requires few { count ≤ N }
    requires inside { at + 4 * count ≤ length bytes.now }
    ensures { result.items ≡ units_from bytes.now at count }
{
    let mut units = ArrayVec::new();
    for place in 0..count {
        units.push(unit_at(bytes, at + 4 * place));
    }
    units
}

/// Writes the numbers as units from the start on, and leaves the other bytes.
pub(crate) fn put_units(bytes: &mut [u8], units: &[u32])
    requires { 4 * length units.now ≤ length bytes.old }
    ensures { bytes.new ≡ bytes_of units.now ++ drop (4 * length units.now) bytes.old }
{
    for (place, unit) in units.iter().enumerate() {
        bytes[4 * place..4 * place + 4].copy_from_slice(&unit.to_be_bytes());
    }
}

/// Variable-length data of a datagram.
#[derive(Clone, Copy)]
pub(crate) struct Opaque {
    /// Its bytes.
    pub(crate) body: Span,
    /// The place behind its padding.
    pub(crate) end: usize,
}

/// The variable-length data at a place, where it has at most this many bytes and all of it stands before the end.
#[tactic(auto, unfolding(crate::specs::Units::is_opaque, crate::specs::Units::opaque_end))]
pub(crate) fn opaque_at(bytes: &[u8], at: usize, most: usize, end: usize) -> Option<Opaque>
    requires at { at ≤ length bytes.now + 8 }
    requires end { end ≤ length bytes.now }
    ensures found { is_some result ≡ is_opaque bytes.now at most end }
    ensures start { IfSome result (λ found. found.body.start ≡ at + 4) }
    ensures len { IfSome result (λ found. found.body.len ≡ unit_at bytes.now at) }
    ensures end { IfSome result (λ found. found.end ≡ opaque_end bytes.now at) }
    ensures few { IfSome result (λ found. found.body.len ≤ most) }
    ensures inside { IfSome result (λ found. found.end ≤ end) }
    ensures body { IfSome result (λ found. found.body.start + found.body.len ≤ found.end) }
{
    if at + 4 > end {
        return None;
    }
    let len = unit_at(bytes, at) as usize;
    let start = at + 4;
    let behind = start + len.div_ceil(4) * 4;
    if len > most || behind > end {
        return None;
    }
    Some(Opaque {
        body: Span { start, len },
        end: behind,
    })
}
