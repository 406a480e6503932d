ghost use Rattle.std.specs.Prelude.{◌≡◌, ◌+◌, ◌*◌, ◌≤◌, ◌++◌, length, drop};
ghost use Rattle.rquota_xdr.specs.Question.{Asks};
ghost use Rattle.rquota_xdr.specs.Units.{padded};
ghost use Rattle.rquota_xdr.specs.Reply.{bytes_of};
ghost use Rattle.quota_client.specs.Asking.{limits_call, limits_question};

use arrayvec::ArrayVec;

/// The most bytes of a call for limits: sixteen units, a path of 1,024 bytes, and the identifier.
const MOST_BYTES: usize = 1092;

/// The padding of whole units, as far as one needs it (RFC 4506, section 4.10).
const ZEROS: [u8; 3] = [0; 3];

/// Writes the call by which a client asks for the limits of a user at the start of the buffer, and answers how many
/// bytes it has. The rest of the buffer stays.
///
/// `path` has 1 to 1,024 bytes, of any values. `xid` and the identifiers are any numbers of 32 bits. So a call has 72
/// to 1,092 bytes, in units of 4.
///
/// It is a call of GETQUOTA in version 1 of rquota (`rquota.x`) by a caller of the system (AUTH_SYS of RFC 5531,
/// appendix A), with stamp 0, an empty machine name, no further groups, and an empty verifier of flavor 0.
pub fn write_call(xid: u32, uid: u32, gid: u32, path: &[u8], id: u32, out: &mut [u8; 1092]) -> usize
    requires some { 1 ≤ length path.now }
    requires few { length path.now ≤ 1024 }
    ensures len { result ≡ length (limits_call xid uid gid path.now id) }
    ensures bytes { out.new ≡ limits_call xid uid gid path.now id ++ drop result out.old }
    ensures fits { result ≤ 1092 }
    ensures asks { Asks (limits_call xid uid gid path.now id) (limits_question xid uid gid path.now id) }
{
    let mut call = ArrayVec::new();
    push_units(
        &mut call,
        &[
            xid,
            0,
            2,
            100_011,
            1,
            1,
            1,
            20,
            0,
            0,
            uid,
            gid,
            0,
            0,
            0,
            path.len() as u32,
        ],
    );
    push(&mut call, path);
    push(&mut call, &ZEROS[..padding_of(path.len())]);
    push_units(&mut call, &[id]);
    out[..call.len()].copy_from_slice(call.as_slice());
    call.len()
}

/// How many bytes of padding stand behind this many bytes.
fn padding_of(len: usize) -> usize
    requires { len ≤ 1024 }
    ensures whole { len + result ≡ padded len }
    ensures few { result ≤ 3 }
{
    len.div_ceil(4) * 4 - len
}

/// Appends numbers as units, the highest byte of each first.
fn push_units(call: &mut ArrayVec<u8, MOST_BYTES>, units: &[u32])
    requires { length call.old.items + 4 * length units.now ≤ MOST_BYTES }
    ensures { call.new.items ≡ call.old.items ++ bytes_of units.now }
{
    for unit in units {
        push(call, &unit.to_be_bytes());
    }
}

/// Appends bytes.
fn push(call: &mut ArrayVec<u8, MOST_BYTES>, bytes: &[u8])
    requires { length call.old.items + length bytes.now ≤ MOST_BYTES }
    ensures { call.new.items ≡ call.old.items ++ bytes.now }
{
    call.try_extend_from_slice(bytes).unwrap();
}
