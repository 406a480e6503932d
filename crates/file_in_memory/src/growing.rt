ghost use Rattle.std.specs.Prelude.{◌≡◌, ◌+◌, ◌-◌, ◌<◌, ◌≤◌, ◌^◌, ◌++◌, length, take, drop, replicate, vec_capacity};
ghost use Rattle.std.specs.Prelude.{OnOk, OnErr};
ghost use Rattle.file_in_memory.specs.Capacity.{IsCapacityAfter};
ghost use Rattle.outside.specs.World.{overwritten};

use std::alloc::AllocError;

/// Writes bytes over those of a file from place `at` on. A gap past the old end is filled with zeros.
///
/// # Errors
///
/// The file would be longer than there is memory for. It is as before.
pub fn overwrite(file: &mut Vec<u8>, at: usize, bytes: &[u8]) -> Result<(), AllocError>
    requires { at + length bytes.now < 2 ^ 63 }
    ensures ok { OnOk result (file.new.items ≡ overwritten file.old.items at bytes.now) }
    ensures err { OnErr result (file.new.items ≡ file.old.items) }
    ensures longer { OnErr result (length file.old.items < at + length bytes.now) }
    ensures room { IsCapacityAfter (vec_capacity file.old) (vec_capacity file.new) (at + length bytes.now) }
{
    let end = at + bytes.len();
    make_room(file, end)?;
    fill_up(file, end);
    copy_over(file, at, bytes);
    Ok(())
}

/// Makes room for a file of this length, and where it has to grow at least doubles what there is.
fn make_room(file: &mut Vec<u8>, len: usize) -> Result<(), AllocError>
    requires { len < 2 ^ 63 }
    ensures same { file.new.items ≡ file.old.items }
    ensures ok { OnOk result (len ≤ vec_capacity file.new) }
    ensures err { OnErr result (vec_capacity file.old < len) }
    ensures room { IsCapacityAfter (vec_capacity file.old) (vec_capacity file.new) len }
{
    let room = file.capacity();
    if len <= room {
        return Ok(());
    }
    file.reserve_exact(len.max(2 * room) - file.len())?;
    Ok(())
}

/// Fills a file up with zeros to this length where it is shorter. There is room for that.
fn fill_up(file: &mut Vec<u8>, len: usize)
    requires { len ≤ vec_capacity file.old }
    ensures filled { file.new.items ≡ file.old.items ++ replicate (len - length file.old.items) 0 }
    ensures room { vec_capacity file.new ≡ vec_capacity file.old }
{
    while file.len() < len {
        file.push_reserved(0);
    }
}

/// Writes bytes over those of a file that reaches far enough.
fn copy_over(file: &mut [u8], at: usize, bytes: &[u8])
    requires { at + length bytes.now ≤ length file.old }
    ensures { file.new ≡ take at file.old ++ bytes.now ++ drop (at + length bytes.now) file.old }
{
    file[at..at + bytes.len()].copy_from_slice(bytes);
}
