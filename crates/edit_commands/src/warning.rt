ghost use Rattle.std.specs.Prelude.{◌≡◌, ◌≢◌, ◌≤◌, ◌++◌, IsTrue, OnErr, OnOk, false};
ghost use Rattle.std.specs.List.{concat};
ghost use Rattle.outside.specs.Count.{Rose};
ghost use Rattle.outside.specs.Text.{AppendsPrefix};
ghost use Rattle.edit_commands.specs.Edits.{warning_if, warning_line, warnings};
ghost use Rattle.edit_commands.specs.EditsInPart.{IsSaidInPart};
ghost use Rattle.edit_commands.specs.EditWords.{skips_none};

use outside::{Sink, SinkFault};
use refusals::{Piece, Place, write_line};
use set_edit::Skipped;

/// Warns of each time that was skipped, that of blocks first.
///
/// # Errors
///
/// The sink failed in a warning, of which it then has a prefix.
pub fn write_warnings<E: Sink>(
    err: &mut E,
    line: Option<u64>,
    skipped: Skipped,
) -> Result<(), SinkFault>
    ensures ok { OnOk result (IsTrue E.tells → (E.seen err.new).written
        ≡ (E.seen err.old).written ++ concat (warnings line skipped)) }
    ensures fault { OnErr result (IsTrue E.tells
        → IsSaidInPart (warnings line skipped) (E.seen err.old).written (E.seen err.new).written) }
    ensures cause { OnErr result (Rose (E.seen err.old).faults (E.seen err.new).faults) }
    ensures later { (E.seen err.old).faults ≤ (E.seen err.new).faults }
    ensures quiet { skipped ≡ skips_none → err.new ≡ err.old }
    ensures some { OnErr result (skipped ≢ skips_none) }
{
    warn_if(
        err,
        line,
        skipped.block,
        b"block time not set, soft limit not exceeded",
    )?;
    warn_if(
        err,
        line,
        skipped.inode,
        b"inode time not set, soft limit not exceeded",
    )
}

/// Warns of a time, where it was skipped.
fn warn_if<E: Sink>(
    err: &mut E,
    line: Option<u64>,
    skipped: bool,
    text: &[u8],
) -> Result<(), SinkFault>
    ensures ok { OnOk result (IsTrue E.tells → (E.seen err.new).written
        ≡ (E.seen err.old).written ++ concat (warning_if skipped (warning_line line text.now))) }
    ensures fault { OnErr result (IsTrue E.tells
        → IsSaidInPart (warning_if skipped (warning_line line text.now)) (E.seen err.old).written
        (E.seen err.new).written) }
    ensures cause { OnErr result (Rose (E.seen err.old).faults (E.seen err.new).faults) }
    ensures later { (E.seen err.old).faults ≤ (E.seen err.new).faults }
    ensures quiet { skipped ≡ false → err.new ≡ err.old }
    ensures some { OnErr result (IsTrue skipped) }
{
    if skipped {
        write_warning(err, line, text)
    } else {
        Ok(())
    }
}

#[tactic(auto, unfolding(crate::specs::Edits::warning_line))]
/// Writes a warning.
fn write_warning<E: Sink>(err: &mut E, line: Option<u64>, text: &[u8]) -> Result<(), SinkFault>
    ensures ok { OnOk result (IsTrue E.tells → (E.seen err.new).written
        ≡ (E.seen err.old).written ++ warning_line line text.now) }
    ensures fault { OnErr result (IsTrue E.tells
        → AppendsPrefix (E.seen err.old).written (E.seen err.new).written (warning_line line text.now)) }
    ensures cause { OnErr result (Rose (E.seen err.old).faults (E.seen err.new).faults) }
    ensures later { (E.seen err.old).faults ≤ (E.seen err.new).faults }
{
    let place = Place {
        line,
        input_line: None,
    };
    write_line(err, place, &[Piece::Text(text)])
}
