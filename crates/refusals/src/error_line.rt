ghost use Rattle.std.specs.Prelude.{◌≡◌, ◌≤◌, ◌++◌, IsTrue, OnOk, OnErr};
ghost use Rattle.outside.specs.Count.{Rose};
ghost use Rattle.outside.specs.Text.{AppendsPrefix};
ghost use Rattle.refusals.specs.Line.{error_line};
ghost use Rattle.refusals.specs.Said.{AppendsUnless};
ghost use Rattle.refusals.specs.Status.{status_of};

use crate::pieces::pieces_of;
use crate::{Cause, Place, Refusal, write_line};
use outside::{Sink, SinkFault};

/// Writes the error line of a refusal, and answers its status, which stays where the error output fails.
pub fn refuse<E: Sink>(err: &mut E, refusal: &Refusal) -> u8
    ensures status { result ≡ status_of refusal.now.cause }
    ensures line { IsTrue E.tells → AppendsUnless (Rose (E.seen err.old).faults (E.seen err.new).faults)
        (E.seen err.old).written (E.seen err.new).written (error_line refusal.now) }
    ensures later { (E.seen err.old).faults ≤ (E.seen err.new).faults }
{
    let _ = write_error_line(err, refusal);
    refusal.cause.status()
}

/// Writes the error line of a refusal.
///
/// # Errors
///
/// The sink failed. It then has a prefix of the line.
pub fn write_error_line<O: Sink>(sink: &mut O, refusal: &Refusal) -> Result<(), SinkFault>
    ensures ok { OnOk result (IsTrue O.tells → (O.seen sink.new).written
        ≡ (O.seen sink.old).written ++ error_line refusal.now) }
    ensures fault { OnErr result (IsTrue O.tells → AppendsPrefix (O.seen sink.old).written (O.seen sink.new).written
        (error_line refusal.now)) }
    ensures cause { OnErr result (Rose (O.seen sink.old).faults (O.seen sink.new).faults) }
    ensures later { (O.seen sink.old).faults ≤ (O.seen sink.new).faults }
{
    let name = refusal.name.as_str().as_bytes();
    write_cause(sink, refusal.place, refusal.cause, name)
}

#[tactic(auto, unfolding(crate::specs::Line::error_line))]
/// Writes the error line on a cause, and on the file or the word that it is about, by its bytes: the same line as that
/// of a refusal, for who has no memory for one. `name` is empty where the cause is about none.
///
/// # Errors
///
/// The sink failed. It then has a prefix of the line.
pub fn write_cause<O: Sink>(
    sink: &mut O,
    place: Place,
    cause: Cause,
    name: &[u8],
) -> Result<(), SinkFault>
    ensures ok { OnOk result (IsTrue O.tells → (O.seen sink.new).written
        ≡ (O.seen sink.old).written ++ error_line (record { cause = cause; name = name.now; place = place })) }
    ensures fault { OnErr result (IsTrue O.tells → AppendsPrefix (O.seen sink.old).written (O.seen sink.new).written
        (error_line (record { cause = cause; name = name.now; place = place }))) }
    ensures cause { OnErr result (Rose (O.seen sink.old).faults (O.seen sink.new).faults) }
    ensures later { (O.seen sink.old).faults ≤ (O.seen sink.new).faults }
{
    write_line(sink, place, &pieces_of(cause, name))
}
