ghost use Rattle.std.specs.Prelude.{◌≡◌};
ghost use Rattle.edit_steps.specs.EditStep.{edit_cause};

use refusals::Cause;
use run_steps::file_cause;
use set_edit::EditFault;

/// What is said where an edit was refused.
pub fn edit_cause(fault: EditFault) -> Cause
    ensures { result ≡ edit_cause fault }
{
    match fault {
        EditFault::File(fault) => file_cause(fault),
        EditFault::NoRoom(out) => Cause::NoRoom(out),
    }
}
