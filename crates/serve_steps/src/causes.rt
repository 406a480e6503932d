ghost use Rattle.std.specs.Prelude.{◌≡◌, [], IfErr, IfOk};
ghost use Rattle.refusals.specs.Refusals.{refusal_of};
ghost use Rattle.refusals.specs.declared.cause.Cause.TheVariants.{Memory};
ghost use Rattle.serve_steps.specs.Exporting.{first_file};
ghost use Rattle.serve_steps.specs.ServeCauses.{serve_cause};

use option_words::ExportOption;
use refusals::{Cause, Refusal, Word};
use rquota_serve::ServeFault;
use run_steps::file_cause;
use std::alloc::Global;

/// A copy of the name of the first file, which is named where a file is found damaged while calls are answered.
///
/// # Errors
///
/// There is not enough memory.
pub fn first_file(alloc: Global, exports: &[ExportOption]) -> Result<Word, Refusal>
    ensures copied { IfOk result (λ file. file ≡ first_file exports.now) }
    ensures wanting { IfErr result (λ refusal. refusal ≡ refusal_of Memory []) }
{
    let Some(export) = exports.first() else {
        return Ok(Word::empty(alloc));
    };
    match Word::copy_of(alloc, export.file.as_str()) {
        Ok(file) => Ok(file),
        Err(_) => Err(Refusal::of(Cause::Memory, Word::empty(alloc))),
    }
}

/// What is said where calls were not answered.
pub fn serve_cause(fault: ServeFault) -> Cause
    ensures { result ≡ serve_cause fault }
{
    match fault {
        ServeFault::Link => Cause::LinkFault,
        ServeFault::File(fault) => file_cause(fault),
    }
}
