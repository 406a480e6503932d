ghost use Rattle.std.specs.Prelude.{◌≡◌, IfOk};
ghost use Rattle.option_words.specs.Given.{export_given, exports_given};

use option_words::{ExportOption, ExportOptions, ExportWords};
use refusals::Word;
use std::alloc::{AllocError, Global};

// Commands make the same copy, in a crate that knows all commands.
/// A copy of the files that words name.
///
/// # Errors
///
/// There is not enough memory.
pub fn copy_exports(alloc: Global, exports: &[ExportWords<'_>]) -> Result<ExportOptions, AllocError>
    ensures { IfOk result (λ list. list ≡ exports_given exports.now) }
{
    let mut list = Vec::new(alloc);
    for export in exports {
        list.push(copy_export(alloc, export)?)?;
    }
    Ok(ExportOptions::from_vec(list))
}

/// A copy of a file that words name.
fn copy_export(alloc: Global, export: &ExportWords<'_>) -> Result<ExportOption, AllocError>
    ensures { IfOk result (λ copy. copy ≡ export_given export.now) }
{
    Ok(ExportOption {
        path: Word::copy_of(alloc, export.path)?,
        kind: export.kind,
        file: Word::copy_of(alloc, export.file)?,
    })
}
