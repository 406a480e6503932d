ghost use Rattle.std.specs.Prelude.{◌≡◌, IfOk};
ghost use Rattle.std.specs.Option.{option_copied};
ghost use Rattle.command_words.specs.Modes.{common_of};
ghost use Rattle.option_words.specs.Given.{export_given, exports_given, given_options};

use crate::Common;
use crate::mode::kind_asked;
use option_words::{ExportOption, ExportOptions, ExportWords, Given, OperandWord};
use refusals::Word;
use std::alloc::{AllocError, Global};

/// A copy of an operand.
pub fn word_of(alloc: Global, operand: &OperandWord<'_>) -> Result<Word, AllocError>
    ensures { IfOk result (λ word. word ≡ operand.now.text.now) }
{
    Word::copy_of(alloc, operand.text)
}

/// A copy of the value of an option, where it was given.
pub fn copy_given(alloc: Global, value: Option<&str>) -> Result<Option<Word>, AllocError>
    ensures { IfOk result (λ word. word ≡ option_copied value.entry) }
{
    match value {
        Some(value) => Ok(Some(Word::copy_of(alloc, value)?)),
        None => Ok(None),
    }
}

/// What the options say of the file.
pub fn common_of(alloc: Global, given: &Given<'_>) -> Result<Common, AllocError>
    ensures { IfOk result (λ common. common ≡ common_of (given_options given.now)) }
{
    let names = copy_given(alloc, given.names)?;
    Ok(Common {
        kind: kind_asked(&given.flags),
        format: given.format,
        names,
    })
}

/// A copy of the exports.
pub fn exports_of(alloc: Global, exports: &[ExportWords<'_>]) -> Result<ExportOptions, AllocError>
    ensures { IfOk result (λ list. list ≡ exports_given exports.now) }
{
    let mut list = Vec::new(alloc);
    for export in exports {
        list.push(export_of(alloc, export)?)?;
    }
    Ok(ExportOptions::from_vec(list))
}

/// A copy of an export.
fn export_of(alloc: Global, export: &ExportWords<'_>) -> Result<ExportOption, AllocError>
    ensures { IfOk result (λ copy. copy ≡ export_given export.now) }
{
    Ok(ExportOption {
        path: Word::copy_of(alloc, export.path)?,
        kind: export.kind,
        file: Word::copy_of(alloc, export.file)?,
    })
}
