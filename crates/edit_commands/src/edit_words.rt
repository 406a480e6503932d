ghost use Rattle.std.specs.Prelude.{◌≡◌, MatchResult, Option};
ghost use Rattle.refusals.specs.Outcome.{Passed, Refused};
ghost use Rattle.edit_commands.specs.EditWords.{edit_read, names_wanted};

use crate::EditWords;
use crate::edit::FileEdit;
use id_names::Names;
use refusals::{Refusal, Word};
use run_steps::{read_grace, read_identifier, read_limits, read_time};
use std::alloc::Global;

/// The file of names that words ask for an edit with: the words of new grace periods name no identifier, so for them
/// none is read.
pub fn names_wanted(words: &EditWords, names: Option<Word>) -> Option<Word>
    ensures { result ≡ names_wanted words.now names }
{
    match words {
        EditWords::Grace { .. } => None,
        _ => names,
    }
}

/// Reads the words of an edit from left to right. It takes no memory.
///
/// # Errors
///
/// The first word that is faulty is refused.
pub fn read_edit(alloc: Global, names: &Names, words: EditWords) -> Result<FileEdit, Refusal>
    ensures { MatchResult result (λ edit. edit_read names.now words ≡ Passed edit)
        (λ refusal. edit_read names.now words ≡ Refused refusal) }
{
    match words {
        EditWords::Limits { name, limits } => read_limit_edit(alloc, names, name, limits),
        EditWords::Copy { proto, name } => read_copy(names, proto, name),
        EditWords::Grace { block, inode } => Ok(FileEdit::Grace {
            grace: read_grace(block, inode)?,
        }),
        EditWords::Times { name, block, inode } => read_times(names, name, block, inode),
    }
}

/// Reads an identifier and its four limits.
fn read_limit_edit(
    alloc: Global,
    names: &Names,
    name: Word,
    limits: [Word; 4],
) -> Result<FileEdit, Refusal>
    ensures { MatchResult result (λ edit. edit_read names.now (EditWords.Limits name limits) ≡ Passed edit)
        (λ refusal. edit_read names.now (EditWords.Limits name limits) ≡ Refused refusal) }
{
    let id = read_identifier(names, name)?;
    let limits = read_limits(alloc, limits)?;
    Ok(FileEdit::Limits { id, limits })
}

/// Reads the identifier whose limits are copied, and the one that gets them.
fn read_copy(names: &Names, proto: Word, name: Word) -> Result<FileEdit, Refusal>
    ensures { MatchResult result (λ edit. edit_read names.now (EditWords.Copy proto name) ≡ Passed edit)
        (λ refusal. edit_read names.now (EditWords.Copy proto name) ≡ Refused refusal) }
{
    let from = read_identifier(names, proto)?;
    let to = read_identifier(names, name)?;
    Ok(FileEdit::Copy { from, to })
}

/// Reads an identifier and its two times.
fn read_times(names: &Names, name: Word, block: Word, inode: Word) -> Result<FileEdit, Refusal>
    ensures { MatchResult result (λ edit. edit_read names.now (EditWords.Times name block inode) ≡ Passed edit)
        (λ refusal. edit_read names.now (EditWords.Times name block inode) ≡ Refused refusal) }
{
    let id = read_identifier(names, name)?;
    let block = read_time(block)?;
    let inode = read_time(inode)?;
    Ok(FileEdit::Times { id, block, inode })
}
