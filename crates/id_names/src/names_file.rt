ghost use Rattle.std.specs.Prelude.{◌≡◌, ◌++◌, [], false, None, IfErr, IfOk, IfSome, IsTrue, OnOk};
ghost use Rattle.id_names.specs.Fault.{IsBadLine, IsFaultOf};
ghost use Rattle.id_names.specs.FirstMatch.{first_id, first_name};
ghost use Rattle.id_names.specs.Index.{IsIndex, kept_lines};
ghost use Rattle.id_names.specs.NamesFile.{bad_line, is_bad, is_name, names_in, told_by};
ghost use Rattle.std.specs.Option.{option_copied, option_to_list};

use crate::NamesFault;
use crate::index::Index;
use crate::line::{is_passed_over, read_line};
use crate::parts::split_once;
use quota_types::Kind;
use std::alloc::Global;
use std::marker::Model;

/// The lines of a file of names, in the file's order: contracts see this type as their list. Look-ups go by an index,
/// and not from line to line.
#[derive(Drop)]
pub struct Names {
    index: Index,
}

impl Model for Names {
    ghost use Rattle.std.specs.Prelude.{List};
    ghost use Rattle.id_names.specs.NamesFile.{NameLine};
    ghost use Rattle.id_names.specs.Index.{IsIndex, kept_lines};

    ghost Value = { List NameLine };

    ghost view = { λ names. kept_lines names.index };

    ghost invariant = { λ names. IsIndex names.index };
}

impl Names {
    /// No lines. This takes no memory: the allocator is only kept.
    pub fn none(alloc: Global) -> Names
        ensures { result ≡ [] }
    {
        Names {
            index: Index::new(alloc),
        }
    }

    /// Reads the bytes of a file in the form of passwd(5) for users, of group(5) for groups, or of projid(5) for
    /// projects. Empty lines, and those that begin with `#`, `+` or `-`, are passed over.
    ///
    /// # Errors
    ///
    /// `BadLine` where a line breaks the rules, with the number of the first such; `Memory` where memory runs out.
    pub fn read(alloc: Global, bytes: &[u8], kind: Kind) -> Result<Names, NamesFault>
        ensures lines { IfOk result (λ names. names ≡ names_in kind bytes.now) }
        ensures accepted { OnOk result (bad_line kind bytes.now ≡ None) }
        ensures refused { IfErr result (IsFaultOf (bad_line kind bytes.now)) }
    {
        let mut index = Index::new(alloc);
        let mut number = 1;
        let mut rest = bytes;
        while let Some((line, behind)) = split_once(rest, b'\n') {
            take_line(&mut index, alloc, line, kind, number)?;
            rest = behind;
            number += 1;
        }
        take_line(&mut index, alloc, rest, kind, number)?;
        Ok(Names { index })
    }

    /// The identifier of the first line with this name.
    pub fn id_of(&self, name: &[u8]) -> Option<u32>
        ensures { result ≡ first_id self.now name.now }
    {
        self.index.id_of(name)
    }

    /// The name of the first line with this identifier.
    pub fn name_of(&self, id: u32) -> Option<&[u8]>
        ensures found { option_copied result ≡ first_name self.now id }
        ensures name { IfSome result (λ name. IsTrue (is_name name.now)) }
    {
        self.index.name_of(id)
    }
}

/// Adds what the line of this number says, if anything.
fn take_line(
    index: &mut Index,
    alloc: Global,
    line: &[u8],
    kind: Kind,
    number: u64,
) -> Result<(), NamesFault>
    requires { IsIndex index.old }
    ensures lines { OnOk result
        (kept_lines index.new ≡ kept_lines index.old ++ option_to_list (told_by kind line.now)) }
    ensures index { OnOk result (IsIndex index.new) }
    ensures accepted { OnOk result (is_bad kind line.now ≡ false) }
    ensures refused { IfErr result (IsBadLine number (is_bad kind line.now)) }
{
    if is_passed_over(line) {
        return Ok(());
    }
    let line = read_line(line, kind).ok_or(NamesFault::BadLine(number))?;
    index.add(alloc, line)?;
    Ok(())
}
