ghost use Rattle.std.specs.Prelude.{◌≡◌, None, Some, IfOk, IfErr, if◌then◌else◌};
ghost use Rattle.std.specs.HashMap.{get};
ghost use Rattle.std.specs.Option.{option_map, option_or};
ghost use Rattle.inode_scan.specs.Firsts.{inode_eq, kept_in, kept_or, narrow_eq, narrow_inode, narrow_kept, widened};

use crate::ScanFault;
use crate::inode::{FirstLine, Inode};
use crate::narrow::{NarrowInode, NarrowLine};
use std::alloc::Global;
use std::collections::HashMap;

/// The first line of each inode. Where all of its numbers have 32 bits, as they usually do, it takes 24 bytes instead
/// of 40.
#[derive(Drop)]
pub(crate) struct Firsts {
    /// The first lines with narrow numbers alone.
    narrow: HashMap<NarrowInode, NarrowLine>,
    /// All others.
    wide: HashMap<Inode, FirstLine>,
}

impl Firsts {
    /// No lines.
    pub(crate) fn none(alloc: Global) -> Firsts
        ensures { (inode : Inode) → kept_in result inode ≡ None }
    {
        Firsts {
            narrow: HashMap::new(alloc),
            wide: HashMap::new(alloc),
        }
    }

    /// Keeps the line of an inode where it is the first one, and answers the first one where it is not. An inode with
    /// no line before is looked up once where its numbers are narrow.
    pub(crate) fn keep(
        &mut self,
        inode: Inode,
        line: FirstLine,
    ) -> Result<Option<FirstLine>, ScanFault>
        ensures found { IfOk result (λ first. first ≡ kept_in self.old inode) }
        ensures kept { IfOk result (λ first. (other : Inode) → kept_in self.new other
            ≡ kept_or self.old inode line other) }
        ensures refused { IfErr result (λ fault. fault ≡ ScanFault.Memory) }
    {
        if let Some(first) = self.wide_first(inode) {
            return Ok(Some(first));
        }
        let (Some(key), Some(value)) = (NarrowInode::of(inode), NarrowLine::of(line)) else {
            return self.keep_wide(inode, line);
        };
        let first = self.keep_narrow(key, value)?;
        Ok(widened(first))
    }

    /// Keeps a narrow line where it is the first one, and answers the first narrow one where it is not.
    fn keep_narrow(
        &mut self,
        inode: NarrowInode,
        line: NarrowLine,
    ) -> Result<Option<NarrowLine>, ScanFault>
        ensures found { IfOk result (λ first. first ≡ get narrow_eq self.old.narrow inode) }
        ensures kept { IfOk result (λ first. (other : NarrowInode) → get narrow_eq self.new.narrow other
            ≡ option_or (get narrow_eq self.old.narrow other) (if narrow_eq inode other then Some line else None)) }
        ensures wide { self.new.wide ≡ self.old.wide }
        ensures refused { IfErr result (λ fault. fault ≡ ScanFault.Memory) }
    {
        let earlier = self.narrow.insert(inode, line)?;
        if let Some(first) = earlier {
            self.narrow.insert(inode, first)?;
        }
        Ok(earlier)
    }

    /// Keeps the line of an inode that has no wide one, where it is the first one, and answers the first one where it
    /// is not.
    fn keep_wide(&mut self, inode: Inode, line: FirstLine) -> Result<Option<FirstLine>, ScanFault>
        requires { get inode_eq self.old.wide inode ≡ None }
        ensures found { IfOk result (λ first. first ≡ kept_in self.old inode) }
        ensures kept { IfOk result (λ first. (other : Inode) → kept_in self.new other
            ≡ kept_or self.old inode line other) }
        ensures refused { IfErr result (λ fault. fault ≡ ScanFault.Memory) }
    {
        if let Some(first) = self.narrow_first(inode) {
            return Ok(Some(first));
        }
        self.wide.insert(inode, line)?;
        Ok(None)
    }

    /// The wide first line of an inode, where there is one. Where there is none of any inode, which is usual, the inode
    /// is not hashed.
    fn wide_first(&self, inode: Inode) -> Option<FirstLine>
        ensures { result ≡ get inode_eq self.now.wide inode }
    {
        if self.wide.is_empty() {
            return None;
        }
        self.wide.get(&inode).copied()
    }

    /// The narrow first line of an inode, where there is one.
    fn narrow_first(&self, inode: Inode) -> Option<FirstLine>
        ensures { result ≡ narrow_kept self.now (narrow_inode inode) }
    {
        let inode = NarrowInode::of(inode)?;
        let line = self.narrow.get(&inode)?;
        Some(line.widened())
    }
}

/// The line, where there is one, in the form that has room for each line.
fn widened(line: Option<NarrowLine>) -> Option<FirstLine>
    ensures { result ≡ option_map widened line }
{
    match line {
        Some(line) => Some(line.widened()),
        None => None,
    }
}
