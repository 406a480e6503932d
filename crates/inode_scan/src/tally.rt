ghost use Rattle.std.specs.Prelude.{◌≡◌, ◌+◌, ◌-◌, ◌^◌, ◌<◌, ◌++◌, ◌∷◌, [], List, ℕ, length, IfErr, IfOk, OnOk};
ghost use Rattle.inode_scan.specs.Listing.{is_asked, owner_of};
ghost use Rattle.inode_scan.specs.Tally.{IsBounded, IsOf, IsRefusedLine, IsRefusedRow, TakesRow};

use crate::firsts::Firsts;
use crate::inode::{FirstLine, Inode};
use crate::row::{Row, read_row};
use crate::sums::Sums;
use crate::{ScanFault, Usage};
use input_text::has_no_word;
use quota_types::Kind;
use std::alloc::{AllocError, Global};

/// What the lines of a listing add up to, as far as they were read.
#[derive(Drop)]
pub(crate) struct Tally {
    /// Whose usage is added up.
    kind: Kind,
    /// The device whose inodes count, or all.
    device: Option<u64>,
    /// The first line of each inode.
    firsts: Firsts,
    /// What the first lines add up to.
    sums: Sums,
}

impl Tally {
    /// No lines were read.
    pub(crate) fn new(alloc: Global, kind: Kind, device: Option<u64>) -> Self
        ensures none { IsOf result [] }
        ensures bounded { IsBounded 0 result.sums }
        ensures kind { result.kind ≡ kind }
        ensures device { result.device ≡ device }
    {
        Tally {
            kind,
            device,
            firsts: Firsts::none(alloc),
            sums: Sums::none(alloc),
        }
    }

    /// Adds the next line, which has this number, from 1 on.
    pub(crate) fn take_line(&mut self, line: &[u8], number: u64) -> Result<(), ScanFault>
        requires some { 0 < number }
        requires few { number < 2 ^ 41 }
        requires bounded { IsBounded (number - 1) self.old.sums }
        ensures taken { OnOk result ((lines : List (List ℕ)) → length lines + 1 ≡ number
            → IsOf self.old lines → IsOf self.new (lines ++ line.now ∷ [])) }
        ensures bounded { OnOk result (IsBounded number self.new.sums) }
        ensures kind { self.new.kind ≡ self.old.kind }
        ensures device { self.new.device ≡ self.old.device }
        ensures refused { IfErr result (IsRefusedLine self.old line.now number) }
    {
        if has_no_word(line) {
            return Ok(());
        }
        let Some(row) = read_row(line) else {
            return Err(ScanFault::BadLine(number));
        };
        if !self.counts(&row) {
            return Ok(());
        }
        self.take_row(&row, number)
    }

    /// The usage that the lines add up to, in order.
    pub(crate) fn into_usage(self, alloc: Global) -> Result<Usage, AllocError>
        ensures { IfOk result (λ usage. usage ≡ self.sums) }
    {
        let Tally { firsts, sums, .. } = self;
        drop(firsts);
        sums.into_usage(alloc)
    }

    /// Whether a row counts.
    fn counts(&self, row: &Row) -> bool
        ensures { result ≡ is_asked self.now.device row.now }
    {
        match self.device {
            Some(device) => row.device == device,
            None => true,
        }
    }

    /// Adds a row that counts, of the line of this number.
    fn take_row(&mut self, row: &Row, number: u64) -> Result<(), ScanFault>
        requires some { 0 < number }
        requires few { number < 2 ^ 41 }
        requires bounded { IsBounded (number - 1) self.old.sums }
        ensures taken { OnOk result (TakesRow self.old self.new row.now number) }
        ensures bounded { OnOk result (IsBounded number self.new.sums) }
        ensures kind { self.new.kind ≡ self.old.kind }
        ensures device { self.new.device ≡ self.old.device }
        ensures refused { IfErr result (IsRefusedRow self.old row.now number) }
    {
        let inode = Inode {
            device: row.device,
            number: row.inode,
        };
        if let Some(first) = self.firsts.keep(inode, FirstLine::of(row, number))? {
            return first.check(row, number);
        }
        self.sums.add(owner_of(self.kind, row), row.blocks)?;
        Ok(())
    }
}

/// Whose usage a row adds to.
fn owner_of(kind: Kind, row: &Row) -> u32
    ensures { result ≡ owner_of kind row.now }
{
    match kind {
        Kind::User => row.owner,
        Kind::Group | Kind::Project => row.group,
    }
}
