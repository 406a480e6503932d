ghost use Rattle.std.specs.Prelude.{◌≡◌, ◌^◌, ◌<◌, ◌≤◌, Bool, List, ℕ, Option, [], None};
ghost use Rattle.quota_types.specs.Format.{IsTreeFormat};
ghost use Rattle.quota_types.specs.Range.{grace_unfit};
ghost use Rattle.quota_value.specs.QuotaValue.{QuotaValue, Records};
ghost use Rattle.quota_pages.specs.Pages.{name_of, pages_of};
ghost use Rattle.tree_file.specs.Coming.{FitsComing, HoldsComing, fits_is_a_fact};
ghost use Rattle.tree_file.specs.Faults.{file_fault, look_up_fault};
ghost use Rattle.tree_file.specs.Opened.{HoldsTree, with_heads};
ghost use Rattle.tree_meaning.specs.TreeFile.{TreeStandsFor};

use crate::coming::Coming;
use crate::grace_change::set_grace_in;
use crate::in_place::{put_in, remove_in};
use crate::lookup::{next_record, record_of};
use entry_codec::Header;
use free_chains::Heads;
use opened_file::{FileFault, FileUse, QuotaFile};
use outside::Store;
use quota_pages::Pages;
use quota_radix::WalkFault;
use quota_types::{Entry, Format, Grace, Rec};
use tree_change::ChangeFault;

/// An opened tree file, which keeps the file's name and its header, and no block of it between calls.
///
/// A look-up goes down the tree and reads as many blocks as are on the way: at most five for a record, and eight for
/// the next one, whose neighbours are kept so that they are answered without a read. A change is made in place: it
/// reads and writes twelve blocks at most, writes one where a record or the grace periods are written over, and syncs
/// the file once.
#[derive(Drop)]
pub struct TreeFile {
    pub(crate) pages: Pages,
    pub(crate) opened: FileUse,
    pub(crate) header: Header,
    pub(crate) coming: Coming,
    pub(crate) limit: u32,
    ghost tree: { IsTreeFormat header.format },
    ghost grace: { grace_unfit header.format header.grace ≡ None },
    ghost two: { 2 ≤ header.blocks },
    ghost few: { header.blocks ≤ limit },
    ghost narrow: { limit < 2 ^ 32 },
    ghost empty: { pages_of pages ≡ [] },
    ghost fits: { FitsComing header.format coming } by { fits_is_a_fact header.format coming },
}

impl TreeFile {
    /// The flags of the header, which may have any value.
    pub fn flags(&self) -> u32
        ensures { (tells : Bool) (named : Option (List ℕ)) (value : QuotaValue)
            → HoldsTree tells named self.now.header self.now.coming self.now.limit value → result ≡ value.flags }
    {
        self.header.flags
    }

    /// The header has these heads now, and the answers that come next are forgotten.
    fn has_changed(&mut self, heads: Heads)
        requires two { 2 ≤ heads.blocks }
        requires few { heads.blocks ≤ self.old.limit }
        ensures header { self.new.header ≡ with_heads self.old.header heads }
        ensures pages { self.new.pages ≡ self.old.pages }
        ensures opened { self.new.opened ≡ self.old.opened }
        ensures limit { self.new.limit ≡ self.old.limit }
        ensures coming { (records : Records) → HoldsComing records self.new.coming }
    {
        self.header.blocks = heads.blocks;
        self.header.free = heads.free;
        self.header.first = heads.first;
        self.coming = Coming::none();
    }
}

/// The fault of a look-up, as one of an opened file.
fn look_up_fault(fault: WalkFault) -> FileFault
    ensures { result ≡ look_up_fault fault }
{
    match fault {
        WalkFault::Store => FileFault::Store,
        WalkFault::Damage(damage) => FileFault::Damage(damage),
    }
}

/// Why a change in place was refused, as a fault of an opened file.
fn file_fault(fault: ChangeFault) -> FileFault
    ensures { result ≡ file_fault fault }
{
    match fault {
        ChangeFault::Store => FileFault::Store,
        ChangeFault::Damage(damage) => FileFault::Damage(damage),
        ChangeFault::Full { blocks, limit } => FileFault::Full { blocks, limit },
    }
}

impl<S: Store> QuotaFile<S> for TreeFile {
    ghost use Rattle.std.proofs.Common.{le_refl};
    ghost use Rattle.opened_file.specs.FileUse.{seen_in};
    ghost use Rattle.tree_file.specs.Opened.{HoldsTree, IsNamedDefect, LacksRoom, MayRefuse};
    ghost use Rattle.tree_file.specs.Rests.{held_stands, rests_on_named};
    ghost use Rattle.tree_file.specs.TreeChange.{TreeLeaves, TreeMakes};
    ghost use Rattle.tree_file.specs.TreeCalls.{tree_change_reads, tree_change_writes, tree_done_writes};

    ghost holds = { λ file store value. HoldsTree S.tells ((S.seen store).files (name_of file.pages))
        file.header file.coming file.limit value };

    ghost seen = { λ file. seen_in file.opened (name_of file.pages) file.header.format file.limit };

    ghost is_damage = { λ file store damage. IsNamedDefect S.tells ((S.seen store).files (name_of file.pages))
        file.header damage };

    ghost may_refuse = { λ _ fault. MayRefuse fault };

    ghost stands_for = { λ _ file value. TreeStandsFor file value };

    ghost lacks_room = { λ seen file _ value blocks limit. LacksRoom seen file value blocks limit };

    ghost makes = { λ seen change. TreeMakes seen.limit change };

    ghost may_leave = { λ _ _ old after left. TreeLeaves old after left };

    ghost get_reads = { λ _. 5 };

    ghost next_reads = { λ _ _. 8 };

    ghost passing_reads = { λ _ _ _ _. 8 };

    ghost change_reads = { tree_change_reads };

    ghost change_writes = { tree_change_writes };

    ghost done_writes = { tree_done_writes };

    ghost rests_on_named = { λ file one other value named held.
        rests_on_named _ _ _ file.header file.coming file.limit value named held };

    ghost held_stands = { λ file store value held. held_stands _ _ file.header file.coming file.limit value held };

    ghost passing_adds_up = { λ seen file from mid to first second. le_refl _ };

    fn format(&self) -> Format {
        self.header.format
    }

    fn usable(&self) -> bool {
        self.opened.is_usable()
    }

    fn grace(&self) -> Grace {
        self.header.grace
    }

    fn get(&mut self, store: &mut S, id: u32) -> Result<Option<Rec>, FileFault> {
        let found = record_of(&mut self.pages, store, &self.header, id);
        self.pages.clear();
        match found {
            Ok(found) => Ok(found),
            Err(fault) => Err(self.opened.refused_look_up(look_up_fault(fault))),
        }
    }

    fn next_after(
        &mut self,
        store: &mut S,
        after: Option<u32>,
    ) -> Result<Option<Entry>, FileFault> {
        if let Some(entry) = self.coming.next_after(after) {
            return Ok(Some(entry));
        }
        let found = next_record(
            &mut self.pages,
            store,
            &self.header,
            after,
            &mut self.coming,
        );
        self.pages.clear();
        match found {
            Ok(found) => Ok(found),
            Err(fault) => Err(self.opened.refused_look_up(look_up_fault(fault))),
        }
    }

    fn put(&mut self, store: &mut S, id: u32, rec: Rec) -> Result<(), FileFault> {
        match put_in(&mut self.pages, store, &self.header, self.limit, id, &rec) {
            Ok(heads) => {
                self.has_changed(heads);
                Ok(())
            }
            Err(fault) => Err(self.opened.refused(file_fault(fault))),
        }
    }

    fn remove(&mut self, store: &mut S, id: u32) -> Result<(), FileFault> {
        match remove_in(&mut self.pages, store, &self.header, id) {
            Ok(Some(heads)) => {
                self.has_changed(heads);
                Ok(())
            }
            Ok(None) => Ok(()),
            Err(fault) => Err(self.opened.refused(file_fault(fault))),
        }
    }

    fn set_grace(&mut self, store: &mut S, grace: Grace) -> Result<(), FileFault> {
        match set_grace_in(&mut self.pages, store, grace) {
            Ok(()) => {
                self.header.grace = grace;
                self.coming = Coming::none();
                Ok(())
            }
            Err(_) => Err(self.opened.refused(FileFault::Store)),
        }
    }
}
