ghost use Rattle.std.specs.Prelude.{◌≡◌, Bool};
ghost use Rattle.quota_value.specs.QuotaValue.{QuotaValue};
ghost use Rattle.outside.specs.World.{World};

use opened_file::{FileFault, QuotaFile};
use outside::Store;
use quota_types::{Entry, Format, Grace, Rec};
use quota_v1::V1File;
use tree_file::TreeFile;

/// An opened quota file of any format.
#[derive(Drop)]
pub enum AnyFile {
    /// A flat file: vfsold or vfsold32.
    V1(V1File),
    /// A tree file: vfsv0 or vfsv1.
    Tree(TreeFile),
}

impl AnyFile {
    ghost use Rattle.quota_map.specs.AnyFile.{HoldsAny};

    /// The flags of the header, which may have any value; a flat file has none, which are read as 0.
    pub fn flags(&self) -> u32
        ensures { (tells : Bool) (files : World) (value : QuotaValue)
            → HoldsAny tells files self.now value → result ≡ value.flags }
    {
        match self {
            AnyFile::V1(_) => 0,
            AnyFile::Tree(file) => file.flags(),
        }
    }
}

impl<S: Store> QuotaFile<S> for AnyFile {
    ghost use Rattle.tree_file.specs.Opened.{LacksRoom};
    ghost use Rattle.quota_map.specs.AnyFile.{HoldsAny, IsAnyDamage, MayRefuse, any_change_reads, any_change_writes};
    ghost use Rattle.quota_map.specs.AnyFile.{any_done_writes, any_next_reads, any_passing_reads, any_seen};
    ghost use Rattle.quota_map.specs.AnyFile.{reads_of_get};
    ghost use Rattle.quota_map.specs.AnyChange.{AnyLeaves, AnyMakes};
    ghost use Rattle.quota_map.specs.Passing.{any_adds_up};
    ghost use Rattle.quota_map.specs.Rests.{held_stands, rests_on_named};
    ghost use Rattle.quota_map.specs.StandsFor.{StandsForAs};

    ghost holds = { λ file store value. HoldsAny S.tells (S.seen store).files file value };

    ghost seen = { any_seen };

    ghost is_damage = { λ file store damage. IsAnyDamage S.tells (S.seen store).files file damage };

    ghost may_refuse = { MayRefuse };

    ghost stands_for = { StandsForAs };

    ghost lacks_room = { λ seen file _ value blocks limit. LacksRoom seen file value blocks limit };

    ghost makes = { AnyMakes };

    ghost may_leave = { λ format _. AnyLeaves format };

    ghost get_reads = { reads_of_get };

    ghost next_reads = { any_next_reads };

    ghost passing_reads = { any_passing_reads };

    ghost change_reads = { any_change_reads };

    ghost change_writes = { any_change_writes };

    ghost done_writes = { any_done_writes };

    ghost rests_on_named = { λ file one other value named held.
        rests_on_named S.tells (S.seen one).files (S.seen other).files file value named held };

    ghost held_stands = { λ file store value held. held_stands S.tells (S.seen store).files file value held };

    ghost passing_adds_up = { any_adds_up };

    fn format(&self) -> Format {
        match self {
            AnyFile::V1(file) => QuotaFile::<S>::format(file),
            AnyFile::Tree(file) => QuotaFile::<S>::format(file),
        }
    }

    fn usable(&self) -> bool {
        match self {
            AnyFile::V1(file) => QuotaFile::<S>::usable(file),
            AnyFile::Tree(file) => QuotaFile::<S>::usable(file),
        }
    }

    fn grace(&self) -> Grace {
        match self {
            AnyFile::V1(file) => QuotaFile::<S>::grace(file),
            AnyFile::Tree(file) => QuotaFile::<S>::grace(file),
        }
    }

    fn get(&mut self, store: &mut S, id: u32) -> Result<Option<Rec>, FileFault> {
        match self {
            AnyFile::V1(file) => file.get(store, id),
            AnyFile::Tree(file) => file.get(store, id),
        }
    }

    fn next_after(
        &mut self,
        store: &mut S,
        after: Option<u32>,
    ) -> Result<Option<Entry>, FileFault> {
        match self {
            AnyFile::V1(file) => file.next_after(store, after),
            AnyFile::Tree(file) => file.next_after(store, after),
        }
    }

    fn put(&mut self, store: &mut S, id: u32, rec: Rec) -> Result<(), FileFault> {
        match self {
            AnyFile::V1(file) => file.put(store, id, rec),
            AnyFile::Tree(file) => file.put(store, id, rec),
        }
    }

    fn remove(&mut self, store: &mut S, id: u32) -> Result<(), FileFault> {
        match self {
            AnyFile::V1(file) => file.remove(store, id),
            AnyFile::Tree(file) => file.remove(store, id),
        }
    }

    fn set_grace(&mut self, store: &mut S, grace: Grace) -> Result<(), FileFault> {
        match self {
            AnyFile::V1(file) => file.set_grace(store, grace),
            AnyFile::Tree(file) => file.set_grace(store, grace),
        }
    }
}
