ghost use Rattle.std.specs.Prelude.{◌≡◌, ◌%◌, ◌<◌, ◌≤◌, true};
ghost use Rattle.quota_types.specs.Format.{is_flat, record_size};
ghost use Rattle.quota_v1.specs.Place.{flat_limit, past_time};

use crate::flat_record::{first_after, or_week, record_start, records_in};
use crate::slot_file::{read_record, write_grace, write_record};
use crate::window::Window;
use opened_file::{FileFault, FileUse, QuotaFile};
use outside::Store;
use quota_types::{Entry, Format, Grace, Rec};

/// An opened flat file, which keeps its name, its length, the times of record 0 as they are stored, and the records
/// that come next.
///
/// A look-up reads a record where it stands; the next record is found many records at a time. A change writes one
/// record where it stands, by one call, and syncs the file: where the store fails in it, the file is as before or has
/// been changed.
#[derive(Drop)]
pub struct V1File {
    pub(crate) name: String,
    pub(crate) opened: FileUse,
    pub(crate) format: Format,
    pub(crate) len: u64,
    pub(crate) times: Grace,
    pub(crate) window: Window,
    ghost flat: { is_flat format ≡ true },
    ghost whole: { len % record_size format ≡ 0 },
    ghost limited: { len ≤ flat_limit format },
    ghost block: { times.block < past_time format },
    ghost inode: { times.inode < past_time format },
}

impl<S: Store> QuotaFile<S> for V1File {
    ghost use Rattle.std.specs.String.{string_bytes};
    ghost use Rattle.file_blocks.specs.Block.{bytes_of};
    ghost use Rattle.quota_v1.specs.Change.{FlatLeaves, FlatMakes};
    ghost use Rattle.quota_v1.specs.FlatCalls.{MayRefuse};
    ghost use Rattle.quota_v1.specs.FlatFile.{FlatStandsFor};
    ghost use Rattle.quota_v1.specs.Opened.{HoldsFlat, IsNamedDefect, flat_seen, most_next_reads};
    ghost use Rattle.quota_v1.specs.Passing.{passing_adds_up};
    ghost use Rattle.quota_v1.specs.Rests.{held_stands, rests_on_named};
    ghost use Rattle.quota_v1.specs.Window.{passing_reads};

    ghost holds = { λ file store value. HoldsFlat S.tells ((S.seen store).files (string_bytes file.name))
        file.format file.len file.times file.window value };

    ghost seen = { λ file. flat_seen file.opened (string_bytes file.name) file.format };

    ghost is_damage = { λ file store damage.
        IsNamedDefect S.tells ((S.seen store).files (string_bytes file.name)) file.format damage };

    ghost may_refuse = { λ _ fault. MayRefuse fault };

    ghost stands_for = { λ format file value. FlatStandsFor format file value };

    ghost lacks_room = { λ _ _ _ _ _ _. ⊥ };

    ghost makes = { λ seen change. FlatMakes seen.format change };

    ghost may_leave = { λ _ _ old after left. FlatLeaves old after left };

    ghost get_reads = { λ _. 1 };

    ghost next_reads = { λ seen _. most_next_reads seen.format };

    ghost passing_reads = { λ seen file. passing_reads seen.format (bytes_of file) };

    ghost change_reads = { λ _ _. 1 };

    ghost change_writes = { λ _ _. 1 };

    ghost done_writes = { λ _ _ _. 1 };

    ghost rests_on_named = { λ file one other value named held.
        rests_on_named _ _ _ file.format file.len file.times file.window value named held };

    ghost held_stands = { λ file store value held.
        held_stands _ _ file.format file.len file.times file.window value held };

    ghost passing_adds_up = { λ seen file from mid to first second.
        passing_adds_up seen.format (bytes_of file) from mid to first second };

    fn format(&self) -> Format {
        self.format
    }

    fn usable(&self) -> bool {
        self.opened.is_usable()
    }

    fn grace(&self) -> Grace {
        Grace {
            block: or_week(self.times.block),
            inode: or_week(self.times.inode),
        }
    }

    fn get(&mut self, store: &mut S, id: u32) -> Result<Option<Rec>, FileFault> {
        self.window.forget();
        match read_record(store, self.name.as_str(), self.format, self.len, id) {
            Ok(found) => Ok(found),
            Err(fault) => Err(self.opened.refused_look_up(fault)),
        }
    }

    fn next_after(
        &mut self,
        store: &mut S,
        after: Option<u32>,
    ) -> Result<Option<Entry>, FileFault> {
        let records = records_in(self.format, self.len);
        let from = first_after(after, records);
        match self
            .window
            .first_from(store, self.name.as_str(), self.format, from, records)
        {
            Ok(found) => Ok(found),
            Err(_) => Err(self.opened.refused_look_up(FileFault::Store)),
        }
    }

    fn put(&mut self, store: &mut S, id: u32, rec: Rec) -> Result<(), FileFault> {
        self.window.forget();
        match write_record(store, self.name.as_str(), self.format, id, &rec, self.times) {
            Ok(()) => {
                let end = record_start(self.format, id as usize + 1) as u64;
                self.len = self.len.max(end);
                Ok(())
            }
            Err(_) => Err(self.opened.refused(FileFault::Store)),
        }
    }

    fn remove(&mut self, store: &mut S, id: u32) -> Result<(), FileFault> {
        self.window.forget();
        match read_record(store, self.name.as_str(), self.format, self.len, id) {
            Ok(Some(_)) => {}
            Ok(None) => return Ok(()),
            Err(fault) => return Err(self.opened.refused(fault)),
        }
        match write_record(
            store,
            self.name.as_str(),
            self.format,
            id,
            &Rec::default(),
            self.times,
        ) {
            Ok(()) => Ok(()),
            Err(_) => Err(self.opened.refused(FileFault::Store)),
        }
    }

    fn set_grace(&mut self, store: &mut S, grace: Grace) -> Result<(), FileFault> {
        self.window.forget();
        match write_grace(store, self.name.as_str(), self.format, grace) {
            Ok(()) => {
                self.len = self.len.max(self.format.record_size() as u64);
                self.times = grace;
                Ok(())
            }
            Err(_) => Err(self.opened.refused(FileFault::Store)),
        }
    }
}
