ghost use Rattle.std.specs.Prelude.{◌≡◌, ◌⊎◌, ◌+◌, ◌%◌, ◌<◌, ◌≤◌, true, false, ℕ, List, Option, Some, length, IfOk};
ghost use Rattle.std.specs.Prelude.{IfSome, IsTrue, OnErr, OnOk, is_ok, []};
ghost use Rattle.file_blocks.specs.Block.{file_of};
ghost use Rattle.outside.specs.Count.{Rose};
ghost use Rattle.outside.specs.Frame.{OnlyReads};
ghost use Rattle.quota_types.specs.Format.{is_flat, record_size};
ghost use Rattle.quota_types.specs.Kept.{IsKept};
ghost use Rattle.quota_v1.specs.Place.{records_read};
ghost use Rattle.quota_v1.specs.Slot.{IsFirstRecord};
ghost use Rattle.quota_v1.specs.Window.{HoldsWindow, window_reads};

use crate::flat_record::{record_start, records_read};
use crate::slot::first_record;
use crate::slot_file::read_from;
use outside::{Store, StoreFault};
use quota_types::{Entry, Format};

/// Records that follow each other in a flat file, as they were read. Past the end of the file there are zeros.
#[derive(Drop)]
pub(crate) struct Window {
    /// Whether any are known.
    known: bool,
    /// The identifier of the first of them.
    first: u32,
    /// Their bytes, as many as one call of `read` gives.
    bytes: [u8; 1024],
}

impl Window {
    /// None are known.
    pub(crate) fn none() -> Window
        ensures { result.known ≡ false }
    {
        Window {
            known: false,
            first: 0,
            bytes: [0; 1024],
        }
    }

    /// None are known any more.
    pub(crate) fn forget(&mut self)
        ensures { self.new.known ≡ false }
    {
        self.known = false;
    }

    /// Whether the record of an identifier is known.
    fn has(&self, format: Format, id: u32) -> bool
        ensures { result ≡ true
            → (self.now.known ≡ true) × (self.now.first ≤ id) × (id < self.now.first + records_read format) }
    {
        self.known && self.first <= id && id - self.first < records_read(format)
    }

    /// Brings the record of an identifier in, with those that follow it, unless it is known.
    fn bring<S: Store>(
        &mut self,
        store: &mut S,
        name: &str,
        format: Format,
        id: u32,
    ) -> Result<(), StoreFault>
        requires { id < 1048576 }
        ensures has { OnOk result
            ((self.new.known ≡ true) × (self.new.first ≤ id) × (id < self.new.first + records_read format)) }
        ensures fresh { OnOk result (((S.seen store.new).reads ≡ (S.seen store.old).reads) ⊎ (self.new.first ≡ id)) }
        ensures held { IsTrue S.tells → HoldsWindow format (file_of (S.seen store.old).files name.now) self.old
            → HoldsWindow format (file_of (S.seen store.old).files name.now) self.new }
        ensures cause { OnErr result (Rose (S.seen store.old).faults (S.seen store.new).faults) }
        ensures leaves { OnlyReads (is_ok result) name.now (S.seen store.old) (S.seen store.new) }
        ensures reads { (S.seen store.new).reads ≤ (S.seen store.old).reads + 1 }
        ensures commits { S.commits [] store.old store.new }
    {
        if self.has(format, id) {
            return Ok(());
        }
        self.forget();
        let at = record_start(format, id as usize) as u64;
        read_from(store, name, at, &mut self.bytes)?;
        self.first = id;
        self.known = true;
        Ok(())
    }

    /// The first record that is known, from an identifier up to another one that is known or follows those.
    fn first_known(&self, format: Format, from: u32, to: u32) -> Option<Entry>
        requires flat { is_flat format ≡ true }
        requires begins { self.now.first ≤ from }
        requires ends { to ≤ self.now.first + records_read format }
        requires known { self.now.known ≡ true }
        requires small { to ≤ 1048576 }
        ensures found { (file : List ℕ) → length file % record_size format ≡ 0 → HoldsWindow format file self.now
            → IsFirstRecord format file from to result }
        ensures kept { IfSome result (λ entry. IsKept format entry.id entry.rec) }
        ensures between { IfSome result (λ entry. (from ≤ entry.id) × (entry.id < to)) }
    {
        first_record(format, &self.bytes, self.first, from, to)
    }

    /// The first record from an identifier on, in a file that has `records` of them. As many as one call of `read`
    /// gives are read once at most, and none that is known.
    ///
    /// # Errors
    ///
    /// The store failed.
    pub(crate) fn first_from<S: Store>(
        &mut self,
        store: &mut S,
        name: &str,
        format: Format,
        from: u32,
        records: u32,
    ) -> Result<Option<Entry>, StoreFault>
        requires flat { is_flat format ≡ true }
        requires few { records ≤ 1048576 }
        ensures found { IfOk result (λ found. IsTrue S.tells → (file : List ℕ)
            → (S.seen store.old).files name.now ≡ Some file → length file % record_size format ≡ 0
            → HoldsWindow format file self.old
            → IsFirstRecord format file from records found) }
        ensures kept { IfOk result (λ found. IfSome found (λ entry. IsKept format entry.id entry.rec)) }
        ensures between { IfOk result (λ found. IfSome found (λ entry. (from ≤ entry.id) × (entry.id < records))) }
        ensures held { IsTrue S.tells → HoldsWindow format (file_of (S.seen store.old).files name.now) self.old
            → HoldsWindow format (file_of (S.seen store.old).files name.now) self.new }
        ensures cause { OnErr result (Rose (S.seen store.old).faults (S.seen store.new).faults) }
        ensures leaves { OnlyReads (is_ok result) name.now (S.seen store.old) (S.seen store.new) }
        ensures reads { (S.seen store.new).reads ≤ (S.seen store.old).reads + window_reads format from records }
        ensures near { IfOk result (λ found. IfSome found (λ entry. (S.seen store.new).reads
            ≤ (S.seen store.old).reads + window_reads format from (entry.id + 1))) }
        ensures commits { S.commits [] store.old store.new }
    {
        let mut next = from;
        while next < records {
            self.bring(store, name, format, next)?;
            let end = records.min(self.first + records_read(format));
            if let Some(entry) = self.first_known(format, next, end) {
                return Ok(Some(entry));
            }
            next = end;
        }
        Ok(None)
    }
}
