ghost use Rattle.std.specs.Prelude.{◌≡◌, ◌+◌, ◌^◌, ◌<◌, ◌≤◌, ℕ, List, Option, None, Some, IsTrue, IfErr, IfOk, IfSome};
ghost use Rattle.std.specs.Prelude.{IsSomeAnd, []};
ghost use Rattle.std.specs.FinMap.{get};
ghost use Rattle.quota_types.specs.declared.damage.Damage.{Damage};
ghost use Rattle.quota_types.specs.declared.file_kind.Format.{Format};
ghost use Rattle.quota_types.specs.Kept.{IsKept};
ghost use Rattle.quota_types.specs.Range.{grace_unfit};
ghost use Rattle.quota_types.specs.Rec.{IsNull};
ghost use Rattle.opened_file.specs.Changes.{Changes, file_at, laws_of};
ghost use Rattle.opened_file.specs.Committed.{CommitsOnce, StandsChanged};
ghost use Rattle.opened_file.specs.FileChange.{FileChange, Put, Remove, SetGrace};
ghost use Rattle.opened_file.specs.LooksUp.{LooksUp};
ghost use Rattle.opened_file.specs.Passing.{first_after, passed_up_to};
ghost use Rattle.opened_file.specs.QuotaFile.{IfDamage, IfFull, StaysInPlace};
ghost use Rattle.opened_file.specs.FileSeen.{FileSeen};
ghost use Rattle.quota_value.specs.QuotaValue.{QuotaValue};
ghost use Rattle.quota_value.specs.NextRecord.{IsNextAfter};
ghost use Rattle.quota_types.specs.Ids.{IsAfter};
ghost use Rattle.outside.specs.World.{World};
ghost use Rattle.opened_file.specs.declared.quota_file.FileFault.{FileFault};

use file_blocks::CheckFault;
use outside::Store;
use quota_types::{Damage, Entry, Format, Grace, Rec};

/// Why a call on an opened quota file was refused.
#[derive(Clone, Copy, Debug, PartialEq, Eq)]
pub enum FileFault {
    /// The store failed.
    Store,
    /// The file is damaged.
    Damage(Damage),
    /// The file would need more blocks than it may have.
    Full {
        /// The blocks that it would need.
        blocks: u64,
        /// The blocks that it may have.
        limit: u64,
    },
    /// There was not enough memory.
    Memory,
}

/// Why a quota file could not be opened.
#[derive(Clone, Copy, Debug, PartialEq, Eq)]
pub enum OpenFault {
    /// The store failed.
    Store,
    /// There is no file of this name.
    NoFile,
    /// The file is larger than is read: in bytes for a flat file, in blocks for a tree file.
    TooLarge {
        /// How large it is.
        number: u64,
        /// How large it may be.
        limit: u64,
    },
    /// There was not enough memory.
    Memory,
    /// The file does not begin as a quota file does.
    NotQuota,
    /// The file is one of another kind.
    WrongKind,
    /// The file has a version that is not known.
    UnknownVersion,
    /// The header has a number of blocks below 2.
    BadBlockCount,
    /// The file has another format than the one that was asked for.
    FormatMismatch {
        /// The format that it has.
        found: Format,
    },
    /// The file is damaged.
    Damage(Damage),
}

impl From<CheckFault> for OpenFault {
    ghost use Rattle.opened_file.specs.Opening.{open_fault};

    ghost from_gives = { λ fault opening. opening ≡ open_fault fault };

    fn from(fault: CheckFault) -> Self {
        match fault {
            CheckFault::Store => OpenFault::Store,
            CheckFault::Damage(damage) => OpenFault::Damage(damage),
            CheckFault::Memory => OpenFault::Memory,
        }
    }
}

/// An opened quota file, whatever its format. Each call is given the store that the file was opened from.
///
/// A change is made where the bytes lie, in place: it takes no memory, and writes no other file. One for which there is
/// no room writes nothing, whatever else fails, and one that is refused for anything but a fault of the store has
/// changed nothing. After one in which the store failed the opened file is not used again, and the named file is as it
/// was, or as `may_leave` says, between the old file and one that stands for the changed value, since some blocks may
/// have been written. After a look-up in which the store failed the opened file may be used again.
///
/// No refusal is lost: `seen` has a count of them, which each refused call raises and no other call changes.
pub trait QuotaFile<S: Store> {
    /// The opened file with the store holds this value: the store tells its files, the named file stands for the
    /// value, and what the opened file keeps agrees with that file.
    ghost holds: { Self → S → QuotaValue → Type 0 };

    /// Its name, its format, whether it may still be used, how many blocks it may have, and how many calls were
    /// refused.
    ghost seen: { Self → FileSeen };

    /// A damage that a look-up answers is one of the named file, as far as the store tells it and what the opened file
    /// keeps agrees with it.
    ghost is_damage: { Self → S → Damage → Type 0 };

    /// The faults that a call on a file of this format may answer, whatever the store tells.
    ghost may_refuse: { Format → FileFault → Type 0 };

    /// A file of these bytes, as one of this format, stands for the value.
    ghost stands_for: { Format → List ℕ → QuotaValue → Type 0 };

    /// The named file, as it is, has no room for a change of it to the value: it would need the first number of blocks,
    /// and may have only the second.
    ghost lacks_room: { FileSeen → Option (List ℕ) → FileChange → QuotaValue → ℕ → ℕ → Type 0 };

    /// What a change of a file that is seen so, and has this name, makes of the files, as far as its format says more
    /// than which value the file stands for.
    ghost makes: { FileSeen → FileChange → List ℕ → World → World → Type 0 };

    /// What a change that failed may leave the file as, between the bytes before and those that it would have made.
    ghost may_leave: { Format → FileChange → Option (List ℕ) → Option (List ℕ) → Option (List ℕ) → Type 0 };

    /// How many calls of `read` one call of `get` makes at most.
    ghost get_reads: { Format → ℕ };

    /// How many calls of `read` one call of `next_after` makes at most, on a file of these bytes.
    ghost next_reads: { FileSeen → Option (List ℕ) → ℕ };

    /// How many calls of `read` one call of `next_after` makes at most where the opened file holds a value, in a file
    /// of these bytes, by the identifiers that it passes: from one up to another one.
    ghost passing_reads: { FileSeen → Option (List ℕ) → ℕ → ℕ → ℕ };

    /// How many calls of `read` a change makes at most.
    ghost change_reads: { FileSeen → FileChange → ℕ };

    /// How many calls of `write` a change makes at most.
    ghost change_writes: { FileSeen → FileChange → ℕ };

    /// How many calls of `write` a change makes at most that succeeds on a file that holds this value.
    ghost done_writes: { FileSeen → QuotaValue → FileChange → ℕ };

    /// The format of the file.
    fn format(&self) -> Format
        ensures kept { result ≡ (seen self.now).format }
        ensures value { (store : S) (value : QuotaValue) → holds self.now store value → result ≡ value.format };

    /// Whether the opened file may still be used. It may not after a change that failed: open it again then.
    fn usable(&self) -> bool
        ensures { result ≡ (seen self.now).usable };

    /// The grace periods. Whatever the store tells, the format has room for them.
    fn grace(&self) -> Grace
        ensures value { (store : S) (value : QuotaValue) → holds self.now store value → result ≡ value.grace }
        ensures fits { grace_unfit (seen self.now).format result ≡ None };

    /// The record of an identifier, or `None` where it has none. Whatever the store tells, the format has room for the
    /// record, and keeps it as it is.
    ///
    /// # Errors
    ///
    /// The store failed, or the file is damaged.
    fn get(&mut self, store: &mut S, id: u32) -> Result<Option<Rec>, FileFault>
        requires { IsTrue (seen self.old).usable }
        ensures found { IfOk result (λ found. (value : QuotaValue) → holds self.old store.old value
            → found ≡ get value.records id) }
        ensures kept { IfOk result (λ found. IfSome found (IsKept (seen self.old).format id)) }
        ensures damage { IfErr result (λ fault. IfDamage fault (is_damage self.old store.old)) }
        ensures looks { LooksUp Some (laws_of S.tells stands_for makes may_leave lacks_room may_refuse
            change_reads change_writes done_writes)
            (file_at (holds self.old store.old) (seen self.old) (S.seen store.old))
            (file_at (holds self.new store.new) (seen self.new) (S.seen store.new))
            (get_reads (seen self.old).format) result }
        ensures commits { S.commits [] store.old store.new };

    /// The least identifier after another one, or the least of all, with its record; `None` where there is none.
    /// Whatever the store tells, an identifier that is answered comes after the one that was given and is below 2^32,
    /// and the format has room for its record, and keeps it as it is.
    ///
    /// # Errors
    ///
    /// The store failed, or the file is damaged.
    fn next_after(&mut self, store: &mut S, after: Option<u32>) -> Result<Option<Entry>, FileFault>
        requires { IsTrue (seen self.old).usable }
        ensures found { IfOk result (λ found. (value : QuotaValue) → holds self.old store.old value
            → IsNextAfter after value.records found) }
        ensures ascends { IfOk result (λ found. IfSome found (λ entry. IsAfter after entry.id)) }
        ensures narrow { IfOk result (λ found. IfSome found (λ entry. entry.id < 2 ^ 32)) }
        ensures kept { IfOk result (λ found. IfSome found (λ entry. IsKept (seen self.old).format entry.id entry.rec)) }
        ensures damage { IfErr result (λ fault. IfDamage fault (is_damage self.old store.old)) }
        ensures looks { LooksUp Some (laws_of S.tells stands_for makes may_leave lacks_room may_refuse
            change_reads change_writes done_writes)
            (file_at (holds self.old store.old) (seen self.old) (S.seen store.old))
            (file_at (holds self.new store.new) (seen self.new) (S.seen store.new)) (next_reads (seen self.old)
            ((S.seen store.old).files (seen self.old).name)) result }
        ensures passing { (value : QuotaValue) → holds self.old store.old value → (S.seen store.new).reads
            ≤ (S.seen store.old).reads + passing_reads (seen self.old) ((S.seen store.old).files (seen self.old).name)
            (first_after after) (passed_up_to result) }
        ensures commits { S.commits [] store.old store.new };

    /// Gives an identifier this record, in place of the one that it may have. All other records stay. The record limits
    /// or counts something, and the format keeps it as it is. What was written is synced then.
    ///
    /// # Errors
    ///
    /// The store failed, or the file is damaged or full.
    fn put(&mut self, store: &mut S, id: u32, rec: Rec) -> Result<(), FileFault>
        requires usable { IsTrue (seen self.old).usable }
        requires not_null { ¬ (IsNull rec) }
        requires kept { IsKept (seen self.old).format id rec }
        ensures in_place { StaysInPlace S.tells (seen self.old).name (S.seen store.old).files
            (S.seen store.new).files result }
        ensures changes { Changes (Put id rec) (laws_of S.tells stands_for makes may_leave lacks_room may_refuse
            change_reads change_writes done_writes)
            (file_at (holds self.old store.old) (seen self.old) (S.seen store.old))
            (file_at (holds self.new store.new) (seen self.new) (S.seen store.new)) result }
        ensures commits { CommitsOnce (λ worlds. S.commits worlds store.old store.new) (StandsChanged (Put id rec)
            (holds self.old store.old) (stands_for (seen self.old).format)
            ((S.seen store.new).files (seen self.old).name))
            (S.seen store.new).files };

    /// Takes an identifier's record away. All other records stay. Where it has none nothing is written, and nothing but
    /// a fault of the store refuses it. What was written is synced then. `Full` never comes.
    ///
    /// # Errors
    ///
    /// The store failed, or the file is damaged.
    fn remove(&mut self, store: &mut S, id: u32) -> Result<(), FileFault>
        requires { IsTrue (seen self.old).usable }
        ensures in_place { StaysInPlace S.tells (seen self.old).name (S.seen store.old).files
            (S.seen store.new).files result }
        ensures never_full { IfErr result (λ fault. IfFull fault (λ _ _. ⊥)) }
        ensures changes { Changes (Remove id) (laws_of S.tells stands_for makes may_leave lacks_room may_refuse
            change_reads change_writes done_writes)
            (file_at (holds self.old store.old) (seen self.old) (S.seen store.old))
            (file_at (holds self.new store.new) (seen self.new) (S.seen store.new)) result }
        ensures commits { CommitsOnce (λ worlds. S.commits worlds store.old store.new) (StandsChanged (Remove id)
            (holds self.old store.old) (stands_for (seen self.old).format)
            ((S.seen store.new).files (seen self.old).name))
            (S.seen store.new).files };

    /// Sets both grace periods, for which the format has room. All records stay. What was written is synced then.
    /// `Full` never comes.
    ///
    /// # Errors
    ///
    /// The store failed, or the file is damaged.
    fn set_grace(&mut self, store: &mut S, grace: Grace) -> Result<(), FileFault>
        requires usable { IsTrue (seen self.old).usable }
        requires fits { grace_unfit (seen self.old).format grace ≡ None }
        ensures in_place { StaysInPlace S.tells (seen self.old).name (S.seen store.old).files
            (S.seen store.new).files result }
        ensures changes { Changes (SetGrace grace) (laws_of S.tells stands_for makes may_leave lacks_room may_refuse
            change_reads change_writes done_writes)
            (file_at (holds self.old store.old) (seen self.old) (S.seen store.old))
            (file_at (holds self.new store.new) (seen self.new) (S.seen store.new)) result }
        ensures commits { CommitsOnce (λ worlds. S.commits worlds store.old store.new) (StandsChanged (SetGrace grace)
            (holds self.old store.old) (stands_for (seen self.old).format)
            ((S.seen store.new).files (seen self.old).name))
            (S.seen store.new).files };

    /// What an opened file with its store holds rests on the named file, and on no other file of the store.
    ghost rests_on_named: { (file : Self) (one other : S) (value : QuotaValue)
        → (S.seen other).files (seen file).name ≡ (S.seen one).files (seen file).name
        → holds file one value → holds file other value };

    /// The named file stands for what an opened file with its store holds.
    ghost held_stands: { (file : Self) (store : S) (value : QuotaValue) → holds file store value
        → IsSomeAnd ((S.seen store).files (seen file).name) (λ bytes. stands_for (seen file).format bytes value) };

    /// Two calls of `next_after` in a row read little more than one that passes as much: what one that passes nothing
    /// may read.
    ghost passing_adds_up: { (seen : FileSeen) (file : Option (List ℕ)) (from mid to : ℕ) → from ≤ mid → mid ≤ to
        → passing_reads seen file from mid + passing_reads seen file mid to
        ≤ passing_reads seen file from to + passing_reads seen file 0 0 };
}
