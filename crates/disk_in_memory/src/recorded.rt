ghost use Rattle.std.specs.Prelude.{◌≡◌, ◌≢◌, ◌+◌, ◌<◌, ◌≤◌, ◌^◌, ◌∷◌, ℕ, List, [], None, Some, length, reverse, true};
ghost use Rattle.std.specs.Prelude.{false, is_some, IfOk, IsSome, OnOk, OnErr};
ghost use Rattle.std.specs.Option.{option_copied};
ghost use Rattle.disk_in_memory.specs.Calls.{MayMake, after_call, half_left, read_after};
ghost use Rattle.disk.specs.DiskSeen.{ChangesNothing, DiskFollows, IsDurable, TakesStep};
ghost use Rattle.disk.specs.DiskLaws.{AllowsStep};
ghost use Rattle.disk_in_memory.specs.Recorded.{first_named};
ghost use Rattle.disk_in_memory.specs.Unsynced.{handed_where, unsynced_after, unsynced_by};
ghost use Rattle.disk.specs.DiskCalls.{CutsShort, IsRenamed, MayBeRenamed, Shortens, TearsRange, with_cut};
ghost use Rattle.memory_objects.specs.MemStore.{file_named};
ghost use Rattle.memory_objects.specs.NameSet.{names_in};
ghost use Rattle.outside.specs.Unsynced.{AddsNone, UnsyncedNames, with_handed, with_name};
ghost use Rattle.outside.specs.World.{World, KeepsOtherTwo, KeepsOthers, with_bytes, with_file, with_new_name};

use crate::disk_call::DiskCall;
use memory_objects::{NameSet, NamedFiles};
use std::alloc::{AllocError, Global};

/// Files in memory with a record of the calls that made them, and the names that are unsynced.
#[derive(Debug, Drop)]
pub(crate) struct RecordedFiles {
    /// The files before the first call, once there was one.
    first: Option<NamedFiles>,
    files: NamedFiles,
    calls: Vec<DiskCall>,
    /// The names that are unsynced, and, while a call is made that may fail, further ones.
    unsynced: NameSet,
    ghost replayed: { file_named files.entries.items
        ≡ read_after (first_named first files.entries.items) (reverse calls.items) },
    ghost named: { AddsNone (names_in unsynced.names.items)
        (unsynced_after (first_named first files.entries.items) (reverse calls.items)) },
}

impl RecordedFiles {
    ghost use Rattle.disk_in_memory.specs.Told.{calls_of, first_of, left_unsynced, names_of, present_of, told_of};
    ghost use Rattle.disk_in_memory.specs.Told.{told_with};

    /// These files, and no call yet.
    pub(crate) fn new(files: NamedFiles, alloc: Global) -> Self
        ensures first { first_of result ≡ file_named files.entries.items }
        ensures calls { calls_of result ≡ [] }
        ensures files { present_of result ≡ file_named files.entries.items }
        ensures unsynced { (name : List ℕ) → names_of result name ≡ false }
    {
        RecordedFiles {
            first: None,
            files,
            calls: Vec::new(alloc),
            unsynced: NameSet::new(alloc),
        }
    }

    /// The bytes of a file, or `None` where there is none of this name.
    pub(crate) fn find(&self, name: &str) -> Option<&[u8]>
        ensures { option_copied result ≡ present_of self.now name.now }
    {
        self.files.find(name)
    }

    /// The allocator of the record.
    pub(crate) fn allocator(&self) -> Global {
        *self.calls.allocator()
    }

    /// Writes bytes into a file at a place.
    pub(crate) fn write(&mut self, name: &str, at: usize, bytes: &[u8]) -> Result<(), AllocError>
        requires { at + length bytes.now < 2 ^ 63 }
        ensures ok { OnOk result (present_of self.new ≡ with_bytes (present_of self.old) name.now at bytes.now) }
        ensures unsynced { OnOk result (names_of self.new ≡ with_name (names_of self.old) name.now true) }
        ensures fault { OnErr result ((failed later : ℕ) → failed ≤ later
            → ChangesNothing (told_of self.old failed) (told_of self.new later)) }
        ensures any { OnOk result ((failed later : ℕ)
            → AllowsStep (TearsRange name.now at (length bytes.now)) (told_of self.old failed)
            (told_of self.new later)) }
        ensures others { KeepsOthers name.now (names_of self.old) (names_of self.new) }
        ensures leaves { (failed later : ℕ) → failed ≤ later
            → TakesStep (TearsRange name.now at (length bytes.now)) (told_of self.old failed) (told_of self.new later) }
    {
        let call = DiskCall::write(self.allocator(), name, at, bytes)?;
        self.change(name, call)?;
        Ok(())
    }

    /// Makes an empty file.
    pub(crate) fn create(&mut self, name: &str) -> Result<(), AllocError>
        ensures ok { OnOk result (present_of self.new ≡ with_file (present_of self.old) name.now (Some [])) }
        ensures unsynced { OnOk result (names_of self.new ≡ with_name (names_of self.old) name.now true) }
        ensures fault { OnErr result ((failed later : ℕ) → failed ≤ later
            → ChangesNothing (told_of self.old failed) (told_of self.new later)) }
        ensures any { OnOk result ((failed later : ℕ)
            → AllowsStep (CutsShort name.now 0) (told_of self.old failed) (told_of self.new later)) }
        ensures others { KeepsOthers name.now (names_of self.old) (names_of self.new) }
        ensures leaves { (failed later : ℕ) → failed ≤ later
            → TakesStep (CutsShort name.now 0) (told_of self.old failed) (told_of self.new later) }
    {
        let call = DiskCall::create(self.allocator(), name)?;
        self.change(name, call)?;
        Ok(())
    }

    /// Cuts a file to a length.
    pub(crate) fn cut(&mut self, name: &str, len: usize) -> Result<(), AllocError>
        ensures ok { OnOk result (present_of self.new ≡ with_cut (present_of self.old) name.now len) }
        ensures unsynced { OnOk result (names_of self.new ≡ with_name (names_of self.old) name.now true) }
        ensures fault { OnErr result ((failed later : ℕ) → failed ≤ later
            → ChangesNothing (told_of self.old failed) (told_of self.new later)) }
        ensures any { OnOk result ((failed later : ℕ)
            → AllowsStep (Shortens name.now len) (told_of self.old failed) (told_of self.new later)) }
        ensures others { KeepsOthers name.now (names_of self.old) (names_of self.new) }
        ensures leaves { (failed later : ℕ) → failed ≤ later
            → TakesStep (Shortens name.now len) (told_of self.old failed) (told_of self.new later) }
    {
        let call = DiskCall::cut(self.allocator(), name, len)?;
        self.change(name, call)?;
        Ok(())
    }

    /// Waits for a file.
    pub(crate) fn sync(&mut self, name: &str) -> Result<(), AllocError>
        ensures kept { OnOk result ((failed : ℕ) → IsDurable name.now (told_of self.new failed)) }
        ensures unsynced { OnOk result (names_of self.new ≡ with_name (names_of self.old) name.now false) }
        ensures none { OnOk result (AddsNone (names_of self.old) (names_of self.new)) }
        ensures any { OnOk result ((failed later : ℕ)
            → AllowsStep (λ old new. (new ≡ old) × (new name.now ≡ present_of self.old name.now))
            (told_of self.old failed) (told_of self.new later)) }
        ensures others { KeepsOthers name.now (names_of self.old) (names_of self.new) }
        ensures leaves { (failed later : ℕ) → failed ≤ later
            → ChangesNothing (told_of self.old failed) (told_of self.new later) }
    {
        let call = DiskCall::sync(self.allocator(), name)?;
        self.make(call)?;
        self.unsynced.remove(name);
        Ok(())
    }

    /// Gives a file another name.
    pub(crate) fn rename(&mut self, from: &str, to: &str) -> Result<(), AllocError>
        requires { from.now ≢ to.now }
        ensures ok { OnOk result (present_of self.new ≡ with_new_name (present_of self.old) from.now to.now) }
        ensures done { OnOk result ((failed later : ℕ) → failed ≤ later
            → DiskFollows (IsRenamed from.now to.now) (told_of self.old failed) (told_of self.new later)) }
        ensures unsynced { OnOk result (IsSome (present_of self.old from.now)
            → names_of self.new ≡ with_handed (names_of self.old) from.now to.now) }
        ensures absent { OnOk result (present_of self.old from.now ≡ None
            → AddsNone (names_of self.old) (names_of self.new)) }
        ensures fault { OnErr result ((failed later : ℕ) → failed ≤ later
            → ChangesNothing (told_of self.old failed) (told_of self.new later)) }
        ensures any { OnOk result ((failed later : ℕ)
            → AllowsStep (IsRenamed from.now to.now) (told_of self.old failed) (told_of self.new later)) }
        ensures others { KeepsOtherTwo from.now to.now (names_of self.old) (names_of self.new) }
        ensures leaves { (failed later : ℕ) → failed ≤ later
            → TakesStep (MayBeRenamed from.now to.now) (told_of self.old failed) (told_of self.new later) }
    {
        let call = DiskCall::rename(self.allocator(), from, to)?;
        self.hand_over(call, from, to)?;
        Ok(())
    }

    /// Makes a call that gives a file another name, which is unsynced then where the old one was. Until the call is
    /// made the old name stays among the unsynced ones, and the new one stands there too where it may be one of them.
    fn hand_over(&mut self, call: DiskCall, from: &str, to: &str) -> Result<(), AllocError>
        requires differ { from.now ≢ to.now }
        requires hands { (read : World) (names : UnsyncedNames) → unsynced_by call read names
            ≡ handed_where (is_some (read from.now)) names from.now to.now }
        ensures ok { OnOk result ((failed later : ℕ) → failed ≤ later
            → TakesStep (MayMake call (present_of self.old)) (told_of self.old failed) (told_of self.new later)) }
        ensures files { OnOk result (present_of self.new ≡ after_call call (present_of self.old)) }
        ensures any { OnOk result ((failed later : ℕ)
            → AllowsStep (MayMake call (present_of self.old)) (told_of self.old failed) (told_of self.new later)) }
        ensures err { OnErr result ((failed later : ℕ) → failed ≤ later
            → ChangesNothing (told_of self.old failed) (told_of self.new later)) }
        ensures unsynced { OnOk result (IsSome (present_of self.old from.now)
            → names_of self.new ≡ with_handed (names_of self.old) from.now to.now) }
        ensures absent { OnOk result (present_of self.old from.now ≡ None
            → AddsNone (names_of self.old) (names_of self.new)) }
        ensures others { KeepsOtherTwo from.now to.now (names_of self.old) (names_of self.new) }
    {
        if self.files.find(from).is_none() {
            return self.hand_none(call, from, to);
        }
        if self.unsynced.contains(from) {
            return self.hand_unsynced(call, from, to);
        }
        self.hand_synced(call, from, to)
    }

    /// Makes a call that gives another name to a file that is not there.
    fn hand_none(&mut self, call: DiskCall, from: &str, to: &str) -> Result<(), AllocError>
        requires absent { present_of self.old from.now ≡ None }
        requires hands { (read : World) (names : UnsyncedNames) → unsynced_by call read names
            ≡ handed_where (is_some (read from.now)) names from.now to.now }
        ensures ok { OnOk result ((failed later : ℕ) → failed ≤ later
            → TakesStep (MayMake call (present_of self.old)) (told_of self.old failed) (told_of self.new later)) }
        ensures files { OnOk result (present_of self.new ≡ after_call call (present_of self.old)) }
        ensures any { OnOk result ((failed later : ℕ)
            → AllowsStep (MayMake call (present_of self.old)) (told_of self.old failed) (told_of self.new later)) }
        ensures err { OnErr result ((failed later : ℕ) → failed ≤ later
            → ChangesNothing (told_of self.old failed) (told_of self.new later)) }
        ensures unsynced { names_of self.new ≡ names_of self.old }
    {
        self.make(call)?;
        Ok(())
    }

    /// Makes a call that gives another name to a file whose name is unsynced.
    fn hand_unsynced(&mut self, call: DiskCall, from: &str, to: &str) -> Result<(), AllocError>
        requires differ { from.now ≢ to.now }
        requires there { IsSome (present_of self.old from.now) }
        requires is { names_of self.old from.now ≡ true }
        requires hands { (read : World) (names : UnsyncedNames) → unsynced_by call read names
            ≡ handed_where (is_some (read from.now)) names from.now to.now }
        ensures ok { OnOk result ((failed later : ℕ) → failed ≤ later
            → TakesStep (MayMake call (present_of self.old)) (told_of self.old failed) (told_of self.new later)) }
        ensures files { OnOk result (present_of self.new ≡ after_call call (present_of self.old)) }
        ensures any { OnOk result ((failed later : ℕ)
            → AllowsStep (MayMake call (present_of self.old)) (told_of self.old failed) (told_of self.new later)) }
        ensures err { OnErr result ((failed later : ℕ) → failed ≤ later
            → ChangesNothing (told_of self.old failed) (told_of self.new later)) }
        ensures unsynced { OnOk result (names_of self.new ≡ with_handed (names_of self.old) from.now to.now) }
        ensures others { KeepsOtherTwo from.now to.now (names_of self.old) (names_of self.new) }
    {
        self.unsynced.add(to)?;
        self.make(call)?;
        self.unsynced.remove(from);
        Ok(())
    }

    /// Makes a call that gives another name to a file whose name is synced.
    fn hand_synced(&mut self, call: DiskCall, from: &str, to: &str) -> Result<(), AllocError>
        requires differ { from.now ≢ to.now }
        requires there { IsSome (present_of self.old from.now) }
        requires is { names_of self.old from.now ≡ false }
        requires hands { (read : World) (names : UnsyncedNames) → unsynced_by call read names
            ≡ handed_where (is_some (read from.now)) names from.now to.now }
        ensures ok { OnOk result ((failed later : ℕ) → failed ≤ later
            → TakesStep (MayMake call (present_of self.old)) (told_of self.old failed) (told_of self.new later)) }
        ensures files { OnOk result (present_of self.new ≡ after_call call (present_of self.old)) }
        ensures any { OnOk result ((failed later : ℕ)
            → AllowsStep (MayMake call (present_of self.old)) (told_of self.old failed) (told_of self.new later)) }
        ensures err { OnErr result ((failed later : ℕ) → failed ≤ later
            → ChangesNothing (told_of self.old failed) (told_of self.new later)) }
        ensures unsynced { OnOk result (names_of self.new ≡ with_handed (names_of self.old) from.now to.now) }
        ensures others { KeepsOtherTwo from.now to.now (names_of self.old) (names_of self.new) }
    {
        self.make(call)?;
        self.unsynced.remove(to);
        self.unsynced.remove(from);
        Ok(())
    }

    /// Makes a call that changes one file, whose name is unsynced then.
    fn change(&mut self, name: &str, call: DiskCall) -> Result<(), AllocError>
        requires { (read : World) (names : UnsyncedNames)
            → unsynced_by call read names ≡ with_name names name.now true }
        ensures ok { OnOk result ((failed later : ℕ) → failed ≤ later
            → TakesStep (MayMake call (present_of self.old)) (told_of self.old failed) (told_of self.new later)) }
        ensures files { OnOk result (present_of self.new ≡ after_call call (present_of self.old)) }
        ensures any { OnOk result ((failed later : ℕ)
            → AllowsStep (MayMake call (present_of self.old)) (told_of self.old failed) (told_of self.new later)) }
        ensures unsynced { OnOk result (names_of self.new ≡ with_name (names_of self.old) name.now true) }
        ensures err { OnErr result ((failed later : ℕ) → failed ≤ later
            → ChangesNothing (told_of self.old failed) (told_of self.new later)) }
        ensures others { KeepsOthers name.now (names_of self.old) (names_of self.new) }
    {
        self.unsynced.add(name)?;
        self.make(call)?;
        Ok(())
    }

    /// Makes a call, and keeps it in the record. The names that it leaves unsynced stand among the unsynced ones
    /// already.
    fn make(&mut self, call: DiskCall) -> Result<(), AllocError>
        requires { AddsNone (names_of self.old) (unsynced_by call (present_of self.old) (left_unsynced self.old)) }
        ensures left { OnOk result
            (left_unsynced self.new ≡ unsynced_by call (present_of self.old) (left_unsynced self.old)) }
        ensures stays { OnErr result (left_unsynced self.new ≡ left_unsynced self.old) }
        ensures ok { OnOk result ((names now : UnsyncedNames) (failed later : ℕ) → failed ≤ later
            → TakesStep (MayMake call (present_of self.old)) (told_with self.old names failed)
            (told_with self.new now later)) }
        ensures files { OnOk result (present_of self.new ≡ after_call call (present_of self.old)) }
        ensures any { OnOk result ((failed later : ℕ)
            → AllowsStep (MayMake call (present_of self.old)) (told_of self.old failed) (told_of self.new later)) }
        ensures err { OnErr result ((names now : UnsyncedNames) (failed later : ℕ) → failed ≤ later
            → ChangesNothing (told_with self.old names failed) (told_with self.new now later)) }
        ensures unsynced { self.new.unsynced ≡ self.old.unsynced }
    {
        self.add(call)
    }

    /// Makes a call, and adds it to the record.
    fn add(&mut self, call: DiskCall) -> Result<(), AllocError>
        requires { AddsNone (names_of self.old) (unsynced_by call (present_of self.old) (left_unsynced self.old)) }
        ensures first { first_of self.new ≡ first_of self.old }
        ensures ok { OnOk result (calls_of self.new ≡ call ∷ calls_of self.old) }
        ensures err { OnErr result (calls_of self.new ≡ calls_of self.old) }
        ensures unsynced { self.new.unsynced ≡ self.old.unsynced }
    {
        self.keep_first()?;
        self.calls.reserve(1)?;
        call.make(&mut self.files)?;
        self.calls.push(call)?;
        Ok(())
    }

    /// Keeps the first files where none are kept yet.
    fn keep_first(&mut self) -> Result<(), AllocError>
        ensures first { first_of self.new ≡ first_of self.old }
        ensures calls { self.new.calls.items ≡ self.old.calls.items }
        ensures files { self.new.files ≡ self.old.files }
        ensures kept { OnOk result (IsSome self.new.first) }
        ensures unsynced { self.new.unsynced ≡ self.old.unsynced }
    {
        if self.first.is_none() {
            self.first = Some(self.files.copied()?);
        }
        Ok(())
    }

    /// The files that are left where each call is done by half.
    pub(crate) fn into_half_left(self) -> Result<NamedFiles, AllocError>
        ensures { IfOk result (λ left. file_named left.entries.items ≡ half_left (first_of self) (calls_of self)) }
    {
        let calls = self.calls;
        let mut read = self.first.unwrap_or(self.files);
        let mut left = read.copied()?;
        make_halves(&mut read, &mut left, &calls)?;
        Ok(left)
    }
}

/// Makes calls, one after another, on one copy of the files as they are, and on the other one by half.
fn make_halves(
    read: &mut NamedFiles,
    left: &mut NamedFiles,
    calls: &[DiskCall],
) -> Result<(), AllocError>
    requires { file_named left.old.entries.items ≡ file_named read.old.entries.items }
    ensures { OnOk result
        (file_named left.new.entries.items ≡ half_left (file_named read.old.entries.items) (reverse calls.now)) }
{
    for call in calls {
        call.make_half(read, left)?;
        call.make(read)?;
    }
    Ok(())
}
