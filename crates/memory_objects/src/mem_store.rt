ghost use Rattle.std.specs.Prelude.{◌≡◌, ◌≢◌, ◌+◌, ◌<◌, ◌≤◌, ◌^◌, ◌↔◌, [], None, Some, length, take, true, false};
ghost use Rattle.std.specs.Prelude.{Contains, IsErr, IsSome, IfOk, OnOk, OnErr, is_ok};
ghost use Rattle.std.specs.Option.{option_copied, option_map};
ghost use Rattle.outside.specs.Count.{Rose, counted};
ghost use Rattle.outside.specs.Frame.{ChangesOne, ChangesTwo, OnlyReads};
ghost use Rattle.memory_objects.specs.InMemory.{mem_store_plan, mem_store_seen, new_plan};
ghost use Rattle.memory_objects.specs.MemStore.{HaveDistinctNames, file_named};
ghost use Rattle.outside.specs.Unsynced.{AddsNone, with_handed, with_name};
ghost use Rattle.outside.specs.World.{bytes_from, with_bytes, with_file, with_new_name};

use crate::failures::Failures;
use crate::name_set::NameSet;
use crate::named_files::NamedFiles;
use outside::{Store, StoreFault};
use std::alloc::AllocError;

/// A store in memory, which tells its files and the unsynced names. It can be made to fail at given calls. Where it
/// cannot get memory for a file or a name, it has failed too.
#[derive(Debug, Drop)]
pub struct MemStore {
    files: NamedFiles,
    unsynced: NameSet,
    failures: Failures,
    reads: u64,
    writes: u64,
}

impl MemStore {
    /// A store with these files, all of them synced. The calls whose numbers, from 1 on, stand in `failing` fail.
    pub fn new(files: Vec<(String, Vec<u8>)>, failing: Vec<u64>) -> Self
        requires { HaveDistinctNames files.items }
        ensures seen { ⟦<MemStore as Store>⟧.seen result
            ≡ record { files = file_named files.items; unsynced = λ _. false; faults = 0; reads = 0; writes = 0 } }
        ensures plan { mem_store_plan result ≡ new_plan failing.items }
    {
        let unsynced = NameSet::new(*files.allocator());
        MemStore {
            files: NamedFiles::new(files),
            unsynced,
            failures: Failures::new(failing),
            reads: 0,
            writes: 0,
        }
    }

    /// The bytes of a file, or `None` where there is none of this name.
    pub fn file(&self, name: &str) -> Option<&[u8]>
        ensures { option_copied result ≡ (⟦<MemStore as Store>⟧.seen self.now).files name.now }
    {
        self.files.find(name)
    }

    /// The bytes of a file, or `None` where there is none of this name. They are not copied, and no memory is taken.
    pub fn into_file(self, name: &str) -> Option<Vec<u8>>
        ensures { option_map (λ file. file.items) result ≡ (⟦<MemStore as Store>⟧.seen self).files name.now }
    {
        self.files.into_file(name)
    }

    /// Whether a name was written or made since it was last synced.
    pub fn is_unsynced(&self, name: &str) -> bool
        ensures { result ≡ (⟦<MemStore as Store>⟧.seen self.now).unsynced name.now }
    {
        self.unsynced.contains(name)
    }

    /// How many calls of `read` there were.
    pub fn reads(&self) -> u64
        ensures { result ≡ (⟦<MemStore as Store>⟧.seen self.now).reads }
    {
        self.reads
    }

    /// How many calls of `write` there were.
    pub fn writes(&self) -> u64
        ensures { result ≡ (⟦<MemStore as Store>⟧.seen self.now).writes }
    {
        self.writes
    }

    fn write_file(&mut self, name: &str, at: usize, bytes: &[u8]) -> Result<(), AllocError>
        requires { at + length bytes.now < 2 ^ 63 }
        ensures ok { OnOk result
            ((mem_store_seen self.new).files ≡ with_bytes (mem_store_seen self.old).files name.now at bytes.now) }
        ensures unsynced { OnOk result
            ((mem_store_seen self.new).unsynced ≡ with_name (mem_store_seen self.old).unsynced name.now true) }
        ensures fault { OnErr result ((mem_store_seen self.new).files ≡ (mem_store_seen self.old).files) }
        ensures leaves { ChangesOne name.now (mem_store_seen self.old) (mem_store_seen self.new) }
        ensures faults { (mem_store_seen self.new).faults ≡ (mem_store_seen self.old).faults }
        ensures writes { (mem_store_seen self.new).writes ≡ (mem_store_seen self.old).writes }
        ensures plan { mem_store_plan self.new ≡ mem_store_plan self.old }
    {
        self.unsynced.add(name)?;
        self.files.write(name, at, bytes)
    }

    fn create_file(&mut self, name: &str) -> Result<(), AllocError>
        ensures ok { OnOk result
            ((mem_store_seen self.new).files ≡ with_file (mem_store_seen self.old).files name.now (Some [])) }
        ensures unsynced { OnOk result
            ((mem_store_seen self.new).unsynced ≡ with_name (mem_store_seen self.old).unsynced name.now true) }
        ensures fault { OnErr result ((mem_store_seen self.new).files ≡ (mem_store_seen self.old).files) }
        ensures leaves { ChangesOne name.now (mem_store_seen self.old) (mem_store_seen self.new) }
        ensures faults { (mem_store_seen self.new).faults ≡ (mem_store_seen self.old).faults }
        ensures writes { (mem_store_seen self.new).writes ≡ (mem_store_seen self.old).writes }
        ensures plan { mem_store_plan self.new ≡ mem_store_plan self.old }
    {
        self.unsynced.add(name)?;
        self.files.create(name)
    }

    fn rename_file(&mut self, from: &str, to: &str) -> Result<(), AllocError>
        requires { from.now ≢ to.now }
        ensures ok { OnOk result
            ((mem_store_seen self.new).files ≡ with_new_name (mem_store_seen self.old).files from.now to.now) }
        ensures unsynced { OnOk result (IsSome ((mem_store_seen self.old).files from.now)
            → (mem_store_seen self.new).unsynced ≡ with_handed (mem_store_seen self.old).unsynced from.now to.now) }
        ensures absent { OnOk result ((mem_store_seen self.old).files from.now ≡ None
            → AddsNone (mem_store_seen self.old).unsynced (mem_store_seen self.new).unsynced) }
        ensures absent_names { OnOk result ((mem_store_seen self.old).files from.now ≡ None
            → (mem_store_seen self.new).unsynced ≡ (mem_store_seen self.old).unsynced) }
        ensures fault { OnErr result ((mem_store_seen self.new).files ≡ (mem_store_seen self.old).files) }
        ensures leaves { ChangesTwo from.now to.now (mem_store_seen self.old) (mem_store_seen self.new) }
        ensures faults { (mem_store_seen self.new).faults ≡ (mem_store_seen self.old).faults }
        ensures writes { (mem_store_seen self.new).writes ≡ (mem_store_seen self.old).writes }
        ensures plan { mem_store_plan self.new ≡ mem_store_plan self.old }
    {
        if self.files.find(from).is_none() {
            return Ok(());
        }
        self.unsynced.hand_over(from, to)?;
        self.files.rename(from, to)
    }
}

impl Store for MemStore {
    ghost use Rattle.std.specs.Prelude.{true};

    ghost tells = { true };

    ghost seen = { mem_store_seen };

    ghost commits = { λ _ _ _. Unit {0} };

    ghost commits_nothing = { λ _ _. tt };

    ghost commits_on = { λ _ _ _ _ _ _ _. tt };

    fn size(&mut self, name: &str) -> Result<Option<u64>, StoreFault>
        ensures planned { IsErr result
            ↔ Contains (mem_store_plan self.old).failing (counted (mem_store_plan self.old).calls) }
        ensures found { IfOk result (λ found. found ≡ option_map length ((mem_store_seen self.old).files name.now)) }
        ensures plan { mem_store_plan self.new
            ≡ record (mem_store_plan self.old) { calls = counted (mem_store_plan self.old).calls } }
        ensures cause { OnErr result (Rose (mem_store_seen self.old).faults (mem_store_seen self.new).faults) }
        ensures leaves { OnlyReads (is_ok result) name.now (mem_store_seen self.old) (mem_store_seen self.new) }
        ensures reads { (mem_store_seen self.new).reads ≡ (mem_store_seen self.old).reads }
    {
        if self.failures.next_fails() {
            return Err(StoreFault);
        }
        match self.files.find(name) {
            Some(bytes) => Ok(Some(bytes.len() as u64)),
            None => Ok(None),
        }
    }

    fn read(&mut self, name: &str, at: u64, buf: &mut [u8]) -> Result<usize, StoreFault>
        ensures planned { IsErr result
            ↔ Contains (mem_store_plan self.old).failing (counted (mem_store_plan self.old).calls) }
        ensures fits { IfOk result (λ count. count ≤ length buf.new) }
        ensures count { IfOk result (λ count. count
            ≡ length (bytes_from ((mem_store_seen self.old).files name.now) at (length buf.old))) }
        ensures bytes { IfOk result (λ count. take count buf.new
            ≡ bytes_from ((mem_store_seen self.old).files name.now) at (length buf.old)) }
        ensures plan { mem_store_plan self.new
            ≡ record (mem_store_plan self.old) { calls = counted (mem_store_plan self.old).calls } }
        ensures cause { OnErr result (Rose (mem_store_seen self.old).faults (mem_store_seen self.new).faults) }
        ensures leaves { OnlyReads (is_ok result) name.now (mem_store_seen self.old) (mem_store_seen self.new) }
        ensures reads { (mem_store_seen self.new).reads ≡ counted (mem_store_seen self.old).reads }
    {
        self.reads = self.reads.saturating_add(1);
        if self.failures.next_fails() {
            return Err(StoreFault);
        }
        let Some(bytes) = self.files.find(name) else {
            return Ok(0);
        };
        let start = (at as usize).min(bytes.len());
        let count = buf.len().min(bytes.len() - start);
        buf[..count].copy_from_slice(&bytes[start..start + count]);
        Ok(count)
    }

    fn write(&mut self, name: &str, at: u64, bytes: &[u8]) -> Result<(), StoreFault>
        requires few { length bytes.now ≤ 1024 }
        requires place { at ≤ 2 ^ 42 }
        ensures planned { Contains (mem_store_plan self.old).failing (counted (mem_store_plan self.old).calls)
            → IsErr result }
        ensures ok { OnOk result ((mem_store_seen self.new).files
            ≡ with_bytes (mem_store_seen self.old).files name.now at bytes.now) }
        ensures unsynced { OnOk result ((mem_store_seen self.new).unsynced
            ≡ with_name (mem_store_seen self.old).unsynced name.now true) }
        ensures fault { OnErr result ((mem_store_seen self.new).files ≡ (mem_store_seen self.old).files) }
        ensures plan { mem_store_plan self.new
            ≡ record (mem_store_plan self.old) { calls = counted (mem_store_plan self.old).calls } }
        ensures cause { OnErr result (Rose (mem_store_seen self.old).faults (mem_store_seen self.new).faults) }
        ensures leaves { ChangesOne name.now (mem_store_seen self.old) (mem_store_seen self.new) }
        ensures writes { (mem_store_seen self.new).writes ≡ counted (mem_store_seen self.old).writes }
    {
        self.writes = self.writes.saturating_add(1);
        if self.failures.next_fails() {
            return Err(StoreFault);
        }
        let done = self.write_file(name, at as usize, bytes);
        self.failures.outcome(done)
    }

    fn create(&mut self, name: &str) -> Result<(), StoreFault>
        ensures planned { Contains (mem_store_plan self.old).failing (counted (mem_store_plan self.old).calls)
            → IsErr result }
        ensures ok { OnOk result ((mem_store_seen self.new).files
            ≡ with_file (mem_store_seen self.old).files name.now (Some [])) }
        ensures unsynced { OnOk result ((mem_store_seen self.new).unsynced
            ≡ with_name (mem_store_seen self.old).unsynced name.now true) }
        ensures fault { OnErr result ((mem_store_seen self.new).files ≡ (mem_store_seen self.old).files) }
        ensures plan { mem_store_plan self.new
            ≡ record (mem_store_plan self.old) { calls = counted (mem_store_plan self.old).calls } }
        ensures cause { OnErr result (Rose (mem_store_seen self.old).faults (mem_store_seen self.new).faults) }
        ensures leaves { ChangesOne name.now (mem_store_seen self.old) (mem_store_seen self.new) }
        ensures writes { (mem_store_seen self.new).writes ≡ (mem_store_seen self.old).writes }
    {
        if self.failures.next_fails() {
            return Err(StoreFault);
        }
        let done = self.create_file(name);
        self.failures.outcome(done)
    }

    fn sync(&mut self, name: &str) -> Result<(), StoreFault>
        ensures planned { IsErr result
            ↔ Contains (mem_store_plan self.old).failing (counted (mem_store_plan self.old).calls) }
        ensures unsynced { OnOk result ((mem_store_seen self.new).unsynced
            ≡ with_name (mem_store_seen self.old).unsynced name.now false) }
        ensures plan { mem_store_plan self.new
            ≡ record (mem_store_plan self.old) { calls = counted (mem_store_plan self.old).calls } }
        ensures cause { OnErr result (Rose (mem_store_seen self.old).faults (mem_store_seen self.new).faults) }
        ensures leaves { OnlyReads (is_ok result) name.now (mem_store_seen self.old) (mem_store_seen self.new) }
        ensures reads { (mem_store_seen self.new).reads ≡ (mem_store_seen self.old).reads }
    {
        if self.failures.next_fails() {
            return Err(StoreFault);
        }
        self.unsynced.remove(name);
        Ok(())
    }

    fn rename(&mut self, from: &str, to: &str) -> Result<(), StoreFault>
        requires { from.now ≢ to.now }
        ensures planned { Contains (mem_store_plan self.old).failing (counted (mem_store_plan self.old).calls)
            → IsErr result }
        ensures ok { OnOk result ((mem_store_seen self.new).files
            ≡ with_new_name (mem_store_seen self.old).files from.now to.now) }
        ensures unsynced { OnOk result (IsSome ((mem_store_seen self.old).files from.now)
            → (mem_store_seen self.new).unsynced ≡ with_handed (mem_store_seen self.old).unsynced from.now to.now) }
        ensures absent { OnOk result ((mem_store_seen self.old).files from.now ≡ None
            → AddsNone (mem_store_seen self.old).unsynced (mem_store_seen self.new).unsynced) }
        ensures absent_names { OnOk result ((mem_store_seen self.old).files from.now ≡ None
            → (mem_store_seen self.new).unsynced ≡ (mem_store_seen self.old).unsynced) }
        ensures fault { OnErr result ((mem_store_seen self.new).files ≡ (mem_store_seen self.old).files) }
        ensures plan { mem_store_plan self.new
            ≡ record (mem_store_plan self.old) { calls = counted (mem_store_plan self.old).calls } }
        ensures cause { OnErr result (Rose (mem_store_seen self.old).faults (mem_store_seen self.new).faults) }
        ensures leaves { ChangesTwo from.now to.now (mem_store_seen self.old) (mem_store_seen self.new) }
        ensures writes { (mem_store_seen self.new).writes ≡ (mem_store_seen self.old).writes }
    {
        if self.failures.next_fails() {
            return Err(StoreFault);
        }
        let done = self.rename_file(from, to);
        self.failures.outcome(done)
    }
}
