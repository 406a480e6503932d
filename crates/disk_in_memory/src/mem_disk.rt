ghost use Rattle.std.specs.Prelude.{◌≡◌, ◌≢◌, ◌≤◌, ◌^◌, ◌↔◌, [], None, Some, length, take, drop, true, false, IsErr};
ghost use Rattle.std.specs.Prelude.{IsSome, IsTrue, IfOk, OnOk, OnErr, is_ok};
ghost use Rattle.std.specs.Option.{option_map};
ghost use Rattle.disk.specs.DiskSeen.{ChangesNothing, DiskFollows, IsDurable, TakesStep};
ghost use Rattle.disk.specs.DiskLaws.{AllowsStep, IsFresh};
ghost use Rattle.disk_in_memory.specs.MemDisk.{HasStopped, IsToFail, half_left_of, mem_disk_plan, mem_disk_seen};
ghost use Rattle.disk.specs.DiskCalls.{CutsShort, IsRenamed, MayBeRenamed, Shortens, TearsRange, with_cut};
ghost use Rattle.memory_objects.specs.MemStore.{HaveDistinctNames, file_named};
ghost use Rattle.outside.specs.Count.{Rose, counted};
ghost use Rattle.outside.specs.Unsynced.{AddsNone, with_handed, with_name};
ghost use Rattle.outside.specs.World.{KeepsOtherTwo, KeepsOthers, bytes_from, with_bytes, with_file, with_new_name};

use crate::recorded::RecordedFiles;
use disk::{Disk, DiskFault};
use memory_objects::{Failures, NamedFiles};
use std::alloc::{AllocError, Global};

/// A disk in memory, which tells its files and what a stop may leave of them. It can be made to fail at given calls,
/// and to stop at one of them, from which on every call fails. Where it cannot get memory for a file, a name or the
/// record of a call, it has failed too. A call that fails changes no file, nor what a stop may leave.
#[derive(Debug, Drop)]
pub struct MemDisk {
    recorded: RecordedFiles,
    failures: Failures,
    stop: Option<u64>,
}

impl MemDisk {
    /// A disk with these files, all of them synced. The calls whose numbers, from 1 on, stand in `failing` fail, and
    /// all calls from the one of number `stop` on.
    pub fn new(files: Vec<(String, Vec<u8>)>, failing: Vec<u64>, stop: Option<u64>) -> Self
        requires { HaveDistinctNames files.items }
        ensures fresh { IsFresh (file_named files.items) (⟦<MemDisk as Disk>⟧.seen result) }
        ensures plan { mem_disk_plan result ≡ record { failing = failing.items; stop = stop; calls = 0 } }
    {
        let alloc = *files.allocator();
        MemDisk::of(alloc, NamedFiles::new(files), failing, stop)
    }

    /// The disk as a stop of the machine may leave it, started anew. A file that was synced is as it was read then; of
    /// each write since, the greater half of the bytes is there, from the front; of a `create` or a `cut` since,
    /// nothing is; and each rename is done. No call is to fail but those from the one of number `stop` on, counted anew
    /// from 1.
    ///
    /// # Errors
    ///
    /// There was not enough memory.
    pub fn after_stop(self, stop: Option<u64>) -> Result<MemDisk, AllocError>
        ensures image { IfOk result
            (λ disk. (⟦<MemDisk as Disk>⟧.seen self).images (⟦<MemDisk as Disk>⟧.seen disk).files) }
        ensures half { IfOk result (λ disk. (⟦<MemDisk as Disk>⟧.seen disk).files ≡ half_left_of self) }
        ensures fresh { IfOk result
            (λ disk. IsFresh (⟦<MemDisk as Disk>⟧.seen disk).files (⟦<MemDisk as Disk>⟧.seen disk)) }
        ensures plan { IfOk result (λ disk. mem_disk_plan disk ≡ record { failing = []; stop = stop; calls = 0 }) }
    {
        let alloc = self.recorded.allocator();
        let left = self.recorded.into_half_left()?;
        Ok(MemDisk::of(alloc, left, Vec::new(alloc), stop))
    }

    fn of(alloc: Global, files: NamedFiles, failing: Vec<u64>, stop: Option<u64>) -> Self
        ensures fresh { IsFresh (file_named files.entries.items) (mem_disk_seen result) }
        ensures plan { mem_disk_plan result ≡ record { failing = failing.items; stop = stop; calls = 0 } }
    {
        MemDisk {
            recorded: RecordedFiles::new(files, alloc),
            failures: Failures::new(failing),
            stop,
        }
    }
}

/// Counts one more call, and says whether it is to fail, which is then counted too.
fn next_fails(failures: &mut Failures, stop: Option<u64>) -> bool
    ensures planned { IsTrue result
        ↔ IsToFail (record { failing = failures.old.failing.items; stop = stop; calls = failures.old.calls }) }
    ensures failing { failures.new.failing.items ≡ failures.old.failing.items }
    ensures calls { failures.new.calls ≡ counted failures.old.calls }
    ensures rises { IsTrue result → Rose failures.old.faults failures.new.faults }
    ensures later { failures.old.faults ≤ failures.new.faults }
{
    if failures.next_fails() {
        return true;
    }
    if !is_reached(stop, failures.calls) {
        return false;
    }
    failures.count_fault();
    true
}

/// What the disk answers that has made a call, or that could not get the memory for it, which is a fault.
fn outcome(failures: &mut Failures, done: Result<(), AllocError>) -> Result<(), DiskFault>
    ensures same { is_ok result ≡ is_ok done }
    ensures failing { failures.new.failing.items ≡ failures.old.failing.items }
    ensures calls { failures.new.calls ≡ failures.old.calls }
    ensures rises { OnErr result (Rose failures.old.faults failures.new.faults) }
    ensures later { failures.old.faults ≤ failures.new.faults }
{
    match done {
        Ok(()) => Ok(()),
        Err(_) => {
            failures.count_fault();
            Err(DiskFault)
        }
    }
}

/// Copies the bytes from place `at` on into `buf`, as many as it holds or there are, and answers how many.
fn copy_from(bytes: &[u8], at: usize, buf: &mut [u8]) -> usize
    ensures fits { result ≤ length buf.new }
    ensures count { result ≡ length (take (length buf.old) (drop at bytes.now)) }
    ensures bytes { take result buf.new ≡ take (length buf.old) (drop at bytes.now) }
{
    let start = at.min(bytes.len());
    let count = buf.len().min(bytes.len() - start);
    buf[..count].copy_from_slice(&bytes[start..start + count]);
    count
}

/// Whether a number is that of a stop, or a later one.
fn is_reached(stop: Option<u64>, number: u64) -> bool
    ensures { IsTrue result ↔ HasStopped stop number }
{
    match stop {
        Some(first) => first <= number,
        None => false,
    }
}

impl Disk for MemDisk {
    ghost use Rattle.std.specs.Prelude.{true};
    ghost use Rattle.disk_in_memory.specs.Images.{present-left};
    ghost use Rattle.disk_in_memory.specs.MemDisk.{read_is_left, synced_is_left};
    ghost use Rattle.disk_in_memory.specs.Told.{calls_of, first_of};

    ghost tells = { true };

    ghost seen = { mem_disk_seen };

    ghost read_is_image = { read_is_left };

    ghost synced_is_kept = { λ disk name told. synced_is_left disk name };

    ghost present_is_now = { λ disk image. present-left (first_of disk.recorded) (calls_of disk.recorded) image };

    fn size(&mut self, name: &str) -> Result<Option<u64>, DiskFault>
        ensures planned { IsErr result ↔ IsToFail (mem_disk_plan self.old) }
        ensures found { IfOk result (λ found. found ≡ option_map length ((mem_disk_seen self.old).files name.now)) }
        ensures plan { mem_disk_plan self.new
            ≡ record (mem_disk_plan self.old) { calls = counted (mem_disk_plan self.old).calls } }
        ensures cause { OnErr result (Rose (mem_disk_seen self.old).faults (mem_disk_seen self.new).faults) }
        ensures unsynced { (mem_disk_seen self.new).unsynced ≡ (mem_disk_seen self.old).unsynced }
        ensures leaves { ChangesNothing (mem_disk_seen self.old) (mem_disk_seen self.new) }
    {
        if next_fails(&mut self.failures, self.stop) {
            return Err(DiskFault);
        }
        match self.recorded.find(name) {
            Some(bytes) => Ok(Some(bytes.len() as u64)),
            None => Ok(None),
        }
    }

    fn read(&mut self, name: &str, at: u64, buf: &mut [u8]) -> Result<usize, DiskFault>
        ensures planned { IsErr result ↔ IsToFail (mem_disk_plan self.old) }
        ensures fits { IfOk result (λ count. count ≤ length buf.new) }
        ensures count { IfOk result (λ count. count
            ≡ length (bytes_from ((mem_disk_seen self.old).files name.now) at (length buf.old))) }
        ensures bytes { IfOk result (λ count. take count buf.new
            ≡ bytes_from ((mem_disk_seen self.old).files name.now) at (length buf.old)) }
        ensures plan { mem_disk_plan self.new
            ≡ record (mem_disk_plan self.old) { calls = counted (mem_disk_plan self.old).calls } }
        ensures cause { OnErr result (Rose (mem_disk_seen self.old).faults (mem_disk_seen self.new).faults) }
        ensures unsynced { (mem_disk_seen self.new).unsynced ≡ (mem_disk_seen self.old).unsynced }
        ensures leaves { ChangesNothing (mem_disk_seen self.old) (mem_disk_seen self.new) }
    {
        if next_fails(&mut self.failures, self.stop) {
            return Err(DiskFault);
        }
        let Some(bytes) = self.recorded.find(name) else {
            return Ok(0);
        };
        Ok(copy_from(bytes, at as usize, buf))
    }

    fn write(&mut self, name: &str, at: u64, bytes: &[u8]) -> Result<(), DiskFault>
        requires few { length bytes.now ≤ 1024 }
        requires place { at ≤ 2 ^ 42 }
        ensures planned { IsToFail (mem_disk_plan self.old) → IsErr result }
        ensures plan { mem_disk_plan self.new
            ≡ record (mem_disk_plan self.old) { calls = counted (mem_disk_plan self.old).calls } }
        ensures ok { OnOk result ((mem_disk_seen self.new).files
            ≡ with_bytes (mem_disk_seen self.old).files name.now at bytes.now) }
        ensures unsynced { OnOk result ((mem_disk_seen self.new).unsynced
            ≡ with_name (mem_disk_seen self.old).unsynced name.now true) }
        ensures fault { OnErr result (ChangesNothing (mem_disk_seen self.old) (mem_disk_seen self.new)) }
        ensures any { OnOk result
            (AllowsStep (TearsRange name.now at (length bytes.now)) (mem_disk_seen self.old) (mem_disk_seen self.new)) }
        ensures cause { OnErr result (Rose (mem_disk_seen self.old).faults (mem_disk_seen self.new).faults) }
        ensures others { KeepsOthers name.now (mem_disk_seen self.old).unsynced (mem_disk_seen self.new).unsynced }
        ensures leaves { TakesStep (TearsRange name.now at (length bytes.now)) (mem_disk_seen self.old)
            (mem_disk_seen self.new) }
    {
        if next_fails(&mut self.failures, self.stop) {
            return Err(DiskFault);
        }
        let done = self.recorded.write(name, at as usize, bytes);
        outcome(&mut self.failures, done)
    }

    fn create(&mut self, name: &str) -> Result<(), DiskFault>
        ensures planned { IsToFail (mem_disk_plan self.old) → IsErr result }
        ensures plan { mem_disk_plan self.new
            ≡ record (mem_disk_plan self.old) { calls = counted (mem_disk_plan self.old).calls } }
        ensures ok { OnOk result ((mem_disk_seen self.new).files
            ≡ with_file (mem_disk_seen self.old).files name.now (Some [])) }
        ensures unsynced { OnOk result ((mem_disk_seen self.new).unsynced
            ≡ with_name (mem_disk_seen self.old).unsynced name.now true) }
        ensures fault { OnErr result (ChangesNothing (mem_disk_seen self.old) (mem_disk_seen self.new)) }
        ensures any { OnOk result
            (AllowsStep (CutsShort name.now 0) (mem_disk_seen self.old) (mem_disk_seen self.new)) }
        ensures cause { OnErr result (Rose (mem_disk_seen self.old).faults (mem_disk_seen self.new).faults) }
        ensures others { KeepsOthers name.now (mem_disk_seen self.old).unsynced (mem_disk_seen self.new).unsynced }
        ensures leaves { TakesStep (CutsShort name.now 0) (mem_disk_seen self.old) (mem_disk_seen self.new) }
    {
        if next_fails(&mut self.failures, self.stop) {
            return Err(DiskFault);
        }
        let done = self.recorded.create(name);
        outcome(&mut self.failures, done)
    }

    fn cut(&mut self, name: &str, len: u64) -> Result<(), DiskFault>
        ensures planned { IsToFail (mem_disk_plan self.old) → IsErr result }
        ensures plan { mem_disk_plan self.new
            ≡ record (mem_disk_plan self.old) { calls = counted (mem_disk_plan self.old).calls } }
        ensures ok { OnOk result ((mem_disk_seen self.new).files
            ≡ with_cut (mem_disk_seen self.old).files name.now len) }
        ensures unsynced { OnOk result ((mem_disk_seen self.new).unsynced
            ≡ with_name (mem_disk_seen self.old).unsynced name.now true) }
        ensures fault { OnErr result (ChangesNothing (mem_disk_seen self.old) (mem_disk_seen self.new)) }
        ensures any { OnOk result
            (AllowsStep (Shortens name.now len) (mem_disk_seen self.old) (mem_disk_seen self.new)) }
        ensures cause { OnErr result (Rose (mem_disk_seen self.old).faults (mem_disk_seen self.new).faults) }
        ensures others { KeepsOthers name.now (mem_disk_seen self.old).unsynced (mem_disk_seen self.new).unsynced }
        ensures leaves { TakesStep (Shortens name.now len) (mem_disk_seen self.old) (mem_disk_seen self.new) }
    {
        if next_fails(&mut self.failures, self.stop) {
            return Err(DiskFault);
        }
        let done = self.recorded.cut(name, len as usize);
        outcome(&mut self.failures, done)
    }

    fn sync(&mut self, name: &str) -> Result<(), DiskFault>
        ensures planned { IsToFail (mem_disk_plan self.old) → IsErr result }
        ensures plan { mem_disk_plan self.new
            ≡ record (mem_disk_plan self.old) { calls = counted (mem_disk_plan self.old).calls } }
        ensures kept { OnOk result (IsDurable name.now (mem_disk_seen self.new)) }
        ensures unsynced { OnOk result ((mem_disk_seen self.new).unsynced
            ≡ with_name (mem_disk_seen self.old).unsynced name.now false) }
        ensures none { OnOk result (AddsNone (mem_disk_seen self.old).unsynced (mem_disk_seen self.new).unsynced) }
        ensures any { OnOk result
            (AllowsStep (λ old new. (new ≡ old) × (new name.now ≡ (mem_disk_seen self.old).files name.now))
            (mem_disk_seen self.old) (mem_disk_seen self.new)) }
        ensures cause { OnErr result (Rose (mem_disk_seen self.old).faults (mem_disk_seen self.new).faults) }
        ensures others { KeepsOthers name.now (mem_disk_seen self.old).unsynced (mem_disk_seen self.new).unsynced }
        ensures leaves { ChangesNothing (mem_disk_seen self.old) (mem_disk_seen self.new) }
    {
        if next_fails(&mut self.failures, self.stop) {
            return Err(DiskFault);
        }
        let done = self.recorded.sync(name);
        outcome(&mut self.failures, done)
    }

    fn rename(&mut self, from: &str, to: &str) -> Result<(), DiskFault>
        requires { from.now ≢ to.now }
        ensures planned { IsToFail (mem_disk_plan self.old) → IsErr result }
        ensures plan { mem_disk_plan self.new
            ≡ record (mem_disk_plan self.old) { calls = counted (mem_disk_plan self.old).calls } }
        ensures ok { OnOk result ((mem_disk_seen self.new).files
            ≡ with_new_name (mem_disk_seen self.old).files from.now to.now) }
        ensures done { OnOk result
            (DiskFollows (IsRenamed from.now to.now) (mem_disk_seen self.old) (mem_disk_seen self.new)) }
        ensures unsynced { OnOk result (IsSome ((mem_disk_seen self.old).files from.now)
            → (mem_disk_seen self.new).unsynced ≡ with_handed (mem_disk_seen self.old).unsynced from.now to.now) }
        ensures absent { OnOk result ((mem_disk_seen self.old).files from.now ≡ None
            → AddsNone (mem_disk_seen self.old).unsynced (mem_disk_seen self.new).unsynced) }
        ensures fault { OnErr result (ChangesNothing (mem_disk_seen self.old) (mem_disk_seen self.new)) }
        ensures any { OnOk result
            (AllowsStep (IsRenamed from.now to.now) (mem_disk_seen self.old) (mem_disk_seen self.new)) }
        ensures cause { OnErr result (Rose (mem_disk_seen self.old).faults (mem_disk_seen self.new).faults) }
        ensures others { KeepsOtherTwo from.now to.now (mem_disk_seen self.old).unsynced
            (mem_disk_seen self.new).unsynced }
        ensures leaves { TakesStep (MayBeRenamed from.now to.now) (mem_disk_seen self.old) (mem_disk_seen self.new) }
    {
        if next_fails(&mut self.failures, self.stop) {
            return Err(DiskFault);
        }
        let done = self.recorded.rename(from, to);
        outcome(&mut self.failures, done)
    }
}
