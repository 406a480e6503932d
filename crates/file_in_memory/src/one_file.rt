ghost use Rattle.std.specs.Prelude.{◌≡◌, ◌≢◌, ◌+◌, ◌<◌, ◌≤◌, ◌^◌, ℕ, List, [], None, Some, length, take, true, false};
ghost use Rattle.std.specs.Prelude.{IsOk, IsSome, IfOk, OnOk, OnErr, is_ok, if◌then◌else◌};
ghost use Rattle.std.specs.Option.{option_copied, option_map};
ghost use Rattle.std.specs.Str.{bytes_eq};
ghost use Rattle.std.specs.String.{string_bytes};
ghost use Rattle.file_in_memory.specs.OneFile.{one_file_name, one_file_room, one_file_seen, only_file};
ghost use Rattle.file_in_memory.specs.Capacity.{IsCapacityAfter};
ghost use Rattle.outside.specs.Count.{Rose, counted};
ghost use Rattle.outside.specs.Frame.{ChangesOne, ChangesTwo, OnlyReads};
ghost use Rattle.outside.specs.Unsynced.{AddsNone, with_handed, with_name};
ghost use Rattle.outside.specs.World.{bytes_from, with_bytes, with_file, with_new_name};

use crate::growing::overwrite;
use outside::{Store, StoreFault};

/// A store in memory that has one file, under one name, and tells it. A call on that name other than `rename` is
/// refused only where a write makes the file longer. It is where there is not enough memory for that, of which no
/// clause says when it is so.
///
/// It never has another file: what would make one, or would give this one another name, is refused as a fault. Who
/// changes a file in place asks for neither.
#[derive(Debug, Drop)]
pub struct OneFile {
    name: String,
    bytes: Vec<u8>,
    unsynced: bool,
    faults: u64,
    reads: u64,
    writes: u64,
}

/// Counts a fault.
fn fault(faults: &mut u64) -> StoreFault
    ensures rose { faults.new ≡ counted faults.old }
    ensures later { faults.old ≤ faults.new }
{
    *faults = faults.saturating_add(1);
    StoreFault
}

impl OneFile {
    /// A store with one file, of this name and these bytes, which is synced.
    pub fn new(name: String, bytes: Vec<u8>) -> Self
        ensures seen { ⟦<OneFile as Store>⟧.seen result
            ≡ record {
              files = only_file (string_bytes name) bytes.items;
              unsynced = λ _. false;
              faults = 0;
              reads = 0;
              writes = 0;
            } }
        ensures file { (⟦<OneFile as Store>⟧.seen result).files (string_bytes name) ≡ Some bytes.items }
        ensures name { one_file_name result ≡ string_bytes name }
    {
        OneFile {
            name,
            bytes,
            unsynced: false,
            faults: 0,
            reads: 0,
            writes: 0,
        }
    }

    /// The bytes of the file. They are not copied, and no memory is taken.
    pub fn into_bytes(self) -> Vec<u8>
        ensures only { (⟦<OneFile as Store>⟧.seen self).files ≡ only_file (one_file_name self) result.items }
        ensures told { (name : List ℕ) → IsSome ((⟦<OneFile as Store>⟧.seen self).files name)
            → (⟦<OneFile as Store>⟧.seen self).files name ≡ Some result.items }
    {
        self.bytes
    }

    /// How many calls of `write` there were, up to the last value of a counter of 64 bits.
    pub fn writes(&self) -> u64
        ensures { result ≡ (⟦<OneFile as Store>⟧.seen self.now).writes }
    {
        self.writes
    }

    /// Whether this is the name of the file.
    fn has(&self, name: &str) -> bool
        ensures { result ≡ bytes_eq (one_file_name self.now) name.now }
    {
        self.name.as_str() == name
    }

    /// The bytes of the file, or `None` where it has another name.
    fn find(&self, name: &str) -> Option<&[u8]>
        ensures { option_copied result ≡ (one_file_seen self.now).files name.now }
    {
        if !self.has(name) {
            return None;
        }
        Some(self.bytes.as_slice())
    }
}

impl Store for OneFile {
    ghost use Rattle.std.specs.Prelude.{true};

    ghost tells = { true };

    ghost seen = { one_file_seen };

    ghost commits = { λ _ _ _. Unit {0} };

    ghost commits_nothing = { λ _ _. tt };

    ghost commits_on = { λ _ _ _ _ _ _ _. tt };

    fn size(&mut self, name: &str) -> Result<Option<u64>, StoreFault>
        ensures sure { IsOk result }
        ensures found { IfOk result (λ found. found ≡ option_map length ((one_file_seen self.old).files name.now)) }
        ensures cause { OnErr result (Rose (one_file_seen self.old).faults (one_file_seen self.new).faults) }
        ensures leaves { OnlyReads (is_ok result) name.now (one_file_seen self.old) (one_file_seen self.new) }
        ensures reads { (one_file_seen self.new).reads ≡ (one_file_seen self.old).reads }
        ensures own { (one_file_seen self.new).faults ≡ (one_file_seen self.old).faults }
        ensures room { one_file_room self.new ≡ one_file_room self.old }
    {
        match self.find(name) {
            Some(bytes) => Ok(Some(bytes.len() as u64)),
            None => Ok(None),
        }
    }

    fn read(&mut self, name: &str, at: u64, buf: &mut [u8]) -> Result<usize, StoreFault>
        ensures sure { IsOk result }
        ensures fits { IfOk result (λ count. count ≤ length buf.new) }
        ensures count { IfOk result (λ count. count
            ≡ length (bytes_from ((one_file_seen self.old).files name.now) at (length buf.old))) }
        ensures bytes { IfOk result (λ count. take count buf.new
            ≡ bytes_from ((one_file_seen self.old).files name.now) at (length buf.old)) }
        ensures cause { OnErr result (Rose (one_file_seen self.old).faults (one_file_seen self.new).faults) }
        ensures leaves { OnlyReads (is_ok result) name.now (one_file_seen self.old) (one_file_seen self.new) }
        ensures reads { (one_file_seen self.new).reads ≡ counted (one_file_seen self.old).reads }
        ensures own { (one_file_seen self.new).faults ≡ (one_file_seen self.old).faults }
        ensures room { one_file_room self.new ≡ one_file_room self.old }
    {
        self.reads = self.reads.saturating_add(1);
        let Some(bytes) = self.find(name) else {
            return Ok(0);
        };
        let start = (at as usize).min(bytes.len());
        let count = buf.len().min(bytes.len() - start);
        buf[..count].copy_from_slice(&bytes[start..start + count]);
        Ok(count)
    }

    fn write(&mut self, name: &str, at: u64, bytes: &[u8]) -> Result<(), StoreFault>
        requires few { length bytes.now ≤ 1024 }
        requires place { at ≤ 2 ^ 42 }
        ensures ok { OnOk result ((one_file_seen self.new).files
            ≡ with_bytes (one_file_seen self.old).files name.now at bytes.now) }
        ensures unsynced { OnOk result ((one_file_seen self.new).unsynced
            ≡ with_name (one_file_seen self.old).unsynced name.now true) }
        ensures fault { OnErr result ((one_file_seen self.new).files ≡ (one_file_seen self.old).files) }
        ensures longer { OnErr result ((file : List ℕ) → (one_file_seen self.old).files name.now ≡ Some file
            → length file < at + length bytes.now) }
        ensures cause { OnErr result (Rose (one_file_seen self.old).faults (one_file_seen self.new).faults) }
        ensures leaves { ChangesOne name.now (one_file_seen self.old) (one_file_seen self.new) }
        ensures writes { (one_file_seen self.new).writes ≡ counted (one_file_seen self.old).writes }
        ensures own { (one_file_seen self.new).faults
            ≡ (if is_ok result then (one_file_seen self.old).faults else counted (one_file_seen self.old).faults) }
        ensures room { IsCapacityAfter (one_file_room self.old) (one_file_room self.new) (at + length bytes.now) }
    {
        self.writes = self.writes.saturating_add(1);
        if !self.has(name) {
            return Err(fault(&mut self.faults));
        }
        match overwrite(&mut self.bytes, at as usize, bytes) {
            Ok(()) => {
                self.unsynced = true;
                Ok(())
            }
            Err(_) => Err(fault(&mut self.faults)),
        }
    }

    fn create(&mut self, name: &str) -> Result<(), StoreFault>
        ensures ok { OnOk result ((one_file_seen self.new).files
            ≡ with_file (one_file_seen self.old).files name.now (Some [])) }
        ensures unsynced { OnOk result ((one_file_seen self.new).unsynced
            ≡ with_name (one_file_seen self.old).unsynced name.now true) }
        ensures fault { OnErr result ((one_file_seen self.new).files ≡ (one_file_seen self.old).files) }
        ensures absent { OnErr result ((one_file_seen self.old).files name.now ≡ None) }
        ensures cause { OnErr result (Rose (one_file_seen self.old).faults (one_file_seen self.new).faults) }
        ensures leaves { ChangesOne name.now (one_file_seen self.old) (one_file_seen self.new) }
        ensures writes { (one_file_seen self.new).writes ≡ (one_file_seen self.old).writes }
        ensures own { (one_file_seen self.new).faults
            ≡ (if is_ok result then (one_file_seen self.old).faults else counted (one_file_seen self.old).faults) }
        ensures room { one_file_room self.new ≡ one_file_room self.old }
    {
        if !self.has(name) {
            return Err(fault(&mut self.faults));
        }
        self.bytes.clear();
        self.unsynced = true;
        Ok(())
    }

    fn sync(&mut self, name: &str) -> Result<(), StoreFault>
        ensures sure { IsOk result }
        ensures unsynced { OnOk result ((one_file_seen self.new).unsynced
            ≡ with_name (one_file_seen self.old).unsynced name.now false) }
        ensures cause { OnErr result (Rose (one_file_seen self.old).faults (one_file_seen self.new).faults) }
        ensures leaves { OnlyReads (is_ok result) name.now (one_file_seen self.old) (one_file_seen self.new) }
        ensures reads { (one_file_seen self.new).reads ≡ (one_file_seen self.old).reads }
        ensures own { (one_file_seen self.new).faults ≡ (one_file_seen self.old).faults }
        ensures room { one_file_room self.new ≡ one_file_room self.old }
    {
        if self.has(name) {
            self.unsynced = false;
        }
        Ok(())
    }

    fn rename(&mut self, from: &str, to: &str) -> Result<(), StoreFault>
        requires { from.now ≢ to.now }
        ensures ok { OnOk result ((one_file_seen self.new).files
            ≡ with_new_name (one_file_seen self.old).files from.now to.now) }
        ensures unsynced { OnOk result (IsSome ((one_file_seen self.old).files from.now)
            → (one_file_seen self.new).unsynced ≡ with_handed (one_file_seen self.old).unsynced from.now to.now) }
        ensures absent { OnOk result ((one_file_seen self.old).files from.now ≡ None
            → AddsNone (one_file_seen self.old).unsynced (one_file_seen self.new).unsynced) }
        ensures fault { OnErr result ((one_file_seen self.new).files ≡ (one_file_seen self.old).files) }
        ensures there { OnErr result (IsSome ((one_file_seen self.old).files from.now)) }
        ensures cause { OnErr result (Rose (one_file_seen self.old).faults (one_file_seen self.new).faults) }
        ensures leaves { ChangesTwo from.now to.now (one_file_seen self.old) (one_file_seen self.new) }
        ensures writes { (one_file_seen self.new).writes ≡ (one_file_seen self.old).writes }
        ensures own { (one_file_seen self.new).faults
            ≡ (if is_ok result then (one_file_seen self.old).faults else counted (one_file_seen self.old).faults) }
        ensures room { one_file_room self.new ≡ one_file_room self.old }
    {
        if self.has(from) {
            return Err(fault(&mut self.faults));
        }
        Ok(())
    }
}
