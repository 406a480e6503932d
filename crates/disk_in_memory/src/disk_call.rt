ghost use Rattle.std.specs.Prelude.{◌≡◌, ◌≢◌, ◌+◌, ◌<◌, ◌^◌, ◌↔◌, [], Some, length, true, false, is_some, IfOk, OnOk};
ghost use Rattle.std.specs.Prelude.{OnErr};
ghost use Rattle.std.specs.String.{string_bytes};
ghost use Rattle.disk.specs.DiskCalls.{CutsShort, IsRenamed, Shortens, TearsRange, with_cut};
ghost use Rattle.outside.specs.Unsynced.{UnsyncedNames, with_name};
ghost use Rattle.outside.specs.World.{World, with_bytes, with_file, with_new_name};
ghost use Rattle.memory_objects.specs.MemStore.{file_named};

use memory_objects::NamedFiles;
use std::alloc::{AllocError, Global};

/// Bytes that were written into a file at a place.
#[derive(Debug, Drop)]
pub(crate) struct Writing {
    pub name: String,
    pub at: usize,
    pub bytes: Vec<u8>,
    ghost fits: { at + length bytes.items < 2 ^ 63 },
}

/// Another name that was given to a file.
#[derive(Debug, Drop)]
pub(crate) struct Renaming {
    pub from: String,
    pub to: String,
    ghost differ: { string_bytes from ≢ string_bytes to },
}

/// A call that changes a file, or that waits for one.
#[derive(Debug, Drop)]
pub(crate) enum DiskCall {
    Write(Writing),
    Create(String),
    Cut(String, usize),
    Sync(String),
    Rename(Renaming),
}

impl DiskCall {
    ghost use Rattle.disk_in_memory.specs.Calls.{MayMake, after_call, half_call};
    ghost use Rattle.disk_in_memory.specs.Unsynced.{handed_where, unsynced_by};

    /// A write of bytes into a file at a place.
    pub(crate) fn write(
        alloc: Global,
        name: &str,
        at: usize,
        bytes: &[u8],
    ) -> Result<DiskCall, AllocError>
        requires { at + length bytes.now < 2 ^ 63 }
        ensures done { IfOk result
            (λ call. (files : World) → after_call call files ≡ with_bytes files name.now at bytes.now) }
        ensures left { IfOk result (λ call. (read old new : World) → MayMake call read old new
            ↔ TearsRange name.now at (length bytes.now) old new) }
        ensures names { IfOk result
            (λ call.
            (read : World) (names : UnsyncedNames) → unsynced_by call read names ≡ with_name names name.now true) }
    {
        Ok(DiskCall::Write(Writing {
            name: String::from_str(alloc, name)?,
            at,
            bytes: bytes.to_vec(alloc)?,
        }))
    }

    /// A new empty file.
    pub(crate) fn create(alloc: Global, name: &str) -> Result<DiskCall, AllocError>
        ensures done { IfOk result
            (λ call. (files : World) → after_call call files ≡ with_file files name.now (Some [])) }
        ensures left { IfOk result
            (λ call. (read old new : World) → MayMake call read old new ↔ CutsShort name.now 0 old new) }
        ensures names { IfOk result
            (λ call.
            (read : World) (names : UnsyncedNames) → unsynced_by call read names ≡ with_name names name.now true) }
    {
        Ok(DiskCall::Create(String::from_str(alloc, name)?))
    }

    /// A file that is cut to a length.
    pub(crate) fn cut(alloc: Global, name: &str, len: usize) -> Result<DiskCall, AllocError>
        ensures done { IfOk result (λ call. (files : World) → after_call call files ≡ with_cut files name.now len) }
        ensures left { IfOk result
            (λ call. (read old new : World) → MayMake call read old new ↔ Shortens name.now len old new) }
        ensures names { IfOk result
            (λ call.
            (read : World) (names : UnsyncedNames) → unsynced_by call read names ≡ with_name names name.now true) }
    {
        Ok(DiskCall::Cut(String::from_str(alloc, name)?, len))
    }

    /// A wait for a file.
    pub(crate) fn sync(alloc: Global, name: &str) -> Result<DiskCall, AllocError>
        ensures done { IfOk result (λ call. (files : World) → after_call call files ≡ files) }
        ensures left { IfOk result (λ call. (read old new : World) → MayMake call read old new
            ↔ ((new ≡ old) × (new name.now ≡ read name.now))) }
        ensures names { IfOk result
            (λ call.
            (read : World) (names : UnsyncedNames) → unsynced_by call read names ≡ with_name names name.now false) }
    {
        Ok(DiskCall::Sync(String::from_str(alloc, name)?))
    }

    /// Another name for a file.
    pub(crate) fn rename(alloc: Global, from: &str, to: &str) -> Result<DiskCall, AllocError>
        requires { from.now ≢ to.now }
        ensures done { IfOk result
            (λ call. (files : World) → after_call call files ≡ with_new_name files from.now to.now) }
        ensures left { IfOk result
            (λ call. (read old new : World) → MayMake call read old new ↔ IsRenamed from.now to.now old new) }
        ensures names { IfOk result (λ call. (read : World) (names : UnsyncedNames) → unsynced_by call read names
            ≡ handed_where (is_some (read from.now)) names from.now to.now) }
    {
        Ok(DiskCall::Rename(Renaming {
            from: String::from_str(alloc, from)?,
            to: String::from_str(alloc, to)?,
        }))
    }

    /// Does to these files what the call does.
    pub(crate) fn make(&self, files: &mut NamedFiles) -> Result<(), AllocError>
        ensures ok { OnOk result
            (file_named files.new.entries.items ≡ after_call self.now (file_named files.old.entries.items)) }
        ensures err { OnErr result (file_named files.new.entries.items ≡ file_named files.old.entries.items) }
    {
        match self {
            DiskCall::Write(writing) => {
                files.write(writing.name.as_str(), writing.at, writing.bytes.as_slice())
            }
            DiskCall::Create(name) => files.create(name.as_str()),
            DiskCall::Cut(name, len) => {
                files.cut(name.as_str(), *len);
                Ok(())
            }
            DiskCall::Sync(_) => Ok(()),
            DiskCall::Rename(renaming) => files.rename(
                renaming.from.as_str(),
                renaming.to.as_str(),
            ),
        }
    }

    /// Does the call to these files by half, where `read` are the files that are read before it: half of the bytes of a
    /// write, and none of a new or a shortened file.
    pub(crate) fn make_half(
        &self,
        read: &NamedFiles,
        files: &mut NamedFiles,
    ) -> Result<(), AllocError>
        ensures { OnOk result (file_named files.new.entries.items
            ≡ half_call self.now (file_named read.now.entries.items) (file_named files.old.entries.items)) }
    {
        match self {
            DiskCall::Write(writing) => {
                let half = writing.bytes.len() - writing.bytes.len() / 2;
                files.write(writing.name.as_str(), writing.at, &writing.bytes[..half])
            }
            DiskCall::Sync(name) => take_over(read, files, name.as_str()),
            DiskCall::Rename(renaming) => files.rename(
                renaming.from.as_str(),
                renaming.to.as_str(),
            ),
            _ => Ok(()),
        }
    }
}

/// Gives a name the file that it has among others.
fn take_over(read: &NamedFiles, files: &mut NamedFiles, name: &str) -> Result<(), AllocError>
    ensures { OnOk result (file_named files.new.entries.items
        ≡ with_file (file_named files.old.entries.items) name.now (file_named read.now.entries.items name.now)) }
{
    match read.find(name) {
        Some(bytes) => files.put(name, bytes),
        None => {
            files.remove(name);
            Ok(())
        }
    }
}
