use crate::failed::FailedAt;
use crate::sharing::Lock;
use file_names::names::{changed_meanwhile, lock_at_once, open_file, stamp_at, stands_for};
use file_names::stamp::{Node, Stamp};
use file_windows::Access;
use run_notes::Teller;
use std::alloc::Global;
use std::fs::{File, Files, TryLockError};
use std::io;
use std::io::{Eprint, ErrorKind};
use undo_trust::undo::is_to_recover;

/// A file that was locked.
#[derive(Drop)]
pub struct LockedFile {
    /// Which file it is.
    pub node: Node,
    /// The open file, with which the lock goes.
    pub file: File,
    /// What it may be used for.
    pub access: Access,
    /// Why it was not opened to be written to, where that was tried.
    pub denied: Option<io::Error>,
}

/// A file that was opened to be locked.
#[derive(Drop)]
struct Lockable {
    file: File,
    access: Access,
    denied: Option<io::Error>,
}

impl Lockable {
    /// The file, which was locked.
    fn locked(self, node: Node) -> LockedFile {
        LockedFile {
            node,
            file: self.file,
            access: self.access,
            denied: self.denied,
        }
    }
}

/// Opens a file that is to be locked alone so that it may be written to, where the system lets us, and any other one so
/// that it may be read.
fn open_to_lock<R: Files<File = File>>(files: &R, path: &str, lock: Lock) -> io::Result<Lockable> {
    let mut denied = None;
    if lock == Lock::Exclusive {
        match open_file(files, path, Access::Writing) {
            Ok(file) => {
                return Ok(Lockable {
                    file,
                    access: Access::Writing,
                    denied: None,
                });
            }
            Err(error) => denied = Some(error),
        }
    }
    Ok(Lockable {
        file: open_file(files, path, Access::Reading)?,
        access: Access::Reading,
        denied,
    })
}

/// Waits until the file of a name is locked, and says so where somebody is told.
fn wait_for<R: Eprint>(
    err: &R,
    teller: Teller<'_>,
    path: &str,
    file: &File,
    lock: Lock,
) -> io::Result<()> {
    if teller.is_asked() {
        match try_lock(file, lock) {
            Ok(()) => return Ok(()),
            Err(TryLockError::Error(error)) => return Err(error),
            Err(TryLockError::WouldBlock) => {
                teller.tell_of(err, path, "waits for another program that has locked it");
            }
        }
    }
    match lock {
        Lock::Shared => file.lock_shared(),
        Lock::Exclusive => file.lock(),
    }
}

/// Locks a file, unless another program has locked it.
fn try_lock(file: &File, lock: Lock) -> Result<(), TryLockError> {
    match lock {
        Lock::Shared => file.try_lock_shared(),
        Lock::Exclusive => file.try_lock(),
    }
}

/// Opens the file of a name and locks it, once those who have it let it go; none where there is no file. What the name
/// stands for by then may be another file, which is opened in its place. A turn ends so only where the name changed
/// since the turn before, so the bound on the turns is never met.
///
/// # Errors
///
/// It may not be opened, is no regular file, or the system failed.
pub fn lock_waiting<R: Files<File = File> + Eprint>(
    files: &R,
    teller: Teller<'_>,
    path: &str,
    found: Option<Stamp>,
    lock: Lock,
) -> io::Result<Option<LockedFile>> {
    let mut found = found;
    for _ in 0..u64::MAX {
        if found.is_none() {
            return Ok(None);
        }
        let opened = match open_to_lock(files, path, lock) {
            Ok(opened) => opened,
            Err(error) if error.kind() == ErrorKind::NotFound => {
                found = stamp_at(files, path)?;
                continue;
            }
            Err(error) => return Err(error),
        };
        wait_for(files, teller, path, &opened.file, lock)?;
        let node = Node::of(&opened.file.metadata()?);
        found = stamp_at(files, path)?;
        if found.is_some_and(|stamp| stamp.node() == node) {
            return Ok(Some(opened.locked(node)));
        }
    }
    Err(changed_meanwhile())
}

/// Opens the file of a name and locks it beside others, or alone where it has to be recovered; none where there is no
/// file. Whether it has to be is looked at again behind the lock. A turn ends otherwise only where that changed since
/// the turn before, so the bound on the turns is never met.
///
/// # Errors
///
/// It may not be opened, is no regular file, or the system failed. `failed_at` says at which file.
pub fn lock_to_read<R: Files<File = File> + Eprint>(
    alloc: Global,
    files: &R,
    teller: Teller<'_>,
    path: &str,
    found: Option<Stamp>,
    failed_at: &mut FailedAt,
) -> io::Result<Option<LockedFile>> {
    let mut found = found;
    let mut lock = lock_due(alloc, files, path, failed_at)?;
    for _ in 0..u64::MAX {
        let Some(locked) = lock_waiting(files, teller, path, found, lock)? else {
            return Ok(None);
        };
        let due = lock_due(alloc, files, path, failed_at)?;
        if due == lock {
            return Ok(Some(locked));
        }
        lock = due;
        found = stamp_at(files, path)?;
    }
    Err(changed_meanwhile())
}

/// How a file is to be locked that is to be read. Its undo file is looked at for that.
fn lock_due<R: Files<File = File>>(
    alloc: Global,
    files: &R,
    path: &str,
    failed_at: &mut FailedAt,
) -> io::Result<Lock> {
    match is_to_recover(alloc, files, path) {
        Ok(true) => Ok(Lock::Exclusive),
        Ok(false) => Ok(Lock::Shared),
        Err(error) => {
            *failed_at = FailedAt::Undo;
            Err(error)
        }
    }
}

/// Locks a file that was just made.
///
/// # Errors
///
/// Another program was faster, or the system failed.
pub fn lock_made(file: File, access: Access) -> io::Result<LockedFile> {
    lock_at_once(&file)?;
    let node = Node::of(&file.metadata()?);
    Ok(LockedFile {
        node,
        file,
        access,
        denied: None,
    })
}

/// Opens the file of a name and locks it alone.
///
/// # Errors
///
/// It may not be opened, another program has locked it, it is no longer what it was at the first look at that name,
/// where there was one, or the system failed.
pub fn lock_unchanged<R: Files<File = File>>(
    files: &R,
    path: &str,
    first: Option<Option<Stamp>>,
) -> io::Result<LockedFile> {
    let opened = open_to_lock(files, path, Lock::Exclusive)?;
    lock_at_once(&opened.file)?;
    let now = Stamp::of(&opened.file.metadata()?);
    let is_same = match first {
        Some(first) => first == Some(now),
        None => true,
    };
    let node = now.node();
    if is_same && stands_for(files, path, node)? {
        Ok(opened.locked(node))
    } else {
        Err(changed_meanwhile())
    }
}
