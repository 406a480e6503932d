use crate::new_names::folder_of;
use crate::stamp::{Node, Stamp};
use file_windows::{Access, no_regular_file};
use std::alloc::Global;
use std::fs::{File, Files, Metadata, OpenOptions, TryLockError};
use std::io::ErrorKind;
use std::os::unix::fs::OpenOptionsExt;
use std::{fs, io};

/// What is put behind the name of a file that is written anew, until it takes that name.
pub const NEW: &str = ".new";

/// What the system says of a name; none where nothing stands there.
fn present(said: io::Result<Metadata>) -> io::Result<Option<Metadata>> {
    match said {
        Ok(metadata) => Ok(Some(metadata)),
        Err(error) => match error.kind() {
            ErrorKind::NotFound | ErrorKind::NotADirectory => Ok(None),
            _ => Err(error),
        },
    }
}

/// What the system says of what a name stands for, behind a link, too; none where that is nothing. Source: stat(2).
pub fn metadata_at<R: Files>(files: &R, path: &str) -> io::Result<Option<Metadata>> {
    present(fs::metadata(files, path))
}

/// What stands under a name itself, where a link is not followed; none where nothing does. Source: lstat(2).
pub fn itself_at<R: Files>(files: &R, path: &str) -> io::Result<Option<Metadata>> {
    present(fs::symlink_metadata(files, path))
}

/// What a name stands for, behind a link, too; none where there is no file. What is no regular file, such as a folder
/// or a pipe, is an error: opening a pipe would wait for whoever writes to it.
pub fn stamp_at<R: Files>(files: &R, path: &str) -> io::Result<Option<Stamp>> {
    match metadata_at(files, path)? {
        Some(metadata) if metadata.is_file() => Ok(Some(Stamp::of(&metadata))),
        Some(metadata) => Err(no_regular_file(&metadata)),
        None => Ok(None),
    }
}

/// What a name stands for that is to be replaced; none where that is no regular file.
pub fn replaced_at<R: Files>(files: &R, path: &str) -> io::Result<Option<Stamp>> {
    match metadata_at(files, path)? {
        Some(metadata) if metadata.is_file() => Ok(Some(Stamp::of(&metadata))),
        _ => Ok(None),
    }
}

/// Whether a name stands for this file, behind a link, too.
pub fn stands_for<R: Files>(files: &R, path: &str, node: Node) -> io::Result<bool> {
    let found = stamp_at(files, path)?;
    Ok(found.is_some_and(|stamp| stamp.node() == node))
}

/// Whether a name is that of this file itself.
pub fn is_itself<R: Files>(files: &R, path: &str, node: Node) -> io::Result<bool> {
    let found = itself_at(files, path)?;
    Ok(found.is_some_and(|metadata| Node::of(&metadata) == node))
}

/// Where a name leads: to the file behind it where it is a link, else nowhere but to itself. A link that leads to no
/// file is taken for the name of none.
pub fn behind_link<R: Files>(alloc: Global, files: &R, name: &str) -> io::Result<String> {
    match fs::symlink_metadata(files, name) {
        Ok(metadata) if metadata.file_type().is_symlink() && replaced_at(files, name)?.is_some() =>
            { Ok(files.canonicalize(alloc, name)?.into_string()) }
        _ => Ok(String::from_str(alloc, name)?),
    }
}

/// Opens a file that is there, and makes none.
pub fn open_file<R: Files<File = File>>(files: &R, path: &str, access: Access) -> io::Result<File> {
    let mut options = OpenOptions::new();
    options
        .read(true)
        .write(access != Access::Reading)
        .open(files, path)
}

/// Makes a file where there is none. Only its owner may read and write it. What somebody else made meanwhile, a link to
/// no file too, is an error.
pub fn make_absent<R: Files<File = File>>(files: &R, path: &str) -> io::Result<File> {
    let mut options = OpenOptions::new();
    options.read(true).write(true).create_new(true).mode(0o600);
    options.open(files, path)
}

/// Makes an empty file in place of one that was left behind under its name, which is taken away: what it stood for
/// stays where it has another name, for example behind a link. Only its owner may read and write the new file.
pub fn make_anew<R: Files<File = File>>(files: &R, path: &str) -> io::Result<File> {
    match fs::remove_file(files, path) {
        Err(error) if error.kind() != ErrorKind::NotFound => return Err(error),
        _ => {}
    }
    make_absent(files, path)
}

/// That another program made something else of a file meanwhile.
pub fn changed_meanwhile() -> io::Error {
    io::Error::new(
        ErrorKind::ResourceBusy,
        "Changed by another program meanwhile",
    )
}

/// Locks a file alone, unless another program has locked it.
pub fn lock_at_once(file: &File) -> io::Result<()> {
    match file.try_lock() {
        Ok(()) => Ok(()),
        Err(TryLockError::Error(error)) => Err(error),
        Err(TryLockError::WouldBlock) => Err(io::Error::new(
            ErrorKind::WouldBlock,
            "Locked by another program",
        )),
    }
}

/// Gives a file another name, and answers whether it was there.
pub fn rename_present<R: Files>(files: &R, from: &str, to: &str) -> io::Result<bool> {
    match fs::rename(files, from, to) {
        Ok(()) => Ok(true),
        Err(error) if error.kind() == ErrorKind::NotFound => match fs::symlink_metadata(
            files, from,
        ) {
            Ok(_) => Err(error),
            Err(_) => Ok(false),
        },
        Err(error) => Err(error),
    }
}

/// Waits until the names in a file's folder are on the disk. Source: fsync(2).
pub fn sync_folder<R: Files<File = File>>(files: &R, path: &str) -> io::Result<()> {
    File::open(files, folder_of(path))?.sync_all()
}
