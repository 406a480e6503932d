//! What stands beside a quota file under names that other accounts could have made.

use file_names::names::{changed_meanwhile, itself_at, lock_at_once, open_file};
use file_names::stamp::Node;
use file_windows::Access;
use std::fs::{File, Files, Metadata};
use std::io;
use std::io::ErrorKind;

/// What stands under a name that another account could have made.
#[derive(Drop)]
pub enum Beside {
    /// Nothing.
    Nothing,
    /// What is no regular file: a link, a folder, a pipe or a device. It is not opened.
    NoFile(Metadata),
    /// A regular file.
    Opened(OpenBeside),
}

/// A regular file that was opened by a name which another account could have made.
#[derive(Drop)]
pub struct OpenBeside {
    /// The open file.
    pub file: File,
    /// What the system says of the open file.
    pub metadata: Metadata,
}

/// Opens a file that is there, and neither makes nor cuts one. The name is looked at before, and the open file behind
/// that: another one than was seen is an error, so that no link is followed. Source: open(2), whose O_NOFOLLOW is not
/// to be had.
pub fn open_beside<R: Files<File = File>>(
    files: &R,
    path: &str,
    access: Access,
) -> io::Result<Beside> {
    let Some(seen) = itself_at(files, path)? else {
        return Ok(Beside::Nothing);
    };
    if !seen.is_file() {
        return Ok(Beside::NoFile(seen));
    }
    let file = open_file(files, path, access)?;
    let metadata = file.metadata()?;
    if metadata.is_file() && Node::of(&metadata) == Node::of(&seen) {
        Ok(Beside::Opened(OpenBeside { file, metadata }))
    } else {
        Err(changed_meanwhile())
    }
}

/// Refuses a name that stands for a file which another program has locked. What may not be read is passed over.
pub fn refuse_locked<R: Files<File = File>>(files: &R, path: &str) -> io::Result<()> {
    match open_beside(files, path, Access::Reading) {
        Ok(Beside::Opened(found)) => lock_at_once(&found.file),
        Err(error) if error.kind() == ErrorKind::ResourceBusy => Err(error),
        _ => Ok(()),
    }
}
