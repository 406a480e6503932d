use crate::beside::{Beside, open_beside};
use file_names::names::{NEW, behind_link, changed_meanwhile};
use file_windows::Access;
use std::alloc::Global;
use std::fs::{File, Files};
use std::io;
use std::io::ErrorKind;
use std::os::unix::fs::FileExt;

/// What stands behind the name of a file in that of its undo file.
pub const UNDO: &str = ".undo";

/// What stands there in the name that a new undo file has first.
pub const UND: &str = ".und";

/// What byte 0 of an undo file is where its gate is open.
pub const OPEN: u8 = 1;

/// A byte of an undo file that nobody reads, between its gate and what stands behind that.
pub const UNREAD: u64 = 7;

/// The file of which a name stands for the undo file, and what stands behind its name there.
pub fn undone_file(name: &str) -> Option<(&str, &'static str)> {
    match name.strip_suffix(UNDO) {
        Some(file) => Some((file, UNDO)),
        None => Some((name.strip_suffix(UND)?, UND)),
    }
}

/// The name of the file beside which one of this name stands for a while, or this name.
pub fn plain_name(name: &str) -> &str {
    match undone_file(name) {
        Some((file, _)) => file,
        None => name.strip_suffix(NEW).unwrap_or(name),
    }
}

/// Where an undo file of a file is: beside the one that the name of the file leads to.
pub fn undo_path<R: Files<File = File>>(
    alloc: Global,
    files: &R,
    file: &str,
    ending: &str,
) -> io::Result<String> {
    let mut path = behind_link(alloc, files, file)?;
    path.push_str(ending)?;
    Ok(path)
}

/// Where an undo file of a file is, as it may be shown on a terminal: a place behind a link may have any characters,
/// which its owner chose. Where one is not from `!` to `~` the undo file is called by the name of its file.
pub fn shown_undo<R: Files<File = File>>(
    alloc: Global,
    files: &R,
    file: &str,
    ending: &str,
) -> io::Result<String> {
    let place = undo_path(alloc, files, file, ending)?;
    if place.as_bytes().iter().all(|byte| byte.is_ascii_graphic()) {
        return Ok(place);
    }
    let mut name = String::from_str(alloc, file)?;
    name.push_str(ending)?;
    Ok(name)
}

/// The most times that an undo file is looked at which another command exchanges meanwhile.
const MOST_LOOKS: u32 = 8;

/// Whether the gate of an open undo file is open.
pub fn is_open(undo: &File) -> io::Result<bool> {
    let mut gate = [0; 1];
    let count = undo.read_at(&mut gate, 0)?;
    Ok(count == 1 && gate[0] == OPEN)
}

/// Whether a gate is open, whoever made the undo file: what is no regular file has none. Without a lock another command
/// may put a new undo file in the place of the one that is looked at, which is looked at then.
fn is_open_at<R: Files<File = File>>(files: &R, path: &str) -> io::Result<bool> {
    for _ in 0..MOST_LOOKS {
        match open_beside(files, path, Access::Reading) {
            Ok(Beside::Opened(undo)) => return is_open(&undo.file),
            Ok(_) => return Ok(false),
            Err(error) => match error.kind() {
                ErrorKind::ResourceBusy | ErrorKind::NotFound => {}
                _ => return Err(error),
            },
        }
    }
    Err(changed_meanwhile())
}

/// Whether a file has to be recovered: whether the gate of its undo file is open, whoever made that.
pub fn is_to_recover<R: Files<File = File>>(
    alloc: Global,
    files: &R,
    file: &str,
) -> io::Result<bool> {
    let path = undo_path(alloc, files, file, UNDO)?;
    is_open_at(files, path.as_str())
}
