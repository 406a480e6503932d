//! Whether an undo file is one of ours, and whether what it says of its file is still so.

use crate::owner::{is_as_made, is_more_open, is_written_by_more};
use std::alloc::Global;
use std::fs::{File, Files, Metadata};
use std::io;
use std::os::unix::fs::MetadataExt;
use std::time::UNIX_EPOCH;

/// The user number of root. Source: credentials(7).
const ROOT: u32 = 0;

/// The most seconds by which a file is changed last behind the moment at which its gate was opened.
const MOST_SECONDS: i64 = 60;

/// The most seconds behind that moment at which a file was made that had its gate opened. A commit makes no file, but
/// clocks of files are coarse.
const MADE_SECONDS: i64 = 2;

/// Why an undo file is not believed.
#[derive(Clone, Copy, Debug, PartialEq, Eq)]
pub enum Distrust {
    /// It has further names (hard links), so it may be another account's file, or be changed by its other names.
    Names,
    /// It belongs to this user, who is neither the owner of its file, nor root, nor the caller.
    Owner(u32),
    /// Accounts may write it that may not write its file.
    Writers,
    /// Its file was changed by something else since its gate was opened. Both in seconds since 1970.
    Changed {
        /// When the gate was opened: the modification time of the undo file.
        opened: i64,
        /// When the file, or its owner, its permissions or its name, was changed last: the change time of the file.
        changed: i64,
    },
}

/// The user that the program acts as. Source: geteuid(2).
fn caller() -> u32 {
    libc::geteuid()
}

/// Whether a user is the owner of a file or the caller. Where the file is not there, it has no owner.
pub fn is_owner_or_caller(user: u32, of: Option<&Metadata>) -> bool {
    let is_owner = of.is_some_and(|of| of.uid() == user);
    is_owner || user == caller()
}

/// Whether a user is the owner of a file, root or the caller.
fn is_trusted(user: u32, of: Option<&Metadata>) -> bool {
    user == ROOT || is_owner_or_caller(user, of)
}

/// Why an undo file is not believed whatever it says, where it is not one of ours. Its file may be absent.
pub fn distrust_of(undo: &Metadata, of: Option<&Metadata>) -> Option<Distrust> {
    if undo.nlink() != 1 {
        return Some(Distrust::Names);
    }
    if !is_trusted(undo.uid(), of) {
        return Some(Distrust::Owner(undo.uid()));
    }
    if of.is_some_and(|of| is_written_by_more(undo, of)) {
        return Some(Distrust::Writers);
    }
    None
}

/// Whether an undo file of ours, with a closed gate, is as one that the caller would make, so that a commit may go on
/// with it. What is there is never given away or opened to more accounts: it may be another file that was moved there.
/// So a caller who may change it makes a new one where the owner, the group or the permissions of its file have
/// changed, and another caller where it is more open than its file.
pub fn serves(undo: &Metadata, of: Option<&Metadata>) -> bool {
    let Some(of) = of else {
        return true;
    };
    let user = caller();
    if user == ROOT || user == undo.uid() {
        is_as_made(undo, of, user == ROOT)
    } else {
        !is_more_open(undo, of)
    }
}

/// When the machine was started, in seconds since 1970; none where that is not told. Source: proc_stat(5), `btime`.
fn boot_time<R: Files<File = File>>(alloc: Global, files: &R) -> Option<i64> {
    let file = File::open(files, "/proc/stat").ok()?;
    let said = io::read_to_string(alloc, file).ok()?;
    let line = said
        .as_str()
        .lines()
        .find_map(|line| line.strip_prefix("btime "))?;
    line.parse().ok()
}

/// When a file was made, in seconds since 1970; none where that is not known. Source: statx(2).
fn made(file: &Metadata) -> Option<i64> {
    let since = file.created().ok()?.duration_since(UNIX_EPOCH).ok()?;
    i64::try_from(since.as_secs()).ok()
}

/// Whether a file, with an undo file whose gate is open, is not as a stop of our program leaves it: it was changed
/// later than a commit takes, or behind a start of the machine, or was made since the gate was opened.
fn is_changed(opened: i64, file: &Metadata, boot: Option<i64>) -> bool {
    let changed = file.ctime();
    changed > opened.saturating_add(MOST_SECONDS)
        || boot.is_some_and(|boot| opened < boot && boot <= changed)
        || made(file).is_some_and(|made| made > opened.saturating_add(MADE_SECONDS))
}

/// Why what an undo file with an open gate says is not believed of its file, where something else changed that.
pub fn change_of<R: Files<File = File>>(
    alloc: Global,
    files: &R,
    undo: &Metadata,
    file: &Metadata,
) -> Option<Distrust> {
    let opened = undo.mtime();
    if is_changed(opened, file, boot_time(alloc, files)) {
        let changed = file.ctime();
        Some(Distrust::Changed { opened, changed })
    } else {
        None
    }
}
