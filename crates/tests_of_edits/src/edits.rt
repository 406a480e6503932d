//! Edits of opened files, and what is expected of them.

use memory_objects::MemStore;
use opened_file::QuotaFile;
use quota_map::AnyFile;
use quota_types::{Entry, Format, Grace, Kind, NoRoom, Rec};
use set_edit::{
    EditFault, Limits, Skipped, TimeWord, copy_limits, set_grace_periods, set_limits, set_times,
};
use std::alloc::{AllocError, Global};
use std::process::Abort;
use tests_row_files::{holds_entries, listed, opened};

/// An edit of an opened file.
#[derive(Clone, Copy, Debug)]
pub(crate) enum Edit {
    /// The limits of an identifier are set, at a moment.
    SetLimits(u32, Limits, u64),
    /// The limits of the first identifier are copied to the second one, at a moment.
    Copy(u32, u32, u64),
    /// The ends of an identifier's grace periods for blocks and for inodes are set, at a moment.
    SetTimes(u32, TimeWord, TimeWord, u64),
    /// The grace periods of the file are set, for blocks and for inodes.
    SetGrace(u64, u64),
}

use Edit::*;

/// What an edit answers.
#[derive(Clone, Copy, Debug)]
pub(crate) enum Answer {
    /// It is done, and the file is written once.
    Done,
    /// It is done but for one of two times, that for blocks or that for inodes, and the file is written once.
    DoneBut(bool, bool),
    /// Both times are skipped, and nothing is written.
    Skips,
    /// It is refused, and nothing is written.
    Lacks(NoRoom),
}

use Answer::*;

/// Records of identifiers, ascending.
type Records = &'static [(u32, Rec)];

/// A file of users that is edited, whose grace periods are `PERIODS`.
pub(crate) struct EditRow {
    pub title: &'static str,
    pub format: Format,
    pub before: Records,
    pub edit: Edit,
    pub answer: Answer,
    pub after: Records,
}

/// Expects each edit to answer and to leave what its row says.
pub(crate) fn expect_edits(rt: &impl Abort, alloc: Global, rows: &[EditRow]) {
    for row in rows {
        let wrong = wrong_in(alloc, row);
        assert!(rt; wrong == Some(""), "{}: {wrong:?}", row.title);
    }
}

/// What is wrong, or nothing; None where the file can't be made.
fn wrong_in(alloc: Global, row: &EditRow) -> Option<&'static str> {
    let before = entries_of(alloc, row.before).ok()?;
    let after = entries_of(alloc, row.after).ok()?;
    let mut store = listed(alloc, Kind::User, row.format, PERIODS, before.as_slice())?;
    let mut file = opened(alloc, &mut store, row.format, Kind::User)?;
    if edited(&mut file, &mut store, &row.edit)? != result_of(row.answer) {
        return Some("the answer");
    }
    if !are_writes(&store, row) {
        return Some("the number of writes");
    }
    if !holds_entries(&mut file, &mut store, after.as_slice()) {
        return Some("the records of the opened file");
    }
    let mut again = opened(alloc, &mut store, row.format, Kind::User)?;
    if !holds_entries(&mut again, &mut store, after.as_slice()) {
        return Some("the records of the file opened again");
    }
    if QuotaFile::<MemStore>::grace(&again) != grace_after(row) {
        return Some("the grace periods");
    }
    Some("")
}

fn entries_of(alloc: Global, records: &[(u32, Rec)]) -> Result<Vec<Entry>, AllocError> {
    let mut entries = Vec::new(alloc);
    for (id, rec) in records {
        entries.push(Entry { id: *id, rec: *rec })?;
    }
    Ok(entries)
}

/// What the edit answers, where each but those of times skips none; None where it may not be asked for.
fn edited(
    file: &mut AnyFile,
    store: &mut MemStore,
    edit: &Edit,
) -> Option<Result<Skipped, EditFault>> {
    if !QuotaFile::<MemStore>::usable(file) {
        return None;
    }
    let done = match *edit {
        SetTimes(id, block, inode, now) => {
            return Some(set_times(file, store, id, block, inode, now));
        }
        SetLimits(id, limits, now) => set_limits(file, store, id, &limits, now),
        Copy(from, to, now) => copy_limits(file, store, from, to, now),
        SetGrace(block, inode) => set_grace_periods(file, store, Grace { block, inode }),
    };
    match done {
        Ok(()) => Some(result_of(Done)),
        Err(fault) => Some(Err(fault)),
    }
}

fn result_of(answer: Answer) -> Result<Skipped, EditFault> {
    match answer {
        Done => Ok(Skipped {
            block: false,
            inode: false,
        }),
        DoneBut(block, inode) => Ok(Skipped { block, inode }),
        Skips => Ok(Skipped {
            block: true,
            inode: true,
        }),
        Lacks(out) => Err(EditFault::NoRoom(out)),
    }
}

/// Whether an edit made as many writes as it may: one in a flat file, and one where the grace periods of a tree file
/// are set; one to twelve where a record of a tree file is; and none where nothing is changed.
fn are_writes(store: &MemStore, row: &EditRow) -> bool {
    let writes = store.writes();
    match (row.answer, row.edit) {
        (Skips | Lacks(_), _) => writes == 0,
        (_, SetGrace(..)) => writes == 1,
        _ if row.format.is_flat() => writes == 1,
        _ => writes >= 1 && writes <= 12,
    }
}

/// The grace periods after an edit.
fn grace_after(row: &EditRow) -> Grace {
    match (row.edit, row.answer) {
        (SetGrace(block, inode), Done) => Grace { block, inode },
        _ => PERIODS,
    }
}

const PERIODS: Grace = Grace {
    block: 604_800,
    inode: 60,
};
