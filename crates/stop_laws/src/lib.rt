//! Laws of the program over a store with a journal: what a stop of the machine leaves, at each moment of a run. Nothing
//! runs them: their contracts are the laws.
//!
//! They speak of files of plain names alone. A name is plain where it ends in none of `.new`, `.undo` and `.und`, and
//! has at most 250 bytes: so that of its undo file, with `.undo` added, has at most 255.
//!
//! The one promise: whatever a stop of the machine leaves of a file of a plain name that was kept recovers to the old
//! file, or to what it is behind some first part of what the words ask for, byte for byte.
#![tactic(auto)]

ghost use Rattle.std.specs.Prelude.{◌≡◌, ℕ, false, IsTrue, List};
ghost use Rattle.command_table.specs.CarriedOut.{IsToldAsUsed};
ghost use Rattle.edit_journal.specs.UndoName.{undo_name};
ghost use Rattle.journal_store.specs.JournalStore.{disk_seen, store_seen};
ghost use Rattle.journal_store.specs.Kinds.{kind_of};
ghost use Rattle.journal_store.specs.declared.kinds.NameKind.TheVariants.{Plain};
ghost use Rattle.option_words.specs.Items.{texts_of};
ghost use Rattle.quota_cli.specs.Headline.{command_line, uses_asked};
ghost use Rattle.run_steps.specs.Done.{outside_of, seen_of, tells_of};
ghost use Rattle.stop_laws.specs.Stops.{IsKept, StopsLeave};

use disk::Disk;
use journal_store::JournalStore;
use outside::{Link, Sink, Source};
use quota_cli::run::run;
use std::alloc::Global;

/// A store with a journal over a disk. Where the disk tells, each file of a plain name that is synced, with its undo
/// file, is kept: whatever a stop may leave recovers to what is told of it.
pub fn open_store<D: Disk>(disk: D) -> JournalStore<D>
    ensures { IsTrue D.tells → (name : List ℕ) → kind_of name ≡ Plain → (D.seen disk).unsynced name ≡ false
        → (D.seen disk).unsynced (undo_name name) ≡ false → IsKept (store_seen result).files name (disk_seen result) }
{
    JournalStore::new(disk)
}

/// Runs the words over a store with a journal on a disk, and answers the status. At each moment of the run, and behind
/// it, whatever its status, a recovery of what a stop leaves makes of each file of a plain name that was kept at the
/// start what it was then, byte for byte, or what it is behind some first part of the acts that the words ask for, in
/// which no other file has changed than the command changes. So each such file that the command does not change
/// recovers to what it was.
///
/// For all commands but `script`, and but `setquota -b` whose lines are not made together, that is one new file at
/// most: with status 0 the one of the end. It is said where the disk tells, and the input and the link where the words
/// use them.
pub fn run_over_a_journal<D: Disk, I: Source, O: Sink, E: Sink, L: Link>(
    alloc: Global,
    words: &[String],
    store: &mut JournalStore<D>,
    input: &mut I,
    out: &mut O,
    err: &mut E,
    link: &mut L,
    now: u64,
) -> u8
    ensures { IsToldAsUsed (uses_asked (command_line (texts_of words.now) now))
        (tells_of D.tells I.tells O.tells E.tells L.tells)
        → StopsLeave (command_line (texts_of words.now) now) result
        (outside_of
        (seen_of (store_seen store.old) (I.seen input.old) (O.seen out.old) (E.seen err.old) (L.seen link.old)))
        (store_seen store.new).files (disk_seen store.old) (disk_seen store.new) }
{
    run(alloc, words, store, input, out, err, link, now)
}
