//! Laws of stores over a journal, for those who build on them.

ghost use Rattle.std.specs.Prelude.{◌≡◌, ◌⊎◌, ℕ, List, IsTrue};
ghost use Rattle.disk.specs.DiskSeen.{EachImage};
ghost use Rattle.edit_journal.specs.Undo.{recovered};
ghost use Rattle.edit_journal.specs.UndoName.{undo_name};
ghost use Rattle.journal_store.specs.Commits.{RecoversToSome};
ghost use Rattle.journal_store.specs.JournalStore.{disk_seen, store_seen};
ghost use Rattle.journal_store.specs.Kinds.{kind_of};
ghost use Rattle.journal_store.specs.declared.kinds.NameKind.TheVariants.{Plain};
ghost use Rattle.outside.specs.World.{World};

use crate::JournalStore;
use disk::Disk;
use outside::Store;

/// Where each image recovers a file to the one that is told, whatever a stop leaves at any moment of the calls that
/// follow recovers to that file too, or to the one of a world that these calls committed.
pub fn a_stop_leaves_what_was_committed<D: Disk>(old: &JournalStore<D>, new: &JournalStore<D>)
    ensures { (worlds : List World) (name : List ℕ) (image : World) → IsTrue D.tells → kind_of name ≡ Plain
        → EachImage (λ before. recovered (before name) (before (undo_name name)) ≡ (store_seen old.now).files name)
        (disk_seen old.now)
        → (⟦<JournalStore<D> as Store>⟧).commits worlds old.now new.now
        → (disk_seen new.now).since (disk_seen old.now).moment image
        → (recovered (image name) (image (undo_name name)) ≡ (store_seen old.now).files name)
        ⊎ RecoversToSome worlds name image }
{}
