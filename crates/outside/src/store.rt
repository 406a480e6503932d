ghost use Rattle.std.specs.Prelude.{◌≡◌, ◌≢◌, ◌≤◌, ◌^◌, ◌⊎◌, ℕ, Bool, List, [], ◌∷◌, ◌++◌, length, take, true, false};
ghost use Rattle.std.specs.Prelude.{None, Some, IsSome, IsTrue, IfOk, OnOk, OnErr, is_ok};
ghost use Rattle.std.specs.Option.{option_map};
ghost use Rattle.std.proofs.Common.{subst, sym};
ghost use Rattle.outside.specs.Count.{Rose, counted};
ghost use Rattle.outside.specs.Frame.{ChangesOne, ChangesTwo, OnlyReads};
ghost use Rattle.outside.specs.Replacement.{replacement_name};
ghost use Rattle.outside.specs.Seen.{StoreSeen};
ghost use Rattle.outside.specs.Unsynced.{AddsNone, with_handed, with_name};
ghost use Rattle.outside.specs.World.{World, bytes_from, with_bytes, with_file, with_new_name};

/// A call on the store failed.
#[derive(Clone, Copy, Debug, PartialEq, Eq)]
pub struct StoreFault;

/// Named files, such as those of a file system.
///
/// Whatever a store tells, a call fails only where its count of faults rose in that call, and a number of bytes that
/// a call answers fits the buffer.
///
/// A store says besides which files its calls may have put where a stop of the machine leaves them. What only looks or
/// writes puts none there, `sync` the files as they are told then, and `rename` of a file that is synced those that
/// have the new name; of `rename` of another file, and of `create` but for a name in `.new`, nothing is said. So how
/// often a change of a file is put there, and at which of its moments, is told by what it commits.
pub trait Store {
    /// Whether stores of this type tell their files.
    ghost tells: { Bool };

    /// The files, the names that are unsynced, and the counts of faults, reads and writes. The files and the unsynced
    /// names count only where the store tells them.
    ghost seen: { Self → StoreSeen };

    /// Along calls that led from one store to another, all that was put where a stop of the machine leaves it were the
    /// files of these worlds, in this order, or of some of them.
    ghost commits: { List World → Self → Self → Type 0 };

    /// Where no call was made nothing was put there.
    ghost commits_nothing: { (worlds : List World) (store : Self) → commits worlds store store };

    /// Along some calls and those that follow it was what it was along the former, and then what it was along the
    /// latter.
    ghost commits_on: { (one two : List World) (first between last : Self) → commits one first between
        → commits two between last → commits (one ++ two) first last };

    /// The length of a file in bytes, or `None` where there is none of this name.
    ///
    /// # Errors
    ///
    /// The store failed. Nothing changed.
    fn size(&mut self, name: &str) -> Result<Option<u64>, StoreFault>
        ensures found { IfOk result (λ found. IsTrue tells
            → found ≡ option_map length ((seen self.old).files name.now)) }
        ensures cause { OnErr result (Rose (seen self.old).faults (seen self.new).faults) }
        ensures leaves { OnlyReads (is_ok result) name.now (seen self.old) (seen self.new) }
        ensures reads { (seen self.new).reads ≡ (seen self.old).reads }
        ensures commits { commits [] self.old self.new };

    /// Reads the bytes of a file from place `at` on, as many as `buf` holds or the file has, and answers how many.
    /// A file that is not there has none.
    ///
    /// # Errors
    ///
    /// The store failed. Nothing changed, but `buf` may hold anything.
    fn read(&mut self, name: &str, at: u64, buf: &mut [u8]) -> Result<usize, StoreFault>
        requires { length buf.old ≤ 1024 }
        ensures fits { IfOk result (λ count. count ≤ length buf.new) }
        ensures count { IfOk result (λ count. IsTrue tells
            → count ≡ length (bytes_from ((seen self.old).files name.now) at (length buf.old))) }
        ensures bytes { IfOk result (λ count. IsTrue tells
            → take count buf.new ≡ bytes_from ((seen self.old).files name.now) at (length buf.old)) }
        ensures cause { OnErr result (Rose (seen self.old).faults (seen self.new).faults) }
        ensures leaves { OnlyReads (is_ok result) name.now (seen self.old) (seen self.new) }
        ensures reads { (seen self.new).reads ≡ counted (seen self.old).reads }
        ensures commits { commits [] self.old self.new };

    /// Writes bytes into a file at place `at`. A file that is not there is made, and a gap past the old end is filled
    /// with zeros. All other files stay. The name is unsynced then.
    ///
    /// # Errors
    ///
    /// The store failed. The file is as before, or as it would be without the fault.
    fn write(&mut self, name: &str, at: u64, bytes: &[u8]) -> Result<(), StoreFault>
        requires some { 1 ≤ length bytes.now }
        requires few { length bytes.now ≤ 1024 }
        requires place { at ≤ 2 ^ 42 }
        ensures ok { OnOk result (IsTrue tells
            → (seen self.new).files ≡ with_bytes (seen self.old).files name.now at bytes.now) }
        ensures unsynced { OnOk result (IsTrue tells
            → (seen self.new).unsynced ≡ with_name (seen self.old).unsynced name.now true) }
        ensures fault { OnErr result (IsTrue tells → ((seen self.new).files ≡ (seen self.old).files)
            ⊎ ((seen self.new).files ≡ with_bytes (seen self.old).files name.now at bytes.now)) }
        ensures cause { OnErr result (Rose (seen self.old).faults (seen self.new).faults) }
        ensures leaves { ChangesOne name.now (seen self.old) (seen self.new) }
        ensures writes { (seen self.new).writes ≡ counted (seen self.old).writes }
        ensures commits { commits [] self.old self.new };

    /// Makes an empty file of this name, in place of the one that was there. All other files stay. The name is unsynced
    /// then.
    ///
    /// # Errors
    ///
    /// The store failed. The file is as before, or empty.
    fn create(&mut self, name: &str) -> Result<(), StoreFault>
        ensures ok { OnOk result (IsTrue tells
            → (seen self.new).files ≡ with_file (seen self.old).files name.now (Some [])) }
        ensures unsynced { OnOk result (IsTrue tells
            → (seen self.new).unsynced ≡ with_name (seen self.old).unsynced name.now true) }
        ensures fault { OnErr result (IsTrue tells → ((seen self.new).files ≡ (seen self.old).files)
            ⊎ ((seen self.new).files ≡ with_file (seen self.old).files name.now (Some []))) }
        ensures cause { OnErr result (Rose (seen self.old).faults (seen self.new).faults) }
        ensures leaves { ChangesOne name.now (seen self.old) (seen self.new) }
        ensures writes { (seen self.new).writes ≡ (seen self.old).writes }
        ensures commits { (base : List ℕ) → name.now ≡ replacement_name base → commits [] self.old self.new };

    /// Waits until what was written to a file is kept safe. It changes no file. The name is synced then.
    ///
    /// # Errors
    ///
    /// The store failed. The name may still be unsynced.
    fn sync(&mut self, name: &str) -> Result<(), StoreFault>
        ensures unsynced { OnOk result (IsTrue tells
            → (seen self.new).unsynced ≡ with_name (seen self.old).unsynced name.now false) }
        ensures cause { OnErr result (Rose (seen self.old).faults (seen self.new).faults) }
        ensures leaves { OnlyReads (is_ok result) name.now (seen self.old) (seen self.new) }
        ensures reads { (seen self.new).reads ≡ (seen self.old).reads }
        ensures commits { commits ((seen self.new).files ∷ []) self.old self.new }
        ensures beside { (base : List ℕ) → name.now ≡ replacement_name base → commits [] self.old self.new };

    /// Gives the file of name `from` the name `to`, in place of the file that had it. All other files stay. Where there
    /// is no file of name `from` no file changes. The name `to` is unsynced then where `from` was, which no longer is.
    ///
    /// # Errors
    ///
    /// The store failed. No file changed.
    fn rename(&mut self, from: &str, to: &str) -> Result<(), StoreFault>
        requires { from.now ≢ to.now }
        ensures ok { OnOk result (IsTrue tells
            → (seen self.new).files ≡ with_new_name (seen self.old).files from.now to.now) }
        ensures unsynced { OnOk result (IsTrue tells → IsSome ((seen self.old).files from.now)
            → (seen self.new).unsynced ≡ with_handed (seen self.old).unsynced from.now to.now) }
        ensures absent { OnOk result (IsTrue tells → (seen self.old).files from.now ≡ None
            → AddsNone (seen self.old).unsynced (seen self.new).unsynced) }
        ensures fault { OnErr result ((seen self.new).files ≡ (seen self.old).files) }
        ensures cause { OnErr result (Rose (seen self.old).faults (seen self.new).faults) }
        ensures leaves { ChangesTwo from.now to.now (seen self.old) (seen self.new) }
        ensures writes { (seen self.new).writes ≡ (seen self.old).writes }
        ensures commits { (seen self.old).unsynced from.now ≡ false
            → commits (with_new_name (seen self.old).files from.now to.now ∷ []) self.old self.new };

    /// Calls that put nothing there change nothing of what was put there along those that follow them.
    ghost commits_behind_none: { (worlds : List World) (first between last : Self) → commits [] first between
        → commits worlds between last → commits worlds first last } = { λ worlds. commits_on [] worlds };

    /// What put nothing there put there no more than the files of any worlds.
    ghost commits_more: { (worlds : List World) (old new : Self) → commits [] old new
        → commits worlds old new } = { λ worlds old new none.
            commits_on [] worlds old new new none (commits_nothing worlds new) };

    /// A look behind calls that put the files of one world there, as they are then, leaves it so.
    ghost commits_look: { (first between last : Self) → commits ((seen between).files ∷ []) first between
        → commits [] between last → (seen last).files ≡ (seen between).files
        → commits ((seen last).files ∷ []) first last } = { λ first between last once none same.
            subst (λ (world : World). commits (world ∷ []) first last) (sym same)
            (commits_on ((seen between).files ∷ []) [] first between last once none) };
}
