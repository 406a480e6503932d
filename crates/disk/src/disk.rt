ghost use Rattle.std.specs.Prelude.{◌≡◌, ◌≢◌, ◌≤◌, ◌^◌, ◌⊎◌, ◌↔◌, ℕ, Bool, List, [], length, take, true, false, None};
ghost use Rattle.std.specs.Prelude.{Some, IsSome, IsTrue, IfOk, OnOk, OnErr};
ghost use Rattle.std.specs.Option.{option_map};
ghost use Rattle.disk.specs.DiskSeen.{ChangesNothing, DiskSeen, DiskFollows, IsDurable, TakesStep};
ghost use Rattle.disk.specs.DiskCalls.{CutsShort, IsRenamed, MayBeRenamed, Shortens, TearsRange, with_cut};
ghost use Rattle.outside.specs.Count.{Rose};
ghost use Rattle.outside.specs.Unsynced.{AddsNone, with_handed, with_name};
ghost use Rattle.outside.specs.World.{KeepsOtherTwo, KeepsOthers, World, bytes_from, with_bytes, with_file};
ghost use Rattle.outside.specs.World.{with_new_name};

/// A call on the disk failed.
#[derive(Clone, Copy, Debug, PartialEq, Eq)]
pub struct DiskFault;

/// Named files on a disk, of which it is known what a stop of the machine may leave.
///
/// Whatever a disk tells, a call fails only where its count of faults rose in that call, and a number of bytes that a
/// call answers fits the buffer.
pub trait Disk {
    /// Whether disks of this type tell their files and what a stop may leave of them.
    ghost tells: { Bool };

    /// What is seen of the disk. All of it but the count of faults counts only where the disk tells it.
    ghost seen: { Self → DiskSeen };

    /// The length of a file in bytes, or `None` where there is none of this name.
    ///
    /// # Errors
    ///
    /// The disk failed. Nothing changed.
    fn size(&mut self, name: &str) -> Result<Option<u64>, DiskFault>
        ensures found { IfOk result (λ found. IsTrue tells
            → found ≡ option_map length ((seen self.old).files name.now)) }
        ensures cause { OnErr result (Rose (seen self.old).faults (seen self.new).faults) }
        ensures unsynced { (seen self.new).unsynced ≡ (seen self.old).unsynced }
        ensures leaves { ChangesNothing (seen self.old) (seen self.new) };

    /// Reads the bytes of a file from place `at` on, as many as `buf` holds or the file has, and answers how many.
    /// A file that is not there has none.
    ///
    /// # Errors
    ///
    /// The disk failed. Nothing changed, but `buf` may hold anything.
    fn read(&mut self, name: &str, at: u64, buf: &mut [u8]) -> Result<usize, DiskFault>
        requires { length buf.old ≤ 1024 }
        ensures fits { IfOk result (λ count. count ≤ length buf.new) }
        ensures count { IfOk result (λ count. IsTrue tells
            → count ≡ length (bytes_from ((seen self.old).files name.now) at (length buf.old))) }
        ensures bytes { IfOk result (λ count. IsTrue tells
            → take count buf.new ≡ bytes_from ((seen self.old).files name.now) at (length buf.old)) }
        ensures cause { OnErr result (Rose (seen self.old).faults (seen self.new).faults) }
        ensures unsynced { (seen self.new).unsynced ≡ (seen self.old).unsynced }
        ensures leaves { ChangesNothing (seen self.old) (seen self.new) };

    /// Writes bytes into a file at place `at`. A file that is not there is made, and a gap past the old end is filled
    /// with zeros. All other files stay. The name is unsynced then, and until it is synced a stop may leave any bytes
    /// in the written range and past the old end.
    ///
    /// # Errors
    ///
    /// The disk failed. The file is read as before, or as it would be without the fault. A stop may leave what it may
    /// after a write.
    fn write(&mut self, name: &str, at: u64, bytes: &[u8]) -> Result<(), DiskFault>
        requires some { 1 ≤ length bytes.now }
        requires few { length bytes.now ≤ 1024 }
        requires place { at ≤ 2 ^ 42 }
        ensures ok { OnOk result (IsTrue tells
            → (seen self.new).files ≡ with_bytes (seen self.old).files name.now at bytes.now) }
        ensures unsynced { OnOk result (IsTrue tells
            → (seen self.new).unsynced ≡ with_name (seen self.old).unsynced name.now true) }
        ensures fault { OnErr result (IsTrue tells → ((seen self.new).files ≡ (seen self.old).files)
            ⊎ ((seen self.new).files ≡ with_bytes (seen self.old).files name.now at bytes.now)) }
        ensures cause { OnErr result (Rose (seen self.old).faults (seen self.new).faults) }
        ensures others { KeepsOthers name.now (seen self.old).unsynced (seen self.new).unsynced }
        ensures leaves { TakesStep (TearsRange name.now at (length bytes.now)) (seen self.old) (seen self.new) };

    /// Makes an empty file of this name, in place of the one that was there. All other files stay. The name is unsynced
    /// then, and until it is synced a stop may leave any bytes in it, and no file where there was none.
    ///
    /// # Errors
    ///
    /// The disk failed. The file is read as before, or is empty. A stop may leave what it may after a `create`.
    fn create(&mut self, name: &str) -> Result<(), DiskFault>
        ensures ok { OnOk result (IsTrue tells
            → (seen self.new).files ≡ with_file (seen self.old).files name.now (Some [])) }
        ensures unsynced { OnOk result (IsTrue tells
            → (seen self.new).unsynced ≡ with_name (seen self.old).unsynced name.now true) }
        ensures fault { OnErr result (IsTrue tells → ((seen self.new).files ≡ (seen self.old).files)
            ⊎ ((seen self.new).files ≡ with_file (seen self.old).files name.now (Some []))) }
        ensures cause { OnErr result (Rose (seen self.old).faults (seen self.new).faults) }
        ensures others { KeepsOthers name.now (seen self.old).unsynced (seen self.new).unsynced }
        ensures leaves { TakesStep (CutsShort name.now 0) (seen self.old) (seen self.new) };

    /// Shortens a file to `len` bytes. One that is not longer stays, and one that is not there is not made. All other
    /// files stay. The name is unsynced then, and until it is synced a stop may leave any bytes from `len` on, or none,
    /// but no file where there was none.
    ///
    /// # Errors
    ///
    /// The disk failed. The file is read as before, or cut. A stop may leave what it may after a `cut`.
    fn cut(&mut self, name: &str, len: u64) -> Result<(), DiskFault>
        ensures ok { OnOk result (IsTrue tells
            → (seen self.new).files ≡ with_cut (seen self.old).files name.now len) }
        ensures unsynced { OnOk result (IsTrue tells
            → (seen self.new).unsynced ≡ with_name (seen self.old).unsynced name.now true) }
        ensures fault { OnErr result (IsTrue tells → ((seen self.new).files ≡ (seen self.old).files)
            ⊎ ((seen self.new).files ≡ with_cut (seen self.old).files name.now len)) }
        ensures cause { OnErr result (Rose (seen self.old).faults (seen self.new).faults) }
        ensures others { KeepsOthers name.now (seen self.old).unsynced (seen self.new).unsynced }
        ensures leaves { TakesStep (Shortens name.now len) (seen self.old) (seen self.new) };

    /// Waits until a stop leaves the file of this name as it is read, and none where there is none. It changes no file.
    /// The name is synced then.
    ///
    /// # Errors
    ///
    /// The disk failed. The name may still be unsynced, and a stop may leave what it might before.
    fn sync(&mut self, name: &str) -> Result<(), DiskFault>
        ensures kept { OnOk result (IsTrue tells → IsDurable name.now (seen self.new)) }
        ensures unsynced { OnOk result (IsTrue tells
            → (seen self.new).unsynced ≡ with_name (seen self.old).unsynced name.now false) }
        ensures none { OnOk result (AddsNone (seen self.old).unsynced (seen self.new).unsynced) }
        ensures cause { OnErr result (Rose (seen self.old).faults (seen self.new).faults) }
        ensures others { KeepsOthers name.now (seen self.old).unsynced (seen self.new).unsynced }
        ensures leaves { ChangesNothing (seen self.old) (seen self.new) };

    /// Gives the file of name `from` the name `to`, in place of the file that had it, in what is read and in all that a
    /// stop may leave. All other files stay. Where there is no file of name `from` no file changes. The name `to` is
    /// unsynced then where `from` was, which no longer is.
    ///
    /// # Errors
    ///
    /// The disk failed. No file that is read changed. A stop may leave the file under either name.
    fn rename(&mut self, from: &str, to: &str) -> Result<(), DiskFault>
        requires { from.now ≢ to.now }
        ensures ok { OnOk result (IsTrue tells
            → (seen self.new).files ≡ with_new_name (seen self.old).files from.now to.now) }
        ensures done { OnOk result (IsTrue tells
            → DiskFollows (IsRenamed from.now to.now) (seen self.old) (seen self.new)) }
        ensures unsynced { OnOk result (IsTrue tells → IsSome ((seen self.old).files from.now)
            → (seen self.new).unsynced ≡ with_handed (seen self.old).unsynced from.now to.now) }
        ensures absent { OnOk result (IsTrue tells → (seen self.old).files from.now ≡ None
            → AddsNone (seen self.old).unsynced (seen self.new).unsynced) }
        ensures fault { OnErr result ((seen self.new).files ≡ (seen self.old).files) }
        ensures cause { OnErr result (Rose (seen self.old).faults (seen self.new).faults) }
        ensures others { KeepsOtherTwo from.now to.now (seen self.old).unsynced (seen self.new).unsynced }
        ensures leaves { TakesStep (MayBeRenamed from.now to.now) (seen self.old) (seen self.new) };

    /// What is read is an image.
    ghost read_is_image: { (disk : Self) → (seen disk).images (seen disk).files };

    /// A stop since the present moment leaves an image, and each image may be left so.
    ghost present_is_now: { (disk : Self) (image : World) → (seen disk).since (seen disk).moment image
        ↔ (seen disk).images image };

    /// A stop leaves the file of each name that is not unsynced as it is read, and none where there is none.
    ghost synced_is_kept: { (disk : Self) (name : List ℕ) → IsTrue tells → (seen disk).unsynced name ≡ false
        → IsDurable name (seen disk) };
}
