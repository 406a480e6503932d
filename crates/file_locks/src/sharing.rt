/// How a file is locked, as flock(2) has it.
#[derive(Clone, Copy, Debug, PartialEq, Eq)]
pub enum Lock {
    /// Beside others that lock it so.
    Shared,
    /// Alone.
    Exclusive,
}

/// What a disk does so that no other program that locks files comes between its calls.
///
/// Whatever it is, a file that is made is locked alone until the disk is let go, also under the name that it is given
/// later, but for undo files, and what is not there is not locked. To change an undo file is to change its file. Unless
/// files are free, one that has to be recovered is locked alone at the first look at it; that waits for those who have
/// it, or is a fault where another program has it and this disk has locked a file already.
#[derive(Clone, Copy, Debug, PartialEq, Eq)]
pub enum Sharing<'a> {
    /// No file is locked that was there before.
    Free,
    /// One file is locked with its first use, until the disk is let go: alone where it has to be recovered, too. That
    /// waits for those who have it.
    Locked {
        /// Its name.
        name: &'a str,
        /// How it is locked.
        lock: Lock,
    },
    /// Each file is locked alone with its first change, until the disk is let go. The change is a fault where another
    /// program has locked the file, or where it is no longer as it was at the first look at it.
    Guarded,
    /// Each file is read whole with its first use, once it was recovered where it has to be, and then let go. Meanwhile
    /// it is locked beside others, or alone while it has to be recovered. From then on it is what was read, and has no
    /// undo file. It cannot be changed.
    Kept,
}
