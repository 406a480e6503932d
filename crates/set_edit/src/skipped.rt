ghost use Rattle.std.specs.Prelude.{◌≡◌};
ghost use Rattle.set_edit.specs.Times.{skips_both};

/// Which of an identifier's two times were skipped, since its soft limit is 0 or is not exceeded.
#[derive(Clone, Copy, Debug, PartialEq, Eq)]
pub struct Skipped {
    /// The time for blocks.
    pub block: bool,
    /// The time for inodes.
    pub inode: bool,
}

impl Skipped {
    /// Whether both were skipped.
    pub(crate) fn both(self) -> bool
        ensures { result ≡ skips_both self }
    {
        self.block && self.inode
    }
}
