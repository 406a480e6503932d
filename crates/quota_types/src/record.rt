ghost use Rattle.std.specs.Prelude.{◌≡◌};
ghost use Rattle.quota_types.specs.Rec.{is_null_of, kib_of};

/// What a quota file keeps for one identifier (the kernel's `struct if_dqblk`, with the space in bytes).
#[derive(Clone, Copy, Debug, Default, PartialEq, Eq)]
pub struct Rec {
    /// Hard limit of inodes; 0 is none.
    pub ihard: u64,
    /// Soft limit of inodes; 0 is none.
    pub isoft: u64,
    /// Inodes in use.
    pub inodes: u64,
    /// Hard limit of blocks, in KiB; 0 is none.
    pub bhard: u64,
    /// Soft limit of blocks, in KiB; 0 is none.
    pub bsoft: u64,
    /// Space in use, in bytes.
    pub space: u64,
    /// When the block grace period ends, in seconds since 1970; 0 where it does not run.
    pub btime: u64,
    /// When the inode grace period ends, in seconds since 1970; 0 where it does not run.
    pub itime: u64,
}

impl Rec {
    /// Whether the record limits nothing and counts nothing: all four limits and both usage numbers are 0.
    pub fn is_null(&self) -> bool
        ensures { result ≡ is_null_of self.now }
    {
        self.ihard == 0
            && self.isoft == 0
            && self.inodes == 0
            && self.bhard == 0
            && self.bsoft == 0
            && self.space == 0
    }

    /// The space in KiB, rounded up.
    pub fn kib(&self) -> u64
        ensures { result ≡ kib_of self.now.space }
    {
        self.space.div_ceil(1024)
    }
}

/// How long a soft limit may be exceeded, in seconds.
#[derive(Clone, Copy, Debug, PartialEq, Eq)]
pub struct Grace {
    /// For blocks.
    pub block: u64,
    /// For inodes.
    pub inode: u64,
}

/// An identifier (a uid, a gid or the number of a project) with its record.
#[derive(Clone, Copy, Debug, PartialEq, Eq)]
pub struct Entry {
    /// The identifier.
    pub id: u32,
    /// Its record.
    pub rec: Rec,
}
