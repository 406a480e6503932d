/// The four limits of an identifier; 0 is none.
#[derive(Clone, Copy, Debug, Default, PartialEq, Eq)]
pub struct Limits {
    /// Soft limit of blocks, in KiB.
    pub bsoft: u64,
    /// Hard limit of blocks, in KiB.
    pub bhard: u64,
    /// Soft limit of inodes.
    pub isoft: u64,
    /// Hard limit of inodes.
    pub ihard: u64,
}
