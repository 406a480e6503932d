/// What an identifier uses.
#[derive(Clone, Copy, Debug, Default, PartialEq, Eq)]
pub struct Used {
    /// Space, in bytes.
    pub space: u128,
    /// Inodes.
    pub inodes: u64,
}
