/// What a check of a tree file found.
#[derive(Clone, Copy, Debug, PartialEq, Eq)]
pub struct Checked {
    /// How many records there are.
    pub used: u64,
    /// How many blocks are free.
    pub free: u32,
}
