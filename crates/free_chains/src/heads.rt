/// What the header of a tree file says of its blocks: how many there are, and where their lists begin. 0 is the head
/// of an empty list.
#[derive(Clone, Copy, Debug, PartialEq, Eq)]
pub struct Heads {
    /// How many blocks there are, the header counted.
    pub blocks: u32,
    /// The first free block.
    pub free: u32,
    /// The first data block that has an unused entry.
    pub first: u32,
}
