/// A block of a list, with the block that it names as the one before it.
#[derive(Clone, Copy, Debug, PartialEq, Eq)]
pub struct ChainLink {
    /// The block.
    pub block: u32,
    /// What its previous field says.
    pub previous: u32,
}
