/// A way through the tree of a file: by some digits of identifiers to a block.
#[derive(Clone, Copy, Debug, PartialEq, Eq)]
pub struct TreePath {
    /// The number that the digits make to the base 256; of four digits it is an identifier.
    pub number: u32,
    /// The block that it leads to: one of the tree, or after four digits a data block.
    pub block: u32,
}
