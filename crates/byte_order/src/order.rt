/// The order in which the bytes of a number stand in a file.
#[derive(Clone, Copy, Debug, PartialEq, Eq)]
pub enum Order {
    /// The lowest byte stands first.
    Little,
    /// The highest byte stands first.
    Big,
}
