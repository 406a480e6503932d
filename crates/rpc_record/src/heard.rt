/// What came of the bytes of a connection that were heard.
#[derive(Clone, Copy, Debug, PartialEq, Eq)]
pub(crate) enum Heard {
    /// The answers to the records that ended were written, and more may come.
    GoesOn,
    /// A record is too long.
    TooLong,
    /// An answer could not be written.
    WriteFault,
}
