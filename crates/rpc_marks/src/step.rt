/// How a marker stands behind the bytes that it took.
#[derive(Clone, Copy, Debug, PartialEq, Eq)]
pub enum Step {
    /// The record goes on: all bytes of the piece were taken.
    More,
    /// The bytes that were taken end a record.
    Whole,
    /// The last head that was taken makes the record longer than 4,096 bytes.
    TooLong,
}
