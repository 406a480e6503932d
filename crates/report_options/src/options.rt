/// How a report is made.
#[derive(Clone, Copy, Debug, PartialEq, Eq)]
pub struct Options {
    /// Shows the identifiers that use nothing, too.
    pub verbose: bool,
    /// Shows numbers instead of names.
    pub numeric: bool,
    /// Shows when a grace period ends, in seconds since 1970, instead of what is left of it.
    pub raw: bool,
}
