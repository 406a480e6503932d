/// When a command is carried out, and where it stands.
#[derive(Clone, Copy, Debug, PartialEq, Eq)]
pub struct Invocation {
    /// The moment, in seconds since 1970.
    pub now: u64,
    /// The line of a script in which the command stands, counted from 1, if it stands in one.
    pub line: Option<u64>,
}
