/// A new end of a grace period, as a command names it.
#[derive(Clone, Copy, Debug, PartialEq, Eq)]
pub enum TimeWord {
    /// This many seconds from now.
    Seconds(u64),
    /// None: the grace period does not run.
    Unset,
}
