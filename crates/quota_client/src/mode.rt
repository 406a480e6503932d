/// What a client prints of each path.
#[derive(Clone, Copy)]
pub(crate) enum Mode {
    /// Usage, limits and grace periods.
    Quota,
    /// Soft limits that are exceeded, and nothing else of a quota.
    Warn,
}
