use crate::mode::Mode;

/// Who asks, at which port, and what is printed.
#[derive(Clone, Copy)]
pub(crate) struct Client {
    /// What is printed of each path.
    pub(crate) mode: Mode,
    /// The port of the server.
    pub(crate) port: u16,
    /// The user who asks, and whose limits are asked for.
    pub(crate) uid: u32,
    /// The user's group.
    pub(crate) gid: u32,
}
