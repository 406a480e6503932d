/// At which file a call failed, seen from the name that it was made by.
#[derive(Clone, Copy)]
pub enum FailedAt {
    /// At the file of that name.
    Name,
    /// At the file of a plain name, beside which the one of that name stands.
    Plain,
    /// At the undo file.
    Undo,
}
