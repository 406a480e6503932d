//! What a name is to a journal.

ghost use Rattle.std.specs.Prelude.{◌≡◌, length, nat_le, if◌then◌else◌};
ghost use Rattle.journal_store.specs.Kinds.{ends_so, is_new, is_undo, kind_of};

/// What a name is to a journal.
#[derive(Clone, Copy, Debug, PartialEq, Eq)]
pub enum NameKind {
    /// A file that is changed in place, through the journal.
    Plain,
    /// A file that is written as a whole before it takes the place of another one.
    New,
    /// No file: the name is kept for undo files, or is too long to have one.
    Barred,
}

/// What a name is to a journal.
pub(crate) fn kind_of(name: &str) -> NameKind
    ensures { result ≡ kind_of name.now }
{
    if is_undo(name) {
        NameKind::Barred
    } else if is_new(name) {
        at_most(name, 254, NameKind::New)
    } else {
        at_most(name, 250, NameKind::Plain)
    }
}

/// A kind, or no file where the name is longer than this.
fn at_most(name: &str, most: usize, kind: NameKind) -> NameKind
    ensures { result ≡ (if nat_le (length name.now) most then kind else NameKind.Barred) }
{
    if name.len() <= most {
        kind
    } else {
        NameKind::Barred
    }
}

/// Whether a name is kept for undo files.
#[tactic(auto, unfolding(crate::specs::Kinds::is_undo))]
fn is_undo(name: &str) -> bool
    ensures { result ≡ is_undo name.now }
{
    ends_so(name, b".undo") || ends_so(name, b".und")
}

/// Whether a whole new file is written under a name before it takes the place of the old one.
#[tactic(auto, unfolding(crate::specs::Kinds::is_new))]
fn is_new(name: &str) -> bool
    ensures { result ≡ is_new name.now }
{
    ends_so(name, b".new")
}

fn ends_so(name: &str, ending: &[u8]) -> bool
    ensures { result ≡ ends_so name.now ending.now }
{
    name.as_bytes().ends_with(ending)
}
