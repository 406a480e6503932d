//! The names of the undo file of a file.

ghost use Rattle.std.specs.Prelude.{◌≡◌, ◌≢◌, ◌≤◌, List, ℕ, length};
ghost use Rattle.edit_journal.specs.UndoName.{und_name, undo_name};

use arrayvec::ArrayString;

/// The name of the undo file of a file.
#[tactic(auto, unfolding(crate::specs::UndoName::undo_name))]
pub fn undo_name(name: &str) -> ArrayString<255>
    requires { length name.now ≤ 250 }
    ensures { result.bytes ≡ undo_name name.now }
{
    let mut undo = ArrayString::new();
    undo.push_str(name);
    undo.push_str(".undo");
    undo
}

/// The name that a new undo file of a file has while it is written.
#[tactic(auto, unfolding(crate::specs::UndoName::und_name))]
pub fn und_name(name: &str) -> ArrayString<255>
    requires { length name.now ≤ 250 }
    ensures { result.bytes ≡ und_name name.now }
{
    let mut und = ArrayString::new();
    und.push_str(name);
    und.push_str(".und");
    und
}

/// Both names of an undo file differ from the name of its file, no undo file has the first name of another, and files
/// with different names have undo files with different names.
pub fn undo_names_differ()
    ensures own { (name : List ℕ) → name ≢ undo_name name }
    ensures first { (name : List ℕ) → name ≢ und_name name }
    ensures both { (one other : List ℕ) → und_name one ≢ undo_name other }
    ensures undo { (one other : List ℕ) → undo_name one ≡ undo_name other → one ≡ other }
    ensures und { (one other : List ℕ) → und_name one ≡ und_name other → one ≡ other }
{}
