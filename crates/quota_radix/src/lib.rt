//! The tree of a tree quota file, by which an identifier's data block is found: its four levels are indexed by the four
//! bytes of the identifier.
//!
//! The one promise: the digits of an identifier are its bytes, the most significant first, the leaves that are found
//! are those of the file, one is added or taken away and all others stay, and a damage of a block of the tree is one.
#![tactic(auto)]

mod finding;
mod following;
pub mod laws;
mod levels;
mod linking;
mod path;
mod places;
mod reference;
mod tree;
mod tree_path;
mod unlinking;
mod walk_fault;

pub use finding::{find_path, leaf};
pub use following::next_leaf;
pub use linking::link;
pub use path::Path;
pub use places::digits;
pub use reference::level_ref;
pub use tree::find_leaves;
pub use tree_path::TreePath;
pub use unlinking::unlink;
pub use walk_fault::WalkFault;
