//! Tree files of which a call that failed left some blocks old and some new.

use tests_story_stage::{Stage, find};

/// The bytes of a block.
const BLOCK: usize = 1024;

/// The last two bytes of the magic number of a tree file, of users or of groups.
const MAGIC_END: [u8; 2] = [0xc0, 0xd9];

/// Whether each block of a tree file that is left is one that the file had before, or has in the new file, or in one
/// that a line allows.
pub(crate) fn is_torn(stage: &Stage, name: &str, new: Option<&[u8]>, left: Option<&[u8]>) -> bool {
    match (find(&stage.files, name), new, left) {
        (Some(old), Some(new), Some(left)) => {
            is_tree(old) && left.len() <= new.len() && are_of_some(stage, name, (old, new), left)
        }
        _ => false,
    }
}

fn is_tree(file: &[u8]) -> bool {
    match file.get(2..4) {
        Some(end) => end == MAGIC_END.as_slice(),
        None => false,
    }
}

fn are_of_some(stage: &Stage, name: &str, (old, new): (&[u8], &[u8]), left: &[u8]) -> bool {
    let mut all = true;
    let mut at = 0;
    for block in left.chunks(BLOCK) {
        let is_old_or_new = stands_at(old, at, block) || stands_at(new, at, block);
        all = all && (is_old_or_new || is_allowed_at(stage, name, at, block));
        at = at.saturating_add(block.len());
    }
    all
}

/// Whether a line allows a file in which the block stands at the place.
fn is_allowed_at(stage: &Stage, name: &str, at: usize, block: &[u8]) -> bool {
    let mut is_allowed = false;
    for (file, kept) in &stage.may {
        let bytes = find(&stage.kept, kept.as_str()).unwrap_or(b"");
        is_allowed = is_allowed || (file.as_str() == name && stands_at(bytes, at, block));
    }
    is_allowed
}

/// Whether a file has these bytes from a place on; what is behind its end counts as zeros.
fn stands_at(file: &[u8], at: usize, block: &[u8]) -> bool {
    let rest = file.get(at..).unwrap_or(b"");
    let count = rest.len().min(block.len());
    rest[..count] == block[..count] && block[count..].iter().all(|byte| *byte == 0)
}
