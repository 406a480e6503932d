use std::alloc::Global;
use tests_story_stage::{Wrong, unmet};

/// The head of a report, from the words `KIND FILE BLOCK INODE`: for which kind and on which file, and both periods.
pub(crate) fn head_of(alloc: Global, rest: &str) -> Result<String, Wrong> {
    let words: Vec<&str> = rest.split(' ').collect(alloc)?;
    let [kind, file, block, inode] = words.as_slice() else {
        return unmet(alloc, "a kind, a file and two periods are wanted");
    };
    let column = match *kind {
        "user" => "User   ",
        "group" => "Group  ",
        "project" => "Project",
        _ => return unmet(alloc, "the kind is misspelt"),
    };
    Ok(format!(in alloc;
        "*** Report for {kind} quotas on {file}
Block grace time: {block}; Inode grace time: {inode}
{column}               used       soft       hard  grace    files     soft     hard  grace
-----------------------------------------------------------------------------------------
"
    )?)
}
