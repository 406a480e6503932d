ghost use Rattle.std.specs.Prelude.{◌≡◌, IfOk, string_bytes};
ghost use Rattle.program_help.specs.About.{with_commit};

use std::alloc::{AllocError, Global};
use std::fs::{File, Files};
use std::io;
use std::io::Read;

/// Where the system shows the file of the program that runs. Source: proc(5).
const PROGRAM: &str = "/proc/self/exe";

/// Where the commit of an installed program stands, from the folder of its file on.
const COMMIT: &str = "../lib/quota_cli/commit";

/// How many bytes the line of a commit has at most.
const MOST: usize = 100;

/// The commit of the program, as the file beside it has it; none where it was not installed so.
pub(crate) fn commit_of<R: Files<File = File>>(alloc: Global, files: &R) -> Option<String> {
    read_commit(alloc, files).unwrap_or(None)
}

/// The first line of the file that has the commit, where it is printed text.
fn read_commit<R: Files<File = File>>(alloc: Global, files: &R) -> io::Result<Option<String>> {
    let program = files.canonicalize(alloc, PROGRAM)?.into_string();
    let Some((folder, _)) = program.as_str().rsplit_once('/') else {
        return Ok(None);
    };
    let path = format!(in alloc; "{folder}/{COMMIT}")?;
    let mut file = File::open(files, path.as_str())?;
    let mut bytes = [0; MOST];
    let count = file.read(&mut bytes)?;
    match line_of(&bytes[..count]) {
        Some(line) => Ok(Some(String::from_str(alloc, line)?)),
        None => Ok(None),
    }
}

/// The first line of a text, where that is printed text.
fn line_of(bytes: &[u8]) -> Option<&str> {
    let text = std::str::from_utf8(bytes).ok()?;
    let (line, _) = text.split_once('\n')?;
    let is_printed = line
        .as_bytes()
        .iter()
        .all(|byte| matches!(*byte, b' '..=b'~'));
    if line.is_empty() || !is_printed {
        return None;
    }
    Some(line)
}

/// A text with the line of a commit behind it.
pub(crate) fn with_commit(alloc: Global, text: &str, commit: &str) -> Result<String, AllocError>
    ensures { IfOk result (λ told. string_bytes told ≡ with_commit text.now commit.now) }
{
    format!(in alloc; "{text}commit {commit}\n")
}
