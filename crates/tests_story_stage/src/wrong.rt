use std::alloc::{AllocError, Global};

/// Why a line of a story does not hold.
#[derive(Debug, Drop)]
pub enum Wrong {
    /// What was there instead.
    Said(String),
    /// There was not enough memory.
    Memory,
}

impl From<AllocError> for Wrong {
    fn from(_error: AllocError) -> Self {
        Wrong::Memory
    }
}

/// What is said of a line that is none of a story.
pub const NO_LINE: &str = "this is no line of a story";

/// What comes of a line.
pub type Checked = Result<(), Wrong>;

/// A line that does not hold, for a reason in words.
///
/// # Errors
///
/// Always: the reason, or that there was not enough memory for it.
pub fn unmet<T: Drop>(alloc: Global, why: &str) -> Result<T, Wrong> {
    Err(Wrong::Said(String::from_str(alloc, why)?))
}

/// A line that holds where something is so, and otherwise is wrong for a reason in words.
///
/// # Errors
///
/// It is not so.
pub fn holds_if(alloc: Global, is_so: bool, why: &str) -> Checked {
    if is_so { Ok(()) } else { unmet(alloc, why) }
}

/// A line that holds where a number is the wanted one.
///
/// # Errors
///
/// It is another one.
pub fn is_number(alloc: Global, is: u64, want: u64) -> Checked {
    if is == want {
        return Ok(());
    }
    Err(Wrong::Said(format!(in alloc; "it is {is}")?))
}

/// The number of a word of digits.
///
/// # Errors
///
/// The word is none.
pub fn number(alloc: Global, word: &str) -> Result<u64, Wrong> {
    match word.parse::<u64>() {
        Ok(number) => Ok(number),
        Err(_) => unmet(alloc, "a number is misspelt"),
    }
}

/// What was there instead of a line that is wanted.
///
/// # Errors
///
/// Always: what was there, or that there was not enough memory for it.
pub fn instead<T: Drop>(alloc: Global, line: &[u8]) -> Result<T, Wrong> {
    let line = String::from_utf8_lossy(alloc, line)?;
    Err(Wrong::Said(format!(in alloc; "it is '{}'", line.as_str())?))
}
