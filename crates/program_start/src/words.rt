use std::env::{self, Env};
use std::io;

/// What the program was called as, and the other words of the command line. One that was called as nothing is called
/// `name`.
///
/// # Errors
///
/// The system fails to give the words, one of them is not all UTF-8, or there is not enough memory.
pub fn given_words<R: Env + AllocGlobal>(rt: &R, name: &str) -> io::Result<(String, Vec<String>)> {
    let mut words = env::args(rt)?;
    let called = match words.next() {
        Some(called) => called,
        None => String::from_str(rt.alloc(), name)?,
    };
    Ok((called, words.collect(rt.alloc())?))
}
