use std::fs::{File, Files};
use std::io;
use std::os::fd::AsRawFd;

/// The number of the error output, above those of the standard input and of the output. Source: stdio(3).
const STDERR: i32 = 2;

/// Opens the root folder for each standard stream with which the program was started closed, as `2>&-` in a shell does,
/// so that no file of a command gets its number: what is written to the error output would stand in that file. A call
/// on such a stream is a fault all the same, since a folder is neither read nor written as a file is.
///
/// The streams stay so as long as what is answered. Source: open(2), which takes the least number that is free.
///
/// # Errors
///
/// The root folder can't be opened.
pub fn hold_closed_streams<R: Files<File = File>>(files: &R) -> io::Result<[Option<File>; 3]> {
    let mut held = [None, None, None];
    for place in &mut held {
        let root = File::open(files, "/")?;
        if root.as_raw_fd() > STDERR {
            break;
        }
        *place = Some(root);
    }
    Ok(held)
}
