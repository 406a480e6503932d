use command_reasons::{Lines, note_of, reason_of, refused_file_reason};
use program_start::{Failed, Reason};
use std::alloc::Global;
use std::fs::{File, Files};
use std::io;
use std::io::Eprint;
use system_objects::{DiskFailure, FileDisk};
use system_streams::{LinkFailure, StreamSource};

/// The last calls that failed of the objects outside. A run ends with the first one, so there is one at most.
#[derive(Clone, Copy)]
pub struct Failures<'a> {
    /// Of the input.
    pub input: Option<io::Error>,
    /// Of the output.
    pub output: Option<io::Error>,
    /// Of the link.
    pub link: Option<LinkFailure>,
    /// Of the disk.
    pub disk: Option<&'a DiskFailure>,
    /// What an earlier run left beside the file of the disk's failure, where it did.
    pub left: Option<&'a str>,
}

impl<'a> Failures<'a> {
    /// That of the output, where nothing else was used.
    pub fn of_output(output: Option<io::Error>) -> Self {
        Failures {
            input: None,
            output,
            link: None,
            disk: None,
            left: None,
        }
    }

    /// What the system refused, and why; none where that is not known, or where it refused nothing, but an undo file is
    /// not believed.
    pub fn first(&self) -> Option<Reason<'a>> {
        if let Some(error) = self.input {
            return refused(Failed::Input, error, None);
        }
        if let Some(error) = self.output {
            return refused(Failed::Output, error, None);
        }
        if let Some(failure) = self.link {
            return refused(Failed::UdpPort(failure.port), failure.error, None);
        }
        match self.disk {
            Some(failure) if failure.distrust.is_none() => {
                refused(
                    Failed::File(failure.name.as_str()),
                    failure.error,
                    self.left,
                )
            }
            _ => None,
        }
    }
}

/// What the system refused, and why.
fn refused<'a>(of: Failed<'a>, error: io::Error, left: Option<&'a str>) -> Option<Reason<'a>> {
    Some(Reason::Refused { of, error, left })
}

/// The lines that a run has read.
#[derive(Drop)]
struct ReadLines<'a, 'b, 'c, 'd, I, R> {
    /// Of the standard input.
    input: &'a StreamSource<'b, I, R>,
    /// Of files.
    disk: &'c FileDisk<'d, R>,
}

impl<'a, 'b, 'c, 'd, I, R: Files<File = File> + Eprint> Lines for ReadLines<'a, 'b, 'c, 'd, I, R> {
    fn of_input(&self, number: u64) -> Option<&[u8]> {
        self.input.line(number)
    }

    fn of_file(&self, name: &str, number: u64) -> Option<&[u8]> {
        self.disk.line(name, number)
    }

    fn are_blank_of(&self, name: Option<&str>) -> bool {
        match name {
            Some(name) => self.disk.is_blank(name),
            None => self.input.is_blank(),
        }
    }
}

/// The text of the reason of a status behind this error line; none where it is not asked for, where no more is known
/// than the error line and the system's words for what it refused have, or where there is no memory for it.
pub fn text_of<I, R: Files<File = File> + Eprint>(
    alloc: Global,
    is_asked: bool,
    status: u8,
    error_line: Option<&[u8]>,
    words: &[String],
    input: &StreamSource<'_, I, R>,
    disk: &FileDisk<'_, R>,
) -> Option<String> {
    if !is_asked || status == 0 {
        return None;
    }
    let lines = ReadLines { input, disk };
    let error_line = error_line?;
    if status == 4 {
        let failure = disk.failure()?;
        return refused_file_text(alloc, error_line, words, &lines, failure);
    }
    reason_of(alloc, error_line, words, &lines).unwrap_or(None)
}

/// What to do about a file that the system refused, where more is known than why.
fn refused_file_text<L: Lines>(
    alloc: Global,
    error_line: &[u8],
    words: &[String],
    lines: &L,
    failure: &DiskFailure,
) -> Option<String> {
    if failure.distrust.is_some() {
        return None;
    }
    let error = failure.error;
    let why = format!(in alloc; "{error}").ok()?;
    let file = failure.name.as_str();
    refused_file_reason(alloc, error_line, words, lines, file, why.as_str()).unwrap_or(None)
}

/// What there is to note of words that were carried out with status 0, where that is asked for and there is memory for
/// it.
pub fn noted<I, R: Files<File = File> + Eprint>(
    alloc: Global,
    is_asked: bool,
    status: u8,
    words: &[String],
    input: &StreamSource<'_, I, R>,
    disk: &FileDisk<'_, R>,
) -> Option<String> {
    if !is_asked || status != 0 {
        return None;
    }
    let lines = ReadLines { input, disk };
    note_of(alloc, words, &lines).unwrap_or(None)
}

/// What an earlier run left beside the file at which the disk failed, where that is asked for and it did. None is told
/// of a file that this account may not use, nor of one that another program uses, which may be at work beside it.
pub fn left_of<R: Files<File = File> + Eprint>(
    is_asked: bool,
    disk: &FileDisk<'_, R>,
) -> Option<String> {
    if !is_asked {
        return None;
    }
    let failure = disk.failure()?;
    match failure.error.kind() {
        io::ErrorKind::PermissionDenied | io::ErrorKind::WouldBlock | io::ErrorKind::ResourceBusy =>
            None,
        _ => disk.left_beside(failure.name.as_str()),
    }
}
