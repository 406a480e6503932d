use run_notes::LastText;
use std::alloc::Global;
use std::mem;

/// A file, and what was read of it last, from its beginning on.
#[derive(Drop)]
struct ReadFile {
    name: String,
    text: LastText,
    /// Whether a word was read of it.
    has_word: bool,
}

/// Whether there is anything but blanks and ends of lines.
fn has_word(bytes: &[u8]) -> bool {
    bytes
        .iter()
        .any(|byte| !matches!(*byte, b' ' | b'\t' | b'\n'))
}

/// Whether a file is the one of this name.
fn is_named(file: &Option<ReadFile>, name: &str) -> bool {
    match file {
        Some(file) => file.name.as_str() == name,
        None => false,
    }
}

/// What was read last of the two files that were read last: one that a line was refused of, and one that was changed by
/// the lines before it.
#[derive(Drop)]
pub(crate) struct LastRead {
    alloc: Global,
    last: Option<ReadFile>,
    other: Option<ReadFile>,
}

impl LastRead {
    /// Nothing was read yet.
    pub fn new(alloc: Global) -> LastRead {
        LastRead {
            alloc,
            last: None,
            other: None,
        }
    }

    /// Takes what was read of a file at a place. What does not go on where the last read of the file ended is not kept,
    /// unless it is the beginning of the file.
    pub fn push(&mut self, name: &str, at: u64, bytes: &[u8]) {
        if is_named(&self.other, name) {
            mem::swap(&mut self.last, &mut self.other);
        }
        if at == 0 {
            self.begin(name);
        }
        if !is_named(&self.last, name) {
            return;
        }
        match &mut self.last {
            Some(file) if file.text.taken() == at => {
                file.text.push(bytes);
                file.has_word = file.has_word || has_word(bytes);
            }
            _ => self.last = None,
        }
    }

    /// Begins with a file. Where there is no memory for its name, nothing of it is kept.
    fn begin(&mut self, name: &str) {
        if self.last.is_some() && !is_named(&self.last, name) {
            self.other = self.last.take();
        }
        self.last = match String::from_str(self.alloc, name) {
            Ok(name) => Some(ReadFile {
                name,
                text: LastText::new(),
                has_word: false,
            }),
            Err(_) => None,
        };
    }

    /// The file of this name, where what was read last of it is kept.
    fn file(&self, name: &str) -> Option<&ReadFile> {
        for file in [&self.last, &self.other] {
            if let Some(file) = file {
                if file.name.as_str() == name {
                    return Some(file);
                }
            }
        }
        None
    }

    /// The line of this number, counted from 1, of the file of this name, where it is kept.
    pub fn line(&self, name: &str, number: u64) -> Option<&[u8]> {
        self.file(name)?.text.line(number)
    }

    /// Whether the file of this name was read last, and no word was read of it.
    pub fn is_blank(&self, name: &str) -> bool {
        match self.file(name) {
            Some(file) => !file.has_word,
            None => false,
        }
    }
}
