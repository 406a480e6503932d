ghost use Rattle.std.specs.Prelude.{◌≤◌, length, IfOk};

use crate::read_ahead::ReadAhead;
use crate::write_behind::WriteBehind;
use std::alloc::Global;
use std::fs::{File, Metadata};
use std::io;
use std::io::ErrorKind;

/// What an open file may be used for.
#[derive(Clone, Copy, Debug, PartialEq, Eq)]
pub enum Access {
    /// To read it.
    Reading,
    /// To read it and write to it; it is made where it was never there.
    Writing,
    /// To read and write a new file, in place of the one that was there.
    Making,
}

impl Access {
    /// Whether a file that was opened so may be used so. A file that is to be made is another one.
    #[inline(always)]
    pub fn allows(self, access: Access) -> bool {
        match access {
            Access::Reading => true,
            Access::Writing => self != Access::Reading,
            Access::Making => false,
        }
    }
}

/// What a sync waits for.
#[derive(Clone, Copy, Debug, PartialEq, Eq)]
pub enum Waiting {
    /// The bytes of a file, and its length. Source: fdatasync(2).
    Bytes,
    /// The times of a file, too. Source: fsync(2).
    Times,
}

/// Waits until a file is on the disk.
fn wait(file: &File, waiting: Waiting) -> io::Result<()> {
    match waiting {
        Waiting::Bytes => file.sync_data(),
        Waiting::Times => file.sync_all(),
    }
}

/// Whether the system refuses a sync since there is nothing that it could wait for: the file is on a file system that
/// is never written, or one without a disk. Source: fsync(2), on EINVAL and EROFS.
fn has_no_disk(error: io::Error) -> bool {
    matches!(
        error.kind(),
        ErrorKind::InvalidInput | ErrorKind::ReadOnlyFilesystem
    )
}

/// An open file, with the name that it was opened by, what was read ahead of it, and what is to be written to it.
///
/// Where a call fails, what was gathered before may be lost, and the file may have any part of it.
#[derive(Drop)]
pub struct Opened {
    name: String,
    file: File,
    access: Access,
    ahead: ReadAhead,
    gathered: WriteBehind,
}

/// Why what is no regular file, such as a folder or a pipe, is refused. A link is, where it is not followed.
pub fn no_regular_file(metadata: &Metadata) -> io::Error {
    if metadata.is_dir() {
        io::Error::new(ErrorKind::IsADirectory, "Is a directory")
    } else if metadata.is_symlink() {
        io::Error::new(ErrorKind::InvalidInput, "Is a symbolic link")
    } else {
        io::Error::new(ErrorKind::InvalidInput, "Not a regular file")
    }
}

impl Opened {
    /// A file that was just opened.
    pub fn new(alloc: Global, name: String, file: File, access: Access) -> Opened {
        Opened {
            name,
            file,
            access,
            ahead: ReadAhead::new(alloc),
            gathered: WriteBehind::new(alloc),
        }
    }

    /// Whether it is the file of this name, and may be used so.
    #[inline(always)]
    pub fn serves(&self, name: &str, access: Access) -> bool {
        self.access.allows(access) && self.name.as_str() == name
    }

    /// Whether it was opened by this name.
    pub fn is_named(&self, name: &str) -> bool {
        self.name.as_str() == name
    }

    /// Its length in bytes, once what is to be written was written.
    ///
    /// # Errors
    ///
    /// The system failed, or it is no file, such as a folder.
    pub fn length(&mut self) -> io::Result<u64> {
        self.flush()?;
        let metadata = self.file.metadata()?;
        if !metadata.is_file() {
            return Err(no_regular_file(&metadata));
        }
        self.ahead.note_length(metadata.len());
        Ok(metadata.len())
    }

    /// Reads from a place on until the buffer is full or the file ends, and answers how many bytes.
    ///
    /// # Errors
    ///
    /// The system failed.
    pub fn read(&mut self, at: u64, buf: &mut [u8]) -> io::Result<usize>
        ensures fits { IfOk result (λ count. count ≤ length buf.new) }
    {
        self.flush()?;
        self.ahead.read(&self.file, at, buf)
    }

    /// Takes bytes that are to be written to a place.
    ///
    /// # Errors
    ///
    /// The system failed to write what was gathered before, or there is not enough memory.
    pub fn write(&mut self, at: u64, bytes: &[u8]) -> io::Result<()> {
        self.ahead.forget();
        self.gathered.take(&self.file, at, bytes)
    }

    /// Writes what is to be written, and shortens the file to this many bytes where it is longer. Source: ftruncate(2).
    ///
    /// # Errors
    ///
    /// The system failed.
    pub fn cut(&mut self, len: u64) -> io::Result<()> {
        self.ahead.forget();
        if self.length()? > len {
            self.file.set_len(len)?;
        }
        Ok(())
    }

    /// Writes what is to be written.
    ///
    /// # Errors
    ///
    /// The system failed.
    pub fn flush(&mut self) -> io::Result<()> {
        self.gathered.flush(&self.file)
    }

    /// What the system says of it.
    ///
    /// # Errors
    ///
    /// The system failed.
    pub fn metadata(&self) -> io::Result<Metadata> {
        self.file.metadata()
    }

    /// Writes what is to be written, waits until the file is on the disk, and answers what the system says of it then.
    /// A file that was opened to be read, and that the system can't wait for, is there already.
    ///
    /// # Errors
    ///
    /// The system failed. It is not known which bytes are on the disk.
    pub fn sync(&mut self, waiting: Waiting) -> io::Result<Metadata> {
        self.flush()?;
        match wait(&self.file, waiting) {
            Err(error) if self.access == Access::Reading && has_no_disk(error) => {}
            done => done?,
        }
        self.file.metadata()
    }
}
