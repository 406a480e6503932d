use crate::stamp::Node;
use file_windows::{Access, Opened, Waiting};
use std::fs::Metadata;
use std::io;

/// An open file.
#[derive(Drop)]
pub struct Slot {
    /// The file with its windows.
    pub opened: Opened,
    /// Which file it is.
    pub node: Node,
    /// What is waited for with a sync of it.
    pub waiting: Waiting,
    /// Whether it was synced and has not been changed since.
    pub is_synced: bool,
}

impl Slot {
    /// Whether it is the file of this name, and may be used so.
    #[inline(always)]
    fn serves(&self, name: &str, access: Access) -> bool {
        self.opened.serves(name, access)
    }
}

/// Whether a file is open, and is neither this one nor one that was opened by this name.
fn is_another(slot: &Option<Slot>, name: &str, node: Node) -> bool {
    match slot {
        Some(slot) => slot.node != node && !slot.opened.is_named(name),
        None => false,
    }
}

/// Writes what is to be written to a file, and closes it.
fn close(slot: Option<Slot>) -> io::Result<()> {
    match slot {
        Some(mut slot) => slot.opened.flush(),
        None => Ok(()),
    }
}

/// The two files that were used last, which stay open: a change in place goes to and fro between a file and its undo
/// file. No file is open twice.
#[derive(Drop)]
pub struct Slots {
    last: Option<Slot>,
    other: Option<Slot>,
}

impl Slots {
    /// None is open yet.
    pub fn new() -> Slots {
        Slots {
            last: None,
            other: None,
        }
    }

    /// Whether the file of this name is open, and may be used so. It is the one that was used last then.
    #[inline(always)]
    pub fn serve(&mut self, name: &str, access: Access) -> bool {
        match &self.last {
            Some(last) if last.serves(name, access) => true,
            _ => self.serve_other(name, access),
        }
    }

    /// Whether the file that was used before the last one is that of this name.
    fn serve_other(&mut self, name: &str, access: Access) -> bool {
        match &self.other {
            Some(other) if other.serves(name, access) => {
                let last = self.last.take();
                self.last = self.other.take();
                self.other = last;
                true
            }
            _ => false,
        }
    }

    /// The file that was used last.
    #[inline(always)]
    pub fn last(&mut self) -> Option<&mut Slot> {
        self.last.as_mut()
    }

    /// What the system says of the file of this name, where it is open.
    pub fn metadata(&self, name: &str) -> io::Result<Option<Metadata>> {
        for slot in [&self.last, &self.other] {
            if let Some(slot) = slot {
                if slot.opened.is_named(name) {
                    return Ok(Some(slot.opened.metadata()?));
                }
            }
        }
        Ok(None)
    }

    /// Takes a file that was just opened, and closes the one that was used longer ago, or what is the same one.
    pub fn put(&mut self, name: &str, slot: Slot) -> io::Result<()> {
        let node = slot.node;
        let last = self.last.take();
        let other = self.other.take();
        self.last = Some(slot);
        if is_another(&last, name, node) {
            self.other = last;
            return close(other);
        }
        if is_another(&other, name, node) {
            self.other = other;
            return close(last);
        }
        close(last).and(close(other))
    }

    /// Closes the file that was used last, where what was done with it failed. What was gathered for it is lost.
    pub fn drop_last(&mut self) {
        self.last = None;
    }

    /// Closes both files, once what is to be written to them was written.
    pub fn close_all(&mut self) -> io::Result<()> {
        let last = close(self.last.take());
        let other = close(self.other.take());
        last.and(other)
    }
}
