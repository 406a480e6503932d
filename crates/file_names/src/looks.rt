use crate::stamp::Stamp;
use std::alloc::{AllocError, Global};

/// A name, and what stood under it when it was looked at first; none where there was no file.
#[derive(Drop)]
struct Look {
    name: String,
    found: Option<Stamp>,
}

/// What each name stood for when it was looked at first.
#[derive(Drop)]
pub struct FirstLooks {
    alloc: Global,
    looks: Vec<Look>,
}

impl FirstLooks {
    /// No name was looked at yet.
    pub fn new(alloc: Global) -> FirstLooks {
        FirstLooks {
            alloc,
            looks: Vec::new(alloc),
        }
    }

    /// Notes what a name stands for, unless it was looked at before.
    pub fn note(&mut self, name: &str, found: Option<Stamp>) -> Result<(), AllocError> {
        if self.first(name).is_none() {
            let name = String::from_str(self.alloc, name)?;
            self.looks.push(Look { name, found })?;
        }
        Ok(())
    }

    /// What a name stood for when it was looked at first, where it was.
    pub fn first(&self, name: &str) -> Option<Option<Stamp>> {
        let look = self.looks.iter().find(|look| look.name.as_str() == name)?;
        Some(look.found)
    }

    /// Forgets a name, which stands for another file by now.
    pub fn forget(&mut self, name: &str) {
        self.looks.retain(|look| look.name.as_str() != name);
    }
}
