use std::alloc::{AllocError, Global};

/// The folder in which a file has its name.
pub fn folder_of(path: &str) -> &str {
    match path.rsplit_once('/') {
        Some(("", _)) => "/",
        Some((folder, _)) => folder,
        None => ".",
    }
}

/// The names that were given or taken away since their folders were synced.
#[derive(Drop)]
pub struct NewNames {
    alloc: Global,
    paths: Vec<String>,
}

impl NewNames {
    /// None was yet.
    pub fn new(alloc: Global) -> NewNames {
        NewNames {
            alloc,
            paths: Vec::new(alloc),
        }
    }

    /// Notes a name that is about to be given or taken away.
    pub fn note(&mut self, path: &str) -> Result<(), AllocError> {
        if !self.has(path) {
            self.paths.push(String::from_str(self.alloc, path)?)?;
        }
        Ok(())
    }

    /// Whether there is none.
    pub fn is_empty(&self) -> bool {
        self.paths.is_empty()
    }

    /// Whether a name is one of them.
    pub fn has(&self, path: &str) -> bool {
        self.paths.iter().any(|other| other.as_str() == path)
    }

    /// Forgets all names in the folder of this one, which was synced.
    pub fn forget_beside(&mut self, path: &str) {
        self.paths
            .retain(|other| folder_of(other.as_str()) != folder_of(path));
    }
}
