use std::alloc::{AllocError, Global};

/// Which files have an undo file. What stands under the name of one beside any other file is another account's
/// business.
#[derive(Drop)]
pub struct Undone {
    alloc: Global,
    names: Option<Vec<String>>,
}

impl Undone {
    /// Each file has one.
    pub fn each(alloc: Global) -> Undone {
        Undone { alloc, names: None }
    }

    /// Says that a file has one. From the first one on only those have one of which it was said.
    pub fn add(&mut self, name: &str) -> Result<(), AllocError> {
        let name = String::from_str(self.alloc, name)?;
        let alloc = self.alloc;
        self.names
            .get_or_insert_with(|| Vec::new(alloc))
            .push(name)?;
        Ok(())
    }

    /// Whether a file has one.
    pub fn has(&self, name: &str) -> bool {
        match &self.names {
            Some(names) => names.iter().any(|other| other.as_str() == name),
            None => true,
        }
    }

    /// Whether it was said of a file by its name that it has one.
    pub fn names(&self, name: &str) -> bool {
        self.names.is_some() && self.has(name)
    }
}
