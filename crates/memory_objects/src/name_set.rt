ghost use Rattle.std.specs.Prelude.{◌≡◌, ◌≢◌, [], true, false, OnOk, OnErr};
ghost use Rattle.memory_objects.specs.NameSet.{names_in};
ghost use Rattle.outside.specs.Unsynced.{with_name};

use std::alloc::{AllocError, Global};

/// A set of names in memory.
#[derive(Debug, Drop)]
pub struct NameSet {
    /// Each name of the set.
    pub names: Vec<String>,
}

impl NameSet {
    /// No name.
    pub fn new(alloc: Global) -> Self
        ensures { result.names.items ≡ [] }
    {
        NameSet {
            names: Vec::new(alloc),
        }
    }

    /// Whether a name is in the set.
    pub fn contains(&self, name: &str) -> bool
        ensures { result ≡ names_in self.now.names.items name.now }
    {
        self.names.iter().any(|text| text.as_str() == name)
    }

    /// Puts a name into the set.
    pub fn add(&mut self, name: &str) -> Result<(), AllocError>
        ensures ok { OnOk result
            (names_in self.new.names.items ≡ with_name (names_in self.old.names.items) name.now true) }
        ensures err { OnErr result (names_in self.new.names.items ≡ names_in self.old.names.items) }
    {
        if self.contains(name) {
            return Ok(());
        }
        let text = String::from_str(*self.names.allocator(), name)?;
        self.names.push(text)?;
        Ok(())
    }

    /// Takes a name out of the set.
    pub fn remove(&mut self, name: &str)
        ensures { names_in self.new.names.items ≡ with_name (names_in self.old.names.items) name.now false }
    {
        self.names.retain(|text| text.as_str() != name);
    }

    /// Takes one name out of the set, and puts another one there exactly where that one was in it.
    pub fn hand_over(&mut self, from: &str, to: &str) -> Result<(), AllocError>
        requires { from.now ≢ to.now }
        ensures ok { OnOk result (names_in self.new.names.items
            ≡ with_name (with_name (names_in self.old.names.items) from.now false) to.now
            (names_in self.old.names.items from.now)) }
        ensures err { OnErr result (names_in self.new.names.items ≡ names_in self.old.names.items) }
    {
        if self.contains(from) {
            self.add(to)?;
        } else {
            self.remove(to);
        }
        self.remove(from);
        Ok(())
    }
}
