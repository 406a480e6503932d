ghost use Rattle.std.specs.Prelude.{◌≡◌, ◌≢◌, ◌+◌, ◌-◌, ◌<◌, ◌≤◌, ◌^◌, ◌++◌, [], length, take, drop, replicate};
ghost use Rattle.std.specs.Prelude.{position, None, Some, IfOk, OnOk, OnErr};
ghost use Rattle.std.specs.Option.{option_copied, option_map};
ghost use Rattle.std.specs.Str.{bytes_eq};
ghost use Rattle.std.specs.String.{string_bytes};
ghost use Rattle.memory_objects.specs.MemStore.{HaveDistinctNames, NamedFile, file_named};
ghost use Rattle.outside.specs.World.{overwritten, with_bytes, with_file, with_new_name};

use std::alloc::AllocError;

/// Files in memory, each with a name of its own. New names and bytes are made on the allocator of the list.
#[derive(Debug, Drop)]
pub struct NamedFiles {
    /// Each name with the bytes of its file.
    pub entries: Vec<(String, Vec<u8>)>,
    ghost distinct: { HaveDistinctNames entries.items },
}

impl NamedFiles {
    /// These files.
    pub fn new(entries: Vec<(String, Vec<u8>)>) -> Self
        requires { HaveDistinctNames entries.items }
        ensures { result.entries.items ≡ entries.items }
    {
        NamedFiles { entries }
    }

    /// The bytes of a file, or `None` where there is none of this name.
    pub fn find(&self, name: &str) -> Option<&[u8]>
        ensures { option_copied result ≡ file_named self.now.entries.items name.now }
    {
        self.entries
            .iter()
            .find(|file| file.0.as_str() == name)
            .map(|file| file.1.as_slice())
    }

    /// The bytes of a file, or `None` where there is none of this name. They are not copied, and no memory is taken.
    pub fn into_file(self, name: &str) -> Option<Vec<u8>>
        ensures { option_map (λ file. file.items) result ≡ file_named self.entries.items name.now }
    {
        let place = self.position(name)?;
        let mut entries = self.entries;
        Some(entries.swap_remove(place).1)
    }

    fn position(&self, name: &str) -> Option<usize>
        ensures { result
            ≡ position (λ (file : NamedFile). bytes_eq (string_bytes file.0) name.now) self.now.entries.items }
    {
        self.entries.iter().position(|file| file.0.as_str() == name)
    }

    /// Makes a file empty that is there, or makes an empty one.
    pub fn create(&mut self, name: &str) -> Result<(), AllocError>
        ensures ok { OnOk result
            (file_named self.new.entries.items ≡ with_file (file_named self.old.entries.items) name.now (Some [])) }
        ensures err { OnErr result (file_named self.new.entries.items ≡ file_named self.old.entries.items) }
    {
        if let Some(place) = self.position(name) {
            self.entries[place].1.clear();
            return Ok(());
        }
        let bytes = Vec::new(*self.entries.allocator());
        self.add(name, bytes)
    }

    fn add(&mut self, name: &str, bytes: Vec<u8>) -> Result<(), AllocError>
        requires { file_named self.old.entries.items name.now ≡ None }
        ensures ok { OnOk result
            (file_named self.new.entries.items
            ≡ with_file (file_named self.old.entries.items) name.now (Some bytes.items)) }
        ensures err { OnErr result (file_named self.new.entries.items ≡ file_named self.old.entries.items) }
    {
        let name = String::from_str(*self.entries.allocator(), name)?;
        self.entries.push((name, bytes))?;
        Ok(())
    }

    /// Writes bytes into a file at place `at`. A file that is not there is made, and a gap is filled with zeros.
    pub fn write(&mut self, name: &str, at: usize, bytes: &[u8]) -> Result<(), AllocError>
        requires { at + length bytes.now < 2 ^ 63 }
        ensures ok { OnOk result
            (file_named self.new.entries.items ≡ with_bytes (file_named self.old.entries.items) name.now at bytes.now) }
        ensures err { OnErr result (file_named self.new.entries.items ≡ file_named self.old.entries.items) }
    {
        if let Some(place) = self.position(name) {
            return overwrite(&mut self.entries[place].1, at, bytes);
        }
        let mut file = Vec::new(*self.entries.allocator());
        overwrite(&mut file, at, bytes)?;
        self.add(name, file)
    }

    /// Gives a file another name, in place of the file that had it.
    pub fn rename(&mut self, from: &str, to: &str) -> Result<(), AllocError>
        requires { from.now ≢ to.now }
        ensures ok { OnOk result
            (file_named self.new.entries.items ≡ with_new_name (file_named self.old.entries.items) from.now to.now) }
        ensures err { OnErr result (file_named self.new.entries.items ≡ file_named self.old.entries.items) }
    {
        if self.find(from).is_none() {
            return Ok(());
        }
        let name = String::from_str(*self.entries.allocator(), to)?;
        self.remove(to);
        self.set_name(from, name);
        Ok(())
    }

    /// Cuts a file to a length. One that is not longer stays, and one that is not there is not made.
    pub fn cut(&mut self, name: &str, len: usize)
        ensures { file_named self.new.entries.items ≡ with_file (file_named self.old.entries.items) name.now
            (option_map (take len) (file_named self.old.entries.items name.now)) }
    {
        if let Some(place) = self.position(name) {
            self.entries[place].1.truncate(len);
        }
    }

    /// The same files once more.
    pub fn copied(&self) -> Result<NamedFiles, AllocError>
        ensures { IfOk result (λ copy. file_named copy.entries.items ≡ file_named self.now.entries.items) }
    {
        let mut copy = NamedFiles::new(Vec::new(*self.entries.allocator()));
        for file in &self.entries {
            copy.add(file.0.as_str(), file.1.to_vec(*self.entries.allocator())?)?;
        }
        Ok(copy)
    }

    /// Gives a name a file of these bytes, in place of the one that had it.
    pub fn put(&mut self, name: &str, bytes: &[u8]) -> Result<(), AllocError>
        ensures { OnOk result
            (file_named self.new.entries.items
            ≡ with_file (file_named self.old.entries.items) name.now (Some bytes.now)) }
    {
        let copy = bytes.to_vec(*self.entries.allocator())?;
        self.remove(name);
        self.add(name, copy)?;
        Ok(())
    }

    /// Removes the file of a name, where there is one.
    pub fn remove(&mut self, name: &str)
        ensures { file_named self.new.entries.items ≡ with_file (file_named self.old.entries.items) name.now None }
    {
        self.entries.retain(|file| file.0.as_str() != name);
    }

    fn set_name(&mut self, from: &str, to: String)
        requires { file_named self.old.entries.items (string_bytes to) ≡ None }
        ensures { file_named self.new.entries.items
            ≡ with_new_name (file_named self.old.entries.items) from.now (string_bytes to) }
    {
        if let Some(place) = self.position(from) {
            self.entries[place].0 = to;
        }
    }
}

/// Writes bytes over those of a file from place `at` on. A gap past the old end is filled with zeros.
fn overwrite(file: &mut Vec<u8>, at: usize, bytes: &[u8]) -> Result<(), AllocError>
    requires { at + length bytes.now < 2 ^ 63 }
    ensures ok { OnOk result (file.new.items ≡ overwritten file.old.items at bytes.now) }
    ensures err { OnErr result (file.new.items ≡ file.old.items) }
{
    fill_up(file, at + bytes.len())?;
    copy_over(file, at, bytes);
    Ok(())
}

/// Fills a file up with zeros to this length where it is shorter.
fn fill_up(file: &mut Vec<u8>, len: usize) -> Result<(), AllocError>
    ensures ok { OnOk result (file.new.items ≡ file.old.items ++ replicate (len - length file.old.items) 0) }
    ensures err { OnErr result (file.new.items ≡ file.old.items) }
{
    if file.len() < len {
        file.resize(len, 0)?;
    }
    Ok(())
}

/// Writes bytes over those of a file that reaches far enough.
fn copy_over(file: &mut [u8], at: usize, bytes: &[u8])
    requires { at + length bytes.now ≤ length file.old }
    ensures { file.new ≡ take at file.old ++ bytes.now ++ drop (at + length bytes.now) file.old }
{
    file[at..at + bytes.len()].copy_from_slice(bytes);
}
