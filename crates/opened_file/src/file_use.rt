ghost use Rattle.std.specs.Prelude.{◌≡◌, ℕ, List, not, true, IsTrue};
ghost use Rattle.quota_types.specs.declared.file_kind.Format.{Format};
ghost use Rattle.opened_file.specs.FileUse.{seen_in};
ghost use Rattle.opened_file.specs.QuotaFile.{CountsRefusal, is_store_fault};

use crate::FileFault;

/// What an opened quota file keeps besides its name and its bytes, whatever its format: whether it may still be used,
/// and how many calls were refused.
#[derive(Debug, Drop)]
pub struct FileUse {
    pub(crate) usable: bool,
    pub(crate) refusals: u64,
}

impl FileUse {
    /// A file that may be used, and of which no call was refused.
    pub fn new() -> Self
        ensures { (name : List ℕ) (format : Format) (limit : ℕ) → seen_in result name format limit
            ≡ record { name = name; format = format; usable = true; limit = limit; refusals = 0 } }
    {
        FileUse {
            usable: true,
            refusals: 0,
        }
    }

    /// Whether the file may still be used. It may not after a change in which the store failed.
    pub fn is_usable(&self) -> bool
        ensures { result ≡ self.now.usable }
    {
        self.usable
    }

    /// Counts a refused call, and answers its fault. After one of the store the file is not used again.
    pub fn refused(&mut self, fault: FileFault) -> FileFault
        requires { IsTrue self.old.usable }
        ensures same { result ≡ fault }
        ensures counted { (name : List ℕ) (format : Format) (limit : ℕ) → CountsRefusal (not (is_store_fault fault))
            (seen_in self.old name format limit) (seen_in self.new name format limit) }
    {
        self.usable = fault != FileFault::Store;
        self.refusals = self.refusals.saturating_add(1);
        fault
    }

    /// Counts a refused look-up, and answers its fault. The file may be used again, even where the store failed.
    pub fn refused_look_up(&mut self, fault: FileFault) -> FileFault
        requires { IsTrue self.old.usable }
        ensures same { result ≡ fault }
        ensures counted { (name : List ℕ) (format : Format) (limit : ℕ) → CountsRefusal true
            (seen_in self.old name format limit) (seen_in self.new name format limit) }
    {
        self.refusals = self.refusals.saturating_add(1);
        fault
    }
}
