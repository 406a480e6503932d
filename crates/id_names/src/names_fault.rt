ghost use Rattle.std.specs.Prelude.{◌≡◌};
ghost use Rattle.id_names.specs.declared.names_fault.NamesFault.TheVariants.{Memory};

use std::alloc::AllocError;

/// Why a file of names was not read.
#[derive(Clone, Copy, Debug, PartialEq, Eq)]
pub enum NamesFault {
    /// The line of this number, counted from 1, is the first that breaks the rules of its kind of file.
    BadLine(u64),
    /// There was not enough memory.
    Memory,
}

impl From<AllocError> for NamesFault {
    ghost from_gives = { λ _ fault. fault ≡ Memory };

    fn from(_: AllocError) -> Self {
        NamesFault::Memory
    }
}
