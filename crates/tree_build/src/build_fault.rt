ghost use Rattle.std.specs.Prelude.{◌≡◌};
ghost use Rattle.tree_build.specs.declared.build_fault.BuildFault.TheVariants.{Memory};

use std::alloc::AllocError;

/// Why a tree file could not be built.
#[derive(Clone, Copy, Debug, PartialEq, Eq)]
pub enum BuildFault {
    /// The file would have more blocks than it may have.
    Full {
        /// The number of blocks that it needs.
        blocks: u64,
        /// The number of blocks that it may have.
        limit: u64,
    },
    /// There was not enough memory.
    Memory,
}

impl From<AllocError> for BuildFault {
    ghost from_gives = { λ _ fault. fault ≡ Memory };

    fn from(_: AllocError) -> Self {
        BuildFault::Memory
    }
}
