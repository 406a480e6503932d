ghost use Rattle.std.specs.Prelude.{◌≡◌};
ghost use Rattle.file_blocks.specs.declared.check_fault.CheckFault.TheVariants.{Store as StoreFailed};
ghost use Rattle.file_blocks.specs.declared.check_fault.CheckFault.TheVariants.{Damage as Damaged, Memory};

use outside::StoreFault;
use quota_types::Damage;
use std::alloc::{AllocError, AllocFailed};

/// Why a tree file could not be checked, or what is wrong with it.
#[derive(Clone, Copy, Debug, PartialEq, Eq)]
pub enum CheckFault {
    /// The store failed.
    Store,
    /// The file is damaged.
    Damage(Damage),
    /// There was not enough memory.
    Memory,
}

impl From<StoreFault> for CheckFault {
    ghost from_gives = { λ _ fault. fault ≡ StoreFailed };

    fn from(_: StoreFault) -> Self {
        CheckFault::Store
    }
}

impl From<AllocError> for CheckFault {
    ghost from_gives = { λ _ fault. fault ≡ Memory };

    fn from(_: AllocError) -> Self {
        CheckFault::Memory
    }
}

impl<T: Drop> From<AllocFailed<T>> for CheckFault {
    ghost from_gives = { λ _ fault. fault ≡ Memory };

    fn from(_: AllocFailed<T>) -> Self {
        CheckFault::Memory
    }
}

impl From<Damage> for CheckFault {
    ghost from_gives = { λ damage fault. fault ≡ Damaged damage };

    fn from(damage: Damage) -> Self {
        CheckFault::Damage(damage)
    }
}
