ghost use Rattle.std.specs.Prelude.{◌≡◌};
ghost use Rattle.quota_radix.specs.declared.walk_fault.WalkFault.TheVariants.{Store as StoreFailed, Damage as Damaged};

use outside::StoreFault;
use quota_types::Damage;

/// Why a walk down the tree of a file was refused.
#[derive(Clone, Copy, Debug, PartialEq, Eq)]
pub enum WalkFault {
    /// The store failed.
    Store,
    /// The file is damaged.
    Damage(Damage),
}

impl From<StoreFault> for WalkFault {
    ghost from_gives = { λ _ fault. fault ≡ StoreFailed };

    fn from(_: StoreFault) -> Self {
        WalkFault::Store
    }
}

impl From<Damage> for WalkFault {
    ghost from_gives = { λ damage fault. fault ≡ Damaged damage };

    fn from(damage: Damage) -> Self {
        WalkFault::Damage(damage)
    }
}
