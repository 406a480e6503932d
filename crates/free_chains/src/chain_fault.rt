ghost use Rattle.std.specs.Prelude.{◌≡◌};
ghost use Rattle.free_chains.specs.declared.chain_fault.ChainFault.TheVariants.{Store as StoreFailed};

use outside::StoreFault;
use quota_types::Damage;

/// Why a list of blocks could not be followed or changed.
#[derive(Clone, Copy, Debug, PartialEq, Eq)]
pub enum ChainFault {
    /// The store failed.
    Store,
    /// The file is damaged.
    Damage(Damage),
}

impl From<StoreFault> for ChainFault {
    ghost from_gives = { λ _ fault. fault ≡ StoreFailed };

    fn from(_: StoreFault) -> Self {
        ChainFault::Store
    }
}
