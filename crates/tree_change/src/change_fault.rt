ghost use Rattle.std.specs.Prelude.{◌≡◌};
ghost use Rattle.tree_change.specs.declared.change_fault.ChangeFault.TheVariants.{Store as StoreFailed};
ghost use Rattle.tree_change.specs.ChangeFault.{of_chain_fault, of_walk_fault};

use free_chains::ChainFault;
use outside::StoreFault;
use quota_radix::WalkFault;
use quota_types::Damage;

/// Why a step of a change was refused.
#[derive(Clone, Copy, Debug, PartialEq, Eq)]
pub enum ChangeFault {
    /// The store failed.
    Store,
    /// The file is damaged.
    Damage(Damage),
    /// The file would have more blocks than it may have.
    Full {
        /// The number of blocks that it needs.
        blocks: u64,
        /// The number of blocks that it may have.
        limit: u64,
    },
}

impl From<StoreFault> for ChangeFault {
    ghost from_gives = { λ _ fault. fault ≡ StoreFailed };

    fn from(_: StoreFault) -> Self {
        ChangeFault::Store
    }
}

impl From<ChainFault> for ChangeFault {
    ghost from_gives = { λ cause fault. fault ≡ of_chain_fault cause };

    fn from(fault: ChainFault) -> Self {
        match fault {
            ChainFault::Store => ChangeFault::Store,
            ChainFault::Damage(damage) => ChangeFault::Damage(damage),
        }
    }
}

impl From<WalkFault> for ChangeFault {
    ghost from_gives = { λ cause fault. fault ≡ of_walk_fault cause };

    fn from(fault: WalkFault) -> Self {
        match fault {
            WalkFault::Store => ChangeFault::Store,
            WalkFault::Damage(damage) => ChangeFault::Damage(damage),
        }
    }
}
