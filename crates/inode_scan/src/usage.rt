ghost use Rattle.std.specs.Prelude.{◌≡◌, IfOk};
ghost use Rattle.std.specs.FinMap as map;
ghost use Rattle.inode_scan.specs.UsageSums.{IsNextUser, bound_above};

use crate::Used;
use std::alloc::{AllocError, Global};
use std::collections::{BTreeMap, HashMap};
use std::marker::Model;
use std::ops::Bound;

/// What identifiers use, as a listing tells it: contracts see this type as a finite map from identifiers to what they
/// use.
#[derive(Drop)]
pub struct Usage {
    used: BTreeMap<u32, Used>,
}

impl Model for Usage {
    ghost use Rattle.std.specs.FinMap as map;
    ghost use Rattle.std.specs.Coded.{coded_ℕ};
    ghost use Rattle.inode_scan.specs.Usage.{UsageMap};
    ghost use Rattle.inode_scan.specs.UsageSums.{used_code};

    ghost Value = { UsageMap };

    ghost coded = { map.code coded_ℕ used_code };

    ghost view = { λ usage. map.from_entries usage.used.entries };
}

impl Usage {
    /// The entries of a map, in order.
    pub(crate) fn of_entries(alloc: Global, used: HashMap<u32, Used>) -> Result<Usage, AllocError>
        ensures { IfOk result (λ usage. usage ≡ map.from_entries used.entries) }
    {
        let used = used.into_iter().collect(alloc)?;
        Ok(Usage { used })
    }

    /// What an identifier uses, or `None` where it owns no inode of the listing.
    pub fn of(&self, id: u32) -> Option<Used>
        ensures { result ≡ map.get self.now id }
    {
        self.used.get(&id).copied()
    }

    /// The least identifier that uses something and is greater than `after`, or the least of all; `None` where there is
    /// none.
    pub fn next_after(&self, after: Option<u32>) -> Option<u32>
        ensures { IsNextUser after self.now result }
    {
        let (id, _used) = self.used.range((above(after), Bound::Unbounded)).next()?;
        Some(*id)
    }
}

/// Where the identifiers that come after another one begin.
fn above(after: Option<u32>) -> Bound<u32>
    ensures { result ≡ bound_above after }
{
    match after {
        Some(id) => Bound::Excluded(id),
        None => Bound::Unbounded,
    }
}
