ghost use Rattle.std.specs.Prelude.{◌≡◌, ◌+◌, ◌*◌, ◌^◌, ◌<◌, IfOk, IfSome, OnOk};
ghost use Rattle.std.specs.FinMap as map;
ghost use Rattle.inode_scan.specs.UsageSums.{with_inode};

use crate::{Usage, Used};
use std::alloc::{AllocError, AllocFailed, Global};
use std::collections::HashMap;
use std::marker::Model;

/// What identifiers use, as far as it was added up, in no order: it is seen as `Usage` is. An identifier is found at
/// once, where in order it would be searched for at each line.
#[derive(Drop)]
pub(crate) struct Sums {
    used: HashMap<u32, Used>,
}

impl Model for Sums {
    ghost use Rattle.std.specs.FinMap as map;
    ghost use Rattle.std.specs.Coded.{coded_ℕ};
    ghost use Rattle.inode_scan.specs.Usage.{UsageMap};
    ghost use Rattle.inode_scan.specs.UsageSums.{used_code};

    ghost Value = { UsageMap };

    ghost coded = { map.code coded_ℕ used_code };

    ghost view = { λ sums. map.from_entries sums.used.entries };
}

impl Sums {
    /// No usage.
    pub(crate) fn none(alloc: Global) -> Sums
        ensures { result ≡ map.empty }
    {
        Sums {
            used: HashMap::new(alloc),
        }
    }

    /// Adds an inode of this many blocks of 512 bytes to what an identifier uses.
    pub(crate) fn add(&mut self, id: u32, blocks: u64) -> Result<(), AllocFailed<(u32, Used)>>
        requires { IfSome (map.get self.old id) (λ used. (used.space + 512 * blocks < 2 ^ 128)
            × (used.inodes + 1 < 2 ^ 64)) }
        ensures { OnOk result (self.new ≡ map.insert self.old id (with_inode (map.get self.old id) blocks)) }
    {
        if let Some(used) = self.used.get_mut(&id) {
            *used = with_inode(Some(*used), blocks);
            return Ok(());
        }
        self.used.insert(id, with_inode(None, blocks))?;
        Ok(())
    }

    /// The sums in order.
    pub(crate) fn into_usage(self, alloc: Global) -> Result<Usage, AllocError>
        ensures { IfOk result (λ usage. usage ≡ self) }
    {
        Usage::of_entries(alloc, self.used)
    }
}

/// What is used with one more inode of this many blocks of 512 bytes.
fn with_inode(used: Option<Used>, blocks: u64) -> Used
    requires { IfSome used (λ used. (used.space + 512 * blocks < 2 ^ 128) × (used.inodes + 1 < 2 ^ 64)) }
    ensures { result ≡ with_inode used blocks }
{
    let space = 512 * u128::from(blocks);
    match used {
        Some(used) => Used {
            space: used.space + space,
            inodes: used.inodes + 1,
        },
        None => Used { space, inodes: 1 },
    }
}
