ghost use Rattle.std.specs.Prelude.{◌≡◌};
ghost use Rattle.quota_types.specs.Timers.{is_exceeded};
ghost use Rattle.report_text.specs.Report.{blocks_of, inodes_of, flag_of};

use quota_types::{Rec, is_exceeded};

/// What an identifier uses of blocks or of inodes.
#[derive(Clone, Copy, Debug, PartialEq, Eq)]
pub(crate) struct Usage {
    /// How much is in use.
    pub used: u64,
    /// The soft limit; 0 is none.
    pub soft: u64,
    /// The hard limit; 0 is none.
    pub hard: u64,
    /// When the grace period of the soft limit ends, in seconds since 1970; 0 where it does not run.
    pub timer: u64,
}

impl Usage {
    /// What a record says of blocks, in KiB.
    pub fn of_blocks(rec: &Rec) -> Self
        ensures { result ≡ blocks_of rec.now }
    {
        Usage {
            used: rec.kib(),
            soft: rec.bsoft,
            hard: rec.bhard,
            timer: rec.btime,
        }
    }

    /// What a record says of inodes.
    pub fn of_inodes(rec: &Rec) -> Self
        ensures { result ≡ inodes_of rec.now }
    {
        Usage {
            used: rec.inodes,
            soft: rec.isoft,
            hard: rec.ihard,
            timer: rec.itime,
        }
    }

    /// `+` where a limit is exceeded, else `-`.
    pub fn flag(&self) -> u8
        ensures { result ≡ flag_of self.now }
    {
        if self.is_over_soft() || is_exceeded(self.hard, self.used) {
            b'+'
        } else {
            b'-'
        }
    }

    /// Whether the soft limit is exceeded.
    pub fn is_over_soft(&self) -> bool
        ensures { result ≡ is_exceeded self.now.soft self.now.used }
    {
        is_exceeded(self.soft, self.used)
    }
}
