ghost use Rattle.std.specs.Prelude.{◌≡◌};
ghost use Rattle.quota_client.specs.Line.{blocks_of, files_of, grace_of, kib_in};

use arrayvec::ArrayVec;
use quota_types::is_exceeded;
use report_text::period_text;
use rquota_xdr::Quota;

/// What a quota says of blocks, in KiB, or of files.
#[derive(Clone, Copy)]
pub(crate) struct Usage {
    /// How much is in use.
    pub(crate) used: u64,
    /// The soft limit; 0 is none.
    pub(crate) soft: u64,
    /// The hard limit; 0 is none.
    pub(crate) hard: u64,
    /// There is a soft limit, and it is exceeded.
    pub(crate) exceeded: bool,
    /// Seconds left of the grace period.
    pub(crate) left: u32,
}

impl Usage {
    /// What a quota says of blocks. Whether the soft limit is exceeded is told by the numbers as they were sent, and
    /// not by their KiB.
    pub(crate) fn of_blocks(quota: &Quota) -> Self
        ensures { result ≡ blocks_of quota.now }
    {
        Usage {
            used: kib_in(quota.curblocks, quota.bsize),
            soft: kib_in(quota.bsoft, quota.bsize),
            hard: kib_in(quota.bhard, quota.bsize),
            exceeded: is_exceeded(u64::from(quota.bsoft), u64::from(quota.curblocks)),
            left: quota.btimeleft,
        }
    }

    /// What a quota says of files.
    pub(crate) fn of_files(quota: &Quota) -> Self
        ensures { result ≡ files_of quota.now }
    {
        Usage {
            used: u64::from(quota.curfiles),
            soft: u64::from(quota.fsoft),
            hard: u64::from(quota.fhard),
            exceeded: is_exceeded(u64::from(quota.fsoft), u64::from(quota.curfiles)),
            left: quota.ftimeleft,
        }
    }

    /// The text of the grace period: `-` where the soft limit is not exceeded, else what is left, or `none`.
    #[tactic(auto, unfolding(crate::specs::Line::grace_of))]
    pub(crate) fn grace(&self) -> ArrayVec<u8, 32>
        ensures { result.items ≡ grace_of self.now }
    {
        let mut text = ArrayVec::new();
        if !self.exceeded {
            text.push(b'-');
        } else if self.left == 0 {
            text.try_extend_from_slice(b"none").unwrap();
        } else {
            period_text(u64::from(self.left), &mut text);
        }
        text
    }
}

/// The KiB of so many blocks of a size in bytes, rounded down.
fn kib_in(blocks: u32, size: u32) -> u64
    ensures { result ≡ kib_in blocks size }
{
    u64::from(blocks) * u64::from(size) / 1024
}
