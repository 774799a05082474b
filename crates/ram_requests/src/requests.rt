//! A request for sectors, which keeps that it ends on a disc, and which logical blocks it covers.
ghost use Rattle.std.specs.Prelude.{◌≡◌, ◌+◌, ◌<◌, ◌≤◌, MatchOption};
ghost use Rattle.model_sectors.specs.Requests.{block_with, blocks_covered};
ghost use Rattle.model_sectors.specs.declared.TheConstants.{MOST_SECTORS};

use crate::parts::Part;
use ram_bytes::SECTORS_PER_BLOCK;

/// A request for n sectors from one on. It ends at sector [`MOST_SECTORS`](crate::MOST_SECTORS) at the latest, so
/// that no number of its arithmetic overflows, however many sectors it is for.
#[derive(Clone, Copy, Debug)]
pub struct Request {
    /// The first sector.
    pub lba: u32,
    /// How many sectors.
    pub n: u32,
    ghost low: { lba + n ≤ MOST_SECTORS },
}

impl Request {
    /// The request for `n` sectors from sector `lba` on, of a disc of `capacity` sectors. None exactly where some of them
    /// are none of the disc's.
    ///
    /// # Answers
    ///
    /// - `Some`, `None`: the request; `None` exactly when `lba + n` is more than the capacity. (clause)
    pub fn within(capacity: u32, lba: u32, n: u32) -> Option<Request>
        requires { capacity ≤ MOST_SECTORS }
        ensures { MatchOption result (capacity < lba + n)
            (λ request. (request.lba ≡ lba) × (request.n ≡ n) × (lba + n ≤ capacity)) }
    {
        if u64::from(lba) + u64::from(n) > u64::from(capacity) {
            return None;
        }
        Some(Request { lba, n })
    }

    /// The logical block with its first sector.
    pub fn first(self) -> u32
        ensures { result ≡ block_with self.lba }
    {
        self.lba / SECTORS_PER_BLOCK as u32
    }

    /// How many logical blocks it covers, whole or in part.
    pub fn blocks(self) -> u32
        ensures { result ≡ blocks_covered self.lba self.n }
    {
        if self.n == 0 {
            return 0;
        }
        let last = (self.lba + self.n - 1) / SECTORS_PER_BLOCK as u32;
        last + 1 - self.first()
    }

    /// The part that it covers of the block after `k` others.
    pub fn part(self, k: u32) -> Part
        requires { k < blocks_covered self.lba self.n }
        ensures request { result.request ≡ self }
        ensures block { result.block ≡ block_with self.lba + k }
    {
        let block = self.first() + k;
        let first = block * SECTORS_PER_BLOCK as u32;
        Part {
            request: self,
            block,
            start: self.lba.max(first),
            end: (self.lba + self.n).min(first + SECTORS_PER_BLOCK as u32),
        }
    }
}
