//! A drive with a write cache over a disc: how it is made, and what it lends.

use crate::pending::PendingBlocks;
use ram_sectors::Disc;

/// A disc with a write cache. It keeps no fact about its disc, so that the disc may be lent.
#[derive(Drop)]
pub struct Cached<D: Disc> {
    /// The disc below. It may be worked on beside the drive's calls: what is pending and whether the cache is on stay.
    pub disc: D,
    /// The blocks whose last acknowledged bytes are not on it.
    pub(crate) pending: PendingBlocks,
    /// Whether writes go into the cache.
    pub(crate) on: bool,
}

impl<D: Disc> Cached<D> {
    ghost use Rattle.std.specs.Prelude.{◌≡◌, length, [], false};
    ghost use Rattle.ram_cache.specs.Rooms.{pending_of};

    /// A drive over this disc, with its cache off and nothing pending. What is pending in the blocks that it is given is dropped.
    ///
    /// # Clauses
    ///
    /// - `disc`, `pending`, `off`: the disc, with the cache off and nothing pending, whatever was pending in the rooms that it is
    ///   given.
    pub fn new(disc: D, pending: PendingBlocks) -> Cached<D>
        ensures disc { result.disc ≡ disc }
        ensures pending { pending_of result.pending ≡ [] }
        ensures off { result.on ≡ false }
    {
        let mut pending = pending;
        pending.drop_all();
        Cached {
            disc,
            pending,
            on: false,
        }
    }

    /// The disc below, and the rooms of the pending blocks, none of which reaches the disc any more.
    ///
    /// # Clauses
    ///
    /// - its one clause: the disc, and the rooms; what is pending is lost.
    pub fn into_parts(self) -> (D, PendingBlocks)
        ensures { result.0 ≡ self.disc }
    {
        let Cached { disc, pending, .. } = self;
        (disc, pending)
    }

    /// How many blocks are pending.
    ///
    /// # Clauses
    ///
    /// - its one clause: how many blocks are pending.
    pub fn pending(&self) -> u32
        ensures { result ≡ length (pending_of self.now.pending) }
    {
        self.pending.len() as u32
    }
}
