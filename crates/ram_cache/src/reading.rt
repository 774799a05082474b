//! A read while blocks are pending: block after block, from the cache or from the disc.

ghost use Rattle.std.specs.Prelude.{◌≡◌, ◌≤◌, ◌<◌, ◌+◌, ◌*◌, true, None, length};
ghost use Rattle.model_commands.specs.declared.TheConstants.{TRANSFER_LIMIT};
ghost use Rattle.model_buffer.specs.Buffer.{bytes_at};
ghost use Rattle.model_sectors.specs.Requests.{block_with, blocks_covered, IsCovered};
ghost use Rattle.model_drive.specs.Parts.{IsInRange};
ghost use Rattle.model_cache.specs.Values.{Values, Contents, Has, IsPending};
ghost use Rattle.model_cache.specs.Steps.{ReadContents};
ghost use Rattle.model_cache.specs.Causes.{CacheReadCause, ReadPartsCause, ReadsPart};
ghost use Rattle.ram_cache.specs.Reading.{PartContents, CacheReadOn};

use crate::cached::Cached;
use crate::flushing::Entered;
use ram_bytes::SECTOR_BYTES;
use ram_requests::{Part, Request};
use ram_sectors::{Disc, ReadOut, Sectors};

impl<D: Disc> Cached<D> {
    ghost use Rattle.ram_cache.specs.Caches.{shown_by, stands_by};
    ghost use Rattle.ram_cache.specs.Rooms.{pending_of};
    ghost use Rattle.ram_cache.specs.Flushes.{IsReady};

    /// Reads a part of a request from the disc.
    fn read_below(&mut self, part: Part, into: &mut [u8]) -> ReadOut
        requires inside { IsInRange (D.shows self.old.disc) part.request.lba part.request.n }
        requires covered { IsCovered part.request.lba part.request.n part.block }
        requires whole { length into.old ≡ 2048 * part.request.n }
        ensures cause { ReadsPart (shown_by D.Sectors self.old) (shown_by D.Sectors self.new)
            part.request.lba part.request.n part.block None result }
        ensures step { (v : Values) → ¬ IsPending (pending_of self.old.pending) part.block
            → stands_by D.Sectors self.old (Has v)
            → PartContents (stands_by D.Sectors self.new) v part.request.lba part.request.n part.block into.old
            into.new result }
        ensures same_shape { (D.shows self.new.disc).shape ≡ (D.shows self.old.disc).shape }
        ensures underwent { D.underwent self.old.disc self.new.disc }
    {
        let at = part.skipped();
        let len = SECTOR_BYTES * (part.end - part.start) as usize;
        let out = self
            .disc
            .read(part.start, part.end - part.start, &mut into[at..at + len]);
        self.after_read(out);
        out
    }

    /// Reads the part that a request has of the block after `k` others, from the cache where that block is pending.
    ///
    /// # Clauses
    ///
    /// - `Reading.antt`: a pending block comes from the cache, another by a read of the disc; the bytes are those of the shown
    ///   disc.
    fn read_part(&mut self, request: Request, k: u32, into: &mut [u8]) -> ReadOut
        requires inside { IsInRange (D.shows self.old.disc) request.lba request.n }
        requires covered { k < blocks_covered request.lba request.n }
        requires whole { length into.old ≡ 2048 * request.n }
        ensures cause { ReadsPart (shown_by D.Sectors self.old) (shown_by D.Sectors self.new) request.lba request.n
            (block_with request.lba + k) (bytes_at (block_with request.lba + k) (pending_of self.old.pending))
            result }
        ensures step { (v : Values) → stands_by D.Sectors self.old (Has v)
            → PartContents (stands_by D.Sectors self.new) v request.lba request.n (block_with request.lba + k)
            into.old into.new result }
        ensures same_shape { (D.shows self.new.disc).shape ≡ (D.shows self.old.disc).shape }
        ensures underwent { D.underwent self.old.disc self.new.disc }
    {
        let part = request.part(k);
        match self.pending.first_of(true, part.block, 1) {
            Some(index) => {
                part.copy_out(self.pending.block(index), into);
                ReadOut::Good
            }
            None => self.read_below(part, into),
        }
    }

    /// Reads all parts of a request, in order.
    ///
    /// # Clauses
    ///
    /// - `Reading.antt`: a pending block comes from the cache, another by a read of the disc; the bytes are those of the shown
    ///   disc.
    fn read_parts(&mut self, request: Request, into: &mut [u8]) -> ReadOut
        requires inside { IsInRange (D.shows self.old.disc) request.lba request.n }
        requires whole { length into.old ≡ 2048 * request.n }
        ensures cause { ReadPartsCause (shown_by D.Sectors self.old) (shown_by D.Sectors self.new) request.lba
            request.n result }
        ensures step { (s : Contents) → stands_by D.Sectors self.old s
            → ReadContents (stands_by D.Sectors self.new) s request.lba request.n into.new result }
        ensures same_shape { (D.shows self.new.disc).shape ≡ (D.shows self.old.disc).shape }
        ensures underwent { D.underwent self.old.disc self.new.disc }
    {
        for k in 0..request.blocks() {
            match self.read_part(request, k, into) {
                ReadOut::Good => {}
                ended => return ended,
            }
        }
        ReadOut::Good
    }

    /// Reads sectors of a disc that has n, and all pending blocks.
    fn read_on(&mut self, sectors: u32, lba: u32, n: u32, into: &mut [u8]) -> ReadOut
        requires few { n ≤ TRANSFER_LIMIT }
        requires whole { length into.old ≡ 2048 * n }
        requires ready { IsReady (shown_by D.Sectors self.old) sectors }
        ensures cause { CacheReadOn (shown_by D.Sectors self.old) (shown_by D.Sectors self.new) lba n result }
        ensures step { (s : Contents) → stands_by D.Sectors self.old s
            → ReadContents (stands_by D.Sectors self.new) s lba n into.new result }
        ensures same_shape { (D.shows self.new.disc).shape ≡ (D.shows self.old.disc).shape }
        ensures underwent { D.underwent self.old.disc self.new.disc }
    {
        if self.pending.is_empty() {
            return self.disc.read(lba, n, into);
        }
        match Request::within(sectors, lba, n) {
            Some(request) => self.read_parts(request, into),
            None => ReadOut::Range { capacity: sectors },
        }
    }

    /// Reads sectors while blocks are pending, or were until the disc was lent.
    pub(crate) fn read_entering(&mut self, lba: u32, n: u32, into: &mut [u8]) -> ReadOut
        requires few { n ≤ TRANSFER_LIMIT }
        requires whole { length into.old ≡ 2048 * n }
        ensures cause { CacheReadCause (shown_by D.Sectors self.old) (shown_by D.Sectors self.new) lba n result }
        ensures step { (s : Contents) → stands_by D.Sectors self.old s
            → ReadContents (stands_by D.Sectors self.new) s lba n into.new result }
        ensures same_shape { (D.shows self.new.disc).shape ≡ (D.shows self.old.disc).shape }
        ensures underwent { D.underwent self.old.disc self.new.disc }
    {
        match self.enter() {
            Entered::Off => ReadOut::Off,
            Entered::NotFormatted => ReadOut::NotFormatted,
            Entered::Formatted(sectors) => self.read_on(sectors, lba, n, into),
        }
    }
}
