//! Writes: through the cache, where the covered blocks that are pending go to the disc first; and into it.

ghost use Rattle.std.specs.Prelude.{◌≡◌, ◌≤◌, ◌<◌, ◌+◌, ◌*◌, ◌&&◌, nat_lt, true, false, None, IsOk, length, MatchBool};
ghost use Rattle.model_commands.specs.declared.TheConstants.{TRANSFER_LIMIT};
ghost use Rattle.model_sectors.specs.Requests.{block_with, blocks_covered, is_partly, IsCovered};
ghost use Rattle.model_sectors.specs.Discs.{Standing};
ghost use Rattle.model_drive.specs.Parts.{IsInRange};
ghost use Rattle.model_drive.specs.Writes.{WriteCause, WriteStep};
ghost use Rattle.model_cache.specs.Chains.{leaves_pending};
ghost use Rattle.model_cache.specs.Values.{Values, Contents, Has, IsPending};
ghost use Rattle.model_buffer.specs.Buffer.{bytes_at};
ghost use Rattle.ram_cache.specs.Staging.{StagesNext, RestOf, RestContents, StagedContents, StagesAll, TakesIn, HasRoomForBlocks, rest_out};
ghost use Rattle.ram_cache.specs.Calls.{WritesOn, WritesBy, WritesContents};
ghost use Rattle.model_cache.specs.declared.TheConstants.{CACHED_AT_ONCE};
ghost use Rattle.model_cache.specs.Steps.{ThroughContents, CachedContents};
ghost use Rattle.model_cache.specs.Causes.{ThroughCause, ThroughCauseOf, CachedCause, CachedCauseOf};

use crate::cached::Cached;
use crate::flushing::Entered;
use model_cache::{CACHED_AT_ONCE, CACHED_BLOCKS};
use ram_requests::{Part, Request};
use ram_sectors::{Disc, ReadOut, Sectors, WriteOut};

impl<D: Disc> Cached<D> {
    ghost use Rattle.ram_cache.specs.Caches.{shown_by, stands_by};
    ghost use Rattle.ram_cache.specs.Rooms.{pending_of, staged_of, room_of};
    ghost use Rattle.ram_cache.specs.Flushes.{IsReady};

    /// Writes a request on the disc.
    fn write_below(&mut self, request: Request, from: &[u8]) -> WriteOut
        requires few { request.n ≤ TRANSFER_LIMIT }
        requires whole { length from.now ≡ 2048 * request.n }
        ensures cause { WriteCause (D.shows self.old.disc) (D.shows self.new.disc) request.lba request.n result }
        ensures step { (s : Standing) → D.stands self.old.disc s
            → WriteStep (D.shows self.new.disc) (D.stands self.new.disc) s request.lba request.n from.now result }
        ensures left { pending_of self.new.pending ≡ leaves_pending result (pending_of self.old.pending) }
        ensures same_mode { self.new.on ≡ self.old.on }
        ensures same_shape { (D.shows self.new.disc).shape ≡ (D.shows self.old.disc).shape }
        ensures underwent { D.underwent self.old.disc self.new.disc }
    {
        let out = self.disc.write(request.lba, request.n, from);
        self.after_write(out);
        out
    }

    /// Writes a request through the cache, to a disc that has n sectors: the covered blocks that are pending go to the disc
    /// first, all of them, or the request is not written.
    ///
    /// # Clauses
    ///
    /// - `CachedCauseOf`, `ThroughCauseOf`: a write into the cache, and one through it.
    fn write_over(&mut self, request: Request, sectors: u32, from: &[u8]) -> WriteOut
        requires few { request.n ≤ TRANSFER_LIMIT }
        requires whole { length from.now ≡ 2048 * request.n }
        requires ready { IsReady (shown_by D.Sectors self.old) sectors }
        requires inside { IsInRange (D.shows self.old.disc) request.lba request.n }
        ensures cause { ThroughCauseOf (shown_by D.Sectors self.old) (shown_by D.Sectors self.new) request.lba
            request.n result }
        ensures step { (s : Contents) → stands_by D.Sectors self.old s
            → ThroughContents (shown_by D.Sectors self.old) (shown_by D.Sectors self.new)
            (stands_by D.Sectors self.new) s
            request.lba request.n from.now result }
        ensures same_shape { (D.shows self.new.disc).shape ≡ (D.shows self.old.disc).shape }
        ensures underwent { D.underwent self.old.disc self.new.disc }
    {
        let first = request.first();
        let blocks = request.blocks();
        let covered = self.pending.count_of(true, first, blocks);
        match self.drain(true, first, blocks, covered, sectors) {
            WriteOut::Good => self.write_below(request, from),
            refused => refused,
        }
    }

    /// Reads a block of a request whole into the room behind `staged` others of those to come.
    fn read_rest(&mut self, part: Part, staged: usize) -> Result<(), WriteOut>
        requires partly { is_partly part.request.lba part.request.n part.block ≡ true }
        requires covered { IsCovered part.request.lba part.request.n part.block }
        requires inside { IsInRange (D.shows self.old.disc) part.request.lba part.request.n }
        requires room { length (pending_of self.old.pending) + staged < 32 }
        ensures rule { RestOf (shown_by D.Sectors self.old) (shown_by D.Sectors self.new) part.request.lba
            part.request.n part.block result }
        ensures step { (v : Values) → ¬ IsPending (pending_of self.old.pending) part.block
            → stands_by D.Sectors self.old (Has v)
            → RestContents (stands_by D.Sectors self.new) v part.request.lba part.request.n part.block
            (room_of self.new.pending staged) result }
        ensures staged { IsOk result → staged_of self.new.pending staged ≡ staged_of self.old.pending staged }
        ensures same_shape { (D.shows self.new.disc).shape ≡ (D.shows self.old.disc).shape }
        ensures underwent { D.underwent self.old.disc self.new.disc }
    {
        let out = self.pending.read_rest(staged, &mut self.disc, part.block);
        self.after_read(out);
        told_of_rest(out, part.start)
    }

    /// The same where the request covers the block in part, and nothing else.
    fn rest_of(&mut self, part: Part, staged: usize) -> Result<(), WriteOut>
        requires covered { IsCovered part.request.lba part.request.n part.block }
        requires inside { IsInRange (D.shows self.old.disc) part.request.lba part.request.n }
        requires room { length (pending_of self.old.pending) + staged < 32 }
        ensures rule { RestOf (shown_by D.Sectors self.old) (shown_by D.Sectors self.new) part.request.lba
            part.request.n part.block result }
        ensures step { (v : Values) → ¬ IsPending (pending_of self.old.pending) part.block
            → stands_by D.Sectors self.old (Has v)
            → RestContents (stands_by D.Sectors self.new) v part.request.lba part.request.n part.block
            (room_of self.new.pending staged) result }
        ensures staged { IsOk result → staged_of self.new.pending staged ≡ staged_of self.old.pending staged }
        ensures same_shape { (D.shows self.new.disc).shape ≡ (D.shows self.old.disc).shape }
        ensures underwent { D.underwent self.old.disc self.new.disc }
    {
        if !part.is_partly() {
            return Ok(());
        }
        self.read_rest(part, staged)
    }

    /// Stages a block of a request that is not pending, behind `staged` others. Returns the new count.
    ///
    /// # Clauses
    ///
    /// - `rule` (`StagesNext`, `StagesAll`), `step`: the covered blocks that are not pending are made in free rooms, their rests
    ///   read; what is pending stays meanwhile, so where a rest cannot be read the write has done nothing but flush.
    fn stage_block(&mut self, part: Part, staged: usize, from: &[u8]) -> Result<usize, WriteOut>
        requires covered { IsCovered part.request.lba part.request.n part.block }
        requires inside { IsInRange (D.shows self.old.disc) part.request.lba part.request.n }
        requires room { length (pending_of self.old.pending) + staged < 32 }
        requires whole { length from.now ≡ 2048 * part.request.n }
        requires none { bytes_at part.block (pending_of self.old.pending) ≡ None }
        ensures rule { StagesNext (shown_by D.Sectors self.old) (shown_by D.Sectors self.new) part.request.lba
            part.request.n part.block from.now
            (staged_of self.old.pending staged) (staged_of self.new.pending) staged result }
        ensures step { (v : Values) → ¬ IsPending (pending_of self.old.pending) part.block
            → stands_by D.Sectors self.old (Has v)
            → StagedContents (stands_by D.Sectors self.new) v part.request.lba part.request.n part.block from.now None
            (staged_of self.old.pending staged) (staged_of self.new.pending) result }
        ensures same_shape { (D.shows self.new.disc).shape ≡ (D.shows self.old.disc).shape }
        ensures underwent { D.underwent self.old.disc self.new.disc }
    {
        match self.rest_of(part, staged) {
            Ok(()) => {
                self.pending.stage(staged, part, from);
                Ok(staged + 1)
            }
            Err(out) => Err(out),
        }
    }

    /// Makes the block after `k` others of a request one of those to come, if it is not pending.
    ///
    /// # Clauses
    ///
    /// - `rule` (`StagesNext`, `StagesAll`), `step`: the covered blocks that are not pending are made in free rooms, their rests
    ///   read; what is pending stays meanwhile, so where a rest cannot be read the write has done nothing but flush.
    fn stage_next(
        &mut self,
        request: Request,
        k: u32,
        staged: usize,
        from: &[u8],
    ) -> Result<usize, WriteOut>
        requires covered { k < blocks_covered request.lba request.n }
        requires inside { IsInRange (D.shows self.old.disc) request.lba request.n }
        requires room { bytes_at (block_with request.lba + k) (pending_of self.old.pending) ≡ None
            → length (pending_of self.old.pending) + staged < 32 }
        requires whole { length from.now ≡ 2048 * request.n }
        ensures rule { StagesNext (shown_by D.Sectors self.old) (shown_by D.Sectors self.new) request.lba
            request.n (block_with request.lba + k) from.now
            (staged_of self.old.pending staged) (staged_of self.new.pending) staged result }
        ensures step { (v : Values) → stands_by D.Sectors self.old (Has v)
            → StagedContents (stands_by D.Sectors self.new) v request.lba request.n (block_with request.lba + k)
            from.now
            (bytes_at (block_with request.lba + k) (pending_of self.old.pending))
            (staged_of self.old.pending staged) (staged_of self.new.pending) result }
        ensures same_shape { (D.shows self.new.disc).shape ≡ (D.shows self.old.disc).shape }
        ensures underwent { D.underwent self.old.disc self.new.disc }
    {
        let part = request.part(k);
        match self.pending.first_of(true, part.block, 1) {
            Some(_place) => Ok(staged),
            None => self.stage_block(part, staged, from),
        }
    }

    /// Makes all blocks of a request that are not pending ones to come. How many these are.
    ///
    /// # Clauses
    ///
    /// - `rule` (`StagesNext`, `StagesAll`), `step`: the covered blocks that are not pending are made in free rooms, their rests
    ///   read; what is pending stays meanwhile, so where a rest cannot be read the write has done nothing but flush.
    fn stage_all(&mut self, request: Request, from: &[u8]) -> Result<usize, WriteOut>
        requires inside { IsInRange (D.shows self.old.disc) request.lba request.n }
        requires room { HasRoomForBlocks (pending_of self.old.pending) request.lba request.n }
        requires whole { length from.now ≡ 2048 * request.n }
        ensures rule { StagesAll (shown_by D.Sectors self.old) (shown_by D.Sectors self.new) request.lba
            request.n from.now
            (staged_of self.new.pending) (stands_by D.Sectors self.old) (stands_by D.Sectors self.new) result }
        ensures same_shape { (D.shows self.new.disc).shape ≡ (D.shows self.old.disc).shape }
        ensures underwent { D.underwent self.old.disc self.new.disc }
    {
        let mut staged = 0;
        for k in 0..request.blocks() {
            match self.stage_next(request, k, staged, from) {
                Ok(more) => staged = more,
                Err(out) => return Err(out),
            }
        }
        Ok(staged)
    }

    /// Takes the covered blocks into the cache, once there is room for them.
    fn take_over(&mut self, request: Request, from: &[u8]) -> WriteOut
        requires inside { IsInRange (D.shows self.old.disc) request.lba request.n }
        requires room { HasRoomForBlocks (pending_of self.old.pending) request.lba request.n }
        requires whole { length from.now ≡ 2048 * request.n }
        ensures rule { TakesIn (shown_by D.Sectors self.old) (shown_by D.Sectors self.new) request.lba request.n
            from.now result }
        ensures step { (s : Contents) → stands_by D.Sectors self.old s
            → CachedContents (stands_by D.Sectors self.new) s request.lba request.n from.now result }
        ensures same_shape { (D.shows self.new.disc).shape ≡ (D.shows self.old.disc).shape }
        ensures underwent { D.underwent self.old.disc self.new.disc }
    {
        match self.stage_all(request, from) {
            Ok(staged) => {
                self.pending.take_in(request, staged, from);
                WriteOut::Good
            }
            Err(out) => out,
        }
    }

    /// Writes a request of few blocks into the cache, of a disc that has n sectors: of the pending blocks that it does not cover as
    /// many as have to leave first.
    ///
    /// # Clauses
    ///
    /// - `CachedCauseOf`, `ThroughCauseOf`: a write into the cache, and one through it.
    fn write_into(&mut self, request: Request, sectors: u32, from: &[u8]) -> WriteOut
        requires few { blocks_covered request.lba request.n ≤ CACHED_AT_ONCE }
        requires whole { length from.now ≡ 2048 * request.n }
        requires ready { IsReady (shown_by D.Sectors self.old) sectors }
        requires inside { IsInRange (D.shows self.old.disc) request.lba request.n }
        ensures cause { CachedCauseOf (shown_by D.Sectors self.old) (shown_by D.Sectors self.new) request.lba
            request.n from.now result }
        ensures step { (s : Contents) → stands_by D.Sectors self.old s
            → CachedContents (stands_by D.Sectors self.new) s request.lba request.n from.now result }
        ensures same_shape { (D.shows self.new.disc).shape ≡ (D.shows self.old.disc).shape }
        ensures underwent { D.underwent self.old.disc self.new.disc }
    {
        let first = request.first();
        let blocks = request.blocks();
        let others = self.pending.count_of(false, first, blocks);
        let leave = (others + blocks as usize).saturating_sub(CACHED_BLOCKS as usize);
        match self.drain(false, first, blocks, leave, sectors) {
            WriteOut::Good => self.take_over(request, from),
            refused => refused,
        }
    }

    /// Writes sectors of a disc that has n, and all pending blocks: into the cache where that is asked and few blocks are
    /// covered, and else through it.
    fn write_on(
        &mut self,
        into_cache: bool,
        sectors: u32,
        lba: u32,
        n: u32,
        from: &[u8],
    ) -> WriteOut
        requires few { n ≤ TRANSFER_LIMIT }
        requires whole { length from.now ≡ 2048 * n }
        requires ready { IsReady (shown_by D.Sectors self.old) sectors }
        ensures cause { WritesOn (shown_by D.Sectors self.old) (shown_by D.Sectors self.new) into_cache lba n
            from.now result }
        ensures step { (s : Contents) → stands_by D.Sectors self.old s → WritesContents (shown_by D.Sectors self.old)
            (shown_by D.Sectors self.new) (stands_by D.Sectors self.new) s into_cache lba n from.now result }
        ensures same_shape { (D.shows self.new.disc).shape ≡ (D.shows self.old.disc).shape }
        ensures underwent { D.underwent self.old.disc self.new.disc }
    {
        let Some(request) = Request::within(sectors, lba, n) else {
            return WriteOut::Range { capacity: sectors };
        };
        if into_cache && request.blocks() <= CACHED_AT_ONCE {
            self.write_into(request, sectors, from)
        } else {
            self.write_over(request, sectors, from)
        }
    }

    /// Writes sectors while blocks are pending, or while the cache is on.
    pub(crate) fn write_entering(
        &mut self,
        into_cache: bool,
        lba: u32,
        n: u32,
        from: &[u8],
    ) -> WriteOut
        requires few { n ≤ TRANSFER_LIMIT }
        requires whole { length from.now ≡ 2048 * n }
        ensures cause { WritesBy (shown_by D.Sectors self.old) (shown_by D.Sectors self.new) into_cache lba n
            from.now result }
        ensures step { (s : Contents) → stands_by D.Sectors self.old s → WritesContents (shown_by D.Sectors self.old)
            (shown_by D.Sectors self.new) (stands_by D.Sectors self.new) s into_cache lba n from.now result }
        ensures same_shape { (D.shows self.new.disc).shape ≡ (D.shows self.old.disc).shape }
        ensures underwent { D.underwent self.old.disc self.new.disc }
    {
        match self.enter() {
            Entered::Off => WriteOut::Off,
            Entered::NotFormatted => WriteOut::NotFormatted,
            Entered::Formatted(sectors) => self.write_on(into_cache, sectors, lba, n, from),
        }
    }
}

/// How the end of a read of a block's rest is told of a write: it is named by this sector.
fn told_of_rest(out: ReadOut, lba: u32) -> Result<(), WriteOut>
    ensures { result ≡ rest_out out lba }
{
    match out {
        ReadOut::Good => Ok(()),
        ReadOut::Unread { block, .. } => Err(WriteOut::Unread { lba, block }),
        ReadOut::Cut => Err(WriteOut::Cut),
        ReadOut::Fault => Err(WriteOut::Fault),
        ReadOut::NotFormatted | ReadOut::Range { .. } | ReadOut::Off => Err(WriteOut::Off),
    }
}
