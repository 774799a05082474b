//! Pending blocks are written to the disc: one, or those of a request, or all others. One that is refused goes behind the others, and
//! those behind it are tried all the same.

ghost use Rattle.std.specs.Prelude.{◌≡◌, ◌≤◌, ◌<◌, ◌*◌, ℕ, Some, length};
ghost use Rattle.model_drive.specs.Shown.{capacity};
ghost use Rattle.model_cache.specs.Values.{Contents};
ghost use Rattle.model_cache.specs.Steps.{SyncContents, TickContents};
ghost use Rattle.model_cache.specs.Causes.{DrainsAll, TickCauseOf, as_write, leaves_after_read};
ghost use Rattle.model_cache.specs.Chains.{leaves_pending};
ghost use Rattle.ram_cache.specs.Flushes.{tick_out, sync_out, first_told, drain_out};

use crate::cached::Cached;
use ram_sectors::{Disc, ReadOut, SyncOut, TickOut, WriteOut};

/// What a call finds of the disc as it begins.
#[derive(Clone, Copy)]
pub enum Entered {
    /// The power is off.
    Off,
    /// The disc is not formatted.
    NotFormatted,
    /// The disc has n sectors.
    Formatted(u32),
}

/// The first of the refusals that a drain met, where it met this one too.
fn first_told(told: Option<WriteOut>, out: WriteOut) -> Option<WriteOut>
    ensures { result ≡ Some (first_told told out) }
{
    match told {
        None => Some(out),
        Some(first) => Some(first),
    }
}

/// Returns how a drain ends that is `missing` blocks short, by the first refusal that it met.
fn drain_out(missing: usize, told: Option<WriteOut>) -> WriteOut
    ensures { result ≡ drain_out missing told }
{
    if missing == 0 {
        return WriteOut::Good;
    }
    match told {
        None => WriteOut::Good,
        Some(first) => first,
    }
}

/// How the end of a drain is told of a synchronisation.
fn told_of_sync(out: WriteOut) -> SyncOut
    ensures { result ≡ sync_out out }
{
    match out {
        WriteOut::Good => SyncOut::Good,
        WriteOut::NotFormatted => SyncOut::NotFormatted,
        WriteOut::NoSpare { lba } => SyncOut::NoSpare { lba },
        WriteOut::NoUpdate { counter } => SyncOut::NoUpdate { counter },
        WriteOut::Cut => SyncOut::Cut,
        WriteOut::Fault => SyncOut::Fault,
        WriteOut::Range { .. } | WriteOut::Unread { .. } | WriteOut::Off => SyncOut::Off,
    }
}

/// How the end of the write of the oldest pending block is told of a tick.
fn told_of_tick(out: WriteOut, lba: u32) -> TickOut
    ensures { result ≡ tick_out out lba }
{
    match out {
        WriteOut::Good => TickOut::Written { lba },
        WriteOut::NoSpare { lba } => TickOut::NoSpare { lba },
        WriteOut::NoUpdate { counter } => TickOut::NoUpdate { counter },
        WriteOut::Cut => TickOut::Cut,
        WriteOut::Fault => TickOut::Fault,
        WriteOut::NotFormatted | WriteOut::Range { .. } | WriteOut::Unread { .. } | WriteOut::Off =>
            TickOut::Off,
    }
}

impl<D: Disc> Cached<D> {
    ghost use Rattle.ram_cache.specs.Caches.{shown_by, stands_by};
    ghost use Rattle.ram_cache.specs.Rooms.{pending_of};
    ghost use Rattle.ram_cache.specs.Flushes.{CanFlush, IsReady, EnterRule, FlushesAt, FlushContents, DrainsDue, due_of};

    /// How a call begins: with the power on the pending blocks that the disc no longer has are dropped.
    ///
    /// # Clauses
    ///
    /// - `rule` (`EnterRule`), `step`: the power is off; or the disc is not formatted, and nothing is pending now; or it is, with
    ///   its sectors, and the pending blocks that it has not are dropped. That changes nothing of what the drive stands for.
    pub(crate) fn enter(&mut self) -> Entered
        ensures rule { EnterRule (shown_by D.Sectors self.old) (shown_by D.Sectors self.new) result }
        ensures same_disc { self.new.disc ≡ self.old.disc }
        ensures step { (s : Contents) → stands_by D.Sectors self.old s → stands_by D.Sectors self.new s }
    {
        if !self.disc.counts().powered {
            return Entered::Off;
        }
        match self.disc.capacity() {
            None => {
                self.pending.drop_all();
                Entered::NotFormatted
            }
            Some(sectors) => {
                self.pending.keep_below(sectors / 16);
                Entered::Formatted(sectors)
            }
        }
    }

    /// After a read or a verification of the disc: nothing stays pending where it was stopped.
    pub(crate) fn after_read(&mut self, out: ReadOut)
        ensures left { pending_of self.new.pending ≡ leaves_after_read out (pending_of self.old.pending) }
        ensures kept { out ≡ ReadOut.Good → self.new.pending ≡ self.old.pending }
        ensures same_disc { self.new.disc ≡ self.old.disc }
        ensures same_mode { self.new.on ≡ self.old.on }
    {
        if matches!(out, ReadOut::Cut | ReadOut::Fault) {
            self.pending.drop_all();
        }
    }

    /// After a write of the disc: nothing stays pending where it was stopped.
    pub(crate) fn after_write(&mut self, out: WriteOut)
        ensures left { pending_of self.new.pending ≡ leaves_pending out (pending_of self.old.pending) }
        ensures same_disc { self.new.disc ≡ self.old.disc }
        ensures same_mode { self.new.on ≡ self.old.on }
    {
        if matches!(out, WriteOut::Cut | WriteOut::Fault) {
            self.pending.drop_all();
        }
    }

    /// Writes the pending block at index `k` to the disc, which has `sectors` sectors and all pending blocks.
    ///
    /// # Clauses
    ///
    /// - `rule` (`FlushesAt`), `step` (`FlushContents`): the pending block at an index is written to the disc, and is gone where
    ///   that was good, or behind the others where it was refused; what is shown stays, and a stopped flush leaves two candidates of
    ///   the same values.
    fn flush(&mut self, k: usize, sectors: u32) -> WriteOut
        requires there { k < length (pending_of self.old.pending) }
        requires can { CanFlush (shown_by D.Sectors self.old) }
        requires sectors { sectors ≡ capacity (D.shows self.old.disc) }
        ensures rule { FlushesAt (shown_by D.Sectors self.old) (shown_by D.Sectors self.new) k result }
        ensures step { (s : Contents) → stands_by D.Sectors self.old s
            → FlushContents (stands_by D.Sectors self.new) s result }
        ensures same_shape { (D.shows self.new.disc).shape ≡ (D.shows self.old.disc).shape }
        ensures underwent { D.underwent self.old.disc self.new.disc }
    {
        let number = self.pending.number(k);
        let out = self
            .disc
            .write(16 * number, 16, self.pending.block(k).bytes());
        match out {
            WriteOut::Good => {
                self.pending.remove(k);
                self.pending.exchange_room(&mut self.disc);
            }
            WriteOut::Cut | WriteOut::Fault => self.pending.drop_all(),
            _ => self.pending.put_behind(k),
        }
        out
    }

    /// Tries pending blocks, each once, in the order in which they are pending, until enough have left: those that are among `count`
    /// blocks from block `first` on, or those that are not.
    ///
    /// # Clauses
    ///
    /// - `rule` (`DrainsDue`), `step`: the pending blocks that are among some numbers, or not among them, are tried in the order in
    ///   which they are pending, up to the one by which enough have left, or that is stopped. It serves `synchronize`, writes
    ///   through the cache, and writes for which room is needed.
    pub(crate) fn drain(
        &mut self,
        among: bool,
        first: u32,
        count: u32,
        enough: usize,
        sectors: u32,
    ) -> WriteOut
        requires can { CanFlush (shown_by D.Sectors self.old) }
        requires sectors { sectors ≡ capacity (D.shows self.old.disc) }
        requires enough { enough ≤ length (due_of among first count (shown_by D.Sectors self.old)) }
        ensures rule { DrainsDue (shown_by D.Sectors self.old) (shown_by D.Sectors self.new) among first count
            enough result }
        ensures step { (s : Contents) → stands_by D.Sectors self.old s
            → FlushContents (stands_by D.Sectors self.new) s result }
        ensures same_shape { (D.shows self.new.disc).shape ≡ (D.shows self.old.disc).shape }
        ensures underwent { D.underwent self.old.disc self.new.disc }
    {
        let mut missing = enough;
        let mut told = None;
        for _turn in 0..self.pending.count_of(among, first, count) {
            if missing == 0 {
                return WriteOut::Good;
            }
            let Some(k) = self.pending.first_of(among, first, count) else {
                unreachable!();
            };
            match self.flush(k, sectors) {
                WriteOut::Good => missing -= 1,
                WriteOut::Cut => return WriteOut::Cut,
                WriteOut::Fault => return WriteOut::Fault,
                refused => told = first_told(told, refused),
            }
        }
        drain_out(missing, told)
    }

    /// Tries all pending blocks of the disc, which has n sectors and all of them.
    pub(crate) fn synchronize_on(&mut self, sectors: u32) -> SyncOut
        requires ready { IsReady (shown_by D.Sectors self.old) sectors }
        ensures cause { DrainsAll (shown_by D.Sectors self.old) (shown_by D.Sectors self.new) (as_write result) }
        ensures step { (s : Contents) → stands_by D.Sectors self.old s
            → SyncContents (shown_by D.Sectors self.new) (stands_by D.Sectors self.new) s result }
        ensures same_shape { (D.shows self.new.disc).shape ≡ (D.shows self.old.disc).shape }
        ensures underwent { D.underwent self.old.disc self.new.disc }
    {
        let all = self.pending.len();
        let out = self.drain(false, 0, 0, all, sectors);
        told_of_sync(out)
    }

    /// Tries the oldest pending block of the disc, which has n sectors and all pending blocks.
    pub(crate) fn tick_on(&mut self, sectors: u32) -> TickOut
        requires ready { IsReady (shown_by D.Sectors self.old) sectors }
        ensures cause { TickCauseOf (shown_by D.Sectors self.old) (shown_by D.Sectors self.new) result }
        ensures step { (s : Contents) → stands_by D.Sectors self.old s
            → TickContents (stands_by D.Sectors self.new) s result }
        ensures same_shape { (D.shows self.new.disc).shape ≡ (D.shows self.old.disc).shape }
        ensures underwent { D.underwent self.old.disc self.new.disc }
    {
        if self.pending.is_empty() {
            return TickOut::Idle;
        }
        let lba = 16 * self.pending.number(0);
        let out = self.flush(0, sectors);
        told_of_tick(out, lba)
    }
}
