//! The calls of a host, of a drive with a write cache.

ghost use Rattle.std.specs.Prelude.{◌≡◌};
ghost use Rattle.model_cache.proofs.Standing.{stands_alike, few_pending};
ghost use Rattle.ram_cache.specs.Calls.{drops_all};

use crate::cached::Cached;
use crate::flushing::Entered;
use ram_bytes::Block;
use ram_sectors::{
    Caching, Disc, DriveCounts, ExpandOut, FormatOut, Kind, PowerOut, ReadOut, Sectors, SyncOut,
    TickOut, WriteOut,
};

/// Whether a format leaves nothing pending when it is done: it is a full one, or the disc was not formatted.
fn drops_all(kind: Kind, formatted: bool) -> bool
    ensures { result ≡ drops_all kind formatted }
{
    match kind {
        Kind::Full { .. } => true,
        Kind::Rewrite => !formatted,
    }
}

impl<D: Disc> Cached<D> {
    ghost use Rattle.std.specs.Prelude.{[], if◌then◌else◌};
    ghost use Rattle.ram_cache.specs.Rooms.{pending_of};
    ghost use Rattle.ram_cache.specs.Calls.{LeftAfter, LeftExpanded};

    /// After a format of the disc, of which it is said whether it leaves nothing pending when it is done.
    fn after_format(&mut self, all: bool, out: FormatOut)
        ensures left { LeftAfter (D.shows self.old.disc) all out (pending_of self.old.pending)
            (pending_of self.new.pending) }
        ensures same_disc { self.new.disc ≡ self.old.disc }
        ensures same_mode { self.new.on ≡ self.old.on }
    {
        match out {
            FormatOut::Good => self.drop_if(all),
            FormatOut::Cut | FormatOut::Fault => self.pending.drop_all(),
            FormatOut::Off => {}
            FormatOut::TooMany { .. } | FormatOut::NoUpdate { .. } => {
                let formatted = self.disc.counts().formatted;
                self.drop_if(!formatted);
            }
        }
    }

    /// Drops all pending blocks, where that is asked.
    fn drop_if(&mut self, all: bool)
        ensures left { pending_of self.new.pending ≡ (if all then [] else pending_of self.old.pending) }
        ensures same_disc { self.new.disc ≡ self.old.disc }
        ensures same_mode { self.new.on ≡ self.old.on }
    {
        if all {
            self.pending.drop_all();
        }
    }

    /// After an expansion of the disc: the blocks that it lost are not pending.
    fn after_expansion(&mut self, out: ExpandOut)
        ensures left { LeftExpanded (D.shows self.old.disc) out (pending_of self.old.pending)
            (pending_of self.new.pending) }
        ensures same_disc { self.new.disc ≡ self.old.disc }
        ensures same_mode { self.new.on ≡ self.old.on }
    {
        match out {
            ExpandOut::Good => {
                let _ = self.enter();
            }
            ExpandOut::Cut | ExpandOut::Fault => self.pending.drop_all(),
            ExpandOut::NotFormatted
            | ExpandOut::Refused { .. }
            | ExpandOut::NoUpdate { .. }
            | ExpandOut::Off => {}
        }
    }
}

impl<D: Disc> Caching for Cached<D> {
    ghost use Rattle.ram_cache.specs.Caches.{shown_by, stands_by};
    ghost use Rattle.ram_cache.specs.Rooms.{pending_of};

    ghost shows = { λ cached. shown_by D.Sectors cached };

    ghost stands = { λ cached s. stands_by D.Sectors cached s };

    ghost underwent = { λ old new. D.underwent old.disc new.disc };

    fn capacity(&self) -> Option<u32> {
        self.disc.capacity()
    }

    fn caches(&self) -> bool {
        self.on
    }

    fn read(&mut self, lba: u32, n: u32, into: &mut [u8]) -> ReadOut {
        if self.pending.is_empty() {
            return self.disc.read(lba, n, into);
        }
        self.read_entering(lba, n, into)
    }

    fn write(&mut self, lba: u32, n: u32, from: &[u8]) -> WriteOut {
        if !self.on && self.pending.is_empty() {
            return self.disc.write(lba, n, from);
        }
        self.write_entering(self.on, lba, n, from)
    }

    fn power(&mut self) -> PowerOut {
        self.pending.drop_all();
        self.disc.power()
    }

    fn format(&mut self, kind: Kind) -> FormatOut {
        let all = drops_all(kind, self.disc.counts().formatted);
        let out = self.disc.format(kind);
        self.after_format(all, out);
        out
    }

    fn expand(&mut self, capacity: u32) -> ExpandOut {
        let out = self.disc.expand(capacity);
        self.after_expansion(out);
        out
    }

    fn verify(&mut self, lba: u32, n: u32) -> ReadOut {
        let out = self.disc.verify(lba, n);
        self.after_read(out);
        out
    }

    fn counts(&self) -> DriveCounts {
        self.disc.counts()
    }

    fn dds_block(&self, into: &mut Block) -> bool {
        self.disc.dds_block(into)
    }

    fn write_cache(&mut self, on: bool) {
        self.on = on;
    }

    fn write_through(&mut self, lba: u32, n: u32, from: &[u8]) -> WriteOut {
        if self.pending.is_empty() {
            return self.disc.write(lba, n, from);
        }
        self.write_entering(false, lba, n, from)
    }

    fn synchronize(&mut self) -> SyncOut {
        match self.enter() {
            Entered::Off => SyncOut::Off,
            Entered::NotFormatted => SyncOut::NotFormatted,
            Entered::Formatted(sectors) => self.synchronize_on(sectors),
        }
    }

    fn tick(&mut self) -> TickOut {
        match self.enter() {
            Entered::Off => TickOut::Off,
            Entered::NotFormatted => TickOut::Idle,
            Entered::Formatted(sectors) => self.tick_on(sectors),
        }
    }

    ghost laws = { record {
      as_shown = λ cached s. stands_alike (D.stands cached.disc) (D.shows cached.disc) (D.laws.as_shown cached.disc) (pending_of cached.pending) s;
      sound = λ cached. record { few = few_pending cached.pending.rooms.items cached.pending.count cached.pending.few; apart = cached.pending.apart; whole = cached.pending.whole };
      drive_sound = λ cached. D.laws.sound cached.disc;
    } };

    ghost underwent_laws = { record {
      none = λ cached. D.underwent_laws.none cached.disc;
      adds_up = λ old mid new. D.underwent_laws.adds_up old.disc mid.disc new.disc;
    } };
}
