//! A disc that remembers whether what it lies on failed.

ghost use Rattle.std.specs.Prelude.{◌≡◌};
ghost use Rattle.std.proofs.Common.{refl, ◌∙◌};
ghost use Rattle.model_drive.specs.Faults.{faults};
ghost use Rattle.model_mirror.specs.Watching.{TracksFaults};
ghost use Rattle.model_mirror.proofs.Watching.{tracks_none, tracks_then};

use ram_bytes::Block;
use ram_record::LeadRecord;
use ram_sectors::{
    Disc, DriveCounts, ExpandOut, FormatOut, Kind, PowerOut, ReadOut, RecordOut, Sectors, WriteOut,
};

/// A disc, and whether a call of it answered Fault since one began to watch it.
#[derive(Drop)]
pub struct Watched<D: Disc> {
    pub(crate) disc: D,
    pub(crate) failed: bool,
}

impl<D: Disc> Sectors for Watched<D> {
    ghost shows = { λ watched. D.shows watched.disc };

    ghost stands = { λ watched s. D.stands watched.disc s };

    ghost underwent = { λ old new. D.underwent old.disc new.disc
        × TracksFaults (faults (D.shows old.disc)) (faults (D.shows new.disc)) old.failed new.failed
        × ((D.shows new.disc).shape ≡ (D.shows old.disc).shape) };

    fn capacity(&self) -> Option<u32> {
        self.disc.capacity()
    }

    fn read(&mut self, lba: u32, n: u32, into: &mut [u8]) -> ReadOut {
        let out = self.disc.read(lba, n, into);
        if let ReadOut::Fault = out {
            self.failed = true;
        }
        out
    }

    fn write(&mut self, lba: u32, n: u32, from: &[u8]) -> WriteOut {
        let out = self.disc.write(lba, n, from);
        if let WriteOut::Fault = out {
            self.failed = true;
        }
        out
    }

    fn power(&mut self) -> PowerOut {
        let out = self.disc.power();
        if let PowerOut::Fault = out {
            self.failed = true;
        }
        out
    }

    ghost laws = { record {
      as_shown = λ watched s. D.laws.as_shown watched.disc s;
      some = λ watched. D.laws.some watched.disc;
      sound = λ watched. D.laws.sound watched.disc;
    } };

    ghost underwent_laws = { record {
      none = λ watched. (D.underwent_laws.none watched.disc, tracks_none _ watched.failed, refl);
      adds_up = λ a b c one two. (
        D.underwent_laws.adds_up a.disc b.disc c.disc one.0 two.0,
        tracks_then _ _ _ a.failed b.failed c.failed one.1 two.1,
        two.2 ∙ one.2,
      );
    } };
}

impl<D: Disc> Disc for Watched<D> {
    fn format(&mut self, kind: Kind) -> FormatOut {
        let out = self.disc.format(kind);
        if let FormatOut::Fault = out {
            self.failed = true;
        }
        out
    }

    fn expand(&mut self, capacity: u32) -> ExpandOut {
        let out = self.disc.expand(capacity);
        if let ExpandOut::Fault = out {
            self.failed = true;
        }
        out
    }

    fn verify(&mut self, lba: u32, n: u32) -> ReadOut {
        let out = self.disc.verify(lba, n);
        if let ReadOut::Fault = out {
            self.failed = true;
        }
        out
    }

    fn generation(&mut self, best: &mut LeadRecord, other: &mut LeadRecord) -> RecordOut {
        let out = self.disc.generation(best, other);
        if let RecordOut::Fault = out {
            self.failed = true;
        }
        out
    }

    fn lead_from(&mut self, value: &LeadRecord) -> RecordOut {
        let out = self.disc.lead_from(value);
        if let RecordOut::Fault = out {
            self.failed = true;
        }
        out
    }

    fn counts(&self) -> DriveCounts {
        self.disc.counts()
    }

    fn dds_block(&self, into: &mut Block) -> bool {
        self.disc.dds_block(into)
    }

    fn exchange_room(&mut self, room: &mut Block) {
        self.disc.exchange_room(room);
    }
}
