//! What a run knows of who leads, and the record of one side: it is read, and made one with a greater number.

ghost use Rattle.std.specs.Prelude.{◌≡◌, true, false};
ghost use Rattle.model_sectors.specs.Discs.{Standing};
ghost use Rattle.model_drive.specs.Records.{RecordStep};
ghost use Rattle.model_mirror.specs.Leading.{NotesRecord, Raises, WritesNumber, exchanged_leading, floor_of, last_number};
ghost use Rattle.std.specs.Prelude.{◌+◌, ◌<◌};
ghost use Rattle.model_mirror.specs.Powers.{was_read, stays_on, can_tell, still_tells};
ghost use Rattle.ram_mirror.specs.Notes.{noted_of, leading_of, RaiseStep};

use ram_record::LeadRecord;
use ram_sectors::{Disc, RecordOut, Sectors};

/// The record of one side, as this run knows it.
#[derive(Drop)]
pub struct Noted {
    pub(crate) seen: bool,
    pub(crate) most: u32,
    pub(crate) held: LeadRecord,
}

/// Whether it is known who leads, and by hand; and the records of the side that leads and of the other one.
#[derive(Drop)]
pub struct Leading {
    pub(crate) known: bool,
    pub(crate) by_hand: bool,
    pub(crate) lead: Noted,
    pub(crate) other: Noted,
}

impl Leading {
    /// It is not known who leads, and no record was read.
    pub(crate) fn unknown(lead: LeadRecord, other: LeadRecord) -> Leading
        ensures known { result.known ≡ false }
        ensures by_hand { result.by_hand ≡ false }
        ensures lead { result.lead.seen ≡ false }
        ensures other { result.other.seen ≡ false }
    {
        Leading {
            known: false,
            by_hand: false,
            lead: Noted::unseen(lead),
            other: Noted::unseen(other),
        }
    }

    /// The sides exchange their roles.
    pub(crate) fn exchange(&mut self)
        ensures { leading_of self.new ≡ exchanged_leading (leading_of self.old) }
    {
        std::mem::swap(&mut self.lead, &mut self.other);
    }

    /// Whether it can be told that the lead leads, whose record was read, by how the other one's was.
    pub(crate) fn can_tell(&self, other: RecordOut) -> bool
        ensures { result ≡ can_tell (leading_of self.now) other }
    {
        match other {
            RecordOut::Good => true,
            RecordOut::Lost => self.by_hand,
            RecordOut::Cut | RecordOut::Off | RecordOut::Fault => self.known && self.other.seen,
        }
    }

    /// Whether it can be told still, after the record of the other side was begun to be written.
    pub(crate) fn still_tells(&self, raised: RecordOut) -> bool
        ensures { result ≡ still_tells (leading_of self.now) raised }
    {
        match raised {
            RecordOut::Lost => self.by_hand,
            RecordOut::Good | RecordOut::Cut | RecordOut::Off | RecordOut::Fault => true,
        }
    }
}

impl Noted {
    /// Nothing was read, and this is the room for it.
    fn unseen(held: LeadRecord) -> Noted
        ensures seen { result.seen ≡ false }
        ensures none { result.most ≡ 0 }
    {
        Noted {
            seen: false,
            most: 0,
            held,
        }
    }

    /// What the number of the lead is to be above, where this is the record of the other side.
    pub(crate) fn floor(&self) -> u32
        ensures { result ≡ floor_of (noted_of self.now) }
    {
        if self.most == 0 {
            return 1;
        }
        self.most
    }
}

/// Whether a record was read.
pub(crate) fn was_read(out: RecordOut) -> bool
    ensures { result ≡ was_read out }
{
    match out {
        RecordOut::Good => true,
        RecordOut::Lost | RecordOut::Cut | RecordOut::Off | RecordOut::Fault => false,
    }
}

/// Whether the power of a side is on still, after its record was asked for.
pub(crate) fn stays_on(out: RecordOut) -> bool
    ensures { result ≡ stays_on out }
{
    match out {
        RecordOut::Good | RecordOut::Lost => true,
        RecordOut::Cut | RecordOut::Off | RecordOut::Fault => false,
    }
}

/// Reads the record of a side. Where that is stopped any record is held.
pub(crate) fn read_record<D: Disc>(
    side: &mut D,
    noted: &mut Noted,
    room: &mut LeadRecord,
) -> RecordOut
    ensures notes { NotesRecord (D.shows side.old) (D.shows side.new) (noted_of noted.old) (noted_of noted.new) result }
    ensures step { (s : Standing) → D.stands side.old s → RecordStep (D.stands side.new) s result }
    ensures same_shape { (D.shows side.new).shape ≡ (D.shows side.old).shape }
    ensures underwent { D.underwent side.old side.new }
{
    let out = side.generation(&mut noted.held, room);
    match out {
        RecordOut::Good => {
            noted.seen = true;
            noted.most = noted.held.generation;
            out
        }
        RecordOut::Lost => {
            noted.seen = true;
            noted.most = 0;
            out
        }
        RecordOut::Cut => out,
        RecordOut::Off => out,
        RecordOut::Fault => out,
    }
}

/// Writes the record of a side with the number after this one.
fn write_above<D: Disc>(side: &mut D, noted: &mut Noted, above: u32) -> RecordOut
    requires more { above < last_number }
    ensures wrote { WritesNumber (D.shows side.old) (D.shows side.new)
        (noted_of noted.old) (noted_of noted.new) (above + 1) result }
    ensures step { (s : Standing) → D.stands side.old s → RecordStep (D.stands side.new) s result }
    ensures same_shape { (D.shows side.new).shape ≡ (D.shows side.old).shape }
    ensures underwent { D.underwent side.old side.new }
{
    noted.seen = true;
    noted.most = above + 1;
    noted.held.generation = above + 1;
    let out = side.lead_from(&noted.held);
    match out {
        RecordOut::Lost => {
            noted.most = 0;
            out
        }
        RecordOut::Good => out,
        RecordOut::Cut => out,
        RecordOut::Off => out,
        RecordOut::Fault => out,
    }
}

/// Makes the record of a side one with a number above this one, where it has none.
pub(crate) fn raise<D: Disc>(side: &mut D, noted: &mut Noted, above: u32) -> RecordOut
    ensures raises { Raises (D.shows side.old) (D.shows side.new)
        (noted_of noted.old) (noted_of noted.new) above result }
    ensures step { (s : Standing) → D.stands side.old s → RaiseStep (D.stands side.new) s result }
    ensures same_shape { (D.shows side.new).shape ≡ (D.shows side.old).shape }
    ensures underwent { D.underwent side.old side.new }
{
    if above < noted.most {
        return RecordOut::Good;
    }
    if above < u32::MAX {
        return write_above(side, noted, above);
    }
    RecordOut::Lost
}
