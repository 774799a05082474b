//! The power of both sides of a mirror goes on, the record of each is read, and one of them starts as the lead.

ghost use Rattle.std.specs.Prelude.{◌≡◌, ◌≤◌, not, Bool, true, false};
ghost use Rattle.ram_sectors.specs.declared.TheConstants.{MOST_BLOCKS};
ghost use Rattle.model_drive.specs.Shown.{IsOn, IsFormatted, block_count};
ghost use Rattle.model_mirror.specs.Powers.{goes_before};
ghost use Rattle.ram_mirror.specs.Notes.{noted_of, leading_of};
ghost use Rattle.ram_mirror.specs.Sides.{SidesUnderwent};
ghost use Rattle.ram_mirror.specs.Powering.{WokenSide, tells_other, PowersLed, PowersLedStep};

use crate::following::{Following, Led};
use crate::noted::{Leading, Noted, read_record, was_read};
use crate::starting::start;
use model_mirror::{MirrorPowerOut, Waking};
use ram_record::LeadRecord;
use ram_sectors::{Disc, RecordOut, Sectors};

/// How many logical blocks the disc of a side has, which is on and formatted.
pub(crate) fn blocks_of<D: Disc>(side: &D) -> u32
    requires on { IsOn (D.shows side.now) }
    requires formatted { IsFormatted (D.shows side.now) }
    ensures count { result ≡ block_count (D.shows side.now) }
    ensures few { result ≤ MOST_BLOCKS }
{
    match side.capacity() {
        Some(capacity) => capacity / 16,
        None => unreachable!(),
    }
}

/// Powers a side, and then reads its record.
fn wake<D: Disc>(side: &mut D, noted: &mut Noted, room: &mut LeadRecord) -> Waking
    ensures wakes { WokenSide (D.shows side.old) (D.shows side.new) (noted_of noted.old) (noted_of noted.new)
        (D.stands side.old) (D.stands side.new) result }
    ensures underwent { D.underwent side.old side.new }
{
    let power = side.power();
    let record = read_record(side, noted, room);
    Waking { power, record }
}

/// Whether the other side has the greater number, or an equal one and the first name.
fn goes_before(lead_is_a: bool, lead: u32, other: u32) -> bool
    ensures { result ≡ goes_before lead_is_a lead other }
{
    if lead_is_a {
        return lead < other;
    }
    lead <= other
}

impl Leading {
    /// Whether the other side is to lead: where it is not known who leads, and both records tell.
    fn is_to_lead(&self, lead_is_a: bool, lead: RecordOut, other: RecordOut) -> bool
        ensures { result ≡ tells_other (leading_of self.now) lead_is_a lead other }
    {
        !self.known
            && was_read(lead)
            && was_read(other)
            && goes_before(lead_is_a, self.lead.most, self.other.most)
    }
}

/// Turns the power of both sides off and on again, and reads their records. Where it is not known who leads these tell. The lead starts.
pub(crate) fn power_both<L: Disc, O: Disc>(
    lead_is_a: bool,
    lead: &mut L,
    other: &mut O,
    following: &mut Following,
    room: &mut LeadRecord,
) -> Led<MirrorPowerOut>
    ensures cause { PowersLed L.Sectors O.Sectors lead_is_a lead.old other.old following.old
        lead.new other.new following.new result }
    ensures step { PowersLedStep L.Sectors O.Sectors lead_is_a lead.old other.old
        lead.new other.new following.new result }
    ensures underwent { SidesUnderwent L.Sectors O.Sectors lead.old other.old lead.new other.new }
{
    following.on = false;
    following.up = false;
    let here = wake(lead, &mut following.who.lead, room);
    let there = wake(other, &mut following.who.other, room);
    if following
        .who
        .is_to_lead(lead_is_a, here.record, there.record)
    {
        following.who.exchange();
        return Led::Given(start(other, lead, following, there, here));
    }
    Led::Kept(start(lead, other, following, here, there))
}
