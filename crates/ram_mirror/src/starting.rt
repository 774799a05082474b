//! A mirror starts with the side that leads: its number is above any that the other side may have, before it answers.

ghost use Rattle.std.specs.Prelude.{◌≡◌, ◌⊎◌, ◌&&◌, Bool, true, false};
ghost use Rattle.model_sectors.specs.Discs.{Standing};
ghost use Rattle.model_drive.specs.declared.RecordOut.TheVariants as records;
ghost use Rattle.model_drive.specs.Shown.{Shown};
ghost use Rattle.model_drive.specs.Tells.{HasDisc};
ghost use Rattle.model_mirror.specs.Powers.{is_ready_with, was_read, stays_on, stop_of, LeadStops, Finishes, RaisesFirst, OtherFollows, Leads, Starts};
ghost use Rattle.model_mirror.specs.declared.MirrorPowerOut.TheVariants as outs;
ghost use Rattle.ram_mirror.specs.Notes.{noted_of, RaiseStep};
ghost use Rattle.ram_mirror.specs.Sides.{shown_as, shown_by, SidesUnderwent};
ghost use Rattle.ram_mirror.specs.Powering.{is_ready, StartsAs};

use crate::following::Following;
use crate::noted::{raise, stays_on, was_read};
use crate::power::blocks_of;
use model_mirror::{MirrorPowerOut, Waking};
use ram_sectors::{Disc, PowerOut, RecordOut, Sectors};

/// Whether a side was powered with this capacity.
fn is_ready_with(capacity: u32, told: PowerOut) -> bool
    ensures { result ≡ is_ready_with capacity told }
{
    match told {
        PowerOut::Ready { capacity: other } => other == capacity,
        PowerOut::NotFormatted | PowerOut::Cut | PowerOut::Fault => false,
    }
}

/// The mirror is on, where the lead is. The other side is up where it is on with the lead's capacity, and then every block is apart.
fn finish<L: Disc, O: Disc>(
    lead: &L,
    other: &O,
    following: &mut Following,
    power: PowerOut,
    other_power: PowerOut,
    other_on: bool,
) -> MirrorPowerOut
    requires disc { is_ready power ≡ true → HasDisc (L.shows lead.now) }
    ensures cause { (side : Bool) → Finishes (shown_by L.Sectors O.Sectors side lead.now other.now following.old)
        (shown_by L.Sectors O.Sectors side lead.now other.now following.new) other_power other_on power result }
{
    match power {
        PowerOut::Ready { capacity } => {
            following.table.renew(blocks_of(lead), true);
            following.on = true;
            following.up = is_ready_with(capacity, other_power) && other_on;
            following.who.known = true;
            MirrorPowerOut::Ready { capacity }
        }
        PowerOut::NotFormatted => {
            following.on = true;
            following.who.known = true;
            MirrorPowerOut::NotFormatted
        }
        PowerOut::Cut => following.forget(),
        PowerOut::Fault => following.forget(),
    }
}

/// Makes the record of the other side, which was read, one with a number above 0.
fn raise_first<O: Disc>(other: &mut O, following: &mut Following, asked: RecordOut) -> RecordOut
    ensures raises { (side : Bool) (lead : Shown) → RaisesFirst (shown_as side lead (O.shows other.old) following.old)
        (shown_as side lead (O.shows other.new) following.new) (was_read asked) result }
    ensures step { (s : Standing) → O.stands other.old s → RaiseStep (O.stands other.new) s result }
    ensures same_shape { (O.shows other.new).shape ≡ (O.shows other.old).shape }
    ensures up { following.new.up ≡ following.old.up }
    ensures underwent { O.underwent other.old other.new }
{
    if !was_read(asked) {
        return RecordOut::Good;
    }
    raise(other, &mut following.who.other, 0)
}

/// Whether the power of a side is on still, after its record was asked for twice.
fn both_stay_on(first: RecordOut, then: RecordOut) -> bool
    ensures { result ≡ (stays_on first && stays_on then) }
{
    stays_on(first) && stays_on(then)
}

/// The other side gets the number 1 where it has none, and the mirror is on.
fn follow<L: Disc, O: Disc>(
    lead: &L,
    other: &mut O,
    following: &mut Following,
    here: Waking,
    there: Waking,
) -> MirrorPowerOut
    requires disc { is_ready here.power ≡ true → HasDisc (L.shows lead.now) }
    requires off { following.old.on ≡ false }
    requires down { following.old.up ≡ false }
    ensures cause { (side : Bool) → OtherFollows (shown_by L.Sectors O.Sectors side lead.now other.old following.old)
        (shown_by L.Sectors O.Sectors side lead.now other.new following.new) here there result }
    ensures step { (side : Bool) → here.record ≡ records.Good → StartsAs (L.stands lead.now) (L.stands lead.now)
        (O.stands other.old) (O.stands other.new) (shown_by L.Sectors O.Sectors side lead.now other.old following.old)
        (shown_by L.Sectors O.Sectors side lead.now other.new following.new) here there result }
    ensures underwent { O.underwent other.old other.new }
{
    let raised = raise_first(other, following, there.record);
    if !following.who.still_tells(raised) {
        return following.forget();
    }
    let on = both_stay_on(there.record, raised);
    finish(lead, other, following, here.power, there.power, on)
}

/// The number of the lead is made greater than any that the other side may have, and then the other one follows.
fn lead_on<L: Disc, O: Disc>(
    lead: &mut L,
    other: &mut O,
    following: &mut Following,
    here: Waking,
    there: Waking,
) -> MirrorPowerOut
    requires disc { is_ready here.power ≡ true → HasDisc (L.shows lead.old) }
    requires off { following.old.on ≡ false }
    requires down { following.old.up ≡ false }
    ensures cause { (side : Bool) → Leads (shown_by L.Sectors O.Sectors side lead.old other.old following.old)
        (shown_by L.Sectors O.Sectors side lead.new other.new following.new) here there result }
    ensures step { (side : Bool) → here.record ≡ records.Good → StartsAs (L.stands lead.old) (L.stands lead.new)
        (O.stands other.old) (O.stands other.new) (shown_by L.Sectors O.Sectors side lead.old other.old following.old)
        (shown_by L.Sectors O.Sectors side lead.new other.new following.new) here there result }
    ensures underwent { SidesUnderwent L.Sectors O.Sectors lead.old other.old lead.new other.new }
{
    let above = following.who.other.floor();
    match raise(lead, &mut following.who.lead, above) {
        RecordOut::Good => follow(lead, other, following, here, there),
        RecordOut::Lost => following.forget(),
        RecordOut::Cut => MirrorPowerOut::Cut,
        RecordOut::Off => following.forget(),
        RecordOut::Fault => MirrorPowerOut::Fault,
    }
}

impl Following {
    /// The lead was stopped, and so is the mirror: where it was not known who leads, it is not.
    fn stop(&mut self, stop: MirrorPowerOut) -> MirrorPowerOut
        requires off { self.old.on ≡ false }
        requires down { self.old.up ≡ false }
        ensures cause { (side : Bool) (lead other : Shown)
            → LeadStops (shown_as side lead other self.old) (shown_as side lead other self.new) stop result }
        ensures on { self.new.on ≡ false }
        ensures answers { (result ≡ stop) ⊎ (result ≡ outs.Unknown) }
    {
        if self.who.known {
            return stop;
        }
        self.forget()
    }
}

/// What a lead that was stopped in the mount answers.
fn stop_of(power: PowerOut) -> MirrorPowerOut
    ensures { result ≡ stop_of power }
{
    match power {
        PowerOut::Fault => MirrorPowerOut::Fault,
        PowerOut::Ready { .. } | PowerOut::NotFormatted | PowerOut::Cut => MirrorPowerOut::Cut,
    }
}

/// Starts with this lead, where its record was read and it can be told that it leads.
pub(crate) fn start<L: Disc, O: Disc>(
    lead: &mut L,
    other: &mut O,
    following: &mut Following,
    here: Waking,
    there: Waking,
) -> MirrorPowerOut
    requires disc { stays_on here.record ≡ true → is_ready here.power ≡ true → HasDisc (L.shows lead.old) }
    requires off { following.old.on ≡ false }
    requires down { following.old.up ≡ false }
    ensures cause { (side : Bool) → Starts (shown_by L.Sectors O.Sectors side lead.old other.old following.old)
        (shown_by L.Sectors O.Sectors side lead.new other.new following.new) here there result here.record }
    ensures step { (side : Bool) → StartsAs (L.stands lead.old) (L.stands lead.new)
        (O.stands other.old) (O.stands other.new) (shown_by L.Sectors O.Sectors side lead.old other.old following.old)
        (shown_by L.Sectors O.Sectors side lead.new other.new following.new) here there result }
    ensures underwent { SidesUnderwent L.Sectors O.Sectors lead.old other.old lead.new other.new }
{
    match here.record {
        RecordOut::Good => {
            if !following.who.can_tell(there.record) {
                return following.forget();
            }
            lead_on(lead, other, following, here, there)
        }
        RecordOut::Lost => following.forget(),
        RecordOut::Cut => following.stop(MirrorPowerOut::Cut),
        RecordOut::Off => following.stop(stop_of(here.power)),
        RecordOut::Fault => following.stop(MirrorPowerOut::Fault),
    }
}
