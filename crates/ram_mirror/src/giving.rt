//! The lead is given to a side by hand.

ghost use Rattle.std.specs.Prelude.{◌≡◌, Bool};
ghost use Rattle.model_sectors.specs.Discs.{Standing};
ghost use Rattle.model_drive.specs.Shown.{Shown};
ghost use Rattle.model_mirror.specs.Giving.{GiveStep};
ghost use Rattle.model_mirror.specs.Leading.{next_number};
ghost use Rattle.ram_mirror.specs.Sides.{shown_as};
ghost use Rattle.ram_mirror.specs.Giving.{GivesNamed, GivesOver, is_given};

use crate::following::Following;
use crate::noted::raise;
use model_mirror::GiveOut;
use ram_sectors::{Disc, RecordOut, Sectors};

/// The number after this one, or the last.
fn next_number(above: u32) -> u32
    ensures { result ≡ next_number above }
{
    if above < u32::MAX {
        return above + 1;
    }
    u32::MAX
}

/// Gives the lead to the side that is named first. Its record is made one above that of the other side, and with at least 2. However
/// that ends the mirror is off.
pub(crate) fn give_to<D: Disc>(side: &mut D, following: &mut Following) -> GiveOut
    ensures cause { (is_a : Bool) (other : Shown) → GivesNamed (shown_as is_a (D.shows side.old) other following.old)
        (shown_as is_a (D.shows side.new) other following.new) result }
    ensures step { (s : Standing) → D.stands side.old s → GiveStep (D.stands side.new) s result }
    ensures underwent { D.underwent side.old side.new }
{
    if !side.counts().powered {
        return GiveOut::Off;
    }
    let above = following.who.other.floor();
    let told = raise(side, &mut following.who.lead, above);
    following.turn_off();
    match told {
        RecordOut::Good => {
            following.who.known = true;
            following.who.by_hand = true;
            GiveOut::Given
        }
        RecordOut::Lost => GiveOut::NoUpdate {
            counter: next_number(above),
        },
        RecordOut::Cut => GiveOut::Cut,
        RecordOut::Off => GiveOut::Off,
        RecordOut::Fault => GiveOut::Fault,
    }
}

/// Gives the lead to the side that is not named first: where that has it then, it is.
pub(crate) fn give_over<D: Disc>(side: &mut D, following: &mut Following) -> GiveOut
    ensures cause { (is_a : Bool) (lead : Shown) → GivesOver is_a lead (D.shows side.old) following.old
        (D.shows side.new) following.new result }
    ensures step { (s : Standing) → D.stands side.old s → GiveStep (D.stands side.new) s result }
    ensures underwent { D.underwent side.old side.new }
{
    following.who.exchange();
    let out = give_to(side, following);
    match out {
        GiveOut::Given => out,
        GiveOut::NoUpdate { .. } => {
            following.who.exchange();
            out
        }
        GiveOut::Cut => {
            following.who.exchange();
            out
        }
        GiveOut::Off => {
            following.who.exchange();
            out
        }
        GiveOut::Fault => {
            following.who.exchange();
            out
        }
    }
}

/// Whether the lead was given.
pub(crate) fn is_given(out: GiveOut) -> bool
    ensures { result ≡ is_given out }
{
    match out {
        GiveOut::Given => true,
        GiveOut::NoUpdate { .. } | GiveOut::Cut | GiveOut::Off | GiveOut::Fault => false,
    }
}
