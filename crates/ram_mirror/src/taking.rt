//! The other side takes the lead from one that was stopped: its record is written first.

ghost use Rattle.std.specs.Prelude.{◌≡◌, Bool, true};
ghost use Rattle.model_drive.specs.Shown.{Shown};
ghost use Rattle.model_mirror.specs.Taking.{TakeStep};
ghost use Rattle.ram_mirror.specs.Sides.{TakesAs};

use crate::following::Following;
use crate::noted::raise;
use ram_sectors::{Disc, RecordOut, Sectors};

/// Gives the lead to the other side if it may have it and its record could be written, with a number above that of the lead. Else the
/// mirror is off.
pub(crate) fn take_lead<O: Disc>(other: &mut O, following: &mut Following) -> bool
    requires on { following.old.on ≡ true }
    ensures takes { (side : Bool) (lead : Shown) → TakesAs side lead (O.shows other.old) following.old
        (O.shows other.new) following.new result }
    ensures step { TakeStep (O.stands other.old) (O.stands other.new) result }
    ensures on { following.new.on ≡ result }
    ensures underwent { O.underwent other.old other.new }
{
    if !following.may_lead() {
        following.turn_off();
        return false;
    }
    match raise(other, &mut following.who.other, following.who.lead.most) {
        RecordOut::Good => {
            following.hand_over();
            true
        }
        RecordOut::Lost => {
            following.turn_off();
            false
        }
        RecordOut::Cut => {
            following.turn_off();
            false
        }
        RecordOut::Off => {
            following.turn_off();
            false
        }
        RecordOut::Fault => {
            following.turn_off();
            false
        }
    }
}
