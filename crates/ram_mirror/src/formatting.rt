//! A full format of a mirror: of the lead, and then of the other side.

ghost use Rattle.std.specs.Prelude.{◌≡◌, Bool, true};
ghost use Rattle.model_sectors.specs.Discs.{Standing};
ghost use Rattle.model_drive.specs.declared.FormatOut.TheVariants as formats;
ghost use Rattle.model_drive.specs.declared.Kind.TheVariants as kinds;
ghost use Rattle.model_drive.specs.Formats.{FormatStep};
ghost use Rattle.model_drive.specs.Shown.{block_count};
ghost use Rattle.model_drive.specs.Tells.{HasDisc};
ghost use Rattle.model_mirror.specs.Whole.{FormatsOn, up_after_format};
ghost use Rattle.ram_mirror.specs.Sides.{shown_by, stands_by, SidesUnderwent};

use crate::following::Following;
use crate::power::blocks_of;
use ram_sectors::{Disc, FormatOut, Kind, Sectors};

/// Whether the other side is alike after a good format of the lead, whose disc has this many blocks: its own was good, with as many.
fn is_alike<O: Disc>(other: &O, told: FormatOut, blocks: u32) -> bool
    requires formatted { told ≡ formats.Good → HasDisc (O.shows other.now) }
    ensures { result ≡ up_after_format formats.Good told blocks (block_count (O.shows other.now)) }
{
    match told {
        FormatOut::Good => blocks_of(other) == blocks,
        FormatOut::TooMany { .. }
        | FormatOut::NoUpdate { .. }
        | FormatOut::Cut
        | FormatOut::Off
        | FormatOut::Fault => false,
    }
}

/// Formats the lead of a mirror that is on anew, and forgets which blocks were defective; where that is good the other side too. Where
/// the lead has no disc afterwards the other side is down, and where it was stopped the mirror is off.
pub(crate) fn format_on<L: Disc, O: Disc>(
    lead: &mut L,
    other: &mut O,
    following: &mut Following,
) -> FormatOut
    requires on { following.old.on ≡ true }
    ensures cause { (side : Bool) → FormatsOn (shown_by L.Sectors O.Sectors side lead.old other.old following.old)
        (shown_by L.Sectors O.Sectors side lead.new other.new following.new) result }
    ensures step { (side : Bool) (s : Standing) → stands_by L.Sectors O.Sectors side lead.old other.old following.old s
        → FormatStep (L.shows lead.old) (L.shows lead.new)
        (stands_by L.Sectors O.Sectors side lead.new other.new following.new) s (kinds.Full true) result }
    ensures underwent { SidesUnderwent L.Sectors O.Sectors lead.old other.old lead.new other.new }
{
    let out = lead.format(Kind::Full { drop_sdl: true });
    match out {
        FormatOut::Good => {
            let blocks = blocks_of(lead);
            let told = other.format(Kind::Full { drop_sdl: true });
            following.up = is_alike(other, told, blocks);
            following.table.renew(blocks, false);
            out
        }
        FormatOut::TooMany { .. } => {
            following.up = false;
            out
        }
        FormatOut::NoUpdate { .. } => {
            following.after_unformatted(lead.capacity());
            out
        }
        FormatOut::Cut => {
            following.turn_off();
            out
        }
        FormatOut::Fault => {
            following.turn_off();
            out
        }
        FormatOut::Off => out,
    }
}
