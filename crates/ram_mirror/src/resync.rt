//! A resynchronisation of a mirror: each block that is apart is copied from the lead to the other side, and each other block that the
//! lead lacks from there to the lead.

ghost use Rattle.std.specs.Prelude.{◌≡◌, ◌<◌, ◌≤◌, ◌+◌, ◌*◌, Bool, true, length};
ghost use Rattle.ram_sectors.specs.declared.TheConstants.{MOST_BLOCKS};
ghost use Rattle.model_sectors.specs.Discs.{Standing};
ghost use Rattle.model_drive.specs.Parts.{IsInRange};
ghost use Rattle.model_drive.specs.Reads.{VerifyStep};
ghost use Rattle.model_drive.specs.Shown.{Shown};
ghost use Rattle.model_drive.specs.Tells.{HasDisc};
ghost use Rattle.model_mirror.specs.Steps.{ResyncStep};
ghost use Rattle.model_mirror.specs.Whole.{ResyncsOn, left_of};
ghost use Rattle.ram_mirror.specs.Resyncs.{PassesBlock, ThroughAll};
ghost use Rattle.ram_mirror.specs.Sides.{shown_as, shown_by, stands_by, SidesUnderwent};

use crate::copying::copy_block;
use crate::following::Following;
use crate::mending::mend_block;
use crate::power::blocks_of;
use model_mirror::Resync;
use ram_sectors::{Disc, ReadOut, Sectors};

/// Copies a block if it is apart, and else mends it in the lead, while the other side is up.
fn pass_block<L: Disc, O: Disc>(
    lead: &mut L,
    other: &mut O,
    following: &mut Following,
    block: u32,
    room: &mut [u8],
) -> ReadOut
    requires room { length room.old ≡ 32768 }
    requires small { block < MOST_BLOCKS }
    requires inside { IsInRange (L.shows lead.old) (16 * block) 16 }
    requires on { following.old.on ≡ true }
    ensures room { length room.new ≡ 32768 }
    ensures cause { (side : Bool) → PassesBlock (shown_by L.Sectors O.Sectors side lead.old other.old following.old)
        (shown_by L.Sectors O.Sectors side lead.new other.new following.new) block result }
    ensures step { (side : Bool) (s : Standing) → stands_by L.Sectors O.Sectors side lead.old other.old following.old s
        → VerifyStep (stands_by L.Sectors O.Sectors side lead.new other.new following.new) s result }
    ensures underwent { SidesUnderwent L.Sectors O.Sectors lead.old other.old lead.new other.new }
{
    if !following.up {
        return ReadOut::Good;
    }
    if following.table.is_apart(block) {
        return copy_block(lead, other, following, block, room);
    }
    mend_block(lead, other, following, block, room)
}

/// How many blocks are apart still: all of the lead's where the other side is down.
fn left_in<L: Disc>(lead: &L, following: &Following) -> u32
    requires disc { HasDisc (L.shows lead.now) }
    ensures { (side : Bool) (other : Shown) → result ≡ left_of (shown_as side (L.shows lead.now) other following.now) }
{
    if following.up {
        return following.table.count();
    }
    blocks_of(lead)
}

/// Goes through all blocks, in rising order. Where the lead is stopped the mirror is off.
fn go_through<L: Disc, O: Disc>(
    lead: &mut L,
    other: &mut O,
    following: &mut Following,
    room: &mut [u8],
) -> ReadOut
    requires room { length room.old ≡ 32768 }
    requires disc { HasDisc (L.shows lead.old) }
    requires on { following.old.on ≡ true }
    ensures cause { (side : Bool) → ThroughAll (shown_by L.Sectors O.Sectors side lead.old other.old following.old)
        (shown_by L.Sectors O.Sectors side lead.new other.new following.new) result }
    ensures step { (side : Bool) (s : Standing) → stands_by L.Sectors O.Sectors side lead.old other.old following.old s
        → VerifyStep (stands_by L.Sectors O.Sectors side lead.new other.new following.new) s result }
    ensures underwent { SidesUnderwent L.Sectors O.Sectors lead.old other.old lead.new other.new }
{
    for block in 0..blocks_of(lead) {
        match pass_block(lead, other, following, block, room) {
            ReadOut::Cut => return ReadOut::Cut,
            ReadOut::Fault => return ReadOut::Fault,
            _ => {}
        }
    }
    ReadOut::Good
}

/// Copies each block that is apart from the lead of a mirror that is on to the other side, and mends the others in the lead, while the
/// other side is up.
pub(crate) fn resync_on<L: Disc, O: Disc>(
    lead: &mut L,
    other: &mut O,
    following: &mut Following,
    room: &mut [u8],
) -> Resync
    requires room { length room.old ≡ 32768 }
    requires on { following.old.on ≡ true }
    ensures cause { (side : Bool) → ResyncsOn (shown_by L.Sectors O.Sectors side lead.old other.old following.old)
        (shown_by L.Sectors O.Sectors side lead.new other.new following.new) result }
    ensures step { (side : Bool) (s : Standing) → stands_by L.Sectors O.Sectors side lead.old other.old following.old s
        → ResyncStep (stands_by L.Sectors O.Sectors side lead.new other.new following.new) s result }
    ensures underwent { SidesUnderwent L.Sectors O.Sectors lead.old other.old lead.new other.new }
{
    let counts = lead.counts();
    if !counts.powered {
        return Resync::Off;
    }
    if !counts.formatted {
        return Resync::NotFormatted;
    }
    match go_through(lead, other, following, room) {
        ReadOut::Cut => Resync::Cut,
        ReadOut::Fault => Resync::Fault,
        _ => Resync::Done {
            left: left_in(lead, following),
        },
    }
}
